//! What is read from.
ghost use Rattle.std.specs.Prelude.{◌≡◌, ◌<◌, ◌≤◌, ◌+◌, ◌-◌, ◌∷◌, ◌++◌, [], ℕ, max, Bool, List, length, IfOk, IfErr};
ghost use Rattle.std.specs.Prelude.{OnOk, OnErr, string_bytes, false};
ghost use Rattle.std.specs.Str.{is_utf8};
ghost use Rattle.serde_amqp_item.specs.declared.error.Error.{Error};
ghost use Rattle.serde_amqp_item.specs.declared.error.Error.TheVariants.{InvalidUtf8Encoding};
ghost use Rattle.serde_amqp_read.specs.Reads.{Begins, Leads, Named, NamedIfIo, Unless, ending_behind, faultless};
ghost use Rattle.serde_amqp_read.specs.Reads.{counted, just_ends, with_more, StrictBytes, NoStrict};

use crate::measure::take_form;
use crate::private::Sealed;
use serde_amqp_item::Error;
use std::alloc::Global;

/// A source of bytes. After an error nothing is left of it: it has failed.
///
/// The sources are those of this crate: no other type has this trait.
pub trait Read: Sealed {
    /// The bytes that are left; none once the reader has failed.
    ghost rest: { Self → List ℕ };

    /// The errors that are the reader's own, and say nothing of its bytes.
    ghost faulty: { Error → Bool };

    /// No error is: the sources of this crate are known to their end.
    ghost known: { (e : Error) → faulty e ≡ false };

    /// How many bytes were taken.
    ghost consumed: { Self → ℕ };

    /// What is answered where more bytes are wanted than are left: `Io`, with the kind that an inner reader
    /// answers behind its bytes, or with `UnexpectedEof` where the bytes just end.
    ghost ending: { Self → Error };

    /// How many bytes were fetched from an inner reader and not yet taken.
    ghost ahead: { Self → ℕ };

    /// How many bytes were taken by calls that answered Ok, or 2^64 - 1 where they are more.
    fn bytes_consumed(&self) -> usize
        ensures { result ≡ consumed self.now };

    /// The next byte, which stays unread.
    ///
    /// Errors: `Io` where nothing is left; `Memory`.
    fn peek(&mut self) -> Result<u8, Error>
        ensures ok { IfOk result (λ b. Begins b (rest self.old)) }
        ensures same { OnOk result (rest self.new ≡ rest self.old) }
        ensures end { Unless faulty result (rest self.old ≡ []) }
        ensures failed { OnErr result (rest self.new ≡ []) }
        ensures uncounted { consumed self.new ≡ consumed self.old }
        ensures named { IfErr result (Named (ending self.old)) }
        ensures lasting { ending self.new ≡ ending_behind result (ending self.old) }
        ensures ahead { ahead self.new ≤ max 1 (ahead self.old) };

    /// The next bytes, as many as the buffer has, which stay unread.
    ///
    /// Errors: `Io` where fewer are left; `Memory`.
    fn peek_bytes(&mut self, buffer: &mut [u8]) -> Result<(), Error>
        ensures ok { OnOk result (Leads buffer.new (rest self.old)) }
        ensures same { OnOk result (rest self.new ≡ rest self.old) }
        ensures len { length buffer.new ≡ length buffer.old }
        ensures end { Unless faulty result (length (rest self.old) < length buffer.old) }
        ensures failed { OnErr result (rest self.new ≡ []) }
        ensures uncounted { consumed self.new ≡ consumed self.old }
        ensures named { IfErr result (Named (ending self.old)) }
        ensures lasting { ending self.new ≡ ending_behind result (ending self.old) }
        ensures ahead { ahead self.new ≤ max (length buffer.old) (ahead self.old) };

    /// Takes the next byte.
    ///
    /// Errors: `Io` where nothing is left.
    fn next(&mut self) -> Result<u8, Error>
        ensures ok { IfOk result (λ b. rest self.old ≡ b ∷ rest self.new) }
        ensures end { Unless faulty result (rest self.old ≡ []) }
        ensures failed { OnErr result (rest self.new ≡ []) }
        ensures counted { consumed self.new ≡ counted result 1 (consumed self.old) }
        ensures named { IfErr result (λ e. e ≡ ending self.old) }
        ensures lasting { ending self.new ≡ ending_behind result (ending self.old) }
        ensures ahead { ahead self.new ≤ ahead self.old - 1 };

    /// Takes as many bytes as the buffer has.
    ///
    /// Errors: `Io` where fewer are left.
    fn read_exact(&mut self, buffer: &mut [u8]) -> Result<(), Error>
        ensures ok { OnOk result (rest self.old ≡ buffer.new ++ rest self.new) }
        ensures len { length buffer.new ≡ length buffer.old }
        ensures end { Unless faulty result (length (rest self.old) < length buffer.old) }
        ensures failed { OnErr result (rest self.new ≡ []) }
        ensures counted { consumed self.new
            ≡ counted result (length buffer.old) (consumed self.old) }
        ensures named { IfErr result (λ e. e ≡ ending self.old) }
        ensures lasting { ending self.new ≡ ending_behind result (ending self.old) }
        ensures ahead { ahead self.new ≤ ahead self.old - length buffer.old };

    /// Takes so many bytes and puts them behind those that stand in `bytes`, which after an error are
    /// as before. No more memory is taken than for the bytes that are there.
    ///
    /// Errors: `Io` where fewer are left; `Memory`.
    fn append_bytes(&mut self, count: usize, bytes: &mut Vec<u8>) -> Result<(), Error>
        ensures ok { OnOk result (bytes.new.items ++ rest self.new ≡ bytes.old.items
            ++ rest self.old) }
        ensures len { OnOk result (length bytes.new.items ≡ length bytes.old.items + count) }
        ensures kept { OnErr result (bytes.new.items ≡ bytes.old.items) }
        ensures end { Unless faulty result (length (rest self.old) < count) }
        ensures failed { OnErr result (rest self.new ≡ []) }
        ensures counted { consumed self.new ≡ counted result count (consumed self.old) }
        ensures named { IfErr result (Named (ending self.old)) }
        ensures lasting { ending self.new ≡ ending_behind result (ending self.old) }
        ensures ahead { ahead self.new ≤ ahead self.old - count };

    /// From here on the reader has failed: nothing is left.
    fn fail(&mut self)
        ensures failed { rest self.new ≡ [] }
        ensures uncounted { consumed self.new ≡ consumed self.old }
        ensures lasting { ending self.new ≡ just_ends }
        ensures ahead { ahead self.new ≤ ahead self.old };

    /// Takes `N` bytes.
    ///
    /// Errors: `Io` where fewer are left.
    final fn read_const_bytes<const N: usize>(&mut self) -> Result<[u8; N], Error>
        ensures ok { IfOk result (λ bytes. rest self.old ≡ bytes ++ rest self.new) }
        ensures len { IfOk result (λ bytes. length bytes ≡ N) }
        ensures end { Unless faulty result (length (rest self.old) < N) }
        ensures failed { OnErr result (rest self.new ≡ []) }
        ensures counted { consumed self.new ≡ counted result N (consumed self.old) }
        ensures named { IfErr result (λ e. e ≡ ending self.old) }
        ensures lasting { ending self.new ≡ ending_behind result (ending self.old) }
        ensures ahead { ahead self.new ≤ ahead self.old - N }
    {
        let mut bytes = [0; N];
        self.read_exact(&mut bytes)?;
        Ok(bytes)
    }

    /// Takes so many bytes. No more memory is taken than for the bytes that are there.
    ///
    /// Errors: `Io` where fewer are left; `Memory`.
    final fn read_bytes(&mut self, alloc: Global, count: usize) -> Result<Vec<u8>, Error>
        ensures ok { IfOk result (λ v. rest self.old ≡ v.items ++ rest self.new) }
        ensures len { IfOk result (λ v. length v.items ≡ count) }
        ensures end { Unless faulty result (length (rest self.old) < count) }
        ensures failed { OnErr result (rest self.new ≡ []) }
        ensures counted { consumed self.new ≡ counted result count (consumed self.old) }
        ensures named { IfErr result (Named (ending self.old)) }
        ensures lasting { ending self.new ≡ ending_behind result (ending self.old) }
        ensures ahead { ahead self.new ≤ ahead self.old - count }
    {
        let mut bytes = Vec::new(alloc);
        self.append_bytes(count, &mut bytes)?;
        Ok(bytes)
    }

    /// Takes so many bytes, as `read_bytes`. The count may be far more than there are: it takes no memory.
    ///
    /// Errors: `Io` where fewer are left; `Memory`.
    final fn forward_read_bytes_with_hint(
        &mut self,
        alloc: Global,
        count: usize,
    ) -> Result<Vec<u8>, Error>
        ensures ok { IfOk result (λ v. rest self.old ≡ v.items ++ rest self.new) }
        ensures len { IfOk result (λ v. length v.items ≡ count) }
        ensures end { Unless faulty result (length (rest self.old) < count) }
        ensures failed { OnErr result (rest self.new ≡ []) }
        ensures counted { consumed self.new ≡ counted result count (consumed self.old) }
        ensures named { IfErr result (Named (ending self.old)) }
        ensures lasting { ending self.new ≡ ending_behind result (ending self.old) }
        ensures ahead { ahead self.new ≤ ahead self.old - count }
    {
        self.read_bytes(alloc, count)
    }

    /// Takes a text of so many bytes.
    ///
    /// Errors: `Io` where fewer are left; `InvalidUtf8Encoding` where they are not UTF-8; `Memory`.
    #[tactic(auto, using(crate::proofs::Fronts::texts))]
    final fn forward_read_str(&mut self, alloc: Global, count: usize) -> Result<String, Error>
        ensures ok { IfOk result (λ s. rest self.old ≡ string_bytes s ++ rest self.new) }
        ensures len { IfOk result (λ s. length (string_bytes s) ≡ count) }
        ensures refused { Unless faulty result
            ((front more : List ℕ) → rest self.old ≡ front ++ more → length front ≡ count →
            is_utf8 front ≡ false) }
        ensures failed { OnErr result (rest self.new ≡ []) }
        ensures counted { OnOk result (consumed self.new ≡ with_more (consumed self.old) count) }
        ensures named { IfErr result (NamedIfIo (ending self.old)) }
        ensures lasting { ending self.new ≡ ending_behind result (ending self.old) }
        ensures ahead { ahead self.new ≤ ahead self.old - count }
    {
        let bytes = self.read_bytes(alloc, count)?;
        let text = text_of(bytes);
        if text.is_err() {
            self.fail();
        }
        text
    }

    /// Takes a strict form, be it as deep and as long as it may: the bytes of one value with its constructor, in
    /// which each size and each count is exact, texts are UTF-8, and the elements of an array are neither null nor
    /// described (part 1, section 1.2). Counts have no cap. Memory is taken for the bytes that are there, and for
    /// the forms that hold one another.
    ///
    /// Errors: `Io` where the input ends; `InvalidFormatCode`, `InvalidValue`, `InvalidUtf8Encoding` and
    /// `InvalidLength` where no strict form comes next; `Memory`.
    final fn forward_read_byte_buf(&mut self, alloc: Global) -> Result<Vec<u8>, Error>
    where
        Self: Sized,
        ensures ok { IfOk result (λ v. rest self.old ≡ v.items ++ rest self.new) }
        ensures strict { IfOk result (λ v. StrictBytes v.items) }
        ensures refused { Unless faulty result (NoStrict (rest self.old)) }
        ensures failed { OnErr result (rest self.new ≡ []) }
        ensures counted { IfOk result (λ v.
            with_more (consumed self.new) 0 ≡ with_more (consumed self.old) (length v.items)) }
        ensures named { IfErr result (NamedIfIo (ending self.old)) }
        ensures lasting { ending self.new ≡ ending_behind result (ending self.old) }
        ensures ahead { IfOk result (λ v. ahead self.new ≤ ahead self.old - length v.items) }
    {
        let form = take_form(self, alloc);
        if form.is_err() {
            self.fail();
        }
        form
    }
}

/// The text that these bytes are.
#[tactic(auto, using(crate::proofs::Fronts::texts))]
fn text_of(bytes: Vec<u8>) -> Result<String, Error>
    ensures ok { IfOk result (λ s. string_bytes s ≡ bytes.items) }
    ensures refused { Unless faultless result (is_utf8 bytes.items ≡ false) }
    ensures named { IfErr result (λ e. e ≡ InvalidUtf8Encoding) }
{
    match String::from_utf8(bytes) {
        Ok(text) => Ok(text),
        Err(_) => Err(Error::InvalidUtf8Encoding),
    }
}

//! Values that are lent from the slice that they are read from.
ghost use Rattle.std.specs.Prelude.{◌≡◌, ◌≢◌, ◌<◌, ◌∷◌, ◌++◌, [], ℕ, List, length, IfOk, IfErr, OnOk, OnErr, Option};
ghost use Rattle.std.specs.Prelude.{Some, None, true, false};
ghost use Rattle.std.specs.Int.{w32, to_be_bytes};
ghost use Rattle.std.specs.Str.{is_utf8};
ghost use Rattle.serde_amqp_item.specs.declared.error.Error.TheVariants.{InvalidUtf8Encoding, Memory};
ghost use Rattle.serde_amqp_item.specs.Item.{Item, scalar, binary, string, symbol};
ghost use Rattle.serde_amqp_item.specs.Wire.{Wire, one_byte, four_bytes};
ghost use Rattle.serde_amqp_item.specs.Kind.{Kind, binary_kind, string_kind, symbol_kind};
ghost use Rattle.serde_amqp_read.specs.Reads.{Unless, faultless};
ghost use Rattle.serde_amqp_de.specs.Reads.{Moves, Head, NoHead, ReadSized, NoSized, ReadText, NoText, Reads, Refuses};
ghost use Rattle.serde_amqp_de.specs.Reads.{Took};
ghost use Rattle.serde_amqp_de.specs.Lent.{slice_at, NoWant, SliceFailed};
ghost use Rattle.serde_amqp_de.specs.Names.{Names, NamesText, Named};
ghost use Rattle.serde_amqp_de.specs.Takes.{binary_taken, string_taken, symbol_taken};

use crate::deserializer::Deserializer;
use serde_amqp_item::{EncodingCodes, Error, code_of};
use serde_amqp_read::SliceReader;

/// A type whose values are lent from the slice that they are read from, which takes no memory.
pub trait BorrowDeserialize<'de>: Sized {
    /// The item that a value is.
    ghost item: { Self → Item };

    /// Which items the type takes, and the item of the value that it makes of one.
    ghost take: { Item → Option Item };

    /// Reads a value. After an error use the reader no more.
    ///
    /// Errors: exactly where no front of what is left is a wire form of an item that the type takes;
    /// `Memory` only where no 64 bits can count the bytes that were read and those that are left.
    fn read_borrowed(de: &mut Deserializer<SliceReader<'de>>) -> Result<Self, Error>
        ensures ok { IfOk result (λ v. Took take de.old.element (slice_at de.old) (slice_at de.new)
            (item v)) }
        ensures element { OnOk result (de.new.element ≡ de.old.element) }
        ensures refused { Unless faultless result (Refuses take de.old.element (slice_at de.old)) }
        ensures plain { IfErr result (λ e. NoWant (slice_at de.old) e) };
}

/// A string.
impl<'de> BorrowDeserialize<'de> for &'de str {
    ghost item = { λ s. scalar (string s.now) };

    ghost take = { string_taken };

    #[tactic(auto, using(crate::proofs::Values::taking))]
    fn read_borrowed(de: &mut Deserializer<SliceReader<'de>>) -> Result<&'de str, Error> {
        de.borrow_str()
    }
}

/// Reads a value from the front of the bytes, and lends what it holds from them. It takes no memory.
///
/// Errors: exactly where no front of the bytes is a wire form of an item that the type takes; never
/// `Memory`.
#[tactic(auto, using(crate::proofs::Lending::fresh))]
pub fn borrow_from_slice<'de, T: BorrowDeserialize<'de>>(bytes: &'de [u8]) -> Result<T, Error>
    ensures ok { IfOk result (λ v. (x : Item) × (front : List ℕ) × (more : List ℕ)
        × Wire x None front × (bytes.now ≡ front ++ more) × (T.take x ≡ Some (T.item v))) }
    ensures refused { Unless faultless result
        ((x : Item) (front more : List ℕ) → Wire x None front → bytes.now ≡ front ++ more →
        T.take x ≡ None) }
    ensures memory { IfErr result (λ e. e ≢ Memory) }
{
    let mut de = Deserializer::new(SliceReader::new(bytes));
    T::read_borrowed(&mut de)
}

impl<'de> Deserializer<SliceReader<'de>> {
    /// Lends the next bytes.
    #[tactic(auto, using(crate::proofs::Lending::lending))]
    fn lend(&mut self, count: usize) -> Result<&'de [u8], Error>
        ensures ok { IfOk result (λ s. Moves (slice_at self.old) (slice_at self.new) s.now) }
        ensures len { IfOk result (λ s. length s.now ≡ count) }
        ensures element { OnOk result (self.new.element ≡ self.old.element) }
        ensures end { Unless faultless result (length self.old.reader.rest < count) }
        ensures plain { IfErr result (λ e. NoWant (slice_at self.old) e) }
        ensures failed { OnErr result (SliceFailed self.new) }
    {
        let front = match self.reader.get_byte_slice(count) {
            Ok(front) => front,
            Err(e) => return Err(self.refuse(e)),
        };
        let Some(pos) = self.pos.checked_add(count) else {
            return Err(self.refuse(Error::Memory));
        };
        self.pos = pos;
        Ok(front)
    }

    /// The next bytes.
    fn lend_array<const N: usize>(&mut self) -> Result<[u8; N], Error>
        ensures ok { IfOk result (λ bs. Moves (slice_at self.old) (slice_at self.new) bs) }
        ensures len { IfOk result (λ bs. length bs ≡ N) }
        ensures element { OnOk result (self.new.element ≡ self.old.element) }
        ensures end { Unless faultless result (length self.old.reader.rest < N) }
        ensures plain { IfErr result (λ e. NoWant (slice_at self.old) e) }
        ensures failed { OnErr result (SliceFailed self.new) }
    {
        let front = self.lend(N)?;
        let mut bytes = [0; N];
        bytes.copy_from_slice(front);
        Ok(bytes)
    }

    /// The next byte.
    fn lend_byte(&mut self) -> Result<u8, Error>
        ensures ok { IfOk result (λ b. Moves (slice_at self.old) (slice_at self.new) (b ∷ [])) }
        ensures element { OnOk result (self.new.element ≡ self.old.element) }
        ensures end { Unless faultless result (self.old.reader.rest ≡ []) }
        ensures plain { IfErr result (λ e. NoWant (slice_at self.old) e) }
        ensures failed { OnErr result (SliceFailed self.new) }
    {
        let [byte] = self.lend_array::<1>()?;
        Ok(byte)
    }

    /// The next number of four bytes.
    fn lend_u32(&mut self) -> Result<u32, Error>
        ensures ok { IfOk result (λ n. Moves (slice_at self.old) (slice_at self.new)
            (to_be_bytes w32 n)) }
        ensures element { OnOk result (self.new.element ≡ self.old.element) }
        ensures end { Unless faultless result (length self.old.reader.rest < 4) }
        ensures plain { IfErr result (λ e. NoWant (slice_at self.old) e) }
        ensures failed { OnErr result (SliceFailed self.new) }
    {
        let bytes = self.lend_array::<4>()?;
        Ok(u32::from_be_bytes(bytes))
    }

    /// The constructor of the next value.
    #[tactic(auto, using(crate::proofs::Lending::lending))]
    fn lend_code(&mut self) -> Result<EncodingCodes, Error>
        ensures ok { IfOk result (λ code. Head self.old.element (slice_at self.old)
            (slice_at self.new) code) }
        ensures element { OnOk result (self.new.element ≡ self.old.element) }
        ensures refused { Unless faultless result (NoHead self.old.element self.old.reader.rest) }
        ensures plain { IfErr result (λ e. NoWant (slice_at self.old) e) }
        ensures failed { OnErr result (SliceFailed self.new) }
        ensures named { (t : Kind) → Named faultless result
            (Names t self.old.element self.old.reader.rest) }
    {
        let byte = match self.element {
            Some(c) => c,
            None => self.lend_byte()?,
        };
        match code_of(byte) {
            Some(code) => Ok(code),
            None => Err(self.refuse(Error::InvalidFormatCode)),
        }
    }

    /// Reads a size of one byte, and lends so many bytes.
    #[tactic(auto, using(crate::proofs::Lending::lending, crate::proofs::Sized::sizing))]
    fn lend8(&mut self) -> Result<&'de [u8], Error>
        ensures ok { IfOk result (λ s. ReadSized one_byte (slice_at self.old) (slice_at self.new)
            s.now) }
        ensures element { OnOk result (self.new.element ≡ self.old.element) }
        ensures refused { Unless faultless result (NoSized one_byte self.old.reader.rest) }
        ensures plain { IfErr result (λ e. NoWant (slice_at self.old) e) }
        ensures failed { OnErr result (SliceFailed self.new) }
    {
        let size = self.lend_byte()?;
        self.lend(size as usize)
    }

    /// Reads a size of four bytes, and lends so many bytes.
    #[tactic(auto, using(crate::proofs::Lending::lending, crate::proofs::Sized::sizing))]
    fn lend32(&mut self) -> Result<&'de [u8], Error>
        ensures ok { IfOk result (λ s. ReadSized four_bytes (slice_at self.old) (slice_at self.new)
            s.now) }
        ensures element { OnOk result (self.new.element ≡ self.old.element) }
        ensures refused { Unless faultless result (NoSized four_bytes self.old.reader.rest) }
        ensures plain { IfErr result (λ e. NoWant (slice_at self.old) e) }
        ensures failed { OnErr result (SliceFailed self.new) }
    {
        let size = self.lend_u32()?;
        self.lend(size as usize)
    }

    /// Reads a binary, and lends its bytes (part 1, section 1.6.19).
    ///
    /// Errors: `Io` where the input ends; `InvalidFormatCode` for any other type. `Memory` only where no
    /// 64 bits can count the bytes that were read and those that are left. After an error the reader has
    /// failed.
    #[tactic(auto, using(crate::proofs::Lending::lending, crate::proofs::Heads::refusing, crate::proofs::Sized::binaries))]
    pub fn borrow_bytes(&mut self) -> Result<&'de [u8], Error>
        ensures ok { IfOk result (λ s. Reads self.old.element (slice_at self.old)
            (slice_at self.new) (scalar (binary s.now))) }
        ensures element { OnOk result (self.new.element ≡ self.old.element) }
        ensures refused { Unless faultless result
            (Refuses binary_taken self.old.element (slice_at self.old)) }
        ensures plain { IfErr result (λ e. NoWant (slice_at self.old) e) }
        ensures failed { OnErr result (SliceFailed self.new) }
        ensures named { Named faultless result
            (Names binary_kind self.old.element self.old.reader.rest) }
    {
        match self.lend_code()? {
            EncodingCodes::Vbin8 => Ok(self.lend8()?),
            EncodingCodes::Vbin32 => Ok(self.lend32()?),
            _ => Err(self.refuse(Error::InvalidFormatCode)),
        }
    }

    /// Reads a size of one byte, and lends a text of so many bytes.
    #[tactic(auto, using(crate::proofs::Lending::lending, crate::proofs::Sized::texts))]
    fn lend_text8(&mut self) -> Result<&'de str, Error>
        ensures ok { IfOk result (λ s. ReadText one_byte (slice_at self.old) (slice_at self.new)
            s.now) }
        ensures element { OnOk result (self.new.element ≡ self.old.element) }
        ensures refused { Unless faultless result (NoText one_byte self.old.reader.rest) }
        ensures plain { IfErr result (λ e. NoWant (slice_at self.old) e) }
        ensures failed { OnErr result (SliceFailed self.new) }
        ensures named { Named faultless result (NamesText one_byte self.old.reader.rest) }
    {
        let bytes = self.lend8()?;
        match text_in(bytes) {
            Ok(text) => Ok(text),
            Err(e) => Err(self.refuse(e)),
        }
    }

    /// Reads a size of four bytes, and lends a text of so many bytes.
    #[tactic(auto, using(crate::proofs::Lending::lending, crate::proofs::Sized::texts))]
    fn lend_text32(&mut self) -> Result<&'de str, Error>
        ensures ok { IfOk result (λ s. ReadText four_bytes (slice_at self.old) (slice_at self.new)
            s.now) }
        ensures element { OnOk result (self.new.element ≡ self.old.element) }
        ensures refused { Unless faultless result (NoText four_bytes self.old.reader.rest) }
        ensures plain { IfErr result (λ e. NoWant (slice_at self.old) e) }
        ensures failed { OnErr result (SliceFailed self.new) }
        ensures named { Named faultless result (NamesText four_bytes self.old.reader.rest) }
    {
        let bytes = self.lend32()?;
        match text_in(bytes) {
            Ok(text) => Ok(text),
            Err(e) => Err(self.refuse(e)),
        }
    }

    /// Reads a string, and lends its text (part 1, section 1.6.20).
    ///
    /// Errors: `Io` where the input ends; `InvalidFormatCode` for any other type; `InvalidUtf8Encoding`
    /// for bytes that are not UTF-8. `Memory` only where no 64 bits can count the bytes that were read and
    /// those that are left. After an error the reader has failed.
    #[tactic(auto, using(crate::proofs::Lending::lending, crate::proofs::Heads::refusing, crate::proofs::Sized::strings))]
    pub fn borrow_str(&mut self) -> Result<&'de str, Error>
        ensures ok { IfOk result (λ s. Reads self.old.element (slice_at self.old)
            (slice_at self.new) (scalar (string s.now))) }
        ensures element { OnOk result (self.new.element ≡ self.old.element) }
        ensures refused { Unless faultless result
            (Refuses string_taken self.old.element (slice_at self.old)) }
        ensures plain { IfErr result (λ e. NoWant (slice_at self.old) e) }
        ensures failed { OnErr result (SliceFailed self.new) }
        ensures named { Named faultless result
            (Names string_kind self.old.element self.old.reader.rest) }
    {
        match self.lend_code()? {
            EncodingCodes::Str8 => Ok(self.lend_text8()?),
            EncodingCodes::Str32 => Ok(self.lend_text32()?),
            _ => Err(self.refuse(Error::InvalidFormatCode)),
        }
    }

    /// Reads a symbol, and lends its text (part 1, section 1.6.21).
    ///
    /// Errors: `Io` where the input ends; `InvalidFormatCode` for any other type; `InvalidUtf8Encoding`
    /// for bytes that are not UTF-8. `Memory` only where no 64 bits can count the bytes that were read and
    /// those that are left. After an error the reader has failed.
    #[tactic(auto, using(crate::proofs::Lending::lending, crate::proofs::Heads::refusing, crate::proofs::Sized::symbols))]
    pub fn borrow_symbol(&mut self) -> Result<&'de str, Error>
        ensures ok { IfOk result (λ s. Reads self.old.element (slice_at self.old)
            (slice_at self.new) (scalar (symbol s.now))) }
        ensures element { OnOk result (self.new.element ≡ self.old.element) }
        ensures refused { Unless faultless result
            (Refuses symbol_taken self.old.element (slice_at self.old)) }
        ensures plain { IfErr result (λ e. NoWant (slice_at self.old) e) }
        ensures failed { OnErr result (SliceFailed self.new) }
        ensures named { Named faultless result
            (Names symbol_kind self.old.element self.old.reader.rest) }
    {
        match self.lend_code()? {
            EncodingCodes::Sym8 => Ok(self.lend_text8()?),
            EncodingCodes::Sym32 => Ok(self.lend_text32()?),
            _ => Err(self.refuse(Error::InvalidFormatCode)),
        }
    }
}

/// The text that the bytes are.
#[tactic(auto, using(crate::proofs::Sized::texts))]
fn text_in<'a>(bytes: &'a [u8]) -> Result<&'a str, Error>
    ensures ok { IfOk result (λ s. (s.now ≡ bytes.now) × (is_utf8 bytes.now ≡ true)) }
    ensures refused { Unless faultless result (is_utf8 bytes.now ≡ false) }
    ensures plain { IfErr result (λ e. e ≡ InvalidUtf8Encoding) }
{
    match std::str::from_utf8(bytes) {
        Ok(text) => Ok(text),
        Err(_) => Err(Error::InvalidUtf8Encoding),
    }
}

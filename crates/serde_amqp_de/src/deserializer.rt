//! The tokens of wire forms: constructors, scalars, and the heads of lists and arrays.
ghost use Rattle.std.specs.Prelude.{◌≡◌, ◌≢◌, ◌<◌, ◌∷◌, ◌++◌, [], ℕ, List, length, IfOk, IfErr, OnOk, OnErr, Option};
ghost use Rattle.std.specs.Prelude.{Some, None, true, false, string_bytes};
ghost use Rattle.std.specs.Int.{w16, w32, w64, to_be_bytes};
ghost use Rattle.std.specs.Str.{is_utf8};
ghost use Rattle.serde_amqp_item.specs.declared.error.Error.TheVariants.{InvalidUtf8Encoding};
ghost use Rattle.serde_amqp_item.specs.Item.{scalar, null, boolean, ushort, uint, ulong, string, symbol, list, array};
ghost use Rattle.serde_amqp_item.specs.declared.codes.EncodingCodes.TheVariants.{DescribedType};
ghost use Rattle.serde_amqp_item.specs.Wire.{one_byte, four_bytes, IsElementCode};
ghost use Rattle.serde_amqp_item.specs.Kind.{Kind, null_kind, boolean_kind, ushort_kind, uint_kind, ulong_kind};
ghost use Rattle.serde_amqp_item.specs.Kind.{string_kind, symbol_kind, list_kind, array_kind, described_kind};
ghost use Rattle.serde_amqp_read.specs.Reads.{Unless, faultless};
ghost use Rattle.serde_amqp_de.specs.Reads.{At, Moves, Head, Foresees, NoHead, ReadSized, NoSized, ReadText, NoText};
ghost use Rattle.serde_amqp_de.specs.Reads.{ReadCount, NoElementCode, Reads, Refuses, at_of, Opens, HasFailed};
ghost use Rattle.serde_amqp_de.specs.Names.{Names, NamesText, NamesElement, Named, Led, Says};
ghost use Rattle.serde_amqp_de.specs.Takes.{null_taken, boolean_taken, ushort_taken, uint_taken, ulong_taken};
ghost use Rattle.serde_amqp_de.specs.Takes.{string_taken, symbol_taken, list_taken, array_taken, described_taken};

use crate::constructor::constructor_of;
use crate::short::Kept;
use serde_amqp_item::{EncodingCodes, Error, MAX_ARRAY_COUNT, code_of};
use serde_amqp_read::Read;
use std::alloc::Global;
use std::marker::Model;

/// Reads values from a reader.
///
/// A clause sees the `reader`, the constructor that an element of an array inherits (part 1, section 1.2) as
/// `element`, and how many bytes were read as `pos`.
#[derive(Debug, Drop)]
pub struct Deserializer<R> {
    pub(crate) reader: R,
    pub(crate) element: Option<u8>,
    pub(crate) pos: usize,
}

impl<R> Model for Deserializer<R> {
    ghost use Rattle.serde_amqp_de.specs.Reads.{Reading};

    ghost Value = { Reading R };

    ghost view = { λ d. record { reader = d.reader; element = d.element; pos = d.pos } };
}

impl<R: Read> Deserializer<R> {
    /// Reads from the front of the reader.
    pub fn new(reader: R) -> Deserializer<R>
        ensures rest { R.rest result.reader ≡ R.rest reader }
        ensures start { (result.element ≡ None) × (result.pos ≡ 0) }
    {
        Deserializer {
            reader,
            element: None,
            pos: 0,
        }
    }

    /// The reader, at the first byte that was not read.
    pub fn into_reader(self) -> R
        ensures { R.rest result ≡ R.rest self.reader }
    {
        self.reader
    }

    /// The constructor that the next value inherits as an element of an array, if it does (part 1, section 1.2).
    #[inline(always)]
    pub fn element(&self) -> Option<u8>
        ensures { result ≡ self.now.element }
    {
        self.element
    }

    /// From here on values inherit this constructor, or none.
    #[inline(always)]
    pub fn set_element(&mut self, element: Option<u8>)
        ensures { self.new ≡ record self.old { element = element } }
    {
        self.element = element;
    }

    /// How many bytes were read.
    #[inline(always)]
    pub fn pos(&self) -> usize
        ensures { result ≡ self.now.pos }
    {
        self.pos
    }

    /// From here on the reader has failed: each later call is refused.
    pub fn fail(&mut self)
        ensures { HasFailed R.rest self.new }
    {
        self.reader.fail();
        self.element = None;
    }

    /// The reader fails, and this is why.
    #[cold]
    pub(crate) fn refuse(&mut self, error: Error) -> Error
        ensures same { result ≡ error }
        ensures failed { HasFailed R.rest self.new }
    {
        self.fail();
        error
    }

    #[inline(always)]
    pub(crate) fn next_byte(&mut self) -> Result<u8, Error>
        ensures ok { IfOk result (λ b. Moves (at_of R.rest self.old) (at_of R.rest self.new)
            (b ∷ [])) }
        ensures element { OnOk result (self.new.element ≡ self.old.element) }
        ensures end { Unless R.faulty result (R.rest self.old.reader ≡ []) }
        ensures failed { OnErr result (HasFailed R.rest self.new) }
    {
        let Some(pos) = self.pos.checked_add(1) else {
            return Err(self.refuse(Error::Memory));
        };
        let byte = match self.reader.next() {
            Ok(byte) => byte,
            Err(e) => return Err(self.refuse(e)),
        };
        self.pos = pos;
        Ok(byte)
    }

    pub(crate) fn next_bytes<const N: usize>(&mut self) -> Result<[u8; N], Error>
        ensures ok { IfOk result (λ bs. Moves (at_of R.rest self.old) (at_of R.rest self.new) bs) }
        ensures len { IfOk result (λ bs. length bs ≡ N) }
        ensures element { OnOk result (self.new.element ≡ self.old.element) }
        ensures end { Unless R.faulty result (length (R.rest self.old.reader) < N) }
        ensures failed { OnErr result (HasFailed R.rest self.new) }
    {
        let Some(pos) = self.pos.checked_add(N) else {
            return Err(self.refuse(Error::Memory));
        };
        let mut bytes = [0; N];
        if let Err(e) = self.reader.read_exact(&mut bytes) {
            return Err(self.refuse(e));
        }
        self.pos = pos;
        Ok(bytes)
    }

    pub(crate) fn next_u16(&mut self) -> Result<u16, Error>
        ensures ok { IfOk result (λ n. Moves (at_of R.rest self.old) (at_of R.rest self.new)
            (to_be_bytes w16 n)) }
        ensures element { OnOk result (self.new.element ≡ self.old.element) }
        ensures end { Unless R.faulty result (length (R.rest self.old.reader) < 2) }
        ensures failed { OnErr result (HasFailed R.rest self.new) }
    {
        let bytes = self.next_bytes::<2>()?;
        Ok(u16::from_be_bytes(bytes))
    }

    pub(crate) fn next_u32(&mut self) -> Result<u32, Error>
        ensures ok { IfOk result (λ n. Moves (at_of R.rest self.old) (at_of R.rest self.new)
            (to_be_bytes w32 n)) }
        ensures element { OnOk result (self.new.element ≡ self.old.element) }
        ensures end { Unless R.faulty result (length (R.rest self.old.reader) < 4) }
        ensures failed { OnErr result (HasFailed R.rest self.new) }
    {
        let bytes = self.next_bytes::<4>()?;
        Ok(u32::from_be_bytes(bytes))
    }

    pub(crate) fn next_u64(&mut self) -> Result<u64, Error>
        ensures ok { IfOk result (λ n. Moves (at_of R.rest self.old) (at_of R.rest self.new)
            (to_be_bytes w64 n)) }
        ensures element { OnOk result (self.new.element ≡ self.old.element) }
        ensures end { Unless R.faulty result (length (R.rest self.old.reader) < 8) }
        ensures failed { OnErr result (HasFailed R.rest self.new) }
    {
        let bytes = self.next_bytes::<8>()?;
        Ok(u64::from_be_bytes(bytes))
    }

    /// Reads so many bytes.
    fn bytes<B: Kept>(&mut self, alloc: Global, count: usize) -> Result<B, Error>
        ensures ok { IfOk result (λ v. Moves (at_of R.rest self.old) (at_of R.rest self.new)
            (B.items v)) }
        ensures len { IfOk result (λ v. length (B.items v) ≡ count) }
        ensures element { OnOk result (self.new.element ≡ self.old.element) }
        ensures end { Unless R.faulty result (length (R.rest self.old.reader) < count) }
        ensures failed { OnErr result (HasFailed R.rest self.new) }
    {
        let Some(pos) = self.pos.checked_add(count) else {
            return Err(self.refuse(Error::Memory));
        };
        let bytes = match B::take(&mut self.reader, alloc, count) {
            Ok(bytes) => bytes,
            Err(e) => return Err(self.refuse(e)),
        };
        self.pos = pos;
        Ok(bytes)
    }

    /// The constructor of the next value, which stays unread.
    ///
    /// Errors: `Io` where nothing is left; `InvalidFormatCode` where the byte is no constructor. After an
    /// error the reader has failed.
    #[inline(always)]
    #[tactic(auto, using(crate::proofs::Heads::foreseeing))]
    pub fn peek(&mut self) -> Result<EncodingCodes, Error>
        ensures ok { IfOk result (λ code. Foresees self.old.element (at_of R.rest self.old) code) }
        ensures same { OnOk result (at_of R.rest self.new ≡ at_of R.rest self.old) }
        ensures element { OnOk result (self.new.element ≡ self.old.element) }
        ensures refused { Unless R.faulty result
            (NoHead self.old.element (R.rest self.old.reader)) }
        ensures failed { OnErr result (HasFailed R.rest self.new) }
        ensures named { (t : Kind) → Named R.faulty result
            (Names t self.old.element (R.rest self.old.reader)) }
    {
        let byte = match self.element {
            Some(c) => c,
            None => self.reader.peek()?,
        };
        match constructor_of(byte) {
            Some(code) => Ok(code),
            None => Err(self.refuse(Error::InvalidFormatCode)),
        }
    }

    /// Reads the constructor of the next value.
    #[inline(always)]
    pub(crate) fn code(&mut self) -> Result<EncodingCodes, Error>
        ensures ok { IfOk result (λ code. Head self.old.element (at_of R.rest self.old)
            (at_of R.rest self.new) code) }
        ensures element { OnOk result (self.new.element ≡ self.old.element) }
        ensures refused { Unless R.faulty result
            (NoHead self.old.element (R.rest self.old.reader)) }
        ensures failed { OnErr result (HasFailed R.rest self.new) }
        ensures named { (t : Kind) → Named R.faulty result
            (Names t self.old.element (R.rest self.old.reader)) }
    {
        let byte = match self.element {
            Some(c) => c,
            None => self.next_byte()?,
        };
        match constructor_of(byte) {
            Some(code) => Ok(code),
            None => Err(self.refuse(Error::InvalidFormatCode)),
        }
    }

    /// Reads null (part 1, section 1.6.1).
    ///
    /// Errors: `Io` where the input ends; `InvalidFormatCode` for any other constructor. After an error the
    /// reader has failed.
    #[tactic(auto, using(crate::proofs::Heads::refusing, crate::proofs::Scalars::nulls))]
    pub fn deserialize_unit(&mut self) -> Result<(), Error>
        ensures ok { OnOk result (Reads self.old.element (at_of R.rest self.old)
            (at_of R.rest self.new) (scalar null)) }
        ensures element { OnOk result (self.new.element ≡ self.old.element) }
        ensures refused { Unless R.faulty result
            (Refuses null_taken self.old.element (at_of R.rest self.old)) }
        ensures failed { OnErr result (HasFailed R.rest self.new) }
        ensures named { Named R.faulty result
            (Names null_kind self.old.element (R.rest self.old.reader)) }
    {
        match self.code()? {
            EncodingCodes::Null => Ok(()),
            _ => Err(self.refuse(Error::InvalidFormatCode)),
        }
    }

    /// Reads a boolean (part 1, section 1.6.2).
    ///
    /// Errors: `Io` where the input ends; `InvalidFormatCode` for any other type; `InvalidValue` for
    /// a byte that is neither 0 nor 1. After an error the reader has failed.
    #[tactic(auto, using(crate::proofs::Heads::refusing, crate::proofs::Scalars::booleans))]
    pub fn deserialize_bool(&mut self) -> Result<bool, Error>
        ensures ok { IfOk result (λ b. Reads self.old.element (at_of R.rest self.old)
            (at_of R.rest self.new) (scalar (boolean b))) }
        ensures element { OnOk result (self.new.element ≡ self.old.element) }
        ensures refused { Unless R.faulty result
            (Refuses boolean_taken self.old.element (at_of R.rest self.old)) }
        ensures failed { OnErr result (HasFailed R.rest self.new) }
        ensures named { Named R.faulty result
            (Names boolean_kind self.old.element (R.rest self.old.reader)) }
    {
        match self.code()? {
            EncodingCodes::BooleanTrue => Ok(true),
            EncodingCodes::BooleanFalse => Ok(false),
            EncodingCodes::Boolean => {
                let byte = self.next_byte()?;
                if byte > 1 {
                    return Err(self.refuse(Error::InvalidValue));
                }
                Ok(byte == 1)
            }
            _ => Err(self.refuse(Error::InvalidFormatCode)),
        }
    }

    /// Reads an unsigned number of 16 bits (part 1, section 1.6.4).
    ///
    /// Errors: `Io` where the input ends; `InvalidFormatCode` for any other type. After an error the reader
    /// has failed.
    #[tactic(auto, using(crate::proofs::Heads::refusing, crate::proofs::Scalars::ushorts))]
    pub fn deserialize_u16(&mut self) -> Result<u16, Error>
        ensures ok { IfOk result (λ n. Reads self.old.element (at_of R.rest self.old)
            (at_of R.rest self.new) (scalar (ushort n))) }
        ensures element { OnOk result (self.new.element ≡ self.old.element) }
        ensures refused { Unless R.faulty result
            (Refuses ushort_taken self.old.element (at_of R.rest self.old)) }
        ensures failed { OnErr result (HasFailed R.rest self.new) }
        ensures named { Named R.faulty result
            (Names ushort_kind self.old.element (R.rest self.old.reader)) }
    {
        match self.code()? {
            EncodingCodes::UShort => Ok(self.next_u16()?),
            _ => Err(self.refuse(Error::InvalidFormatCode)),
        }
    }

    /// Reads an unsigned number of 32 bits (part 1, section 1.6.5).
    ///
    /// Errors: `Io` where the input ends; `InvalidFormatCode` for any other type. After an error the reader
    /// has failed.
    #[inline(always)]
    #[tactic(auto, using(crate::proofs::Heads::refusing, crate::proofs::Scalars::uints))]
    pub fn deserialize_u32(&mut self) -> Result<u32, Error>
        ensures ok { IfOk result (λ n. Reads self.old.element (at_of R.rest self.old)
            (at_of R.rest self.new) (scalar (uint n))) }
        ensures element { OnOk result (self.new.element ≡ self.old.element) }
        ensures refused { Unless R.faulty result
            (Refuses uint_taken self.old.element (at_of R.rest self.old)) }
        ensures failed { OnErr result (HasFailed R.rest self.new) }
        ensures named { Named R.faulty result
            (Names uint_kind self.old.element (R.rest self.old.reader)) }
    {
        match self.code()? {
            EncodingCodes::UInt0 => Ok(0),
            EncodingCodes::SmallUInt => Ok(self.next_byte()? as u32),
            EncodingCodes::UInt => Ok(self.next_u32()?),
            _ => Err(self.refuse(Error::InvalidFormatCode)),
        }
    }

    /// Reads an unsigned number of 64 bits (part 1, section 1.6.6).
    ///
    /// Errors: `Io` where the input ends; `InvalidFormatCode` for any other type. After an error the reader
    /// has failed.
    #[inline(always)]
    #[tactic(auto, using(crate::proofs::Heads::refusing, crate::proofs::Scalars::ulongs))]
    pub fn deserialize_u64(&mut self) -> Result<u64, Error>
        ensures ok { IfOk result (λ n. Reads self.old.element (at_of R.rest self.old)
            (at_of R.rest self.new) (scalar (ulong n))) }
        ensures element { OnOk result (self.new.element ≡ self.old.element) }
        ensures refused { Unless R.faulty result
            (Refuses ulong_taken self.old.element (at_of R.rest self.old)) }
        ensures failed { OnErr result (HasFailed R.rest self.new) }
        ensures named { Named R.faulty result
            (Names ulong_kind self.old.element (R.rest self.old.reader)) }
    {
        match self.code()? {
            EncodingCodes::ULong0 => Ok(0),
            EncodingCodes::SmallULong => Ok(self.next_byte()? as u64),
            EncodingCodes::ULong => Ok(self.next_u64()?),
            _ => Err(self.refuse(Error::InvalidFormatCode)),
        }
    }

    /// Reads a size of one byte, and so many bytes.
    #[tactic(auto, using(crate::proofs::Sized::sizing))]
    pub(crate) fn sized8<B: Kept>(&mut self, alloc: Global) -> Result<B, Error>
        ensures ok { IfOk result (λ v. ReadSized one_byte (at_of R.rest self.old)
            (at_of R.rest self.new) (B.items v)) }
        ensures element { OnOk result (self.new.element ≡ self.old.element) }
        ensures refused { Unless R.faulty result (NoSized one_byte (R.rest self.old.reader)) }
        ensures failed { OnErr result (HasFailed R.rest self.new) }
    {
        let size = self.next_byte()?;
        self.bytes(alloc, size as usize)
    }

    /// Reads a size of four bytes, and so many bytes.
    #[tactic(auto, using(crate::proofs::Sized::sizing))]
    pub(crate) fn sized32<B: Kept>(&mut self, alloc: Global) -> Result<B, Error>
        ensures ok { IfOk result (λ v. ReadSized four_bytes (at_of R.rest self.old)
            (at_of R.rest self.new) (B.items v)) }
        ensures element { OnOk result (self.new.element ≡ self.old.element) }
        ensures refused { Unless R.faulty result (NoSized four_bytes (R.rest self.old.reader)) }
        ensures failed { OnErr result (HasFailed R.rest self.new) }
    {
        let size = self.next_u32()?;
        self.bytes(alloc, size as usize)
    }

    /// Reads a size of one byte, and a text of so many bytes.
    #[tactic(auto, using(crate::proofs::Sized::texts))]
    fn text8(&mut self, alloc: Global) -> Result<String, Error>
        ensures ok { IfOk result (λ s. ReadText one_byte (at_of R.rest self.old)
            (at_of R.rest self.new) (string_bytes s)) }
        ensures element { OnOk result (self.new.element ≡ self.old.element) }
        ensures refused { Unless R.faulty result (NoText one_byte (R.rest self.old.reader)) }
        ensures failed { OnErr result (HasFailed R.rest self.new) }
        ensures named { Named R.faulty result (NamesText one_byte (R.rest self.old.reader)) }
    {
        let bytes = self.sized8(alloc)?;
        match text_of(bytes) {
            Ok(text) => Ok(text),
            Err(e) => Err(self.refuse(e)),
        }
    }

    /// Reads a size of four bytes, and a text of so many bytes.
    #[tactic(auto, using(crate::proofs::Sized::texts))]
    fn text32(&mut self, alloc: Global) -> Result<String, Error>
        ensures ok { IfOk result (λ s. ReadText four_bytes (at_of R.rest self.old)
            (at_of R.rest self.new) (string_bytes s)) }
        ensures element { OnOk result (self.new.element ≡ self.old.element) }
        ensures refused { Unless R.faulty result (NoText four_bytes (R.rest self.old.reader)) }
        ensures failed { OnErr result (HasFailed R.rest self.new) }
        ensures named { Named R.faulty result (NamesText four_bytes (R.rest self.old.reader)) }
    {
        let bytes = self.sized32(alloc)?;
        match text_of(bytes) {
            Ok(text) => Ok(text),
            Err(e) => Err(self.refuse(e)),
        }
    }

    /// Reads a string (part 1, section 1.6.20).
    ///
    /// Errors: `Io` where the input ends; `InvalidFormatCode` for any other type; `InvalidUtf8Encoding`
    /// for bytes that are not UTF-8; `Memory`. After an error the reader has failed.
    #[tactic(auto, using(crate::proofs::Heads::refusing, crate::proofs::Sized::strings))]
    pub fn deserialize_string(&mut self, alloc: Global) -> Result<String, Error>
        ensures ok { IfOk result (λ s. Reads self.old.element (at_of R.rest self.old)
            (at_of R.rest self.new) (scalar (string (string_bytes s)))) }
        ensures element { OnOk result (self.new.element ≡ self.old.element) }
        ensures refused { Unless R.faulty result
            (Refuses string_taken self.old.element (at_of R.rest self.old)) }
        ensures failed { OnErr result (HasFailed R.rest self.new) }
        ensures named { Named R.faulty result
            (Names string_kind self.old.element (R.rest self.old.reader)) }
    {
        match self.code()? {
            EncodingCodes::Str8 => Ok(self.text8(alloc)?),
            EncodingCodes::Str32 => Ok(self.text32(alloc)?),
            _ => Err(self.refuse(Error::InvalidFormatCode)),
        }
    }

    /// Reads a symbol (part 1, section 1.6.21).
    ///
    /// Errors: `Io` where the input ends; `InvalidFormatCode` for any other type; `InvalidUtf8Encoding`
    /// for bytes that are not UTF-8; `Memory`. After an error the reader has failed.
    #[tactic(auto, using(crate::proofs::Heads::refusing, crate::proofs::Sized::symbols))]
    pub fn deserialize_symbol(&mut self, alloc: Global) -> Result<String, Error>
        ensures ok { IfOk result (λ s. Reads self.old.element (at_of R.rest self.old)
            (at_of R.rest self.new) (scalar (symbol (string_bytes s)))) }
        ensures element { OnOk result (self.new.element ≡ self.old.element) }
        ensures refused { Unless R.faulty result
            (Refuses symbol_taken self.old.element (at_of R.rest self.old)) }
        ensures failed { OnErr result (HasFailed R.rest self.new) }
        ensures named { Named R.faulty result
            (Names symbol_kind self.old.element (R.rest self.old.reader)) }
    {
        match self.code()? {
            EncodingCodes::Sym8 => Ok(self.text8(alloc)?),
            EncodingCodes::Sym32 => Ok(self.text32(alloc)?),
            _ => Err(self.refuse(Error::InvalidFormatCode)),
        }
    }

    /// Reads the constructor of a described value. Its descriptor and its value follow (part 1, section 1.2).
    ///
    /// Errors: `Io` where the input ends; `InvalidFormatCode` for any other type. After an error the reader
    /// has failed.
    #[tactic(auto, using(crate::proofs::Heads::refusing, crate::proofs::Heads::describing))]
    pub fn described(&mut self) -> Result<(), Error>
        ensures ok { OnOk result (Head self.old.element (at_of R.rest self.old)
            (at_of R.rest self.new) DescribedType) }
        ensures element { OnOk result (self.new.element ≡ None) }
        ensures refused { Unless R.faulty result
            (Refuses described_taken self.old.element (at_of R.rest self.old)) }
        ensures failed { OnErr result (HasFailed R.rest self.new) }
        ensures named { Named R.faulty result
            (Names described_kind self.old.element (R.rest self.old.reader)) }
    {
        match self.code()? {
            EncodingCodes::DescribedType => {
                self.set_element(None);
                Ok(())
            }
            _ => Err(self.refuse(Error::InvalidFormatCode)),
        }
    }

    /// Reads a size and a count of one byte each.
    #[tactic(auto, using(crate::proofs::Lists::counting))]
    pub(crate) fn count8(&mut self) -> Result<(u8, u8), Error>
        ensures ok { IfOk result (λ s. ReadCount one_byte (at_of R.rest self.old)
            (at_of R.rest self.new) s.0 s.1) }
        ensures element { OnOk result (self.new.element ≡ self.old.element) }
        ensures end { Unless R.faulty result (length (R.rest self.old.reader) < 2) }
        ensures failed { OnErr result (HasFailed R.rest self.new) }
    {
        let size = self.next_byte()?;
        let count = self.next_byte()?;
        Ok((size, count))
    }

    /// Reads a size and a count of four bytes each.
    #[tactic(auto, using(crate::proofs::Lists::counting))]
    pub(crate) fn count32(&mut self) -> Result<(u32, u32), Error>
        ensures ok { IfOk result (λ s. ReadCount four_bytes (at_of R.rest self.old)
            (at_of R.rest self.new) s.0 s.1) }
        ensures element { OnOk result (self.new.element ≡ self.old.element) }
        ensures end { Unless R.faulty result (length (R.rest self.old.reader) < 8) }
        ensures failed { OnErr result (HasFailed R.rest self.new) }
    {
        let size = self.next_u32()?;
        let count = self.next_u32()?;
        Ok((size, count))
    }

    /// Reads the head of a list: the number of its items, and of their bytes (part 1, section 1.6.22).
    /// The items follow.
    ///
    /// Errors: `Io` where the input ends; `InvalidFormatCode` for any other type; `InvalidLength` for
    /// a size that is too small, and for more than 65,536 items. After an error the reader has failed.
    #[tactic(auto, using(crate::proofs::Heads::refusing, crate::proofs::Lists::lists))]
    pub fn list_head(&mut self) -> Result<(usize, usize), Error>
        ensures ok { IfOk result (λ h. Opens list None self.old.element (at_of R.rest self.old)
            (at_of R.rest self.new) h.0 h.1) }
        ensures element { OnOk result (self.new.element ≡ self.old.element) }
        ensures refused { Unless R.faulty result
            (Refuses list_taken self.old.element (at_of R.rest self.old)) }
        ensures failed { OnErr result (HasFailed R.rest self.new) }
        ensures named { Named R.faulty result
            (Names list_kind self.old.element (R.rest self.old.reader)) }
        ensures said { IfOk result (λ h. Led list_kind self.old.element (R.rest self.old.reader)
            (Says h.0)) }
    {
        match self.code()? {
            EncodingCodes::List0 => Ok((0, 0)),
            EncodingCodes::List8 => {
                let (size, count) = self.count8()?;
                if size < 1 {
                    return Err(self.refuse(Error::InvalidLength));
                }
                Ok((count as usize, size as usize - 1))
            }
            EncodingCodes::List32 => {
                let (size, count) = self.count32()?;
                let count = count as usize;
                if size < 4 {
                    return Err(self.refuse(Error::InvalidLength));
                }
                if count > MAX_ARRAY_COUNT {
                    return Err(self.refuse(Error::InvalidLength));
                }
                Ok((count, size as usize - 4))
            }
            _ => Err(self.refuse(Error::InvalidFormatCode)),
        }
    }

    /// Reads the constructor of so many elements of an array (part 1, section 1.6.24).
    #[tactic(auto, using(crate::proofs::Arrays::element_codes))]
    fn element_code(&mut self, count: usize) -> Result<u8, Error>
        ensures ok { IfOk result (λ c. Moves (at_of R.rest self.old) (at_of R.rest self.new)
            (c ∷ [])) }
        ensures plain { IfOk result (λ c. IsElementCode count c) }
        ensures refused { Unless R.faulty result (NoElementCode count (R.rest self.old.reader)) }
        ensures failed { OnErr result (HasFailed R.rest self.new) }
        ensures named { Named R.faulty result (NamesElement count (R.rest self.old.reader)) }
    {
        let byte = self.next_byte()?;
        if code_of(byte).is_none() {
            return Err(self.refuse(Error::InvalidFormatCode));
        }
        if count == 0 {
            return Ok(byte);
        }
        if byte == EncodingCodes::Null.byte() {
            return Err(self.refuse(Error::InvalidFormatCode));
        }
        if byte == EncodingCodes::DescribedType.byte() {
            return Err(self.refuse(Error::InvalidFormatCode));
        }
        Ok(byte)
    }

    /// Reads the head of an array: the number of its elements, and of their bytes (part 1, section
    /// 1.6.24). The elements follow, and inherit their constructor from here.
    ///
    /// Errors: `Io` where the input ends; `InvalidFormatCode` for any other type, and for elements that
    /// are null, described or of no type; `InvalidLength` for a size that is too small, and for more than
    /// 65,536 elements. After an error the reader has failed.
    #[tactic(auto, using(crate::proofs::Heads::refusing, crate::proofs::Arrays::arrays))]
    pub fn array_head(&mut self) -> Result<(usize, usize), Error>
        ensures ok { IfOk result (λ h. Opens array self.new.element self.old.element
            (at_of R.rest self.old) (at_of R.rest self.new) h.0 h.1) }
        ensures refused { Unless R.faulty result
            (Refuses array_taken self.old.element (at_of R.rest self.old)) }
        ensures failed { OnErr result (HasFailed R.rest self.new) }
        ensures named { Named R.faulty result
            (Names array_kind self.old.element (R.rest self.old.reader)) }
    {
        match self.code()? {
            EncodingCodes::Array8 => {
                let (size, count) = self.count8()?;
                if size < 1 {
                    return Err(self.refuse(Error::InvalidLength));
                }
                if size == 1 {
                    if count != 0 {
                        return Err(self.refuse(Error::InvalidLength));
                    }
                    return Ok((0, 0));
                }
                let element = self.element_code(count as usize)?;
                self.set_element(Some(element));
                Ok((count as usize, size as usize - 2))
            }
            EncodingCodes::Array32 => {
                let (size, count) = self.count32()?;
                if size < 5 {
                    return Err(self.refuse(Error::InvalidLength));
                }
                if count as usize > MAX_ARRAY_COUNT {
                    return Err(self.refuse(Error::InvalidLength));
                }
                let element = self.element_code(count as usize)?;
                self.set_element(Some(element));
                Ok((count as usize, size as usize - 5))
            }
            _ => Err(self.refuse(Error::InvalidFormatCode)),
        }
    }
}

/// The text that bytes are.
#[tactic(auto, using(crate::proofs::Sized::texts))]
fn text_of(bytes: Vec<u8>) -> Result<String, Error>
    ensures ok { IfOk result (λ s. (string_bytes s ≡ bytes.items) × (is_utf8 bytes.items ≡ true)) }
    ensures refused { Unless faultless result (is_utf8 bytes.items ≡ false) }
    ensures named { IfErr result (λ e. e ≡ InvalidUtf8Encoding) }
{
    match String::from_utf8(bytes) {
        Ok(text) => {
            let _ = text.as_str();
            Ok(text)
        }
        Err(_) => Err(Error::InvalidUtf8Encoding),
    }
}

//! The serializer and the values that hold no others.
ghost use Rattle.std.specs.Prelude.{◌≡◌, ◌≤◌, ◌∷◌, [], ℕ, ◌+◌, List, ◌++◌, length, Some, None, OnOk, OnErr, IfErr};
ghost use Rattle.std.specs.Prelude.{true};
ghost use Rattle.serde_amqp_item.specs.Item.{scalar, null, boolean, ushort, uint, ulong, string, symbol};
ghost use Rattle.serde_amqp_item.specs.Canon.{settled};
ghost use Rattle.serde_amqp_ser.specs.Written.{Written, extended, inside, Keeps};
ghost use Rattle.serde_amqp_ser.specs.Open.{IsMark};
ghost use Rattle.serde_amqp_ser.specs.Puts.{State, behind, begun, serialized, sized_placed, counted_placed, OnlyWhere};
ghost use Rattle.serde_amqp_ser.specs.Puts.{WantsMemory, place_of, state_of};

use crate::opened::Opened;
use crate::place::IsArrayElement;
use crate::sink::Sink;
use serde_amqp_item::Error;
use std::marker::Model;

/// Writes values, one behind the other. A value that is refused leaves all as before: what is written next
/// stands where it was to be.
///
/// A clause sees what it writes to, `writer`, and where the next value is written, `element`.
#[derive(Debug, Drop)]
pub struct Serializer<W> {
    pub(crate) writer: W,
    pub(crate) element: IsArrayElement,
}

impl<W> Model for Serializer<W> {
    ghost use Rattle.serde_amqp_ser.specs.Puts.{Writing};

    ghost Value = { Writing W };

    ghost view = { λ s. record { writer = s.writer; element = s.element } };
}

impl<W: Sink> Serializer<W> {
    /// A serializer that writes values outside of arrays.
    pub fn new(writer: W) -> Serializer<W>
        ensures writer { result.writer ≡ writer }
        ensures element { result.element ≡ IsArrayElement.False }
    {
        Serializer {
            writer,
            element: IsArrayElement::False,
        }
    }

    /// A serializer whose next value is written at this place, as an element of an array or outside of arrays.
    pub fn at(writer: W, element: IsArrayElement) -> Serializer<W>
        ensures writer { result.writer ≡ writer }
        ensures element { result.element ≡ element }
    {
        Serializer { writer, element }
    }

    /// What it writes to.
    pub fn writer(&self) -> &W
        ensures { result.now ≡ self.now.writer }
    {
        &self.writer
    }

    /// Where the next value is written.
    #[inline(always)]
    pub fn element(&self) -> IsArrayElement
        ensures { result ≡ self.now.element }
    {
        self.element
    }

    /// Writes bytes as they are, which is no value: the next one is written at the same place, behind them.
    #[inline(always)]
    pub fn put(&mut self, bytes: &[u8]) -> Result<(), Error>
        ensures ok { OnOk result (W.written self.new.writer
            ≡ extended (W.written self.old.writer) bytes.now) }
        ensures err { OnErr result (W.written self.new.writer ≡ W.written self.old.writer) }
        ensures element { self.new.element ≡ self.old.element }
        ensures memory { IfErr result (λ e. (e ≡ Error.Memory) × (W.takes_memory ≡ true)) }
    {
        self.writer.put(bytes)
    }

    /// What it wrote to.
    pub fn into_inner(self) -> W
        ensures { result ≡ self.writer }
    {
        self.writer
    }

    /// Where the next value is written, to go back to.
    #[inline(always)]
    pub fn mark(&self) -> Opened
        ensures { IsMark (state_of W.written self.now) result }
    {
        Opened {
            start: self.writer.here(),
            outer: self.element,
        }
    }

    /// Goes back to where a value was begun that is refused, and hands on the error that it was refused with.
    #[cold]
    pub fn take_back(&mut self, mark: Opened, error: Error) -> Error
        ensures error { result ≡ error }
        ensures back { (s : Serializer W) → IsMark (state_of W.written s) mark
            → Keeps (W.written s.writer) (W.written self.old.writer)
            → state_of W.written self.new ≡ state_of W.written s }
    {
        self.writer.back_to(mark.start);
        self.element = mark.outer;
        error
    }

    /// Writes the constructor of a wide form, where one stands at this place.
    #[tactic(auto, using(crate::proofs::Grown::growing))]
    fn begin_wide(&mut self, code: u8) -> Result<(), Error>
        ensures ok { OnOk result (begun (state_of W.written self.old) code
            ≡ Some (state_of W.written self.new)) }
        ensures err { OnErr result (state_of W.written self.new ≡ state_of W.written self.old) }
        ensures kept { Keeps (W.written self.old.writer) (W.written self.new.writer) }
        ensures refused { OnlyWhere result (begun (state_of W.written self.old) code) }
        ensures memory { WantsMemory W.takes_memory result }
    {
        match self.element {
            IsArrayElement::False => {
                self.writer.put(&[code])?;
                Ok(())
            }
            IsArrayElement::FirstElement => {
                self.writer.put(&[code])?;
                self.element = IsArrayElement::OtherElement(code);
                Ok(())
            }
            IsArrayElement::OtherElement(first) => {
                if first != code {
                    return Err(Error::InvalidValue);
                }
                Ok(())
            }
        }
    }

    /// Writes the constructor and the bytes of a wide form. After an error the constructor may stand there.
    #[tactic(auto, using(crate::proofs::Grown::growing, crate::proofs::Heads::begins))]
    fn put_wide_parts(&mut self, code: u8, body: &[u8]) -> Result<(), Error>
        ensures ok { OnOk result (behind (state_of W.written self.old)
            (settled (place_of self.old.element) (code, body.now))
            ≡ Some (state_of W.written self.new)) }
        ensures kept { Keeps (W.written self.old.writer) (W.written self.new.writer) }
        ensures refused { OnlyWhere result (behind (state_of W.written self.old)
            (settled (place_of self.old.element) (code, body.now))) }
        ensures memory { WantsMemory W.takes_memory result }
    {
        self.begin_wide(code)?;
        self.writer.put(body)?;
        Ok(())
    }

    /// Writes a wide form.
    #[tactic(auto, using(crate::proofs::Grown::growing, crate::proofs::Heads::begins))]
    pub(crate) fn put_wide(&mut self, code: u8, body: &[u8]) -> Result<(), Error>
        ensures ok { OnOk result (behind (state_of W.written self.old)
            (settled (place_of self.old.element) (code, body.now))
            ≡ Some (state_of W.written self.new)) }
        ensures err { OnErr result (state_of W.written self.new ≡ state_of W.written self.old) }
        ensures kept { Keeps (W.written self.old.writer) (W.written self.new.writer) }
        ensures refused { OnlyWhere result (behind (state_of W.written self.old)
            (settled (place_of self.old.element) (code, body.now))) }
        ensures memory { WantsMemory W.takes_memory result }
    {
        let mark = self.mark();
        match self.put_wide_parts(code, body) {
            Ok(()) => Ok(()),
            Err(error) => Err(self.take_back(mark, error)),
        }
    }

    /// Writes the head and the content of a value with a size. After an error the head may stand there.
    #[tactic(auto, using(crate::proofs::Grown::growing, crate::proofs::Heads::begins))]
    fn put_sized_parts(&mut self, narrow: u8, wide: u8, content: &[u8]) -> Result<(), Error>
        ensures ok { OnOk result (behind (state_of W.written self.old)
            (sized_placed (place_of self.old.element) narrow wide content.now)
            ≡ Some (state_of W.written self.new)) }
        ensures kept { Keeps (W.written self.old.writer) (W.written self.new.writer) }
        ensures refused { OnlyWhere result (behind (state_of W.written self.old)
            (sized_placed (place_of self.old.element) narrow wide content.now)) }
        ensures memory { WantsMemory W.takes_memory result }
    {
        let Ok(len) = u32::try_from(content.len()) else {
            return Err(Error::InvalidLength);
        };
        if let IsArrayElement::False = self.element {
            if len < 255 {
                self.writer.put(&[narrow, len as u8])?;
                self.writer.put(content)?;
                return Ok(());
            }
        }
        self.begin_wide(wide)?;
        self.writer.put(&len.to_be_bytes())?;
        self.writer.put(content)?;
        Ok(())
    }

    /// Writes a value with a size: the size in one byte up to 254 bytes and outside of arrays, else in four.
    #[tactic(auto, using(crate::proofs::Grown::growing, crate::proofs::Heads::begins))]
    pub(crate) fn put_sized(&mut self, narrow: u8, wide: u8, content: &[u8]) -> Result<(), Error>
        ensures ok { OnOk result (behind (state_of W.written self.old)
            (sized_placed (place_of self.old.element) narrow wide content.now)
            ≡ Some (state_of W.written self.new)) }
        ensures err { OnErr result (state_of W.written self.new ≡ state_of W.written self.old) }
        ensures kept { Keeps (W.written self.old.writer) (W.written self.new.writer) }
        ensures refused { OnlyWhere result (behind (state_of W.written self.old)
            (sized_placed (place_of self.old.element) narrow wide content.now)) }
        ensures memory { WantsMemory W.takes_memory result }
    {
        let mark = self.mark();
        match self.put_sized_parts(narrow, wide, content) {
            Ok(()) => Ok(()),
            Err(error) => Err(self.take_back(mark, error)),
        }
    }

    /// Writes null, which is no element of an array (part 1, 1.6.1): there it answers `InvalidValue`.
    #[inline(always)]
    #[tactic(auto, using(crate::proofs::Grown::growing))]
    pub fn serialize_unit(&mut self) -> Result<(), Error>
        ensures ok { OnOk result (serialized (state_of W.written self.old) (scalar null)
            ≡ Some (state_of W.written self.new)) }
        ensures err { OnErr result (state_of W.written self.new ≡ state_of W.written self.old) }
        ensures kept { Keeps (W.written self.old.writer) (W.written self.new.writer) }
        ensures refused { OnlyWhere result (serialized (state_of W.written self.old)
            (scalar null)) }
        ensures memory { WantsMemory W.takes_memory result }
    {
        if let IsArrayElement::False = self.element {
            self.writer.put(&[0x40])?;
            return Ok(());
        }
        Err(Error::InvalidValue)
    }

    /// Writes a boolean (part 1, 1.6.2).
    #[inline(always)]
    #[tactic(auto, using(crate::proofs::Grown::growing))]
    pub fn serialize_bool(&mut self, value: bool) -> Result<(), Error>
        ensures ok { OnOk result (serialized (state_of W.written self.old) (scalar (boolean value))
            ≡ Some (state_of W.written self.new)) }
        ensures err { OnErr result (state_of W.written self.new ≡ state_of W.written self.old) }
        ensures kept { Keeps (W.written self.old.writer) (W.written self.new.writer) }
        ensures refused { OnlyWhere result (serialized (state_of W.written self.old)
            (scalar (boolean value))) }
        ensures memory { WantsMemory W.takes_memory result }
    {
        if let IsArrayElement::False = self.element {
            self.writer.put(&[if value { 0x41 } else { 0x42 }])?;
            return Ok(());
        }
        self.put_wide(0x56, &[if value { 1 } else { 0 }])
    }

    /// Writes a ushort (part 1, 1.6.4).
    #[tactic(auto, using(crate::proofs::Grown::growing))]
    pub fn serialize_u16(&mut self, value: u16) -> Result<(), Error>
        ensures ok { OnOk result (serialized (state_of W.written self.old) (scalar (ushort value))
            ≡ Some (state_of W.written self.new)) }
        ensures err { OnErr result (state_of W.written self.new ≡ state_of W.written self.old) }
        ensures kept { Keeps (W.written self.old.writer) (W.written self.new.writer) }
        ensures refused { OnlyWhere result (serialized (state_of W.written self.old)
            (scalar (ushort value))) }
        ensures memory { WantsMemory W.takes_memory result }
    {
        self.put_wide(0x60, &value.to_be_bytes())
    }

    /// Writes a uint (part 1, 1.6.5).
    #[inline(always)]
    #[tactic(auto, using(crate::proofs::Grown::growing))]
    pub fn serialize_u32(&mut self, value: u32) -> Result<(), Error>
        ensures ok { OnOk result (serialized (state_of W.written self.old) (scalar (uint value))
            ≡ Some (state_of W.written self.new)) }
        ensures err { OnErr result (state_of W.written self.new ≡ state_of W.written self.old) }
        ensures kept { Keeps (W.written self.old.writer) (W.written self.new.writer) }
        ensures refused { OnlyWhere result (serialized (state_of W.written self.old)
            (scalar (uint value))) }
        ensures memory { WantsMemory W.takes_memory result }
    {
        if let IsArrayElement::False = self.element {
            if value == 0 {
                self.writer.put(&[0x43])?;
                return Ok(());
            }
            if value < 256 {
                self.writer.put(&[0x52, value as u8])?;
                return Ok(());
            }
        }
        self.put_wide(0x70, &value.to_be_bytes())?;
        Ok(())
    }

    /// Writes a ulong (part 1, 1.6.6).
    #[inline(always)]
    #[tactic(auto, using(crate::proofs::Grown::growing))]
    pub fn serialize_u64(&mut self, value: u64) -> Result<(), Error>
        ensures ok { OnOk result (serialized (state_of W.written self.old) (scalar (ulong value))
            ≡ Some (state_of W.written self.new)) }
        ensures err { OnErr result (state_of W.written self.new ≡ state_of W.written self.old) }
        ensures kept { Keeps (W.written self.old.writer) (W.written self.new.writer) }
        ensures refused { OnlyWhere result (serialized (state_of W.written self.old)
            (scalar (ulong value))) }
        ensures memory { WantsMemory W.takes_memory result }
    {
        if let IsArrayElement::False = self.element {
            if value == 0 {
                self.writer.put(&[0x44])?;
                return Ok(());
            }
            if value < 256 {
                self.writer.put(&[0x53, value as u8])?;
                return Ok(());
            }
        }
        self.put_wide(0x80, &value.to_be_bytes())?;
        Ok(())
    }

    /// Writes a string (part 1, 1.6.20), or answers `InvalidLength` where it has 2^32 bytes or more.
    pub fn serialize_str(&mut self, value: &str) -> Result<(), Error>
        ensures ok { OnOk result (serialized (state_of W.written self.old)
            (scalar (string value.now)) ≡ Some (state_of W.written self.new)) }
        ensures err { OnErr result (state_of W.written self.new ≡ state_of W.written self.old) }
        ensures kept { Keeps (W.written self.old.writer) (W.written self.new.writer) }
        ensures refused { OnlyWhere result (serialized (state_of W.written self.old)
            (scalar (string value.now))) }
        ensures memory { WantsMemory W.takes_memory result }
    {
        self.put_sized(0xa1, 0xb1, value.as_bytes())
    }

    /// Writes a symbol (part 1, 1.6.21), or answers `InvalidLength` where it has 2^32 bytes or more.
    pub fn symbol(&mut self, value: &str) -> Result<(), Error>
        ensures ok { OnOk result (serialized (state_of W.written self.old)
            (scalar (symbol value.now)) ≡ Some (state_of W.written self.new)) }
        ensures err { OnErr result (state_of W.written self.new ≡ state_of W.written self.old) }
        ensures kept { Keeps (W.written self.old.writer) (W.written self.new.writer) }
        ensures refused { OnlyWhere result (serialized (state_of W.written self.old)
            (scalar (symbol value.now))) }
        ensures memory { WantsMemory W.takes_memory result }
    {
        self.put_sized(0xa3, 0xb3, value.as_bytes())
    }
}

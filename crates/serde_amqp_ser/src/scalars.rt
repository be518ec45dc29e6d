//! More values that hold no others.
ghost use Rattle.std.specs.Prelude.{◌≡◌, Some, OnOk, OnErr};
ghost use Rattle.serde_amqp_item.specs.Item.{scalar, raw, null, ubyte, byte, short, int, long, float, double};
ghost use Rattle.serde_amqp_item.specs.Item.{decimal32, decimal64, decimal128, char, timestamp, uuid, binary};
ghost use Rattle.serde_amqp_ser.specs.Written.{Keeps};
ghost use Rattle.serde_amqp_ser.specs.Puts.{serialized, OnlyWhere, WantsMemory, state_of};

use crate::place::IsArrayElement;
use crate::serialize::Serialize;
use crate::serializer::Serializer;
use crate::sink::Sink;
use serde_amqp_item::{Double, Error, Float};

impl<W: Sink> Serializer<W> {
    /// Writes a ubyte (part 1, 1.6.3).
    #[tactic(auto, using(crate::proofs::Grown::growing))]
    pub fn serialize_u8(&mut self, value: u8) -> Result<(), Error>
        ensures ok { OnOk result (serialized (state_of W.written self.old) (scalar (ubyte value))
            ≡ Some (state_of W.written self.new)) }
        ensures err { OnErr result (state_of W.written self.new ≡ state_of W.written self.old) }
        ensures kept { Keeps (W.written self.old.writer) (W.written self.new.writer) }
        ensures refused { OnlyWhere result (serialized (state_of W.written self.old)
            (scalar (ubyte value))) }
        ensures memory { WantsMemory W.takes_memory result }
    {
        self.put_wide(0x50, &[value])
    }

    /// Writes a byte, a signed number of 8 bits (part 1, 1.6.7).
    #[tactic(auto, using(crate::proofs::Grown::growing))]
    pub fn serialize_i8(&mut self, value: i8) -> Result<(), Error>
        ensures ok { OnOk result (serialized (state_of W.written self.old) (scalar (byte value))
            ≡ Some (state_of W.written self.new)) }
        ensures err { OnErr result (state_of W.written self.new ≡ state_of W.written self.old) }
        ensures kept { Keeps (W.written self.old.writer) (W.written self.new.writer) }
        ensures refused { OnlyWhere result (serialized (state_of W.written self.old)
            (scalar (byte value))) }
        ensures memory { WantsMemory W.takes_memory result }
    {
        self.put_wide(0x51, &[value.cast_unsigned()])
    }

    /// Writes a short, a signed number of 16 bits (part 1, 1.6.8).
    #[tactic(auto, using(crate::proofs::Grown::growing))]
    pub fn serialize_i16(&mut self, value: i16) -> Result<(), Error>
        ensures ok { OnOk result (serialized (state_of W.written self.old) (scalar (short value))
            ≡ Some (state_of W.written self.new)) }
        ensures err { OnErr result (state_of W.written self.new ≡ state_of W.written self.old) }
        ensures kept { Keeps (W.written self.old.writer) (W.written self.new.writer) }
        ensures refused { OnlyWhere result (serialized (state_of W.written self.old)
            (scalar (short value))) }
        ensures memory { WantsMemory W.takes_memory result }
    {
        self.put_wide(0x61, &value.to_be_bytes())
    }

    /// Writes an int, a signed number of 32 bits (part 1, 1.6.9): outside of arrays in one byte where it fits.
    #[tactic(auto, using(crate::proofs::Grown::growing))]
    pub fn serialize_i32(&mut self, value: i32) -> Result<(), Error>
        ensures ok { OnOk result (serialized (state_of W.written self.old) (scalar (int value))
            ≡ Some (state_of W.written self.new)) }
        ensures err { OnErr result (state_of W.written self.new ≡ state_of W.written self.old) }
        ensures kept { Keeps (W.written self.old.writer) (W.written self.new.writer) }
        ensures refused { OnlyWhere result (serialized (state_of W.written self.old)
            (scalar (int value))) }
        ensures memory { WantsMemory W.takes_memory result }
    {
        if let IsArrayElement::False = self.element {
            if let Ok(small) = i8::try_from(value) {
                self.writer.put(&[0x54, small.cast_unsigned()])?;
                return Ok(());
            }
        }
        self.put_wide(0x71, &value.to_be_bytes())
    }

    /// Writes a long, a signed number of 64 bits (part 1, 1.6.10): outside of arrays in one byte where it fits.
    #[tactic(auto, using(crate::proofs::Grown::growing))]
    pub fn serialize_i64(&mut self, value: i64) -> Result<(), Error>
        ensures ok { OnOk result (serialized (state_of W.written self.old) (scalar (long value))
            ≡ Some (state_of W.written self.new)) }
        ensures err { OnErr result (state_of W.written self.new ≡ state_of W.written self.old) }
        ensures kept { Keeps (W.written self.old.writer) (W.written self.new.writer) }
        ensures refused { OnlyWhere result (serialized (state_of W.written self.old)
            (scalar (long value))) }
        ensures memory { WantsMemory W.takes_memory result }
    {
        if let IsArrayElement::False = self.element {
            if let Ok(small) = i8::try_from(value) {
                self.writer.put(&[0x55, small.cast_unsigned()])?;
                return Ok(());
            }
        }
        self.put_wide(0x81, &value.to_be_bytes())
    }

    /// Writes a float (part 1, 1.6.11).
    #[tactic(auto, using(crate::proofs::Grown::growing))]
    pub fn serialize_f32(&mut self, value: Float) -> Result<(), Error>
        ensures ok { OnOk result (serialized (state_of W.written self.old) (scalar (float value.0))
            ≡ Some (state_of W.written self.new)) }
        ensures err { OnErr result (state_of W.written self.new ≡ state_of W.written self.old) }
        ensures kept { Keeps (W.written self.old.writer) (W.written self.new.writer) }
        ensures refused { OnlyWhere result (serialized (state_of W.written self.old)
            (scalar (float value.0))) }
        ensures memory { WantsMemory W.takes_memory result }
    {
        self.put_wide(0x72, &value.to_bits().to_be_bytes())
    }

    /// Writes a double (part 1, 1.6.12).
    #[tactic(auto, using(crate::proofs::Grown::growing))]
    pub fn serialize_f64(&mut self, value: Double) -> Result<(), Error>
        ensures ok { OnOk result (serialized (state_of W.written self.old) (scalar (double value.0))
            ≡ Some (state_of W.written self.new)) }
        ensures err { OnErr result (state_of W.written self.new ≡ state_of W.written self.old) }
        ensures kept { Keeps (W.written self.old.writer) (W.written self.new.writer) }
        ensures refused { OnlyWhere result (serialized (state_of W.written self.old)
            (scalar (double value.0))) }
        ensures memory { WantsMemory W.takes_memory result }
    {
        self.put_wide(0x82, &value.to_bits().to_be_bytes())
    }

    /// Writes a char (part 1, 1.6.16): its code in four bytes.
    #[tactic(auto, using(crate::proofs::Grown::growing))]
    pub fn serialize_char(&mut self, value: char) -> Result<(), Error>
        ensures ok { OnOk result (serialized (state_of W.written self.old) (scalar (char value))
            ≡ Some (state_of W.written self.new)) }
        ensures err { OnErr result (state_of W.written self.new ≡ state_of W.written self.old) }
        ensures kept { Keeps (W.written self.old.writer) (W.written self.new.writer) }
        ensures refused { OnlyWhere result (serialized (state_of W.written self.old)
            (scalar (char value))) }
        ensures memory { WantsMemory W.takes_memory result }
    {
        self.put_wide(0x73, &(value as u32).to_be_bytes())
    }

    /// Writes a timestamp, in milliseconds since the Unix epoch (part 1, 1.6.17).
    #[tactic(auto, using(crate::proofs::Grown::growing))]
    pub fn serialize_timestamp(&mut self, milliseconds: i64) -> Result<(), Error>
        ensures ok { OnOk result (serialized (state_of W.written self.old)
            (scalar (timestamp milliseconds)) ≡ Some (state_of W.written self.new)) }
        ensures err { OnErr result (state_of W.written self.new ≡ state_of W.written self.old) }
        ensures kept { Keeps (W.written self.old.writer) (W.written self.new.writer) }
        ensures refused { OnlyWhere result (serialized (state_of W.written self.old)
            (scalar (timestamp milliseconds))) }
        ensures memory { WantsMemory W.takes_memory result }
    {
        self.put_wide(0x83, &milliseconds.to_be_bytes())
    }

    /// Writes a uuid (part 1, 1.6.18).
    #[tactic(auto, using(crate::proofs::Grown::growing))]
    pub fn serialize_uuid(&mut self, bytes: &[u8; 16]) -> Result<(), Error>
        ensures ok { OnOk result (serialized (state_of W.written self.old) (scalar (uuid bytes.now))
            ≡ Some (state_of W.written self.new)) }
        ensures err { OnErr result (state_of W.written self.new ≡ state_of W.written self.old) }
        ensures kept { Keeps (W.written self.old.writer) (W.written self.new.writer) }
        ensures refused { OnlyWhere result (serialized (state_of W.written self.old)
            (scalar (uuid bytes.now))) }
        ensures memory { WantsMemory W.takes_memory result }
    {
        self.put_wide(0x98, bytes)
    }

    /// Writes a decimal32, by the bytes of its IEEE 754 encoding (part 1, 1.6.13).
    #[tactic(auto, using(crate::proofs::Grown::growing))]
    pub fn serialize_decimal32(&mut self, bytes: &[u8; 4]) -> Result<(), Error>
        ensures ok { OnOk result (serialized (state_of W.written self.old)
            (scalar (decimal32 bytes.now)) ≡ Some (state_of W.written self.new)) }
        ensures err { OnErr result (state_of W.written self.new ≡ state_of W.written self.old) }
        ensures kept { Keeps (W.written self.old.writer) (W.written self.new.writer) }
        ensures refused { OnlyWhere result (serialized (state_of W.written self.old)
            (scalar (decimal32 bytes.now))) }
        ensures memory { WantsMemory W.takes_memory result }
    {
        self.put_wide(0x74, bytes)
    }

    /// Writes a decimal64, by the bytes of its IEEE 754 encoding (part 1, 1.6.14).
    #[tactic(auto, using(crate::proofs::Grown::growing))]
    pub fn serialize_decimal64(&mut self, bytes: &[u8; 8]) -> Result<(), Error>
        ensures ok { OnOk result (serialized (state_of W.written self.old)
            (scalar (decimal64 bytes.now)) ≡ Some (state_of W.written self.new)) }
        ensures err { OnErr result (state_of W.written self.new ≡ state_of W.written self.old) }
        ensures kept { Keeps (W.written self.old.writer) (W.written self.new.writer) }
        ensures refused { OnlyWhere result (serialized (state_of W.written self.old)
            (scalar (decimal64 bytes.now))) }
        ensures memory { WantsMemory W.takes_memory result }
    {
        self.put_wide(0x84, bytes)
    }

    /// Writes a decimal128, by the bytes of its IEEE 754 encoding (part 1, 1.6.15).
    #[tactic(auto, using(crate::proofs::Grown::growing))]
    pub fn serialize_decimal128(&mut self, bytes: &[u8; 16]) -> Result<(), Error>
        ensures ok { OnOk result (serialized (state_of W.written self.old)
            (scalar (decimal128 bytes.now)) ≡ Some (state_of W.written self.new)) }
        ensures err { OnErr result (state_of W.written self.new ≡ state_of W.written self.old) }
        ensures kept { Keeps (W.written self.old.writer) (W.written self.new.writer) }
        ensures refused { OnlyWhere result (serialized (state_of W.written self.old)
            (scalar (decimal128 bytes.now))) }
        ensures memory { WantsMemory W.takes_memory result }
    {
        self.put_wide(0x94, bytes)
    }

    /// Writes a binary (part 1, 1.6.19), or answers `InvalidLength` where it has 2^32 bytes or more.
    #[tactic(auto, using(crate::proofs::Grown::growing))]
    pub fn serialize_bytes(&mut self, bytes: &[u8]) -> Result<(), Error>
        ensures ok { OnOk result (serialized (state_of W.written self.old)
            (scalar (binary bytes.now)) ≡ Some (state_of W.written self.new)) }
        ensures err { OnErr result (state_of W.written self.new ≡ state_of W.written self.old) }
        ensures kept { Keeps (W.written self.old.writer) (W.written self.new.writer) }
        ensures refused { OnlyWhere result (serialized (state_of W.written self.old)
            (scalar (binary bytes.now))) }
        ensures memory { WantsMemory W.takes_memory result }
    {
        self.put_sized(0xa0, 0xb0, bytes)
    }

    /// Writes null, as an absent value (part 1, 1.6.1). In an array it answers `InvalidValue`.
    #[tactic(auto, using(crate::proofs::Grown::growing))]
    pub fn serialize_none(&mut self) -> Result<(), Error>
        ensures ok { OnOk result (serialized (state_of W.written self.old) (scalar null)
            ≡ Some (state_of W.written self.new)) }
        ensures err { OnErr result (state_of W.written self.new ≡ state_of W.written self.old) }
        ensures kept { Keeps (W.written self.old.writer) (W.written self.new.writer) }
        ensures refused { OnlyWhere result (serialized (state_of W.written self.old)
            (scalar null)) }
        ensures memory { WantsMemory W.takes_memory result }
    {
        self.serialize_unit()
    }

    /// Writes a value that is there, as the value.
    #[tactic(auto, using(crate::proofs::Grown::growing))]
    pub fn serialize_some<T: Serialize>(&mut self, value: &T) -> Result<(), Error>
        ensures ok { OnOk result (serialized (state_of W.written self.old) (T.item value.now)
            ≡ Some (state_of W.written self.new)) }
        ensures err { OnErr result (state_of W.written self.new ≡ state_of W.written self.old) }
        ensures kept { Keeps (W.written self.old.writer) (W.written self.new.writer) }
        ensures refused { OnlyWhere result (serialized (state_of W.written self.old)
            (T.item value.now)) }
        ensures memory { WantsMemory W.takes_memory result }
    {
        value.serialize(self)
    }

    /// Writes an item by the bytes that it was kept as. Answers `InvalidValue` in an array, and where there are
    /// no bytes.
    #[tactic(auto, using(crate::proofs::Grown::growing))]
    pub fn serialize_raw(&mut self, bytes: &[u8]) -> Result<(), Error>
        ensures ok { OnOk result (serialized (state_of W.written self.old) (raw bytes.now)
            ≡ Some (state_of W.written self.new)) }
        ensures err { OnErr result (state_of W.written self.new ≡ state_of W.written self.old) }
        ensures kept { Keeps (W.written self.old.writer) (W.written self.new.writer) }
        ensures refused { OnlyWhere result (serialized (state_of W.written self.old)
            (raw bytes.now)) }
        ensures memory { WantsMemory W.takes_memory result }
    {
        if bytes.is_empty() {
            return Err(Error::InvalidValue);
        }
        if let IsArrayElement::False = self.element {
            self.writer.put(bytes)?;
            return Ok(());
        }
        Err(Error::InvalidValue)
    }
}

//! More values that hold no others.
ghost use Rattle.std.specs.Prelude.{◌≡◌, IfOk, OnOk, OnErr};
ghost use Rattle.serde_amqp_item.specs.Item.{scalar, ubyte, byte, short, int, long, float, double, decimal32};
ghost use Rattle.serde_amqp_item.specs.Item.{decimal64, decimal128, char, timestamp, uuid, binary};
ghost use Rattle.serde_amqp_item.specs.Kind.{ubyte_kind, byte_kind, short_kind, int_kind, long_kind, float_kind};
ghost use Rattle.serde_amqp_item.specs.Kind.{double_kind, decimal32_kind, decimal64_kind, decimal128_kind, char_kind};
ghost use Rattle.serde_amqp_item.specs.Kind.{timestamp_kind, uuid_kind, binary_kind};
ghost use Rattle.serde_amqp_read.specs.Reads.{Unless};
ghost use Rattle.serde_amqp_de.specs.Reads.{Reads, Refuses, HasFailed, at_of};
ghost use Rattle.serde_amqp_de.specs.Names.{Names, Named};
ghost use Rattle.serde_amqp_de.specs.Takes.{ubyte_taken, byte_taken, short_taken, int_taken, long_taken, float_taken};
ghost use Rattle.serde_amqp_de.specs.Takes.{double_taken, decimal32_taken, decimal64_taken, decimal128_taken};
ghost use Rattle.serde_amqp_de.specs.Takes.{char_taken, timestamp_taken, uuid_taken, binary_taken};

use crate::deserializer::Deserializer;
use crate::short::ShortBytes;
use serde_amqp_item::{Double, EncodingCodes, Error, Float};
use serde_amqp_read::Read;
use std::alloc::Global;

impl<R: Read> Deserializer<R> {
    /// Reads a ubyte, an unsigned number of 8 bits (part 1, section 1.6.3).
    ///
    /// Errors: `Io` where the input ends; `InvalidFormatCode` for any other type. After an error the reader
    /// has failed.
    #[tactic(auto, using(crate::proofs::Heads::refusing, crate::proofs::Fixed::ubytes))]
    pub fn deserialize_u8(&mut self) -> Result<u8, Error>
        ensures ok { IfOk result (λ n. Reads self.old.element (at_of R.rest self.old)
            (at_of R.rest self.new) (scalar (ubyte n))) }
        ensures element { OnOk result (self.new.element ≡ self.old.element) }
        ensures refused { Unless R.faulty result
            (Refuses ubyte_taken self.old.element (at_of R.rest self.old)) }
        ensures failed { OnErr result (HasFailed R.rest self.new) }
        ensures named { Named R.faulty result
            (Names ubyte_kind self.old.element (R.rest self.old.reader)) }
    {
        match self.code()? {
            EncodingCodes::UByte => Ok(self.next_byte()?),
            _ => Err(self.refuse(Error::InvalidFormatCode)),
        }
    }

    /// Reads a byte, a signed number of 8 bits (part 1, section 1.6.7).
    ///
    /// Errors: `Io` where the input ends; `InvalidFormatCode` for any other type. After an error the reader
    /// has failed.
    #[tactic(auto, using(crate::proofs::Heads::refusing, crate::proofs::Fixed::bytes))]
    pub fn deserialize_i8(&mut self) -> Result<i8, Error>
        ensures ok { IfOk result (λ z. Reads self.old.element (at_of R.rest self.old)
            (at_of R.rest self.new) (scalar (byte z))) }
        ensures element { OnOk result (self.new.element ≡ self.old.element) }
        ensures refused { Unless R.faulty result
            (Refuses byte_taken self.old.element (at_of R.rest self.old)) }
        ensures failed { OnErr result (HasFailed R.rest self.new) }
        ensures named { Named R.faulty result
            (Names byte_kind self.old.element (R.rest self.old.reader)) }
    {
        match self.code()? {
            EncodingCodes::Byte => Ok(self.next_byte()?.cast_signed()),
            _ => Err(self.refuse(Error::InvalidFormatCode)),
        }
    }

    /// Reads a short, a signed number of 16 bits (part 1, section 1.6.8).
    ///
    /// Errors: `Io` where the input ends; `InvalidFormatCode` for any other type. After an error the reader
    /// has failed.
    #[tactic(auto, using(crate::proofs::Heads::refusing, crate::proofs::Fixed::shorts))]
    pub fn deserialize_i16(&mut self) -> Result<i16, Error>
        ensures ok { IfOk result (λ z. Reads self.old.element (at_of R.rest self.old)
            (at_of R.rest self.new) (scalar (short z))) }
        ensures element { OnOk result (self.new.element ≡ self.old.element) }
        ensures refused { Unless R.faulty result
            (Refuses short_taken self.old.element (at_of R.rest self.old)) }
        ensures failed { OnErr result (HasFailed R.rest self.new) }
        ensures named { Named R.faulty result
            (Names short_kind self.old.element (R.rest self.old.reader)) }
    {
        match self.code()? {
            EncodingCodes::Short => Ok(self.next_u16()?.cast_signed()),
            _ => Err(self.refuse(Error::InvalidFormatCode)),
        }
    }

    /// Reads an int, a signed number of 32 bits (part 1, section 1.6.9).
    ///
    /// Errors: `Io` where the input ends; `InvalidFormatCode` for any other type. After an error the reader
    /// has failed.
    #[tactic(auto, using(crate::proofs::Heads::refusing, crate::proofs::Fixed::ints))]
    pub fn deserialize_i32(&mut self) -> Result<i32, Error>
        ensures ok { IfOk result (λ z. Reads self.old.element (at_of R.rest self.old)
            (at_of R.rest self.new) (scalar (int z))) }
        ensures element { OnOk result (self.new.element ≡ self.old.element) }
        ensures refused { Unless R.faulty result
            (Refuses int_taken self.old.element (at_of R.rest self.old)) }
        ensures failed { OnErr result (HasFailed R.rest self.new) }
        ensures named { Named R.faulty result
            (Names int_kind self.old.element (R.rest self.old.reader)) }
    {
        match self.code()? {
            EncodingCodes::SmallInt => Ok(i32::from(self.next_byte()?.cast_signed())),
            EncodingCodes::Int => Ok(self.next_u32()?.cast_signed()),
            _ => Err(self.refuse(Error::InvalidFormatCode)),
        }
    }

    /// Reads a long, a signed number of 64 bits (part 1, section 1.6.10).
    ///
    /// Errors: `Io` where the input ends; `InvalidFormatCode` for any other type. After an error the reader
    /// has failed.
    #[tactic(auto, using(crate::proofs::Heads::refusing, crate::proofs::Fixed::longs))]
    pub fn deserialize_i64(&mut self) -> Result<i64, Error>
        ensures ok { IfOk result (λ z. Reads self.old.element (at_of R.rest self.old)
            (at_of R.rest self.new) (scalar (long z))) }
        ensures element { OnOk result (self.new.element ≡ self.old.element) }
        ensures refused { Unless R.faulty result
            (Refuses long_taken self.old.element (at_of R.rest self.old)) }
        ensures failed { OnErr result (HasFailed R.rest self.new) }
        ensures named { Named R.faulty result
            (Names long_kind self.old.element (R.rest self.old.reader)) }
    {
        match self.code()? {
            EncodingCodes::SmallLong => Ok(i64::from(self.next_byte()?.cast_signed())),
            EncodingCodes::Long => Ok(self.next_u64()?.cast_signed()),
            _ => Err(self.refuse(Error::InvalidFormatCode)),
        }
    }

    /// Reads a float, a binary number of 32 bits (part 1, section 1.6.11).
    ///
    /// Errors: `Io` where the input ends; `InvalidFormatCode` for any other type. After an error the reader
    /// has failed.
    #[tactic(auto, using(crate::proofs::Heads::refusing, crate::proofs::Fixed::floats))]
    pub fn deserialize_f32(&mut self) -> Result<Float, Error>
        ensures ok { IfOk result (λ x. Reads self.old.element (at_of R.rest self.old)
            (at_of R.rest self.new) (scalar (float x.0))) }
        ensures element { OnOk result (self.new.element ≡ self.old.element) }
        ensures refused { Unless R.faulty result
            (Refuses float_taken self.old.element (at_of R.rest self.old)) }
        ensures failed { OnErr result (HasFailed R.rest self.new) }
        ensures named { Named R.faulty result
            (Names float_kind self.old.element (R.rest self.old.reader)) }
    {
        match self.code()? {
            EncodingCodes::Float => Ok(Float::from_bits(self.next_u32()?)),
            _ => Err(self.refuse(Error::InvalidFormatCode)),
        }
    }

    /// Reads a double, a binary number of 64 bits (part 1, section 1.6.12).
    ///
    /// Errors: `Io` where the input ends; `InvalidFormatCode` for any other type. After an error the reader
    /// has failed.
    #[tactic(auto, using(crate::proofs::Heads::refusing, crate::proofs::Fixed::doubles))]
    pub fn deserialize_f64(&mut self) -> Result<Double, Error>
        ensures ok { IfOk result (λ x. Reads self.old.element (at_of R.rest self.old)
            (at_of R.rest self.new) (scalar (double x.0))) }
        ensures element { OnOk result (self.new.element ≡ self.old.element) }
        ensures refused { Unless R.faulty result
            (Refuses double_taken self.old.element (at_of R.rest self.old)) }
        ensures failed { OnErr result (HasFailed R.rest self.new) }
        ensures named { Named R.faulty result
            (Names double_kind self.old.element (R.rest self.old.reader)) }
    {
        match self.code()? {
            EncodingCodes::Double => Ok(Double::from_bits(self.next_u64()?)),
            _ => Err(self.refuse(Error::InvalidFormatCode)),
        }
    }

    /// Reads a decimal32, by the bytes of its IEEE 754 encoding (part 1, section 1.6.13).
    ///
    /// Errors: `Io` where the input ends; `InvalidFormatCode` for any other type. After an error the reader
    /// has failed.
    #[tactic(auto, using(crate::proofs::Heads::refusing, crate::proofs::Fixed::decimal32s))]
    pub fn deserialize_decimal32(&mut self) -> Result<[u8; 4], Error>
        ensures ok { IfOk result (λ bs. Reads self.old.element (at_of R.rest self.old)
            (at_of R.rest self.new) (scalar (decimal32 bs))) }
        ensures element { OnOk result (self.new.element ≡ self.old.element) }
        ensures refused { Unless R.faulty result
            (Refuses decimal32_taken self.old.element (at_of R.rest self.old)) }
        ensures failed { OnErr result (HasFailed R.rest self.new) }
        ensures named { Named R.faulty result
            (Names decimal32_kind self.old.element (R.rest self.old.reader)) }
    {
        match self.code()? {
            EncodingCodes::Decimal32 => Ok(self.next_bytes::<4>()?),
            _ => Err(self.refuse(Error::InvalidFormatCode)),
        }
    }

    /// Reads a decimal64, by the bytes of its IEEE 754 encoding (part 1, section 1.6.14).
    ///
    /// Errors: `Io` where the input ends; `InvalidFormatCode` for any other type. After an error the reader
    /// has failed.
    #[tactic(auto, using(crate::proofs::Heads::refusing, crate::proofs::Fixed::decimal64s))]
    pub fn deserialize_decimal64(&mut self) -> Result<[u8; 8], Error>
        ensures ok { IfOk result (λ bs. Reads self.old.element (at_of R.rest self.old)
            (at_of R.rest self.new) (scalar (decimal64 bs))) }
        ensures element { OnOk result (self.new.element ≡ self.old.element) }
        ensures refused { Unless R.faulty result
            (Refuses decimal64_taken self.old.element (at_of R.rest self.old)) }
        ensures failed { OnErr result (HasFailed R.rest self.new) }
        ensures named { Named R.faulty result
            (Names decimal64_kind self.old.element (R.rest self.old.reader)) }
    {
        match self.code()? {
            EncodingCodes::Decimal64 => Ok(self.next_bytes::<8>()?),
            _ => Err(self.refuse(Error::InvalidFormatCode)),
        }
    }

    /// Reads a decimal128, by the bytes of its IEEE 754 encoding (part 1, section 1.6.15).
    ///
    /// Errors: `Io` where the input ends; `InvalidFormatCode` for any other type. After an error the reader
    /// has failed.
    #[tactic(auto, using(crate::proofs::Heads::refusing, crate::proofs::Fixed::decimal128s))]
    pub fn deserialize_decimal128(&mut self) -> Result<[u8; 16], Error>
        ensures ok { IfOk result (λ bs. Reads self.old.element (at_of R.rest self.old)
            (at_of R.rest self.new) (scalar (decimal128 bs))) }
        ensures element { OnOk result (self.new.element ≡ self.old.element) }
        ensures refused { Unless R.faulty result
            (Refuses decimal128_taken self.old.element (at_of R.rest self.old)) }
        ensures failed { OnErr result (HasFailed R.rest self.new) }
        ensures named { Named R.faulty result
            (Names decimal128_kind self.old.element (R.rest self.old.reader)) }
    {
        match self.code()? {
            EncodingCodes::Decimal128 => Ok(self.next_bytes::<16>()?),
            _ => Err(self.refuse(Error::InvalidFormatCode)),
        }
    }

    /// Reads a char, which is one Unicode scalar value (part 1, section 1.6.16).
    ///
    /// Errors: `Io` where the input ends; `InvalidFormatCode` for any other type; `InvalidValue` for
    /// a number that is no Unicode scalar value. After an error the reader has failed.
    #[tactic(auto, using(crate::proofs::Heads::refusing, crate::proofs::Fixed::chars))]
    pub fn deserialize_char(&mut self) -> Result<char, Error>
        ensures ok { IfOk result (λ c. Reads self.old.element (at_of R.rest self.old)
            (at_of R.rest self.new) (scalar (char c))) }
        ensures element { OnOk result (self.new.element ≡ self.old.element) }
        ensures refused { Unless R.faulty result
            (Refuses char_taken self.old.element (at_of R.rest self.old)) }
        ensures failed { OnErr result (HasFailed R.rest self.new) }
        ensures named { Named R.faulty result
            (Names char_kind self.old.element (R.rest self.old.reader)) }
    {
        match self.code()? {
            EncodingCodes::Char => {
                let code = self.next_u32()?;
                match char::from_u32(code) {
                    Some(c) => Ok(c),
                    None => Err(self.refuse(Error::InvalidValue)),
                }
            }
            _ => Err(self.refuse(Error::InvalidFormatCode)),
        }
    }

    /// Reads a timestamp, in milliseconds since the Unix epoch (part 1, section 1.6.17).
    ///
    /// Errors: `Io` where the input ends; `InvalidFormatCode` for any other type. After an error the reader
    /// has failed.
    #[tactic(auto, using(crate::proofs::Heads::refusing, crate::proofs::Fixed::timestamps))]
    pub fn deserialize_timestamp(&mut self) -> Result<i64, Error>
        ensures ok { IfOk result (λ z. Reads self.old.element (at_of R.rest self.old)
            (at_of R.rest self.new) (scalar (timestamp z))) }
        ensures element { OnOk result (self.new.element ≡ self.old.element) }
        ensures refused { Unless R.faulty result
            (Refuses timestamp_taken self.old.element (at_of R.rest self.old)) }
        ensures failed { OnErr result (HasFailed R.rest self.new) }
        ensures named { Named R.faulty result
            (Names timestamp_kind self.old.element (R.rest self.old.reader)) }
    {
        match self.code()? {
            EncodingCodes::Timestamp => Ok(self.next_u64()?.cast_signed()),
            _ => Err(self.refuse(Error::InvalidFormatCode)),
        }
    }

    /// Reads a uuid (part 1, section 1.6.18).
    ///
    /// Errors: `Io` where the input ends; `InvalidFormatCode` for any other type. After an error the reader
    /// has failed.
    #[tactic(auto, using(crate::proofs::Heads::refusing, crate::proofs::Fixed::uuids))]
    pub fn deserialize_uuid(&mut self) -> Result<[u8; 16], Error>
        ensures ok { IfOk result (λ bs. Reads self.old.element (at_of R.rest self.old)
            (at_of R.rest self.new) (scalar (uuid bs))) }
        ensures element { OnOk result (self.new.element ≡ self.old.element) }
        ensures refused { Unless R.faulty result
            (Refuses uuid_taken self.old.element (at_of R.rest self.old)) }
        ensures failed { OnErr result (HasFailed R.rest self.new) }
        ensures named { Named R.faulty result
            (Names uuid_kind self.old.element (R.rest self.old.reader)) }
    {
        match self.code()? {
            EncodingCodes::Uuid => Ok(self.next_bytes::<16>()?),
            _ => Err(self.refuse(Error::InvalidFormatCode)),
        }
    }

    /// Reads a binary: its bytes (part 1, section 1.6.19), which lie in the value itself where they are 32 at most.
    ///
    /// Errors: `Io` where the input ends; `InvalidFormatCode` for any other type; `Memory`. After an error
    /// the reader has failed.
    #[tactic(auto, using(crate::proofs::Heads::refusing, crate::proofs::Sized::binaries))]
    pub fn deserialize_byte_buf(&mut self, alloc: Global) -> Result<ShortBytes, Error>
        ensures ok { IfOk result (λ v. Reads self.old.element (at_of R.rest self.old)
            (at_of R.rest self.new) (scalar (binary v.items))) }
        ensures element { OnOk result (self.new.element ≡ self.old.element) }
        ensures refused { Unless R.faulty result
            (Refuses binary_taken self.old.element (at_of R.rest self.old)) }
        ensures failed { OnErr result (HasFailed R.rest self.new) }
        ensures named { Named R.faulty result
            (Names binary_kind self.old.element (R.rest self.old.reader)) }
    {
        match self.code()? {
            EncodingCodes::Vbin8 => Ok(self.sized8(alloc)?),
            EncodingCodes::Vbin32 => Ok(self.sized32(alloc)?),
            _ => Err(self.refuse(Error::InvalidFormatCode)),
        }
    }
}

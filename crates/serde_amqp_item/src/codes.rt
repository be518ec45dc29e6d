//! The constructors of AMQP's types, and their categories (part 1, 1.2 and 1.6).
ghost use Rattle.std.specs.Prelude.{◌≡◌, Option, Some, None, ok_or};
ghost use Rattle.serde_amqp_item.specs.Wire.{code_of, byte_of, row_at, category_of};
ghost use Rattle.serde_amqp_item.specs.declared.error.Error.TheVariants.{InvalidFormatCode};

use crate::error::Error;

/// The constructors of the primitive types and of described values (part 1, sections 1.2 and 1.6).
#[derive(Debug, Clone, Copy, PartialEq, Eq)]
pub enum EncodingCodes {
    /// 00: A descriptor and a value (section 1.2).
    DescribedType,
    /// 40: The null value (section 1.6.1).
    Null,
    /// 41: The boolean true (section 1.6.2).
    BooleanTrue,
    /// 42: The boolean false.
    BooleanFalse,
    /// 56: A boolean in one byte.
    Boolean,
    /// 50: An unsigned number of 8 bits (section 1.6.3).
    UByte,
    /// 60: An unsigned number of 16 bits (section 1.6.4).
    UShort,
    /// 70: An unsigned number of 32 bits (section 1.6.5).
    UInt,
    /// 52: An unsigned number of 32 bits, in one byte.
    SmallUInt,
    /// 43: The unsigned number 0 of 32 bits.
    UInt0,
    /// 80: An unsigned number of 64 bits (section 1.6.6).
    ULong,
    /// 53: An unsigned number of 64 bits, in one byte.
    SmallULong,
    /// 44: The unsigned number 0 of 64 bits.
    ULong0,
    /// 51: A signed number of 8 bits (section 1.6.7).
    Byte,
    /// 61: A signed number of 16 bits (section 1.6.8).
    Short,
    /// 71: A signed number of 32 bits (section 1.6.9).
    Int,
    /// 54: A signed number of 32 bits, in one byte.
    SmallInt,
    /// 81: A signed number of 64 bits (section 1.6.10).
    Long,
    /// 55: A signed number of 64 bits, in one byte.
    SmallLong,
    /// 72: A binary floating point number of 32 bits (section 1.6.11).
    Float,
    /// 82: A binary floating point number of 64 bits (section 1.6.12).
    Double,
    /// 74: A decimal floating point number of 32 bits (section 1.6.13).
    Decimal32,
    /// 84: A decimal floating point number of 64 bits (section 1.6.14).
    Decimal64,
    /// 94: A decimal floating point number of 128 bits (section 1.6.15).
    Decimal128,
    /// 73: A Unicode scalar value (section 1.6.16).
    Char,
    /// 83: Milliseconds since the Unix epoch (section 1.6.17).
    Timestamp,
    /// 98: A universally unique identifier (section 1.6.18).
    Uuid,
    /// a0: Up to 255 bytes (section 1.6.19).
    Vbin8,
    /// b0: Up to 2^32 - 1 bytes.
    Vbin32,
    /// a1: A text of up to 255 bytes (section 1.6.20).
    Str8,
    /// b1: A text of up to 2^32 - 1 bytes.
    Str32,
    /// a3: A symbol of up to 255 bytes (section 1.6.21).
    Sym8,
    /// b3: A symbol of up to 2^32 - 1 bytes.
    Sym32,
    /// 45: The empty list (section 1.6.22).
    List0,
    /// c0: A list with a size and a count of one byte.
    List8,
    /// d0: A list with a size and a count of four bytes.
    List32,
    /// c1: A map with a size and a count of one byte (section 1.6.23).
    Map8,
    /// d1: A map with a size and a count of four bytes.
    Map32,
    /// e0: An array with a size and a count of one byte (section 1.6.24).
    Array8,
    /// f0: An array with a size and a count of four bytes.
    Array32,
}

/// The constructor that a byte stands for; none where the byte is no constructor (part 1, section 1.6).
pub fn code_of(byte: u8) -> Option<EncodingCodes>
    ensures { result ≡ code_of byte }
{
    match byte {
        0x00 => Some(EncodingCodes::DescribedType),
        0x40 => Some(EncodingCodes::Null),
        0x41 => Some(EncodingCodes::BooleanTrue),
        0x42 => Some(EncodingCodes::BooleanFalse),
        0x56 => Some(EncodingCodes::Boolean),
        0x50 => Some(EncodingCodes::UByte),
        0x60 => Some(EncodingCodes::UShort),
        0x70 => Some(EncodingCodes::UInt),
        0x52 => Some(EncodingCodes::SmallUInt),
        0x43 => Some(EncodingCodes::UInt0),
        0x80 => Some(EncodingCodes::ULong),
        0x53 => Some(EncodingCodes::SmallULong),
        0x44 => Some(EncodingCodes::ULong0),
        0x51 => Some(EncodingCodes::Byte),
        0x61 => Some(EncodingCodes::Short),
        0x71 => Some(EncodingCodes::Int),
        0x54 => Some(EncodingCodes::SmallInt),
        0x81 => Some(EncodingCodes::Long),
        0x55 => Some(EncodingCodes::SmallLong),
        0x72 => Some(EncodingCodes::Float),
        0x82 => Some(EncodingCodes::Double),
        0x74 => Some(EncodingCodes::Decimal32),
        0x84 => Some(EncodingCodes::Decimal64),
        0x94 => Some(EncodingCodes::Decimal128),
        0x73 => Some(EncodingCodes::Char),
        0x83 => Some(EncodingCodes::Timestamp),
        0x98 => Some(EncodingCodes::Uuid),
        0xa0 => Some(EncodingCodes::Vbin8),
        0xb0 => Some(EncodingCodes::Vbin32),
        0xa1 => Some(EncodingCodes::Str8),
        0xb1 => Some(EncodingCodes::Str32),
        0xa3 => Some(EncodingCodes::Sym8),
        0xb3 => Some(EncodingCodes::Sym32),
        0x45 => Some(EncodingCodes::List0),
        0xc0 => Some(EncodingCodes::List8),
        0xd0 => Some(EncodingCodes::List32),
        0xc1 => Some(EncodingCodes::Map8),
        0xd1 => Some(EncodingCodes::Map32),
        0xe0 => Some(EncodingCodes::Array8),
        0xf0 => Some(EncodingCodes::Array32),
        _ => None,
    }
}

impl EncodingCodes {
    /// The byte that stands for the constructor (part 1, section 1.6).
    pub fn byte(self) -> u8
        ensures { result ≡ byte_of self }
    {
        match self {
            EncodingCodes::DescribedType => 0x00,
            EncodingCodes::Null => 0x40,
            EncodingCodes::BooleanTrue => 0x41,
            EncodingCodes::BooleanFalse => 0x42,
            EncodingCodes::Boolean => 0x56,
            EncodingCodes::UByte => 0x50,
            EncodingCodes::UShort => 0x60,
            EncodingCodes::UInt => 0x70,
            EncodingCodes::SmallUInt => 0x52,
            EncodingCodes::UInt0 => 0x43,
            EncodingCodes::ULong => 0x80,
            EncodingCodes::SmallULong => 0x53,
            EncodingCodes::ULong0 => 0x44,
            EncodingCodes::Byte => 0x51,
            EncodingCodes::Short => 0x61,
            EncodingCodes::Int => 0x71,
            EncodingCodes::SmallInt => 0x54,
            EncodingCodes::Long => 0x81,
            EncodingCodes::SmallLong => 0x55,
            EncodingCodes::Float => 0x72,
            EncodingCodes::Double => 0x82,
            EncodingCodes::Decimal32 => 0x74,
            EncodingCodes::Decimal64 => 0x84,
            EncodingCodes::Decimal128 => 0x94,
            EncodingCodes::Char => 0x73,
            EncodingCodes::Timestamp => 0x83,
            EncodingCodes::Uuid => 0x98,
            EncodingCodes::Vbin8 => 0xa0,
            EncodingCodes::Vbin32 => 0xb0,
            EncodingCodes::Str8 => 0xa1,
            EncodingCodes::Str32 => 0xb1,
            EncodingCodes::Sym8 => 0xa3,
            EncodingCodes::Sym32 => 0xb3,
            EncodingCodes::List0 => 0x45,
            EncodingCodes::List8 => 0xc0,
            EncodingCodes::List32 => 0xd0,
            EncodingCodes::Map8 => 0xc1,
            EncodingCodes::Map32 => 0xd1,
            EncodingCodes::Array8 => 0xe0,
            EncodingCodes::Array32 => 0xf0,
        }
    }
}

impl TryFrom<u8> for EncodingCodes {
    type Error = Error;

    /// The constructor that a byte stands for (part 1, section 1.6).
    ///
    /// Errors: `InvalidFormatCode` exactly where the byte is no constructor.
    fn try_from(byte: u8) -> Result<EncodingCodes, Error>
        ensures { result ≡ ok_or (code_of byte) InvalidFormatCode }
    {
        code_of(byte).ok_or(Error::InvalidFormatCode)
    }
}

/// The categories of the constructors of primitive types (part 1, section 1.2).
#[derive(Debug, Clone, Copy, PartialEq, Eq)]
pub enum Category {
    /// So many bytes; none where the constructor alone gives the value.
    Fixed(usize),
    /// A size, and so many bytes. The field has so many bytes.
    Variable(usize),
    /// A size, a count, and items with their constructors. Each field has so many bytes.
    Compound(usize),
    /// A size, a count, one constructor, and elements without it. Each field has so many bytes.
    Array(usize),
}

/// The constructor is that of described values, which are of no category: their value has one of its own.
#[derive(Debug, Clone, Copy, PartialEq, Eq, thiserror::Error)]
#[error("a described value has no category")]
pub struct IsDescribed;

impl TryFrom<EncodingCodes> for Category {
    type Error = IsDescribed;

    /// The category of a constructor (part 1, section 1.6).
    ///
    /// Errors: `IsDescribed` exactly for the constructor of described values, which has none.
    fn try_from(code: EncodingCodes) -> Result<Category, IsDescribed>
        ensures { result ≡ ok_or (category_of (row_at (Some code))) (record {}) }
    {
        match code {
            EncodingCodes::DescribedType => Err(IsDescribed),
            EncodingCodes::Null
            | EncodingCodes::BooleanTrue
            | EncodingCodes::BooleanFalse
            | EncodingCodes::UInt0
            | EncodingCodes::ULong0
            | EncodingCodes::List0 => Ok(Category::Fixed(0)),
            EncodingCodes::Boolean
            | EncodingCodes::UByte
            | EncodingCodes::SmallUInt
            | EncodingCodes::SmallULong
            | EncodingCodes::Byte
            | EncodingCodes::SmallInt
            | EncodingCodes::SmallLong => Ok(Category::Fixed(1)),
            EncodingCodes::UShort | EncodingCodes::Short => Ok(Category::Fixed(2)),
            EncodingCodes::UInt
            | EncodingCodes::Int
            | EncodingCodes::Float
            | EncodingCodes::Decimal32
            | EncodingCodes::Char => Ok(Category::Fixed(4)),
            EncodingCodes::ULong
            | EncodingCodes::Long
            | EncodingCodes::Double
            | EncodingCodes::Decimal64
            | EncodingCodes::Timestamp => Ok(Category::Fixed(8)),
            EncodingCodes::Decimal128 | EncodingCodes::Uuid => Ok(Category::Fixed(16)),
            EncodingCodes::Vbin8 | EncodingCodes::Str8 | EncodingCodes::Sym8 => Ok(
                Category::Variable(1),
            ),
            EncodingCodes::Vbin32 | EncodingCodes::Str32 | EncodingCodes::Sym32 => Ok(
                Category::Variable(4),
            ),
            EncodingCodes::List8 | EncodingCodes::Map8 => Ok(Category::Compound(1)),
            EncodingCodes::List32 | EncodingCodes::Map32 => Ok(Category::Compound(4)),
            EncodingCodes::Array8 => Ok(Category::Array(1)),
            EncodingCodes::Array32 => Ok(Category::Array(4)),
        }
    }
}

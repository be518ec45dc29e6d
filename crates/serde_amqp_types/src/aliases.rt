//! The names of AMQP's types (part 1, 1.6) for Rust's.
use crate::bytes::ByteBuf;

/// A truth value (part 1, 1.6.2).
pub type Boolean = bool;

/// An unsigned number of 8 bits (part 1, 1.6.3).
pub type Ubyte = u8;

/// An unsigned number of 16 bits (part 1, 1.6.4).
pub type Ushort = u16;

/// An unsigned number of 32 bits (part 1, 1.6.5).
pub type Uint = u32;

/// An unsigned number of 64 bits (part 1, 1.6.6).
pub type Ulong = u64;

/// A signed number of 8 bits (part 1, 1.6.7).
pub type Byte = i8;

/// A signed number of 16 bits (part 1, 1.6.8).
pub type Short = i16;

/// A signed number of 32 bits (part 1, 1.6.9).
pub type Int = i32;

/// A signed number of 64 bits (part 1, 1.6.10).
pub type Long = i64;

/// One Unicode character (part 1, 1.6.16).
pub type Char = char;

/// Bytes (part 1, 1.6.19).
pub type Binary = ByteBuf;

/// A sequence of values of one type (part 1, 1.6.22).
pub type List<T> = Vec<T>;

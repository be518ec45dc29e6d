//! Types of AMQP 1.0 that have no counterpart among Rust's own. A clause sees each as plain data.
#![tactic(auto)]

mod aliases;
mod array;
mod borrowed;
mod bytes;
mod decimals;
mod defaults;
mod described;
mod keys;
mod multiple;
mod symbol;
mod text;
mod timestamp;
mod uuid;

pub use aliases::{
    Binary, Boolean, Byte, Char, Int, List, Long, Short, Ubyte, Uint, Ulong, Ushort,
};
pub use array::Array;
pub use borrowed::{BinaryRef, SymbolRef};
pub use bytes::ByteBuf;
pub use decimals::{Dec32, Dec64, Dec128, Decimal};
pub use defaults::{BoolOr, UByteOr, UIntOr, UShortOr};
pub use described::{Described, Descriptor};
pub use multiple::Multiple;
pub use symbol::Symbol;
pub use text::Text;
pub use timestamp::Timestamp;
pub use uuid::Uuid;

//! Reading values from wire forms of AMQP's type system (part 1).
#![tactic(auto)]

mod access;
mod borrow;
mod constructor;
mod content;
mod deserialize;
mod deserializer;
mod key;
mod laws;
mod map;
mod numbers;
mod primitives;
mod raw;
mod record;
mod sequence;
mod short;
mod sorted;
mod tuple;

pub use access::{ArrayAccess, DescribedAccess, ListAccess, MapAccess, VariantAccess};
pub use borrow::{BorrowDeserialize, borrow_from_slice};
pub use content::Content;
pub use deserialize::{Deserialize, NeverNull, from_reader, from_slice};
pub use deserializer::Deserializer;
pub use key::MapKey;
pub use laws::one_value;
pub use map::read_map;
pub use record::{ReadFields, read_descriptor, read_record};
pub use sequence::{read_array, read_list, read_multiple};
pub use serde_amqp_read::{InMemory, IoReader, Read, SliceReader};
pub use short::ShortBytes;
pub use sorted::SortedKey;

//! AMQP's values as items, their wire forms and their canonical text (part 1).
// The items of AMQP's type system (part 1), their wire forms and their canonical texts.
#![tactic(auto)]

mod codes;
mod constants;
mod error;
mod floats;
mod laws;

pub use codes::{Category, EncodingCodes, IsDescribed, code_of};
pub use constants::{
    DESCRIBED_BASIC, DESCRIBED_LIST, DESCRIBED_MAP, DESCRIPTOR, MAX_ARRAY_COUNT, OFFSET_ARRAY8,
    OFFSET_ARRAY32, OFFSET_LIST8, OFFSET_LIST32, OFFSET_MAP8, OFFSET_MAP32, UNTAGGED_ENUM, VALUE,
};
pub use error::Error;
pub use floats::{Double, Float};
pub use laws::{
    canon_is_injective, canon_is_wire, constructor_gives_type, constructor_has_one_byte, one_front,
    one_item, raw_item_in_no_array, raw_item_is_its_bytes, size_is_exact, wide_is_wire,
    wire_is_strict,
};

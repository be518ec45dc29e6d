//! Maps whose pairs keep their order, values of any type kept as their bytes, and values of one of several composite
//! types (part 1, 1.2 to 1.6). A clause sees a map as the list of its pairs.
#![tactic(auto)]

mod change;
mod choice;
mod codec;
mod compare;
mod lexical;
mod look;
mod map;
mod map_laws;
mod raw_laws;
mod raw_value;
mod walk;

pub use choice::{Choice, read_choice, read_fields_of};
pub use map::OrderedMap;
pub use map_laws::{clone_is_equal, each_pair_once, no_map_has_no_form, same_items_are_equal};
pub use raw_laws::raw_value_is_strict;
pub use raw_value::RawValue;

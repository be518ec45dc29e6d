//! What is written is read back: the types of which that is so, and the law (part 1).
#![tactic(auto)]

mod compounds;
mod laws;
mod numbers;
mod values;

pub use laws::{written_is_read, written_is_read_equal};
pub use values::{Faithful, RoundTrip};

//! Values of any type as trees: read, shown and written anew by loops, at any depth (part 1).
// Values of any type, taken apart by loops, and their canonical texts.
#![tactic(auto)]

mod backwards;
mod compound;
mod cutting;
mod finished;
mod scalar;
mod taking;
mod whole;

pub use taking::{Token, tokens};
pub use whole::canonical;

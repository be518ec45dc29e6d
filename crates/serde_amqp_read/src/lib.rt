//! Sources of bytes: slices, and readers that are in memory.
#![tactic(auto)]

mod fetching;
mod in_memory;
mod measure;
mod private;
mod reader;
mod slice;

pub use fetching::IoReader;
pub use in_memory::InMemory;
pub use reader::Read;
pub use slice::SliceReader;

//! The text of a value, made of the value and not of its bytes.
mod binaries;
mod compounds;
mod maps;
mod numbers;
mod tuples;

use std::alloc::{AllocError, Global};

/// A value that has a text.
pub trait Shown {
    /// The text.
    fn text(&self, alloc: Global) -> Result<String, AllocError>;
}

impl Shown for () {
    fn text(&self, alloc: Global) -> Result<String, AllocError> {
        String::from_str(alloc, "null")
    }
}

/// None is null.
impl<T: Shown> Shown for Option<T> {
    fn text(&self, alloc: Global) -> Result<String, AllocError> {
        match self {
            Some(value) => value.text(alloc),
            None => String::from_str(alloc, "null"),
        }
    }
}

//! The types that are asked about, by their names.
mod arrays;
mod defaults;
mod described;
mod fixed;
mod lent;
mod lists;
mod maps;
mod number_arrays;
mod numbers;
mod optional;
mod scalar_arrays;
mod scalar_lists;
mod sized;
mod sorted_maps;
mod tuples;

use crate::codec::question::Question;
use std::alloc::{AllocError, Global};

/// Answers the question; none where there is no such type.
pub fn ask(alloc: Global, question: &Question<'_>) -> Result<Option<String>, AllocError> {
    numbers::ask(alloc, question)
}

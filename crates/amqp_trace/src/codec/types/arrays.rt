//! Arrays of compound values, by name.
use crate::codec::asked::typed;
use crate::codec::question::Question;
use crate::codec::types::maps;
use serde_amqp::{Array, Multiple};
use std::alloc::{AllocError, Global};

/// Answers a question about an array of compound values, or another one.
pub fn ask(alloc: Global, question: &Question<'_>) -> Result<Option<String>, AllocError> {
    match question.named.name {
        "array-of-optional-uint" => typed::<Array<Option<u32>>>(alloc, question),
        "array-of-list-of-boolean" => typed::<Array<Vec<bool>>>(alloc, question),
        "array-of-list-of-uint" => typed::<Array<Vec<u32>>>(alloc, question),
        "array-of-array-of-uint" => typed::<Array<Array<u32>>>(alloc, question),
        "array-of-tuple-of-boolean" => typed::<Array<(bool,)>>(alloc, question),
        "array-of-tuple-of-ubyte-boolean" => typed::<Array<(u8, bool)>>(alloc, question),
        "several-uint" => typed::<Multiple<Array<u32>>>(alloc, question),
        "several-boolean" => typed::<Multiple<Array<bool>>>(alloc, question),
        _ => maps::ask(alloc, question),
    }
}

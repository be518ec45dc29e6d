//! Arrays of numbers, by name.
use crate::codec::asked::typed;
use crate::codec::question::Question;
use crate::codec::types::arrays;
use serde_amqp::Array;
use std::alloc::{AllocError, Global};

/// Answers a question about an array of numbers, or another one.
pub fn ask(alloc: Global, question: &Question<'_>) -> Result<Option<String>, AllocError> {
    match question.named.name {
        "array-of-ubyte" => typed::<Array<u8>>(alloc, question),
        "array-of-ushort" => typed::<Array<u16>>(alloc, question),
        "array-of-uint" => typed::<Array<u32>>(alloc, question),
        "array-of-ulong" => typed::<Array<u64>>(alloc, question),
        "array-of-byte" => typed::<Array<i8>>(alloc, question),
        "array-of-short" => typed::<Array<i16>>(alloc, question),
        "array-of-int" => typed::<Array<i32>>(alloc, question),
        "array-of-long" => typed::<Array<i64>>(alloc, question),
        _ => arrays::ask(alloc, question),
    }
}

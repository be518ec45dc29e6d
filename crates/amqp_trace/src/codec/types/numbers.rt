//! Numbers, by name.
use crate::codec::asked::typed;
use crate::codec::question::Question;
use crate::codec::types::fixed;
use std::alloc::{AllocError, Global};

/// Answers a question about a type of numbers, or another one.
pub fn ask(alloc: Global, question: &Question<'_>) -> Result<Option<String>, AllocError> {
    match question.named.name {
        "ubyte" => typed::<u8>(alloc, question),
        "ushort" => typed::<u16>(alloc, question),
        "uint" => typed::<u32>(alloc, question),
        "ulong" => typed::<u64>(alloc, question),
        "byte" => typed::<i8>(alloc, question),
        "short" => typed::<i16>(alloc, question),
        "int" => typed::<i32>(alloc, question),
        "long" => typed::<i64>(alloc, question),
        _ => fixed::ask(alloc, question),
    }
}

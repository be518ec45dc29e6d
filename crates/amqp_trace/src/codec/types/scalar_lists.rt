//! Lists of scalars, by name.
use crate::codec::asked::typed;
use crate::codec::question::Question;
use crate::codec::types::scalar_arrays;
use serde_amqp::{ByteBuf, RawValue, Symbol, Text, Timestamp, Uuid};
use std::alloc::{AllocError, Global};

/// Answers a question about a list, or another one.
pub fn ask(alloc: Global, question: &Question<'_>) -> Result<Option<String>, AllocError> {
    match question.named.name {
        "list-of-null" => typed::<Vec<()>>(alloc, question),
        "list-of-boolean" => typed::<Vec<bool>>(alloc, question),
        "list-of-ubyte" => typed::<Vec<u8>>(alloc, question),
        "list-of-uint" => typed::<Vec<u32>>(alloc, question),
        "list-of-ulong" => typed::<Vec<u64>>(alloc, question),
        "list-of-int" => typed::<Vec<i32>>(alloc, question),
        "list-of-char" => typed::<Vec<char>>(alloc, question),
        "list-of-uuid" => typed::<Vec<Uuid>>(alloc, question),
        "list-of-timestamp" => typed::<Vec<Timestamp>>(alloc, question),
        "list-of-binary" => typed::<Vec<ByteBuf>>(alloc, question),
        "list-of-text" => typed::<Vec<Text>>(alloc, question),
        "list-of-symbol" => typed::<Vec<Symbol>>(alloc, question),
        "list-of-raw" => typed::<Vec<RawValue>>(alloc, question),
        _ => scalar_arrays::ask(alloc, question),
    }
}

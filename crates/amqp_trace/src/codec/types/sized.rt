//! Types with a size, by name.
use crate::codec::asked::typed;
use crate::codec::question::Question;
use crate::codec::types::optional;
use serde_amqp::{ByteBuf, RawValue, Symbol, Text};
use std::alloc::{AllocError, Global};

/// Answers a question about a type with a size, or another one.
pub fn ask(alloc: Global, question: &Question<'_>) -> Result<Option<String>, AllocError> {
    match question.named.name {
        "binary" => typed::<ByteBuf>(alloc, question),
        "string" => typed::<String>(alloc, question),
        "text" => typed::<Text>(alloc, question),
        "symbol" => typed::<Symbol>(alloc, question),
        "raw" => typed::<RawValue>(alloc, question),
        _ => optional::ask(alloc, question),
    }
}

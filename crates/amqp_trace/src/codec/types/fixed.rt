//! Types of fixed width other than numbers, by name.
use crate::codec::asked::typed;
use crate::codec::question::Question;
use crate::codec::types::sized;
use serde_amqp::{Dec32, Dec64, Dec128, Double, Float, Timestamp, Uuid};
use std::alloc::{AllocError, Global};

/// Answers a question about another type of fixed width, or another one.
pub fn ask(alloc: Global, question: &Question<'_>) -> Result<Option<String>, AllocError> {
    match question.named.name {
        "null" => typed::<()>(alloc, question),
        "boolean" => typed::<bool>(alloc, question),
        "float" => typed::<Float>(alloc, question),
        "double" => typed::<Double>(alloc, question),
        "decimal32" => typed::<Dec32>(alloc, question),
        "decimal64" => typed::<Dec64>(alloc, question),
        "decimal128" => typed::<Dec128>(alloc, question),
        "char" => typed::<char>(alloc, question),
        "timestamp" => typed::<Timestamp>(alloc, question),
        "uuid" => typed::<Uuid>(alloc, question),
        _ => sized::ask(alloc, question),
    }
}

//! Values that may be null, by name.
use crate::codec::asked::typed;
use crate::codec::question::Question;
use crate::codec::types::lists;
use serde_amqp::RawValue;
use std::alloc::{AllocError, Global};

/// Answers a question about a value that may be null, or another one.
pub fn ask(alloc: Global, question: &Question<'_>) -> Result<Option<String>, AllocError> {
    match question.named.name {
        "optional-boolean" => typed::<Option<bool>>(alloc, question),
        "optional-uint" => typed::<Option<u32>>(alloc, question),
        "optional-optional-long" => typed::<Option<Option<i64>>>(alloc, question),
        "optional-raw" => typed::<Option<RawValue>>(alloc, question),
        _ => lists::ask(alloc, question),
    }
}

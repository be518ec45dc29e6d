//! Fields with a default, by name.
use crate::codec::asked::typed;
use crate::codec::question::Question;
use crate::codec::types::lent;
use serde_amqp::{BoolOr, UByteOr, UIntOr, UShortOr};
use std::alloc::{AllocError, Global};

/// Answers a question about a field whose default is null, or another one.
pub fn ask(alloc: Global, question: &Question<'_>) -> Result<Option<String>, AllocError> {
    match question.named.name {
        "ubyte-or-4" => typed::<UByteOr<4>>(alloc, question),
        "ushort-or-1" => typed::<UShortOr<1>>(alloc, question),
        "uint-or-255" => typed::<UIntOr<255>>(alloc, question),
        "boolean-or-true" => typed::<BoolOr<true>>(alloc, question),
        "boolean-or-false" => typed::<BoolOr<false>>(alloc, question),
        _ => lent::ask(alloc, question),
    }
}

//! Types whose values are lent, by name.
use crate::codec::asked::lent;
use crate::codec::question::Question;
use serde_amqp::{BinaryRef, SymbolRef};
use std::alloc::{AllocError, Global};

/// Answers a question about a type whose values are lent; none where there is no such type.
pub fn ask(alloc: Global, question: &Question<'_>) -> Result<Option<String>, AllocError> {
    match question.named.name {
        "lent-string" => lent::<&str>(alloc, question),
        "lent-symbol" => lent::<SymbolRef<'_>>(alloc, question),
        "lent-binary" => lent::<BinaryRef<'_>>(alloc, question),
        _ => Ok(None),
    }
}

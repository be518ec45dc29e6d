//! Lists of compound values, by name.
use crate::codec::asked::typed;
use crate::codec::question::Question;
use crate::codec::types::scalar_lists;
use serde_amqp::{Array, ByteBuf, Described};
use std::alloc::{AllocError, Global};

/// Answers a question about a list of compound values, or another one.
pub fn ask(alloc: Global, question: &Question<'_>) -> Result<Option<String>, AllocError> {
    match question.named.name {
        "list-of-optional-boolean" => typed::<Vec<Option<bool>>>(alloc, question),
        "list-of-optional-ushort" => typed::<Vec<Option<u16>>>(alloc, question),
        "list-of-optional-uint" => typed::<Vec<Option<u32>>>(alloc, question),
        "list-of-list-of-uint" => typed::<Vec<Vec<u32>>>(alloc, question),
        "list-of-list-of-list-of-uint" => typed::<Vec<Vec<Vec<u32>>>>(alloc, question),
        "list-of-array-of-array-of-uint" => typed::<Vec<Array<Array<u32>>>>(alloc, question),
        "list-of-described-binary" => typed::<Vec<Described<ByteBuf>>>(alloc, question),
        _ => scalar_lists::ask(alloc, question),
    }
}

//! Described values, by name.
use crate::codec::asked::typed;
use crate::codec::question::Question;
use crate::codec::types::defaults;
use serde_amqp::{Described, OrderedMap};
use std::alloc::{AllocError, Global};

/// Answers a question about a described value, or another one.
pub fn ask(alloc: Global, question: &Question<'_>) -> Result<Option<String>, AllocError> {
    match question.named.name {
        "described-boolean" => typed::<Described<bool>>(alloc, question),
        "described-ushort" => typed::<Described<u16>>(alloc, question),
        "described-uint" => typed::<Described<u32>>(alloc, question),
        "described-list-of-boolean" => typed::<Described<Vec<bool>>>(alloc, question),
        "described-list-of-uint" => typed::<Described<Vec<u32>>>(alloc, question),
        "described-map-of-uint-optional-boolean" => typed::<
            Described<OrderedMap<u32, Option<bool>>>,
        >(alloc, question),
        _ => defaults::ask(alloc, question),
    }
}

//! Maps in the order of their keys, by name.
use crate::codec::asked::typed;
use crate::codec::question::Question;
use crate::codec::types::tuples;
use std::alloc::{AllocError, Global};
use std::collections::BTreeMap;

/// Answers a question about a map in the order of its keys, or another one.
pub fn ask(alloc: Global, question: &Question<'_>) -> Result<Option<String>, AllocError> {
    match question.named.name {
        "sorted-map-of-ubyte-boolean" => typed::<BTreeMap<u8, bool>>(alloc, question),
        "sorted-map-of-uint-boolean" => typed::<BTreeMap<u32, bool>>(alloc, question),
        "sorted-map-of-uint-optional-boolean" => typed::<BTreeMap<u32, Option<bool>>>(
            alloc, question,
        ),
        "sorted-map-of-int-boolean" => typed::<BTreeMap<i32, bool>>(alloc, question),
        "sorted-map-of-string-uint" => typed::<BTreeMap<String, u32>>(alloc, question),
        "sorted-map-of-string-list-of-int" => typed::<BTreeMap<String, Vec<i32>>>(alloc, question),
        _ => tuples::ask(alloc, question),
    }
}

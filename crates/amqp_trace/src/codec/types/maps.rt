//! Maps in the order of their pairs, by name.
use crate::codec::asked::typed;
use crate::codec::question::Question;
use crate::codec::types::sorted_maps;
use serde_amqp::{ByteBuf, OrderedMap, RawValue, Symbol};
use std::alloc::{AllocError, Global};

/// Answers a question about a map in the order of its pairs, or another one.
pub fn ask(alloc: Global, question: &Question<'_>) -> Result<Option<String>, AllocError> {
    match question.named.name {
        "map-of-ubyte-boolean" => typed::<OrderedMap<u8, bool>>(alloc, question),
        "map-of-ubyte-binary" => typed::<OrderedMap<u8, ByteBuf>>(alloc, question),
        "map-of-ushort-boolean" => typed::<OrderedMap<u16, bool>>(alloc, question),
        "map-of-uint-boolean" => typed::<OrderedMap<u32, bool>>(alloc, question),
        "map-of-uint-optional-boolean" => typed::<OrderedMap<u32, Option<bool>>>(alloc, question),
        "map-of-string-uint" => typed::<OrderedMap<String, u32>>(alloc, question),
        "map-of-symbol-raw" => typed::<OrderedMap<Symbol, RawValue>>(alloc, question),
        "map-of-raw-raw" => typed::<OrderedMap<RawValue, RawValue>>(alloc, question),
        "map-of-string-map-of-uint-optional-boolean" => typed::<
            OrderedMap<String, OrderedMap<u32, Option<bool>>>,
        >(alloc, question),
        _ => sorted_maps::ask(alloc, question),
    }
}

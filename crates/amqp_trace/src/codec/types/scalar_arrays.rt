//! Arrays of scalars other than numbers, by name.
use crate::codec::asked::typed;
use crate::codec::question::Question;
use crate::codec::types::number_arrays;
use serde_amqp::{
    Array, ByteBuf, Dec32, Dec64, Dec128, Double, Float, Symbol, Text, Timestamp, Uuid,
};
use std::alloc::{AllocError, Global};

/// Answers a question about an array of values other than numbers, or another one.
pub fn ask(alloc: Global, question: &Question<'_>) -> Result<Option<String>, AllocError> {
    match question.named.name {
        "array-of-boolean" => typed::<Array<bool>>(alloc, question),
        "array-of-float" => typed::<Array<Float>>(alloc, question),
        "array-of-double" => typed::<Array<Double>>(alloc, question),
        "array-of-decimal32" => typed::<Array<Dec32>>(alloc, question),
        "array-of-decimal64" => typed::<Array<Dec64>>(alloc, question),
        "array-of-decimal128" => typed::<Array<Dec128>>(alloc, question),
        "array-of-char" => typed::<Array<char>>(alloc, question),
        "array-of-timestamp" => typed::<Array<Timestamp>>(alloc, question),
        "array-of-uuid" => typed::<Array<Uuid>>(alloc, question),
        "array-of-binary" => typed::<Array<ByteBuf>>(alloc, question),
        "array-of-text" => typed::<Array<Text>>(alloc, question),
        "array-of-symbol" => typed::<Array<Symbol>>(alloc, question),
        _ => number_arrays::ask(alloc, question),
    }
}

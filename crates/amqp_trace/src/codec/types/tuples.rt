//! Tuples, by name.
use crate::codec::asked::typed;
use crate::codec::question::Question;
use crate::codec::types::described;
use serde_amqp::Symbol;
use std::alloc::{AllocError, Global};

/// Answers a question about a tuple, or another one.
pub fn ask(alloc: Global, question: &Question<'_>) -> Result<Option<String>, AllocError> {
    match question.named.name {
        "tuple-of-ubyte" => typed::<(u8,)>(alloc, question),
        "tuple-of-uint" => typed::<(u32,)>(alloc, question),
        "tuple-of-uint-boolean" => typed::<(u32, bool)>(alloc, question),
        "tuple-of-uint-uint" => typed::<(u32, u32)>(alloc, question),
        "tuple-of-uint-optional-uint" => typed::<(u32, Option<u32>)>(alloc, question),
        "tuple-of-boolean-boolean-null" => typed::<(bool, bool, ())>(alloc, question),
        "tuple-of-ulong-null-byte" => typed::<(u64, (), i8)>(alloc, question),
        "tuple-of-uint-boolean-optional-long" => typed::<(u32, bool, Option<i64>)>(alloc, question),
        "tuple-of-ubyte-tuple-of-boolean-symbol-long" => typed::<(u8, (bool, Symbol), i64)>(
            alloc, question,
        ),
        "tuple-of-int-string-null-ulong" => typed::<(i32, String, (), u64)>(alloc, question),
        "tuple-of-tuple-of-boolean-uint-uint-uint" => typed::<((bool,), u32, u32, u32)>(
            alloc, question,
        ),
        "tuple-of-optional-uint-optional-ulong-null-ushort" => typed::<
            (Option<u32>, Option<u64>, (), u16),
        >(alloc, question),
        _ => described::ask(alloc, question),
    }
}

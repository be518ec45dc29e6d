//! Values that have no parts.
use crate::text::composites::Expected;
use crate::text::escapes::{push_bytes, push_hex, push_quoted, push_uuid};
use serde_amqp_item::EncodingCodes;
use std::alloc::AllocError;

/// The number that these bytes say, the highest first. Of more than eight, the last eight count.
pub(crate) fn unsigned(bytes: &[u8]) -> u64 {
    bytes
        .iter()
        .fold(0, |number: u64, byte| number << 8 | u64::from(*byte))
}

/// The number that these bytes say in two's complement, the highest first: one, two, four or eight of them.
fn signed(bytes: &[u8]) -> i64 {
    match bytes {
        [a] => i64::from(i8::from_be_bytes([*a])),
        [a, b] => i64::from(i16::from_be_bytes([*a, *b])),
        [a, b, c, d] => i64::from(i32::from_be_bytes([*a, *b, *c, *d])),
        [a, b, c, d, e, f, g, h] => i64::from_be_bytes([*a, *b, *c, *d, *e, *f, *g, *h]),
        _ => 0,
    }
}

/// Appends a value without parts as it is written anywhere, so that its type is told.
pub(crate) fn push_leaf(
    out: &mut String,
    code: EncodingCodes,
    content: &[u8],
) -> Result<(), AllocError> {
    match code {
        EncodingCodes::Null => out.push_str("null"),
        EncodingCodes::BooleanTrue => out.push_str("true"),
        EncodingCodes::BooleanFalse => out.push_str("false"),
        EncodingCodes::Boolean => push_boolean(out, content),
        EncodingCodes::Char => push_char(out, content),
        EncodingCodes::Timestamp => push_signed(out, content, "ms"),
        EncodingCodes::Uuid => push_uuid(out, content),
        EncodingCodes::Vbin8 | EncodingCodes::Vbin32 => push_bytes(out, content),
        EncodingCodes::Str8 | EncodingCodes::Str32 => push_text(out, content, '"'),
        EncodingCodes::Sym8 | EncodingCodes::Sym32 => push_text(out, content, '\''),
        _ => push_number(out, code, content),
    }
}

/// Appends a number with its type.
fn push_number(out: &mut String, code: EncodingCodes, content: &[u8]) -> Result<(), AllocError> {
    match code {
        EncodingCodes::UByte => push_unsigned(out, content, "u8"),
        EncodingCodes::UShort => push_unsigned(out, content, "u16"),
        EncodingCodes::UInt | EncodingCodes::SmallUInt | EncodingCodes::UInt0 => {
            push_unsigned(out, content, "u32")
        }
        EncodingCodes::ULong | EncodingCodes::SmallULong | EncodingCodes::ULong0 => {
            push_unsigned(out, content, "u64")
        }
        EncodingCodes::Byte => push_signed(out, content, "i8"),
        EncodingCodes::Short => push_signed(out, content, "i16"),
        EncodingCodes::Int | EncodingCodes::SmallInt => push_signed(out, content, "i32"),
        EncodingCodes::Long | EncodingCodes::SmallLong => push_signed(out, content, "i64"),
        EncodingCodes::Float => push_bits(out, "f32:", content),
        EncodingCodes::Double => push_bits(out, "f64:", content),
        EncodingCodes::Decimal32 => push_bits(out, "d32:", content),
        EncodingCodes::Decimal64 => push_bits(out, "d64:", content),
        EncodingCodes::Decimal128 => push_bits(out, "d128:", content),
        _ => push_bits(out, "?", content),
    }
}

fn push_boolean(out: &mut String, content: &[u8]) -> Result<(), AllocError> {
    match content {
        [0] => out.push_str("false"),
        _ => out.push_str("true"),
    }
}

fn push_char(out: &mut String, content: &[u8]) -> Result<(), AllocError> {
    let code = unsigned(content);
    write!(out, "U+{code:04x}")
}

fn push_text(out: &mut String, content: &[u8], quote: char) -> Result<(), AllocError> {
    match str::from_utf8(content) {
        Ok(text) => push_quoted(out, text, quote),
        Err(_) => push_bits(out, "?", content),
    }
}

fn push_unsigned(out: &mut String, content: &[u8], suffix: &str) -> Result<(), AllocError> {
    let number = unsigned(content);
    write!(out, "{number}{suffix}")
}

fn push_signed(out: &mut String, content: &[u8], suffix: &str) -> Result<(), AllocError> {
    let number = signed(content);
    write!(out, "{number}{suffix}")
}

fn push_bits(out: &mut String, prefix: &str, content: &[u8]) -> Result<(), AllocError> {
    out.push_str(prefix)?;
    push_hex(out, content)
}

/// Appends a value without parts that stands in a field: shorter where it is what is expected there.
pub(crate) fn push_field(
    out: &mut String,
    expected: Expected,
    code: EncodingCodes,
    content: &[u8],
) -> Result<(), AllocError> {
    match expected {
        Expected::Any => push_leaf(out, code, content),
        Expected::Role => push_role(out, code, content),
        Expected::UByte
        | Expected::UShort
        | Expected::UInt
        | Expected::ULong
        | Expected::SenderSettleMode
        | Expected::ReceiverSettleMode
        | Expected::Durability => {
            if is_of_type(expected, code) {
                push_expected(out, expected, unsigned(content))
            } else {
                push_leaf(out, code, content)
            }
        }
    }
}

/// Whether the constructor is one of the number's type that is expected.
fn is_of_type(expected: Expected, code: EncodingCodes) -> bool {
    match code {
        EncodingCodes::UByte => matches!(
            expected,
            Expected::UByte | Expected::SenderSettleMode | Expected::ReceiverSettleMode
        ),
        EncodingCodes::UShort => expected == Expected::UShort,
        EncodingCodes::UInt | EncodingCodes::SmallUInt | EncodingCodes::UInt0 => {
            matches!(expected, Expected::UInt | Expected::Durability)
        }
        EncodingCodes::ULong | EncodingCodes::SmallULong | EncodingCodes::ULong0 => {
            expected == Expected::ULong
        }
        _ => false,
    }
}

/// Appends a number of the type that is expected: by its name where it has one, and else alone.
fn push_expected(out: &mut String, expected: Expected, number: u64) -> Result<(), AllocError> {
    match (expected, number) {
        (Expected::SenderSettleMode, 0) => out.push_str("unsettled"),
        (Expected::SenderSettleMode, 1) => out.push_str("settled"),
        (Expected::SenderSettleMode, 2) => out.push_str("mixed"),
        (Expected::ReceiverSettleMode, 0) => out.push_str("first"),
        (Expected::ReceiverSettleMode, 1) => out.push_str("second"),
        (Expected::Durability, 0) => out.push_str("none"),
        (Expected::Durability, 1) => out.push_str("configuration"),
        (Expected::Durability, 2) => out.push_str("unsettled-state"),
        _ => write!(out, "{number}"),
    }
}

/// Appends a role where the value is a boolean.
fn push_role(out: &mut String, code: EncodingCodes, content: &[u8]) -> Result<(), AllocError> {
    match (code, content) {
        (EncodingCodes::BooleanTrue, _) | (EncodingCodes::Boolean, [1]) => {
            out.push_str("receiver")
        }
        (EncodingCodes::BooleanFalse, _) | (EncodingCodes::Boolean, [0]) => out.push_str("sender"),
        _ => push_leaf(out, code, content),
    }
}

//! Texts, symbols and bytes in quotes.
use std::alloc::AllocError;

/// Whether a byte is a visible ASCII character or a space.
pub(crate) fn is_printable(byte: u8) -> bool {
    (0x20..=0x7e).contains(&byte)
}

/// Appends text in these quotes. A quote and a backslash in it have a backslash in front, and what isn't visible ASCII
/// is written `\u{..}`, by its code in hex digits.
pub(crate) fn push_quoted(out: &mut String, text: &str, quote: char) -> Result<(), AllocError> {
    out.push(quote)?;
    for character in text.chars() {
        push_escaped(out, character, quote)?;
    }
    out.push(quote)
}

/// Appends one character between these quotes.
fn push_escaped(out: &mut String, character: char, quote: char) -> Result<(), AllocError> {
    if character == quote || character == '\\' {
        out.push('\\')?;
        return out.push(character);
    }
    if (' '..='~').contains(&character) {
        return out.push(character);
    }
    let code = u32::from(character);
    write!(out, "\\u{{{code:x}}}")
}

/// Appends bytes as hex digits in lower case.
pub(crate) fn push_hex(out: &mut String, bytes: &[u8]) -> Result<(), AllocError> {
    for byte in bytes {
        write!(out, "{byte:02x}")?;
    }
    Ok(())
}

/// Appends bytes: as text, `b".."`, where all of them are visible, and else as `x` and hex digits.
pub(crate) fn push_bytes(out: &mut String, bytes: &[u8]) -> Result<(), AllocError> {
    if let Ok(text) = str::from_utf8(bytes)
        && bytes.iter().all(|byte| is_printable(*byte))
    {
        out.push('b')?;
        return push_quoted(out, text, '"');
    }
    out.push('x')?;
    push_hex(out, bytes)
}

/// Appends a universally unique identifier: hex digits in five groups.
pub(crate) fn push_uuid(out: &mut String, bytes: &[u8]) -> Result<(), AllocError> {
    out.push_str("uuid:")?;
    for (index, byte) in bytes.iter().enumerate() {
        if matches!(index, 4 | 6 | 8 | 10) {
            out.push('-')?;
        }
        write!(out, "{byte:02x}")?;
    }
    Ok(())
}

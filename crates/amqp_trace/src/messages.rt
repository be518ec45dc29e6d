//! What messages say (part 3, 3.2).
ghost use Rattle.std.specs.Prelude.{◌≡◌, IfOk, IfErr};
ghost use Rattle.serde_amqp_read.specs.Reads.{Unless, faultless};
ghost use Rattle.amqp_trace.specs.Rewriting.{IsRewritten, NotRewritten};

use crate::faults::fault_offset;
use crate::hexadecimal::hex_word;
use crate::reading::reread;
use crate::refusal::Refusal;
use crate::text::text_of;
use amqp_link_message::{Body, ReadBody, WriteBody, read_payload};
use amqp_link_sections::Section;
use bytes::Bytes;
use serde_amqp_item::Error;
use serde_amqp_values::RawValue;
use std::alloc::Global;

/// Reads a message of which these bytes are the payload, and says what it is written as (part 3, 3.2).
///
/// Errors: `Memory`; any other exactly where the bytes don't say the sections of such a message in order, to their end,
/// or where it can't be written.
pub fn rewritten_message<B: WriteBody + ReadBody + Drop>(
    alloc: Global,
    bytes: &[u8],
) -> Result<Bytes, Error>
    ensures ok { IfOk result (λ t. IsRewritten B.takes B.ReadBody.items B.WriteBody.items bytes.now
        t) }
    ensures refused { Unless faultless result
        (NotRewritten B.takes B.ReadBody.items B.WriteBody.items bytes.now) }
{
    let message = read_payload::<B>(alloc, bytes)?;
    message.to_payload(alloc)
}

/// What a message is written as whose body may be of any kind.
fn rewritten_payload(alloc: Global, bytes: &[u8]) -> Result<Bytes, Error> {
    rewritten_message::<Body<RawValue>>(alloc, bytes)
}

/// The line for a message: its sections, as they are written, or why there are none.
pub(crate) fn message_line(alloc: Global, bytes: &[u8]) -> Result<String, Refusal> {
    match rewritten_payload(alloc, bytes) {
        Ok(payload) => sections_text(alloc, payload.as_slice()),
        Err(error) => refused(alloc, bytes, error),
    }
}

/// The bytes that the message is written as, or why there are none.
pub(crate) fn message_bytes(alloc: Global, bytes: &[u8]) -> Result<String, Refusal> {
    match rewritten_payload(alloc, bytes) {
        Ok(payload) => Ok(hex_word(alloc, payload.as_slice())?),
        Err(error) => refused(alloc, bytes, error),
    }
}

/// Where the bytes stop to be a message, and why they are none.
fn refused(alloc: Global, bytes: &[u8], error: Error) -> Result<String, Refusal> {
    if error == Error::Memory {
        return Err(Refusal::Memory);
    }
    let offset = fault_offset(alloc, bytes)?;
    Ok(format!(in alloc; "{offset} refused {error:?}")?)
}

/// Appends the sections of the message that a transfer carries, where its payload is one.
pub(crate) fn push_message(
    alloc: Global,
    line: &mut String,
    payload: &[u8],
) -> Result<(), Refusal> {
    match rewritten_payload(alloc, payload) {
        Ok(written) => {
            let text = sections_text(alloc, written.as_slice())?;
            line.push_str(" message ")?;
            line.push_str(text.as_str())?;
            Ok(())
        }
        Err(Error::Memory) => Err(Refusal::Memory),
        Err(_) => Ok(()),
    }
}

/// The text of the sections of a payload that this project wrote.
fn sections_text(alloc: Global, payload: &[u8]) -> Result<String, Refusal> {
    let mut line = String::new(alloc);
    let mut rest = payload;
    for _ in 0..payload.len() {
        if rest.is_empty() {
            return Ok(line);
        }
        if !line.is_empty() {
            line.push_str(", ")?;
        }
        let value = reread::<RawValue>(alloc, rest)?;
        push_section(alloc, &mut line, value.text.as_slice())?;
        rest = last_bytes(rest, value.left);
    }
    Ok(line)
}

/// The last so many of these bytes.
pub(crate) fn last_bytes(bytes: &[u8], left: usize) -> &[u8] {
    let start = bytes.len().saturating_sub(left);
    bytes.get(start..).unwrap_or(&[])
}

/// Appends a section as it is written: its descriptor, in three bytes, and its value.
fn push_section(alloc: Global, line: &mut String, section: &[u8]) -> Result<(), Refusal> {
    match section {
        [0x00, 0x53, code, value @ ..] => match section_name(u64::from(*code)) {
            Some(name) => push_named(alloc, line, name, value),
            None => push_value(alloc, line, section),
        },
        _ => push_value(alloc, line, section),
    }
}

/// Appends a section's name and its value.
fn push_named(alloc: Global, line: &mut String, name: &str, value: &[u8]) -> Result<(), Refusal> {
    line.push_str(name)?;
    line.push(' ')?;
    push_value(alloc, line, value)
}

/// Appends the text of a value.
fn push_value(alloc: Global, line: &mut String, value: &[u8]) -> Result<(), Refusal> {
    let text = text_of(alloc, value)?;
    line.push_str(text.as_str())?;
    Ok(())
}

/// The name of the section with this code, where a value's text doesn't say it: the header and the properties are
/// composites, whose text does.
fn section_name(code: u64) -> Option<&'static str> {
    match Section::from_code(code)? {
        Section::Header | Section::Properties => None,
        Section::DeliveryAnnotations => Some("delivery-annotations"),
        Section::MessageAnnotations => Some("message-annotations"),
        Section::ApplicationProperties => Some("application-properties"),
        Section::Data => Some("data"),
        Section::AmqpSequence => Some("amqp-sequence"),
        Section::AmqpValue => Some("amqp-value"),
        Section::Footer => Some("footer"),
    }
}

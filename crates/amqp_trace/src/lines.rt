//! Which line asks what.
use crate::codec;
use crate::connection::connection_line;
use crate::deliveries::Deliveries;
use crate::division::division_line;
use crate::frames::frame_line;
use crate::hexadecimal::{hex_word, read_bytes};
use crate::messages::{message_bytes, message_line};
use crate::reading::answer_of;
use crate::refusal::Refusal;
use crate::stream::stream_lines;
use crate::text::text_of;
use crate::types::rewritten_as;
use serde_amqp_tree::canonical;
use std::alloc::{AllocError, Global};

/// The answer to a line. It is refused for want of memory alone: a line that can't be read is answered `unreadable`.
pub fn answer(alloc: Global, given: &str) -> Result<String, AllocError> {
    match read_line(alloc, given) {
        Ok(text) => Ok(text),
        Err(refusal) => refusal.answer(alloc),
    }
}

/// The answer to a line of a word and what it is asked of.
fn read_line(alloc: Global, given: &str) -> Result<String, Refusal> {
    let Some((word, asked)) = given.split_once(' ') else {
        return Err(Refusal::Unreadable);
    };
    match word {
        "connection" => connection_line(alloc, asked),
        "divide" => divide(alloc, asked),
        "read" => read(alloc, asked),
        "write" => write(alloc, asked),
        "stream" => stream_lines(alloc, asked, "\n"),
        "out" | "in" => stream_lines(alloc, given, "\n"),
        "frames" => stream_lines(alloc, asked, " ; "),
        "as" | "array" | "beginnings" | "constructors" => typed(alloc, given),
        _ => of_bytes(alloc, word, asked),
    }
}

/// The answer to a line about one of the codec's types.
fn typed(alloc: Global, given: &str) -> Result<String, Refusal> {
    match codec::answer(alloc, given)? {
        Some(text) => Ok(text),
        None => Err(Refusal::Unreadable),
    }
}

/// The answer where a line has bytes behind its word.
fn of_bytes(alloc: Global, word: &str, asked: &str) -> Result<String, Refusal> {
    let bytes = read_bytes(alloc, asked)?;
    match word {
        "value" => Ok(text_of(alloc, bytes.as_slice())?),
        "canonical" => canonical_word(alloc, bytes.as_slice()),
        "performative" | "message" => read_as(alloc, word, bytes.as_slice()),
        "frame" => frame_line(alloc, &mut Deliveries::new(alloc), bytes.as_slice()),
        _ => Err(Refusal::Unreadable),
    }
}

/// The bytes that the value is written as.
fn canonical_word(alloc: Global, bytes: &[u8]) -> Result<String, Refusal> {
    let written = canonical(alloc, bytes)?;
    Ok(hex_word(alloc, written.as_slice())?)
}

/// `divide <limit> <hex>`
fn divide(alloc: Global, asked: &str) -> Result<String, Refusal> {
    let Some((limit, word)) = asked.split_once(' ') else {
        return Err(Refusal::Unreadable);
    };
    let Ok(limit) = limit.parse::<usize>() else {
        return Err(Refusal::Unreadable);
    };
    let bytes = read_bytes(alloc, word)?;
    division_line(alloc, limit, bytes.as_slice())
}

/// `read <type> <hex>`
fn read(alloc: Global, asked: &str) -> Result<String, Refusal> {
    let Some((name, word)) = asked.split_once(' ') else {
        return Err(Refusal::Unreadable);
    };
    let bytes = read_bytes(alloc, word)?;
    read_as(alloc, name, bytes.as_slice())
}

/// The text of the value that the bytes are read as.
fn read_as(alloc: Global, name: &str, bytes: &[u8]) -> Result<String, Refusal> {
    if name == "message" {
        return message_line(alloc, bytes);
    }
    let written = rewritten_as(alloc, name, bytes)?;
    answer_of(alloc, &written)
}

/// `write <type> <hex>`
fn write(alloc: Global, asked: &str) -> Result<String, Refusal> {
    let Some((name, word)) = asked.split_once(' ') else {
        return Err(Refusal::Unreadable);
    };
    let bytes = read_bytes(alloc, word)?;
    if name == "message" {
        return message_bytes(alloc, bytes.as_slice());
    }
    let written = rewritten_as(alloc, name, bytes.as_slice())?;
    Ok(hex_word(alloc, written.text.as_slice())?)
}

//! Lines about typed reading and writing: which value bytes are of a type of AMQP 1.0 (OASIS AMQP 1.0, part 1, section
//! 1.6), and how it is written.

mod asked;
mod question;
mod runs;
mod shown;
mod types;

use question::question_of;
use std::alloc::{AllocError, Global};

/// Answers a line about a type; none where it can't be read. Its words are parted by one space: a verb, a type and
/// bytes.
///
/// - `as`: the value that the bytes are read as, and behind `written` the bytes that it is written as; behind `left`
///   how many bytes are left, if any.
/// - `array`: the bytes are those of a list of values of the type; behind `written` the bytes of an array of them.
/// - `beginnings`: `refused Io(UnexpectedEof)` where each proper beginning of the bytes is, else the length of one that
///   isn't, and what it is read as.
/// - `constructors`: each byte that is read with the bytes behind it, and how many bytes the value takes.
///
/// What isn't read or written is answered by `refused` and the error's name. Bytes are words of hex digits, `-` for
/// none; behind a `*` stands how many times a word's bytes come.
pub fn answer(alloc: Global, line: &str) -> Result<Option<String>, AllocError> {
    let Some((word, behind)) = line.split_once(' ') else {
        return Ok(None);
    };
    match question_of(alloc, word, behind)? {
        Some(question) => types::ask(alloc, &question),
        None => Ok(None),
    }
}

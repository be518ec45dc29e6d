//! What is asked of a type.
use hex::FromHexError;
use std::alloc::{AllocError, Global};

/// What is asked of a type.
#[derive(Debug, Clone, Copy, PartialEq, Eq)]
pub enum Verb {
    /// What the bytes are read as.
    As,
    /// How an array is written of the values that the bytes are a list of.
    Array,
    /// Whether the bytes are refused where they end early.
    Beginnings,
    /// Which constructors are taken in front of the bytes.
    Constructors,
}

/// A line about a type that was read.
#[derive(Drop)]
pub struct Question<'a> {
    /// What is asked.
    pub verb: Verb,
    /// The type and the bytes.
    pub named: NamedBytes<'a>,
}

/// A name, and bytes behind it.
#[derive(Drop)]
pub struct NamedBytes<'a> {
    /// The name.
    pub name: &'a str,
    /// The bytes.
    pub bytes: Vec<u8>,
}

/// What a line asks whose first word is this one; none where it can't be read.
pub fn question_of<'a>(
    alloc: Global,
    word: &str,
    behind: &'a str,
) -> Result<Option<Question<'a>>, AllocError> {
    let Some(verb) = verb_of(word) else {
        return Ok(None);
    };
    let named = named_bytes(alloc, behind)?;
    Ok(named.map(|named| Question { verb, named }))
}

/// The words' name and bytes; none where they can't be read.
pub fn named_bytes(alloc: Global, words: &str) -> Result<Option<NamedBytes<'_>>, AllocError> {
    let Some((name, words)) = words.split_once(' ') else {
        return Ok(None);
    };
    let bytes = bytes_of(alloc, words)?;
    Ok(bytes.map(|bytes| NamedBytes { name, bytes }))
}

fn verb_of(word: &str) -> Option<Verb> {
    match word {
        "as" => Some(Verb::As),
        "array" => Some(Verb::Array),
        "beginnings" => Some(Verb::Beginnings),
        "constructors" => Some(Verb::Constructors),
        _ => None,
    }
}

/// The bytes of all words, one behind the other.
fn bytes_of(alloc: Global, words: &str) -> Result<Option<Vec<u8>>, AllocError> {
    let words: Vec<&str> = words.split(' ').collect(alloc)?;
    let mut bytes = Vec::new(alloc);
    for word in words.iter() {
        if !append_word(alloc, word, &mut bytes)? {
            return Ok(None);
        }
    }
    Ok(Some(bytes))
}

/// Appends the bytes of a word. Whether it can be read.
fn append_word(alloc: Global, word: &str, bytes: &mut Vec<u8>) -> Result<bool, AllocError> {
    if word == "-" {
        return Ok(true);
    }
    match word.split_once('*') {
        Some((digits, count)) => append_times(alloc, digits, count, bytes),
        None => append_run(alloc, word, 1, bytes),
    }
}

fn append_times(
    alloc: Global,
    digits: &str,
    count: &str,
    bytes: &mut Vec<u8>,
) -> Result<bool, AllocError> {
    match count.parse::<u32>() {
        Ok(count) => append_run(alloc, digits, count, bytes),
        Err(_) => Ok(false),
    }
}

/// The most times that a word's bytes come.
const MOST_TIMES: u32 = 1_000_000;

fn append_run(
    alloc: Global,
    digits: &str,
    count: u32,
    bytes: &mut Vec<u8>,
) -> Result<bool, AllocError> {
    if count > MOST_TIMES {
        return Ok(false);
    }
    let Some(run) = decoded(alloc, digits)? else {
        return Ok(false);
    };
    for _ in 0..count {
        bytes.extend_from_slice(run.as_slice())?;
    }
    Ok(true)
}

fn decoded(alloc: Global, digits: &str) -> Result<Option<Vec<u8>>, AllocError> {
    match hex::decode(alloc, digits) {
        Ok(bytes) => Ok(Some(bytes)),
        Err(FromHexError::OutOfMemory) => Err(AllocError),
        Err(_) => Ok(None),
    }
}

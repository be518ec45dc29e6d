//! Bytes as words.
use crate::refusal::Refusal;
use hex::FromHexError;
use std::alloc::{AllocError, Global};

/// The bytes that a word says: hex digits of either case, two for each byte, and `-` for no bytes.
pub(crate) fn read_bytes(alloc: Global, word: &str) -> Result<Vec<u8>, Refusal> {
    if word == "-" {
        return Ok(Vec::new(alloc));
    }
    match hex::decode(alloc, word) {
        Ok(bytes) => Ok(bytes),
        Err(FromHexError::OutOfMemory) => Err(Refusal::Memory),
        Err(_) => Err(Refusal::Unreadable),
    }
}

/// The word for these bytes.
pub(crate) fn hex_word(alloc: Global, bytes: &[u8]) -> Result<String, AllocError> {
    if bytes.is_empty() {
        return String::from_str(alloc, "-");
    }
    hex::encode(alloc, bytes)
}

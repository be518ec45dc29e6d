//! The frames that a frame is written as within a limit.
use crate::frames::decoded;
use crate::hexadecimal::hex_word;
use crate::refusal::Refusal;
use amqp_session_frames::{Error as FrameError, Frame, FrameEncoder, Piece, Pieces};
use std::alloc::Global;

/// The frames that the frame of these bytes is written as, each with its size in front, where each may have so many
/// bytes behind its size. A limit of less than four is taken for four.
pub fn divided(alloc: Global, limit: usize, bytes: &[u8]) -> Result<Vec<Vec<u8>>, FrameError> {
    decoded(alloc, bytes).and_then(|frame| encoded(alloc, limit, &frame))
}

/// The frames that the frame is written as, each with its size in front.
fn encoded(alloc: Global, limit: usize, frame: &Frame) -> Result<Vec<Vec<u8>>, FrameError> {
    let pieces = FrameEncoder::new(limit.max(4)).encode(alloc, frame)?;
    with_sizes(alloc, &pieces)
}

/// The bytes of each piece, with its size in front.
fn with_sizes(alloc: Global, pieces: &Pieces) -> Result<Vec<Vec<u8>>, FrameError> {
    let mut frames = Vec::new(alloc);
    let first = with_size(alloc, pieces.first())?;
    frames.push(first)?;
    for piece in pieces.others() {
        let frame = with_size(alloc, piece)?;
        frames.push(frame)?;
    }
    Ok(frames)
}

/// The bytes of the piece, with its size in front.
fn with_size(alloc: Global, piece: &Piece) -> Result<Vec<u8>, FrameError> {
    let size = u32::try_from(piece.len())
        .unwrap_or(u32::MAX)
        .saturating_add(4);
    let mut bytes = Vec::from_slice(alloc, &size.to_be_bytes())?;
    piece.write_to(&mut bytes)?;
    Ok(bytes)
}

/// The frames that the frame of these bytes is written as.
pub(crate) fn division_line(alloc: Global, limit: usize, bytes: &[u8]) -> Result<String, Refusal> {
    let frames = divided(alloc, limit, bytes)?;
    words(alloc, frames.as_slice())
}

/// The frames that this one is written as.
pub(crate) fn frame_words(alloc: Global, limit: usize, frame: &Frame) -> Result<String, Refusal> {
    let frames = encoded(alloc, limit, frame)?;
    words(alloc, frames.as_slice())
}

/// The frames in hex digits, parted by ` ; `.
fn words(alloc: Global, frames: &[Vec<u8>]) -> Result<String, Refusal> {
    let mut line = String::new(alloc);
    for (index, frame) in frames.iter().enumerate() {
        if index > 0 {
            line.push_str(" ; ")?;
        }
        let word = hex_word(alloc, frame.as_slice())?;
        line.push_str(word.as_str())?;
    }
    Ok(line)
}

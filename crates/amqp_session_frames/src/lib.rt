//! Frames of AMQP 1.0 and their bytes (part 2, 2.3), and the connection layer as plain calls (part 2, 2.4): states,
//! channels of sessions, and routes of the peer's channels to sessions.
//!
//! A [`Frame`] has a channel and a [`FrameBody`]: one of the nine performatives, a transfer with its payload, or nothing.
//! [`FrameDecoder`] reads a frame of its bytes. [`FrameEncoder`] writes a frame as [`Pieces`]: a [`Piece`] is its bytes without
//! the size field, and a transfer that is too long for one frame goes in several. Payloads are shared with the bytes that they
//! came in, and with the pieces that they go in. [`FrameEncoder::append`] writes a frame that goes whole behind other
//! bytes, with its size in front and without pieces.
//!
//! Which bytes are a frame, and which frame they are, says `FrameText` in specs/Text.antt; what a frame is written as,
//! `frame_text` there; in which frames a transfer goes, `AreParts` in specs/Parts.antt. That bytes are at most one frame, that
//! a frame that was written is read back, and that a stream is read in one way, are laws: see [`laws`].
//!
//! A Transfer and a Disposition in their common forms, as nearly all of them are, are read and written by hand, in
//! common_transfer.rt and common_disposition.rt, and an Attach is read so, in common_attach.rt. What is read and written
//! is the same.
//!
//! What a call of a [`Connection`] does says `Step` in specs/Steps.antt; which call leads from which state to which
//! says specs/Table.antt.
#![tactic(auto)]

mod appending;
mod appending_common;
mod common_attach;
mod common_disposition;
mod common_terminus;
mod common_transfer;
mod connection;
pub mod connection_laws;
mod decoder;
mod encoder;
mod error;
mod frame;
mod header;
mod items;
pub mod laws;
mod part;
mod piece;
mod pieces;
mod routes;
mod sessions;
mod state;

pub use connection::Connection;
pub use decoder::FrameDecoder;
pub use encoder::FrameEncoder;
pub use error::Error;
pub use frame::{Frame, FrameBody};
pub use piece::Piece;
pub use pieces::Pieces;
pub use routes::Routes;
pub use state::ConnectionState;

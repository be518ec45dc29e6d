//! Why a frame was not written or not read.
ghost use Rattle.std.specs.Prelude.{◌≡◌};
ghost use Rattle.amqp_session_frames.specs.declared.error.Error.TheVariants.{Memory};

use std::alloc::{AllocError, AllocFailed};
use thiserror::Error;

/// Why a frame was not written or not read.
#[derive(Debug, Clone, Copy, PartialEq, Eq, Error)]
pub enum Error {
    /// The bytes are no frame (part 2, 2.8.15).
    #[error("the bytes are no frame")]
    DecodeError,
    /// The bytes have the type of another kind of frame than AMQP's (part 2, 2.3.1).
    #[error("the frame has a type that is not supported")]
    NotImplemented,
    /// The frame can't be written within the limit.
    #[error("the frame is too large")]
    TooLarge,
    /// There was no memory.
    #[error("out of memory")]
    Memory,
}

impl From<AllocError> for Error {
    ghost from_gives = { λ _ e. e ≡ Memory };

    fn from(_e: AllocError) -> Error {
        Error::Memory
    }
}

impl<T: Drop> From<AllocFailed<T>> for Error {
    ghost from_gives = { λ _ e. e ≡ Memory };

    fn from(_e: AllocFailed<T>) -> Error {
        Error::Memory
    }
}

//! Why a value is not written or not read.
ghost use Rattle.std.specs.Prelude.{◌≡◌};
ghost use Rattle.serde_amqp_item.specs.declared.error.Error.TheVariants.{Memory};

use std::alloc::{AllocError, AllocFailed};
use std::io::ErrorKind;
use thiserror::Error;

/// Why a value was not written or not read.
#[derive(Debug, Clone, Copy, PartialEq, Eq, Error)]
pub enum Error {
    /// The value has no encoding, or the type refuses it for a reason of its own.
    #[error("the value was refused")]
    Message,
    /// The input ends within a value, or its reader failed.
    #[error("input error: {0}")]
    Io(ErrorKind),
    /// A byte that is no constructor, or a constructor that the type does not take (part 1, section 1.2).
    #[error("invalid format code")]
    InvalidFormatCode,
    /// A value that its type does not have.
    #[error("invalid value")]
    InvalidValue,
    /// A string or a symbol that is not UTF-8 (part 1, sections 1.6.20 and 1.6.21).
    #[error("a text is not UTF-8")]
    InvalidUtf8Encoding,
    /// Too many elements, elements that were not read, or a mandatory field that is missing.
    #[error("the number of elements does not match")]
    SequenceLengthMismatch,
    /// A size or a count that is not exact, or that is too large.
    #[error("invalid size or count")]
    InvalidLength,
    /// There was no memory.
    #[error("out of memory")]
    Memory,
}

impl From<AllocError> for Error {
    ghost from_gives = { λ _ e. e ≡ Memory };

    fn from(_e: AllocError) -> Error {
        Error::Memory
    }
}

impl<T: Drop> From<AllocFailed<T>> for Error {
    ghost from_gives = { λ _ e. e ≡ Memory };

    fn from(_e: AllocFailed<T>) -> Error {
        Error::from(AllocError)
    }
}

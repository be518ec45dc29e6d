//! Why a line has no other answer.
use amqp_session_frames::Error as FrameError;
use serde_amqp_item::Error;
use std::alloc::{AllocError, Global};

/// Why a line has no other answer.
#[derive(Debug, Clone, Copy, PartialEq, Eq)]
pub enum Refusal {
    /// The line can't be read.
    Unreadable,
    /// What its bytes are refused with as a value.
    Codec(Error),
    /// What its bytes are refused with as a frame.
    Frame(FrameError),
    /// There was no memory.
    Memory,
}

impl From<AllocError> for Refusal {
    fn from(_e: AllocError) -> Refusal {
        Refusal::Memory
    }
}

impl From<Error> for Refusal {
    fn from(error: Error) -> Refusal {
        match error {
            Error::Memory => Refusal::Memory,
            error => Refusal::Codec(error),
        }
    }
}

impl From<FrameError> for Refusal {
    fn from(error: FrameError) -> Refusal {
        match error {
            FrameError::Memory => Refusal::Memory,
            error => Refusal::Frame(error),
        }
    }
}

impl Refusal {
    /// What is answered. It is refused for want of memory, also where that is the refusal.
    pub(crate) fn answer(self, alloc: Global) -> Result<String, AllocError> {
        match self {
            Refusal::Unreadable => String::from_str(alloc, "unreadable"),
            Refusal::Codec(error) => format!(in alloc; "refused {error:?}"),
            Refusal::Frame(error) => format!(in alloc; "refused {error:?}"),
            Refusal::Memory => Err(AllocError),
        }
    }
}

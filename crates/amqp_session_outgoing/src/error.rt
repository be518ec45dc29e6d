//! Why transfers are refused.
use std::alloc::AllocError;
use thiserror::Error;

/// Why a session refused transfers of a link.
#[derive(Debug, Clone, Copy, PartialEq, Eq, Error)]
pub enum TransferError {
    /// The first transfer of a delivery has no tag (part 2, 2.7.5).
    #[error("a delivery without a tag")]
    IllegalState,
    /// The number that a delivery would get is that of one that isn't settled yet (part 2, 2.8.6).
    #[error("the delivery number is in use")]
    NumberInUse,
    /// There was no memory.
    #[error("out of memory")]
    Memory,
}

impl From<AllocError> for TransferError {
    ghost use Rattle.std.specs.Prelude.{◌≡◌};
    ghost use Rattle.amqp_session_outgoing.specs.declared.error.TransferError.TheVariants.{Memory};

    ghost from_gives = { λ e t. t ≡ Memory };

    fn from(_error: AllocError) -> Self {
        TransferError::Memory
    }
}

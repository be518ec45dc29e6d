//! What a link answers when it refuses (part 2, 2.6).
ghost use Rattle.std.specs.Prelude.{◌≡◌};

use amqp_session_types::{SessionStopReason, definitions};
use std::alloc::AllocError;
use thiserror::Error;

/// The outcome of a message can no longer be told, since the link that it was sent on is gone.
#[derive(Debug, Clone, Copy, PartialEq, Eq, Error)]
#[error("the link is gone")]
pub struct RecvError;

/// A sender has less credit than is to be used (part 2, 2.6.7).
#[derive(Debug, Clone, Copy, PartialEq, Eq, Error)]
#[error("not enough credit")]
pub struct InsufficientCredit;

/// Why a link's state doesn't allow a call (part 2, 2.6).
#[derive(Debug, Clone, PartialEq, Eq, Drop, Error)]
pub enum LinkStateError {
    /// The link's state does not allow it.
    #[error("illegal state of the link")]
    IllegalState,
    /// The link's session has stopped (part 2, 2.5.2).
    #[error("the session has stopped: {0}")]
    SessionStopped(SessionStopReason),
    /// The peer detached the link (part 2, 2.7.7).
    #[error("the peer detached the link")]
    RemoteDetached,
    /// The peer detached the link and gave this error.
    #[error("the peer detached the link with an error: {0}")]
    RemoteDetachedWithError(definitions::Error),
    /// The peer closed the link (part 2, 2.7.7).
    #[error("the peer closed the link")]
    RemoteClosed,
    /// The peer closed the link and gave this error.
    #[error("the peer closed the link with an error: {0}")]
    RemoteClosedWithError(definitions::Error),
    /// The peer refuses the link: it answers the attach without a terminus, and a Detach is to follow (part 2, 2.6.3).
    #[error("the peer is about to detach the link")]
    ExpectImmediateDetach,
    /// There was no memory.
    #[error("out of memory")]
    Memory,
}

/// Why a message has no outcome (part 3, 3.4).
#[derive(Debug, Clone, PartialEq, Eq, Drop, Error)]
pub enum SendError {
    /// The link's state does not allow it.
    #[error("the state of the link does not allow it: {0}")]
    LinkStateError(LinkStateError),
    /// The message was settled with a state that is not terminal.
    #[error("a state of the delivery that is not terminal")]
    NonTerminalDeliveryState,
    /// The message was settled without a state.
    #[error("illegal state of the delivery")]
    IllegalDeliveryState,
    /// There was no memory.
    #[error("out of memory")]
    Memory,
}

/// What comes of a peer's Detach that needs no answer (part 2, 2.6.5).
#[derive(Debug, Clone, PartialEq, Eq, Drop, Error)]
pub enum ApplyRemoteDetachError {
    /// The link's state does not allow it. Nothing changes.
    #[error("illegal state of the link")]
    IllegalState,
    /// The link is detached, and the peer gave this error.
    #[error("the peer detached the link with an error: {0}")]
    RemoteDetachedWithError(definitions::Error),
    /// The link is closed, and the peer gave this error.
    #[error("the peer closed the link with an error: {0}")]
    RemoteClosedWithError(definitions::Error),
    /// There was no memory.
    #[error("out of memory")]
    Memory,
}

/// Why a link isn't detached, or what the peer says as it is (part 2, 2.6.5).
#[derive(Debug, Clone, PartialEq, Eq, Drop, Error)]
pub enum DetachError {
    /// The link's state does not allow it. Nothing changes.
    #[error("illegal state of the link")]
    IllegalState,
    /// The link's session has stopped (part 2, 2.5.2).
    #[error("the session has stopped: {0}")]
    SessionStopped(SessionStopReason),
    /// The link is detached, and the peer gave this error.
    #[error("the peer detached the link with an error: {0}")]
    RemoteDetachedWithError(definitions::Error),
    /// The link is closed, and the peer gave this error.
    #[error("the peer closed the link with an error: {0}")]
    RemoteClosedWithError(definitions::Error),
    /// There was no memory.
    #[error("out of memory")]
    Memory,
}

/// Why a link sends no Flow and no Disposition.
#[derive(Debug, Clone, PartialEq, Eq, Drop, Error)]
pub enum IllegalLinkStateError {
    /// The link's state does not allow it.
    #[error("illegal state of the link")]
    IllegalState,
    /// The link's session has stopped (part 2, 2.5.2).
    #[error("the session has stopped: {0}")]
    SessionStopped(SessionStopReason),
    /// There was no memory.
    #[error("out of memory")]
    Memory,
}

/// Why a link sends no Flow.
pub type FlowError = IllegalLinkStateError;

/// Why a link sends no Disposition.
pub type DispositionError = IllegalLinkStateError;

/// Why a receiving link refuses a transfer (part 2, 2.7.5).
#[derive(Debug, Clone, Copy, PartialEq, Eq, Error)]
pub enum ReceiverTransferError {
    /// A message came beyond the credit (part 2, 2.6.7).
    #[error("more messages than there is credit for")]
    TransferLimitExceeded,
    /// The transfer is to be settled second on a link that settles first (part 2, 2.8.3).
    #[error("the transfer's settle mode is not the link's")]
    IllegalRcvSettleModeInTransfer,
    /// The message is larger than the link takes (part 2, 2.7.3).
    #[error("the message is too large")]
    MessageSizeExceeded,
    /// The state of the link or of the delivery does not allow it.
    #[error("illegal state of the link")]
    IllegalState,
    /// The first transfer of a delivery has no delivery-id.
    #[error("the delivery has no number")]
    DeliveryIdIsNone,
    /// The first transfer of a delivery has no delivery-tag.
    #[error("the delivery has no tag")]
    DeliveryTagIsNone,
    /// A continuation says other than the first transfer of its delivery.
    #[error("a continuation differs from the first transfer of its delivery")]
    InconsistentFieldInMultiFrameDelivery,
    /// There was no memory.
    #[error("out of memory")]
    Memory,
}

impl From<LinkStateError> for SendError {
    ghost use Rattle.amqp_link_types.specs.declared.refusals.SendError.TheVariants.{LinkStateError};

    ghost from_gives = { λ l e. e ≡ LinkStateError l };

    fn from(error: LinkStateError) -> Self {
        SendError::LinkStateError(error)
    }
}

impl From<ApplyRemoteDetachError> for DetachError {
    ghost use Rattle.amqp_link_types.specs.Refusals.{detach_error};

    ghost from_gives = { λ a e. e ≡ detach_error a };

    fn from(error: ApplyRemoteDetachError) -> Self {
        match error {
            ApplyRemoteDetachError::IllegalState => DetachError::IllegalState,
            ApplyRemoteDetachError::RemoteDetachedWithError(error) => {
                DetachError::RemoteDetachedWithError(error)
            }
            ApplyRemoteDetachError::RemoteClosedWithError(error) => {
                DetachError::RemoteClosedWithError(error)
            }
            ApplyRemoteDetachError::Memory => DetachError::Memory,
        }
    }
}

impl From<AllocError> for LinkStateError {
    ghost use Rattle.amqp_link_types.specs.declared.refusals.LinkStateError.TheVariants.{Memory};

    ghost from_gives = { λ _ e. e ≡ Memory };

    fn from(_error: AllocError) -> Self {
        LinkStateError::Memory
    }
}

impl From<AllocError> for SendError {
    ghost use Rattle.amqp_link_types.specs.declared.refusals.SendError.TheVariants.{Memory};

    ghost from_gives = { λ _ e. e ≡ Memory };

    fn from(_error: AllocError) -> Self {
        SendError::Memory
    }
}

impl From<AllocError> for ApplyRemoteDetachError {
    ghost use Rattle.amqp_link_types.specs.declared.refusals.ApplyRemoteDetachError.TheVariants.{Memory};

    ghost from_gives = { λ _ e. e ≡ Memory };

    fn from(_error: AllocError) -> Self {
        ApplyRemoteDetachError::Memory
    }
}

impl From<AllocError> for DetachError {
    ghost use Rattle.amqp_link_types.specs.declared.refusals.DetachError.TheVariants.{Memory};

    ghost from_gives = { λ _ e. e ≡ Memory };

    fn from(_error: AllocError) -> Self {
        DetachError::Memory
    }
}

impl From<AllocError> for IllegalLinkStateError {
    ghost use Rattle.amqp_link_types.specs.declared.refusals.IllegalLinkStateError.TheVariants.{Memory};

    ghost from_gives = { λ _ e. e ≡ Memory };

    fn from(_error: AllocError) -> Self {
        IllegalLinkStateError::Memory
    }
}

impl From<AllocError> for ReceiverTransferError {
    ghost use Rattle.amqp_link_types.specs.declared.refusals.ReceiverTransferError.TheVariants.{Memory};

    ghost from_gives = { λ _ e. e ≡ Memory };

    fn from(_error: AllocError) -> Self {
        ReceiverTransferError::Memory
    }
}

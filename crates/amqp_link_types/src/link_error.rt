//! All that a link answers when it refuses.
ghost use Rattle.std.specs.Prelude.{◌≡◌};

use crate::attaching::{ReceiverAttachError, SenderAttachError};
use crate::refusals::{
    ApplyRemoteDetachError, DetachError, IllegalLinkStateError, LinkStateError,
    ReceiverTransferError, SendError,
};
use std::alloc::AllocError;
use thiserror::Error;

/// Why a link refuses, whatever it was asked.
#[derive(Debug, Clone, PartialEq, Eq, Drop, Error)]
pub enum LinkError {
    /// A message has no outcome.
    #[error("a message has no outcome: {0}")]
    Send(SendError),
    /// The link's state does not allow it.
    #[error("the state of the link does not allow it: {0}")]
    LinkState(LinkStateError),
    /// What comes of a peer's Detach that needs no answer.
    #[error("the peer detached the link: {0}")]
    ApplyRemoteDetach(ApplyRemoteDetachError),
    /// The link isn't detached, or the peer says why it is.
    #[error("the link is not detached: {0}")]
    Detach(DetachError),
    /// The link sends no Flow and no Disposition.
    #[error("the state of the link does not allow it: {0}")]
    IllegalLinkState(IllegalLinkStateError),
    /// The sending link isn't attached.
    #[error("the sender is not attached: {0}")]
    SenderAttach(SenderAttachError),
    /// The receiving link isn't attached.
    #[error("the receiver is not attached: {0}")]
    ReceiverAttach(ReceiverAttachError),
    /// The receiving link refuses a transfer.
    #[error("a transfer is refused: {0}")]
    ReceiverTransfer(ReceiverTransferError),
    /// There was no memory.
    #[error("out of memory")]
    Memory,
}

impl From<SendError> for LinkError {
    ghost use Rattle.amqp_link_types.specs.declared.link_error.LinkError.TheVariants.{Send};

    ghost from_gives = { λ x e. e ≡ Send x };

    fn from(error: SendError) -> Self {
        LinkError::Send(error)
    }
}

impl From<LinkStateError> for LinkError {
    ghost use Rattle.amqp_link_types.specs.declared.link_error.LinkError.TheVariants.{LinkState};

    ghost from_gives = { λ x e. e ≡ LinkState x };

    fn from(error: LinkStateError) -> Self {
        LinkError::LinkState(error)
    }
}

impl From<ApplyRemoteDetachError> for LinkError {
    ghost use Rattle.amqp_link_types.specs.declared.link_error.LinkError.TheVariants.{ApplyRemoteDetach};

    ghost from_gives = { λ x e. e ≡ ApplyRemoteDetach x };

    fn from(error: ApplyRemoteDetachError) -> Self {
        LinkError::ApplyRemoteDetach(error)
    }
}

impl From<DetachError> for LinkError {
    ghost use Rattle.amqp_link_types.specs.declared.link_error.LinkError.TheVariants.{Detach};

    ghost from_gives = { λ x e. e ≡ Detach x };

    fn from(error: DetachError) -> Self {
        LinkError::Detach(error)
    }
}

impl From<IllegalLinkStateError> for LinkError {
    ghost use Rattle.amqp_link_types.specs.declared.link_error.LinkError.TheVariants.{IllegalLinkState};

    ghost from_gives = { λ x e. e ≡ IllegalLinkState x };

    fn from(error: IllegalLinkStateError) -> Self {
        LinkError::IllegalLinkState(error)
    }
}

impl From<SenderAttachError> for LinkError {
    ghost use Rattle.amqp_link_types.specs.declared.link_error.LinkError.TheVariants.{SenderAttach};

    ghost from_gives = { λ x e. e ≡ SenderAttach x };

    fn from(error: SenderAttachError) -> Self {
        LinkError::SenderAttach(error)
    }
}

impl From<ReceiverAttachError> for LinkError {
    ghost use Rattle.amqp_link_types.specs.declared.link_error.LinkError.TheVariants.{ReceiverAttach};

    ghost from_gives = { λ x e. e ≡ ReceiverAttach x };

    fn from(error: ReceiverAttachError) -> Self {
        LinkError::ReceiverAttach(error)
    }
}

impl From<ReceiverTransferError> for LinkError {
    ghost use Rattle.amqp_link_types.specs.declared.link_error.LinkError.TheVariants.{ReceiverTransfer};

    ghost from_gives = { λ x e. e ≡ ReceiverTransfer x };

    fn from(error: ReceiverTransferError) -> Self {
        LinkError::ReceiverTransfer(error)
    }
}

impl From<AllocError> for LinkError {
    ghost use Rattle.amqp_link_types.specs.declared.link_error.LinkError.TheVariants.{Memory};

    ghost from_gives = { λ _ e. e ≡ Memory };

    fn from(_error: AllocError) -> Self {
        LinkError::Memory
    }
}

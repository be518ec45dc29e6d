//! What a link answers when it refuses a peer's Attach, or is refused its own (part 2, 2.6.3).
ghost use Rattle.std.specs.Prelude.{◌≡◌};

use amqp_session_types::{SessionStopReason, definitions};
use serde_amqp_types::{Array, Symbol};
use std::alloc::AllocError;
use std::fmt;
use thiserror::Error;

/// Filters that are wanted, and that the peer doesn't apply (part 3, 3.5.3).
#[derive(Debug, Clone, PartialEq, Eq, Drop)]
pub struct DesiredFilterNotSupported {
    /// The names of all of them, in the order in which they are wanted.
    pub not_supported: Array<Symbol>,
}

/// What is wrong, and behind a colon the names.
impl fmt::Display for DesiredFilterNotSupported {
    fn fmt<W: fmt::Write>(&self, f: &mut fmt::Formatter<W>) -> fmt::Result {
        f.write_str("wanted filters are not supported:")?;
        for name in self.not_supported.iter() {
            write!(f, " {name}")?;
        }
        Ok(())
    }
}

impl std::error::Error for DesiredFilterNotSupported {}

/// Why a sending link isn't attached.
#[derive(Debug, Clone, PartialEq, Eq, Drop, Error)]
pub enum SenderAttachError {
    /// The link's state does not allow it.
    #[error("illegal state of the link")]
    IllegalState,
    /// The link's session has stopped (part 2, 2.5.2).
    #[error("the session has stopped: {0}")]
    SessionStopped(SessionStopReason),
    /// The session is not begun (part 2, 2.5.5).
    #[error("the session is not mapped")]
    SessionNotMapped,
    /// Another frame came in place of the Attach.
    #[error("a frame that is no attach")]
    NonAttachFrameReceived,
    /// The peer refuses the link: it answers the attach without a terminus, and a Detach is to follow (part 2, 2.6.3).
    #[error("the peer is about to detach the link")]
    ExpectImmediateDetach,
    /// The peer closed the link and gave this error.
    #[error("the peer closed the link with an error: {0}")]
    RemoteClosedWithError(definitions::Error),
    /// A link of this name is there already (part 2, 2.6.1).
    #[error("the name of the link is in use")]
    DuplicatedLinkName,
    /// The source that the receiver wants made has an address (part 3, 3.5.3).
    #[error("the dynamic source has an address")]
    SourceAddressIsSomeWhenDynamicIsTrue,
    /// The target that the receiver made has no address (part 3, 3.5.4).
    #[error("the dynamic target has no address")]
    TargetAddressIsNoneWhenDynamicIsTrue,
    /// A node that isn't to be made has properties (part 3, 3.5.3 and 3.5.4).
    #[error("properties of a node that is not dynamic")]
    DynamicNodePropertiesIsSomeWhenDynamicIsFalse,
    /// The target is of a type that is not supported, such as a coordinator.
    #[error("coordinators are not implemented")]
    CoordinatorIsNotImplemented,
    /// The peer's Attach has no target (part 2, 2.6.3).
    #[error("the peer's attach has no target")]
    IncomingTargetIsNone,
    /// The peer wants deliveries to be settled in another way (part 2, 2.8.2).
    #[error("the sender's settle mode is not supported")]
    SndSettleModeNotSupported,
    /// There was no memory.
    #[error("out of memory")]
    Memory,
}

/// Why a receiving link isn't attached.
#[derive(Debug, Clone, PartialEq, Eq, Drop, Error)]
pub enum ReceiverAttachError {
    /// The link's state does not allow it.
    #[error("illegal state of the link")]
    IllegalState,
    /// The link's session has stopped (part 2, 2.5.2).
    #[error("the session has stopped: {0}")]
    SessionStopped(SessionStopReason),
    /// The session is not begun (part 2, 2.5.5).
    #[error("the session is not mapped")]
    SessionNotMapped,
    /// Another frame came in place of the Attach.
    #[error("a frame that is no attach")]
    NonAttachFrameReceived,
    /// The peer refuses the link: it answers the attach without a terminus, and a Detach is to follow (part 2, 2.6.3).
    #[error("the peer is about to detach the link")]
    ExpectImmediateDetach,
    /// The peer closed the link and gave this error.
    #[error("the peer closed the link with an error: {0}")]
    RemoteClosedWithError(definitions::Error),
    /// A link of this name is there already (part 2, 2.6.1).
    #[error("the name of the link is in use")]
    DuplicatedLinkName,
    /// The peer's Attach has no source (part 2, 2.6.3).
    #[error("the peer's attach has no source")]
    IncomingSourceIsNone,
    /// The peer doesn't apply all filters that are wanted (part 3, 3.5.3).
    #[error("{0}")]
    DesiredFilterNotSupported(DesiredFilterNotSupported),
    /// The source that the sender made has no address (part 3, 3.5.3).
    #[error("the dynamic source has no address")]
    SourceAddressIsNoneWhenDynamicIsTrue,
    /// The target that the sender wants made has an address (part 3, 3.5.4).
    #[error("the dynamic target has an address")]
    TargetAddressIsSomeWhenDynamicIsTrue,
    /// A node that isn't to be made has properties (part 3, 3.5.3 and 3.5.4).
    #[error("properties of a node that is not dynamic")]
    DynamicNodePropertiesIsSomeWhenDynamicIsFalse,
    /// The target is of a type that is not supported, such as a coordinator.
    #[error("coordinators are not implemented")]
    CoordinatorIsNotImplemented,
    /// The sender doesn't say how many deliveries it counts as sent (part 2, 2.7.3).
    #[error("the initial delivery count is missing")]
    InitialDeliveryCountIsNone,
    /// There was no memory.
    #[error("out of memory")]
    Memory,
}

impl From<AllocError> for SenderAttachError {
    ghost use Rattle.amqp_link_types.specs.declared.attaching.SenderAttachError.TheVariants.{Memory};

    ghost from_gives = { λ _ e. e ≡ Memory };

    fn from(_error: AllocError) -> Self {
        SenderAttachError::Memory
    }
}

impl From<AllocError> for ReceiverAttachError {
    ghost use Rattle.amqp_link_types.specs.declared.attaching.ReceiverAttachError.TheVariants.{Memory};

    ghost from_gives = { λ _ e. e ≡ Memory };

    fn from(_error: AllocError) -> Self {
        ReceiverAttachError::Memory
    }
}

impl From<DesiredFilterNotSupported> for ReceiverAttachError {
    ghost use Rattle.amqp_link_types.specs.declared.attaching.ReceiverAttachError.TheVariants.{DesiredFilterNotSupported};

    ghost from_gives = { λ d e. e ≡ DesiredFilterNotSupported d };

    fn from(error: DesiredFilterNotSupported) -> Self {
        ReceiverAttachError::DesiredFilterNotSupported(error)
    }
}

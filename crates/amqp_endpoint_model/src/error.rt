//! Why an endpoint refuses a call, or ends its connection.
ghost use Rattle.std.specs.Prelude.{◌≡◌};
ghost use Rattle.amqp_endpoint_model.specs.declared.error.EndpointError.TheVariants.{Memory};
ghost use Rattle.amqp_endpoint_model.specs.Numbers.{number};
ghost use Rattle.amqp_endpoint_model.specs.Refusals.{of_codec, of_connection, of_frame, of_link, of_session};

use amqp_link_types::LinkError;
use amqp_session_frames::Error as FrameError;
use amqp_session_types::{ConnectionError, SessionError};
use serde_amqp_item::Error as CodecError;
use std::alloc::{AllocError, AllocFailed};
use thiserror::Error;

/// Why a call is refused, or a feed ends the connection. Each has a number.
#[derive(Debug, Clone, PartialEq, Eq, Error)]
pub enum EndpointError {
    /// 1: a growth was refused.
    #[error("out of memory")]
    Memory,
    /// 2: there is no connection, or it isn't open.
    #[error("not connected")]
    NotConnected,
    /// 3: there is a connection already.
    #[error("already connected")]
    AlreadyConnected,
    /// 4: the own max-frame-size is under 512.
    #[error("the frame limit is under 512 bytes")]
    LimitUnder512,
    /// 5: the incoming-window is 0 or above 2,147,483,647.
    #[error("the incoming window is out of range")]
    WindowOutOfRange,
    /// 6: the call's frame can't fit the peer's limit.
    #[error("the frame is too large")]
    FrameTooLarge,
    /// 7: no session of the endpoint has the number.
    #[error("unknown session")]
    UnknownSession,
    /// 8: no link of the endpoint has the number.
    #[error("unknown link")]
    UnknownLink,
    /// 9: no message that the link keeps has the number.
    #[error("unknown message")]
    UnknownMessage,
    /// 10: the link has no credit (part 2, 2.6.7).
    #[error("no credit")]
    CreditMissing,
    /// 11: the next delivery number is still unsettled.
    #[error("the delivery number is in use")]
    NumberInUse,
    /// 12: the message is larger than both ends allow (part 2, 2.7.3).
    #[error("the message is too large")]
    MessageTooLarge,
    /// 13: a credit above 2,147,483,647.
    #[error("the credit is out of range")]
    CreditOutOfRange,
    /// 14: the message was disposed of for good.
    #[error("already disposed of")]
    AlreadyDisposed,
    /// 15: the message has no delivery number in the present attachment.
    #[error("not associated with the present attachment")]
    NotAssociated,
    /// 16: a link of that name is there already.
    #[error("a link of that name is there")]
    DuplicatedLinkName,
    /// 17: the state doesn't allow the call.
    #[error("illegal state")]
    IllegalState,
    /// 18: no channel is left below the peer's channel-max (part 2, 2.7.1).
    #[error("no local channel is left")]
    LocalChannelMaxReached,
    /// 19: no handle is left below the peer's handle-max (part 2, 2.7.2).
    #[error("no handle is left")]
    HandleMaxReached,
    /// 20: no session was asked on that channel.
    #[error("not asked")]
    NotAsked,
    /// 21: the numbers of sessions, links or messages are used up.
    #[error("the numbers are used up")]
    NumbersUsedUp,
    /// 22: the peer's first eight bytes are another header (part 2, 2.2).
    #[error("the peer's protocol header is another")]
    ProtocolHeaderMismatch,
    /// 23: a size field under 8 (part 2, 2.3.1).
    #[error("a frame's size is under 8 bytes")]
    SizeUnder8,
    /// 24: a size field over the own max-frame-size.
    #[error("a frame's size is over the limit")]
    SizeOverLimit,
    /// 25: the peer's Open has a max-frame-size under 512 (part 2, 2.7.1).
    #[error("the peer's frame limit is under 512 bytes")]
    PeerLimitUnder512,
    /// 26: the frame layer refuses.
    #[error("frame: {0}")]
    Frame(FrameError),
    /// 27: the connection refuses.
    #[error("connection: {0}")]
    Connection(ConnectionError),
    /// 28: the session refuses.
    #[error("session: {0}")]
    Session(SessionError),
    /// 29: the link refuses.
    #[error("link: {0}")]
    Link(LinkError),
}

impl Drop for EndpointError {
    fn drop(self) {
        match self {
            EndpointError::Memory => {}
            EndpointError::NotConnected => {}
            EndpointError::AlreadyConnected => {}
            EndpointError::LimitUnder512 => {}
            EndpointError::WindowOutOfRange => {}
            EndpointError::FrameTooLarge => {}
            EndpointError::UnknownSession => {}
            EndpointError::UnknownLink => {}
            EndpointError::UnknownMessage => {}
            EndpointError::CreditMissing => {}
            EndpointError::NumberInUse => {}
            EndpointError::MessageTooLarge => {}
            EndpointError::CreditOutOfRange => {}
            EndpointError::AlreadyDisposed => {}
            EndpointError::NotAssociated => {}
            EndpointError::DuplicatedLinkName => {}
            EndpointError::IllegalState => {}
            EndpointError::LocalChannelMaxReached => {}
            EndpointError::HandleMaxReached => {}
            EndpointError::NotAsked => {}
            EndpointError::NumbersUsedUp => {}
            EndpointError::ProtocolHeaderMismatch => {}
            EndpointError::SizeUnder8 => {}
            EndpointError::SizeOverLimit => {}
            EndpointError::PeerLimitUnder512 => {}
            EndpointError::Frame(_) => {}
            EndpointError::Connection(_) => {}
            EndpointError::Session(_) => {}
            EndpointError::Link(_) => {}
        }
    }
}

impl EndpointError {
    /// The number of the error, 1 to 29.
    pub fn number(&self) -> u8
        ensures { result ≡ number self.now }
    {
        match self {
            EndpointError::Memory => 1,
            EndpointError::NotConnected => 2,
            EndpointError::AlreadyConnected => 3,
            EndpointError::LimitUnder512 => 4,
            EndpointError::WindowOutOfRange => 5,
            EndpointError::FrameTooLarge => 6,
            EndpointError::UnknownSession => 7,
            EndpointError::UnknownLink => 8,
            EndpointError::UnknownMessage => 9,
            EndpointError::CreditMissing => 10,
            EndpointError::NumberInUse => 11,
            EndpointError::MessageTooLarge => 12,
            EndpointError::CreditOutOfRange => 13,
            EndpointError::AlreadyDisposed => 14,
            EndpointError::NotAssociated => 15,
            EndpointError::DuplicatedLinkName => 16,
            EndpointError::IllegalState => 17,
            EndpointError::LocalChannelMaxReached => 18,
            EndpointError::HandleMaxReached => 19,
            EndpointError::NotAsked => 20,
            EndpointError::NumbersUsedUp => 21,
            EndpointError::ProtocolHeaderMismatch => 22,
            EndpointError::SizeUnder8 => 23,
            EndpointError::SizeOverLimit => 24,
            EndpointError::PeerLimitUnder512 => 25,
            EndpointError::Frame(_) => 26,
            EndpointError::Connection(_) => 27,
            EndpointError::Session(_) => 28,
            EndpointError::Link(_) => 29,
        }
    }
}

/// Want of memory is the endpoint's own; any other refusal is the connection's (27).
impl From<ConnectionError> for EndpointError {
    ghost from_gives = { λ refusal e. e ≡ of_connection refusal };

    fn from(refusal: ConnectionError) -> EndpointError {
        match refusal {
            ConnectionError::Memory => EndpointError::Memory,
            other => EndpointError::Connection(other),
        }
    }
}

/// Want of memory is the endpoint's own; any other refusal is the frame layer's (26).
impl From<FrameError> for EndpointError {
    ghost from_gives = { λ refusal e. e ≡ of_frame refusal };

    fn from(refusal: FrameError) -> EndpointError {
        match refusal {
            FrameError::Memory => EndpointError::Memory,
            other => EndpointError::Frame(other),
        }
    }
}

/// Want of memory is the endpoint's own; any other refusal is the session's (28).
impl From<SessionError> for EndpointError {
    ghost from_gives = { λ refusal e. e ≡ of_session refusal };

    fn from(refusal: SessionError) -> EndpointError {
        match refusal {
            SessionError::Memory => EndpointError::Memory,
            other => EndpointError::Session(other),
        }
    }
}

/// Want of memory is the endpoint's own; any other refusal is the link's (29).
impl From<LinkError> for EndpointError {
    ghost from_gives = { λ refusal e. e ≡ of_link refusal };

    fn from(refusal: LinkError) -> EndpointError {
        match refusal {
            LinkError::Memory => EndpointError::Memory,
            other => EndpointError::Link(other),
        }
    }
}

/// Want of memory is the endpoint's own; anything else is that the bytes can't be decoded (26; part 2, 2.8.15), as where a
/// program reads a message that isn't what it takes.
impl From<CodecError> for EndpointError {
    ghost from_gives = { λ refusal e. e ≡ of_codec refusal };

    fn from(refusal: CodecError) -> EndpointError {
        match refusal {
            CodecError::Memory => EndpointError::Memory,
            _ => EndpointError::Frame(FrameError::DecodeError),
        }
    }
}

impl From<AllocError> for EndpointError {
    ghost from_gives = { λ _ e. e ≡ Memory };

    fn from(_e: AllocError) -> EndpointError {
        EndpointError::Memory
    }
}

impl<T: Drop> From<AllocFailed<T>> for EndpointError {
    ghost from_gives = { λ _ e. e ≡ Memory };

    fn from(_e: AllocFailed<T>) -> EndpointError {
        EndpointError::Memory
    }
}

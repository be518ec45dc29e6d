//! What connections and sessions of AMQP 1.0 answer when they refuse or have stopped (part 2).
ghost use Rattle.std.specs.Prelude.{◌≡◌};

use crate::definitions;
use std::alloc::AllocError;
use thiserror::Error;

/// Why a connection was not opened (part 2, 2.4.1).
#[derive(Debug, Clone, PartialEq, Eq, Drop, Error)]
pub enum OpenError {
    /// The peer's protocol header is another one (part 2, 2.2).
    #[error("the protocol headers do not match")]
    ProtocolHeaderMismatch,
    /// The connection's state does not allow it (part 2, 2.4.6).
    #[error("illegal state of the connection")]
    IllegalState,
    /// It is a part of the protocol that is not supported.
    #[error("not implemented")]
    NotImplemented,
    /// What the peer sent is no frame that can be read.
    #[error("a frame that can not be read")]
    DecodeError,
    /// The peer closed the connection (part 2, 2.7.9).
    #[error("the peer closed the connection")]
    RemoteClosed,
    /// The peer closed the connection and gave this error.
    #[error("the peer closed the connection with an error: {0}")]
    RemoteClosedWithError(definitions::Error),
    /// There was no memory.
    #[error("out of memory")]
    Memory,
}

/// Why a connection refused a frame or a call (part 2, 2.4).
#[derive(Debug, Clone, PartialEq, Eq, Drop, Error)]
pub enum ConnectionError {
    /// The connection's state does not allow it (part 2, 2.4.6).
    #[error("illegal state of the connection")]
    IllegalState,
    /// It is a part of the protocol that is not supported.
    #[error("not implemented")]
    NotImplemented,
    /// No session has the channel.
    #[error("not found")]
    NotFound,
    /// The protocol forbids it.
    #[error("not allowed")]
    NotAllowed,
    /// The peer closed the connection (part 2, 2.7.9).
    #[error("the peer closed the connection")]
    RemoteClosed,
    /// The peer closed the connection and gave this error.
    #[error("the peer closed the connection with an error: {0}")]
    RemoteClosedWithError(definitions::Error),
    /// There was no memory.
    #[error("out of memory")]
    Memory,
}

/// Why a session was not begun (part 2, 2.5.1).
#[derive(Debug, Clone, PartialEq, Eq, Drop, Error)]
pub enum BeginError {
    /// The session's state does not allow it (part 2, 2.5.5).
    #[error("illegal state of the session")]
    IllegalState,
    /// The connection has stopped.
    #[error("the connection has stopped")]
    ConnectionStopped,
    /// The connection is not open yet (part 2, 2.4.1).
    #[error("the connection is not open")]
    ConnectionNotOpened,
    /// The peer ended the session (part 2, 2.7.8).
    #[error("the peer ended the session")]
    RemoteEnded,
    /// The peer ended the session and gave this error.
    #[error("the peer ended the session with an error: {0}")]
    RemoteEndedWithError(definitions::Error),
    /// No channel is left that the peer allows (part 2, 2.7.1).
    #[error("all channels are in use")]
    LocalChannelMaxReached,
    /// There was no memory.
    #[error("out of memory")]
    Memory,
}

/// Why a session refused a frame or a call (part 2, 2.5).
#[derive(Debug, Clone, PartialEq, Eq, Drop, Error)]
pub enum SessionError {
    /// A frame names a handle that no link has (part 2, 2.8.17).
    #[error("no link has the handle")]
    UnattachedHandle,
    /// The peer answers the attach of a link that was not asked for.
    #[error("no link has the name that the peer attaches")]
    RemoteAttachingLinkNameNotFound,
    /// The peer attaches on a handle that another link has (part 2, 2.8.17).
    #[error("the handle is in use")]
    HandleInUse,
    /// The session's state does not allow it (part 2, 2.5.5).
    #[error("illegal state of the session")]
    IllegalState,
    /// The connection has stopped.
    #[error("the connection has stopped")]
    ConnectionStopped,
    /// The peer sends a transfer to a sending link (part 2, 2.6.12).
    #[error("a transfer to a sender")]
    TransferFrameToSender,
    /// The peer ended the session (part 2, 2.7.8).
    #[error("the peer ended the session")]
    RemoteEnded,
    /// The peer ended the session and gave this error.
    #[error("the peer ended the session with an error: {0}")]
    RemoteEndedWithError(definitions::Error),
    /// The next delivery number is of a delivery that is still unsettled (part 2, 2.8.7).
    #[error("the delivery number is in use")]
    NumberInUse,
    /// No handle is left below the peer's handle-max (part 2, 2.7.2).
    #[error("all handles are in use")]
    HandleMaxReached,
    /// There was no memory.
    #[error("out of memory")]
    Memory,
}

/// Why a connection is not closed yet (part 2, 2.4.3).
#[derive(Debug, Clone, Copy, PartialEq, Eq, Error)]
pub enum TryCloseError {
    /// The peer's Close has not come.
    #[error("the peer's close has not come")]
    RemoteCloseNotReceived,
    /// The connection is closed, and was reported so before.
    #[error("the connection is already closed")]
    AlreadyClosed,
}

/// Why a session is not ended yet (part 2, 2.5.2).
#[derive(Debug, Clone, Copy, PartialEq, Eq, Error)]
pub enum TryEndError {
    /// The peer's End has not come.
    #[error("the peer's end has not come")]
    RemoteEndNotReceived,
    /// The session is ended, and was reported so before.
    #[error("the session is already ended")]
    AlreadyEnded,
}

/// Why a connection stopped (part 2, 2.4.3).
#[derive(Debug, Clone, PartialEq, Eq, Error)]
pub enum ConnectionStopReason {
    /// It was closed here.
    #[error("the connection was closed")]
    Closed,
    /// It was closed here with this error.
    #[error("the connection was closed with an error: {0}")]
    ClosedWithError(definitions::Error),
    /// The peer closed it (part 2, 2.7.9).
    #[error("the peer closed the connection")]
    RemoteClosed,
    /// The peer closed it and gave this error.
    #[error("the peer closed the connection with an error: {0}")]
    RemoteClosedWithError(definitions::Error),
}

impl Drop for ConnectionStopReason {
    fn drop(self) {
        match self {
            ConnectionStopReason::Closed => {}
            ConnectionStopReason::ClosedWithError(_) => {}
            ConnectionStopReason::RemoteClosed => {}
            ConnectionStopReason::RemoteClosedWithError(_) => {}
        }
    }
}

/// Why a session stopped (part 2, 2.5.2).
#[derive(Debug, Clone, PartialEq, Eq, Error)]
pub enum SessionStopReason {
    /// Its connection stopped.
    #[error("the connection has stopped: {0}")]
    ConnectionStopped(ConnectionStopReason),
    /// It was ended here.
    #[error("the session was ended")]
    Ended,
    /// The peer ended it (part 2, 2.7.8).
    #[error("the peer ended the session")]
    RemoteEnded,
    /// The peer ended it and gave this error.
    #[error("the peer ended the session with an error: {0}")]
    RemoteEndedWithError(definitions::Error),
}

impl Drop for SessionStopReason {
    fn drop(self) {
        match self {
            SessionStopReason::ConnectionStopped(_) => {}
            SessionStopReason::Ended => {}
            SessionStopReason::RemoteEnded => {}
            SessionStopReason::RemoteEndedWithError(_) => {}
        }
    }
}

impl From<ConnectionStopReason> for SessionStopReason {
    ghost use Rattle.amqp_session_types.specs.declared.refusals.SessionStopReason.TheVariants.{ConnectionStopped};

    ghost from_gives = { λ c s. s ≡ ConnectionStopped c };

    fn from(reason: ConnectionStopReason) -> Self {
        SessionStopReason::ConnectionStopped(reason)
    }
}

impl From<AllocError> for OpenError {
    ghost use Rattle.amqp_session_types.specs.declared.refusals.OpenError.TheVariants.{Memory};

    ghost from_gives = { λ _ e. e ≡ Memory };

    fn from(_error: AllocError) -> Self {
        OpenError::Memory
    }
}

impl From<AllocError> for ConnectionError {
    ghost use Rattle.amqp_session_types.specs.declared.refusals.ConnectionError.TheVariants.{Memory};

    ghost from_gives = { λ _ e. e ≡ Memory };

    fn from(_error: AllocError) -> Self {
        ConnectionError::Memory
    }
}

impl From<AllocError> for BeginError {
    ghost use Rattle.amqp_session_types.specs.declared.refusals.BeginError.TheVariants.{Memory};

    ghost from_gives = { λ _ e. e ≡ Memory };

    fn from(_error: AllocError) -> Self {
        BeginError::Memory
    }
}

impl From<AllocError> for SessionError {
    ghost use Rattle.amqp_session_types.specs.declared.refusals.SessionError.TheVariants.{Memory};

    ghost from_gives = { λ _ e. e ≡ Memory };

    fn from(_error: AllocError) -> Self {
        SessionError::Memory
    }
}

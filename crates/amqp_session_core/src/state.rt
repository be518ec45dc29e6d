//! The states of a session.
ghost use Rattle.std.specs.Prelude.{◌≡◌};
ghost use Rattle.amqp_session_core.specs.Table.{after_send_begin, after_incoming_begin, after_send_end};
ghost use Rattle.amqp_session_core.specs.Table.{after_incoming_end};

/// The states of a session (part 2, 2.5.5).
#[derive(Debug, Clone, Copy, PartialEq, Eq)]
pub enum SessionState {
    /// It has no channel: neither Begin was sent or received, or both End were.
    Unmapped,
    /// The own Begin was sent.
    BeginSent,
    /// The peer's Begin was received.
    BeginReceived,
    /// Both Begin were exchanged.
    Mapped,
    /// The own End was sent: nothing more may be sent.
    EndSent,
    /// The peer's End was received: nothing more comes, and the own End is to be sent.
    EndReceived,
}

impl SessionState {
    /// The state behind a Begin that is sent in this one, or None where none may be sent.
    pub(crate) fn after_send_begin(self) -> Option<SessionState>
        ensures { result ≡ after_send_begin self }
    {
        match self {
            SessionState::Unmapped => Some(SessionState::BeginSent),
            SessionState::BeginReceived => Some(SessionState::Mapped),
            _ => None,
        }
    }

    /// The state behind the peer's Begin that comes in this one, or None where none may come.
    pub(crate) fn after_incoming_begin(self) -> Option<SessionState>
        ensures { result ≡ after_incoming_begin self }
    {
        match self {
            SessionState::Unmapped => Some(SessionState::BeginReceived),
            SessionState::BeginSent => Some(SessionState::Mapped),
            _ => None,
        }
    }

    /// The state behind an End that is sent in this one, or None where none may be sent.
    pub(crate) fn after_send_end(self) -> Option<SessionState>
        ensures { result ≡ after_send_end self }
    {
        match self {
            SessionState::Mapped => Some(SessionState::EndSent),
            SessionState::EndReceived => Some(SessionState::Unmapped),
            _ => None,
        }
    }

    /// The state behind the peer's End that comes in this one, or None where none may come.
    pub(crate) fn after_incoming_end(self) -> Option<SessionState>
        ensures { result ≡ after_incoming_end self }
    {
        match self {
            SessionState::Mapped => Some(SessionState::EndReceived),
            SessionState::EndSent => Some(SessionState::Unmapped),
            _ => None,
        }
    }
}

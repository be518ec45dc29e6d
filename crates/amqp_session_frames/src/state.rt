//! The states of a connection.
ghost use Rattle.std.specs.Prelude.{◌≡◌};
ghost use Rattle.amqp_session_frames.specs.Table.{after_send_header, after_incoming_header, after_send_open};
ghost use Rattle.amqp_session_frames.specs.Table.{after_incoming_open, after_send_close, after_incoming_close};
ghost use Rattle.amqp_session_frames.specs.Table.{refusal_of_begin};

use amqp_session_types::BeginError;

/// The states of a connection (part 2, 2.4.6).
#[derive(Debug, Clone, Copy, PartialEq, Eq)]
pub enum ConnectionState {
    /// Nothing was sent or received.
    Start,
    /// The peer's header was received, and none was sent.
    HeaderReceived,
    /// The own header was sent, and none was received.
    HeaderSent,
    /// Both headers were exchanged.
    HeaderExchange,
    /// The own header and Open were sent, and nothing was received.
    OpenPipe,
    /// The own header, Open and Close were sent, and nothing was received.
    OpenClosePipe,
    /// Headers were exchanged, and the peer's Open was received.
    OpenReceived,
    /// Headers were exchanged, and the own Open was sent.
    OpenSent,
    /// Headers were exchanged, and the own Open and Close were sent.
    ClosePipe,
    /// Both Open were exchanged.
    Opened,
    /// The peer's Close was received: nothing more comes, and the own Close is to be sent.
    CloseReceived,
    /// The own Close was sent: nothing more may be sent, and the peer's Close is to come.
    CloseSent,
    /// The own Close was sent for an error: what comes before the peer's Close is dropped.
    Discarding,
    /// Nothing more is sent or received.
    End,
}

impl ConnectionState {
    /// The state behind the own protocol header that is sent in this one, or None where none may be sent.
    pub(crate) fn after_send_header(self) -> Option<ConnectionState>
        ensures { result ≡ after_send_header self }
    {
        match self {
            ConnectionState::Start => Some(ConnectionState::HeaderSent),
            ConnectionState::HeaderReceived => Some(ConnectionState::HeaderExchange),
            _ => None,
        }
    }

    /// The state behind the peer's protocol header that comes in this one, or None where none may come.
    pub(crate) fn after_incoming_header(self) -> Option<ConnectionState>
        ensures { result ≡ after_incoming_header self }
    {
        match self {
            ConnectionState::Start => Some(ConnectionState::HeaderReceived),
            ConnectionState::HeaderSent => Some(ConnectionState::HeaderExchange),
            ConnectionState::OpenPipe => Some(ConnectionState::OpenSent),
            ConnectionState::OpenClosePipe => Some(ConnectionState::ClosePipe),
            _ => None,
        }
    }

    /// The state behind an Open that is sent in this one, or None where none may be sent.
    pub(crate) fn after_send_open(self) -> Option<ConnectionState>
        ensures { result ≡ after_send_open self }
    {
        match self {
            ConnectionState::HeaderExchange => Some(ConnectionState::OpenSent),
            ConnectionState::OpenReceived => Some(ConnectionState::Opened),
            _ => None,
        }
    }

    /// The state behind the peer's Open that comes in this one, or None where none may come.
    pub(crate) fn after_incoming_open(self) -> Option<ConnectionState>
        ensures { result ≡ after_incoming_open self }
    {
        match self {
            ConnectionState::HeaderExchange => Some(ConnectionState::OpenReceived),
            ConnectionState::OpenSent => Some(ConnectionState::Opened),
            ConnectionState::ClosePipe => Some(ConnectionState::CloseSent),
            _ => None,
        }
    }

    /// The state behind a Close that is sent in this one, with an error or without, or None where none may be sent.
    pub(crate) fn after_send_close(self, with_error: bool) -> Option<ConnectionState>
        ensures { result ≡ after_send_close with_error self }
    {
        match self {
            ConnectionState::OpenSent => Some(ConnectionState::ClosePipe),
            ConnectionState::Opened if with_error => Some(ConnectionState::Discarding),
            ConnectionState::Opened => Some(ConnectionState::CloseSent),
            ConnectionState::CloseReceived => Some(ConnectionState::End),
            _ => None,
        }
    }

    /// The state behind the peer's Close that comes in this one, or None where none may come.
    pub(crate) fn after_incoming_close(self) -> Option<ConnectionState>
        ensures { result ≡ after_incoming_close self }
    {
        match self {
            ConnectionState::Opened | ConnectionState::OpenSent => {
                Some(ConnectionState::CloseReceived)
            }
            ConnectionState::CloseSent | ConnectionState::Discarding | ConnectionState::ClosePipe =>
                Some(ConnectionState::End),
            _ => None,
        }
    }

    /// Why no session can begin in this state, or None where one can.
    pub(crate) fn refusal_of_begin(self) -> Option<BeginError>
        ensures { result ≡ refusal_of_begin self }
    {
        match self {
            ConnectionState::Start
            | ConnectionState::HeaderReceived
            | ConnectionState::HeaderSent
            | ConnectionState::HeaderExchange
            | ConnectionState::OpenPipe
            | ConnectionState::OpenReceived
            | ConnectionState::OpenSent => Some(BeginError::ConnectionNotOpened),
            ConnectionState::OpenClosePipe
            | ConnectionState::ClosePipe
            | ConnectionState::CloseReceived
            | ConnectionState::CloseSent
            | ConnectionState::Discarding
            | ConnectionState::End => Some(BeginError::ConnectionStopped),
            ConnectionState::Opened => None,
        }
    }
}

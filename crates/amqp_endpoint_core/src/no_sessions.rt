//! The sessions of an endpoint that has none.
ghost use Rattle.std.specs.Prelude.{◌≡◌};
ghost use Rattle.amqp_endpoint_core.specs.NoSessions.{session_refusal};

use amqp_endpoint_model::{
    Arrival, Attaching, Disposal, EndpointError, Event, LinkSettings, Sending, Sent, SessionRelay,
};
use amqp_session_frames::{Connection, FrameBody};
use amqp_session_performatives::{SessionFrame, Transfer};
use amqp_session_types::{ConnectionError, IncomingChannel, TryEndError};
use bytes::Bytes;
use std::alloc::{AllocError, Global};
use std::collections::VecDeque;

/// The sessions of an endpoint that has none: a Begin that asks for one is refused with `NotImplemented`, and any other
/// frame of a session with `NotFound`, as no session has its channel (part 2, 2.5.1). No session begins here either:
/// that is refused with `NotImplemented`, too. Whatever number a call says, no session and no link has it.
#[derive(Drop)]
pub struct NoSessions {
    /// The connection that has none.
    pub connection: Connection,
}

impl SessionRelay for NoSessions {
    ghost use Rattle.amqp_endpoint_core.specs.NoSessions.{no_sessions};

    ghost does = { no_sessions };

    fn new(
        _alloc: Global,
        connection: Connection,
        _first_transfer_number: u32,
        _incoming_window: u32,
    ) -> Result<Self, AllocError> {
        Ok(NoSessions { connection })
    }

    fn connection(&self) -> &Connection {
        &self.connection
    }

    fn connection_mut(&mut self) -> &mut Connection {
        &mut self.connection
    }

    fn on_incoming(
        &mut self,
        _alloc: Global,
        _limit: u32,
        _channel: IncomingChannel,
        body: FrameBody,
        _out: &mut VecDeque<SessionFrame>,
        _events: &mut Vec<Event>,
    ) -> Result<(), EndpointError> {
        Err(EndpointError::Connection(refusal(&body)))
    }

    fn takes_at_once(
        &mut self,
        _limit: u32,
        _channel: IncomingChannel,
        _transfer: &Transfer,
        _payload: &Bytes,
        _out: &mut VecDeque<SessionFrame>,
    ) -> Option<Arrival> {
        None
    }

    fn begin(
        &mut self,
        _alloc: Global,
        _limit: u32,
        _out: &mut VecDeque<SessionFrame>,
    ) -> Result<u64, EndpointError> {
        Err(EndpointError::Connection(ConnectionError::NotImplemented))
    }

    fn accept_begin(
        &mut self,
        _alloc: Global,
        _limit: u32,
        _channel: IncomingChannel,
        _out: &mut VecDeque<SessionFrame>,
    ) -> Result<u64, EndpointError> {
        Err(EndpointError::Connection(ConnectionError::NotImplemented))
    }

    fn end(
        &mut self,
        _limit: u32,
        _number: u64,
        _out: &mut VecDeque<SessionFrame>,
    ) -> Result<(), EndpointError> {
        Err(EndpointError::UnknownSession)
    }

    fn is_ended(&self, _number: u64) -> bool {
        false
    }

    fn try_end(&mut self, _number: u64) -> Result<(), TryEndError> {
        Err(TryEndError::RemoteEndNotReceived)
    }

    fn attach_sender(
        &mut self,
        _alloc: Global,
        _limit: u32,
        _session: u64,
        _settings: &LinkSettings,
        _out: &mut VecDeque<SessionFrame>,
    ) -> Result<Attaching, EndpointError> {
        Err(EndpointError::UnknownSession)
    }

    fn attach_receiver(
        &mut self,
        _alloc: Global,
        _limit: u32,
        _session: u64,
        _settings: &LinkSettings,
        _out: &mut VecDeque<SessionFrame>,
    ) -> Result<Attaching, EndpointError> {
        Err(EndpointError::UnknownSession)
    }

    fn resume(
        &mut self,
        _alloc: Global,
        _limit: u32,
        _link: u64,
        _session: u64,
        _out: &mut VecDeque<SessionFrame>,
    ) -> Result<Attaching, EndpointError> {
        Err(EndpointError::UnknownLink)
    }

    fn detach(
        &mut self,
        _alloc: Global,
        _limit: u32,
        _link: u64,
        _out: &mut VecDeque<SessionFrame>,
    ) -> Result<(), EndpointError> {
        Err(EndpointError::UnknownLink)
    }

    fn close_link(
        &mut self,
        _alloc: Global,
        _limit: u32,
        _link: u64,
        _out: &mut VecDeque<SessionFrame>,
    ) -> Result<Vec<Event>, EndpointError> {
        Err(EndpointError::UnknownLink)
    }

    fn grant(
        &mut self,
        _alloc: Global,
        _limit: u32,
        _link: u64,
        _credit: u32,
        _out: &mut VecDeque<SessionFrame>,
    ) -> Result<u32, EndpointError> {
        Err(EndpointError::UnknownLink)
    }

    fn drain(
        &mut self,
        _alloc: Global,
        _limit: u32,
        _link: u64,
        _out: &mut VecDeque<SessionFrame>,
    ) -> Result<(), EndpointError> {
        Err(EndpointError::UnknownLink)
    }

    fn send(
        &mut self,
        _alloc: Global,
        _limit: u32,
        _link: u64,
        _message: &Sending,
        _out: &mut VecDeque<SessionFrame>,
    ) -> Result<Sent, EndpointError> {
        Err(EndpointError::UnknownLink)
    }

    fn send_refusal(&self, _alloc: Global, _link: u64, _size: usize) -> Option<EndpointError> {
        Some(EndpointError::UnknownLink)
    }

    fn dispose(
        &mut self,
        _alloc: Global,
        _limit: u32,
        _link: u64,
        _message: u64,
        _disposal: &Disposal,
        _out: &mut VecDeque<SessionFrame>,
    ) -> Result<(), EndpointError> {
        Err(EndpointError::UnknownLink)
    }

    fn dispose_all(
        &mut self,
        _alloc: Global,
        _limit: u32,
        _link: u64,
        _messages: &[u64],
        _disposal: &Disposal,
        _out: &mut VecDeque<SessionFrame>,
    ) -> Result<(), EndpointError> {
        Err(EndpointError::UnknownLink)
    }

    fn credit(&self, _link: u64) -> Result<u32, EndpointError> {
        Err(EndpointError::UnknownLink)
    }

    fn held_back(&self, _session: u64) -> Result<usize, EndpointError> {
        Err(EndpointError::UnknownSession)
    }

    fn waiting(&self, _alloc: Global, _session: u64) -> Result<Vec<(u64, u64)>, EndpointError> {
        Err(EndpointError::UnknownSession)
    }

    fn leave(&mut self) {}

    fn finish(&mut self) {}
}

/// Why a performative of a session is refused.
fn refusal(body: &FrameBody) -> ConnectionError
    ensures { result ≡ session_refusal body.now }
{
    match body {
        FrameBody::Begin(begin) if begin.remote_channel.is_none() => {
            ConnectionError::NotImplemented
        }
        _ => ConnectionError::NotFound,
    }
}

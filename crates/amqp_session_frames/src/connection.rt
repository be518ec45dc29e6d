//! A connection, and its calls.
ghost use Rattle.std.specs.Prelude.{◌≡◌, IsSome, IfOk, IfErr, option_copied};
ghost use Rattle.std.specs.FinMap as map;
ghost use Rattle.amqp_session_frames.specs.State.{fresh, channel_limit};
ghost use Rattle.amqp_session_frames.specs.Steps.{Offers, RefusesChannel};
ghost use Rattle.amqp_session_frames.specs.declared.state.ConnectionState.TheVariants.{Start};
ghost use Rattle.amqp_session_frames.specs.Steps.{Step, SetsStopReason, SendsHeader, TakesHeader, SendsOpen};
ghost use Rattle.amqp_session_frames.specs.Steps.{TakesOpen, SendsClose, TakesClose, SendsBegin, SendsEnd};
ghost use Rattle.amqp_session_frames.specs.Steps.{AllocatesSession, DeallocatesSession, TakesBegin, AcceptsRoute};
ghost use Rattle.amqp_session_frames.specs.Steps.{TakesEnd, FindsSession};

use crate::routes::Routes;
use crate::sessions::Sessions;
use crate::state::ConnectionState;
use crate::{Frame, FrameBody};
use amqp_session_performatives::{Begin, Close, End, Open};
use amqp_session_types::{
    BeginError, ConnectionError, ConnectionStopReason, IncomingChannel, OpenError, OutgoingChannel,
    definitions,
};
use std::alloc::{AllocError, Global};
use std::marker::Model;

/// A connection as its endpoint keeps it (part 2, 2.4): its state, the outgoing channels of its sessions, and the
/// sessions to which the peer's channels are routed.
///
/// It neither reads nor writes bytes: what is to be sent is handed out as a `Frame`, and what came is handed in as its
/// performative. Sessions are known by numbers that the caller gives. Each call that is refused leaves the connection
/// as it was.
///
/// A clause sees a connection as the record `State`: the room that it has taken is no part of its value.
#[derive(Debug)]
pub struct Connection {
    local_state: ConnectionState,
    local_open: Open,
    remote_channel_max: Option<u16>,
    sessions: Sessions,
    routes: Routes,
    stop_reason: Option<ConnectionStopReason>,
}

impl Drop for Connection {
    fn drop(self) {
        let Connection {
            local_state: _,
            local_open: _,
            remote_channel_max: _,
            sessions: _,
            routes: _,
            stop_reason: _,
        } = self;
    }
}

impl Model for Connection {
    ghost use Rattle.std.specs.Coded.{codes};
    ghost use Rattle.amqp_session_frames.specs.State.{State, table_code};

    ghost Value = { State };

    ghost coded = { Prim.hlevel (codes, table_code) };

    ghost view = { λ c. record { local_state = c.local_state; local_open = c.local_open; remote_channel_max = c.remote_channel_max; live = c.sessions.sessions; offered = c.sessions.offered; routes = c.routes; stop_reason = c.stop_reason } };
}

impl Connection {
    /// A connection in this state, with this Open to send: without sessions, routes or a stop reason, and without the
    /// peer's Open. It takes no memory.
    pub fn new(alloc: Global, local_state: ConnectionState, local_open: Open) -> Self
        ensures { result ≡ fresh local_state local_open }
    {
        Connection {
            local_state,
            local_open,
            remote_channel_max: None,
            sessions: Sessions::new(alloc),
            routes: Routes::new(alloc),
            stop_reason: None,
        }
    }

    /// Becomes a new connection before its start, with the same own Open to send: without sessions, routes or a stop
    /// reason, and without the peer's Open. What it was is dropped. It takes no memory, and the Open is not copied.
    pub fn begin_anew(&mut self, alloc: Global)
        ensures { self.new ≡ fresh Start self.old.local_open }
    {
        self.local_state = ConnectionState::Start;
        self.remote_channel_max = None;
        self.sessions = Sessions::new(alloc);
        self.routes = Routes::new(alloc);
        self.stop_reason = None;
    }

    /// The state (part 2, 2.4.6).
    pub fn local_state(&self) -> ConnectionState
        ensures { result ≡ self.now.local_state }
    {
        self.local_state
    }

    /// The own Open, as it was or will be sent (part 2, 2.7.1).
    pub fn local_open(&self) -> &Open
        ensures { result.now ≡ self.now.local_open }
    {
        &self.local_open
    }

    /// Why the connection stopped, if that was noted.
    pub fn connection_stop_reason(&self) -> Option<&ConnectionStopReason>
        ensures { option_copied result ≡ self.now.stop_reason }
    {
        self.stop_reason.as_ref()
    }

    /// Notes why the connection stopped. Where a reason was noted before, that one stays.
    pub fn set_connection_stop_reason(&mut self, reason: ConnectionStopReason)
        ensures step { Step self.old (SetsStopReason reason) self.new }
    {
        if self.stop_reason.is_none() {
            self.stop_reason = Some(reason);
        }
    }

    /// Notes that the own protocol header is sent, and moves the state on (part 2, 2.2, 2.4.6). It is refused with
    /// `IllegalState` where the state allows none, and nothing changes then.
    pub fn send_header(&mut self) -> Result<(), ConnectionError>
        ensures step { Step self.old (SendsHeader result) self.new }
    {
        let Some(next) = self.local_state.after_send_header() else {
            return Err(ConnectionError::IllegalState);
        };
        self.local_state = next;
        Ok(())
    }

    /// Takes the peer's protocol header, which the caller found to be the right one, and moves the state on (part 2,
    /// 2.2, 2.4.6). It is refused with `IllegalState` where the state allows none, and nothing changes then.
    pub fn on_incoming_header(&mut self) -> Result<(), ConnectionError>
        ensures step { Step self.old (TakesHeader result) self.new }
    {
        let Some(next) = self.local_state.after_incoming_header() else {
            return Err(ConnectionError::IllegalState);
        };
        self.local_state = next;
        Ok(())
    }

    /// Hands out the own Open, on channel 0, and moves the state on (part 2, 2.4.1, 2.4.6). It is refused with
    /// `IllegalState` where the state allows none, and with `Memory` where the Open could not be copied; the
    /// connection is as before then.
    pub fn send_open(&mut self) -> Result<Frame, OpenError>
        ensures step { Step self.old (SendsOpen result) self.new }
    {
        let Some(next) = self.local_state.after_send_open() else {
            return Err(OpenError::IllegalState);
        };
        let local_open = self.local_open.clone()?;
        self.local_state = next;
        Ok(Frame::new(0, FrameBody::Open(local_open)))
    }

    /// Takes the peer's Open, which may come on any channel: keeps its channel-max and moves the state on (part 2,
    /// 2.4.1, 2.4.6). It is refused with `IllegalState` where the state allows none, and nothing changes then.
    pub fn on_incoming_open(
        &mut self,
        channel: IncomingChannel,
        remote_open: &Open,
    ) -> Result<(), OpenError>
        ensures step { Step self.old (TakesOpen channel remote_open.now result) self.new }
    {
        let Some(next) = self.local_state.after_incoming_open() else {
            return Err(OpenError::IllegalState);
        };
        self.local_state = next;
        self.remote_channel_max = Some(remote_open.channel_max);
        Ok(())
    }

    /// Hands out a Close with this error, on channel 0, and moves the state on: with an error, what the peer still
    /// sends is to be dropped (part 2, 2.4.3, 2.4.6). It is refused with `IllegalState` where the state allows none,
    /// and nothing changes then.
    pub fn send_close(
        &mut self,
        error: Option<definitions::Error>,
    ) -> Result<Frame, ConnectionError>
        ensures step { Step self.old (SendsClose error result) self.new }
    {
        let Some(next) = self.local_state.after_send_close(error.is_some()) else {
            return Err(ConnectionError::IllegalState);
        };
        self.local_state = next;
        Ok(Frame::new(0, FrameBody::Close(Close { error })))
    }

    /// Takes the peer's Close, which may come on any channel, and moves the state on (part 2, 2.4.3, 2.4.6). One that
    /// comes before the peer's Open is taken, too. It is refused with `IllegalState` where the state allows none, and
    /// nothing changes then.
    pub fn on_incoming_close(
        &mut self,
        channel: IncomingChannel,
        close: &Close,
    ) -> Result<(), ConnectionError>
        ensures step { Step self.old (TakesClose channel close.now result) self.new }
    {
        let Some(next) = self.local_state.after_incoming_close() else {
            return Err(ConnectionError::IllegalState);
        };
        self.local_state = next;
        Ok(())
    }

    /// The frame of a Begin on an outgoing channel (part 2, 2.7.2). The state isn't looked at, and nothing changes.
    pub fn on_outgoing_begin(&self, channel: OutgoingChannel, begin: Begin) -> Frame
        ensures step { Step self.now (SendsBegin channel begin result) self.now }
    {
        Frame::new(channel.0, FrameBody::Begin(begin))
    }

    /// The frame of an End on an outgoing channel (part 2, 2.7.8). The state isn't looked at, and nothing changes.
    pub fn on_outgoing_end(&self, channel: OutgoingChannel, end: End) -> Frame
        ensures step { Step self.now (SendsEnd channel end result) self.now }
    {
        Frame::new(channel.0, FrameBody::End(end))
    }

    /// The outgoing channel that the next session gets, which no live session has (part 2, 2.5.1).
    ///
    /// It is refused with `ConnectionNotOpened` where not both Open were exchanged, with `ConnectionStopped` where a
    /// Close was sent or came, and with `LocalChannelMaxReached` where that channel is above the own channel-max or
    /// the peer's (part 2, 2.7.1).
    pub fn offered_channel(&self) -> Result<OutgoingChannel, BeginError>
        ensures ok { IfOk result (Offers self.now) }
        ensures err { IfErr result (RefusesChannel self.now) }
    {
        if let Some(refusal) = self.local_state.refusal_of_begin() {
            return Err(refusal);
        }
        let offered = self.sessions.offered();
        if offered > usize::from(self.channel_limit()) {
            return Err(BeginError::LocalChannelMaxReached);
        }
        Ok(OutgoingChannel(offered as u16))
    }

    /// Gives an outgoing channel that no live session has to a session of this number, and answers it (part 2, 2.5.1).
    /// Which of the vacant ones it is isn't said.
    ///
    /// It is refused, and nothing changes, with `ConnectionNotOpened` where not both Open were exchanged, with
    /// `ConnectionStopped` where a Close was sent or came, with `LocalChannelMaxReached` where the vacant channel that
    /// is offered is above the own channel-max or the peer's (part 2, 2.7.1), and with `Memory` where there is none.
    pub fn allocate_session(&mut self, session: u64) -> Result<OutgoingChannel, BeginError>
        ensures step { Step self.old (AllocatesSession session result) self.new }
    {
        let channel = self.offered_channel()?;
        self.sessions.insert(session)?;
        Ok(channel)
    }

    /// Takes an outgoing channel back from its session and offers it to the next one (part 2, 2.5.2). Where no live
    /// session has it nothing changes. Routes to the session stay.
    pub fn deallocate_session(&mut self, channel: OutgoingChannel)
        ensures step { Step self.old (DeallocatesSession channel) self.new }
        ensures offered { IsSome (map.get self.old.live channel.0) → self.new.offered ≡ channel.0 }
    {
        self.sessions.remove(channel.0);
    }

    /// Takes the peer's Begin, which names the outgoing channel that it answers: the peer's frames on its channel go
    /// to that channel's session from now on, and no more to that of an older Begin (part 2, 2.5.1). Answers the
    /// session's number. The connection's state isn't looked at.
    ///
    /// It is refused, and nothing changes, with `NotImplemented` where it names no channel: the peer begins a session
    /// of its own then, for which `route_accepted` makes the route. With `NotFound` where no live session has the
    /// channel, and with `Memory` where there is none for the route.
    pub fn on_incoming_begin(
        &mut self,
        channel: IncomingChannel,
        begin: &Begin,
    ) -> Result<u64, ConnectionError>
        ensures step { Step self.old (TakesBegin channel begin.now result) self.new }
    {
        let Some(remote_channel) = begin.remote_channel else {
            return Err(ConnectionError::NotImplemented);
        };
        let Some(session) = self.sessions.get(remote_channel) else {
            return Err(ConnectionError::NotFound);
        };
        self.routes.insert(channel.0, session)?;
        Ok(session)
    }

    /// Makes the route of a session that the peer began: its frames on this channel go to this session, and no more to
    /// that of an older route (part 2, 2.5.1). It is refused where there is no memory for the route, and nothing
    /// changes then.
    pub fn route_accepted(
        &mut self,
        channel: IncomingChannel,
        session: u64,
    ) -> Result<(), AllocError>
        ensures step { Step self.old (AcceptsRoute channel session result) self.new }
    {
        self.routes.insert(channel.0, session)
    }

    /// Takes the peer's End: takes the route of its channel away and answers the number of its session (part 2,
    /// 2.5.2). It is refused with `NotFound` where the channel has no route, and nothing changes then.
    pub fn on_incoming_end(
        &mut self,
        channel: IncomingChannel,
        end: &End,
    ) -> Result<u64, ConnectionError>
        ensures step { Step self.old (TakesEnd channel end.now result) self.new }
    {
        let Some(session) = self.routes.remove(channel.0) else {
            return Err(ConnectionError::NotFound);
        };
        Ok(session)
    }

    /// The number of the session to which the peer's frames on a channel go, or None where it has no route.
    pub fn session_tx_by_incoming_channel(&self, channel: IncomingChannel) -> Option<u64>
        ensures step { Step self.now (FindsSession channel result) self.now }
    {
        self.routes.get(channel.0)
    }

    /// The highest outgoing channel that a session may have (part 2, 2.7.1).
    fn channel_limit(&self) -> u16
        ensures { result ≡ channel_limit self.now }
    {
        let own = self.local_open.channel_max;
        match self.remote_channel_max {
            None => own,
            Some(peer) => own.min(peer),
        }
    }
}

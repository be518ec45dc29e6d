//! An endpoint, and its calls of the connection.
ghost use Rattle.std.specs.Prelude.{◌≡◌, ◌≤◌, ◌<◌, ◌==◌, ◌&&◌, ◌⊎◌, ◌++◌, ◌∷◌, [], true, false, length, drop, is_some};
ghost use Rattle.std.specs.Prelude.{Some, None, IfOk, IfErr, OnOk, OnErr, MatchOption, MatchResult};
ghost use Rattle.amqp_session_frames.specs.Table.{after_send_close};
ghost use Rattle.amqp_endpoint_model.specs.Relay.{IsNew};
ghost use Rattle.amqp_endpoint_model.specs.State.{Waiting, fresh, has_opened, is_running, limit_of, text_of, the_frame};
ghost use Rattle.amqp_endpoint_model.specs.State.{the_header, heartbeat, fits, own_close_with};
ghost use Rattle.amqp_endpoint_core.specs.Queue.{IsFirst, PullsInto};
ghost use Rattle.amqp_endpoint_model.specs.Said.{said};
ghost use Rattle.amqp_endpoint_model.specs.Step.{refusal_of_settings, refusal, Breaks, ClosesOwn, MayRefuse, MovesBy};
ghost use Rattle.amqp_endpoint_model.specs.Step.{Pulls, Step, close_refusal, connected, goes_on};
ghost use Rattle.amqp_endpoint_model.specs.declared.error.EndpointError.TheVariants.{Memory};
ghost use Rattle.amqp_endpoint_model.specs.declared.settings.Settings.{Settings};

use crate::batch::pull_batch;
use crate::coding::MIN_MAX_FRAME_SIZE;
use crate::connecting::{greet_anew, send_close, unopened};
use crate::queued::{Queued, drop_first, first_bytes, gather};
use amqp_endpoint_model::{
    Answer, Attaching, Call, EndpointError, Event, Phase, Sent, SessionRelay, Settings,
};
use amqp_session_frames::{ConnectionState, Frame};
use amqp_session_performatives::SessionFrame;
use amqp_session_types::{TryCloseError, definitions};
use bytes::BytesMut;
use std::alloc::Global;
use std::collections::VecDeque;
use std::marker::Model;

mod answering;
mod calling;
mod disposing;
mod feeding;
mod linking;
mod messaging;

/// The greatest incoming-window, in transfers (part 2, 2.8.10).
const MAX_WINDOW: u32 = 0x7fff_ffff;

/// One end of an AMQP connection, without a network: `feed` takes the peer's bytes and answers what they say,
/// `pull` gives the bytes for the peer. A clause sees it as a `State`: its settings, where it stands with its
/// connection, the bytes that are no whole frame yet, what is queued, and its sessions.
///
/// Which Open and Close may come and go says the connection of its sessions. What sessions do isn't known here: an
/// endpoint is proved for all that say what they do.
pub struct Endpoint<S: SessionRelay> {
    alloc: Global,
    settings: Settings,
    phase: Phase,
    peer_limit: Option<u32>,
    close_told: bool,
    input: BytesMut,
    queue: VecDeque<Queued>,
    /// What the sessions sent, behind what is in the queue.
    out: VecDeque<SessionFrame>,
    sessions: S,
}

impl<S: SessionRelay> Drop for Endpoint<S> {
    fn drop(self) {
        let Endpoint {
            alloc: _,
            settings: _,
            phase: _,
            peer_limit: _,
            close_told: _,
            input: _,
            queue: _,
            out: _,
            sessions: _,
        } = self;
    }
}

impl<S: SessionRelay> Model for Endpoint<S> {
    ghost use Rattle.std.specs.Prelude.{◌≡◌, ◌≤◌, ◌++◌, true};
    ghost use Rattle.amqp_endpoint_model.specs.State.{State, fits, own_open, limit_of};
    ghost use Rattle.amqp_endpoint_core.specs.Connected.{RestIdle, Stands, WaitWithin, sent_close, took_close};
    ghost use Rattle.amqp_endpoint_core.specs.Queue.{AllWithin, frames_waiting};

    ghost Value = { State S };

    ghost view = { λ a. record {
      settings = a.settings;
      phase = a.phase;
      peer_limit = a.peer_limit;
      own_close = sent_close (S.does.connection a.sessions).local_state;
      peer_close = took_close (S.does.connection a.sessions).local_state;
      close_told = a.close_told;
      rest = a.input.items;
      queue = a.queue.items ++ frames_waiting a.out.items;
      sessions = a.sessions;
    } };

    ghost invariant = { λ a.
        Stands S.does a.settings a.phase a.peer_limit a.sessions
        × (fits 512 (own_open a.settings) ≡ true)
        × (512 ≤ limit_of a.peer_limit)
        × AllWithin (limit_of a.peer_limit) (a.queue.items ++ frames_waiting a.out.items)
        × WaitWithin S.does a.phase a.peer_limit a.sessions
        × RestIdle S.does a.phase a.sessions };
}

impl<S: SessionRelay> Endpoint<S> {
    /// A new endpoint, with no connection.
    ///
    /// `LimitUnder512` where max_frame_size is under 512 (part 2, 2.7.1), then `WindowOutOfRange` where
    /// incoming_window is 0 or above 2,147,483,647, then `FrameTooLarge` where the own Open has more than 512
    /// bytes. `Memory` where there is no memory.
    pub fn new(alloc: Global, settings: Settings) -> Result<Self, EndpointError>
        ensures ok { IfOk result (λ endpoint. (refusal_of_settings settings ≡ None)
            × ((sessions : S) × IsNew S.does settings sessions × (endpoint ≡ fresh settings sessions))) }
        ensures err { IfErr result (λ e. (e ≡ Memory) ⊎ (refusal_of_settings settings ≡ Some e)) }
    {
        if settings.max_frame_size < MIN_MAX_FRAME_SIZE {
            return Err(EndpointError::LimitUnder512);
        }
        if settings.incoming_window == 0 {
            return Err(EndpointError::WindowOutOfRange);
        }
        if settings.incoming_window > MAX_WINDOW {
            return Err(EndpointError::WindowOutOfRange);
        }
        let connection = unopened(alloc, &settings)?;
        let sessions = S::new(
            alloc,
            connection,
            settings.first_transfer_number,
            settings.incoming_window,
        )?;
        Ok(Endpoint {
            alloc,
            settings,
            phase: Phase::Unconnected,
            peer_limit: None,
            close_told: false,
            input: BytesMut::new(alloc),
            queue: VecDeque::new(alloc),
            out: VecDeque::new(alloc),
            sessions,
        })
    }

    /// Begins a connection: the own protocol header is queued, and the peer's is awaited (part 2, 2.2).
    ///
    /// `AlreadyConnected` where there is a connection, also one that is closed: `break_off` ends it. `Memory`
    /// where there is no memory. A refusal changes nothing.
    pub fn connect(&mut self) -> Result<(), EndpointError>
        ensures ok { OnOk result ((refusal self.old Call.Connect ≡ None)
            × (self.new ≡ connected S.does self.old)) }
        ensures err { IfErr result (λ e. MayRefuse self.old Call.Connect e
            × (self.new ≡ self.old)) }
    {
        if self.phase != Phase::Unconnected {
            return Err(EndpointError::AlreadyConnected);
        }
        let queue = greeting(self.alloc)?;
        greet_anew(self.alloc, &mut self.sessions);
        self.phase = Phase::Greeting;
        self.peer_limit = None;
        self.close_told = false;
        self.input = BytesMut::new(self.alloc);
        self.queue = queue;
        self.out = VecDeque::new(self.alloc);
        Ok(())
    }

    /// The next bytes for the peer: the protocol header, or one frame with its size. None where nothing is
    /// queued.
    ///
    /// `Memory` where there is no memory for the bytes: what they are written of stays queued.
    pub fn pull(&mut self) -> Result<Option<Vec<u8>>, EndpointError>
        ensures ok { IfOk result (λ pulled. MatchOption pulled (Pulls self.old None self.new)
            (λ bytes. Pulls self.old (Some (bytes.items)) self.new)) }
        ensures err { IfErr result (λ e. (e ≡ Memory) × (self.new ≡ self.old)) }
    {
        let Some(bytes) = self.peek()? else {
            return Ok(None);
        };
        self.take_first();
        Ok(Some(bytes))
    }

    /// What `pull` would give, which stays queued.
    ///
    /// `Memory` where there is no memory for the bytes.
    pub fn peek(&self) -> Result<Option<Vec<u8>>, EndpointError>
        ensures ok { IfOk result (λ seen. MatchOption seen (self.now.queue ≡ [])
            (λ bytes. (first : Waiting) × IsFirst self.now.queue first × (bytes.items ≡ text_of first))) }
        ensures err { IfErr result (λ e. e ≡ Memory) }
    {
        let limit = self.limit();
        first_bytes(self.alloc, limit, &self.queue, &self.out)
    }

    /// Takes out what was queued first, if something is. It takes no memory.
    pub fn take_first(&mut self)
        ensures { self.new ≡ record self.old { queue = drop 1 self.old.queue } }
    {
        drop_first(&mut self.queue, &mut self.out);
    }

    /// Appends what is queued first to `out`, behind what it holds: as many whole answers of `pull` as are at most
    /// `most` bytes together. It answers how many they are, and takes them out.
    ///
    /// They are none where nothing is queued, and where the first alone is longer than `most`: it stays queued. No
    /// frame is longer than the peer's max-frame-size, nor than 512 bytes before its Open (part 2, 2.4.1, 2.7.1): where
    /// `most` is that, something is taken whenever something is queued.
    ///
    /// `Memory` where there is no memory. A refusal changes nothing: `out` holds what it held.
    pub fn pull_into(&mut self, out: &mut Vec<u8>, most: usize) -> Result<usize, EndpointError>
        ensures ok { IfOk result (λ count.
            PullsInto most self.old (out.old.items) count self.new (out.new.items)) }
        ensures some { IfOk result (λ count. limit_of self.old.peer_limit ≤ most
            → 0 < length self.old.queue → 0 < count) }
        ensures err { IfErr result (λ e. (e ≡ Memory) × (self.new ≡ self.old)
            × (out.new.items ≡ out.old.items)) }
    {
        let limit = self.limit();
        pull_batch(self.alloc, limit, most, &mut self.queue, &mut self.out, out)
    }

    /// How many answers of bytes `pull` still gives.
    pub fn queued(&self) -> usize
        ensures { result ≡ length self.now.queue }
    {
        self.queue.len() + self.out.len()
    }

    /// Whether nothing is queued.
    pub fn is_idle(&self) -> bool
        ensures { result ≡ (length self.now.queue == 0) }
    {
        self.queued() == 0
    }

    /// Queues a frame that says nothing, so that the peer sees a sign of life (part 2, 2.4.5).
    ///
    /// `NotConnected` where the own Open isn't queued yet, or a Close of either end is. `Memory` where there
    /// is no memory. A refusal changes nothing.
    pub fn heartbeat(&mut self) -> Result<(), EndpointError>
        ensures ok { OnOk result ((refusal self.old Call.Heartbeat ≡ None)
            × (self.new ≡ record self.old { queue = self.old.queue ++ the_frame heartbeat ∷ [] })) }
        ensures err { IfErr result (λ e. MayRefuse self.old Call.Heartbeat e
            × (self.new ≡ self.old)) }
    {
        if !self.goes_on() {
            return Err(EndpointError::NotConnected);
        }
        gather(&mut self.queue, &mut self.out)?;
        self.queue.push_back_reserved(Queued::frame(Frame::empty()));
        Ok(())
    }

    /// Ends the connection without a frame. What is queued and unread goes.
    pub fn break_off(&mut self)
        ensures { Breaks S.does self.old self.new }
    {
        self.sessions.finish();
        self.phase = Phase::Unconnected;
        self.input = BytesMut::new(self.alloc);
        self.queue = VecDeque::new(self.alloc);
        self.out = VecDeque::new(self.alloc);
    }

    /// Queues the own Close, without an error (part 2, 2.7.9). The peer's frames are read on until its Close.
    ///
    /// `NotConnected` where the own Open isn't queued yet, then `IllegalState` where the own Close is.
    /// `Memory` where there is no memory. A refusal changes nothing.
    pub fn close(&mut self) -> Result<(), EndpointError>
        ensures ok { OnOk result ((refusal self.old Call.Close ≡ None)
            × ClosesOwn S.does self.old.sessions self.new.sessions
            × (self.new ≡ record self.old {
              own_close = true;
              queue = self.old.queue ++ the_frame (own_close_with None) ∷ [];
              sessions = self.new.sessions;
            })) }
        ensures err { IfErr result (λ e. MayRefuse self.old Call.Close e × (self.new ≡ self.old)) }
    {
        match self.phase {
            Phase::Unconnected | Phase::Greeting => return Err(EndpointError::NotConnected),
            Phase::Running | Phase::Over => {}
        }
        if self.own_close() {
            return Err(EndpointError::IllegalState);
        }
        self.send_close(None)?;
        self.sessions.leave();
        Ok(())
    }

    /// Whether both Close went since the latest `connect`: the own one was queued, and the peer's came.
    pub fn is_closed(&self) -> bool
        ensures { result ≡ (self.now.own_close && self.now.peer_close) }
    {
        self.own_close() && self.peer_close()
    }

    /// Ok once, after the peer's Close came.
    ///
    /// `RemoteCloseNotReceived` where it hasn't come since the latest `connect`, `AlreadyClosed` where an Ok
    /// told of it before. A refusal changes nothing.
    pub fn try_close(&mut self) -> Result<(), TryCloseError>
        ensures ok { OnOk result ((close_refusal self.old ≡ None)
            × (self.new ≡ record self.old { close_told = true })) }
        ensures err { IfErr result (λ e. (close_refusal self.old ≡ Some e)
            × (self.new ≡ self.old)) }
    {
        if !self.peer_close() {
            return Err(TryCloseError::RemoteCloseNotReceived);
        }
        if self.close_told {
            return Err(TryCloseError::AlreadyClosed);
        }
        self.close_told = true;
        Ok(())
    }

    /// One call, and what it answers.
    pub fn call(&mut self, call: &Call) -> Answer
        ensures { Step S.does self.old call.now (said result) self.new }
    {
        match call {
            Call::Connect => done(self.connect()),
            Call::Feed(bytes) => Answer::Fed(self.feed(bytes.as_slice())),
            Call::Pull => match self.pull() {
                Ok(bytes) => Answer::Pulled(bytes),
                Err(error) => Answer::Refused(error),
            },
            Call::Queued => Answer::Count(self.queued()),
            Call::IsIdle => Answer::Truth(self.is_idle()),
            Call::Heartbeat => done(self.heartbeat()),
            Call::BreakOff => {
                self.break_off();
                Answer::Done
            }
            Call::Close => done(self.close()),
            Call::IsClosed => Answer::Truth(self.is_closed()),
            Call::TryClose => Answer::TriedClose(self.try_close()),
            Call::Begin => begun(self.begin()),
            Call::AcceptBegin(channel) => begun(self.accept_begin(*channel)),
            Call::End(session) => done(self.end(*session)),
            Call::IsEnded(session) => Answer::Truth(self.is_ended(*session)),
            Call::TryEnd(session) => Answer::TriedEnd(self.try_end(*session)),
            Call::AttachSender(session, settings) => {
                attaching(self.attach_sender(*session, settings))
            }
            Call::AttachReceiver(session, settings) => {
                attaching(self.attach_receiver(*session, settings))
            }
            Call::Resume(link, session) => attaching(self.resume(*link, *session)),
            Call::Detach(link) => done(self.detach(*link)),
            Call::CloseLink(link) => link_closed(self.close_link(*link)),
            Call::Grant(link, credit) => credit_is(self.grant(*link, *credit)),
            Call::Drain(link) => done(self.drain(*link)),
            Call::Credit(link) => credit_is(self.credit(*link)),
            Call::HeldBack(session) => count(self.held_back(*session)),
            Call::Waiting(session) => waiting(self.waiting(*session)),
            Call::Send(link, message) => sent(self.send_raw(*link, message)),
            Call::Dispose(link, message, disposal) => done(self.dispose(*link, *message, disposal)),
            Call::DisposeAll(link, messages, disposal) => {
                done(self.dispose_all(*link, messages, disposal))
            }
        }
    }

    fn is_running(&self) -> bool
        ensures { result ≡ is_running self.now.phase }
    {
        self.phase == Phase::Running
    }

    /// Whether the own Open is queued, and no Close of either end is.
    fn goes_on(&self) -> bool
        ensures { result ≡ goes_on self.now }
    {
        if !self.is_running() {
            return false;
        }
        !self.own_close()
    }

    /// Whether the own Close was queued since the latest `connect`.
    fn own_close(&self) -> bool
        ensures { result ≡ self.now.own_close }
    {
        match self.sessions.connection().local_state() {
            ConnectionState::OpenClosePipe
            | ConnectionState::ClosePipe
            | ConnectionState::CloseSent
            | ConnectionState::Discarding
            | ConnectionState::End => true,
            _ => false,
        }
    }

    /// Whether the peer's Close came since the latest `connect`.
    fn peer_close(&self) -> bool
        ensures { result ≡ self.now.peer_close }
    {
        match self.sessions.connection().local_state() {
            ConnectionState::CloseReceived | ConnectionState::End => true,
            _ => false,
        }
    }

    /// The longest frame that the peer takes, as far as it is known.
    fn limit(&self) -> u32
        ensures { result ≡ limit_of self.now.peer_limit }
    {
        match self.peer_limit {
            Some(limit) => limit,
            None => MIN_MAX_FRAME_SIZE,
        }
    }

    /// Queues the own Close with this error, which the connection hands out. There is room for it first, since a
    /// connection that has sent it can't take it back.
    fn send_close(&mut self, error: Option<definitions::Error>) -> Result<(), EndpointError>
        requires short { fits 512 (own_close_with error) ≡ true }
        requires opened { has_opened self.old.phase ≡ true }
        requires first { self.old.own_close ≡ false }
        ensures ok { OnOk result (MovesBy S.does (after_send_close (is_some error)) self.old.sessions self.new.sessions
            × (self.new ≡ record self.old {
              own_close = true;
              queue = self.old.queue ++ the_frame (own_close_with error) ∷ [];
              sessions = self.new.sessions;
            })) }
        ensures err { IfErr result (λ e. (e ≡ Memory) × (self.new ≡ self.old)) }
    {
        gather(&mut self.queue, &mut self.out)?;
        let close = send_close(&mut self.sessions, error)?;
        self.queue.push_back_reserved(close);
        Ok(())
    }
}

/// The queue in which the own protocol header waits alone.
fn greeting(alloc: Global) -> Result<VecDeque<Queued>, EndpointError>
    ensures ok { IfOk result (λ queue. queue.items ≡ the_header ∷ []) }
    ensures err { IfErr result (λ e. e ≡ Memory) }
{
    let mut queue = VecDeque::new(alloc);
    queue.push_back(Queued::header())?;
    Ok(queue)
}

fn done(outcome: Result<(), EndpointError>) -> Answer
    ensures { MatchResult outcome (λ _. result ≡ Answer.Done) (λ e. result ≡ Answer.Refused e) }
{
    match outcome {
        Ok(()) => Answer::Done,
        Err(error) => Answer::Refused(error),
    }
}

fn begun(outcome: Result<u64, EndpointError>) -> Answer
    ensures { MatchResult outcome (λ number. result ≡ Answer.Session number)
        (λ e. result ≡ Answer.Refused e) }
{
    match outcome {
        Ok(number) => Answer::Session(number),
        Err(error) => Answer::Refused(error),
    }
}

fn attaching(outcome: Result<Attaching, EndpointError>) -> Answer
    ensures { MatchResult outcome (λ a. result ≡ Answer.Attaching a)
        (λ e. result ≡ Answer.Refused e) }
{
    match outcome {
        Ok(attaching) => Answer::Attaching(attaching),
        Err(error) => Answer::Refused(error),
    }
}

fn link_closed(outcome: Result<Vec<Event>, EndpointError>) -> Answer
    ensures { MatchResult outcome (λ events. result ≡ Answer.LinkClosed events)
        (λ e. result ≡ Answer.Refused e) }
{
    match outcome {
        Ok(events) => Answer::LinkClosed(events),
        Err(error) => Answer::Refused(error),
    }
}

fn credit_is(outcome: Result<u32, EndpointError>) -> Answer
    ensures { MatchResult outcome (λ left. result ≡ Answer.Credit left)
        (λ e. result ≡ Answer.Refused e) }
{
    match outcome {
        Ok(left) => Answer::Credit(left),
        Err(error) => Answer::Refused(error),
    }
}

fn count(outcome: Result<usize, EndpointError>) -> Answer
    ensures { MatchResult outcome (λ n. result ≡ Answer.Count n) (λ e. result ≡ Answer.Refused e) }
{
    match outcome {
        Ok(number) => Answer::Count(number),
        Err(error) => Answer::Refused(error),
    }
}

fn waiting(outcome: Result<Vec<(u64, u64)>, EndpointError>) -> Answer
    ensures { MatchResult outcome (λ turn. result ≡ Answer.Waiting turn)
        (λ e. result ≡ Answer.Refused e) }
{
    match outcome {
        Ok(turn) => Answer::Waiting(turn),
        Err(error) => Answer::Refused(error),
    }
}

fn sent(outcome: Result<Sent, EndpointError>) -> Answer
    ensures { MatchResult outcome (λ s. result ≡ Answer.Sent s) (λ e. result ≡ Answer.Refused e) }
{
    match outcome {
        Ok(sent) => Answer::Sent(sent),
        Err(error) => Answer::Refused(error),
    }
}

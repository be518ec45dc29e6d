//! How sessions begin (part 2, 2.5.1).
ghost use Rattle.std.specs.Prelude.{◌≡◌, ◌<◌, ◌++◌, ◌∷◌, [], List, None, Some, IsSome, IfOk, IfErr, OnOk, OnErr};
ghost use Rattle.amqp_session_performatives.specs.declared.session_frame.SessionFrame.{SessionFrame};
ghost use Rattle.amqp_session_frames.specs.Steps.{RefusesSession};
ghost use Rattle.amqp_session_frames.specs.Table.{refusal_of_begin};
ghost use Rattle.amqp_endpoint_links.specs.declared.asking.AskingSession.{AskingSession};
ghost use Rattle.amqp_endpoint_tables.specs.State.{asked_at, asked_on, live_at};
ghost use Rattle.amqp_endpoint_tables.specs.Steps.{Step, Begins, ChangesLive};
ghost use Rattle.std.specs.Global.{Box};
ghost use Rattle.std.specs.VecDeque.{deque_len, deque_capacity};
ghost use Rattle.amqp_endpoint_conversation.specs.Beginning.{Accepting, AcceptsHere, BeginsHere, BeginAnswered};
ghost use Rattle.amqp_endpoint_conversation.specs.Beginning.{HearsBegin, RefusesAccept, with_links};

use crate::conversation::Conversation;
use amqp_endpoint_links::{AskedSession, AskingSession};
use amqp_session_core::LinkRelay;
use amqp_session_performatives::{Begin, SessionFrame};
use amqp_session_types::{
    BeginError, ConnectionError, IncomingChannel, OutgoingChannel, SessionError,
};
use std::alloc::{AllocError, Global};
use std::collections::VecDeque;

/// What comes of a peer's Begin.
#[derive(Debug, Clone, Copy, PartialEq, Eq)]
pub enum BeginHeard {
    /// The peer asks for a session, which gets this number.
    Asked(u64),
    /// The session with this number, which began here, is answered.
    Begun(u64),
    /// It is for a session that is ending, and nothing comes of it.
    Dropped,
}

/// Why a peer's Begin is refused.
#[derive(Debug, PartialEq, Drop)]
pub enum BeginRefusal {
    /// The connection refuses it.
    Connection(ConnectionError),
    /// The session with this number, whose channel it names, refuses it.
    Session(u64, SessionError),
}

/// Why a session that the peer may ask for isn't accepted.
#[derive(Debug, PartialEq, Drop)]
pub enum AcceptRefusal {
    /// The peer asks for none on the channel.
    NotAsked,
    /// It can't begin.
    Unbegun(BeginError),
}

impl<R: LinkRelay> Conversation<R> {
    /// Begins a session, and hands out its Begin (part 2, 2.5.1, 2.7.2). Answers its number.
    ///
    /// It is refused with `ConnectionNotOpened` where not both Open were exchanged, with `ConnectionStopped` where a
    /// Close was sent or came, with `LocalChannelMaxReached` where no channel is left that both ends allow (part 2,
    /// 2.7.1), and with `Memory`. Nothing changes then.
    pub fn begin(
        &mut self,
        alloc: Global,
        out: &mut VecDeque<SessionFrame>,
    ) -> Result<u64, BeginError>
        ensures ok { IfOk result (λ number.
            BeginsHere R.gives self.old out.old.items number self.new out.new.items) }
        ensures err { IfErr result (RefusesSession self.old.sessions.connection) }
        ensures kept { OnErr result ((self.new ≡ self.old) × (out.new.items ≡ out.old.items)) }
    {
        let channel = self.sessions.connection().offered_channel()?;
        out.reserve(1)?;
        let begun = AskingSession::begin(
            alloc,
            channel,
            self.first_transfer_number,
            self.incoming_window,
        );
        let (session, frame) = box_first(alloc, begun)?;
        let entered = self.enter(session);
        queue_if(out, entered, frame)
    }

    /// A session begins, and answers its number. It is refused as `begin` is.
    fn enter(&mut self, session: Box<AskingSession<R>>) -> Result<u64, BeginError>
        ensures ok { IfOk result (λ number. Step self.old.sessions
            (Begins number (record { 0 = self.old.sessions.connection.offered }) session) self.new.sessions
            × (self.new ≡ record self.old { sessions = self.new.sessions })) }
        ensures err { IfErr result (RefusesSession self.old.sessions.connection) }
        ensures kept { OnErr result (self.new ≡ self.old) }
    {
        match self.sessions.begin(session) {
            Ok(number) => Ok(number),
            Err(refused) => Err(refused.error),
        }
    }

    /// Accepts the session that the peer asks for on this channel of its (part 2, 2.5.1): it takes the peer's Begin
    /// and what was kept of a Flow, its own Begin is handed out, and the links that the peer asks for in it go over.
    /// Answers its number.
    ///
    /// It is refused, as `begin` is, where the connection isn't open, then with `NotAsked` where the peer asks for no
    /// session on the channel, and then as `begin` is. Nothing changes then.
    pub fn accept(
        &mut self,
        alloc: Global,
        out: &mut VecDeque<SessionFrame>,
        channel: IncomingChannel,
    ) -> Result<u64, AcceptRefusal>
        ensures ok { IfOk result
            (λ number. AcceptsHere R.gives self.old out.old.items channel number self.new out.new.items) }
        ensures err { IfErr result (RefusesAccept self.old channel) }
        ensures kept { OnErr result ((self.new ≡ self.old) × (out.new.items ≡ out.old.items)) }
    {
        if let Some(error) = self.closed() {
            return Err(AcceptRefusal::Unbegun(error));
        }
        let Some(number) = self.sessions.asked_on(channel) else {
            return Err(AcceptRefusal::NotAsked);
        };
        match self.accept_asked(alloc, out, channel, number) {
            Ok(()) => Ok(number),
            Err(error) => Err(AcceptRefusal::Unbegun(error)),
        }
    }

    /// Why no session can begin on the connection, whatever channel is offered.
    fn closed(&self) -> Option<BeginError>
        ensures { result ≡ refusal_of_begin self.now.sessions.connection.local_state }
    {
        match self.sessions.connection().offered_channel() {
            Err(error @ (BeginError::ConnectionNotOpened | BeginError::ConnectionStopped)) => {
                Some(error)
            }
            _ => None,
        }
    }

    /// Accepts the session with this number, for which the peer asks on this channel.
    fn accept_asked(
        &mut self,
        alloc: Global,
        out: &mut VecDeque<SessionFrame>,
        channel: IncomingChannel,
        number: u64,
    ) -> Result<(), BeginError>
        requires { asked_on self.old.sessions channel.0 ≡ Some number }
        ensures ok { OnOk result (AcceptsHere R.gives self.old out.old.items channel number self.new
            out.new.items) }
        ensures err { IfErr result (RefusesSession self.old.sessions.connection) }
        ensures kept { OnErr result ((self.new ≡ self.old) × (out.new.items ≡ out.old.items)) }
    {
        let outgoing = self.sessions.connection().offered_channel()?;
        out.reserve(1)?;
        let (session, frame) = self.accepting(alloc, channel, number, outgoing)?;
        match self.sessions.accept(number, session) {
            Ok((_, asked)) => {
                self.take_over(number, asked);
                out.push_back_reserved(frame);
                Ok(())
            }
            Err(refused) => Err(refused.error),
        }
    }

    /// The session that accepts the one with this number, and its Begin.
    fn accepting(
        &self,
        alloc: Global,
        channel: IncomingChannel,
        number: u64,
        outgoing: OutgoingChannel,
    ) -> Result<(Box<AskingSession<R>>, SessionFrame), AllocError>
        requires { IsSome (asked_at self.now.sessions number) }
        ensures { IfOk result (λ made. Accepting R.gives self.now channel number outgoing made.0
            made.1) }
    {
        let Some(asked) = self.sessions.asked(number) else {
            unreachable!()
        };
        let accepted = AskingSession::accept(
            alloc,
            outgoing,
            channel,
            asked,
            self.first_transfer_number,
            self.incoming_window,
        )?;
        box_first(alloc, accepted)
    }

    /// The links that the peer asked for before the session with this number was accepted go over to it.
    fn take_over(&mut self, number: u64, asked: Box<AskedSession>)
        ensures taken { (session : Box (AskingSession R)) → live_at self.old.sessions number ≡ Some session →
            Step self.old.sessions (ChangesLive number session (with_links session asked.value.links))
            self.new.sessions }
        ensures rest { self.new ≡ record self.old { sessions = self.new.sessions } }
    {
        if let Some(session) = self.sessions.live_mut(number) {
            session.asked = Box::into_inner(asked).links;
        }
    }

    /// Takes the peer's Begin (part 2, 2.5.1, 2.7.2). Where it names no channel the peer asks for a session. Else its
    /// channel leads to the session whose channel it names, and that takes it: what waits in it and lies in the peer's
    /// window is handed out.
    ///
    /// It is refused by the connection with `NotAllowed` where it asks for a session on a channel that reaches one,
    /// with `NotFound` where no session has the channel that it names, and with `Memory`; and by the session with
    /// `IllegalState` where it was answered before: the channel leads to it all the same. Else nothing changes then,
    /// but that where there is no memory the channel may lead to the session already.
    pub fn on_incoming_begin(
        &mut self,
        alloc: Global,
        out: &mut VecDeque<SessionFrame>,
        channel: IncomingChannel,
        begin: Begin,
    ) -> Result<BeginHeard, BeginRefusal>
        ensures { BeginAnswered R.gives self.old out.old.items channel begin result self.new
            out.new.items }
    {
        match begin.remote_channel {
            None => self.ask(alloc, channel, begin),
            Some(_) => self.answer(out, channel, &begin),
        }
    }

    /// The peer asks for a session.
    fn ask(
        &mut self,
        alloc: Global,
        channel: IncomingChannel,
        begin: Begin,
    ) -> Result<BeginHeard, BeginRefusal>
        requires { begin.remote_channel ≡ None }
        ensures { (out : List SessionFrame) →
            BeginAnswered R.gives self.old out channel begin result self.new out }
    {
        if self.sessions.reached(channel).is_some() {
            return Err(BeginRefusal::Connection(ConnectionError::NotAllowed));
        }
        let Ok(asked) = boxed(alloc, AskedSession::new(alloc, begin)) else {
            return Err(BeginRefusal::Connection(ConnectionError::Memory));
        };
        match self.sessions.ask(channel, asked) {
            Ok(number) => Ok(BeginHeard::Asked(number)),
            Err(error) => Err(BeginRefusal::Connection(error)),
        }
    }

    /// The session whose channel the peer's Begin names takes it.
    fn answer(
        &mut self,
        out: &mut VecDeque<SessionFrame>,
        channel: IncomingChannel,
        begin: &Begin,
    ) -> Result<BeginHeard, BeginRefusal>
        requires { IsSome begin.now.remote_channel }
        ensures { BeginAnswered R.gives self.old out.old.items channel begin.now result self.new
            out.new.items }
    {
        let number = match self.sessions.on_incoming_begin(channel, begin) {
            Ok(number) => number,
            Err(error) => return Err(BeginRefusal::Connection(error)),
        };
        let Some(session) = self.sessions.live_mut(number) else {
            return Ok(BeginHeard::Dropped);
        };
        match hear_begin(session, out, channel, begin) {
            Ok(true) => Ok(BeginHeard::Begun(number)),
            Ok(false) => Err(BeginRefusal::Session(number, SessionError::IllegalState)),
            Err(_) => Err(BeginRefusal::Connection(ConnectionError::Memory)),
        }
    }
}

/// A value behind a pointer. It is refused where there is no memory.
fn boxed<T: Drop>(alloc: Global, value: T) -> Result<Box<T>, AllocError>
    ensures { IfOk result (λ made. made.value ≡ value) }
{
    match Box::new(alloc, value) {
        Ok(made) => Ok(made),
        Err(_) => Err(AllocError),
    }
}

/// The first of two behind a pointer. It is refused where there is no memory.
fn box_first<T: Drop, F: Drop>(alloc: Global, both: (T, F)) -> Result<(Box<T>, F), AllocError>
    ensures { IfOk result (λ made. (made.0.value ≡ both.0) × (made.1 ≡ both.1)) }
{
    let (first, second) = both;
    let first = boxed(alloc, first)?;
    Ok((first, second))
}

/// A frame is queued where the answer is no refusal. There is room for it.
fn queue_if<N: Drop, F: Drop>(
    out: &mut VecDeque<F>,
    answer: Result<N, BeginError>,
    frame: F,
) -> Result<N, BeginError>
    requires { deque_len out.old < deque_capacity out.old }
    ensures answer { result ≡ answer }
    ensures queued { OnOk result (out.new.items ≡ out.old.items ++ frame ∷ []) }
    ensures kept { OnErr result (out.new.items ≡ out.old.items) }
{
    match answer {
        Ok(given) => {
            out.push_back_reserved(frame);
            Ok(given)
        }
        Err(error) => Err(error),
    }
}

/// A session takes the peer's Begin, where its state allows one, and answers whether it does. It is refused where
/// there is no memory, and nothing changes then.
fn hear_begin<R: LinkRelay>(
    session: &mut AskingSession<R>,
    out: &mut VecDeque<SessionFrame>,
    channel: IncomingChannel,
    begin: &Begin,
) -> Result<bool, AllocError>
    ensures ok { IfOk result (λ taken.
        HearsBegin R.gives taken session.old out.old.items channel begin.now session.new out.new.items) }
    ensures kept { OnErr result ((session.new ≡ session.old) × (out.new.items ≡ out.old.items)) }
{
    match session.session.on_incoming_begin(out, channel, begin) {
        Ok(()) => Ok(true),
        Err(BeginError::Memory) => Err(AllocError),
        Err(_) => Ok(false),
    }
}

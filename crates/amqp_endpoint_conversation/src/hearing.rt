//! What the peer says in sessions, by its channels (part 2, 2.5).
ghost use Rattle.std.specs.Prelude.{◌≡◌, ◌+◌, ◌≤◌, ◌<◌, Err, false, IfOk, IsSome, List, OnOk, Some};
ghost use Rattle.std.specs.Global.{Box};
ghost use Rattle.std.specs.VecDeque.{deque_len, deque_capacity};
ghost use Rattle.amqp_session_outgoing.specs.Queues.{frames_in};
ghost use Rattle.amqp_endpoint_links.specs.declared.session.AskedSession.{AskedSession};
ghost use Rattle.amqp_endpoint_links.specs.Hearing.{says_flow};
ghost use Rattle.amqp_endpoint_links.specs.declared.asking.AskingSession.{AskingSession};
ghost use Rattle.amqp_endpoint_tables.specs.State.{asked_at, live_at};
ghost use Rattle.amqp_endpoint_conversation.specs.Hearing.{Answered, AskedAnswered, FlowTold, LiveAnswered, LiveHears};
ghost use Rattle.amqp_endpoint_conversation.specs.Hearing.{KeepsRoom, Refuses};

use crate::conversation::Conversation;
use amqp_endpoint_links::{AskingSession, LinkPerformative, PerformativeTaken, hear_asked};
use amqp_session_core::LinkRelay;
use amqp_session_performatives::SessionFrame;
use amqp_session_types::{IncomingChannel, SessionError};
use std::alloc::Global;
use std::collections::VecDeque;

/// What comes of what the peer says in a session.
#[derive(Drop)]
pub enum Heard<A, T, D> {
    /// The session with this number, for which the peer asks, took it.
    Asked(u64),
    /// The session with this number, which has begun, took it, and tells this.
    Live(u64, PerformativeTaken<A, T, D>),
    /// The session with this number is ending, and nothing comes of it.
    Dropped(u64),
}

/// Why what the peer says on a channel is refused.
#[derive(Drop)]
pub enum HearRefusal<R> {
    /// There was no memory.
    Memory,
    /// The channel reaches no session.
    NotFound,
    /// The session with this number, for which the peer asks, refuses it. No End can say so: it has no channel.
    Asked(u64, SessionError),
    /// The session with this number refuses it by this fault. Its End was handed out, and with it the session, whose
    /// links are the caller's.
    Session(u64, SessionError, Box<AskingSession<R>>),
}

impl<R: LinkRelay> Conversation<R> {
    /// Takes what the peer says in the session that its channel reaches (part 2, 2.5). One that the peer asks for
    /// keeps it until it is accepted; one that has begun takes it, and what a Flow has leave is handed out; one that is
    /// ending drops it (part 2, 2.5.2). Where it is no Flow and isn't refused, `out` isn't touched.
    ///
    /// It is refused with `NotFound` where the channel reaches no session, and with `Asked` where one refuses it that
    /// the peer asks for; nothing changes then. It is refused with `Session` where one refuses it that has begun: its
    /// End, with the fault's condition, is handed out behind all that it had leave, and it is ending. With `Memory`
    /// nothing changes, or a session that has begun has refused it, and there was no memory for its End.
    pub fn on_incoming(
        &mut self,
        alloc: Global,
        out: &mut VecDeque<SessionFrame>,
        channel: IncomingChannel,
        said: LinkPerformative,
    ) -> Result<Heard<R::Attached, R::Transferred, R::Detached>, HearRefusal<R>>
        ensures step { Answered R.gives self.old out.old.items channel said result self.new
            out.new.items }
        ensures untouched { says_flow said ≡ false → OnOk result (out.new ≡ out.old) }
        ensures room { IfOk result (λ heard.
            KeepsRoom self.old.sessions (deque_len out.old) heard self.new.sessions (deque_len out.new)) }
        ensures capacity { OnOk result (deque_capacity out.old ≤ deque_capacity out.new) }
    {
        let Some(number) = self.sessions.reached(channel) else {
            drop(said);
            return Err(HearRefusal::NotFound);
        };
        if self.sessions.asked(number).is_some() {
            return self.hear_in_asked(number, said);
        }
        if self.sessions.live(number).is_some() {
            return self.hear_in_live(alloc, out, number, said);
        }
        drop(said);
        Ok(Heard::Dropped(number))
    }

    /// The session's own Flow is handed out where it is due, which is where half of its window or more is used up since
    /// a Flow left (part 2, 2.5.6). There must be a spare place in `out`, and it takes no memory. Where no session with
    /// this number has begun, nothing is handed out.
    ///
    /// A transfer tells the Flow that it makes due with what is taken (`TransferTaken::flow`), which is to be queued
    /// instead: none is due by it any more, unless the window is 0.
    pub fn tell_flow(&mut self, out: &mut VecDeque<SessionFrame>, number: u64)
        requires { deque_len out.old < deque_capacity out.old }
        ensures told { FlowTold R.gives self.old out.old.items number self.new out.new.items }
        ensures capacity { deque_capacity out.new ≡ deque_capacity out.old }
    {
        let Some(session) = self.sessions.live_mut(number) else {
            return;
        };
        if let Some(frame) = session.session.maybe_outgoing_session_flow() {
            out.push_back_reserved(frame);
        }
    }

    /// The session with this number, for which the peer asks, hears what the peer says.
    fn hear_in_asked(
        &mut self,
        number: u64,
        said: LinkPerformative,
    ) -> Result<Heard<R::Attached, R::Transferred, R::Detached>, HearRefusal<R>>
        requires { IsSome (asked_at self.old.sessions number) }
        ensures { (asked : Box AskedSession) → asked_at self.old.sessions number ≡ Some asked →
            AskedAnswered self.old number asked said result self.new }
    {
        let Some(session) = self.sessions.asked_mut(number) else {
            unreachable!()
        };
        match hear_asked(session, said) {
            Ok(()) => Ok(Heard::Asked(number)),
            Err(error) => match error {
                SessionError::Memory => Err(HearRefusal::Memory),
                fault => Err(HearRefusal::Asked(number, fault)),
            },
        }
    }

    /// The session with this number, which has begun, hears what the peer says, and ends where that is its fault.
    fn hear_in_live(
        &mut self,
        alloc: Global,
        out: &mut VecDeque<SessionFrame>,
        number: u64,
        said: LinkPerformative,
    ) -> Result<Heard<R::Attached, R::Transferred, R::Detached>, HearRefusal<R>>
        requires { IsSome (live_at self.old.sessions number) }
        ensures step { (session : Box (AskingSession R)) → live_at self.old.sessions number ≡ Some session →
            LiveAnswered R.gives self.old out.old.items number session said result self.new out.new.items }
        ensures untouched { says_flow said ≡ false → OnOk result (out.new ≡ out.old) }
        ensures room { IfOk result (λ heard.
            KeepsRoom self.old.sessions (deque_len out.old) heard self.new.sessions (deque_len out.new)) }
        ensures capacity { OnOk result (deque_capacity out.old ≤ deque_capacity out.new) }
    {
        match self.hear(alloc, out, number, said) {
            Ok(taken) => Ok(Heard::Live(number, taken)),
            Err(error) => Err(self.refuse(alloc, out, number, error)),
        }
    }

    /// The session with this number, which has begun, refused what the peer said. It ends where that is its fault.
    fn refuse(
        &mut self,
        alloc: Global,
        out: &mut VecDeque<SessionFrame>,
        number: u64,
        error: SessionError,
    ) -> HearRefusal<R>
        ensures { Refuses self.old out.old.items number error result self.new out.new.items }
    {
        match error {
            SessionError::Memory => HearRefusal::Memory,
            fault => match self.fail(alloc, out, number, &fault) {
                Ok(session) => HearRefusal::Session(number, fault, session),
                Err(_) => HearRefusal::Memory,
            },
        }
    }

    /// The session with this number, which has begun, hears what the peer says.
    fn hear(
        &mut self,
        alloc: Global,
        out: &mut VecDeque<SessionFrame>,
        number: u64,
        said: LinkPerformative,
    ) -> Result<PerformativeTaken<R::Attached, R::Transferred, R::Detached>, SessionError>
        requires { IsSome (live_at self.old.sessions number) }
        ensures step { (before : Box (AskingSession R)) → live_at self.old.sessions number ≡ Some before →
            (after : Box (AskingSession R))
            × LiveHears R.gives self.old.sessions out.old.items number before said result
            after self.new.sessions out.new.items }
        ensures rest { self.new ≡ record self.old { sessions = self.new.sessions } }
        ensures memory { result ≡ Err SessionError.Memory →
            (self.new ≡ self.old) × (out.new.items ≡ out.old.items) }
        ensures untouched { says_flow said ≡ false → out.new ≡ out.old }
        ensures room { (before after : Box (AskingSession R)) → live_at self.old.sessions number ≡ Some before →
            live_at self.new.sessions number ≡ Some after →
            (deque_len out.new + frames_in after.value.session.outgoing.queues
            ≤ deque_len out.old + frames_in before.value.session.outgoing.queues + 1)
            × (after.value.session.outgoing.room ≡ before.value.session.outgoing.room) }
        ensures capacity { deque_capacity out.old ≤ deque_capacity out.new }
    {
        let Some(session) = self.sessions.live_mut(number) else {
            unreachable!()
        };
        session.on_incoming(alloc, out, said)
    }
}

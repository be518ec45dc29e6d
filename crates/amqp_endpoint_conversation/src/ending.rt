//! How sessions end (part 2, 2.5.2).
ghost use Rattle.std.specs.Prelude.{◌≡◌, IfOk, IfErr, IsSome, IsTrue, OnErr, ◌↔◌};
ghost use Rattle.amqp_endpoint_tables.specs.State.{live_at};
ghost use Rattle.amqp_endpoint_conversation.specs.Ending.{EndAnswered, EndsHere, IsMapped, RefusesEnd, end_frame};

use crate::conversation::Conversation;
use amqp_endpoint_links::AskingSession;
use amqp_endpoint_tables::Place;
use amqp_session_core::{LinkRelay, SessionState};
use amqp_session_performatives::{End, SessionFrame, SessionFrameBody};
use amqp_session_types::{
    ConnectionError, IncomingChannel, OutgoingChannel, SessionError, definitions,
};
use std::alloc::AllocError;
use std::collections::VecDeque;

/// What comes of a peer's End.
#[derive(Drop)]
pub struct EndHeard<R> {
    /// The number of the session that is over.
    pub number: u64,
    /// The session, if its own End hadn't gone: its links are the caller's.
    pub ended: Option<Box<AskingSession<R>>>,
}

impl<R: LinkRelay> Conversation<R> {
    /// Ends the session with this number: hands out its End with this error, and the session itself, whose links are
    /// the caller's (part 2, 2.5.2, 2.7.8). Its channel stays its until the peer's End comes.
    ///
    /// It is refused with `IllegalState` where there is no such session that has begun at both ends and ended at
    /// neither (part 2, 2.5.5), and with `Memory`. Nothing changes then.
    pub fn end(
        &mut self,
        out: &mut VecDeque<SessionFrame>,
        number: u64,
        error: Option<definitions::Error>,
    ) -> Result<Box<AskingSession<R>>, SessionError>
        ensures ok { IfOk result
            (λ session. EndsHere self.old out.old.items number error session self.new out.new.items) }
        ensures err { IfErr result (RefusesEnd self.old number) }
        ensures kept { OnErr result ((self.new ≡ self.old) × (out.new.items ≡ out.old.items)) }
    {
        if !self.is_mapped(number) {
            return Err(SessionError::IllegalState);
        }
        match self.end_live(out, number, error) {
            Ok(session) => Ok(session),
            Err(_) => Err(SessionError::Memory),
        }
    }

    /// Ends the session with this number, which has begun: hands out its End with this error, and the session itself.
    /// It is refused where there is no memory, and nothing changes then.
    pub(crate) fn end_live(
        &mut self,
        out: &mut VecDeque<SessionFrame>,
        number: u64,
        error: Option<definitions::Error>,
    ) -> Result<Box<AskingSession<R>>, AllocError>
        requires { IsSome (live_at self.old.sessions number) }
        ensures ok { IfOk result
            (λ session. EndsHere self.old out.old.items number error session self.new out.new.items) }
        ensures kept { OnErr result ((self.new ≡ self.old) × (out.new.items ≡ out.old.items)) }
    {
        out.reserve(1)?;
        match self.sessions.end(number, true) {
            Some((channel, session)) => {
                out.push_back_reserved(end_frame(channel, error));
                Ok(session)
            }
            None => unreachable!(),
        }
    }

    /// Takes the peer's End (part 2, 2.5.2): the session that its channel reaches is over. Where its own End hadn't
    /// gone that is handed out, without an error; one that the peer only asked for is not answered.
    ///
    /// It is refused with `NotFound` where the channel reaches no session, and with `Memory`. Nothing changes then.
    pub fn on_incoming_end(
        &mut self,
        out: &mut VecDeque<SessionFrame>,
        channel: IncomingChannel,
        end: &End,
    ) -> Result<EndHeard<R>, ConnectionError>
        ensures { EndAnswered self.old out.old.items channel end.now result self.new out.new.items }
    {
        if self.sessions.reached(channel).is_none() {
            return Err(ConnectionError::NotFound);
        }
        out.reserve(1)?;
        let (number, stood) = self.sessions.on_incoming_end(channel, end)?;
        match stood {
            Place::Live(outgoing, session) => {
                out.push_back_reserved(end_frame(outgoing, None));
                Ok(EndHeard {
                    number,
                    ended: Some(session),
                })
            }
            _ => Ok(EndHeard {
                number,
                ended: None,
            }),
        }
    }

    /// Whether the session with this number has begun at both ends, and ended at neither (part 2, 2.5.5).
    pub fn is_mapped(&self, number: u64) -> bool
        ensures { IsTrue result ↔ IsMapped self.now number }
    {
        match self.sessions.live(number) {
            Some(session) => session.session.local_state() == SessionState::Mapped,
            None => false,
        }
    }
}

/// An End with this error (part 2, 2.7.8).
fn end_frame(channel: OutgoingChannel, error: Option<definitions::Error>) -> SessionFrame
    ensures { result ≡ end_frame channel error }
{
    SessionFrame {
        channel: channel.0,
        body: SessionFrameBody::End(End { error }),
    }
}

//! Transfers that bring a whole message, taken at once: beside the general way of `hear`, which takes what is said and
//! owns it, a way that reads a transfer where it lies (part 2, 2.5.6, 2.6.14 and 2.7.5).
ghost use Rattle.std.specs.Prelude.{◌≡◌, ℕ, IsSome, List, Some};
ghost use Rattle.std.specs.Global.{Box};
ghost use Rattle.amqp_session_core.specs.ToldAtOnce.{own_flow};
ghost use Rattle.amqp_session_performatives.specs.declared.session_frame.SessionFrame.{SessionFrame};
ghost use Rattle.amqp_endpoint_links.specs.declared.asking.AskingSession.{AskingSession};
ghost use Rattle.amqp_endpoint_tables.specs.State.{live_at};
ghost use Rattle.amqp_endpoint_conversation.specs.AtOnce.{LiveTakesAtOnce, TakesAtOnce};
ghost use Rattle.amqp_endpoint_conversation.specs.Going.{Goes, Rests};

use crate::conversation::Conversation;
use amqp_session_core::{LinkRelay, TakenAtOnce};
use amqp_session_performatives::{SessionFrame, Transfer};
use amqp_session_types::IncomingChannel;
use bytes::Bytes;

impl<R: LinkRelay> Conversation<R> {
    /// Takes a transfer with its payload at once, where it brings a whole message and the session that its channel
    /// reaches takes it so, as `on_incoming` takes it (part 2, 2.5.6, 2.7.5). A message that isn't settled bears this
    /// number of its owner's from then on. The answer is the session's number, and what it answered: where its Flow is
    /// due that is to be handed out (`flow_due`). It is None where the transfer wasn't taken, and nothing changes then: it
    /// is to be taken in the general way.
    ///
    /// What waits goes on to fit where it did, and no session begins or ends.
    pub fn takes_at_once(
        &mut self,
        channel: IncomingChannel,
        transfer: &Transfer,
        payload: &Bytes,
        message: u64,
    ) -> Option<(u64, TakenAtOnce)>
        ensures step { TakesAtOnce R.gives R.tells R.names self.old channel transfer.now payload.now
            message result self.new }
        ensures goes { (limit : ℕ) → (out : List SessionFrame) → Goes limit self.old self.new out out }
        ensures rests { (out : List SessionFrame) → Rests self.old self.new out out }
    {
        let Some(number) = self.sessions.reached(channel) else {
            return None;
        };
        let Some(taken) = self.live_takes(number, transfer, payload, message) else {
            return None;
        };
        Some((number, taken))
    }

    /// The Flow that tells the state of the session with this number, which has begun (part 2, 2.7.4).
    pub fn flow_due(&self, number: u64) -> SessionFrame
        requires { IsSome (live_at self.now.sessions number) }
        ensures { (session : Box (AskingSession R)) → live_at self.now.sessions number ≡ Some session →
            result ≡ own_flow session.value.session }
    {
        let Some(session) = self.sessions.live(number) else {
            unreachable!()
        };
        session.session.flow_due()
    }

    /// The session with this number takes it at once, if it has begun.
    fn live_takes(
        &mut self,
        number: u64,
        transfer: &Transfer,
        payload: &Bytes,
        message: u64,
    ) -> Option<TakenAtOnce>
        ensures { LiveTakesAtOnce R.gives R.tells R.names self.old number transfer.now payload.now
            message result self.new }
    {
        let Some(session) = self.sessions.live_mut(number) else {
            return None;
        };
        match session.session.takes_at_once(transfer, payload, message) {
            Some(taken) => Some(taken),
            None => None,
        }
    }
}

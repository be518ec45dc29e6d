//! Dispositions that settle one delivery which was sent, taken at once: beside the general way of `hear`, which takes
//! what is said and owns it, a way that reads a disposition where it lies (part 2, 2.6.12 and 2.7.6).
ghost use Rattle.std.specs.Prelude.{ℕ, List};
ghost use Rattle.amqp_session_performatives.specs.declared.session_frame.SessionFrame.{SessionFrame};
ghost use Rattle.amqp_endpoint_conversation.specs.Going.{Goes, Rests};
ghost use Rattle.amqp_endpoint_conversation.specs.OneSettled.{LiveSettlesAtOnce, SettlesAtOnce};

use crate::conversation::Conversation;
use amqp_session_core::{LinkRelay, SettledAtOnce};
use amqp_session_performatives::Disposition;
use amqp_session_types::IncomingChannel;

impl<R: LinkRelay> Conversation<R> {
    /// Takes a disposition at once, where the peer settles by it one delivery that was sent, and the session that its
    /// channel reaches takes it so, as `on_incoming` takes it (part 2, 2.6.12, 2.7.6). The answer is the session's
    /// number, and what it answered: where its link wants that, the delivery is to be echoed. It is None where the
    /// disposition wasn't taken, and nothing changes then: it is to be taken in the general way.
    ///
    /// What waits goes on to fit where it did, and no session begins or ends.
    pub fn settles_at_once(
        &mut self,
        channel: IncomingChannel,
        disposition: &Disposition,
    ) -> Option<(u64, SettledAtOnce)>
        ensures step { SettlesAtOnce R.gives self.old channel disposition.now result self.new }
        ensures goes { (limit : ℕ) → (out : List SessionFrame) → Goes limit self.old self.new out out }
        ensures rests { (out : List SessionFrame) → Rests self.old self.new out out }
    {
        let Some(number) = self.sessions.reached(channel) else {
            return None;
        };
        let Some(settled) = self.live_settles(number, disposition) else {
            return None;
        };
        Some((number, settled))
    }

    /// The session with this number takes it at once, if it has begun.
    fn live_settles(&mut self, number: u64, disposition: &Disposition) -> Option<SettledAtOnce>
        ensures { LiveSettlesAtOnce R.gives self.old number disposition.now result self.new }
    {
        let Some(session) = self.sessions.live_mut(number) else {
            return None;
        };
        match session.session.settles_at_once(disposition) {
            Some(settled) => Some(settled),
            None => None,
        }
    }
}

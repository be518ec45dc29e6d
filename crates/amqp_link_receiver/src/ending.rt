//! How an attachment of a receiving link ends (part 2, 2.6.4 to 2.6.6).
ghost use Rattle.std.specs.Prelude.{◌≡◌};
ghost use Rattle.amqp_link_receiver.specs.State.{MovesLink};
ghost use Rattle.amqp_link_receiver.specs.Ending.{broken, detach_sent, detach_taken, ended, TakesDetach};

use crate::link::ReceiverLink;
use amqp_link_base::{Detached, IllegalState};

impl ReceiverLink {
    /// The own Detach is sent, which closes the link or doesn't, and ends the attachment: what has come of an
    /// unsettled delivery is kept, and the numbers of deliveries are worth nothing any more (part 2, 2.6.5 and
    /// 2.6.6). It takes no memory.
    ///
    /// Errors: `IllegalState` exactly where the state doesn't allow it. Nothing changes then.
    pub fn send_detach(&mut self, closed: bool) -> Result<(), IllegalState>
        ensures { MovesLink (detach_sent self.old closed) self.old result self.new }
    {
        self.base.send_detach(closed)?;
        self.end_attachment();
        Ok(())
    }

    /// Takes the peer's Detach, which closes the link or doesn't, by itself or across the own one, and ends the
    /// attachment: what has come of an unsettled delivery is kept, and the numbers of deliveries are worth nothing
    /// any more (part 2, 2.6.4 to 2.6.6). It takes no memory.
    ///
    /// Errors: `IllegalState` exactly where the state doesn't allow it. Nothing changes then.
    pub fn on_incoming_detach(&mut self, closed: bool) -> Result<Detached, IllegalState>
        ensures { TakesDetach (detach_taken self.old closed) self.old result self.new }
    {
        let answer = self.base.is_attached();
        self.base.on_incoming_detach(closed)?;
        self.end_attachment();
        Ok(Detached {
            closed: self.base.is_closed(),
            answer,
        })
    }

    /// The connection or the session is over: the link is detached, or closed where its closing Detach was sent, and
    /// the attachment ends as by a Detach (part 2, 2.6.5). It takes no memory.
    pub fn on_break(&mut self)
        ensures { self.new ≡ broken self.old }
    {
        self.base.break_off();
        self.end_attachment();
    }

    /// The attachment ends.
    fn end_attachment(&mut self)
        ensures { self.new ≡ ended self.old self.old.base }
    {
        self.end.part();
        self.attachment = self.attachment.wrapping_add(1);
    }
}

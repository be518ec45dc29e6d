//! Dispositions that settle one delivery which was sent, taken at once: beside the general way of
//! `reserve_disposition` and `on_incoming_disposition`, which takes any (part 2, 2.6.12 and 2.7.6).
ghost use Rattle.std.specs.Prelude.{IsTrue};
ghost use Rattle.amqp_session_core.specs.OneSettled.{IsAlone, SettlesAtOnce, SettlesFirst};

use crate::dispositions::{Touched, reach_one};
use crate::relay::LinkRelay;
use crate::session::Session;
use amqp_session_outgoing::Delivery;
use amqp_session_performatives::Disposition;
use amqp_session_types::Role;

/// What a session answers to a disposition that settled one delivery at once.
#[derive(Debug, Drop)]
pub struct SettledAtOnce {
    /// The delivery, which is forgotten.
    pub delivery: Touched,
    /// Whether its link wants it echoed, so that a disposition is to go back (`echoes`).
    pub is_echoed: bool,
}

impl<R: LinkRelay> Session<R> {
    /// Takes a disposition at once, where the peer settles by it one delivery that was sent, as
    /// `on_incoming_disposition` has it (part 2, 2.6.12, 2.7.6): the delivery reaches its link, and is forgotten. The
    /// answer is the delivery, and whether it is to be echoed; it is None where the disposition wasn't taken, and
    /// nothing changes then: it is to be taken in the general way.
    pub fn settles_at_once(&mut self, disposition: &Disposition) -> Option<SettledAtOnce>
        ensures { SettlesAtOnce R.gives self.old disposition.now result self.new }
    {
        if !settles_first(disposition) {
            return None;
        }
        let Ok(state) = disposition.state.clone() else {
            return None;
        };
        let number = disposition.first;
        let Some(delivery) = self.outgoing.take_settled(number) else {
            return None;
        };
        let is_echoed = reach_one(&mut self.links, Some(&delivery), disposition, state);
        let Delivery { handle, tag } = delivery;
        Some(SettledAtOnce {
            delivery: Touched {
                number,
                handle,
                tag,
            },
            is_echoed,
        })
    }
}

/// Whether the peer, as the receiver, settles the delivery of one number.
fn settles_first(disposition: &Disposition) -> bool
    ensures { IsTrue result → SettlesFirst disposition.now }
{
    if !disposition.settled {
        return false;
    }
    match disposition.role {
        Role::Receiver => is_alone(disposition.first, disposition.last),
        Role::Sender => false,
    }
}

/// Whether a range has the number alone with which it begins.
fn is_alone(first: u32, last: Option<u32>) -> bool
    ensures { IsTrue result → IsAlone first last }
{
    match last {
        Some(last) => last == first,
        None => true,
    }
}

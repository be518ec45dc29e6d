//! A transfer that is all of its delivery, and passes at once where nothing waits and the peer's window is open: beside
//! the general way of `admits` and `accept`, which takes a batch (part 2, 2.5.6 and 2.6.12).
ghost use Rattle.std.specs.Prelude.{◌≡◌, ◌+◌, ◌≤◌, ◌↔◌, [], IsTrue, OnOk, OnErr};
ghost use Rattle.amqp_session_outgoing.specs.PassesAtOnce.{PassesAtOnce, part_by};
ghost use Rattle.amqp_session_outgoing.specs.State.{registered, window_left};

use crate::{Delivery, Outgoing, Unsettled};
use amqp_session_types::{DeliveryTag, OutputHandle};
use std::alloc::AllocError;

impl<T: Drop, F: Drop> Outgoing<T, F> {
    /// Whether nothing waits, and the peer's window takes another transfer.
    pub fn lets_one_pass(&self) -> bool
        ensures { IsTrue result ↔ ((self.now.queues ≡ []) × (1 ≤ window_left self.now)) }
    {
        self.lets_through(1)
    }

    /// A transfer of a link that is all of its delivery passes, as a batch of this one does that is accepted: it leaves
    /// without waiting, and its delivery, which is unsettled where it has a tag here, gets the next number. That is the
    /// answer.
    ///
    /// It is None where something waits or the window is closed, where the number is in use (part 2, 2.8.6), and where
    /// there is no memory. Nothing changes then: the transfer is to be accepted in the general way.
    pub fn passes_at_once(&mut self, handle: OutputHandle, tag: Option<DeliveryTag>) -> Option<u32>
        ensures { PassesAtOnce self.old handle tag result self.new }
    {
        if !self.lets_through(1) {
            return None;
        }
        if !self.is_free(0) {
            return None;
        }
        let number = self.next_delivery_number;
        let Ok(()) = register(&mut self.unsettled, number, handle, tag) else {
            return None;
        };
        self.next_outgoing_id = self.next_outgoing_id.wrapping_add(1);
        self.next_delivery_number = number.wrapping_add(1);
        self.turns.use_room(1);
        Some(number)
    }
}

/// A delivery that has a tag here is registered under its number. It is refused where there is no memory, and nothing
/// changes then.
fn register(
    unsettled: &mut Unsettled,
    number: u32,
    handle: OutputHandle,
    tag: Option<DeliveryTag>,
) -> Result<(), AllocError>
    ensures table { OnOk result
        (unsettled.new.table ≡ registered unsettled.old.table number handle (part_by tag)) }
    ensures room { OnOk result (unsettled.old.room ≤ unsettled.new.room + 1) }
    ensures err { OnErr result (unsettled.new ≡ unsettled.old) }
{
    let Some(tag) = tag else {
        return Ok(());
    };
    unsettled.register(number, Delivery { handle, tag })
}

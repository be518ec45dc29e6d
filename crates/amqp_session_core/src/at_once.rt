//! Transfers that bring a whole message, taken at once: beside the general way of `on_incoming_transfer`, which takes
//! any transfer and owns it, a way that reads one where it lies (part 2, 2.5.6, 2.6.14 and 2.7.5).
ghost use Rattle.std.specs.Prelude.{◌≡◌, ◌⊎◌, ◌+◌, ◌*◌, ◌<◌, IfSome, nat_le, if◌then◌else◌};
ghost use Rattle.amqp_session_core.specs.AtOnce.{LinkTakesAtOnce, registration_of};
ghost use Rattle.amqp_session_core.specs.Steps.{next_behind};
ghost use Rattle.amqp_session_core.specs.ToldAtOnce.{TakesAtOnce, own_flow};

use crate::fields::SessionFields;
use crate::incoming::{count, register, room_for_transfer};
use crate::relay::{LinkRelay, Registration};
use crate::session::Session;
use amqp_session_performatives::{SessionFrame, Transfer};
use amqp_session_types::OutputHandle;
use bytes::Bytes;
use slab::Slab;

/// What a session answers to a transfer that it took at once.
#[derive(Debug, Clone, Copy)]
pub struct TakenAtOnce {
    /// The own handle of the link that took it.
    pub handle: OutputHandle,
    /// Whether half of the own window is used up, so that the session's Flow is to be sent (part 2, 2.5.6). It goes
    /// behind what the link wants sent.
    pub is_due: bool,
}

impl<R: LinkRelay> Session<R> {
    /// Takes a transfer with its payload at once, where it brings a whole message and its link takes it so: it goes to
    /// the link of its handle, and counts, as `on_incoming_transfer` has it (part 2, 2.5.6, 2.7.5). A message that isn't
    /// settled bears this number of its owner's from then on. The answer is the link's handle, and whether the session's
    /// Flow is due, which `flow_due` tells; it is None where the transfer wasn't taken, and nothing changes then: it is to
    /// be taken in the general way.
    pub fn takes_at_once(
        &mut self,
        transfer: &Transfer,
        payload: &Bytes,
        message: u64,
    ) -> Option<TakenAtOnce>
        ensures { TakesAtOnce R.gives R.tells R.names self.old transfer.now payload.now message
            result self.new }
    {
        let Ok(handle) = room_for_transfer(
            &self.routes,
            &self.links,
            &mut self.received,
            transfer.handle,
        ) else {
            return None;
        };
        let registration = registration_of(transfer)?;
        if !link_takes(&mut self.links, handle, transfer, payload, message) {
            return None;
        }
        register(&mut self.received, handle, registration);
        let is_due = count_one(&mut self.fields, &mut self.taken);
        Some(TakenAtOnce { handle, is_due })
    }

    /// The Flow that tells the session's state (part 2, 2.7.4).
    pub fn flow_due(&self) -> SessionFrame
        ensures { result ≡ own_flow self.now }
    {
        self.fields.session_flow(self.outgoing.next_outgoing_id())
    }
}

/// What becomes in the session of a delivery that a transfer brings whole; None where there is no memory.
fn registration_of(transfer: &Transfer) -> Option<Registration>
    ensures { IfSome result (λ r. r ≡ registration_of transfer.now) }
{
    if transfer.settled.unwrap_or(false) {
        return Some(Registration::Unchanged);
    }
    let number = transfer.delivery_id?;
    let Some(tag) = &transfer.delivery_tag else {
        return None;
    };
    let Ok(tag) = tag.clone() else {
        return None;
    };
    Some(Registration::Unsettled { number, tag })
}

/// The link with this own handle takes a transfer at once.
fn link_takes<R: LinkRelay>(
    links: &mut Slab<R>,
    handle: OutputHandle,
    transfer: &Transfer,
    payload: &Bytes,
    message: u64,
) -> bool
    ensures step { LinkTakesAtOnce R.gives.transfers R.tells R.names handle.0 links.old.slots
        transfer.now payload.now message result links.new.slots }
    ensures rest { links.new ≡ record links.old { slots = links.new.slots } }
{
    match links.get_mut(handle.0 as usize) {
        Some(link) => {
            if !link.takes_at_once(transfer, payload, message) {
                return false;
            }
            true
        }
        None => false,
    }
}

/// Another transfer was taken; and whether half of the window is used up, so that a Flow is to tell it.
fn count_one(fields: &mut SessionFields, taken: &mut u32) -> bool
    requires { (taken.old ≡ 0) ⊎ (2 * taken.old < fields.old.incoming_window) }
    ensures next { fields.new ≡ record fields.old
        { next_incoming_id = next_behind fields.old.next_incoming_id } }
    ensures due { result ≡ nat_le fields.old.incoming_window (2 * (taken.old + 1)) }
    ensures taken { taken.new ≡ (if result then 0 else taken.old + 1) }
    ensures sound { (taken.new ≡ 0) ⊎ (2 * taken.new < fields.new.incoming_window) }
{
    if let Some(number) = fields.next_incoming_id {
        fields.next_incoming_id = Some(number.wrapping_add(1));
    }
    count(taken, fields.incoming_window)
}

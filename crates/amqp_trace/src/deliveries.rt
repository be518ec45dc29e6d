//! Deliveries that take more than one transfer (part 2, 2.6.14).
ghost use Rattle.std.specs.Prelude.{◌≡◌, [], IfOk};
ghost use Rattle.std.specs.Option.{option_map};
ghost use Rattle.amqp_trace.specs.Carrying.{goes_on, came, named, at, whole, behind, parts_of};

use crate::frames::SeenFrame;
use amqp_session_types::Handle;
use std::alloc::{AllocError, Global};
use std::collections::BTreeMap;

/// What a frame does to the deliveries of its channel that are under way.
#[derive(Debug, Clone, Copy, PartialEq, Eq)]
pub enum Effect {
    /// Nothing.
    Nothing,
    /// It begins or ends the session: no delivery of the channel goes on.
    BreaksSession,
    /// It attaches or detaches the link: no delivery of the handle goes on.
    BreaksLink(Handle),
    /// It carries a part of a delivery.
    Carries(Part),
}

/// What a transfer says of the part that it carries (part 2, 2.7.5).
#[derive(Debug, Clone, Copy, PartialEq, Eq)]
pub struct Part {
    /// The link.
    pub handle: Handle,
    /// The number of the delivery. A continuation may leave it off.
    pub delivery_id: Option<u32>,
    /// Whether another part follows.
    pub more: bool,
    /// Whether the sender gives the delivery up.
    pub aborted: bool,
}

/// A delivery of which a part came.
#[derive(Drop)]
struct Delivery {
    /// Its number, where its first part says it.
    delivery_id: Option<u32>,
    /// The bytes of its parts.
    payload: Vec<u8>,
}

impl Delivery {
    /// A delivery of which nothing came.
    fn new(alloc: Global, delivery_id: Option<u32>) -> Self
        ensures payload { result.payload.items ≡ [] }
        ensures name { result.delivery_id ≡ delivery_id }
    {
        Delivery {
            delivery_id,
            payload: Vec::new(alloc),
        }
    }

    /// Whether a transfer with this number may carry a part of it: one with another number may not (part 2, 2.7.5).
    fn may_go_on(&self, delivery_id: Option<u32>) -> bool
        ensures { result ≡ goes_on self.now.delivery_id delivery_id }
    {
        match (self.delivery_id, delivery_id) {
            (_, None) => true,
            (None, Some(_)) => false,
            (Some(own), Some(id)) => own == id,
        }
    }
}

/// The deliveries that are under way, by channel and handle: some of their parts came, and others are to come.
#[derive(Drop)]
pub(crate) struct Deliveries {
    under_way: BTreeMap<(u16, u32), Delivery>,
}

impl Deliveries {
    /// None.
    pub(crate) fn new(alloc: Global) -> Self {
        Deliveries {
            under_way: BTreeMap::new(alloc),
        }
    }

    /// Takes the frame. Where it carries the last part of a delivery, the whole payload of that is answered.
    pub(crate) fn take(
        &mut self,
        alloc: Global,
        frame: &SeenFrame,
    ) -> Result<Option<Vec<u8>>, AllocError> {
        match frame.effect {
            Effect::Nothing => {}
            Effect::BreaksSession => self.leave_out(frame.channel),
            Effect::BreaksLink(handle) => {
                self.under_way.remove(&(frame.channel, handle.0));
            }
            Effect::Carries(part) => {
                return self.carry(alloc, frame.channel, part, frame.payload());
            }
        }
        Ok(None)
    }

    /// Leaves no delivery of the channel under way.
    fn leave_out(&mut self, channel: u16) {
        self.under_way.retain(|(other, _), _| *other != channel);
    }

    /// Puts a part behind those that came. The payload of the delivery is answered where no other part follows.
    fn carry(
        &mut self,
        alloc: Global,
        channel: u16,
        part: Part,
        bytes: &[u8],
    ) -> Result<Option<Vec<u8>>, AllocError>
        ensures answer { IfOk result
            (λ payload.
            option_map (λ v. v.items) payload
            ≡ whole (at self.old channel part.handle.0) part bytes.now) }
        ensures rest { IfOk result
            (λ payload.
            option_map parts_of (at self.new channel part.handle.0)
            ≡ behind (at self.old channel part.handle.0) part bytes.now) }
    {
        let place = (channel, part.handle.0);
        let begun = self.under_way.remove(&place);
        if part.aborted {
            return Ok(None);
        }
        let mut delivery = continued(alloc, begun, part.delivery_id);
        delivery.payload.extend_from_slice(bytes)?;
        if part.more {
            self.under_way.insert(place, delivery)?;
            return Ok(None);
        }
        Ok(Some(delivery.payload))
    }
}

/// The delivery that a transfer with this number carries a part of: the one that begun, or another.
fn continued(alloc: Global, begun: Option<Delivery>, delivery_id: Option<u32>) -> Delivery
    ensures payload { result.payload.items ≡ came begun delivery_id }
    ensures name { result.delivery_id ≡ named begun delivery_id }
{
    match begun {
        Some(delivery) if delivery.may_go_on(delivery_id) => delivery,
        _ => Delivery::new(alloc, delivery_id),
    }
}

//! An Attach, a transfer and a Detach of the peer.
ghost use Rattle.std.specs.Prelude.{◌≡◌, ◌≢◌, ℕ, ◌+◌, ◌*◌, ◌<◌, ◌⊎◌, Err, Ok, Some, None, IfOk, IfErr, OnOk, OnErr};
ghost use Rattle.std.specs.Prelude.{IsSome, slice_index_or, nat_le, if◌then◌else◌};
ghost use Rattle.std.specs.FinMap as map;
ghost use Rattle.amqp_session_core.specs.State.{live_in};
ghost use Rattle.amqp_session_core.specs.Steps.{registers};
ghost use Rattle.amqp_session_core.specs.Refusals.{RefusesReach};
ghost use Rattle.amqp_session_core.specs.Incoming.{LinkAnswers, TransferAt, CountsOn};
ghost use Rattle.amqp_session_core.specs.Told.{AttachTaken, TransferAnswered, DetachTaken};

use crate::fields::SessionFields;
use crate::links::reach;
use crate::relay::{LinkRelay, Registration, RelayError, TransferAnswer};
use crate::routes::Routes;
use crate::session::Session;
use amqp_session_outgoing::{Delivery, Unsettled};
use amqp_session_performatives::{Attach, Detach, SessionFrame, Transfer};
use amqp_session_types::{Handle, OutputHandle, SessionError};
use bytes::Bytes;
use slab::Slab;
use std::alloc::Global;

/// What a session tells of a transfer that was taken.
#[derive(Debug, Drop)]
pub struct TransferTaken<A> {
    /// What the link tells of it.
    pub told: A,
    /// The Flow that is to be sent, where half of the own window is used up (part 2, 2.5.6). It goes behind what the
    /// link wants sent.
    pub flow: Option<SessionFrame>,
}

impl<R: LinkRelay> Session<R> {
    /// Takes the peer's Attach for the link with this own handle: frames with the peer's handle reach it from now on
    /// (part 2, 2.6.3). The caller keeps the names of links, and finds the link by the name that the Attach has.
    ///
    /// It is refused with `HandleInUse` where the peer's handle is that of a link already (part 2, 2.8.17), with
    /// `RemoteAttachingLinkNameNotFound` where there is no link with this own handle, with what the link refuses it for,
    /// and with `Memory`. Nothing but the link that refused it changes then.
    pub fn on_incoming_attach(
        &mut self,
        alloc: Global,
        handle: OutputHandle,
        attach: &Attach,
    ) -> Result<R::Attached, SessionError>
        ensures { AttachTaken R.gives self.old handle.0 attach.now result self.new }
    {
        if self.routes.get(attach.handle.0).is_some() {
            return Err(SessionError::HandleInUse);
        }
        if !self.links.contains(handle.0 as usize) {
            return Err(SessionError::RemoteAttachingLinkNameNotFound);
        }
        match route_link(&mut self.links, &mut self.routes, alloc, handle, attach) {
            Ok(told) => Ok(told),
            Err(error) => Err(SessionError::from(error)),
        }
    }

    /// Takes a transfer with its payload: it goes to the link of its handle, and counts (part 2, 2.5.6, 2.7.5). A
    /// transfer past the own window is taken, too.
    ///
    /// It is refused with `UnattachedHandle` where no link has the handle (part 2, 2.8.17), with what the link refuses
    /// it for, and with `Memory`. It doesn't count then, and nothing but the link that refused it changes.
    pub fn on_incoming_transfer(
        &mut self,
        alloc: Global,
        transfer: Transfer,
        payload: Bytes,
    ) -> Result<TransferTaken<R::Transferred>, SessionError>
        ensures { TransferAnswered R.gives self.old transfer payload result self.new }
    {
        let place = room_for_transfer(
            &self.routes,
            &self.links,
            &mut self.received,
            transfer.handle,
        );
        let (handle, answer) = transfer_to_link(&mut self.links, alloc, place, transfer, payload)?;
        let TransferAnswer { registration, told } = answer;
        register(&mut self.received, handle, registration);
        let flow = count_transfer(
            &mut self.fields,
            &mut self.taken,
            self.outgoing.next_outgoing_id(),
        );
        Ok(TransferTaken { told, flow })
    }

    /// Takes a Detach: it goes to the link of its handle, which the peer's frames reach no longer then (part 2, 2.6.5,
    /// 2.7.7). The link keeps its own handle until `deallocate_link`.
    ///
    /// It is refused with `UnattachedHandle` where no link has the handle, with what the link refuses it for, and with
    /// `Memory`. Nothing but the link that refused it changes then.
    pub fn on_incoming_detach(
        &mut self,
        alloc: Global,
        detach: &Detach,
    ) -> Result<R::Detached, SessionError>
        ensures { DetachTaken R.gives self.old detach.now result self.new }
    {
        let Some(handle) = reach(&self.routes, &self.links, detach.handle.0) else {
            return Err(SessionError::UnattachedHandle);
        };
        match detach_link(&mut self.links, alloc, handle, detach) {
            Ok(told) => {
                self.routes.remove(detach.handle.0);
                Ok(told)
            }
            Err(error) => Err(SessionError::from(error)),
        }
    }
}

/// The link that a transfer with this handle reaches, once there is room for a delivery that begins.
pub(crate) fn room_for_transfer<R>(
    routes: &Routes,
    links: &Slab<R>,
    received: &mut Unsettled,
    handle: Handle,
) -> Result<OutputHandle, SessionError>
    ensures ok { IfOk result
        (λ h. (live_in links.now.slots (map.get routes.now handle.0) ≡ Some h.0)
        × (0 < received.new.room)) }
    ensures err { IfErr result (λ error. RefusesReach
        (live_in links.now.slots (map.get routes.now handle.0)) error) }
    ensures rest { received.new.table ≡ received.old.table }
{
    let Some(handle) = reach(routes, links, handle.0) else {
        return Err(SessionError::UnattachedHandle);
    };
    received.reserve(1)?;
    Ok(handle)
}

/// Another transfer was taken. Where half of the window is used up a Flow tells it.
fn count_transfer(
    fields: &mut SessionFields,
    taken: &mut u32,
    next_outgoing_id: u32,
) -> Option<SessionFrame>
    requires { (taken.old ≡ 0) ⊎ (2 * taken.old < fields.old.incoming_window) }
    ensures counts { CountsOn fields.old taken.old next_outgoing_id result fields.new taken.new }
    ensures sound { (taken.new ≡ 0) ⊎ (2 * taken.new < fields.new.incoming_window) }
{
    if let Some(number) = fields.next_incoming_id {
        fields.next_incoming_id = Some(number.wrapping_add(1));
    }
    if count(taken, fields.incoming_window) {
        return Some(fields.session_flow(next_outgoing_id));
    }
    None
}

/// Counts one more. Where that is half of the window it begins anew, and the answer is true.
pub(crate) fn count(taken: &mut u32, window: u32) -> bool
    requires { (taken.old ≡ 0) ⊎ (2 * taken.old < window) }
    ensures due { result ≡ nat_le window (2 * (taken.old + 1)) }
    ensures taken { taken.new ≡ (if result then 0 else taken.old + 1) }
    ensures sound { (taken.new ≡ 0) ⊎ (2 * taken.new < window) }
{
    let all = u64::from(*taken) + 1;
    if 2 * all >= u64::from(window) {
        *taken = 0;
        return true;
    }
    *taken += 1;
    false
}

/// The deliveries that aren't settled, behind a transfer of this link.
pub(crate) fn register(received: &mut Unsettled, handle: OutputHandle, registration: Registration)
    requires { 0 < received.old.room }
    ensures { received.new.table ≡ registers received.old.table handle.0 registration }
{
    match registration {
        Registration::Unchanged => {}
        Registration::Unsettled { number, tag } => {
            received.register_reserved(number, Delivery { handle, tag });
        }
        Registration::Settled { number } => received.settle(number),
    }
}

/// The link with this handle takes an Attach, and the peer's handle leads to it if it isn't refused.
fn route_link<R: LinkRelay>(
    links: &mut Slab<R>,
    routes: &mut Routes,
    alloc: Global,
    handle: OutputHandle,
    attach: &Attach,
) -> Result<R::Attached, RelayError>
    requires there { IsSome (slice_index_or links.old.slots handle.0 None) }
    requires vacant { map.get routes.old (attach.now.handle).0 ≡ None }
    ensures step { LinkAnswers (λ before told after. R.gives.attaches before attach.now told after)
        handle.0 links.old.slots result links.new.slots }
    ensures rest { links.new ≡ record links.old { slots = links.new.slots } }
    ensures ok { OnOk result (routes.new ≡ map.insert routes.old (attach.now.handle).0 handle.0) }
    ensures err { OnErr result (routes.new ≡ routes.old) }
{
    if routes.insert(attach.handle.0, handle).is_err() {
        return Err(RelayError::Memory);
    }
    match attach_link(links, alloc, handle, attach) {
        Ok(told) => Ok(told),
        Err(error) => {
            routes.remove(attach.handle.0);
            Err(error)
        }
    }
}

/// The link with this handle takes an Attach.
fn attach_link<R: LinkRelay>(
    links: &mut Slab<R>,
    alloc: Global,
    handle: OutputHandle,
    attach: &Attach,
) -> Result<R::Attached, RelayError>
    ensures step { LinkAnswers (λ before told after. R.gives.attaches before attach.now told after)
        handle.0 links.old.slots result links.new.slots }
    ensures rest { links.new ≡ record links.old { slots = links.new.slots } }
{
    match links.get_mut(handle.0 as usize) {
        Some(link) => link.on_incoming_attach(alloc, attach),
        None => Err(RelayError::UnattachedHandle),
    }
}

/// The link with this handle takes a transfer.
fn transfer_to_link<R: LinkRelay>(
    links: &mut Slab<R>,
    alloc: Global,
    place: Result<OutputHandle, SessionError>,
    transfer: Transfer,
    payload: Bytes,
) -> Result<(OutputHandle, TransferAnswer<R::Transferred>), SessionError>
    ensures step { TransferAt R.gives.transfers links.old.slots place transfer payload result
        links.new.slots }
    ensures rest { links.new ≡ record links.old { slots = links.new.slots } }
{
    let handle = place?;
    match links.get_mut(handle.0 as usize) {
        Some(link) => match link.on_incoming_transfer(alloc, transfer, payload) {
            Ok(answer) => Ok((handle, answer)),
            Err(error) => Err(SessionError::from(error)),
        },
        None => Err(SessionError::UnattachedHandle),
    }
}

/// The link with this handle takes a Detach.
fn detach_link<R: LinkRelay>(
    links: &mut Slab<R>,
    alloc: Global,
    handle: OutputHandle,
    detach: &Detach,
) -> Result<R::Detached, RelayError>
    ensures step { LinkAnswers (λ before told after. R.gives.detaches before detach.now told after)
        handle.0 links.old.slots result links.new.slots }
    ensures rest { links.new ≡ record links.old { slots = links.new.slots } }
{
    match links.get_mut(handle.0 as usize) {
        Some(link) => link.on_incoming_detach(alloc, detach),
        None => Err(RelayError::UnattachedHandle),
    }
}

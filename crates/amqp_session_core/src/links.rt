//! How links get own handles and give them back (part 2, 2.6.2).
ghost use Rattle.std.specs.Prelude.{◌≡◌, ◌≢◌, ℕ, ◌<◌, ◌≤◌, ◌==◌, if◌then◌else◌, Some, None, option_map, IfOk, OnOk};
ghost use Rattle.std.specs.Prelude.{IfErr, OnErr, IsSome};
ghost use Rattle.amqp_session_core.specs.State.{live_in};
ghost use Rattle.amqp_session_core.specs.Steps.{Step, Allocates};
ghost use Rattle.amqp_session_core.specs.Told.{Deallocated};
ghost use Rattle.std.specs.FinMap as map;
ghost use Rattle.slab.specs.Slab.{HasRoomFor};
ghost use Rattle.amqp_session_core.specs.Refusals.{RefusesHandle, RefusesInput, RefusesLink};

use crate::relay::LinkRelay;
use crate::routes::Routes;
use crate::session::Session;
use amqp_session_types::{InputHandle, OutputHandle, SessionError};
use slab::Slab;

/// A link that got no handle, and why.
#[derive(Debug, Drop)]
pub struct Unallocated<R> {
    /// Why it got none.
    pub error: SessionError,
    /// The link, as it was.
    pub link: R,
}

impl<R: LinkRelay> Session<R> {
    /// Gives a link an own handle that no link of the session has, and answers it (part 2, 2.6.2). Which of the vacant
    /// ones it is isn't said.
    ///
    /// It is refused, and nothing changes, with `HandleMaxReached` where the vacant handle that is offered is above the
    /// peer's handle-max (part 2, 2.7.2), and with `Memory` where there is none. The link comes back then.
    pub fn allocate_link(&mut self, link: R) -> Result<OutputHandle, Unallocated<R>>
        ensures ok { IfOk result (λ handle.
            Step R.gives self.old (Allocates handle.0 link None) self.new) }
        ensures err { IfErr result
            (λ refused. RefusesLink self.old None refused.error × (refused.link ≡ link)) }
        ensures kept { OnErr result (self.new ≡ self.old) }
    {
        match room_for_link(&mut self.links, self.handle_max) {
            Ok(handle) => {
                self.links.insert_reserved(link);
                Ok(handle)
            }
            Err(error) => Err(Unallocated { error, link }),
        }
    }

    /// Gives a link an own handle, as `allocate_link` does, and has the peer's frames with this handle reach it: the
    /// peer attached it first (part 2, 2.6.3).
    ///
    /// It is refused, and nothing changes, with `HandleInUse` where a link has the peer's handle (part 2, 2.8.17), and
    /// then as by `allocate_link`. The link comes back then.
    pub fn allocate_incoming_link(
        &mut self,
        link: R,
        input_handle: InputHandle,
    ) -> Result<OutputHandle, Unallocated<R>>
        ensures ok { IfOk result
            (λ handle.
            Step R.gives self.old (Allocates handle.0 link (Some input_handle.0)) self.new) }
        ensures err { IfErr result
            (λ refused.
            RefusesLink self.old (Some input_handle.0) refused.error
            × (refused.link ≡ link)) }
        ensures kept { OnErr result (self.new ≡ self.old) }
    {
        let room = room_for_incoming_link(
            &mut self.links,
            &mut self.routes,
            self.handle_max,
            input_handle,
        );
        match room {
            Ok(handle) => {
                self.links.insert_reserved(link);
                Ok(handle)
            }
            Err(error) => Err(Unallocated { error, link }),
        }
    }

    /// Takes an own handle back and answers the link that had it (part 2, 2.6.5): the peer's frames reach it no longer,
    /// and its unsettled deliveries are forgotten. The handle is offered to the next link. Where no link has it the
    /// answer is None, and nothing changes.
    ///
    /// It is refused with `IllegalState` alone, exactly where something of the link waits: the Detach hasn't left then,
    /// and nothing changes.
    pub fn deallocate_link(&mut self, handle: OutputHandle) -> Result<Option<R>, SessionError>
        ensures { Deallocated R.gives self.old handle.0 result self.new }
    {
        if !self.links.contains(handle.0 as usize) {
            return Ok(None);
        }
        if self.outgoing.is_waiting(handle) {
            return Err(SessionError::IllegalState);
        }
        let link = self.links.remove(handle.0 as usize);
        self.routes.forget(handle);
        self.outgoing.forget_link(handle);
        self.received.forget(handle);
        Ok(Some(link))
    }
}

/// The offered handle, once there is room for a link with it.
fn room_for_link<R>(links: &mut Slab<R>, handle_max: u32) -> Result<OutputHandle, SessionError>
    ensures ok { IfOk result
        (λ handle.
        (handle.0 ≡ links.old.vacant_key)
        × (handle.0 ≤ handle_max)
        × HasRoomFor links.new 1) }
    ensures err { IfErr result (λ error. RefusesHandle handle_max links.old.vacant_key error) }
    ensures rest { links.new ≡ record links.old { capacity = links.new.capacity } }
{
    let offered = links.vacant_key();
    if offered > handle_max as usize {
        return Err(SessionError::HandleMaxReached);
    }
    links.reserve(1)?;
    Ok(OutputHandle(offered as u32))
}

/// The offered handle, once there is room for a link with it, and the peer's handle leads to it.
fn room_for_incoming_link<R>(
    links: &mut Slab<R>,
    routes: &mut Routes,
    handle_max: u32,
    input_handle: InputHandle,
) -> Result<OutputHandle, SessionError>
    ensures ok { IfOk result
        (λ handle.
        (map.get routes.old input_handle.0 ≡ None)
        × (handle.0 ≡ links.old.vacant_key)
        × (handle.0 ≤ handle_max)
        × HasRoomFor links.new 1
        × (routes.new ≡ map.insert routes.old input_handle.0 handle.0)) }
    ensures err { IfErr result
        (λ error. RefusesInput routes.old input_handle.0 handle_max links.old.vacant_key error) }
    ensures kept { OnErr result (routes.new ≡ routes.old) }
    ensures rest { links.new ≡ record links.old { capacity = links.new.capacity } }
{
    if routes.get(input_handle.0).is_some() {
        return Err(SessionError::HandleInUse);
    }
    let handle = room_for_link(links, handle_max)?;
    routes.insert(input_handle.0, handle)?;
    Ok(handle)
}

/// The own handle of the link that the peer's frames with a handle reach, if there is one.
pub(crate) fn reach<R>(routes: &Routes, links: &Slab<R>, handle: u32) -> Option<OutputHandle>
    ensures { option_map (λ h. h.0) result ≡ live_in links.now.slots (map.get routes.now handle) }
{
    let to = routes.get(handle)?;
    if !links.contains(to as usize) {
        return None;
    }
    Some(OutputHandle(to))
}

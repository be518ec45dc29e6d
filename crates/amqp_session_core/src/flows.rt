//! A Flow of the peer, and its answer.
ghost use Rattle.std.specs.Prelude.{◌≡◌, ◌≢◌, ◌+◌, ◌≤◌, ◌<◌, [], Err, Ok, OnOk, OnErr, IfErr, Result, Option, IsTrue};
ghost use Rattle.std.specs.Prelude.{true, false};
ghost use Rattle.std.specs.VecDeque.{deque_len, deque_capacity};
ghost use Rattle.amqp_session_outgoing.specs.Queues.{held_in, frames_in};
ghost use Rattle.std.specs.FinMap as map;
ghost use Rattle.amqp_session_core.specs.Incoming.{LinkAnswers};
ghost use Rattle.amqp_session_core.specs.State.{live_in, leads, leads_in};
ghost use Rattle.amqp_session_core.specs.Flowing.{LinkFlowed, FlowedAt, Replied, HasPlace, SameRefusal, answer_count};
ghost use Rattle.amqp_session_core.specs.Told.{FlowTaken, FlowUnattached};

use crate::batch::{BehindFrame, TransferFrame};
use crate::fields::SessionFields;
use crate::leaving::{Window, make_room, take_window};
use crate::links::reach;
use crate::relay::{LinkRelay, RelayError};
use crate::routes::Routes;
use crate::session::Session;
use amqp_session_outgoing::{Outgoing, Place};
use amqp_session_performatives::{Flow, LinkFlow, SessionFrame};
use amqp_session_types::{Handle, OutputHandle, SessionError};
use slab::Slab;
use std::alloc::Global;
use std::collections::VecDeque;

/// The Flow that answers a Flow.
#[derive(Drop)]
pub enum Answer {
    /// None.
    Nothing,
    /// One of the session.
    OfSession,
    /// One of a link.
    OfLink(OutputHandle, LinkFlow),
}

impl<R: LinkRelay> Session<R> {
    /// Takes a Flow (part 2, 2.5.6, 2.7.4): its windows, and where it has a handle, the link of that takes the rest.
    /// Hands out the link's answer, or where it has no handle and asks for an echo, the session's; a link's answer goes
    /// behind the transfers that the link has waiting. What waits and lies in the peer's window leaves then, links in
    /// turn.
    ///
    /// It is refused with `UnattachedHandle` where no link has the handle (part 2, 2.8.17): its windows are taken then,
    /// and nothing leaves. It is refused with what the link refuses it for; all is done then, too. With `Memory` nothing
    /// changes. What it handed out, and what waits then, is what waited before and at most one frame more.
    pub fn on_incoming_flow(
        &mut self,
        alloc: Global,
        out: &mut VecDeque<SessionFrame>,
        flow: Flow,
    ) -> Result<(), SessionError>
        ensures unattached { leads self.old flow.handle ≡ false → FlowUnattached R.gives
            self.old out.old.items flow result self.new out.new.items }
        ensures step { leads self.old flow.handle ≡ true → result ≢ Err SessionError.Memory →
            FlowTaken R.gives self.old out.old.items flow result self.new out.new.items }
        ensures memory { result ≡ Err SessionError.Memory →
            (self.new ≡ self.old) × (out.new.items ≡ out.old.items) }
        ensures frames_most { deque_len out.new + frames_in self.new.outgoing.queues ≤
            deque_len out.old + frames_in self.old.outgoing.queues + 1 }
        ensures frames_least { deque_len out.old + frames_in self.old.outgoing.queues ≤
            deque_len out.new + frames_in self.new.outgoing.queues }
        ensures capacity { deque_capacity out.old ≤ deque_capacity out.new }
        ensures kept_room { self.new.outgoing.room ≡ self.old.outgoing.room }
    {
        if !is_attached(&self.routes, &self.links, flow.handle) {
            self.fields.next_incoming_id = Some(flow.next_outgoing_id);
            self.outgoing
                .set_window(flow.next_incoming_id, flow.incoming_window);
            return Err(SessionError::UnattachedHandle);
        }
        make_room(&self.outgoing, &mut self.sent, out, 1)?;
        let window = Window {
            base: flow.next_incoming_id,
            width: flow.incoming_window,
        };
        let next_incoming_id = flow.next_outgoing_id;
        let answer = flow_to_link(
            alloc,
            &mut self.links,
            &self.routes,
            &self.outgoing,
            &mut self.place,
            flow,
        );
        if let Err(SessionError::Memory) = answer {
            return Err(SessionError::Memory);
        }
        self.fields.next_incoming_id = Some(next_incoming_id);
        let (flowed, result) = reply(
            self.fields,
            &mut self.outgoing,
            &mut self.place,
            out,
            answer,
        );
        let left = take_window(self.fields, &mut self.outgoing, &mut self.sent, out, window);
        if flowed | left {
            self.taken = 0;
        }
        result
    }
}

/// Whether a frame that may have a handle of the peer's has none, or that of a link.
fn is_attached<R>(routes: &Routes, links: &Slab<R>, handle: Option<Handle>) -> bool
    ensures { result ≡ leads_in links.now.slots routes.now handle }
{
    match handle {
        Some(handle) => reach(routes, links, handle.0).is_some(),
        None => true,
    }
}

/// The link that a Flow names takes it. Nothing changes where there is no memory.
fn flow_to_link<R: LinkRelay>(
    alloc: Global,
    links: &mut Slab<R>,
    routes: &Routes,
    outgoing: &Outgoing<TransferFrame, BehindFrame>,
    place: &mut Place<BehindFrame>,
    flow: Flow,
) -> Result<Answer, SessionError>
    ensures step { result ≢ Err SessionError.Memory →
        LinkFlowed R.gives outgoing.now routes.now flow links.old.slots result links.new.slots }
    ensures rest { links.new ≡ record links.old { slots = links.new.slots } }
    ensures memory { result ≡ Err SessionError.Memory → links.new ≡ links.old }
    ensures place { HasPlace outgoing.now result place.new }
{
    let echo = flow.echo;
    match LinkFlow::try_from(flow) {
        Ok(flow) => flow_at(alloc, links, routes, outgoing, place, flow),
        Err(_) if echo => Ok(Answer::OfSession),
        Err(_) => Ok(Answer::Nothing),
    }
}

/// The link with the peer's handle takes a Flow, once there is room for its answer.
fn flow_at<R: LinkRelay>(
    alloc: Global,
    links: &mut Slab<R>,
    routes: &Routes,
    outgoing: &Outgoing<TransferFrame, BehindFrame>,
    place: &mut Place<BehindFrame>,
    flow: LinkFlow,
) -> Result<Answer, SessionError>
    ensures step { result ≢ Err SessionError.Memory →
        FlowedAt R.gives.flows outgoing.now flow
        (live_in links.old.slots (map.get routes.now (flow.handle).0)) links.old.slots result
        links.new.slots }
    ensures rest { links.new ≡ record links.old { slots = links.new.slots } }
    ensures memory { result ≡ Err SessionError.Memory → links.new ≡ links.old }
    ensures place { HasPlace outgoing.now result place.new }
{
    let Some(handle) = reach(routes, links, flow.handle.0) else {
        return Err(SessionError::UnattachedHandle);
    };
    outgoing.widen_place(alloc, handle, 1, place)?;
    match step_flow(alloc, links, handle, flow) {
        Ok(Some(answer)) => Ok(Answer::OfLink(handle, own(handle, answer))),
        Ok(None) => Ok(Answer::Nothing),
        Err(error) => Err(SessionError::from(error)),
    }
}

/// The link with this handle takes a Flow.
fn step_flow<R: LinkRelay>(
    alloc: Global,
    links: &mut Slab<R>,
    handle: OutputHandle,
    flow: LinkFlow,
) -> Result<Option<LinkFlow>, RelayError>
    ensures step { LinkAnswers (λ before told after. R.gives.flows before flow told after) handle.0
        links.old.slots result links.new.slots }
    ensures rest { links.new ≡ record links.old { slots = links.new.slots } }
{
    match links.get_mut(handle.0 as usize) {
        Some(link) => link.on_incoming_flow(alloc, flow),
        None => Err(RelayError::UnattachedHandle),
    }
}

/// A Flow of the link with this handle.
pub(crate) fn own(handle: OutputHandle, flow: LinkFlow) -> LinkFlow
    ensures { result ≡ record flow { handle = record { 0 = handle.0 } } }
{
    LinkFlow {
        handle: Handle(handle.0),
        ..flow
    }
}

/// A reply is handed out, or waits behind what its link has waiting. There is room for it. Answers whether a Flow left,
/// and the refusal, where the Flow that was taken is refused.
fn reply(
    fields: SessionFields,
    outgoing: &mut Outgoing<TransferFrame, BehindFrame>,
    place: &mut Place<BehindFrame>,
    out: &mut VecDeque<SessionFrame>,
    answer: Result<Answer, SessionError>,
) -> (bool, Result<(), SessionError>)
    requires room { deque_len out.old + frames_in outgoing.old.queues + 1 ≤ deque_capacity out.old }
    requires place { HasPlace outgoing.old answer place.old }
    ensures replied { Replied fields outgoing.old out.old.items answer result.0 outgoing.new
        out.new.items }
    ensures room { deque_len out.new + frames_in outgoing.new.queues ≤ deque_capacity out.new }
    ensures frames { deque_len out.new + frames_in outgoing.new.queues ≡
        deque_len out.old + frames_in outgoing.old.queues + answer_count answer }
    ensures capacity { deque_capacity out.new ≡ deque_capacity out.old }
    ensures kept_room { outgoing.new.room ≡ outgoing.old.room }
    ensures held { held_in outgoing.new.queues ≡ held_in outgoing.old.queues }
    ensures told { SameRefusal answer result.1 }
{
    let number = outgoing.next_outgoing_id();
    match answer {
        Ok(Answer::Nothing) => (false, Ok(())),
        Ok(Answer::OfSession) => {
            out.push_back_reserved(fields.session_flow(number));
            (true, Ok(()))
        }
        Ok(Answer::OfLink(handle, flow)) => {
            let left = outgoing.on_outgoing_frame_at(handle, place, BehindFrame::Flow(flow));
            match left {
                Some(frame) => {
                    out.push_back_reserved(fields.behind_frame(number, frame));
                    (true, Ok(()))
                }
                None => (false, Ok(())),
            }
        }
        Err(error) => (false, Err(error)),
    }
}

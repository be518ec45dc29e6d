//! A session with the links that its peer asks for in it.
ghost use Rattle.std.specs.Prelude.{◌≡◌, ◌+◌, ◌≤◌, true, false, is_some, Ok, Err, None, Some, IfOk, IfErr, OnErr};
ghost use Rattle.std.specs.FinMap as map;
ghost use Rattle.std.specs.VecDeque.{deque_len, deque_capacity};
ghost use Rattle.amqp_session_outgoing.specs.Queues.{frames_in};
ghost use Rattle.amqp_session_core.specs.Refusals.{RefusesLink};
ghost use Rattle.amqp_session_core.specs.State.{links_in};
ghost use Rattle.amqp_session_core.specs.Steps.{Step, Allocates};
ghost use Rattle.amqp_endpoint_links.specs.Asking.{in_use, AsksFor, ByLink, AttachAnswered, FlowAnswered};
ghost use Rattle.amqp_endpoint_links.specs.Asking.{DetachAnswered};

use crate::{AskRefusal, AskedLinks, SessionFlow};
use amqp_session_core::{LinkRelay, Links, Session, Unallocated};
use amqp_session_performatives::{Attach, Detach, Flow, SessionFrame};
use amqp_session_types::{Boxed, InputHandle, OutputHandle, SessionError};
use std::alloc::Global;
use std::collections::VecDeque;

/// A session, and the links that its peer asks for in it: those that it attached, and that no link here answers yet
/// (part 2, 2.6.3).
///
/// Calls and frames that concern no asked link go to the session itself. A transfer for an asked link is one of these:
/// no link has its handle.
pub struct AskingSession<R> {
    /// The session.
    pub session: Session<R>,
    /// The links that its peer asks for.
    pub asked: AskedLinks,
}

impl<R: Drop> Drop for AskingSession<R> {
    fn drop(self) {
        let AskingSession {
            session: _,
            asked: _,
        } = self;
    }
}

impl<R: Drop> AskingSession<R> {
    /// The links of a session that is over, as `Session::into_links` gives them. The links that its peer asks for are
    /// dropped.
    pub fn into_links(self) -> Links<R>
        ensures { result ≡ links_in self.session.links }
    {
        let AskingSession { session, asked: _ } = self;
        session.into_links()
    }
}

/// The link that a peer's Attach names: the one with its name and the other role, in the session that it came in.
#[derive(Debug, Clone, Copy, PartialEq, Eq)]
pub enum NamedLink {
    /// There is none that is attached or waits for an Attach.
    Absent,
    /// The link with this own handle sent its Attach, and waits for the peer's.
    Waiting(OutputHandle),
    /// It is attached.
    Attached,
}

/// What comes of a peer's Attach.
#[derive(Debug, Drop)]
pub enum AttachTaken<A> {
    /// The link that waited for it took it, and tells this.
    ByLink(A),
    /// The peer asks for a link.
    Asked,
}

/// What comes of a peer's Detach.
#[derive(Debug, Drop)]
pub enum DetachTaken<D> {
    /// The link with its handle took it, and tells this.
    ByLink(D),
    /// The peer asks for the link with its handle no longer.
    Withdrawn,
}

impl<R: LinkRelay> AskingSession<R> {
    /// Takes the peer's Attach (part 2, 2.6.3). The caller keeps the names of links, and says what it has of the named
    /// one: where that waits for the Attach it takes it, and where there is none the peer asks for a link from now on.
    ///
    /// It is refused with `HandleInUse` where a link or an asked link has the peer's handle (part 2, 2.8.17), with what
    /// the session refuses it for where a link waits, with `IllegalState` where the named link is attached, or there is
    /// an asked link with the name, and with `Memory`. Nothing but the link that refused it changes then.
    pub fn on_incoming_attach(
        &mut self,
        alloc: Global,
        attach: Boxed<Attach>,
        named: NamedLink,
    ) -> Result<AttachTaken<R::Attached>, SessionError>
        ensures { AttachAnswered R.gives self.old attach named result self.new }
    {
        if self.is_in_use(InputHandle(attach.handle.0)) {
            return Err(SessionError::HandleInUse);
        }
        match named {
            NamedLink::Waiting(handle) => self.attach_link(alloc, handle, &attach),
            NamedLink::Attached => Err(SessionError::IllegalState),
            NamedLink::Absent => ask(&mut self.asked, attach),
        }
    }

    /// Takes a Flow (part 2, 2.5.6, 2.7.4). Where its handle is that of an asked link the session takes what the Flow
    /// tells of the session, without an echo, and what it tells of the link is kept; else the session takes it whole.
    ///
    /// It is refused with `Memory` alone where its handle is that of an asked link, and nothing changes then; else with
    /// what the session refuses it for. What it handed out, and what waits then, is what waited before and at most one
    /// frame more.
    pub fn on_incoming_flow(
        &mut self,
        alloc: Global,
        out: &mut VecDeque<SessionFrame>,
        flow: Flow,
    ) -> Result<(), SessionError>
        ensures step { FlowAnswered R.gives self.old out.old.items flow result self.new
            out.new.items }
        ensures frames_most { deque_len out.new + frames_in self.new.session.outgoing.queues ≤
            deque_len out.old + frames_in self.old.session.outgoing.queues + 1 }
        ensures frames_least { deque_len out.old + frames_in self.old.session.outgoing.queues ≤
            deque_len out.new + frames_in self.new.session.outgoing.queues }
        ensures capacity { deque_capacity out.old ≤ deque_capacity out.new }
        ensures kept_room { self.new.session.outgoing.room ≡ self.old.session.outgoing.room }
    {
        if !self.asked.is_asked(flow.handle) {
            return self.session.on_incoming_flow(alloc, out, flow);
        }
        let told = SessionFlow::told_by(&flow);
        self.session.on_incoming_flow(alloc, out, told.into_flow())?;
        self.asked.keep(flow);
        Ok(())
    }

    /// Takes a Detach (part 2, 2.6.5): where its handle is that of an asked link the peer asks for it no longer, and
    /// else the session takes it.
    ///
    /// It is refused with what the session refuses it for, where no asked link has the handle.
    pub fn on_incoming_detach(
        &mut self,
        alloc: Global,
        detach: &Detach,
    ) -> Result<DetachTaken<R::Detached>, SessionError>
        ensures { DetachAnswered R.gives self.old detach.now result self.new }
    {
        let input = InputHandle(detach.handle.0);
        if self.asked.get(input).is_some() {
            let _ = self.asked.withdraw(input);
            return Ok(DetachTaken::Withdrawn);
        }
        match self.session.on_incoming_detach(alloc, detach) {
            Ok(told) => Ok(DetachTaken::ByLink(told)),
            Err(error) => Err(error),
        }
    }

    /// Gives a link that answers an asked one an own handle, and has the peer's frames with this handle reach it: it is
    /// asked for no longer. It is refused as `Session::allocate_incoming_link` is, and nothing changes then.
    pub fn answer_link(
        &mut self,
        link: R,
        input_handle: InputHandle,
    ) -> Result<OutputHandle, Unallocated<R>>
        ensures ok { IfOk result (λ handle.
            Step R.gives self.old.session (Allocates handle.0 link (Some input_handle.0)) self.new.session
            × (self.new ≡ record self.old {
              session = self.new.session;
              asked = map.remove self.old.asked input_handle.0;
            })) }
        ensures err { IfErr result (λ refused.
            RefusesLink self.old.session (Some input_handle.0) refused.error × (refused.link ≡ link)) }
        ensures kept { OnErr result (self.new ≡ self.old) }
    {
        match self.session.allocate_incoming_link(link, input_handle) {
            Ok(handle) => {
                let _ = self.asked.withdraw(input_handle);
                Ok(handle)
            }
            Err(refused) => Err(refused),
        }
    }

    /// The link that waits for the peer's Attach takes it.
    fn attach_link(
        &mut self,
        alloc: Global,
        handle: OutputHandle,
        attach: &Attach,
    ) -> Result<AttachTaken<R::Attached>, SessionError>
        ensures { ByLink R.gives self.old handle.0 attach.now result self.new }
    {
        match self.session.on_incoming_attach(alloc, handle, attach) {
            Ok(told) => Ok(AttachTaken::ByLink(told)),
            Err(error) => Err(error),
        }
    }

    /// Whether a link or an asked link has this handle of the peer's.
    fn is_in_use(&self, input: InputHandle) -> bool
        ensures { result ≡ in_use self.now input.0 }
    {
        if self.asked.get(input).is_some() {
            return true;
        }
        self.session.link_by_input_handle(input).is_some()
    }
}

/// The peer asks for a link.
fn ask<A>(asked: &mut AskedLinks, attach: Boxed<Attach>) -> Result<AttachTaken<A>, SessionError>
    ensures { AsksFor asked.old attach result asked.new }
{
    match asked.ask(attach) {
        Ok(()) => Ok(AttachTaken::Asked),
        Err(AskRefusal::HandleInUse) => Err(SessionError::HandleInUse),
        Err(AskRefusal::NameInUse) => Err(SessionError::IllegalState),
        Err(AskRefusal::Memory) => Err(SessionError::Memory),
    }
}

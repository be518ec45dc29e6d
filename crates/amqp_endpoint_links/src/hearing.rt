//! What a peer says in a session (part 2, 2.7).
ghost use Rattle.std.specs.Prelude.{◌≡◌, ◌+◌, ◌≤◌, Err, false, IfOk, IfErr, OnErr};
ghost use Rattle.std.specs.VecDeque.{deque_len, deque_capacity};
ghost use Rattle.amqp_session_outgoing.specs.Queues.{frames_in};
ghost use Rattle.amqp_endpoint_links.specs.Hearing.{AsksInAsked, Hears, HearsAsked, HearsAttach, HearsDetach};
ghost use Rattle.amqp_endpoint_links.specs.Hearing.{HearsDisposition, HearsFlow, HearsTransfer, KeepsWaiting};
ghost use Rattle.amqp_endpoint_links.specs.Hearing.{says_flow};

use crate::asking::{AskingSession, AttachTaken, DetachTaken, NamedLink};
use crate::{AskRefusal, AskedSession};
use amqp_session_core::{DeliveryRuns, LinkRelay, TransferTaken};
use amqp_session_performatives::{Attach, Detach, Disposition, Flow, SessionFrame, Transfer};
use amqp_session_types::{Boxed, SessionError};
use bytes::Bytes;
use std::alloc::Global;
use std::collections::VecDeque;

/// What a peer says in a session that neither begins nor ends it (part 2, 2.7).
#[derive(Drop)]
pub enum LinkPerformative {
    /// An Attach (part 2, 2.7.3), with what the caller has of the link that it names.
    Attach(Boxed<Attach>, NamedLink),
    /// A Flow (part 2, 2.7.4).
    Flow(Flow),
    /// A transfer with its payload (part 2, 2.7.5).
    Transfer(Transfer, Bytes),
    /// A disposition (part 2, 2.7.6).
    Disposition(Disposition),
    /// A Detach (part 2, 2.7.7).
    Detach(Detach),
}

/// What comes of what a peer says in a session.
#[derive(Drop)]
pub enum PerformativeTaken<A, T, D> {
    /// An Attach was taken.
    Attach(AttachTaken<A>),
    /// A Flow was taken.
    Flow,
    /// A transfer was taken. A Flow of the session that it makes due is in there, and still to be sent.
    Transfer(TransferTaken<T>),
    /// This disposition was taken. These runs of deliveries, each its first and its last number, are to be echoed: a
    /// disposition is to go back for each (`amqp_session_core::echoes`).
    Disposition(Disposition, DeliveryRuns),
    /// A Detach was taken.
    Detach(DetachTaken<D>),
}

impl<R: LinkRelay> AskingSession<R> {
    /// Takes what the peer says in the session. What a Flow has leave is handed out; nothing else has frames leave, and
    /// `out` isn't touched then. What a Flow handed out, and what waits then, is what waited before and at most one
    /// frame more. A Flow of the session that a transfer makes due isn't handed out, but told with what was taken: it
    /// goes behind what the transfer's link wants sent.
    ///
    /// An Attach is refused as `on_incoming_attach` is, a Flow as `on_incoming_flow`, a Detach as `on_incoming_detach`,
    /// a transfer as `Session::on_incoming_transfer`, and a disposition with `Memory` alone. With `Memory` nothing
    /// changes; else nothing but the link that refused it does, and what a Flow says of the session.
    pub fn on_incoming(
        &mut self,
        alloc: Global,
        out: &mut VecDeque<SessionFrame>,
        said: LinkPerformative,
    ) -> Result<PerformativeTaken<R::Attached, R::Transferred, R::Detached>, SessionError>
        ensures step { Hears R.gives self.old out.old.items said result self.new out.new.items }
        ensures memory { result ≡ Err SessionError.Memory →
            (self.new ≡ self.old) × (out.new.items ≡ out.old.items) }
        ensures untouched { says_flow said ≡ false → out.new ≡ out.old }
        ensures frames_most { deque_len out.new + frames_in self.new.session.outgoing.queues ≤
            deque_len out.old + frames_in self.old.session.outgoing.queues + 1 }
        ensures frames_least { deque_len out.old + frames_in self.old.session.outgoing.queues ≤
            deque_len out.new + frames_in self.new.session.outgoing.queues }
        ensures capacity { deque_capacity out.old ≤ deque_capacity out.new }
        ensures kept_room { self.new.session.outgoing.room ≡ self.old.session.outgoing.room }
    {
        match said {
            LinkPerformative::Attach(attach, named) => self.hear_attach(alloc, attach, named),
            LinkPerformative::Flow(flow) => self.hear_flow(alloc, out, flow),
            LinkPerformative::Transfer(transfer, payload) => {
                self.hear_transfer(alloc, transfer, payload)
            }
            LinkPerformative::Disposition(disposition) => self.hear_disposition(alloc, disposition),
            LinkPerformative::Detach(detach) => self.hear_detach(alloc, &detach),
        }
    }

    /// Takes an Attach.
    fn hear_attach(
        &mut self,
        alloc: Global,
        attach: Boxed<Attach>,
        named: NamedLink,
    ) -> Result<PerformativeTaken<R::Attached, R::Transferred, R::Detached>, SessionError>
        ensures step { HearsAttach R.gives self.old attach named result self.new }
        ensures memory { result ≡ Err SessionError.Memory → self.new ≡ self.old }
        ensures waiting { KeepsWaiting self.old self.new }
    {
        match self.on_incoming_attach(alloc, attach, named) {
            Ok(told) => Ok(PerformativeTaken::Attach(told)),
            Err(error) => Err(error),
        }
    }

    /// Takes a Flow.
    fn hear_flow(
        &mut self,
        alloc: Global,
        out: &mut VecDeque<SessionFrame>,
        flow: Flow,
    ) -> Result<PerformativeTaken<R::Attached, R::Transferred, R::Detached>, SessionError>
        ensures step { HearsFlow R.gives self.old out.old.items flow result self.new out.new.items }
        ensures memory { result ≡ Err SessionError.Memory →
            (self.new ≡ self.old) × (out.new.items ≡ out.old.items) }
        ensures frames_most { deque_len out.new + frames_in self.new.session.outgoing.queues ≤
            deque_len out.old + frames_in self.old.session.outgoing.queues + 1 }
        ensures frames_least { deque_len out.old + frames_in self.old.session.outgoing.queues ≤
            deque_len out.new + frames_in self.new.session.outgoing.queues }
        ensures capacity { deque_capacity out.old ≤ deque_capacity out.new }
        ensures kept_room { self.new.session.outgoing.room ≡ self.old.session.outgoing.room }
    {
        match self.on_incoming_flow(alloc, out, flow) {
            Ok(()) => Ok(PerformativeTaken::Flow),
            Err(error) => Err(error),
        }
    }

    /// Takes a transfer.
    fn hear_transfer(
        &mut self,
        alloc: Global,
        transfer: Transfer,
        payload: Bytes,
    ) -> Result<PerformativeTaken<R::Attached, R::Transferred, R::Detached>, SessionError>
        ensures step { HearsTransfer R.gives self.old transfer payload result self.new }
        ensures memory { result ≡ Err SessionError.Memory → self.new ≡ self.old }
        ensures waiting { KeepsWaiting self.old self.new }
    {
        match self.session.on_incoming_transfer(alloc, transfer, payload) {
            Ok(told) => Ok(PerformativeTaken::Transfer(told)),
            Err(error) => Err(error),
        }
    }

    /// Takes a disposition, once there is room for it.
    fn hear_disposition(
        &mut self,
        alloc: Global,
        disposition: Disposition,
    ) -> Result<PerformativeTaken<R::Attached, R::Transferred, R::Detached>, SessionError>
        ensures step { HearsDisposition R.gives self.old disposition result self.new }
        ensures memory { result ≡ Err SessionError.Memory → self.new ≡ self.old }
        ensures waiting { KeepsWaiting self.old self.new }
    {
        let Ok(room) = self.session.reserve_disposition(alloc, &disposition) else {
            return Err(SessionError::Memory);
        };
        let runs = self.session.on_incoming_disposition(&disposition, room);
        Ok(PerformativeTaken::Disposition(disposition, runs))
    }

    /// Takes a Detach.
    fn hear_detach(
        &mut self,
        alloc: Global,
        detach: &Detach,
    ) -> Result<PerformativeTaken<R::Attached, R::Transferred, R::Detached>, SessionError>
        ensures step { HearsDetach R.gives self.old detach.now result self.new }
        ensures memory { result ≡ Err SessionError.Memory → self.new ≡ self.old }
        ensures waiting { KeepsWaiting self.old self.new }
    {
        match self.on_incoming_detach(alloc, detach) {
            Ok(told) => Ok(PerformativeTaken::Detach(told)),
            Err(error) => Err(error),
        }
    }
}

/// A session that the peer asks for, and that none here accepts yet, takes what the peer says in it (part 2, 2.5.1,
/// 2.6.3).
///
/// An Attach asks for a link, whatever link it names: no link is in the session. It is refused with `HandleInUse` where
/// an asked link has the handle (part 2, 2.8.17), with `IllegalState` where one has the name, and with `Memory`; a Flow
/// and a Detach as the session refuses them; and a transfer and a disposition with `UnattachedHandle`. Nothing changes
/// then.
pub fn hear_asked(session: &mut AskedSession, said: LinkPerformative) -> Result<(), SessionError>
    ensures step { HearsAsked session.old said result session.new }
    ensures kept { OnErr result (session.new ≡ session.old) }
{
    match said {
        LinkPerformative::Attach(attach, _) => ask_in_asked(session, attach),
        LinkPerformative::Flow(flow) => session.on_incoming_flow(flow),
        LinkPerformative::Detach(detach) => session.on_incoming_detach(&detach),
        LinkPerformative::Transfer(..) | LinkPerformative::Disposition(_) => {
            Err(SessionError::UnattachedHandle)
        }
    }
}

/// The peer asks for a link in a session that it asks for.
fn ask_in_asked(session: &mut AskedSession, attach: Boxed<Attach>) -> Result<(), SessionError>
    ensures step { AsksInAsked session.old attach result session.new }
    ensures kept { OnErr result (session.new ≡ session.old) }
{
    match session.on_incoming_attach(attach) {
        Ok(()) => Ok(()),
        Err(AskRefusal::HandleInUse) => Err(SessionError::HandleInUse),
        Err(AskRefusal::NameInUse) => Err(SessionError::IllegalState),
        Err(AskRefusal::Memory) => Err(SessionError::Memory),
    }
}

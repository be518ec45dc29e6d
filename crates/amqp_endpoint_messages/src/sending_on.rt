//! How a link sends its open messages on, once it has credit again (part 2, 2.6.7, 2.6.13, 2.7.5).
ghost use Rattle.std.specs.Prelude.{◌≡◌, ◌+◌, ◌≤◌, ◌<◌, ℕ, List, All, IfOk, IsSome, OnErr, OnOk, Some, length};
ghost use Rattle.std.specs.Vec.{vec_capacity, vec_len};
ghost use Rattle.std.specs.VecDeque.{deque_capacity, deque_len};
ghost use Rattle.amqp_session_outgoing.specs.Frames.{HaveTags};
ghost use Rattle.amqp_session_outgoing.specs.Queues.{frames_in, room_behind};
ghost use Rattle.amqp_link_sender.specs.declared.sending_on.PreparedSendOn.{PreparedSendOn};
ghost use Rattle.amqp_link.specs.GoingOn.{HasCreditFor};
ghost use Rattle.amqp_link.specs.declared.end.End.{End};
ghost use Rattle.amqp_endpoint_attached.specs.Linked.{end_in};
ghost use Rattle.amqp_endpoint_messages.specs.MadeReady.{HasPlaceToClose, MadeRoom};
ghost use Rattle.amqp_endpoint_messages.specs.SendingOn.{AreReadyOn, AreSentOn, CutsOn, DoesCredited};
ghost use Rattle.amqp_endpoint_messages.specs.SendingOn.{HasRoomToGoOn, IsOn, MayGoOn, TakesCredit, transfers_in};

use crate::cutting::on_handle;
use crate::giving_up::{Closing, close_for, make_room_to_send, stuck_by};
use crate::taking::hand_over;
use amqp_endpoint_attached::LinkSession;
use amqp_endpoint_links::Numbered;
use amqp_endpoint_model::Event;
use amqp_link::LinkEnd;
use amqp_link_sender::{PreparedSendOn, SplitRefusal, split};
use amqp_session_core::{Batch, Session};
use amqp_session_performatives::SessionFrame;
use amqp_session_types::OutputHandle;
use std::alloc::{AllocError, Global};
use std::collections::VecDeque;

/// The messages that a link sends on, made ready to be handed to its session.
#[derive(Drop)]
pub struct SendingOn {
    /// The transfers of each before the first for which no frame of the peer's has room, in their order.
    pub batches: VecDeque<Batch>,
    /// How many transfers these are in all.
    pub transfers: usize,
    /// Whether there are transfers of each.
    pub all_fit: bool,
}

/// What is made ready for a link before it takes a Flow by which it sends messages on.
#[derive(Drop)]
pub struct FlowReady {
    /// The messages that it sends on.
    pub sending: SendingOn,
    /// What it is closed with where it can't send all of them on.
    pub closing: Closing,
}

/// Messages that a link is to send on are made ready, before it takes the Flow by which it does, with what it is closed
/// with where it can't: their transfers in frames of at most `limit` bytes, and room for them, for the link's reply to
/// the Flow, and for its Detach. Of the session nothing changes but the room for transfers.
///
/// It is refused where there is no memory, and nothing changes then.
pub fn make_flow_ready(
    session: &mut LinkSession,
    alloc: Global,
    limit: u32,
    closing: Closing,
    ons: Vec<PreparedSendOn>,
    out: &mut VecDeque<SessionFrame>,
) -> Result<FlowReady, AllocError>
    requires place { HasPlaceToClose session.old closing }
    requires are { All IsOn ons.items }
    ensures closing { IfOk result (λ ready. ready.closing ≡ closing) }
    ensures ready { IfOk result (λ ready. AreReadyOn limit closing.handle ons.items ready.sending) }
    ensures tagged { IfOk result (λ ready. All HaveTags ready.sending.batches.items) }
    ensures sends { IfOk result (λ ready.
        HasRoomToGoOn ready 2 session.new (deque_len out.new) (deque_capacity out.new)) }
    ensures made { OnOk result (MadeRoom session.old session.new) }
    ensures kept { OnErr result (session.new ≡ session.old) }
    ensures out { out.new.items ≡ out.old.items }
{
    let sending = make_sending_on(alloc, limit, closing.handle, ons)?;
    make_room_to_send(&mut session.session, out, sending.transfers)?;
    Ok(FlowReady { sending, closing })
}

/// The transfers of these messages, in frames of at most `limit` bytes. It is refused where there is no memory.
pub(crate) fn make_sending_on(
    alloc: Global,
    limit: u32,
    handle: OutputHandle,
    ons: Vec<PreparedSendOn>,
) -> Result<SendingOn, AllocError>
    requires { All IsOn ons.items }
    ensures ready { IfOk result (AreReadyOn limit handle ons.items) }
    ensures tagged { IfOk result (λ sending. All HaveTags sending.batches.items) }
{
    let mut sending = SendingOn {
        batches: VecDeque::new(alloc),
        transfers: 0,
        all_fit: true,
    };
    let mut rest = ons.into_iter();
    while let Some(ready) = rest.next() {
        let cut = transfers_of(alloc, limit, handle, ready)?;
        let Some(batch) = cut else {
            sending.all_fit = false;
            return Ok(sending);
        };
        let transfers = sending
            .transfers
            .checked_add(batch.len())
            .ok_or(AllocError)?;
        sending.transfers = transfers;
        sending.batches.push_back(batch)?;
    }
    Ok(sending)
}

/// The transfers of this message, on the own handle of its link, where a frame of the peer's has room for a byte of it.
/// It is refused where there is no memory.
fn transfers_of(
    alloc: Global,
    limit: u32,
    handle: OutputHandle,
    ready: PreparedSendOn,
) -> Result<Option<Batch>, AllocError>
    requires { IsOn ready }
    ensures { IfOk result (CutsOn limit handle ready) }
{
    let PreparedSendOn { transfer, payload } = ready;
    let first = on_handle(handle, transfer);
    match split(alloc, Batch::new(alloc), first, payload, limit as usize) {
        Ok(batch) => Ok(Some(batch)),
        Err(SplitRefusal::NoRoom) => Ok(None),
        Err(SplitRefusal::Memory) => Err(AllocError),
    }
}

/// The link for which this was made ready, which has credit for it, sends its messages on, in their order. Where the peer
/// takes no frame for one of them, or its number is in use, the link is closed, as `close_for` does, with
/// `FrameTooLarge` or `NumberInUse` (part 2, 2.6.12, 2.6.13). It takes no memory.
pub fn send_on(
    session: &mut LinkSession,
    alloc: Global,
    ready: FlowReady,
    out: &mut VecDeque<SessionFrame>,
    events: &mut Vec<Event>,
)
    requires may { MayGoOn ready session.old }
    requires sends { HasRoomToGoOn ready 1 session.old (deque_len out.old) (deque_capacity out.old) }
    requires tells { vec_len events.old + (ready.closing.count + 1) ≤ vec_capacity events.old }
    ensures { (limit : ℕ) (ons : List PreparedSendOn) → AreReadyOn limit ready.closing.handle ons ready.sending →
        DoesCredited limit ready.closing.session ready.closing.count ready.closing.handle ready.closing.why ons
        session.old out.old.items events.old.items session.new out.new.items events.new.items }
{
    let FlowReady { sending, closing } = ready;
    let SendingOn {
        batches,
        all_fit,
        ..
    } = sending;
    let stopped = send_each(&mut session.session, alloc, closing.handle, batches, out);
    match stuck_by(stopped, all_fit) {
        Some(error) => close_for(session, alloc, closing, error, out, events),
        None => {}
    }
}

/// A session takes the transfers of the messages of the link with this own handle, in their order, and the link has sent
/// each on. It stops at one whose number is in use, and answers whether it did. There is room for all of them, and it
/// takes no memory.
fn send_each(
    session: &mut Session<Numbered<LinkEnd>>,
    alloc: Global,
    handle: OutputHandle,
    batches: VecDeque<Batch>,
    out: &mut VecDeque<SessionFrame>,
) -> bool
    requires credit { (link : End) × (end_in session.old handle ≡ Some link) × HasCreditFor (length batches.items) link }
    requires tagged { All HaveTags batches.items }
    requires room { transfers_in batches.items ≤ session.old.outgoing.room }
    requires spare { deque_len out.old + (frames_in session.old.outgoing.queues + session.old.outgoing.room) + 1
        ≤ deque_capacity out.old }
    ensures sent { AreSentOn handle batches.items session.old out.old.items result session.new out.new.items }
    ensures spare { deque_len out.new < deque_capacity out.new }
    ensures place { (most : ℕ) → 1 ≤ most → room_behind handle.0 1 session.old.outgoing.queues ≤ most →
        room_behind handle.0 1 session.new.outgoing.queues ≤ most }
    ensures there { IsSome (end_in session.new handle) }
{
    let mut batches = batches;
    while let Some(mut batch) = batches.pop_front() {
        if !hand_over(session, alloc, handle, &mut batch, out) {
            return true;
        }
        take_credit(session, handle);
    }
    false
}

/// The link with this own handle has sent the message on that goes on first.
fn take_credit(session: &mut Session<Numbered<LinkEnd>>, handle: OutputHandle)
    requires { (link : End) × (end_in session.old handle ≡ Some link) × HasCreditFor 1 link }
    ensures { TakesCredit handle session.old session.new }
{
    let Some(link) = session.link_mut(handle) else {
        unreachable!()
    };
    link.link.commit_send_on();
}

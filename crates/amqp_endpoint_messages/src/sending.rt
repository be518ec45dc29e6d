//! How a message is sent by a link of a session (part 2, 2.6.12, 2.7.5).
ghost use Rattle.std.specs.Prelude.{◌≡◌, ◌≢◌, ◌≤◌, ◌<◌, ◌^◌, length, Err, IfErr, IfOk, IsSome, OnErr, OnOk};
ghost use Rattle.std.specs.VecDeque.{deque_capacity};
ghost use Rattle.amqp_session_outgoing.specs.Frames.{HaveTags};
ghost use Rattle.amqp_session_core.specs.State.{link_at};
ghost use Rattle.amqp_session_core.specs.Told.{TransfersSent};
ghost use Rattle.amqp_endpoint_attached.specs.Linked.{end_in, gives};
ghost use Rattle.amqp_endpoint_messages.specs.Sending.{GoesOut, HandsOver, MaySend, RefusesNumbers, SendAnswered};
ghost use Rattle.amqp_endpoint_messages.specs.Sending.{StaysBehind, with_tag};

use crate::cutting::cut;
use crate::preparing::{commit_in, lower_room_in, prepare_in, room_for};
use crate::sending_at_once::send_at_once;
use amqp_endpoint_attached::LinkSession;
use amqp_endpoint_links::Numbered;
use amqp_endpoint_model::{EndpointError, Sending};
use amqp_link::LinkEnd;
use amqp_link_sender::{PreparedBatch, PreparedSend};
use amqp_session_core::{Batch, Session};
use amqp_session_performatives::SessionFrame;
use amqp_session_types::{DeliveryTag, OutputHandle, SessionError};
use std::alloc::Global;
use std::collections::VecDeque;

/// Sends a message by the sending link with this own handle, as a delivery with this tag, in frames of at most `limit`
/// bytes, and answers whether it went settled (part 2, 2.6.12, 2.7.5). The link takes one credit, and has the message
/// open unless it went settled; its session takes the transfers as one batch, of which what the peer's window allows is
/// handed out, and the rest waits. The message's bytes are shared, not copied.
///
/// It is refused, in this order, exactly where: `IllegalState`: no sending link that is attached has the handle, one of
/// the two Attach lists only a part of the unsettled deliveries, or a message with the tag is open; `MessageTooLarge`;
/// `CreditMissing`; `NumberInUse`: its delivery's number is that of an unsettled delivery, or of one that waits (part
/// 2, 2.8.6). `Memory` comes only where none of these holds. Nothing changes then. Where the tag has at most 32 bytes,
/// as any delivery's has, and the limit is one that a peer may set, it is never refused with `FrameTooLarge` (part 2,
/// 2.4.1, 2.8.7); else it may be where none of the others holds and a frame has no room for a byte of the message.
pub fn send(
    session: &mut LinkSession,
    alloc: Global,
    limit: u32,
    handle: OutputHandle,
    tag: DeliveryTag,
    message: &Sending,
    out: &mut VecDeque<SessionFrame>,
) -> Result<bool, EndpointError>
    ensures answer { SendAnswered session.old limit handle (with_tag tag message.now) result out.old.items session.new
        out.new.items }
    ensures kept { OnErr result ((session.new ≡ session.old) × (out.new.items ≡ out.old.items)) }
    ensures frame { 512 ≤ limit → length tag ≤ 32 → result ≢ Err EndpointError.FrameTooLarge }
    ensures asked { session.new.asked ≡ session.old.asked }
    ensures capacity { deque_capacity out.old ≤ deque_capacity out.new }
{
    match send_at_once(session, limit, handle, &tag, message, out) {
        Some(settled) => Ok(settled),
        None => send_cut(session, alloc, limit, handle, tag, message, out),
    }
}

/// The same, in the general way: the message is made ready, cut, and handed to its session as a batch.
#[inline(never)]
fn send_cut(
    session: &mut LinkSession,
    alloc: Global,
    limit: u32,
    handle: OutputHandle,
    tag: DeliveryTag,
    message: &Sending,
    out: &mut VecDeque<SessionFrame>,
) -> Result<bool, EndpointError>
    ensures answer { SendAnswered session.old limit handle (with_tag tag message.now) result out.old.items session.new
        out.new.items }
    ensures kept { OnErr result ((session.new ≡ session.old) × (out.new.items ≡ out.old.items)) }
    ensures frame { 512 ≤ limit → length tag ≤ 32 → result ≢ Err EndpointError.FrameTooLarge }
    ensures asked { session.new.asked ≡ session.old.asked }
    ensures capacity { deque_capacity out.old ≤ deque_capacity out.new }
{
    numbers_are_read(handle, message);
    let room = match room_for(&session.session, handle, &tag, message.payload.len()) {
        Ok(room) => room,
        Err(refused) => return Err(refused),
    };
    let Ok(ready) = prepare_in(&mut session.session, handle, tag, message) else {
        return Err(EndpointError::Memory);
    };
    match send_ready(&mut session.session, alloc, limit, handle, ready, out) {
        Ok(went) => Ok(went),
        Err(refused) => {
            lower_room_in(&mut session.session, handle, room);
            Err(refused)
        }
    }
}

/// The number of a handle, and that of a message's format, are those of a uint (part 2, 2.8.4, 2.8.11).
pub(crate) fn numbers_are_read(handle: OutputHandle, message: &Sending)
    ensures handle { handle.0 < 2 ^ 32 }
    ensures format { message.now.message_format < 2 ^ 32 }
{
    let _handle = handle.0;
    let _format = message.message_format;
}

/// A message that is ready is cut into transfers and handed to its session, and its link has sent it; answers whether
/// it went settled. The transfers stand in the memory of those that were sent before.
///
/// It is refused, in this order, with `FrameTooLarge`, with `NumberInUse` and with `Memory`. Nothing changes then.
fn send_ready(
    session: &mut Session<Numbered<LinkEnd>>,
    alloc: Global,
    limit: u32,
    handle: OutputHandle,
    ready: PreparedSend,
    out: &mut VecDeque<SessionFrame>,
) -> Result<bool, EndpointError>
    requires may { MaySend (end_in session.old handle) ready.entry }
    requires tagged { IsSome ready.transfer.delivery_tag }
    ensures ok { IfOk result (λ settled.
        GoesOut limit session.old handle ready settled out.old.items session.new out.new.items) }
    ensures err { IfErr result (StaysBehind limit session.old handle ready) }
    ensures kept { OnErr result ((session.new ≡ session.old) × (out.new.items ≡ out.old.items)) }
    ensures capacity { deque_capacity out.old ≤ deque_capacity out.new }
{
    let spare = session.take_batch(alloc);
    send_by(session, alloc, spare, limit, handle, ready, out)
}

/// The same, in the memory of `spare`.
fn send_by(
    session: &mut Session<Numbered<LinkEnd>>,
    alloc: Global,
    spare: Batch,
    limit: u32,
    handle: OutputHandle,
    ready: PreparedSend,
    out: &mut VecDeque<SessionFrame>,
) -> Result<bool, EndpointError>
    requires may { MaySend (end_in session.old handle) ready.entry }
    requires tagged { IsSome ready.transfer.delivery_tag }
    ensures ok { IfOk result (λ settled.
        GoesOut limit session.old handle ready settled out.old.items session.new out.new.items) }
    ensures err { IfErr result (StaysBehind limit session.old handle ready) }
    ensures kept { OnErr result ((session.new ≡ session.old) × (out.new.items ≡ out.old.items)) }
    ensures capacity { deque_capacity out.old ≤ deque_capacity out.new }
{
    let cut = match cut(alloc, spare, limit, handle, ready) {
        Ok(cut) => cut,
        Err(refused) => return Err(refused),
    };
    match hand_over(session, alloc, handle, cut, out) {
        Ok(went) => Ok(went),
        Err(untaken) => Err(untaken),
    }
}

/// A message that is cut is handed to its session, and its link has sent it; answers whether it went settled.
///
/// It is refused, in this order, with `NumberInUse` and with `Memory`. Nothing changes then.
fn hand_over(
    session: &mut Session<Numbered<LinkEnd>>,
    alloc: Global,
    handle: OutputHandle,
    cut: PreparedBatch,
    out: &mut VecDeque<SessionFrame>,
) -> Result<bool, EndpointError>
    requires may { MaySend (end_in session.old handle) cut.entry }
    requires tags { HaveTags cut.batch }
    ensures ok { IfOk result (λ settled.
        HandsOver session.old handle cut settled out.old.items session.new out.new.items) }
    ensures err { IfErr result (RefusesNumbers session.old cut.batch) }
    ensures kept { OnErr result ((session.new ≡ session.old) × (out.new.items ≡ out.old.items)) }
    ensures capacity { deque_capacity out.old ≤ deque_capacity out.new }
{
    let PreparedBatch { mut batch, entry } = cut;
    transfer(session, alloc, handle, &mut batch, out)?;
    session.give_batch_back(batch);
    let settled = entry.is_none();
    commit_in(session, handle, entry);
    Ok(settled)
}

/// The session takes the transfers of a link. It is refused, in this order, with `NumberInUse` and with `Memory`.
/// Nothing changes then.
fn transfer(
    session: &mut Session<Numbered<LinkEnd>>,
    alloc: Global,
    handle: OutputHandle,
    batch: &mut Batch,
    out: &mut VecDeque<SessionFrame>,
) -> Result<(), EndpointError>
    requires there { IsSome (link_at session.old handle.0) }
    requires tags { HaveTags batch.old }
    ensures ok { OnOk result
        (TransfersSent gives session.old out.old.items handle batch.old session.new out.new.items) }
    ensures err { IfErr result (RefusesNumbers session.old batch.old) }
    ensures kept { OnErr result ((session.new ≡ session.old) × (out.new.items ≡ out.old.items)) }
    ensures capacity { deque_capacity out.old ≤ deque_capacity out.new }
{
    match session.on_outgoing_transfer(alloc, out, handle, batch) {
        Ok(()) => Ok(()),
        Err(SessionError::NumberInUse) => Err(EndpointError::NumberInUse),
        Err(SessionError::Memory) => Err(EndpointError::Memory),
        Err(_) => unreachable!(),
    }
}

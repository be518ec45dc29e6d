//! How a session takes the transfers of a delivery for which there is room (part 2, 2.5.6, 2.8.6).
ghost use Rattle.std.specs.Prelude.{◌≡◌, ◌+◌, ◌≤◌, ℕ, IsSome, length};
ghost use Rattle.std.specs.VecDeque.{deque_capacity, deque_len};
ghost use Rattle.amqp_session_outgoing.specs.Frames.{HaveTags};
ghost use Rattle.amqp_session_outgoing.specs.Queues.{frames_in, room_behind};
ghost use Rattle.amqp_session_core.specs.State.{link_at};
ghost use Rattle.amqp_endpoint_messages.specs.GivingUp.{HandsOne};

use amqp_endpoint_links::Numbered;
use amqp_link::LinkEnd;
use amqp_session_core::{Batch, Session};
use amqp_session_performatives::SessionFrame;
use amqp_session_types::OutputHandle;
use std::alloc::Global;
use std::collections::VecDeque;

/// A session takes the transfers of a delivery, and answers whether it did: not where its number is in use (part 2,
/// 2.8.6). Nothing else is in the way: a link has the handle, the delivery has a tag, and there is room for them. It takes
/// no memory.
pub(crate) fn hand_over(
    session: &mut Session<Numbered<LinkEnd>>,
    alloc: Global,
    handle: OutputHandle,
    batch: &mut Batch,
    out: &mut VecDeque<SessionFrame>,
) -> bool
    requires there { IsSome (link_at session.old handle.0) }
    requires tagged { HaveTags batch.old }
    requires room { length batch.old ≤ session.old.outgoing.room }
    requires spare { deque_len out.old + (frames_in session.old.outgoing.queues + session.old.outgoing.room) + 1
        ≤ deque_capacity out.old }
    ensures handed { HandsOne handle batch.old session.old out.old.items result session.new out.new.items }
    ensures room { session.old.outgoing.room ≤ session.new.outgoing.room + length batch.old }
    ensures spare { deque_len out.new + (frames_in session.new.outgoing.queues + session.new.outgoing.room) + deque_capacity out.old
        ≤ deque_len out.old + (frames_in session.old.outgoing.queues + session.old.outgoing.room)
        + deque_capacity out.new }
    ensures place { (most : ℕ) → 1 ≤ most → room_behind handle.0 1 session.old.outgoing.queues ≤ most →
        room_behind handle.0 1 session.new.outgoing.queues ≤ most }
    ensures links { session.new.links ≡ session.old.links }
    ensures fields { session.new.fields ≡ session.old.fields }
{
    match session.on_outgoing_transfer(alloc, out, handle, batch) {
        Ok(()) => true,
        Err(_) => false,
    }
}

//! A message that is sent as one transfer, at once, where it fits in any frame of its link: beside the general way of
//! `send`, which makes it ready, cuts it, and hands its session a batch (part 2, 2.6.12 and 2.7.5).
ghost use Rattle.std.specs.Prelude.{◌≡◌, ◌≤◌, IfNone, IfOk, IfSome, IsTrue, None, false, true};
ghost use Rattle.std.specs.VecDeque.{deque_capacity};
ghost use Rattle.amqp_link_sender.specs.Sends.{entry_unless, new_message};
ghost use Rattle.amqp_endpoint_attached.specs.Linked.{end_in};
ghost use Rattle.amqp_endpoint_messages.specs.Sending.{MaySend, with_tag};
ghost use Rattle.amqp_endpoint_messages.specs.SendsAtOnce.{FitsAnyFrame, HandsAtOnce, ReadiesEnd, ReadiesIn};
ghost use Rattle.amqp_endpoint_messages.specs.SendsAtOnce.{SendsAtOnce};

use crate::preparing::{commit_in, lower_room_in};
use crate::sending::numbers_are_read;
use amqp_endpoint_attached::LinkSession;
use amqp_endpoint_links::Numbered;
use amqp_endpoint_model::Sending;
use amqp_link::{End, LinkEnd};
use amqp_link_sender::ReadyAtOnce;
use amqp_link_unsettled::Entry;
use amqp_session_core::Session;
use amqp_session_performatives::SessionFrame;
use amqp_session_types::{DeliveryTag, OutputHandle};
use std::alloc::AllocError;
use std::collections::VecDeque;

/// How many bytes a frame has besides a message's at most, where that is one transfer and the tag has at most 32 bytes.
const AROUND: usize = 128;

/// How many bytes the tag of a delivery has at most (part 2, 2.8.7).
const TAG: usize = 32;

/// Sends a message as one transfer, and answers whether it went settled, as `send` does.
///
/// It is None where the message doesn't fit in a frame of at most `limit` bytes whatever its transfer says, where it
/// can't leave at once, where something speaks against it, and where there is no memory. Nothing changes then: it is to
/// be sent in the general way.
pub(crate) fn send_at_once(
    session: &mut LinkSession,
    limit: u32,
    handle: OutputHandle,
    tag: &DeliveryTag,
    message: &Sending,
    out: &mut VecDeque<SessionFrame>,
) -> Option<bool>
    ensures answer { SendsAtOnce session.old limit handle (with_tag tag.now message.now) result
        out.old.items session.new out.new.items }
    ensures asked { session.new.asked ≡ session.old.asked }
    ensures capacity { deque_capacity out.old ≤ deque_capacity out.new }
{
    numbers_are_read(handle, message);
    if !fits(limit, tag, message) {
        return None;
    }
    if !session.session.lets_one_pass() {
        return None;
    }
    let Some(ready) = ready_in(&mut session.session, handle, tag, message) else {
        return None;
    };
    if !hand_over(
        &mut session.session,
        ready.settled,
        handle,
        tag,
        message,
        out,
    ) {
        lower_room_in(&mut session.session, handle, ready.room);
        return None;
    }
    Some(ready.settled)
}

/// The session takes a message as one transfer, and its link has sent it; says whether it did. Nothing changes where it
/// didn't.
fn hand_over(
    session: &mut Session<Numbered<LinkEnd>>,
    settled: bool,
    handle: OutputHandle,
    tag: &DeliveryTag,
    message: &Sending,
    out: &mut VecDeque<SessionFrame>,
) -> bool
    requires { MaySend (end_in session.old handle) (entry_unless settled tag.now message.now.message_format
        message.now.payload) }
    ensures handed { HandsAtOnce session.old handle (with_tag tag.now message.now) settled result out.old.items
        session.new out.new.items }
    ensures capacity { deque_capacity out.old ≤ deque_capacity out.new }
{
    if settled {
        return hand_settled(session, handle, tag, message, out);
    }
    hand_unsettled(session, handle, tag, message, out)
}

/// The same, of a message that goes settled.
fn hand_settled(
    session: &mut Session<Numbered<LinkEnd>>,
    handle: OutputHandle,
    tag: &DeliveryTag,
    message: &Sending,
    out: &mut VecDeque<SessionFrame>,
) -> bool
    requires { MaySend (end_in session.old handle) None }
    ensures handed { HandsAtOnce session.old handle (with_tag tag.now message.now) true result out.old.items
        session.new out.new.items }
    ensures capacity { deque_capacity out.old ≤ deque_capacity out.new }
{
    let format = message.message_format;
    if !session.sends_at_once(out, handle, tag, format, true, &message.payload) {
        return false;
    }
    commit_in(session, handle, None);
    true
}

/// The same, of one that goes unsettled, and is open from then on.
#[inline(never)]
fn hand_unsettled(
    session: &mut Session<Numbered<LinkEnd>>,
    handle: OutputHandle,
    tag: &DeliveryTag,
    message: &Sending,
    out: &mut VecDeque<SessionFrame>,
) -> bool
    requires { MaySend (end_in session.old handle) (entry_unless false tag.now message.now.message_format
        message.now.payload) }
    ensures handed { HandsAtOnce session.old handle (with_tag tag.now message.now) false result out.old.items
        session.new out.new.items }
    ensures capacity { deque_capacity out.old ≤ deque_capacity out.new }
{
    let Ok(entry) = entry_of(tag, message) else {
        return false;
    };
    let format = message.message_format;
    if !session.sends_at_once(out, handle, tag, format, false, &message.payload) {
        return false;
    }
    commit_in(session, handle, Some(entry));
    true
}

/// A message as it is open from then on.
fn entry_of(tag: &DeliveryTag, message: &Sending) -> Result<Entry, AllocError>
    ensures { IfOk result (λ e. e ≡ new_message tag.now message.now.message_format
        message.now.payload) }
{
    Entry::new(tag, message.payload.clone()?, message.message_format)
}

/// Whether a frame of at most so many bytes holds the message, whatever its transfer says.
fn fits(limit: u32, tag: &DeliveryTag, message: &Sending) -> bool
    ensures { IsTrue result → FitsAnyFrame limit (with_tag tag.now message.now) }
{
    let Some(room) = (limit as usize).checked_sub(AROUND) else {
        return false;
    };
    if tag.len() > TAG {
        return false;
    }
    message.payload.len() <= room
}

/// The sending link with this own handle makes room for a message, where nothing speaks against it.
fn ready_in(
    session: &mut Session<Numbered<LinkEnd>>,
    handle: OutputHandle,
    tag: &DeliveryTag,
    message: &Sending,
) -> Option<ReadyAtOnce>
    ensures some { IfSome result (λ ready.
        ReadiesIn session.old handle (with_tag tag.now message.now) ready session.new) }
    ensures none { IfNone result (session.new ≡ session.old) }
{
    let Some(link) = session.link_mut(handle) else {
        return None;
    };
    ready_end(&mut link.link, tag, message)
}

/// An end makes room for a message, where it sends and nothing speaks against it.
fn ready_end(link: &mut LinkEnd, tag: &DeliveryTag, message: &Sending) -> Option<ReadyAtOnce>
    ensures some { IfSome result (λ ready.
        ReadiesEnd link.old (with_tag tag.now message.now) ready link.new) }
    ensures none { IfNone result (link.new ≡ link.old) }
{
    match link.end_mut() {
        End::Sender(sender) => sender.ready_at_once(tag, message.payload.len(), message.settled),
        End::Receiver(_) => None,
    }
}

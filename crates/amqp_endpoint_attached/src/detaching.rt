//! How an endpoint detaches a link of a session, and answers the peer's Detach (part 2, 2.6.4 to 2.6.6).
ghost use Rattle.std.specs.Prelude.{◌≡◌, ◌≤◌, ◌<◌, true, IsSome, OnErr};
ghost use Rattle.std.specs.VecDeque.{deque_len, deque_capacity};
ghost use Rattle.amqp_session_outgoing.specs.Queues.{room_behind};
ghost use Rattle.amqp_session_core.specs.State.{link_at};
ghost use Rattle.amqp_link_base.specs.State.{is_attached};
ghost use Rattle.amqp_link_receiver.specs.Ending as receiver_ending;
ghost use Rattle.amqp_link_sender.specs.Ending as sender_ending;
ghost use Rattle.amqp_endpoint_attached.specs.Linked.{end_at, end_in};
ghost use Rattle.amqp_endpoint_attached.specs.Detaching.{detach_sent, is_there, own_detach};
ghost use Rattle.amqp_endpoint_attached.specs.Detaching.{DetachAnswered, DetachGiven, DetachReplied, DetachesIn};

use crate::sending::{LinkSession, room_for_frame, send_detach};
use amqp_endpoint_links::Numbered;
use amqp_endpoint_model::EndpointError;
use amqp_link::{End, LinkEnd};
use amqp_link_receiver::ReceiverLink;
use amqp_link_sender::SenderLink;
use amqp_session_core::{BehindFrame, Session};
use amqp_session_outgoing::Place;
use amqp_session_performatives::{Detach, SessionFrame};
use amqp_session_types::{Handle, OutputHandle, definitions};
use std::alloc::Global;
use std::collections::VecDeque;

/// Detaches the link with this own handle, or closes it, with this error or without: its own Detach is handed out, or
/// waits behind what the link has waiting (part 2, 2.6.5, 2.6.6). Where it closes a sending link, the messages of that
/// end without an outcome.
///
/// It is refused, in this order, with `IllegalState` exactly where no attached link has the handle, and with `Memory`.
/// Nothing changes then.
pub fn detach(
    session: &mut LinkSession,
    alloc: Global,
    handle: OutputHandle,
    closed: bool,
    error: Option<definitions::Error>,
    out: &mut VecDeque<SessionFrame>,
) -> Result<(), EndpointError>
    ensures answer { DetachAnswered session.old handle closed error result out.old.items session.new
        out.new.items }
    ensures kept { OnErr result ((session.new ≡ session.old) × (out.new.items ≡ out.old.items)) }
    ensures capacity { deque_capacity out.old ≤ deque_capacity out.new }
{
    if !is_there(&session.session, handle) {
        return Err(EndpointError::IllegalState);
    }
    let Ok(place) = room_for_frame(&session.session, alloc, handle, out) else {
        return Err(EndpointError::Memory);
    };
    detach_placed(session, handle, place, closed, error, out);
    Ok(())
}

/// Detaches the link with this own handle, which is attached, or closes it, as `detach` does, where there is room for
/// its Detach already. It takes no memory.
pub fn detach_placed(
    session: &mut LinkSession,
    handle: OutputHandle,
    place: Place<BehindFrame>,
    closed: bool,
    error: Option<definitions::Error>,
    out: &mut VecDeque<SessionFrame>,
)
    requires there { is_there (end_at session.old handle) ≡ true }
    requires place { room_behind handle.0 1 session.old.session.outgoing.queues ≤ place }
    requires spare { deque_len out.old < deque_capacity out.old }
    ensures given { DetachGiven session.old handle closed error out.old.items session.new
        out.new.items }
    ensures capacity { deque_capacity out.new ≡ deque_capacity out.old }
{
    detach_in(&mut session.session, handle, closed);
    let detach = own_detach(handle, closed, error);
    send_detach(&mut session.session, handle, place, detach, out);
}

/// Answers the Detach that the peer sent of the link with this own handle: the own one, which closes the link or
/// doesn't, is handed out, or waits behind what the link has waiting (part 2, 2.6.4). There is room for it, and the
/// link has taken the peer's: it stays as it is. It takes no memory.
pub fn answer_detach(
    session: &mut LinkSession,
    handle: OutputHandle,
    place: Place<BehindFrame>,
    closed: bool,
    error: Option<definitions::Error>,
    out: &mut VecDeque<SessionFrame>,
)
    requires there { IsSome (end_at session.old handle) }
    requires place { room_behind handle.0 1 session.old.session.outgoing.queues ≤ place }
    requires spare { deque_len out.old < deque_capacity out.old }
    ensures reply { DetachReplied session.old handle closed error out.old.items session.new
        out.new.items }
    ensures capacity { deque_capacity out.new ≡ deque_capacity out.old }
{
    let answer = own_detach(handle, closed, error);
    send_detach(&mut session.session, handle, place, answer, out);
}

/// Whether an attached link has this own handle.
fn is_there(session: &Session<Numbered<LinkEnd>>, handle: OutputHandle) -> bool
    ensures { result ≡ is_there (end_in session.now handle) }
{
    let Some(link) = session.link(handle) else {
        return false;
    };
    link.link.local_state().is_attached()
}

/// The own Detach of a link with this own handle.
fn own_detach(handle: OutputHandle, closed: bool, error: Option<definitions::Error>) -> Detach
    ensures { result ≡ own_detach handle closed error }
{
    Detach {
        handle: Handle(handle.0),
        closed,
        error,
    }
}

/// The attached link with this own handle sends its Detach.
fn detach_in(session: &mut Session<Numbered<LinkEnd>>, handle: OutputHandle, closed: bool)
    requires { is_there (end_in session.old handle) ≡ true }
    ensures detaches { DetachesIn session.old handle closed session.new }
    ensures there { IsSome (link_at session.new handle.0) }
    ensures outgoing { session.new.outgoing ≡ session.old.outgoing }
{
    let Some(link) = session.link_mut(handle) else {
        unreachable!()
    };
    detach_end(&mut link.link, closed);
}

/// An attached link sends its Detach.
fn detach_end(link: &mut LinkEnd, closed: bool)
    requires { is_there (Some link.old) ≡ true }
    ensures { detach_sent link.old closed ≡ Some link.new }
{
    match link.end_mut() {
        End::Sender(sender) => detach_sender(sender, closed),
        End::Receiver(receiver) => detach_receiver(receiver, closed),
    }
}

/// An attached sender sends its Detach.
fn detach_sender(sender: &mut SenderLink, closed: bool)
    requires { is_attached sender.old.base.local_state ≡ true }
    ensures { sender_ending.detach_sent sender.old closed ≡ Some sender.new }
{
    let Ok(()) = sender.send_detach(closed) else {
        unreachable!()
    };
}

/// An attached receiver sends its Detach.
fn detach_receiver(receiver: &mut ReceiverLink, closed: bool)
    requires { is_attached receiver.old.base.local_state ≡ true }
    ensures { receiver_ending.detach_sent receiver.old closed ≡ Some receiver.new }
{
    let Ok(()) = receiver.send_detach(closed) else {
        unreachable!()
    };
}

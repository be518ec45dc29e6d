//! The credit that an endpoint gives by a receiving link (part 2, 2.6.7).
ghost use Rattle.std.specs.Prelude.{◌≡◌, ◌≤◌, ◌<◌, ◌^◌, true, IsSome, OnErr};
ghost use Rattle.std.specs.VecDeque.{deque_capacity};
ghost use Rattle.amqp_session_core.specs.State.{link_at};
ghost use Rattle.amqp_link_base.specs.State.{is_attached};
ghost use Rattle.amqp_link_receiver.specs.Flowing.{credited, own_flow};
ghost use Rattle.amqp_endpoint_attached.specs.Linked.{end_in};
ghost use Rattle.amqp_endpoint_attached.specs.Receiving.{drained, is_receiving, DrainAnswered, DrainsIn, GivesCredit};
ghost use Rattle.amqp_endpoint_attached.specs.Receiving.{GivesIn, GrantAnswered, WantsDrain};

use crate::sending::{LinkSession, room_for_frame, send_flow};
use amqp_endpoint_links::Numbered;
use amqp_endpoint_model::EndpointError;
use amqp_link::{End, LinkEnd};
use amqp_link_receiver::{Granted, ReceiverLink};
use amqp_session_core::Session;
use amqp_session_performatives::{LinkFlow, SessionFrame};
use amqp_session_types::OutputHandle;
use std::alloc::Global;
use std::collections::VecDeque;

/// The largest credit that is given: what reaches further can't be told from what lies behind (part 2, 2.6.7).
const LARGEST_CREDIT: u32 = (1 << 31) - 1;

/// Gives this credit by the receiving link with this own handle, in place of what was left of the credit given before,
/// and answers what was left; no drain is wanted any more (part 2, 2.6.7). The Flow that shows it, without properties,
/// is handed out, or waits behind what the link has waiting.
///
/// It is refused, in this order, with `IllegalState` exactly where no attached receiving link has the handle, with
/// `CreditOutOfRange` exactly where the credit is more than 2^31 - 1, and with `Memory`. Nothing changes then.
pub fn grant(
    session: &mut LinkSession,
    alloc: Global,
    handle: OutputHandle,
    credit: u32,
    out: &mut VecDeque<SessionFrame>,
) -> Result<u32, EndpointError>
    ensures answer { GrantAnswered session.old handle credit result out.old.items session.new
        out.new.items }
    ensures kept { OnErr result ((session.new ≡ session.old) × (out.new.items ≡ out.old.items)) }
    ensures capacity { deque_capacity out.old ≤ deque_capacity out.new }
{
    if !is_receiving(&session.session, handle) {
        return Err(EndpointError::IllegalState);
    }
    if credit > LARGEST_CREDIT {
        return Err(EndpointError::CreditOutOfRange);
    }
    let Ok(place) = room_for_frame(&session.session, alloc, handle, out) else {
        return Err(EndpointError::Memory);
    };
    let Granted { left, flow } = give_in(&mut session.session, handle, credit);
    send_flow(&mut session.session, handle, place, flow, out);
    Ok(left)
}

/// Wants the credit used up that was given by the receiving link with this own handle (part 2, 2.6.7). The Flow that
/// shows it, without properties, is handed out, or waits behind what the link has waiting.
///
/// It is refused, in this order, with `IllegalState` exactly where no attached receiving link has the handle, and with
/// `Memory`. Nothing changes then.
pub fn drain(
    session: &mut LinkSession,
    alloc: Global,
    handle: OutputHandle,
    out: &mut VecDeque<SessionFrame>,
) -> Result<(), EndpointError>
    ensures answer { DrainAnswered session.old handle result out.old.items session.new
        out.new.items }
    ensures kept { OnErr result ((session.new ≡ session.old) × (out.new.items ≡ out.old.items)) }
    ensures capacity { deque_capacity out.old ≤ deque_capacity out.new }
{
    if !is_receiving(&session.session, handle) {
        return Err(EndpointError::IllegalState);
    }
    let Ok(place) = room_for_frame(&session.session, alloc, handle, out) else {
        return Err(EndpointError::Memory);
    };
    let flow = drain_in(&mut session.session, handle);
    send_flow(&mut session.session, handle, place, flow, out);
    Ok(())
}

/// Whether an attached receiving link has this own handle.
fn is_receiving(session: &Session<Numbered<LinkEnd>>, handle: OutputHandle) -> bool
    ensures { result ≡ is_receiving (end_in session.now handle) }
{
    let Some(link) = session.link(handle) else {
        return false;
    };
    is_receiving_end(&link.link)
}

/// Whether the end is that of an attached receiving link.
fn is_receiving_end(link: &LinkEnd) -> bool
    ensures { result ≡ is_receiving (Some link.now) }
{
    match link.end() {
        End::Sender(_) => false,
        End::Receiver(receiver) => receiver.local_state().is_attached(),
    }
}

/// The attached receiving link with this own handle is given this credit.
fn give_in(session: &mut Session<Numbered<LinkEnd>>, handle: OutputHandle, credit: u32) -> Granted
    requires there { is_receiving (end_in session.old handle) ≡ true }
    requires in_range { credit < 2 ^ 31 }
    ensures gives { GivesIn session.old handle credit result session.new }
    ensures there { IsSome (link_at session.new handle.0) }
    ensures outgoing { session.new.outgoing ≡ session.old.outgoing }
{
    let Some(link) = session.link_mut(handle) else {
        unreachable!()
    };
    give(&mut link.link, credit)
}

/// The credit of the attached receiving link with this own handle is to be used up.
fn drain_in(session: &mut Session<Numbered<LinkEnd>>, handle: OutputHandle) -> LinkFlow
    requires { is_receiving (end_in session.old handle) ≡ true }
    ensures drains { DrainsIn session.old handle result session.new }
    ensures there { IsSome (link_at session.new handle.0) }
    ensures outgoing { session.new.outgoing ≡ session.old.outgoing }
{
    let Some(link) = session.link_mut(handle) else {
        unreachable!()
    };
    want_drain(&mut link.link)
}

/// An attached receiving link gives this credit.
fn give(link: &mut LinkEnd, credit: u32) -> Granted
    requires there { is_receiving (Some link.old) ≡ true }
    requires in_range { credit < 2 ^ 31 }
    ensures { GivesCredit link.old credit result link.new }
{
    match link.end_mut() {
        End::Receiver(receiver) => give_by(receiver, credit),
        End::Sender(_) => unreachable!(),
    }
}

/// The credit of an attached receiving link is to be used up.
fn want_drain(link: &mut LinkEnd) -> LinkFlow
    requires { is_receiving (Some link.old) ≡ true }
    ensures { WantsDrain link.old result link.new }
{
    match link.end_mut() {
        End::Receiver(receiver) => drain_by(receiver),
        End::Sender(_) => unreachable!(),
    }
}

/// An attached receiver gives this credit.
fn give_by(receiver: &mut ReceiverLink, credit: u32) -> Granted
    requires attached { is_attached receiver.old.base.local_state ≡ true }
    requires in_range { credit < 2 ^ 31 }
    ensures told { result ≡ record {
      left = receiver.old.end.flow.link_credit;
      flow = own_flow (credited receiver.old credit);
    } }
    ensures moved { receiver.new ≡ credited receiver.old credit }
{
    let Ok(granted) = receiver.grant(credit) else {
        unreachable!()
    };
    granted
}

/// An attached receiver wants its credit used up.
fn drain_by(receiver: &mut ReceiverLink) -> LinkFlow
    requires { is_attached receiver.old.base.local_state ≡ true }
    ensures told { result ≡ own_flow (drained receiver.old) }
    ensures moved { receiver.new ≡ drained receiver.old }
{
    let Ok(flow) = receiver.drain() else {
        unreachable!()
    };
    flow
}

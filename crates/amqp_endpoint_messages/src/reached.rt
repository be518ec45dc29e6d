//! What a disposition of the peer ends (part 2, 2.6.12, 2.7.6; part 3, 3.4).
ghost use Rattle.std.specs.Prelude.{◌≡◌, ◌+◌, ◌≤◌, ◌<◌, ◌++◌, [], ◌∷◌, IfOk, None, length};
ghost use Rattle.std.specs.Vec.{vec_capacity, vec_len};
ghost use Rattle.amqp_session_core.specs.Disposing.{AreTouched};
ghost use Rattle.amqp_session_core.specs.State.{link_at};
ghost use Rattle.amqp_session_core.specs.Steps.{table_of};
ghost use Rattle.amqp_link_sender.specs.Results.{failure_error, send_result};
ghost use Rattle.amqp_endpoint_messages.specs.Reached.{behind_reached, end_behind, end_told, first_told, is_first};
ghost use Rattle.amqp_endpoint_messages.specs.Reached.{link_behind, link_told, next_told, reached_told, without_first};
ghost use Rattle.amqp_endpoint_messages.specs.Reached.{without_next};

use amqp_endpoint_attached::LinkSession;
use amqp_endpoint_links::Numbered;
use amqp_endpoint_model::{Event, Outcome as OutcomeEvent};
use amqp_link::{End, LinkEnd};
use amqp_link_sender::{SendResult, SenderLink};
use amqp_link_types::{LinkStateError, SendError};
use amqp_link_unsettled::{Failure, Resolution};
use amqp_session_core::{Session, Touched};
use amqp_session_performatives::Disposition;
use amqp_session_types::{DeliveryTag, OutputHandle};
use std::alloc::{AllocError, Global};

/// The unsettled deliveries that a disposition of the peer reaches, each once, in order from the first of its range
/// (part 2, 2.7.6). It is refused where there is no memory.
pub fn reached_by(
    session: &LinkSession,
    alloc: Global,
    disposition: &Disposition,
) -> Result<Vec<Touched>, AllocError>
    ensures { IfOk result (λ reached.
        AreTouched disposition.now (table_of disposition.now.role session.now.session) reached.items) }
{
    match session.session.touched(alloc, disposition) {
        Ok(reached) => Ok(reached),
        Err(_) => Err(AllocError),
    }
}

/// Tells what became of messages, once a disposition of the peer was taken that reached these deliveries (part 2,
/// 2.6.12, 2.7.6; part 3, 3.4): for each of them, in order, the sending link that has its handle tells the message that
/// ended first of those that it hasn't told yet, where that has the tag of the delivery. It takes no memory, and so
/// tells without the error with which the peer closed a link; no message ends so by a disposition. There must be room
/// for as many events.
pub fn tell_reached(session: &mut LinkSession, reached: &[Touched], events: &mut Vec<Event>)
    requires room { vec_len events.old + length reached.now ≤ vec_capacity events.old }
    ensures told { events.new.items ≡ events.old.items
        ++ reached_told session.old.session reached.now }
    ensures behind { session.new ≡ record session.old
        { session = behind_reached session.old.session reached.now } }
    ensures few { vec_len events.new ≤ vec_len events.old + length reached.now }
    ensures capacity { vec_capacity events.new ≡ vec_capacity events.old }
{
    tell_each(&mut session.session, reached, events);
}

/// The same of one delivery.
pub fn tell_reached_one(session: &mut LinkSession, reached: &Touched, events: &mut Vec<Event>)
    requires room { vec_len events.old < vec_capacity events.old }
    ensures told { events.new.items ≡ events.old.items
        ++ reached_told session.old.session (reached.now ∷ []) }
    ensures behind { session.new ≡ record session.old
        { session = behind_reached session.old.session (reached.now ∷ []) } }
{
    tell_one(&mut session.session, reached.handle, &reached.tag, events);
}

/// The same of the session alone.
fn tell_each(session: &mut Session<Numbered<LinkEnd>>, reached: &[Touched], events: &mut Vec<Event>)
    requires room { vec_len events.old + length reached.now ≤ vec_capacity events.old }
    ensures told { events.new.items ≡ events.old.items ++ reached_told session.old reached.now }
    ensures behind { session.new ≡ behind_reached session.old reached.now }
    ensures few { vec_len events.new ≤ vec_len events.old + length reached.now }
    ensures capacity { vec_capacity events.new ≡ vec_capacity events.old }
{
    for delivery in reached {
        tell_one(session, delivery.handle, &delivery.tag, events);
    }
}

/// The link with this own handle tells the message with this tag, if a link has it.
fn tell_one(
    session: &mut Session<Numbered<LinkEnd>>,
    handle: OutputHandle,
    tag: &DeliveryTag,
    events: &mut Vec<Event>,
)
    requires room { vec_len events.old < vec_capacity events.old }
    ensures told { events.new.items ≡ events.old.items ++ link_told tag.now (link_at session.old handle.0) }
    ensures behind { session.new
        ≡ link_behind session.old handle.0 tag.now (link_at session.old handle.0) }
    ensures few { vec_len events.new ≤ vec_len events.old + 1 }
    ensures capacity { vec_capacity events.new ≡ vec_capacity events.old }
{
    let Some(link) = session.link_mut(handle) else {
        return;
    };
    tell_first(link.number, tag, &mut link.link, events);
}

/// The end of the link with this number tells the message with this tag, where it sends.
fn tell_first(number: u64, tag: &DeliveryTag, link: &mut LinkEnd, events: &mut Vec<Event>)
    requires room { vec_len events.old < vec_capacity events.old }
    ensures told { events.new.items ≡ events.old.items ++ end_told number tag.now link.old }
    ensures behind { link.new ≡ end_behind tag.now link.old }
    ensures few { vec_len events.new ≤ vec_len events.old + 1 }
    ensures capacity { vec_capacity events.new ≡ vec_capacity events.old }
{
    match link.end_mut() {
        End::Sender(sender) => tell_first_of(number, tag, sender, events),
        End::Receiver(_) => {}
    }
}

/// The message that ended first of those that weren't told yet is told, if it has this tag.
fn tell_first_of(number: u64, tag: &DeliveryTag, sender: &mut SenderLink, events: &mut Vec<Event>)
    requires room { vec_len events.old < vec_capacity events.old }
    ensures told { events.new.items ≡ events.old.items
        ++ first_told number tag.now sender.old.messages.resolved }
    ensures behind { sender.new ≡ without_first tag.now sender.old }
    ensures few { vec_len events.new ≤ vec_len events.old + 1 }
    ensures capacity { vec_capacity events.new ≡ vec_capacity events.old }
{
    if is_first(tag, sender) {
        tell_next(number, sender, events);
        return;
    }
}

/// Whether of the messages that ended and weren't told yet the first has this tag.
#[tactic(auto, using(crate::proofs::Firsts::first_tested, crate::proofs::Firsts::none_tested))]
fn is_first(tag: &DeliveryTag, sender: &SenderLink) -> bool
    ensures { result ≡ is_first tag.now sender.now.messages.resolved }
{
    match sender.first_resolved() {
        Some(first) => *tag == first.0,
        None => false,
    }
}

/// The message that ended first of those that weren't told yet is told, if there is one.
fn tell_next(number: u64, sender: &mut SenderLink, events: &mut Vec<Event>)
    requires room { vec_len events.old < vec_capacity events.old }
    ensures told { events.new.items ≡ events.old.items
        ++ next_told number sender.old.messages.resolved }
    ensures behind { sender.new ≡ without_next sender.old }
    ensures few { vec_len events.new ≤ vec_len events.old + 1 }
    ensures capacity { vec_capacity events.new ≡ vec_capacity events.old }
{
    let Some((tag, resolution)) = sender.take_resolved() else {
        return;
    };
    events.push_reserved(Event::Outcome(OutcomeEvent {
        link: number,
        tag,
        result: result_of(resolution),
    }));
}

/// What became of a message, as its sender is told without the error with which the peer closed the link.
fn result_of(resolution: Resolution) -> SendResult
    ensures { result ≡ send_result None resolution }
{
    match resolution {
        Resolution::Outcome(outcome) => Ok(outcome),
        Resolution::NoState => Err(SendError::IllegalDeliveryState),
        Resolution::NotTerminal => Err(SendError::NonTerminalDeliveryState),
        Resolution::Aborted => Err(SendError::LinkStateError(LinkStateError::IllegalState)),
        Resolution::Failed(why) => Err(SendError::LinkStateError(error_of(why))),
    }
}

/// Why a link that is gone left a message without an outcome.
fn error_of(why: Failure) -> LinkStateError
    ensures { result ≡ failure_error None why }
{
    match why {
        Failure::Closed => LinkStateError::IllegalState,
        Failure::RemoteClosed | Failure::RemoteClosedWithError => LinkStateError::RemoteClosed,
    }
}

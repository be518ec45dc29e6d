//! What is told of the messages of a link that ends (part 2, 2.6.6, 2.6.12; part 3, 3.4).
ghost use Rattle.std.specs.Prelude.{◌≡◌, ◌+◌, ◌≤◌, ◌<◌, ◌++◌, IsSome, Option, Some, drop, take};
ghost use Rattle.std.specs.Vec.{vec_capacity, vec_len};
ghost use Rattle.amqp_session_types.specs.declared.error.Error.{Error};
ghost use Rattle.amqp_session_core.specs.State.{link_at};
ghost use Rattle.amqp_link_sender.specs.Results.{closed_with, failure_error, send_result};
ghost use Rattle.amqp_endpoint_attached.specs.Linked.{end_at};
ghost use Rattle.amqp_endpoint_messages.specs.All.{AreCopies, TellsFirst, TellsIn, all_told, behind_told, first_told};
ghost use Rattle.amqp_endpoint_messages.specs.All.{open_count, told_by, with_ended};
ghost use Rattle.amqp_endpoint_messages.specs.Told.{outcome_told};

use amqp_endpoint_attached::LinkSession;
use amqp_endpoint_links::Numbered;
use amqp_endpoint_model::{Event, Outcome};
use amqp_link::{End, LinkEnd};
use amqp_link_sender::{SendResult, SenderLink};
use amqp_link_types::{LinkStateError, SendError};
use amqp_link_unsettled::{Failure, Resolution};
use amqp_session_core::Session;
use amqp_session_types::{DeliveryTag, OutputHandle, definitions};

/// How many messages of the link are open: of a receiving link none.
pub fn open_count(link: &LinkEnd) -> usize
    ensures { result ≡ open_count (Some link.now) }
{
    match link.end() {
        End::Sender(sender) => sender.unsettled_len(),
        End::Receiver(_) => 0,
    }
}

/// How many messages are open of the link of the session with this own handle: none where no link has it.
pub fn open_in(session: &LinkSession, handle: OutputHandle) -> usize
    ensures { result ≡ open_count (end_at session.now handle) }
{
    match session.session.link(handle) {
        Some(link) => open_count(&link.link),
        None => 0,
    }
}

/// Tells of so many of the messages that ended, and that the sending link with this own handle hasn't told of yet, in
/// the order in which they ended; of fewer where there are no more (part 2, 2.6.12; part 3, 3.4). The link forgets what
/// it told of. Of a receiving link, and where no link has the handle, nothing is told.
///
/// There is room for what is told, and copies of the error with which the peer closed the link, if it did with one: for
/// each message one. So it takes no memory.
pub fn tell_first(
    session: &mut LinkSession,
    handle: OutputHandle,
    count: usize,
    copies: Vec<definitions::Error>,
    events: &mut Vec<Event>,
)
    requires { vec_len events.old + count ≤ vec_capacity events.old }
    ensures tells { TellsFirst count handle (link_at session.old.session handle.0) session.old
        session.new }
    ensures told { (error : Option Error) → AreCopies error count copies.items →
        events.new.items ≡ events.old.items ++ first_told count error (link_at session.old.session handle.0) }
    ensures few { vec_len events.new ≤ vec_len events.old + count }
    ensures capacity { vec_capacity events.new ≡ vec_capacity events.old }
    ensures there { IsSome (end_at session.old handle) → IsSome (end_at session.new handle) }
    ensures waiting { session.new.session.outgoing ≡ session.old.session.outgoing }
    ensures fields { session.new.session.fields ≡ session.old.session.fields }
{
    tell_in(&mut session.session, handle, count, copies, events);
}

/// Likewise of the link with this own handle.
fn tell_in(
    session: &mut Session<Numbered<LinkEnd>>,
    handle: OutputHandle,
    count: usize,
    copies: Vec<definitions::Error>,
    events: &mut Vec<Event>,
)
    requires { vec_len events.old + count ≤ vec_capacity events.old }
    ensures tells { TellsIn count handle (link_at session.old handle.0) session.old session.new }
    ensures told { (error : Option Error) → AreCopies error count copies.items →
        events.new.items ≡ events.old.items ++ first_told count error (link_at session.old handle.0) }
    ensures few { vec_len events.new ≤ vec_len events.old + count }
    ensures capacity { vec_capacity events.new ≡ vec_capacity events.old }
{
    let Some(link) = session.link_mut(handle) else {
        return;
    };
    let number = link.number;
    tell_by(&mut link.link, number, count, copies, events);
}

/// Likewise of a link, which bears this number. A link that is in no session is told of so, too.
pub fn tell_by(
    link: &mut LinkEnd,
    number: u64,
    count: usize,
    copies: Vec<definitions::Error>,
    events: &mut Vec<Event>,
)
    requires { vec_len events.old + count ≤ vec_capacity events.old }
    ensures tells { link.new ≡ behind_told count link.old }
    ensures told { (error : Option Error) → AreCopies error count copies.items →
        events.new.items ≡ events.old.items ++ told_by number error count link.old }
    ensures few { vec_len events.new ≤ vec_len events.old + count }
    ensures capacity { vec_capacity events.new ≡ vec_capacity events.old }
{
    match link.end_mut() {
        End::Sender(sender) => tell_each(sender, number, count, copies, events),
        End::Receiver(_) => {}
    }
}

/// Tells of so many messages of a sending link.
fn tell_each(
    sender: &mut SenderLink,
    number: u64,
    count: usize,
    copies: Vec<definitions::Error>,
    events: &mut Vec<Event>,
)
    requires { vec_len events.old + count ≤ vec_capacity events.old }
    ensures tells { sender.new ≡ with_ended sender.old (drop count sender.old.messages.resolved) }
    ensures told { (error : Option Error) → AreCopies error count copies.items →
        events.new.items ≡ events.old.items ++ all_told number error (take count sender.old.messages.resolved) }
    ensures few { vec_len events.new ≤ vec_len events.old + count }
    ensures capacity { vec_capacity events.new ≡ vec_capacity events.old }
{
    let mut each = copies.into_iter();
    let mut left = count;
    while left > 0 {
        let Some((tag, resolution)) = sender.take_resolved() else {
            return;
        };
        let became = result_of(resolution, each.next());
        tell(number, tag, became, events);
        left -= 1;
    }
}

/// Tells of a message. There is room for it.
fn tell(link: u64, tag: DeliveryTag, became: SendResult, events: &mut Vec<Event>)
    requires { vec_len events.old < vec_capacity events.old }
    ensures told { events.new.items ≡ events.old.items ++ outcome_told link tag became }
    ensures len { vec_len events.new ≡ vec_len events.old + 1 }
    ensures capacity { vec_capacity events.new ≡ vec_capacity events.old }
{
    events.push_reserved(Event::Outcome(Outcome {
        link,
        tag,
        result: became,
    }));
}

/// What became of a message, as its sender is told it: by the error with which the peer closed the link, if it did with
/// one (part 3, 3.4). It takes no memory.
fn result_of(resolution: Resolution, error: Option<definitions::Error>) -> SendResult
    ensures { result ≡ send_result error resolution }
{
    match resolution {
        Resolution::Outcome(outcome) => Ok(outcome),
        Resolution::NoState => Err(SendError::IllegalDeliveryState),
        Resolution::NotTerminal => Err(SendError::NonTerminalDeliveryState),
        Resolution::Aborted => Err(SendError::LinkStateError(LinkStateError::IllegalState)),
        Resolution::Failed(why) => Err(SendError::LinkStateError(failure_error(why, error))),
    }
}

/// Why a link that is gone leaves a message without an outcome.
fn failure_error(why: Failure, error: Option<definitions::Error>) -> LinkStateError
    ensures { result ≡ failure_error error why }
{
    match why {
        Failure::Closed => LinkStateError::IllegalState,
        Failure::RemoteClosed => LinkStateError::RemoteClosed,
        Failure::RemoteClosedWithError => closed_with(error),
    }
}

/// That the peer closed the link, with this error or without one.
fn closed_with(error: Option<definitions::Error>) -> LinkStateError
    ensures { result ≡ closed_with error }
{
    match error {
        Some(error) => LinkStateError::RemoteClosedWithError(error),
        None => LinkStateError::RemoteClosed,
    }
}

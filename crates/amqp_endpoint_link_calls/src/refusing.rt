//! Why messages aren't disposed of, by their numbers (part 2, 2.6.12, 2.7.6).
ghost use Rattle.std.specs.Prelude.{◌≡◌, [], length, Some, Ok};
ghost use Rattle.amqp_link.specs.declared.end.End.TheVariants.{Receiver};
ghost use Rattle.amqp_endpoint_tables.specs.LinkState.{place_at};
ghost use Rattle.amqp_endpoint_tables.specs.State.{live_at};
ghost use Rattle.amqp_endpoint_attached.specs.Receiving.{is_receiving};
ghost use Rattle.amqp_endpoint_link_calls.specs.Places.{end_live};
ghost use Rattle.amqp_endpoint_link_calls.specs.Keeping.{one_keeps};
ghost use Rattle.amqp_endpoint_link_calls.specs.Refusing.{disposable_behind, error_of, first_refused, is_among};
ghost use Rattle.amqp_endpoint_link_calls.specs.Refusing.{message_fits, of_none_kept, refusal_by, refusal_of};
ghost use Rattle.amqp_endpoint_link_calls.specs.Refusing.{said_at, said_of, tag_fits, too_large_or_memory};
ghost use Rattle.amqp_endpoint_link_calls.specs.Refusing.{while_attached};

use crate::LinkTalk;
use crate::keeping::one_keeps;
use amqp_endpoint_messages::{delivery_fits, is_receiving};
use amqp_endpoint_model::{Disposal, EndpointError};
use amqp_endpoint_tables::{LinkPlace, Links};
use amqp_link::{End, LinkEnd};
use amqp_link_receiver::{Disposable, DisposeRefusal, ReceiverLink};
use amqp_session_types::{DeliveryTag, OutputHandle};

/// What these messages of the link with this number are refused with for what they are, if they are. It takes no
/// memory; it takes time by the number of messages, times that of the deliveries that the link keeps and that of the
/// messages.
pub(crate) fn refusal_of(
    talk: &LinkTalk,
    links: &Links<LinkEnd>,
    given: u64,
    link: u64,
    messages: &[u64],
) -> Option<EndpointError>
    ensures { result ≡ refusal_of talk.now links.now given link messages.now }
{
    match said_at(talk, links, link, messages) {
        Err(why) => Some(why),
        Ok(refused) => refusal_by(talk, links, given, refused),
    }
}

/// Likewise where the link says this of the messages.
fn refusal_by(
    talk: &LinkTalk,
    links: &Links<LinkEnd>,
    given: u64,
    refused: Option<(u64, DisposeRefusal)>,
) -> Option<EndpointError>
    ensures { result ≡ refusal_by talk.now links.now given (Ok refused) }
{
    let Some(refused) = refused else {
        return None;
    };
    Some(error_of(talk, links, given, refused))
}

/// Whether the Disposition that would tell the state of the message fits the limit, where the link with this own handle
/// in the session with this number keeps the message (part 2, 2.4.1, 2.7.6). It takes no memory.
pub(crate) fn fits_in(
    talk: &LinkTalk,
    limit: u32,
    session: u64,
    handle: OutputHandle,
    message: u64,
    disposal: &Disposal,
) -> bool
    ensures { result ≡ message_fits limit (end_live (live_at talk.now.sessions session) handle) message
        disposal.now }
{
    let Some(session) = talk.sessions.live(session) else {
        return true;
    };
    match session.session.link(handle) {
        Some(link) => fits_by(&link.link, limit, message, disposal),
        None => true,
    }
}

/// Likewise of this link.
fn fits_by(end: &LinkEnd, limit: u32, message: u64, disposal: &Disposal) -> bool
    ensures { result ≡ message_fits limit (Some end.now) message disposal.now }
{
    match end.end() {
        End::Receiver(receiver) => fits_of(receiver, limit, message, disposal),
        End::Sender(_) => true,
    }
}

/// Likewise of this receiving link.
fn fits_of(receiver: &ReceiverLink, limit: u32, message: u64, disposal: &Disposal) -> bool
    ensures { result ≡ message_fits limit (Some (Receiver receiver.now)) message disposal.now }
{
    let Some(tag) = receiver.tag_of(message) else {
        return true;
    };
    tag_fits(receiver, limit, tag, disposal)
}

/// Whether the Disposition that would tell the state of the delivery with this tag fits the limit, where the receiving
/// link can dispose of it. It takes no memory.
fn tag_fits(receiver: &ReceiverLink, limit: u32, tag: &DeliveryTag, disposal: &Disposal) -> bool
    ensures { result ≡ tag_fits limit (Some (Receiver receiver.now)) (Some tag.now) disposal.now }
{
    match receiver.disposable(tag) {
        Ok(delivery) => delivery_fits(
            limit,
            receiver,
            &delivery,
            &disposal.state,
            disposal.settled,
        ),
        Err(_) => true,
    }
}

/// What is left to refuse messages that can be disposed of.
pub(crate) fn too_large_or_memory(error: EndpointError) -> EndpointError
    ensures { result ≡ too_large_or_memory error }
{
    match &error {
        EndpointError::FrameTooLarge => EndpointError::FrameTooLarge,
        _ => EndpointError::Memory,
    }
}

/// What a message that can't be disposed of is refused with.
fn error_of(
    talk: &LinkTalk,
    links: &Links<LinkEnd>,
    given: u64,
    refused: (u64, DisposeRefusal),
) -> EndpointError
    ensures { result ≡ error_of talk.now links.now given refused }
{
    let (message, why) = refused;
    match why {
        DisposeRefusal::NotKept => of_none_kept(talk, links, given, message),
        DisposeRefusal::AlreadyDisposed => EndpointError::AlreadyDisposed,
        DisposeRefusal::NotAssociated => EndpointError::NotAssociated,
    }
}

/// What a message that its link doesn't keep is refused with.
fn of_none_kept(talk: &LinkTalk, links: &Links<LinkEnd>, given: u64, message: u64) -> EndpointError
    ensures { result ≡ of_none_kept given
        (one_keeps talk.now links.now (length links.now.links) message) message }
{
    if given <= message {
        return EndpointError::UnknownMessage;
    }
    if one_keeps(talk, links, message) {
        return EndpointError::UnknownMessage;
    }
    EndpointError::AlreadyDisposed
}

/// What the link with this number says of the messages.
fn said_at(
    talk: &LinkTalk,
    links: &Links<LinkEnd>,
    link: u64,
    messages: &[u64],
) -> Result<Option<(u64, DisposeRefusal)>, EndpointError>
    ensures { result ≡ said_at talk.now (place_at links.now link) messages.now }
{
    let Some(place) = links.place(link) else {
        return Err(EndpointError::UnknownLink);
    };
    match place {
        LinkPlace::Held { session, handle } => said_in(talk, *session, *handle, messages),
        LinkPlace::AtRest(end) => said_of(end, false, messages),
    }
}

/// What the link with this own handle in the session with this number says of the messages.
fn said_in(
    talk: &LinkTalk,
    session: u64,
    handle: OutputHandle,
    messages: &[u64],
) -> Result<Option<(u64, DisposeRefusal)>, EndpointError>
    ensures { result ≡ said_of (end_live (live_at talk.now.sessions session) handle)
        (is_receiving (end_live (live_at talk.now.sessions session) handle)) messages.now }
{
    let Some(session) = talk.sessions.live(session) else {
        return Err(EndpointError::IllegalState);
    };
    let attached = is_receiving(&session.session, handle);
    match session.session.link(handle) {
        Some(link) => said_of(&link.link, attached, messages),
        None => Err(EndpointError::IllegalState),
    }
}

/// What a link, attached or not, says of the messages.
fn said_of(
    end: &LinkEnd,
    attached: bool,
    messages: &[u64],
) -> Result<Option<(u64, DisposeRefusal)>, EndpointError>
    ensures { result ≡ said_of (Some end.now) attached messages.now }
{
    match end.end() {
        End::Receiver(receiver) => Ok(first_refused(receiver, attached, messages)),
        End::Sender(_) => Err(EndpointError::IllegalState),
    }
}

/// The first of the messages that can't be disposed of, and why it can't.
fn first_refused(
    receiver: &ReceiverLink,
    attached: bool,
    messages: &[u64],
) -> Option<(u64, DisposeRefusal)>
    ensures { result ≡ first_refused receiver.now attached [] messages.now }
{
    let mut at = 0;
    while at < messages.len() {
        let (before, _) = messages.split_at(at);
        let message = messages[at];
        if let Err(why) = disposable_behind(receiver, attached, before, message) {
            return Some((message, why));
        }
        at += 1;
    }
    None
}

/// What a message is disposed of by, behind those that are named before it.
fn disposable_behind(
    receiver: &ReceiverLink,
    attached: bool,
    before: &[u64],
    message: u64,
) -> Result<Disposable, DisposeRefusal>
    ensures { result ≡ disposable_behind receiver.now attached before.now message }
{
    if is_among(message, before) {
        return Err(DisposeRefusal::AlreadyDisposed);
    }
    let Some(tag) = receiver.tag_of(message) else {
        return Err(DisposeRefusal::NotKept);
    };
    while_attached(attached, receiver.disposable(tag))
}

/// What a delivery is disposed of by, which has a number only while its link is attached.
fn while_attached(
    attached: bool,
    said: Result<Disposable, DisposeRefusal>,
) -> Result<Disposable, DisposeRefusal>
    ensures { result ≡ while_attached attached said }
{
    match said {
        Ok(delivery) => {
            if attached {
                return Ok(delivery);
            }
            Err(DisposeRefusal::NotAssociated)
        }
        Err(why) => Err(why),
    }
}

/// Whether the message is among these.
fn is_among(message: u64, before: &[u64]) -> bool
    ensures { result ≡ is_among message before.now }
{
    let mut rest = before;
    while let Some((first, others)) = rest.split_first() {
        if *first == message {
            return true;
        }
        rest = others;
    }
    false
}

//! Which messages an endpoint's links keep, by the numbers that the endpoint gave them (part 2, 2.6.12).
ghost use Rattle.std.specs.Prelude.{◌≡◌, ◌+◌, ◌<◌, ◌≤◌, ◌++◌, is_some, length, Some, IfOk};
ghost use Rattle.std.specs.Option.{option_to_list};
ghost use Rattle.std.specs.Vec.{vec_capacity, vec_len};
ghost use Rattle.amqp_link_receiver.specs.Numbering.{tag_of};
ghost use Rattle.amqp_endpoint_tables.specs.LinkState.{place_at};
ghost use Rattle.amqp_endpoint_tables.specs.State.{live_at};
ghost use Rattle.amqp_endpoint_link_calls.specs.Places.{end_live, end_of};
ghost use Rattle.amqp_endpoint_link_calls.specs.Keeping.{keeps, kept_tag, kept_tags, one_keeps};

use crate::LinkTalk;
use amqp_endpoint_tables::{LinkPlace, Links};
use amqp_link::{End, LinkEnd};
use amqp_link_receiver::ReceiverLink;
use amqp_session_types::{DeliveryTag, OutputHandle};
use std::alloc::{AllocError, Global};

/// Whether a link of the endpoint keeps the message. It takes time by the number of links, and of what they keep.
pub(crate) fn one_keeps(talk: &LinkTalk, links: &Links<LinkEnd>, message: u64) -> bool
    ensures { result ≡ one_keeps talk.now links.now (length links.now.links) message }
{
    for number in 0..links.next_number() {
        if keeps_at(talk, links, number, message) {
            return true;
        }
    }
    false
}

/// Whether the link with this number keeps the message, in its session or at rest.
fn keeps_at(talk: &LinkTalk, links: &Links<LinkEnd>, number: u64, message: u64) -> bool
    ensures { result ≡ keeps (end_of talk.now (place_at links.now number)) message }
{
    let Some(place) = links.place(number) else {
        return false;
    };
    match place {
        LinkPlace::Held { session, handle } => keeps_in(talk, *session, *handle, message),
        LinkPlace::AtRest(end) => keeps(end, message),
    }
}

/// Whether the link with this own handle in the session with this number keeps the message.
fn keeps_in(talk: &LinkTalk, session: u64, handle: OutputHandle, message: u64) -> bool
    ensures { result ≡ keeps (end_live (live_at talk.now.sessions session) handle) message }
{
    let Some(session) = talk.sessions.live(session) else {
        return false;
    };
    match session.session.link(handle) {
        Some(link) => keeps(&link.link, message),
        None => false,
    }
}

/// Whether the link keeps the message.
fn keeps(end: &LinkEnd, message: u64) -> bool
    ensures { result ≡ keeps (Some end.now) message }
{
    match end.end() {
        End::Receiver(receiver) => keeps_message(receiver, message),
        End::Sender(_) => false,
    }
}

/// Whether the receiving link keeps the message.
fn keeps_message(receiver: &ReceiverLink, message: u64) -> bool
    ensures { result ≡ is_some (tag_of receiver.now.end.unsettled message) }
{
    let Some(_) = receiver.tag_of(message) else {
        return false;
    };
    true
}

/// The tag of the message, where the link with this own handle in the session with this number keeps it. It is refused
/// where there is no memory for it.
pub(crate) fn tag_in(
    talk: &LinkTalk,
    session: u64,
    handle: OutputHandle,
    message: u64,
) -> Result<Option<DeliveryTag>, AllocError>
    ensures { IfOk result (λ tag. tag ≡ kept_tag
        (end_live (live_at talk.now.sessions session) handle) message) }
{
    let Some(session) = talk.sessions.live(session) else {
        return Ok(None);
    };
    match session.session.link(handle) {
        Some(link) => tag_by(&link.link, message),
        None => Ok(None),
    }
}

/// The tag of the message, where the link keeps it.
fn tag_by(end: &LinkEnd, message: u64) -> Result<Option<DeliveryTag>, AllocError>
    ensures { IfOk result (λ tag. tag ≡ kept_tag (Some end.now) message) }
{
    match end.end() {
        End::Receiver(receiver) => tag_of(receiver, message),
        End::Sender(_) => Ok(None),
    }
}

/// A copy of the tag of the message, where the receiving link keeps it.
fn tag_of(receiver: &ReceiverLink, message: u64) -> Result<Option<DeliveryTag>, AllocError>
    ensures { IfOk result (λ tag. tag ≡ tag_of receiver.now.end.unsettled message) }
{
    match receiver.tag_of(message) {
        Some(tag) => Ok(Some(tag.clone()?)),
        None => Ok(None),
    }
}

/// The tags of those of the messages that the link with this own handle in the session with this number keeps, in their
/// order. It is refused where there is no memory for them.
pub(crate) fn tags_in(
    talk: &LinkTalk,
    alloc: Global,
    session: u64,
    handle: OutputHandle,
    messages: &[u64],
) -> Result<Vec<DeliveryTag>, AllocError>
    ensures { IfOk result (λ tags.
        tags.items ≡ kept_tags (end_live (live_at talk.now.sessions session) handle) messages.now) }
{
    let mut tags = Vec::with_capacity(alloc, messages.len())?;
    let mut rest = messages;
    while let Some((message, others)) = rest.split_first() {
        let tag = tag_in(talk, session, handle, *message)?;
        push_if(&mut tags, tag);
        rest = others;
    }
    Ok(tags)
}

/// A tag, if there is one, behind those that are listed. There is room for it.
fn push_if(tags: &mut Vec<DeliveryTag>, tag: Option<DeliveryTag>)
    requires { vec_len tags.old < vec_capacity tags.old }
    ensures tags { tags.new.items ≡ tags.old.items ++ option_to_list tag }
    ensures len { vec_len tags.new ≤ vec_len tags.old + 1 }
    ensures capacity { vec_capacity tags.new ≡ vec_capacity tags.old }
{
    if let Some(tag) = tag {
        tags.push_reserved(tag);
    }
}

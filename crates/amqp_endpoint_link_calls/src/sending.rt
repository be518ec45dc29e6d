//! How a message is sent by a link, by its number (part 2, 2.6.12, 2.7.5).
ghost use Rattle.std.specs.Prelude.{◌≡◌, ◌≢◌, ◌≤◌, length, Err, IfErr, IfOk, OnErr};
ghost use Rattle.amqp_endpoint_tables.specs.LinkState.{place_at};
ghost use Rattle.amqp_endpoint_tables.specs.State.{live_at};
ghost use Rattle.amqp_endpoint_messages.specs.Sending.{with_tag};
ghost use Rattle.amqp_endpoint_conversation.specs.Going.{Goes, Rests};
ghost use Rattle.amqp_endpoint_link_calls.specs.Calling.{DoneAt, DoneIn};
ghost use Rattle.amqp_endpoint_link_calls.specs.Sending.{BarsSend, BarsSendIn, refusal_at, refusal_live, sends};

use crate::{LinkTalk, holder};
use amqp_endpoint_fitting::frames_are_read;
use amqp_endpoint_messages as messages;
use amqp_endpoint_model::{EndpointError, Sending};
use amqp_endpoint_tables::{LinkPlace, Links};
use amqp_link::LinkEnd;
use amqp_session_performatives::SessionFrame;
use amqp_session_types::{DeliveryTag, OutputHandle};
use std::alloc::Global;
use std::collections::VecDeque;

/// Sends a message by the sending link with this number, as a delivery with this tag, and answers whether it went
/// settled (part 2, 2.6.12, 2.7.5). The link takes one credit, and has the message open unless it went settled. Its
/// session takes the transfers as one batch, all of them or none: what the peer's window allows is handed out, and the
/// rest waits. Each of them fits the peer's limit, whatever number the delivery gets (part 2, 2.4.1). The message's
/// bytes are shared, not copied.
///
/// It is refused, in this order, with `UnknownLink` exactly where no link has the number; with `IllegalState` exactly
/// where the link is at rest, isn't attached in its session, or receives, where one of the two Attach lists only a part
/// of the unsettled deliveries, or where a message with the tag is open; with `MessageTooLarge` exactly where the
/// message is larger than the link takes (part 2, 2.7.3), or has 2^32 bytes or more; with `CreditMissing` exactly where
/// the link has no credit (part 2, 2.6.7); with `NumberInUse` exactly where the delivery's number is that of an
/// unsettled delivery, or of one that waits (part 2, 2.8.6). `Memory` comes only where none of these holds. Nothing
/// changes then. It is never refused with `FrameTooLarge` where the tag has at most 32 bytes, as any delivery's has,
/// and the limit is one that a peer may set (part 2, 2.4.1, 2.8.7).
pub fn send(
    talk: &mut LinkTalk,
    alloc: Global,
    links: &Links<LinkEnd>,
    limit: u32,
    link: u64,
    tag: DeliveryTag,
    message: &Sending,
    out: &mut VecDeque<SessionFrame>,
) -> Result<bool, EndpointError>
    ensures ok { IfOk result (λ settled. DoneAt (sends limit tag message.now settled) (place_at links.now link) talk.old
        out.old.items talk.new out.new.items) }
    ensures err { IfErr result (BarsSend limit talk.old (place_at links.now link) tag message.now) }
    ensures frame { 512 ≤ limit → length tag ≤ 32 → result ≢ Err EndpointError.FrameTooLarge }
    ensures kept { OnErr result ((talk.new ≡ talk.old) × (out.new.items ≡ out.old.items)) }
    ensures goes { Goes limit talk.old talk.new out.old.items out.new.items }
    ensures rests { Rests talk.old talk.new out.old.items out.new.items }
{
    let (session, handle) = holder(links, link)?;
    let from = out.len();
    let sent = send_in(talk, alloc, session, handle, limit, tag, message, out);
    frames_are_read(out, from);
    sent
}

/// Why no message with this tag and so many bytes is sent by the link with this number, if one isn't: the first that
/// holds of what `send` tests. It takes no memory, and asks for none.
pub fn send_refusal(
    talk: &LinkTalk,
    links: &Links<LinkEnd>,
    link: u64,
    tag: &DeliveryTag,
    size: usize,
) -> Option<EndpointError>
    ensures { result ≡ refusal_at talk.now (place_at links.now link) tag.now size }
{
    let Some(place) = links.place(link) else {
        return Some(EndpointError::UnknownLink);
    };
    match place {
        LinkPlace::Held { session, handle } => refusal_in(talk, *session, *handle, tag, size),
        LinkPlace::AtRest(_) => Some(EndpointError::IllegalState),
    }
}

/// Why none is sent by the link with this own handle in the session with this number, if one isn't.
fn refusal_in(
    talk: &LinkTalk,
    session: u64,
    handle: OutputHandle,
    tag: &DeliveryTag,
    size: usize,
) -> Option<EndpointError>
    ensures { result ≡ refusal_live (live_at talk.now.sessions session) handle tag.now size }
{
    let Some(session) = talk.sessions.live(session) else {
        return Some(EndpointError::IllegalState);
    };
    messages::send_refusal(&session.session, handle, tag, size)
}

/// A message is sent by the link with this own handle in the session with this number, as a delivery with this tag.
fn send_in(
    talk: &mut LinkTalk,
    alloc: Global,
    session: u64,
    handle: OutputHandle,
    limit: u32,
    tag: DeliveryTag,
    message: &Sending,
    out: &mut VecDeque<SessionFrame>,
) -> Result<bool, EndpointError>
    ensures ok { IfOk result (λ settled. DoneIn (sends limit tag message.now settled) session handle talk.old
        out.old.items talk.new out.new.items) }
    ensures err { IfErr result
        (BarsSendIn limit (live_at talk.old.sessions session) handle (with_tag tag message.now)) }
    ensures frame { 512 ≤ limit → length tag ≤ 32 → result ≢ Err EndpointError.FrameTooLarge }
    ensures kept { OnErr result ((talk.new ≡ talk.old) × (out.new.items ≡ out.old.items)) }
{
    let Some(session) = talk.sessions.live_mut(session) else {
        return Err(EndpointError::IllegalState);
    };
    messages::send(session, alloc, limit, handle, tag, message, out)
}

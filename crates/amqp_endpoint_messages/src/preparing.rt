//! What a link does where a message is sent by it (part 2, 2.6.7, 2.6.12).
ghost use Rattle.std.specs.Prelude.{◌≡◌, None, Some, IfOk, IfErr, OnErr, OnOk, IsSome, length};
ghost use Rattle.amqp_session_core.specs.State.{link_at};
ghost use Rattle.amqp_link_sender.specs.Sends.{sent};
ghost use Rattle.amqp_endpoint_attached.specs.Linked.{end_in};
ghost use Rattle.amqp_endpoint_messages.specs.Sending.{Commits, HasRoom, IsReady, Lowers, MaySend, Readies, ReadiesIn};
ghost use Rattle.amqp_endpoint_messages.specs.Sending.{RefusesByLink, link_refusal, lowered, refusal_of, sent_by};
ghost use Rattle.amqp_endpoint_messages.specs.Sending.{send_refusal, with_tag};

use amqp_endpoint_links::Numbered;
use amqp_endpoint_model::{EndpointError, Sending};
use amqp_link::{End, LinkEnd};
use amqp_link_sender::{PreparedSend, SendRefusal, SenderLink};
use amqp_link_unsettled::Entry;
use amqp_session_core::Session;
use amqp_session_types::{DeliveryTag, OutputHandle};
use bytes::Bytes;
use std::alloc::AllocError;

/// Why no message with this tag and so many bytes is sent by the link with this own handle, if one isn't. It takes no
/// memory, and asks for none.
///
/// The first that holds: `IllegalState`: no sending link that is attached has the handle, one of the two Attach lists
/// only a part of the unsettled deliveries, or a message with the tag is open; `MessageTooLarge` (part 2, 2.7.3);
/// `CreditMissing` (part 2, 2.6.7); `NumberInUse`: the number that the next delivery gets is that of an unsettled one,
/// or of one that waits (part 2, 2.8.6).
pub fn send_refusal(
    session: &Session<Numbered<LinkEnd>>,
    handle: OutputHandle,
    tag: &DeliveryTag,
    size: usize,
) -> Option<EndpointError>
    ensures { result ≡ send_refusal session.now handle tag.now size }
{
    match room_for(session, handle, tag, size) {
        Ok(_) => None,
        Err(refusal) => Some(refusal),
    }
}

/// For how many messages the sending link with this own handle has room, where nothing speaks against one with this tag
/// and so many bytes. It is refused as `send_refusal` says.
pub(crate) fn room_for(
    session: &Session<Numbered<LinkEnd>>,
    handle: OutputHandle,
    tag: &DeliveryTag,
    size: usize,
) -> Result<usize, EndpointError>
    ensures ok { IfOk result (HasRoom (end_in session.now handle) tag.now size) }
    ensures none { OnOk result (send_refusal session.now handle tag.now size ≡ None) }
    ensures err { IfErr result (λ e. send_refusal session.now handle tag.now size ≡ Some e) }
{
    let room = match room_in(session, handle, tag, size) {
        Ok(room) => room,
        Err(refusal) => return Err(refusal_of(refusal)),
    };
    if session.has_free_number() {
        return Ok(room);
    }
    Err(EndpointError::NumberInUse)
}

/// For how many messages the sending link with this own handle has room, where nothing speaks at the link against one
/// with this tag and so many bytes.
///
/// It is refused with `IllegalState` where no sending link has the handle, and then with the first of the link's
/// reasons that holds; never with `Memory`.
fn room_in(
    session: &Session<Numbered<LinkEnd>>,
    handle: OutputHandle,
    tag: &DeliveryTag,
    size: usize,
) -> Result<usize, SendRefusal>
    ensures ok { IfOk result (HasRoom (end_in session.now handle) tag.now size) }
    ensures err { IfErr result (λ e. link_refusal (end_in session.now handle) tag.now size ≡ Some e) }
{
    let Some(link) = session.link(handle) else {
        return Err(SendRefusal::IllegalState);
    };
    room_of(&link.link, tag, size)
}

/// For how many messages an end has room, where it sends and nothing speaks against one with this tag and so many
/// bytes.
fn room_of(link: &LinkEnd, tag: &DeliveryTag, size: usize) -> Result<usize, SendRefusal>
    ensures ok { IfOk result (HasRoom (Some link.now) tag.now size) }
    ensures err { IfErr result (λ e. link_refusal (Some link.now) tag.now size ≡ Some e) }
{
    match link.end() {
        End::Sender(sender) => match sender.refusal(tag, size) {
            Some(refusal) => Err(refusal),
            None => Ok(sender.room()),
        },
        End::Receiver(_) => Err(SendRefusal::IllegalState),
    }
}

/// The sending link with this own handle makes a message ready to which nothing speaks against it, and room for it. The
/// message's bytes are shared, not copied. It is refused where there is no memory; nothing changes then.
pub(crate) fn prepare_in(
    session: &mut Session<Numbered<LinkEnd>>,
    handle: OutputHandle,
    tag: DeliveryTag,
    message: &Sending,
) -> Result<PreparedSend, AllocError>
    requires { link_refusal (end_in session.old handle) tag (length message.now.payload) ≡ None }
    ensures ok { IfOk result (λ ready.
        ReadiesIn session.old handle (with_tag tag message.now) ready session.new) }
    ensures kept { OnErr result (session.new ≡ session.old) }
{
    let payload = message.payload.clone()?;
    match make_ready(
        session,
        handle,
        tag,
        message.message_format,
        payload,
        message.settled,
    ) {
        Ok(ready) => Ok(ready),
        Err(_) => Err(AllocError),
    }
}

/// The sending link with this own handle makes a message ready, and room for it.
///
/// It is refused with `IllegalState` where no sending link has the handle, and then with what the link refuses it for.
/// Nothing changes then.
fn make_ready(
    session: &mut Session<Numbered<LinkEnd>>,
    handle: OutputHandle,
    tag: DeliveryTag,
    message_format: u32,
    payload: Bytes,
    settled: Option<bool>,
) -> Result<PreparedSend, SendRefusal>
    ensures ok { IfOk result (λ ready. ReadiesIn session.old handle
        (record { tag = tag; format = message_format; payload = payload; settled = settled }) ready session.new) }
    ensures err { IfErr result (RefusesByLink (end_in session.old handle)
        (record { tag = tag; format = message_format; payload = payload; settled = settled })) }
    ensures kept { OnErr result (session.new ≡ session.old) }
{
    let Some(link) = session.link_mut(handle) else {
        return Err(SendRefusal::IllegalState);
    };
    prepare_end(&mut link.link, tag, message_format, payload, settled)
}

/// An end makes a message ready, and room for it, where it sends.
fn prepare_end(
    link: &mut LinkEnd,
    tag: DeliveryTag,
    message_format: u32,
    payload: Bytes,
    settled: Option<bool>,
) -> Result<PreparedSend, SendRefusal>
    ensures ok { IfOk result (λ ready. Readies link.old
        (record { tag = tag; format = message_format; payload = payload; settled = settled }) ready link.new) }
    ensures err { IfErr result (RefusesByLink (Some link.old)
        (record { tag = tag; format = message_format; payload = payload; settled = settled })) }
    ensures kept { OnErr result (link.new ≡ link.old) }
{
    match link.end_mut() {
        End::Sender(sender) => sender.prepare_send(tag, message_format, payload, settled),
        End::Receiver(_) => Err(SendRefusal::IllegalState),
    }
}

/// The endpoint's refusal for that of a link.
fn refusal_of(refusal: SendRefusal) -> EndpointError
    ensures { result ≡ refusal_of refusal }
{
    match refusal {
        SendRefusal::IllegalState => EndpointError::IllegalState,
        SendRefusal::MessageTooLarge => EndpointError::MessageTooLarge,
        SendRefusal::CreditMissing => EndpointError::CreditMissing,
        SendRefusal::Memory => EndpointError::Memory,
    }
}

/// The link with this own handle keeps room for so many messages at most, where it sends. It takes no memory.
pub(crate) fn lower_room_in(
    session: &mut Session<Numbered<LinkEnd>>,
    handle: OutputHandle,
    room: usize,
)
    requires { IsSome (link_at session.old handle.0) }
    ensures { Lowers session.old handle room session.new }
{
    let Some(link) = session.link_mut(handle) else {
        unreachable!()
    };
    lower_room(&mut link.link, room);
}

/// An end keeps room for so many messages at most, where it sends.
fn lower_room(link: &mut LinkEnd, room: usize)
    ensures { link.new ≡ lowered link.old room }
{
    match link.end_mut() {
        End::Sender(sender) => sender.lower_room(room),
        End::Receiver(_) => {}
    }
}

/// The sending link with this own handle has sent a message: it takes one credit, and has the message open unless it
/// went settled. It takes no memory.
pub(crate) fn commit_in(
    session: &mut Session<Numbered<LinkEnd>>,
    handle: OutputHandle,
    entry: Option<Entry>,
)
    requires { MaySend (end_in session.old handle) entry }
    ensures { Commits session.old handle entry session.new }
{
    let Some(link) = session.link_mut(handle) else {
        unreachable!()
    };
    commit_end(&mut link.link, entry);
}

/// An end that sends has sent a message.
fn commit_end(link: &mut LinkEnd, entry: Option<Entry>)
    requires { MaySend (Some link.old) entry }
    ensures { link.new ≡ sent_by link.old entry }
{
    match link.end_mut() {
        End::Sender(sender) => commit_by(sender, entry),
        End::Receiver(_) => unreachable!(),
    }
}

/// A sender has sent a message.
fn commit_by(sender: &mut SenderLink, entry: Option<Entry>)
    requires { IsReady sender.old entry }
    ensures { sender.new ≡ sent sender.old entry }
{
    sender.commit_send(entry);
}

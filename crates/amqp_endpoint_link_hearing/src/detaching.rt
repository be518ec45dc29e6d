//! The peer's Detach (part 2, 2.6.4 to 2.6.6, 2.7.7).
ghost use Rattle.std.specs.Prelude.{◌≡◌, ◌+◌, ◌<◌, ◌≤◌, ◌++◌, IfErr, IfOk, IsSome, OnErr, OnOk, Some};
ghost use Rattle.std.specs.Vec.{vec_capacity, vec_len};
ghost use Rattle.std.specs.VecDeque.{deque_capacity, deque_len};
ghost use Rattle.amqp_endpoint_links.specs.declared.hearing.LinkPerformative.TheVariants as said;
ghost use Rattle.amqp_endpoint_model.specs.Relay.{IsSessionFault};
ghost use Rattle.amqp_endpoint_conversation.specs.Going.{Goes, Rests};
ghost use Rattle.amqp_endpoint_attached.specs.Linked.{end_at};
ghost use Rattle.amqp_endpoint_messages.specs.All.{AreCopies};
ghost use Rattle.amqp_endpoint_linking.specs.Handed.{Tells};
ghost use Rattle.amqp_endpoint_tables.specs.State.{live_at};
ghost use Rattle.amqp_endpoint_linking.specs.Linking.{Session};
ghost use Rattle.amqp_endpoint_link_hearing.specs.Detaching.{HearsDetach, detached_told, ending};
ghost use Rattle.amqp_endpoint_link_hearing.specs.Leaves.{LeavesBy, LinkLeaves, Prepares, ReadyFor, StandsFor};
ghost use Rattle.amqp_endpoint_link_hearing.specs.Leaves.{told_most};
ghost use Rattle.amqp_endpoint_link_hearing.specs.Leaving.{HasAnswer};
ghost use Rattle.amqp_endpoint_link_hearing.specs.Naming.{link_of};
ghost use Rattle.amqp_endpoint_link_hearing.specs.Saying.{RefusesSaid};

use crate::hearing::detach_of;
use crate::leaving::{Answer, leave, part, repeated};
use crate::naming::number_of;
use crate::refusing::refuse;
use amqp_endpoint_attached::LinkSession;
use amqp_endpoint_conversation::Conversation;
use amqp_endpoint_links::{LinkPerformative, Numbered};
use amqp_endpoint_messages::open_count;
use amqp_endpoint_model::{Detached as DetachedEvent, EndpointError, Event};
use amqp_endpoint_tables::Links;
use amqp_link::LinkEnd;
use amqp_link_base::Detached;
use amqp_session_performatives::{Detach, SessionFrame};
use amqp_session_types::{IncomingChannel, InputHandle, OutputHandle, definitions};
use std::alloc::{AllocError, Global};
use std::collections::VecDeque;

/// What is made ready for a link that the peer detaches, before the link knows of it.
#[derive(Drop)]
struct Ready {
    /// Its own handle.
    handle: OutputHandle,
    /// The answer to the peer's Detach.
    answer: Answer,
    /// The error of that, for what is told.
    error: Option<definitions::Error>,
    /// How many messages of it end.
    count: usize,
    /// The error once more for each of them, where there is one.
    copies: Vec<definitions::Error>,
}

/// Takes the peer's Detach in the session that its channel reaches (part 2, 2.6.4 to 2.6.6, 2.7.7). The link that the
/// peer's handle reaches is answered, where its own Detach hadn't gone, by one that closes it as the peer's does: it
/// is handed out, or waits behind what the link has waiting, and repeats the peer's error where a frame of `limit` bytes
/// holds it. The link leaves its session, where nothing of it waits there, and is at rest; where either end closed
/// it, it is unknown from then on. `Detached` is told, and behind it, where the peer closes a sending link, the
/// `Outcome` of each of its open messages, in the order in which they were sent: that the peer closed the link, with a
/// copy of the error or without one. A link that the peer asks for is asked for no longer, and nothing is told; nor is
/// it in a session that is ending. A session that refuses it ends by its fault: its End is handed out, its links are
/// given back, and `Refused` is told.
///
/// It ends the connection with `Connection` of `NotFound` where the channel reaches no session, with `Session` where
/// one refuses it that the peer asks for, and with `Memory`. Nothing is handed out or told then, and no link is given
/// back; nor does a session change, but that where there is no memory one that has begun may have refused it.
pub fn hear_detach(
    talk: &mut Conversation<Numbered<LinkEnd>>,
    links: &mut Links<LinkEnd>,
    alloc: Global,
    limit: u32,
    channel: IncomingChannel,
    detach: Detach,
    out: &mut VecDeque<SessionFrame>,
    events: &mut Vec<Event>,
) -> Result<(), EndpointError>
    ensures ok { OnOk result
        (Tells (λ frames told. HearsDetach talk.old links.old limit channel detach frames told talk.new links.new)
        out.old.items events.old.items out.new.items events.new.items) }
    ensures err { IfErr result (λ e.
        IsSessionFault e × RefusesSaid talk.old channel (said.Detach detach) e talk.new) }
    ensures kept { OnErr result ((links.new ≡ links.old) × (out.new.items ≡ out.old.items)
        × (events.new.items ≡ events.old.items)) }
    ensures goes { 512 ≤ limit → Goes limit talk.old talk.new out.old.items out.new.items }
    ensures rests { Rests talk.old talk.new out.old.items out.new.items }
{
    let ready = make_ready(talk, alloc, limit, channel, &detach)?;
    make_room(&ready, events)?;
    out.reserve(1)?;
    take_detach(
        talk, links, alloc, limit, channel, detach, ready, out, events,
    )?;
    Ok(())
}

/// Makes room for what is told at most. It is refused where there is no memory.
fn make_room(ready: &Option<Ready>, events: &mut Vec<Event>) -> Result<(), AllocError>
    ensures items { events.new.items ≡ events.old.items }
    ensures room { OnOk result (vec_len events.new + told_most ready.now
        ≤ vec_capacity events.new) }
{
    let count = count_of(ready);
    let Some(most) = count.checked_add(1) else {
        return Err(AllocError);
    };
    match events.reserve(most) {
        Ok(()) => Ok(()),
        Err(_) => Err(AllocError),
    }
}

/// How many messages end.
fn count_of(ready: &Option<Ready>) -> usize
    ensures { result + 1 ≡ told_most ready.now }
{
    match ready {
        Some(ready) => ready.count,
        None => 0,
    }
}

/// Takes it. There is room for what it tells, and for its answer.
#[inline(never)]
fn take_detach(
    talk: &mut Conversation<Numbered<LinkEnd>>,
    links: &mut Links<LinkEnd>,
    alloc: Global,
    limit: u32,
    channel: IncomingChannel,
    detach: Detach,
    ready: Option<Ready>,
    out: &mut VecDeque<SessionFrame>,
    events: &mut Vec<Event>,
) -> Result<(), EndpointError>
    requires ready { Prepares limit talk.old channel detach ready }
    requires spare { deque_len out.old < deque_capacity out.old }
    requires room { vec_len events.old + told_most ready ≤ vec_capacity events.old }
    ensures ok { OnOk result
        (Tells (λ frames told. HearsDetach talk.old links.old limit channel detach frames told talk.new links.new)
        out.old.items events.old.items out.new.items events.new.items) }
    ensures err { IfErr result (λ e.
        IsSessionFault e × RefusesSaid talk.old channel (said.Detach detach) e talk.new) }
    ensures kept { OnErr result ((links.new ≡ links.old) × (out.new.items ≡ out.old.items)
        × (events.new.items ≡ events.old.items)) }
    ensures goes { 512 ≤ limit → Goes limit talk.old talk.new out.old.items out.new.items }
    ensures rests { Rests talk.old talk.new out.old.items out.new.items }
{
    let said = LinkPerformative::Detach(detach);
    match amqp_endpoint_conversation::hear(talk, alloc, out, channel, said) {
        Ok(heard) => {
            let took = detach_of(heard);
            detach_heard(talk, links, limit, took, ready, out, events);
            Ok(())
        }
        Err(refusal) => match refuse(links, refusal, events) {
            Ok(()) => Ok(()),
            Err(error) => Err(error),
        },
    }
}

/// The Detach was heard, and this link took it, if one did. There is room for what is told.
fn detach_heard(
    talk: &mut Conversation<Numbered<LinkEnd>>,
    links: &mut Links<LinkEnd>,
    limit: u32,
    took: Option<(u64, Detached)>,
    ready: Option<Ready>,
    out: &mut VecDeque<SessionFrame>,
    events: &mut Vec<Event>,
)
    requires stands { StandsFor limit talk.old took ready }
    requires spare { deque_len out.old < deque_capacity out.old }
    requires room { vec_len events.old + told_most ready ≤ vec_capacity events.old }
    ensures leaves { Tells (λ frames told. LeavesBy took ready talk.old links.old frames told talk.new links.new)
        out.old.items events.old.items out.new.items events.new.items }
    ensures goes { 512 ≤ limit → Goes limit talk.old talk.new out.old.items out.new.items }
    ensures rests { Rests talk.old talk.new out.old.items out.new.items }
{
    let Some((session, told)) = took else {
        return;
    };
    let Some(ready) = ready else {
        return;
    };
    leave_by_link(talk, links, limit, session, told, ready, out, events);
}

/// The link for which this is ready took the Detach. There is room for what is told.
fn leave_by_link(
    talk: &mut Conversation<Numbered<LinkEnd>>,
    links: &mut Links<LinkEnd>,
    limit: u32,
    session: u64,
    told: Detached,
    ready: Ready,
    out: &mut VecDeque<SessionFrame>,
    events: &mut Vec<Event>,
)
    requires there { IsSome (link_of talk.old session ready.handle) }
    requires place { (s : Session) → live_at talk.old.sessions session ≡ Some s →
        HasAnswer limit s.value ready.handle ready.answer.closed ready.answer.error ready.answer.place }
    requires copied { AreCopies ready.error ready.count ready.copies.items }
    requires spare { deque_len out.old < deque_capacity out.old }
    requires room { vec_len events.old + (ready.count + 1) ≤ vec_capacity events.old }
    ensures leaves { Tells (λ frames events. LinkLeaves session told ready talk.old links.old frames events
        talk.new links.new) out.old.items events.old.items out.new.items events.new.items }
    ensures goes { 512 ≤ limit → Goes limit talk.old talk.new out.old.items out.new.items }
    ensures rests { Rests talk.old talk.new out.old.items out.new.items }
{
    let Ready {
        handle,
        answer,
        error,
        count,
        copies,
    } = ready;
    let link = number_of(talk, session, handle);
    tell_detached(link, told.closed, error, events);
    let left = part(
        talk,
        limit,
        session,
        handle,
        told.answer,
        answer,
        count,
        copies,
        out,
        events,
    );
    leave(links, link, told.closed, left);
}

/// Tells that the peer detached a link. There is room for it.
fn tell_detached(
    link: u64,
    closed: bool,
    error: Option<definitions::Error>,
    events: &mut Vec<Event>,
)
    requires { vec_len events.old < vec_capacity events.old }
    ensures told { events.new.items ≡ events.old.items ++ detached_told link closed error }
    ensures len { vec_len events.new ≡ vec_len events.old + 1 }
    ensures capacity { vec_capacity events.new ≡ vec_capacity events.old }
{
    events.push_reserved(Event::Detached(DetachedEvent {
        link,
        closed,
        error,
    }));
}

/// What is made ready for the link that the peer's handle reaches, if one is reached. It is refused where there is no
/// memory.
fn make_ready(
    talk: &Conversation<Numbered<LinkEnd>>,
    alloc: Global,
    limit: u32,
    channel: IncomingChannel,
    detach: &Detach,
) -> Result<Option<Ready>, AllocError>
    ensures { IfOk result (Prepares limit talk.now channel detach.now) }
{
    let Some(number) = talk.sessions.reached(channel) else {
        return Ok(None);
    };
    let Some(session) = talk.sessions.live(number) else {
        return Ok(None);
    };
    make_ready_in(session, alloc, limit, detach)
}

/// The same in its session.
fn make_ready_in(
    session: &LinkSession,
    alloc: Global,
    limit: u32,
    detach: &Detach,
) -> Result<Option<Ready>, AllocError>
    ensures { IfOk result (ReadyFor limit session.now detach.now) }
{
    let input = InputHandle(detach.handle.0);
    let Some(handle) = session.session.link_by_input_handle(input) else {
        return Ok(None);
    };
    let Ok(place) = session.session.place_behind(alloc, handle, 1) else {
        return Err(AllocError);
    };
    let channel = session.session.outgoing_channel();
    let error = repeated(limit, channel, handle, detach.closed, &detach.error)?;
    let count = ending(session, handle, detach.closed);
    let copies = copies_of(alloc, &detach.error, count)?;
    let answer = Answer {
        closed: detach.closed,
        error,
        place,
    };
    Ok(Some(Ready {
        handle,
        answer,
        error: detach.error.clone()?,
        count,
        copies,
    }))
}

/// How many messages of the link with this own handle end as the peer detaches it: where it closes it, those that are
/// open.
fn ending(session: &LinkSession, handle: OutputHandle, closed: bool) -> usize
    ensures { result ≡ ending closed (end_at session.now handle) }
{
    if !closed {
        return 0;
    }
    match session.session.link(handle) {
        Some(link) => open_count(&link.link),
        None => 0,
    }
}

/// The error, if there is one, copied so many times. It is refused where there is no memory.
fn copies_of(
    alloc: Global,
    error: &Option<definitions::Error>,
    count: usize,
) -> Result<Vec<definitions::Error>, AllocError>
    ensures { IfOk result (λ copies. AreCopies error.now count copies.items) }
{
    let Some(error) = error else {
        return Ok(Vec::new(alloc));
    };
    copies_for(alloc, error, count)
}

/// The error, copied so many times.
fn copies_for(
    alloc: Global,
    error: &definitions::Error,
    count: usize,
) -> Result<Vec<definitions::Error>, AllocError>
    ensures { IfOk result (λ copies. AreCopies (Some error.now) count copies.items) }
{
    let mut copies = Vec::with_capacity(alloc, count)?;
    let mut left = count;
    while left > 0 {
        copies.push_reserved(error.clone()?);
        left -= 1;
    }
    Ok(copies)
}

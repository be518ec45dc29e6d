//! Links that are closed since the peer takes no frame that settles their deliveries (part 2, 2.4.1, 2.6.6, 2.6.12,
//! 2.7.6).
ghost use Rattle.std.specs.Prelude.{◌≡◌, ◌+◌, ◌≤◌, ◌<◌, ◌++◌, ℕ, All, IfOk, IfSome, IsSome, List, None, OnOk, length};
ghost use Rattle.std.specs.Prelude.{Some, option_map, true};
ghost use Rattle.std.specs.Vec.{vec_capacity, vec_len};
ghost use Rattle.std.specs.VecDeque.{deque_capacity, deque_len};
ghost use Rattle.amqp_session_performatives.specs.declared.session_frame.SessionFrame.{SessionFrame as Frame};
ghost use Rattle.amqp_endpoint_conversation.specs.Going.{Goes, Rests};
ghost use Rattle.amqp_endpoint_linking.specs.Handed.{Tells};
ghost use Rattle.amqp_endpoint_linking.specs.Linking.{Link, Session};
ghost use Rattle.amqp_endpoint_messages.specs.All.{first_told, open_count};
ghost use Rattle.amqp_endpoint_tables.specs.State.{live_at};
ghost use Rattle.amqp_endpoint_link_hearing.specs.InSession.{GoesOn};
ghost use Rattle.amqp_endpoint_link_hearing.specs.Leaving.{HasPlace};
ghost use Rattle.amqp_endpoint_link_hearing.specs.Naming.{link_of};
ghost use Rattle.amqp_endpoint_model.specs.State.{error_of};
ghost use Rattle.amqp_endpoint_model.specs.Step.{not_allowed};
ghost use Rattle.amqp_endpoint_link_hearing.specs.Unechoed.{AreFor, CanClose, IsMade, IsRefused, RefusedIf};
ghost use Rattle.amqp_endpoint_link_hearing.specs.Unechoed.{RefusesBehind, TellsSome, handles_in, handles_of, has_one};
ghost use Rattle.amqp_endpoint_link_hearing.specs.Unechoed.{is_among, is_in, is_attached_at, is_refused, lies_in};
ghost use Rattle.amqp_endpoint_link_hearing.specs.Unechoed.{lies_in_one, told_most, too_large_told, with_handle};

use crate::closing::{Condition, close, make_closing};
use crate::leaving::Answer;
use crate::naming::{link_of, number_of};
use amqp_endpoint_attached::LinkSession;
use amqp_endpoint_conversation::Conversation;
use amqp_endpoint_links::Numbered;
use amqp_endpoint_messages::{open_count, open_in, tell_first};
use amqp_endpoint_model::{EndpointError, Event, Refused};
use amqp_link::LinkEnd;
use amqp_session_core::Touched;
use amqp_session_performatives::SessionFrame;
use amqp_session_types::OutputHandle;
use std::alloc::{AllocError, Global};
use std::collections::VecDeque;

/// What is made ready to close a link, before it is known whether it will be.
#[derive(Drop)]
pub(crate) struct Closing {
    /// Its own handle.
    pub(crate) handle: OutputHandle,
    /// Its own Detach, for which there is a place.
    pub(crate) answer: Answer,
    /// How many messages of it are open.
    pub(crate) count: usize,
}

/// Makes ready to close each link that has one of these deliveries, each once, in the order in which the first of each
/// comes; none where each frame fits that settles deliveries. It is refused where there is no memory.
pub(crate) fn make_closings(
    session: &LinkSession,
    alloc: Global,
    fits: bool,
    reached: &[Touched],
) -> Result<Vec<Closing>, AllocError>
    ensures handles { IfOk result (λ closings. AreFor fits reached.now (handles_in closings.items)) }
    ensures made { IfOk result (λ closings. All (IsMade session.now) closings.items) }
{
    if fits {
        return Ok(Vec::new(alloc));
    }
    make_each(session, alloc, reached)
}

/// Makes ready to close each of the links.
fn make_each(
    session: &LinkSession,
    alloc: Global,
    reached: &[Touched],
) -> Result<Vec<Closing>, AllocError>
    ensures handles { IfOk result (λ closings. handles_in closings.items ≡ handles_of reached.now) }
    ensures made { IfOk result (λ closings. All (IsMade session.now) closings.items) }
{
    let mut closings = Vec::new(alloc);
    let mut rest = reached;
    while let Some((delivery, others)) = rest.split_first() {
        add_closing(session, alloc, delivery.handle, &mut closings)?;
        rest = others;
    }
    Ok(closings)
}

/// Makes ready to close the link with this own handle, unless that was done. It is refused where there is no memory.
#[tactic(auto, using(crate::proofs::Barrings::closing_rules))]
fn add_closing(
    session: &LinkSession,
    alloc: Global,
    handle: OutputHandle,
    closings: &mut Vec<Closing>,
) -> Result<(), AllocError>
    ensures handles { OnOk result
        (handles_in closings.new.items ≡ with_handle (handles_in closings.old.items) handle) }
    ensures made { OnOk result
        (All (IsMade session.now) closings.old.items → All (IsMade session.now) closings.new.items) }
{
    if is_among(handle, closings.as_slice()) {
        return Ok(());
    }
    let closing = make_one(session, alloc, handle)?;
    closings.reserve(1)?;
    closings.push_reserved(closing);
    Ok(())
}

/// Whether the link with this own handle is among those that are to be closed.
fn is_among(handle: OutputHandle, closings: &[Closing]) -> bool
    ensures { result ≡ is_among handle.0 (handles_in closings.now) }
{
    let mut rest = closings;
    while let Some((first, others)) = rest.split_first() {
        if first.handle.0 == handle.0 {
            return true;
        }
        rest = others;
    }
    false
}

/// Makes ready to close the link with this own handle, for what isn't allowed (part 2, 2.8.15). It is refused where
/// there is no memory.
fn make_one(
    session: &LinkSession,
    alloc: Global,
    handle: OutputHandle,
) -> Result<Closing, AllocError>
    ensures handle { IfOk result (λ closing. closing.handle ≡ handle) }
    ensures made { IfOk result (IsMade session.now) }
{
    let answer = make_closing(session, alloc, handle, Condition::NotAllowed)?;
    let count = open_in(session, handle);
    Ok(Closing {
        handle,
        answer,
        count,
    })
}

/// How many events are told at most where these links are closed. None is answered where that passes the largest
/// number.
pub(crate) fn told_most(closings: &[Closing]) -> Option<usize>
    ensures { IfSome result (λ most. most ≡ told_most closings.now) }
{
    let mut most: usize = 0;
    let mut rest = closings;
    while let Some((closing, others)) = rest.split_first() {
        most = most.checked_add(closing.count)?.checked_add(1)?;
        rest = others;
    }
    Some(most)
}

/// Closes those of the links for which this is ready that are attached and have one of these deliveries in one of these
/// runs, one after the other (part 2, 2.6.6): for each its own closing Detach is handed out, or waits behind what the
/// link has waiting, and says that this isn't allowed (part 2, 2.8.15); `Refused` is told with `FrameTooLarge`, and
/// behind it the `Outcome` of each of its open messages, in the order in which they were sent: that its state has
/// become illegal. There is room for all that, and it takes no memory.
pub(crate) fn refuse_each(
    talk: &mut Conversation<Numbered<LinkEnd>>,
    alloc: Global,
    session: u64,
    barred: &[(u32, u32)],
    reached: &[Touched],
    closings: Vec<Closing>,
    out: &mut VecDeque<SessionFrame>,
    events: &mut Vec<Event>,
)
    requires can { All (CanClose talk.old session) closings.items }
    requires spare { deque_len out.old + length closings.items ≤ deque_capacity out.old }
    requires room { vec_len events.old + told_most closings.items ≤ vec_capacity events.old }
    ensures refuses { RefusesBehind session barred.now reached.now (handles_in closings.items) talk.old out.old.items
        events.old.items talk.new out.new.items events.new.items }
    ensures goes { (limit : ℕ) → 512 ≤ limit →
        Goes limit talk.old talk.new out.old.items out.new.items }
    ensures rests { Rests talk.old talk.new out.old.items out.new.items }
{
    let mut rest = closings.into_iter();
    while let Some(closing) = rest.next() {
        refuse_if(talk, alloc, session, barred, reached, closing, out, events);
    }
}

/// Closes the link for which this is ready, where it is attached and has one of the deliveries in one of the runs.
fn refuse_if(
    talk: &mut Conversation<Numbered<LinkEnd>>,
    alloc: Global,
    session: u64,
    barred: &[(u32, u32)],
    reached: &[Touched],
    closing: Closing,
    out: &mut VecDeque<SessionFrame>,
    events: &mut Vec<Event>,
)
    requires can { CanClose talk.old session closing }
    requires spare { deque_len out.old < deque_capacity out.old }
    requires room { vec_len events.old + (closing.count + 1) ≤ vec_capacity events.old }
    ensures refuses { Tells (λ frames told.
        RefusedIf (is_refused talk.old session barred.now reached.now closing.handle) session closing.handle talk.old
        frames told talk.new) out.old.items events.old.items out.new.items events.new.items }
    ensures keeps { (other : Closing) → CanClose talk.old session other → CanClose talk.new session other }
    ensures added { deque_len out.new ≤ deque_len out.old + 1 }
    ensures capacity { deque_capacity out.new ≡ deque_capacity out.old }
    ensures few { vec_len events.new ≤ vec_len events.old + (closing.count + 1) }
    ensures events_capacity { vec_capacity events.new ≡ vec_capacity events.old }
    ensures goes { (limit : ℕ) → 512 ≤ limit →
        Goes limit talk.old talk.new out.old.items out.new.items }
    ensures rests { Rests talk.old talk.new out.old.items out.new.items }
{
    if is_refused(talk, session, barred, reached, closing.handle) {
        refuse_one(talk, alloc, session, closing, out, events);
        return;
    }
}

/// Whether an attached link has this own handle, and one of the deliveries in one of the runs is its.
fn is_refused(
    talk: &Conversation<Numbered<LinkEnd>>,
    session: u64,
    barred: &[(u32, u32)],
    reached: &[Touched],
    handle: OutputHandle,
) -> bool
    ensures { result ≡ is_refused talk.now session barred.now reached.now handle }
{
    is_attached_at(talk, session, handle) && has_one(barred, handle, reached)
}

/// Whether an attached link has this own handle in the session with this number.
fn is_attached_at(
    talk: &Conversation<Numbered<LinkEnd>>,
    session: u64,
    handle: OutputHandle,
) -> bool
    ensures { result ≡ is_attached_at talk.now session handle }
{
    match link_of(talk, session, handle) {
        Some(link) => link.link.local_state().is_attached(),
        None => false,
    }
}

/// Whether one of these deliveries in one of these runs is of the link with this own handle.
fn has_one(barred: &[(u32, u32)], handle: OutputHandle, reached: &[Touched]) -> bool
    ensures { result ≡ has_one barred.now handle.0 reached.now }
{
    let mut rest = reached;
    while let Some((delivery, others)) = rest.split_first() {
        if is_in(barred, handle, delivery) {
            return true;
        }
        rest = others;
    }
    false
}

/// Whether a delivery in one of these runs is of the link with this own handle.
fn is_in(barred: &[(u32, u32)], handle: OutputHandle, delivery: &Touched) -> bool
    ensures { result ≡ is_in barred.now handle.0 delivery.now }
{
    delivery.handle.0 == handle.0 && lies_in_one(delivery.number, barred)
}

/// Whether a number lies in one of these runs.
fn lies_in_one(number: u32, runs: &[(u32, u32)]) -> bool
    ensures { result ≡ lies_in_one number runs.now }
{
    let mut rest = runs;
    while let Some((run, others)) = rest.split_first() {
        if lies_in(number, *run) {
            return true;
        }
        rest = others;
    }
    false
}

/// Whether a number lies in a run, which its first and its last number tell, on a circle of 2^32 (part 2, 2.8.10).
fn lies_in(number: u32, run: (u32, u32)) -> bool
    ensures { result ≡ lies_in number run }
{
    let (first, last) = run;
    number.wrapping_sub(first) <= last.wrapping_sub(first)
}

/// Closes the attached link for which this is ready, and tells of it and of its messages. There is room for it.
fn refuse_one(
    talk: &mut Conversation<Numbered<LinkEnd>>,
    alloc: Global,
    session: u64,
    closing: Closing,
    out: &mut VecDeque<SessionFrame>,
    events: &mut Vec<Event>,
)
    requires there { IsSome (link_of talk.old session closing.handle) }
    requires says { closing.answer.error ≡ Some (error_of not_allowed) }
    requires place { (s : Session) → live_at talk.old.sessions session ≡ Some s →
        HasPlace s.value closing.handle true closing.answer.error closing.answer.place }
    requires most { open_count (option_map (λ (l : Link). l.link) (link_of talk.old session closing.handle))
        ≤ closing.count }
    requires spare { deque_len out.old < deque_capacity out.old }
    requires room { vec_len events.old + (closing.count + 1) ≤ vec_capacity events.old }
    ensures refused { Tells (λ frames told. IsRefused session closing.handle talk.old frames told talk.new)
        out.old.items events.old.items out.new.items events.new.items }
    ensures keeps { (other : Closing) → CanClose talk.old session other → CanClose talk.new session other }
    ensures added { deque_len out.new ≤ deque_len out.old + 1 }
    ensures capacity { deque_capacity out.new ≡ deque_capacity out.old }
    ensures few { vec_len events.new ≤ vec_len events.old + (closing.count + 1) }
    ensures events_capacity { vec_capacity events.new ≡ vec_capacity events.old }
    ensures goes { (limit : ℕ) → 512 ≤ limit →
        Goes limit talk.old talk.new out.old.items out.new.items }
    ensures rests { Rests talk.old talk.new out.old.items out.new.items }
{
    let Closing {
        handle,
        answer,
        count: _,
    } = closing;
    let link = number_of(talk, session, handle);
    let count = open_of(talk, session, handle);
    close(talk, session, handle, answer, out);
    tell_too_large(session, link, events);
    tell_some(talk, alloc, session, handle, count, events);
}

/// How many messages are open of the link with this own handle in the session with this number.
fn open_of(talk: &Conversation<Numbered<LinkEnd>>, session: u64, handle: OutputHandle) -> usize
    ensures { result ≡ open_count
        (option_map (λ (l : Link). l.link) (link_of talk.now session handle)) }
{
    match link_of(talk, session, handle) {
        Some(link) => open_count(&link.link),
        None => 0,
    }
}

/// Tells that a link is closed here, since the peer takes no frame that settles its deliveries. There is room for it.
fn tell_too_large(session: u64, link: u64, events: &mut Vec<Event>)
    requires { vec_len events.old < vec_capacity events.old }
    ensures told { events.new.items ≡ events.old.items ++ too_large_told session link }
    ensures len { vec_len events.new ≡ vec_len events.old + 1 }
    ensures capacity { vec_capacity events.new ≡ vec_capacity events.old }
{
    events.push_reserved(Event::Refused(Refused {
        session,
        link: Some(link),
        error: EndpointError::FrameTooLarge,
    }));
}

/// The link with this own handle in the session with this number, which has begun, tells of so many of the messages
/// that ended and that it hasn't told of yet. There is room for it.
fn tell_some(
    talk: &mut Conversation<Numbered<LinkEnd>>,
    alloc: Global,
    session: u64,
    handle: OutputHandle,
    count: usize,
    events: &mut Vec<Event>,
)
    requires there { IsSome (live_at talk.old.sessions session) }
    requires room { vec_len events.old + count ≤ vec_capacity events.old }
    ensures tells { GoesOn (TellsSome count handle) talk.old session talk.new }
    ensures told { events.new.items ≡ events.old.items ++ first_told count None (link_of talk.old session handle) }
    ensures few { vec_len events.new ≤ vec_len events.old + count }
    ensures capacity { vec_capacity events.new ≡ vec_capacity events.old }
    ensures goes { (limit : ℕ) (out : List Frame) → Goes limit talk.old talk.new out out }
    ensures rests { (out : List Frame) → Rests talk.old talk.new out out }
{
    let Some(session) = talk.sessions.live_mut(session) else {
        unreachable!()
    };
    tell_first(session, handle, count, Vec::new(alloc), events);
}

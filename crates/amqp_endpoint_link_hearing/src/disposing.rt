//! The peer's Disposition (part 2, 2.6.12, 2.7.6, 2.8.3).
ghost use Rattle.std.specs.Prelude.{◌≡◌, ◌<◌, ◌+◌, ◌≤◌, ℕ, All, IfErr, IfOk, IfSome, OnErr, OnOk, length, true};
ghost use Rattle.std.specs.Prelude.{IsSome, Some, []};
ghost use Rattle.std.specs.Vec.{vec_capacity, vec_len};
ghost use Rattle.std.specs.VecDeque.{deque_capacity, deque_len};
ghost use Rattle.amqp_endpoint_links.specs.declared.hearing.LinkPerformative.TheVariants as said;
ghost use Rattle.amqp_endpoint_model.specs.Relay.{IsSessionFault};
ghost use Rattle.amqp_endpoint_conversation.specs.Going.{Goes, Rests, Within};
ghost use Rattle.amqp_endpoint_linking.specs.Handed.{Tells};
ghost use Rattle.amqp_endpoint_messages.specs.Echoing.{ServesFor, barred, going};
ghost use Rattle.amqp_endpoint_tables.specs.State.{live_at};
ghost use Rattle.amqp_endpoint_link_hearing.specs.Disposing.{DoneBy, HearsDisposition, IsReady, Prepares, Serves};
ghost use Rattle.amqp_endpoint_link_hearing.specs.Disposing.{StandsFor, TellsAndEchoes, TellsAndRefuses, events_most};
ghost use Rattle.amqp_endpoint_link_hearing.specs.Disposing.{frames_most, runs_of};
ghost use Rattle.amqp_endpoint_link_hearing.specs.InSession.{GoesOn};
ghost use Rattle.amqp_endpoint_link_hearing.specs.Saying.{RefusesSaid};
ghost use Rattle.amqp_endpoint_link_hearing.specs.Unechoed.{CanClose, MadeIn, handles_of};
ghost use Rattle.amqp_endpoint_link_hearing.specs.declared.unechoed.Closing.{Closing as Made};

use crate::refusing::refuse;
use crate::settled::hear_settled;
use crate::unechoed::{Closing, make_closings, refuse_each, told_most};
use amqp_endpoint_attached::LinkSession;
use amqp_endpoint_conversation::{Conversation, Heard};
use amqp_endpoint_links::{LinkPerformative, Numbered, PerformativeTaken};
use amqp_endpoint_messages::{Echoes, make_echoes, reached_by, send_echoes, tell_reached};
use amqp_endpoint_model::{EndpointError, Event};
use amqp_endpoint_tables::Links;
use amqp_link::{AttachTold, LinkEnd};
use amqp_link_base::Detached;
use amqp_link_receiver::Told;
use amqp_session_core::{DeliveryRuns, Touched};
use amqp_session_performatives::{Disposition, SessionFrame};
use amqp_session_types::IncomingChannel;
use std::alloc::{AllocError, Global};
use std::collections::VecDeque;

/// What is made ready for a Disposition of the peer, before its session hears it.
#[derive(Drop)]
struct Ready {
    /// The deliveries that it will reach.
    reached: Vec<Touched>,
    /// What goes back.
    echoes: Echoes,
    /// The links that are closed where it can't go.
    closings: Vec<Closing>,
}

/// Takes the peer's Disposition in the session that its channel reaches (part 2, 2.6.12, 2.7.6): the links hear of
/// their deliveries that it names. For each delivery that it reaches, in order, the sending link tells what became of
/// the message that ended first of those that it hasn't told yet, where that has the delivery's tag: `Outcome` is told
/// (part 3, 3.4).
/// Where the receiver settles once the sender did (part 2, 2.8.3), the Disposition is echoed: for each run of such
/// deliveries, in order, one is handed out, settled, with the same state, where it fits `limit` bytes. Of the other
/// runs none is: behind what is, each attached link that has a delivery in one of them is closed, in the order in which
/// the first of the deliveries of each comes. Its own closing Detach says amqp:not-allowed, and is handed out, or waits
/// behind what the link has waiting; `Refused` is told with `FrameTooLarge`, and behind it the `Outcome` of each of its
/// open messages, in the order in which they were sent: that its state has become illegal. Nothing comes of it in a
/// session that is ending. A session that refuses it ends by its fault: its End is handed out, its links are given
/// back, and `Refused` is told.
///
/// It ends the connection with `Connection` of `NotFound` where the channel reaches no session, with `Session` where
/// one refuses it that the peer asks for, and with `Memory`. Nothing is handed out or told then, and no link is given
/// back; nor does a session change, but that where there is no memory one that has begun may have refused it.
pub fn hear_disposition(
    talk: &mut Conversation<Numbered<LinkEnd>>,
    links: &mut Links<LinkEnd>,
    alloc: Global,
    limit: u32,
    channel: IncomingChannel,
    disposition: Disposition,
    out: &mut VecDeque<SessionFrame>,
    events: &mut Vec<Event>,
) -> Result<(), EndpointError>
    ensures ok { OnOk result
        (Tells (λ frames told.
        HearsDisposition talk.old links.old limit channel disposition frames told talk.new links.new)
        out.old.items events.old.items out.new.items events.new.items) }
    ensures err { IfErr result (λ e.
        IsSessionFault e × RefusesSaid talk.old channel (said.Disposition disposition) e talk.new) }
    ensures kept { OnErr result ((links.new ≡ links.old) × (out.new.items ≡ out.old.items)
        × (events.new.items ≡ events.old.items)) }
    ensures goes { 512 ≤ limit → Goes limit talk.old talk.new out.old.items out.new.items }
    ensures waits { (most : ℕ) → 512 ≤ most → Within most talk.old → Within most talk.new }
    ensures rests { Rests talk.old talk.new out.old.items out.new.items }
{
    events.reserve(1)?;
    if hear_settled(talk, channel, &disposition, events) {
        return Ok(());
    }
    hear_any(talk, links, alloc, limit, channel, disposition, out, events)
}

/// Takes any.
#[inline(never)]
fn hear_any(
    talk: &mut Conversation<Numbered<LinkEnd>>,
    links: &mut Links<LinkEnd>,
    alloc: Global,
    limit: u32,
    channel: IncomingChannel,
    disposition: Disposition,
    out: &mut VecDeque<SessionFrame>,
    events: &mut Vec<Event>,
) -> Result<(), EndpointError>
    ensures ok { OnOk result
        (Tells (λ frames told.
        HearsDisposition talk.old links.old limit channel disposition frames told talk.new links.new)
        out.old.items events.old.items out.new.items events.new.items) }
    ensures err { IfErr result (λ e.
        IsSessionFault e × RefusesSaid talk.old channel (said.Disposition disposition) e talk.new) }
    ensures kept { OnErr result ((links.new ≡ links.old) × (out.new.items ≡ out.old.items)
        × (events.new.items ≡ events.old.items)) }
    ensures goes { 512 ≤ limit → Goes limit talk.old talk.new out.old.items out.new.items }
    ensures waits { (most : ℕ) → 512 ≤ most → Within most talk.old → Within most talk.new }
    ensures rests { Rests talk.old talk.new out.old.items out.new.items }
{
    let ready = make_ready(talk, alloc, limit, channel, &disposition, out, events)?;
    take_disposition(
        talk,
        links,
        alloc,
        limit,
        channel,
        disposition,
        ready,
        out,
        events,
    )?;
    Ok(())
}

/// Takes it. There is room for what it tells, and for what goes back.
#[inline(never)]
fn take_disposition(
    talk: &mut Conversation<Numbered<LinkEnd>>,
    links: &mut Links<LinkEnd>,
    alloc: Global,
    limit: u32,
    channel: IncomingChannel,
    disposition: Disposition,
    ready: Option<Ready>,
    out: &mut VecDeque<SessionFrame>,
    events: &mut Vec<Event>,
) -> Result<(), EndpointError>
    requires ready { Prepares limit talk.old channel disposition ready }
    requires one { vec_len events.old < vec_capacity events.old }
    requires spare { deque_len out.old + frames_most ready ≤ deque_capacity out.old }
    requires room { vec_len events.old + events_most ready ≤ vec_capacity events.old }
    ensures ok { OnOk result
        (Tells (λ frames told.
        HearsDisposition talk.old links.old limit channel disposition frames told talk.new links.new)
        out.old.items events.old.items out.new.items events.new.items) }
    ensures err { IfErr result (λ e.
        IsSessionFault e × RefusesSaid talk.old channel (said.Disposition disposition) e talk.new) }
    ensures kept { OnErr result ((links.new ≡ links.old) × (out.new.items ≡ out.old.items)
        × (events.new.items ≡ events.old.items)) }
    ensures goes { 512 ≤ limit → Goes limit talk.old talk.new out.old.items out.new.items }
    ensures waits { (most : ℕ) → 512 ≤ most → Within most talk.old → Within most talk.new }
    ensures rests { Rests talk.old talk.new out.old.items out.new.items }
{
    let said = LinkPerformative::Disposition(disposition);
    match amqp_endpoint_conversation::hear(talk, alloc, out, channel, said) {
        Ok(heard) => {
            let took = runs_of(heard);
            disposition_heard(talk, alloc, limit, took, ready, out, events);
            Ok(())
        }
        Err(refusal) => match refuse(links, refusal, events) {
            Ok(()) => Ok(()),
            Err(error) => Err(error),
        },
    }
}

/// The session that took a Disposition that was heard, and the runs of deliveries that are to be echoed, if one took
/// it.
fn runs_of(heard: Heard<AttachTold, Told, Detached>) -> Option<(u64, DeliveryRuns)>
    ensures { result ≡ runs_of heard }
{
    match heard {
        Heard::Live(session, taken) => match taken {
            PerformativeTaken::Disposition(_, runs) => Some((session, runs)),
            _ => None,
        },
        Heard::Asked(_) | Heard::Dropped(_) => None,
    }
}

/// The Disposition was heard, and this session took it, if one did. There is room for what it tells, and for what goes
/// back.
fn disposition_heard(
    talk: &mut Conversation<Numbered<LinkEnd>>,
    alloc: Global,
    limit: u32,
    took: Option<(u64, DeliveryRuns)>,
    ready: Option<Ready>,
    out: &mut VecDeque<SessionFrame>,
    events: &mut Vec<Event>,
)
    requires stands { StandsFor limit talk.old took ready }
    requires spare { deque_len out.old + frames_most ready ≤ deque_capacity out.old }
    requires room { vec_len events.old + events_most ready ≤ vec_capacity events.old }
    ensures done { Tells (λ frames told. DoneBy limit took ready talk.old frames told talk.new)
        out.old.items events.old.items out.new.items events.new.items }
    ensures goes { 512 ≤ limit → Goes limit talk.old talk.new out.old.items out.new.items }
    ensures waits { (most : ℕ) → 512 ≤ most → Within most talk.old → Within most talk.new }
    ensures rests { Rests talk.old talk.new out.old.items out.new.items }
{
    let Some((session, runs)) = took else {
        return;
    };
    let Some(ready) = ready else {
        return;
    };
    do_for(talk, alloc, limit, session, runs, ready, out, events);
}

/// The session for which this is ready took the Disposition: what is told and goes back, and then the links that are
/// closed. There is room for all that. It takes no memory.
fn do_for(
    talk: &mut Conversation<Numbered<LinkEnd>>,
    alloc: Global,
    limit: u32,
    session: u64,
    runs: DeliveryRuns,
    ready: Ready,
    out: &mut VecDeque<SessionFrame>,
    events: &mut Vec<Event>,
)
    requires serves { Serves limit talk.old session runs.items ready }
    requires spare { deque_len out.old + frames_most (Some ready) ≤ deque_capacity out.old }
    requires room { vec_len events.old + events_most (Some ready) ≤ vec_capacity events.old }
    ensures done { Tells (λ frames told.
        TellsAndRefuses limit session ready.reached.items ready.echoes.state runs.items
        (handles_of ready.reached.items) talk.old frames told talk.new)
        out.old.items events.old.items out.new.items events.new.items }
    ensures goes { 512 ≤ limit → Goes limit talk.old talk.new out.old.items out.new.items }
    ensures waits { (most : ℕ) → 512 ≤ most → Within most talk.old → Within most talk.new }
    ensures rests { Rests talk.old talk.new out.old.items out.new.items }
{
    let Ready {
        reached,
        echoes,
        closings,
    } = ready;
    let barred = tell_and_echo(talk, limit, session, &runs, &reached, echoes, out, events);
    refuse_each(
        talk, alloc, session, &barred, &reached, closings, out, events,
    );
}

/// In the session with this number the links tell what became of messages, and what fits goes back. Answers the runs of
/// which nothing does. There is room for all that. It takes no memory.
fn tell_and_echo(
    talk: &mut Conversation<Numbered<LinkEnd>>,
    limit: u32,
    session: u64,
    runs: &[(u32, u32)],
    reached: &[Touched],
    echoes: Echoes,
    out: &mut VecDeque<SessionFrame>,
    events: &mut Vec<Event>,
) -> Vec<(u32, u32)>
    requires there { IsSome (live_at talk.old.sessions session) }
    requires serves { ServesFor limit (length runs.now) echoes }
    requires spare { deque_len out.old + length runs.now ≤ deque_capacity out.old }
    requires room { vec_len events.old + length reached.now ≤ vec_capacity events.old }
    ensures done { Tells (λ frames told. GoesOn
        (TellsAndEchoes reached.now echoes.state (going limit echoes.state runs.now) frames told)
        talk.old session talk.new) out.old.items events.old.items out.new.items events.new.items }
    ensures barred { result.items ≡ barred limit echoes.state runs.now }
    ensures none { echoes.fits ≡ true → result.items ≡ [] }
    ensures keeps { (made : Made) → MadeIn talk.old session made → CanClose talk.new session made }
    ensures added { deque_len out.new ≤ deque_len out.old + length runs.now }
    ensures capacity { deque_capacity out.new ≡ deque_capacity out.old }
    ensures few { vec_len events.new ≤ vec_len events.old + length reached.now }
    ensures events_capacity { vec_capacity events.new ≡ vec_capacity events.old }
    ensures goes { Goes limit talk.old talk.new out.old.items out.new.items }
    ensures waits { (most : ℕ) → Within most talk.old → Within most talk.new }
    ensures rests { Rests talk.old talk.new out.old.items out.new.items }
{
    let Some(session) = talk.sessions.live_mut(session) else {
        unreachable!()
    };
    tell_reached(session, reached, events);
    send_echoes(session, limit, runs, echoes, out)
}

/// What is made ready for a Disposition, if its channel reaches a session that has begun, and room for what it tells
/// and for what goes back. It is refused where there is no memory.
fn make_ready(
    talk: &Conversation<Numbered<LinkEnd>>,
    alloc: Global,
    limit: u32,
    channel: IncomingChannel,
    disposition: &Disposition,
    out: &mut VecDeque<SessionFrame>,
    events: &mut Vec<Event>,
) -> Result<Option<Ready>, AllocError>
    ensures ready { IfOk result (Prepares limit talk.now channel disposition.now) }
    ensures one { OnOk result (vec_len events.new < vec_capacity events.new) }
    ensures spare { IfOk result (λ ready.
        deque_len out.new + frames_most ready ≤ deque_capacity out.new) }
    ensures room { IfOk result (λ ready. vec_len events.new + events_most ready
        ≤ vec_capacity events.new) }
    ensures frames { out.new.items ≡ out.old.items }
    ensures events { events.new.items ≡ events.old.items }
{
    events.reserve(1)?;
    let ready = find_ready(talk, alloc, limit, channel, disposition)?;
    let frames = frames_most(&ready)?;
    let told = events_most(&ready)?;
    out.reserve(frames)?;
    events.reserve(told)?;
    Ok(ready)
}

/// How many frames are handed out at most. It is refused where that passes the largest number, as there is no memory
/// for so many.
fn frames_most(ready: &Option<Ready>) -> Result<usize, AllocError>
    ensures { IfOk result (λ most. most ≡ frames_most ready.now) }
{
    let Some(ready) = ready else {
        return Ok(0);
    };
    let most = ready.reached.len().checked_add(ready.closings.len());
    most.ok_or(AllocError)
}

/// How many events are told at most. It is refused where that passes the largest number, as there is no memory for so
/// many.
fn events_most(ready: &Option<Ready>) -> Result<usize, AllocError>
    ensures { IfOk result (λ most. most ≡ events_most ready.now) }
{
    let Some(ready) = ready else {
        return Ok(0);
    };
    let Some(told) = told_most(&ready.closings) else {
        return Err(AllocError);
    };
    let most = ready.reached.len().checked_add(told);
    most.ok_or(AllocError)
}

/// What is made ready, without the room.
fn find_ready(
    talk: &Conversation<Numbered<LinkEnd>>,
    alloc: Global,
    limit: u32,
    channel: IncomingChannel,
    disposition: &Disposition,
) -> Result<Option<Ready>, AllocError>
    ensures { IfOk result (Prepares limit talk.now channel disposition.now) }
{
    let Some(number) = talk.sessions.reached(channel) else {
        return Ok(None);
    };
    let Some(session) = talk.sessions.live(number) else {
        return Ok(None);
    };
    let ready = make_ready_in(session, alloc, limit, disposition)?;
    Ok(Some(ready))
}

/// The same in its session.
fn make_ready_in(
    session: &LinkSession,
    alloc: Global,
    limit: u32,
    disposition: &Disposition,
) -> Result<Ready, AllocError>
    ensures { IfOk result (IsReady limit session.now disposition.now) }
{
    let reached = reached_by(session, alloc, disposition)?;
    let echoes = make_echoes(alloc, limit, &disposition.state, reached.len())?;
    let closings = make_closings(session, alloc, echoes.fit(), &reached)?;
    Ok(Ready {
        reached,
        echoes,
        closings,
    })
}

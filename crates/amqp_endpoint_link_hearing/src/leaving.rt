//! A link whose attachment the peer ended leaves its session (part 2, 2.6.4 to 2.6.6).
ghost use Rattle.std.specs.Prelude.{◌≡◌, ◌+◌, ◌≤◌, ◌<◌, ◌^◌, ◌++◌, ℕ, IsSome, IfOk, Option, Some, true};
ghost use Rattle.std.specs.Vec.{vec_capacity, vec_len};
ghost use Rattle.std.specs.VecDeque.{deque_capacity, deque_len};
ghost use Rattle.amqp_session_types.specs.declared.error.Error.{Error};
ghost use Rattle.amqp_session_core.specs.State.{link_at};
ghost use Rattle.amqp_session_outgoing.specs.Queues.{room_behind};
ghost use Rattle.amqp_endpoint_model.specs.State.{fits, frame_of};
ghost use Rattle.amqp_endpoint_conversation.specs.Going.{Goes, Rests};
ghost use Rattle.amqp_endpoint_tables.specs.State.{live_at};
ghost use Rattle.amqp_endpoint_attached.specs.Detaching.{own_detach};
ghost use Rattle.amqp_endpoint_attached.specs.Linked.{end_at};
ghost use Rattle.amqp_endpoint_messages.specs.All.{AreCopies, first_told};
ghost use Rattle.amqp_endpoint_linking.specs.GivingBack.{IsAtRest, IsClosed};
ghost use Rattle.amqp_endpoint_linking.specs.Handed.{Hands};
ghost use Rattle.amqp_endpoint_linking.specs.Linking.{Session};
ghost use Rattle.amqp_endpoint_link_hearing.specs.Detaching.{TellsAndParts};
ghost use Rattle.amqp_endpoint_link_hearing.specs.InSession.{GoesOn, Parts};
ghost use Rattle.amqp_endpoint_link_hearing.specs.Leaving.{HasAnswer, IsLeft, detach_frame, repeated};
ghost use Rattle.amqp_endpoint_link_hearing.specs.Naming.{link_of};

use amqp_endpoint_attached::{LinkSession, answer_detach, take_out};
use amqp_endpoint_conversation::Conversation;
use amqp_endpoint_fitting::frames_are_read;
use amqp_endpoint_links::Numbered;
use amqp_endpoint_messages::tell_first;
use amqp_endpoint_model::Event;
use amqp_endpoint_tables::Links;
use amqp_link::LinkEnd;
use amqp_link_unsettled::fits_text;
use amqp_session_core::BehindFrame;
use amqp_session_outgoing::Place;
use amqp_session_performatives::{Detach, SessionFrame};
use amqp_session_types::{Handle, OutgoingChannel, OutputHandle, definitions};
use std::alloc::AllocError;
use std::collections::VecDeque;

/// The answer to a peer's Detach, for which there is room.
#[derive(Drop)]
pub(crate) struct Answer {
    /// Whether it closes the link.
    pub(crate) closed: bool,
    /// Why the link is detached.
    pub(crate) error: Option<definitions::Error>,
    /// Room for it, behind what the link has waiting.
    pub(crate) place: Place<BehindFrame>,
}

/// The link with this own handle tells of so many messages that ended, and leaves its session, where nothing of it
/// waits: the peer's Detach is answered before, where that is to be, and the answer fits the limit. It takes no
/// memory.
pub(crate) fn part(
    talk: &mut Conversation<Numbered<LinkEnd>>,
    _limit: u32,
    session: u64,
    handle: OutputHandle,
    answers: bool,
    answer: Answer,
    count: usize,
    copies: Vec<definitions::Error>,
    out: &mut VecDeque<SessionFrame>,
    events: &mut Vec<Event>,
) -> Option<Numbered<LinkEnd>>
    requires there { IsSome (link_of talk.old session handle) }
    requires place { (s : Session) → live_at talk.old.sessions session ≡ Some s →
        HasAnswer _limit s.value handle answer.closed answer.error answer.place }
    requires spare { deque_len out.old < deque_capacity out.old }
    requires room { vec_len events.old + count ≤ vec_capacity events.old }
    ensures parted { Hands (λ frames. GoesOn
        (TellsAndParts count handle answers answer.closed answer.error result frames) talk.old session talk.new)
        out.old.items out.new.items }
    ensures told { (error : Option Error) → AreCopies error count copies.items →
        events.new.items ≡ events.old.items ++ first_told count error (link_of talk.old session handle) }
    ensures goes { 512 ≤ _limit → Goes _limit talk.old talk.new out.old.items out.new.items }
    ensures rests { Rests talk.old talk.new out.old.items out.new.items }
{
    let from = out.len();
    let Some(session) = talk.sessions.live_mut(session) else {
        unreachable!()
    };
    let left = tell_and_part(session, handle, answers, answer, count, copies, out, events);
    frames_are_read(out, from);
    left
}

/// The same in its session.
fn tell_and_part(
    session: &mut LinkSession,
    handle: OutputHandle,
    answers: bool,
    answer: Answer,
    count: usize,
    copies: Vec<definitions::Error>,
    out: &mut VecDeque<SessionFrame>,
    events: &mut Vec<Event>,
) -> Option<Numbered<LinkEnd>>
    requires there { IsSome (end_at session.old handle) }
    requires place { room_behind handle.0 1 session.old.session.outgoing.queues ≤ answer.place }
    requires spare { deque_len out.old < deque_capacity out.old }
    requires room { vec_len events.old + count ≤ vec_capacity events.old }
    ensures parted { Hands (λ frames.
        TellsAndParts count handle answers answer.closed answer.error result frames session.old session.new)
        out.old.items out.new.items }
    ensures told { (error : Option Error) → AreCopies error count copies.items →
        events.new.items ≡ events.old.items ++ first_told count error (link_at session.old.session handle.0) }
{
    tell_first(session, handle, count, copies, events);
    part_in(session, handle, answers, answer, out)
}

/// The peer's Detach is answered, where that is to be, and the link leaves its session.
fn part_in(
    session: &mut LinkSession,
    handle: OutputHandle,
    answers: bool,
    answer: Answer,
    out: &mut VecDeque<SessionFrame>,
) -> Option<Numbered<LinkEnd>>
    requires there { IsSome (end_at session.old handle) }
    requires place { room_behind handle.0 1 session.old.session.outgoing.queues ≤ answer.place }
    requires spare { deque_len out.old < deque_capacity out.old }
    ensures { Hands (λ frames. Parts handle answers answer.closed answer.error result frames session.old session.new)
        out.old.items out.new.items }
{
    if answers {
        let Answer {
            closed,
            error,
            place,
        } = answer;
        answer_detach(session, handle, place, closed, error, out);
        return take_out(session, handle);
    }
    take_out(session, handle)
}

/// What becomes of a link that is detached, and that left its session or didn't: where either end closed it, it is
/// closed for good; else it is at rest once it left. It takes no memory.
pub(crate) fn leave(
    links: &mut Links<LinkEnd>,
    number: u64,
    closed: bool,
    left: Option<Numbered<LinkEnd>>,
)
    ensures { IsLeft closed links.old number left links.new }
{
    if closed {
        close(links, number);
        return;
    }
    if let Some(link) = left {
        let Numbered { number: _, link } = link;
        rest(links, number, link);
    }
}

/// The link with this number is closed for good.
fn close(links: &mut Links<LinkEnd>, number: u64)
    ensures { IsClosed links.old number links.new }
{
    let _ = links.close(number);
}

/// The link with this number is at rest.
fn rest(links: &mut Links<LinkEnd>, number: u64, link: LinkEnd)
    ensures { IsAtRest links.old number link links.new }
{
    let _ = links.rest(number, link);
}

/// The error of the peer's Detach that the own one repeats, where a frame of this many bytes holds it (part 2, 2.4.1).
/// It is refused where there is no memory.
pub(crate) fn repeated(
    limit: u32,
    channel: OutgoingChannel,
    handle: OutputHandle,
    closed: bool,
    error: &Option<definitions::Error>,
) -> Result<Option<definitions::Error>, AllocError>
    ensures { IfOk result (λ e. (e ≡ repeated limit channel handle closed error.now)
        × (512 ≤ limit → fits limit (frame_of (detach_frame channel (own_detach handle closed e))) ≡ true)) }
{
    handle_is_read(handle);
    let mut answer = Detach {
        handle: Handle(handle.0),
        closed,
        error: error.clone()?,
    };
    if fits(limit, channel, &answer) {
        return Ok(answer.error.take());
    }
    Ok(None)
}

/// The number of a handle is read, and so lies in its range (part 2, 2.6.2).
pub(crate) fn handle_is_read(handle: OutputHandle)
    ensures { handle.0 < 2 ^ 32 }
{
    let _number = handle.0;
}

/// Whether a Detach fits the limit, whatever its channel (part 2, 2.4.1).
fn fits(limit: u32, _channel: OutgoingChannel, detach: &Detach) -> bool
    ensures { result ≡ fits limit (frame_of (detach_frame _channel detach.now)) }
{
    fits_text(detach, limit)
}

//! The peer's Flow (part 2, 2.5.6, 2.7.4), and the links that leave their session by it (part 2, 2.6.5, 2.6.6).
ghost use Rattle.std.specs.Prelude.{◌≡◌, ◌+◌, ◌≤◌, ℕ, IfErr, IfOk, IsSome, OnErr, OnOk, Option, Some, drop};
ghost use Rattle.std.specs.Prelude.{option_map};
ghost use Rattle.std.specs.Vec.{vec_capacity, vec_len};
ghost use Rattle.std.specs.VecDeque.{deque_capacity, deque_len};
ghost use Rattle.amqp_session_outgoing.specs.Queues.{frames_in};
ghost use Rattle.amqp_session_core.specs.State.{link_at};
ghost use Rattle.amqp_endpoint_model.specs.Relay.{IsSessionFault};
ghost use Rattle.amqp_endpoint_tables.specs.State.{live_at};
ghost use Rattle.amqp_endpoint_conversation.specs.Going.{Goes, Rests};
ghost use Rattle.amqp_endpoint_linking.specs.Handed.{Tells};
ghost use Rattle.amqp_endpoint_link_hearing.specs.Flowing.{HearsFlow, LeaveWith, LeavesOnce, LeavesWith, LetsGo};
ghost use Rattle.amqp_endpoint_link_hearing.specs.Flowing.{MayMakeRoom, Plans, PlansIn, RefusesFlow, SendsOnBy};
ghost use Rattle.amqp_endpoint_link_hearing.specs.Flowing.{IsDeepClosing, ended, ended_link, named_under, said_of_link};
ghost use Rattle.amqp_endpoint_link_hearing.specs.ReadyOn.{AreReadied, AreToGoOn, CanBeReadied, ServesToGoOn, count_in};
ghost use Rattle.amqp_endpoint_link_hearing.specs.ReadyOn.{count_of};

use crate::hearing::session_of;
use crate::leaving::{handle_is_read, leave};
use crate::refusing::refuse;
use amqp_endpoint_attached::{LinkSession, take_out};
use amqp_endpoint_conversation::Conversation;
use amqp_endpoint_fitting::frames_are_read;
use amqp_endpoint_links::{LinkPerformative, Numbered};
use amqp_endpoint_messages::{
    Closing, FlowReady, make_closing, make_flow_ready, make_room_to_tell, open_count, send_on,
};
use amqp_endpoint_model::{EndpointError, Event};
use amqp_endpoint_tables::Links;
use amqp_link::LinkEnd;
use amqp_link_base::LinkState;
use amqp_link_sender::PreparedSendOn;
use amqp_session_core::BehindFrame;
use amqp_session_outgoing::Place;
use amqp_session_performatives::{Flow, LinkFlow, SessionFrame, SessionFrameBody};
use amqp_session_types::{Handle, IncomingChannel, InputHandle, OutputHandle};
use std::alloc::{AllocError, Global};
use std::collections::VecDeque;

/// Takes the peer's Flow in the session that its channel reaches (part 2, 2.5.6, 2.7.4): what waits there and lies in
/// the peer's window is handed out, and what a link answers. A link whose own Detach is handed out so leaves its
/// session, where the peer's Detach came before: it is at rest, or unknown where either end closed it (part 2, 2.6.5,
/// 2.6.6). Behind that the link that the Flow names sends its open messages on that wait for it, as many as it has
/// credit for, in their order (part 2, 2.6.7, 2.6.13): one that its peer doesn't know from its first byte, any other
/// from where the peer stands, in frames of at most `limit` bytes. Nothing is told; but where no frame has room for a
/// byte of a message, or its number is in use, the link is closed: its own closing Detach is handed out behind what it
/// has waiting, `Refused` is told with `FrameTooLarge` or `NumberInUse`, and behind that the outcomes of its messages
/// that end by it. A session that refuses the Flow ends by its fault: its End is handed out, its links are given back,
/// and `Refused` is told.
///
/// It ends the connection with `Connection` of `NotFound` where the channel reaches no session, with `Session` where
/// one refuses it that the peer asks for, and with `Memory`. Nothing is handed out or told then, and no link is given
/// back; nor does a session change, but for its room for transfers, and that where there is no memory one that has
/// begun may have refused it.
pub fn hear_flow(
    talk: &mut Conversation<Numbered<LinkEnd>>,
    links: &mut Links<LinkEnd>,
    alloc: Global,
    limit: u32,
    channel: IncomingChannel,
    flow: Flow,
    out: &mut VecDeque<SessionFrame>,
    events: &mut Vec<Event>,
) -> Result<(), EndpointError>
    ensures ok { OnOk result
        (Tells (λ frames told. HearsFlow talk.old links.old limit channel flow frames told talk.new links.new)
        out.old.items events.old.items out.new.items events.new.items) }
    ensures err { IfErr result (λ e. IsSessionFault e × RefusesFlow talk.old channel flow e talk.new) }
    ensures kept { OnErr result ((links.new ≡ links.old) × (out.new.items ≡ out.old.items)
        × (events.new.items ≡ events.old.items)) }
    ensures goes { 512 ≤ limit → Goes limit talk.old talk.new out.old.items out.new.items }
    ensures rests { Rests talk.old talk.new out.old.items out.new.items }
{
    let planned = plan(talk, alloc, channel, &flow)?;
    make_room_to_tell(events, count_in(&planned))?;
    let ready = make_ready(talk, alloc, limit, planned, out)?;
    let from = out.len();
    let said = LinkPerformative::Flow(flow);
    match amqp_endpoint_conversation::hear(talk, alloc, out, channel, said) {
        Ok(heard) => {
            let_go(talk, links, session_of(heard), out, from);
            go_on(talk, alloc, ready, out, events);
            Ok(())
        }
        Err(refusal) => match refuse(links, refusal, events) {
            Ok(()) => Ok(()),
            Err(error) => {
                out.truncate(from);
                Err(error)
            }
        },
    }
}

/// What a Flow lets a link send on, looked at before the session takes it.
#[derive(Drop)]
struct Planned {
    /// The messages, in the order in which they go; one or more.
    ons: Vec<PreparedSendOn>,
    /// What the link is closed with where it can't send all of them on.
    closing: Closing,
}

/// What this Flow lets the link send on that it names, in the session that the channel reaches, if that lets anything
/// go on. It is refused where there is no memory.
fn plan(
    talk: &Conversation<Numbered<LinkEnd>>,
    alloc: Global,
    channel: IncomingChannel,
    flow: &Flow,
) -> Result<Option<Planned>, AllocError>
    ensures { IfOk result (Plans talk.now channel flow.now) }
{
    let Some(handle) = flow.handle else {
        return Ok(None);
    };
    let Some(number) = talk.sessions.reached(channel) else {
        return Ok(None);
    };
    let Some(session) = talk.sessions.live(number) else {
        return Ok(None);
    };
    plan_in(session, alloc, number, said_of_link(flow, handle))
}

/// The same in that session, which has this number.
fn plan_in(
    session: &LinkSession,
    alloc: Global,
    number: u64,
    said: LinkFlow,
) -> Result<Option<Planned>, AllocError>
    ensures { IfOk result (PlansIn session.now number said) }
{
    let Some(handle) = named_under(session, said.handle) else {
        return Ok(None);
    };
    let Some(link) = session.session.link(handle) else {
        return Ok(None);
    };
    let ons = link.link.prepare_sends_on(alloc, &said)?;
    if ons.is_empty() {
        return Ok(None);
    }
    let closing = make_deep(session, alloc, number, handle, open_count(&link.link))?;
    Ok(Some(Planned { ons, closing }))
}

/// The own handle of the link that a Flow with this handle names, if the peer asks for none by it.
fn named_under(session: &LinkSession, handle: Handle) -> Option<OutputHandle>
    ensures { option_map (λ h. h.0) result ≡ named_under session.now handle.0 }
{
    if session.asked.is_asked(Some(handle)) {
        return None;
    }
    session.session.link_by_input_handle(InputHandle(handle.0))
}

/// What the link with this own handle is closed with, of whose messages so many are open: as `make_closing` makes it,
/// with room for its Detach also behind whatever waits once the session took a Flow.
fn make_deep(
    session: &LinkSession,
    alloc: Global,
    number: u64,
    handle: OutputHandle,
    count: usize,
) -> Result<Closing, AllocError>
    ensures { IfOk result (IsDeepClosing session.now number handle count) }
{
    let mut closing = make_closing(session, alloc, number, handle, count)?;
    let place = deep_place(session, alloc, handle)?;
    closing.place = place;
    Ok(closing)
}

/// Room for a frame of the link behind all that waits in the session, and behind one frame more.
fn deep_place(
    session: &LinkSession,
    alloc: Global,
    handle: OutputHandle,
) -> Result<Place<BehindFrame>, AllocError>
    ensures { IfOk result (λ place. frames_in session.now.session.outgoing.queues + 2 ≤ place) }
{
    let Ok(waiting) = usize::try_from(session.session.frames()) else {
        return Err(AllocError);
    };
    let most = waiting.checked_add(2).ok_or(AllocError)?;
    match session.session.place_behind_more(alloc, handle, most) {
        Ok(place) => Ok(place),
        Err(_) => Err(AllocError),
    }
}

/// What a Flow says of its link, without properties.
fn said_of_link(flow: &Flow, handle: Handle) -> LinkFlow
    ensures { result ≡ said_of_link flow.now handle }
{
    LinkFlow {
        handle,
        delivery_count: flow.delivery_count,
        link_credit: flow.link_credit,
        available: flow.available,
        drain: flow.drain,
        echo: flow.echo,
        properties: None,
    }
}

/// How many messages are open of the link that is to send messages on, if one is.
fn count_in(planned: &Option<Planned>) -> usize
    ensures { result ≡ count_in planned.now }
{
    match planned {
        Some(planned) => planned.closing.count,
        None => 0,
    }
}

/// Makes ready what goes on, if anything does. It is refused where there is no memory, and nothing changes then.
fn make_ready(
    talk: &mut Conversation<Numbered<LinkEnd>>,
    alloc: Global,
    limit: u32,
    planned: Option<Planned>,
    out: &mut VecDeque<SessionFrame>,
) -> Result<Option<FlowReady>, AllocError>
    requires { CanBeReadied talk.old planned }
    ensures ready { (channel : IncomingChannel) (flow : Flow) → Plans talk.old channel flow planned → IfOk result
        (AreReadied limit talk.new channel flow (deque_len out.new) (deque_capacity out.new)) }
    ensures counts { IfOk result (λ ready. count_of ready ≡ count_in planned) }
    ensures made { (channel : IncomingChannel) (flow : Flow) → Plans talk.old channel flow planned →
        OnOk result (MayMakeRoom talk.old channel talk.new) }
    ensures kept { OnErr result (talk.new ≡ talk.old) }
    ensures out { out.new.items ≡ out.old.items }
{
    let Some(planned) = planned else {
        return Ok(None);
    };
    let Planned { ons, closing } = planned;
    let Some(session) = talk.sessions.live_mut(closing.session) else {
        unreachable!()
    };
    match make_flow_ready(session, alloc, limit, closing, ons, out) {
        Ok(ready) => Ok(Some(ready)),
        Err(error) => Err(error),
    }
}

/// The link for which this was made ready sends its messages on.
fn go_on(
    talk: &mut Conversation<Numbered<LinkEnd>>,
    alloc: Global,
    ready: Option<FlowReady>,
    out: &mut VecDeque<SessionFrame>,
    events: &mut Vec<Event>,
)
    requires serves { ServesToGoOn talk.old (deque_len out.old) (deque_capacity out.old) ready }
    requires tells { vec_len events.old + (count_of ready + 1) ≤ vec_capacity events.old }
    ensures does { (limit : ℕ) (session : Option ℕ) (named : Option Handle) →
        AreToGoOn limit talk.old session named ready →
        Tells (λ frames told. SendsOnBy limit session named talk.old frames told talk.new)
        out.old.items events.old.items out.new.items events.new.items }
    ensures goes { (limit : ℕ) (session : Option ℕ) (named : Option Handle) →
        AreToGoOn limit talk.old session named ready → 512 ≤ limit →
        Goes limit talk.old talk.new out.old.items out.new.items }
    ensures rests { (limit : ℕ) (session : Option ℕ) (named : Option Handle) →
        AreToGoOn limit talk.old session named ready → Rests talk.old talk.new out.old.items out.new.items }
{
    let Some(ready) = ready else {
        return;
    };
    handle_is_read(ready.closing.handle);
    let from = out.len();
    let Some(session) = talk.sessions.live_mut(ready.closing.session) else {
        unreachable!()
    };
    send_on(session, alloc, ready, out, events);
    frames_are_read(out, from);
}

/// Links leave the session that took the Flow, if one did, with the frames from this index on. It takes no memory.
fn let_go(
    talk: &mut Conversation<Numbered<LinkEnd>>,
    links: &mut Links<LinkEnd>,
    session: Option<u64>,
    out: &VecDeque<SessionFrame>,
    from: usize,
)
    requires { (number : ℕ) → session ≡ Some number → IsSome (live_at talk.old.sessions number) }
    ensures leave { LetsGo session (drop from out.now.items) talk.old links.old talk.new links.new }
    ensures goes { (limit : ℕ) → Goes limit talk.old talk.new out.now.items out.now.items }
    ensures rests { Rests talk.old talk.new out.now.items out.now.items }
{
    let Some(session) = session else {
        return;
    };
    let_go_in(talk, links, session, out, from);
}

/// Links leave the session with this number, which has begun, with the frames from this index on.
fn let_go_in(
    talk: &mut Conversation<Numbered<LinkEnd>>,
    links: &mut Links<LinkEnd>,
    session: u64,
    out: &VecDeque<SessionFrame>,
    from: usize,
)
    requires { IsSome (live_at talk.old.sessions session) }
    ensures leave { LetsGo (Some session) (drop from out.now.items) talk.old links.old talk.new
        links.new }
    ensures goes { (limit : ℕ) → Goes limit talk.old talk.new out.now.items out.now.items }
    ensures rests { Rests talk.old talk.new out.now.items out.now.items }
{
    let Some(session) = talk.sessions.live_mut(session) else {
        unreachable!()
    };
    leave_with_each(session, links, out, from);
}

/// Links leave their session with the frames from this index on, in their order.
fn leave_with_each(
    session: &mut LinkSession,
    links: &mut Links<LinkEnd>,
    frames: &VecDeque<SessionFrame>,
    from: usize,
)
    ensures { LeaveWith (drop from frames.now.items) session.old links.old session.new links.new }
{
    for i in from..frames.len() {
        leave_with(session, links, &frames[i]);
    }
}

/// A link leaves its session with this frame, where that is its own Detach.
fn leave_with(session: &mut LinkSession, links: &mut Links<LinkEnd>, frame: &SessionFrame)
    ensures { LeavesWith frame.now.body session.old links.old session.new links.new }
{
    if let SessionFrameBody::Detach(detach) = &frame.body {
        leave_once(session, links, OutputHandle(detach.handle.0));
    }
}

/// The link with this own handle, whose own Detach has gone, leaves its session where the peer's came.
fn leave_once(session: &mut LinkSession, links: &mut Links<LinkEnd>, handle: OutputHandle)
    ensures { LeavesOnce (ended_link (link_at session.old.session handle.0)) handle session.old links.old
        session.new links.new }
{
    let Some((number, closed)) = ended_link(session, handle) else {
        return;
    };
    let left = take_out(session, handle);
    leave(links, number, closed, left);
}

/// The number of the link with this own handle, where both Detach are sent, and whether either closes it.
fn ended_link(session: &LinkSession, handle: OutputHandle) -> Option<(u64, bool)>
    ensures { result ≡ ended_link (link_at session.now.session handle.0) }
{
    let link = session.session.link(handle)?;
    ended(link.link.local_state(), link.number)
}

/// The same of a link with this number in this state.
fn ended(state: LinkState, number: u64) -> Option<(u64, bool)>
    ensures { result ≡ ended state number }
{
    match state {
        LinkState::Detached => Some((number, false)),
        LinkState::Closed => Some((number, true)),
        _ => None,
    }
}

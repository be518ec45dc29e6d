//! How a link is closed, by its number (part 2, 2.6.6).
ghost use Rattle.std.specs.Prelude.{◌≡◌, ◌+◌, ◌≤◌, ◌++◌, ℕ, List, [], true, false, IfErr, IfOk, IsSome, None, OnErr};
ghost use Rattle.std.specs.Prelude.{OnOk, Some, option_map};
ghost use Rattle.std.specs.Vec.{vec_capacity, vec_len};
ghost use Rattle.amqp_session_performatives.specs.declared.session_frame.SessionFrame.{SessionFrame};
ghost use Rattle.amqp_endpoint_tables.specs.LinkState.{place_at, rest_at};
ghost use Rattle.amqp_endpoint_tables.specs.declared.link_place.LinkPlace.TheVariants.{AtRest, Held};
ghost use Rattle.amqp_endpoint_tables.specs.State.{live_at};
ghost use Rattle.amqp_endpoint_model.specs.declared.error.EndpointError.TheVariants.{IllegalState, Memory};
ghost use Rattle.amqp_link.specs.declared.end.End.{End as LinkOf};
ghost use Rattle.amqp_endpoint_attached.specs.Detaching.{RefusesDetach, is_there};
ghost use Rattle.amqp_endpoint_attached.specs.Linked.{end_at, end_in};
ghost use Rattle.amqp_endpoint_messages.specs.All.{behind_told, open_count, told_by};
ghost use Rattle.amqp_endpoint_conversation.specs.Going.{Goes, Rests};
ghost use Rattle.amqp_endpoint_link_calls.specs.Calling.{DoneIn};
ghost use Rattle.amqp_endpoint_link_calls.specs.Closing.{BarsClosing, ClosedAt, ClosedBy, ClosedHeld, EndsBy};
ghost use Rattle.amqp_endpoint_link_calls.specs.Closing.{ForgetsHeld, ForgetsRest, RefusesClosing, TellsFailed};
ghost use Rattle.amqp_endpoint_link_calls.specs.Closing.{closed_end, closes, fails, is_detached, parted_at, rest_told};
ghost use Rattle.amqp_endpoint_link_calls.specs.Places.{end_live};

use crate::detaching::handle_is_short;
use crate::holding::{LinkTalk, holder};
use amqp_endpoint_attached as attached;
use amqp_endpoint_attached::LinkSession;
use amqp_endpoint_fitting::frames_are_read;
use amqp_endpoint_links::Numbered;
use amqp_endpoint_messages::{open_count, tell_by, tell_first};
use amqp_endpoint_model::{EndpointError, Event};
use amqp_endpoint_tables::{LinkPlace, Links};
use amqp_link::{End, LinkEnd};
use amqp_link_base::LinkState;
use amqp_session_core::Session;
use amqp_session_performatives::SessionFrame;
use amqp_session_types::OutputHandle;
use std::alloc::Global;
use std::collections::VecDeque;

/// Closes the link with this number for good (part 2, 2.6.6), and answers the outcomes of the messages that end by
/// that: of each that is open, in the order in which they were sent, that its link's state has become illegal. Where
/// the link is attached its own closing Detach, without an error, is handed out, or waits behind what the link has
/// waiting (part 2, 2.7.7); it fits each limit that a peer may set (part 2, 2.4.1). The link is held by its session
/// until the peer's Detach comes. A link that is at rest is unknown from now on, and nothing is handed out. So is one
/// that both ends detached while its own Detach waits behind its transfers: these frames leave all the same, in their
/// order, and its handle is occupied until then.
///
/// It is refused, in this order, with `UnknownLink` exactly where no link has the number, with `IllegalState` exactly
/// where a session holds the link and it is neither attached there nor detached by both ends, and with `Memory`.
/// Nothing changes then. A link at rest is refused with `Memory` alone.
pub fn close_link(
    talk: &mut LinkTalk,
    alloc: Global,
    links: &mut Links<LinkEnd>,
    link: u64,
    out: &mut VecDeque<SessionFrame>,
) -> Result<Vec<Event>, EndpointError>
    ensures ok { IfOk result (λ events. ClosedAt (place_at links.old link) talk.old links.old link out.old.items
        events.items talk.new links.new out.new.items) }
    ensures err { IfErr result (BarsClosing talk.old (place_at links.old link)) }
    ensures kept { OnErr result
        ((talk.new ≡ talk.old) × (links.new ≡ links.old) × (out.new.items ≡ out.old.items)) }
    ensures goes { (limit : ℕ) → 512 ≤ limit →
        Goes limit talk.old talk.new out.old.items out.new.items }
    ensures rests { Rests talk.old talk.new out.old.items out.new.items }
{
    if let Some(count) = open_at_rest(links, link) {
        return close_at_rest(alloc, links, link, count);
    }
    let (session, handle) = holder(links, link)?;
    close_there(talk, alloc, links, link, session, handle, out)
}

/// The link with this number, which the session with that number holds by this handle, is closed there, and its
/// outcomes are answered.
fn close_there(
    talk: &mut LinkTalk,
    alloc: Global,
    links: &mut Links<LinkEnd>,
    link: u64,
    session: u64,
    handle: OutputHandle,
    out: &mut VecDeque<SessionFrame>,
) -> Result<Vec<Event>, EndpointError>
    requires { place_at links.old link ≡ Some (Held session handle) }
    ensures ok { IfOk result (λ events. ClosedHeld
        (parted_at talk.old session handle) session handle talk.old links.old link
        out.old.items events.items talk.new links.new out.new.items) }
    ensures err { IfErr result (RefusesClosing (parted_at talk.old session handle)
        (end_live (live_at talk.old.sessions session) handle)) }
    ensures kept { OnErr result
        ((talk.new ≡ talk.old) × (links.new ≡ links.old) × (out.new.items ≡ out.old.items)) }
    ensures goes { (limit : ℕ) → 512 ≤ limit →
        Goes limit talk.old talk.new out.old.items out.new.items }
    ensures rests { Rests talk.old talk.new out.old.items out.new.items }
{
    if parted_at(talk, session, handle) {
        return close_parted(talk, alloc, links, link, session, handle);
    }
    close_held(talk, alloc, session, handle, out)
}

/// Whether both ends detached the link with this own handle, which the session with this number holds still.
fn parted_at(talk: &LinkTalk, session: u64, handle: OutputHandle) -> bool
    ensures { result ≡ parted_at talk.now session handle }
{
    let Some(session) = talk.sessions.live(session) else {
        return false;
    };
    match session.session.link(handle) {
        Some(link) => is_detached(link.link.local_state()),
        None => false,
    }
}

/// Whether a link in this state was detached by both ends.
fn is_detached(state: LinkState) -> bool
    ensures { result ≡ is_detached state }
{
    matches!(state, LinkState::Detached)
}

/// The link with this number, which its session holds by this handle though both ends detached it, is forgotten, and
/// its outcomes are answered. What it has waiting stays there. It is refused where there is no memory.
fn close_parted(
    talk: &mut LinkTalk,
    alloc: Global,
    links: &mut Links<LinkEnd>,
    link: u64,
    session: u64,
    handle: OutputHandle,
) -> Result<Vec<Event>, EndpointError>
    requires held { place_at links.old link ≡ Some (Held session handle) }
    requires parted { parted_at talk.old session handle ≡ true }
    ensures ok { (out : List SessionFrame) → IfOk result (λ events.
        ForgetsHeld session handle talk.old links.old link out events.items talk.new links.new out) }
    ensures err { IfErr result (λ e. e ≡ Memory) }
    ensures kept { OnErr result ((talk.new ≡ talk.old) × (links.new ≡ links.old)) }
    ensures goes { (limit : ℕ) (out : List SessionFrame) → Goes limit talk.old talk.new out out }
    ensures rests { (out : List SessionFrame) → Rests talk.old talk.new out out }
{
    let events = fail_held(talk, alloc, session, handle, link)?;
    let _ = links.close(link);
    Ok(events)
}

/// The link with this own handle in the session with this number, which both ends detached, tells under its number that
/// its messages end. It is refused where there is no memory.
fn fail_held(
    talk: &mut LinkTalk,
    alloc: Global,
    session: u64,
    handle: OutputHandle,
    link: u64,
) -> Result<Vec<Event>, EndpointError>
    requires { parted_at talk.old session handle ≡ true }
    ensures ok { (out : List SessionFrame) → IfOk result (λ events.
        DoneIn (fails link events.items) session handle talk.old out talk.new out) }
    ensures err { IfErr result (λ e. e ≡ Memory) }
    ensures kept { OnErr result (talk.new ≡ talk.old) }
    ensures goes { (limit : ℕ) (out : List SessionFrame) → Goes limit talk.old talk.new out out }
    ensures rests { (out : List SessionFrame) → Rests talk.old talk.new out out }
{
    let Some(session) = talk.sessions.live_mut(session) else {
        unreachable!()
    };
    fail_in(session, alloc, handle, link)
}

/// The link of the session with this own handle tells so.
fn fail_in(
    session: &mut LinkSession,
    alloc: Global,
    handle: OutputHandle,
    link: u64,
) -> Result<Vec<Event>, EndpointError>
    requires { IsSome (end_at session.old handle) }
    ensures ok { IfOk result (λ events. TellsFailed link events.items handle session.old [] session.new) }
    ensures err { IfErr result (λ e. e ≡ Memory) }
    ensures kept { OnErr result (session.new ≡ session.old) }
{
    let count = count_in(session, handle);
    let mut events = Vec::with_capacity(alloc, count)?;
    fail_by(
        &mut session.session,
        alloc,
        handle,
        link,
        count,
        &mut events,
    );
    Ok(events)
}

/// How many messages are open of the link of the session with this own handle.
fn count_in(session: &LinkSession, handle: OutputHandle) -> usize
    ensures { result ≡ open_count (end_at session.now handle) }
{
    match session.session.link(handle) {
        Some(link) => open_count(&link.link),
        None => 0,
    }
}

/// The link with this own handle tells of so many messages that they end. There is room for it.
fn fail_by(
    session: &mut Session<Numbered<LinkEnd>>,
    alloc: Global,
    handle: OutputHandle,
    link: u64,
    count: usize,
    events: &mut Vec<Event>,
)
    requires there { IsSome (end_in session.old handle) }
    requires room { vec_len events.old + count ≤ vec_capacity events.old }
    ensures { EndsBy link count handle session.old events.old.items session.new events.new.items }
{
    let Some(held) = session.link_mut(handle) else {
        unreachable!()
    };
    fail_end(alloc, &mut held.link, link, count, events);
}

/// A link that is closed without a frame tells of so many messages. There is room for it.
fn fail_end(alloc: Global, end: &mut LinkEnd, link: u64, count: usize, events: &mut Vec<Event>)
    requires { vec_len events.old + count ≤ vec_capacity events.old }
    ensures ends { end.new ≡ behind_told count (closed_end end.old) }
    ensures told { events.new.items ≡ events.old.items ++ told_by link None count (closed_end end.old) }
{
    close_end(end);
    tell_by(end, link, count, Vec::new(alloc), events);
}

/// How many messages are open of the link with this number, if it is at rest.
fn open_at_rest(links: &Links<LinkEnd>, link: u64) -> Option<usize>
    ensures { result ≡ option_map (λ (end : LinkOf). open_count (Some end))
        (rest_at links.now link) }
{
    match links.at_rest(link) {
        Some(end) => Some(open_count(end)),
        None => None,
    }
}

/// The link with this number, which is at rest, and of which so many messages are open, is forgotten, and its outcomes
/// are answered. It is refused where there is no memory.
fn close_at_rest(
    alloc: Global,
    links: &mut Links<LinkEnd>,
    link: u64,
    count: usize,
) -> Result<Vec<Event>, EndpointError>
    ensures ok { IfOk result (λ events. (end : LinkOf) → place_at links.old link ≡ Some (AtRest end) →
        count ≡ open_count (Some end) → ForgetsRest end links.old link events.items links.new) }
    ensures err { IfErr result (λ e. e ≡ Memory) }
    ensures kept { OnErr result (links.new ≡ links.old) }
{
    let mut events = Vec::with_capacity(alloc, count)?;
    if let Some(place) = links.close(link) {
        tell_closed(alloc, place, link, count, &mut events);
    }
    Ok(events)
}

/// Tells of so many messages of a link that is closed in its place. There is room for it.
fn tell_closed(
    alloc: Global,
    place: LinkPlace<LinkEnd>,
    link: u64,
    count: usize,
    events: &mut Vec<Event>,
)
    requires { vec_len events.old + count ≤ vec_capacity events.old }
    ensures { (end : LinkOf) → place ≡ AtRest end →
        events.new.items ≡ events.old.items ++ told_by link None count (closed_end end) }
{
    match place {
        LinkPlace::AtRest(end) => tell_rest(alloc, end, link, count, events),
        LinkPlace::Held { .. } => {}
    }
}

/// Tells of so many messages of a link that is closed at rest. There is room for it.
fn tell_rest(alloc: Global, end: LinkEnd, link: u64, count: usize, events: &mut Vec<Event>)
    requires { vec_len events.old + count ≤ vec_capacity events.old }
    ensures { events.new.items ≡ events.old.items ++ told_by link None count (closed_end end) }
{
    let mut end = end;
    fail_end(alloc, &mut end, link, count, events);
}

/// A link is closed without a frame: the open messages of a sending one end without an outcome.
fn close_end(end: &mut LinkEnd)
    ensures { end.new ≡ closed_end end.old }
{
    match end.end_mut() {
        End::Sender(sender) => sender.close_at_rest(),
        End::Receiver(_) => {}
    }
}

/// The link with this own handle in the session with this number is closed, and its outcomes are answered. Its Detach
/// fits each limit that a peer may set.
fn close_held(
    talk: &mut LinkTalk,
    alloc: Global,
    session: u64,
    handle: OutputHandle,
    out: &mut VecDeque<SessionFrame>,
) -> Result<Vec<Event>, EndpointError>
    ensures ok { IfOk result (λ events. DoneIn (closes events.items) session handle talk.old out.old.items talk.new
        out.new.items) }
    ensures err { IfErr result (RefusesDetach
        (end_live (live_at talk.old.sessions session) handle)) }
    ensures kept { OnErr result ((talk.new ≡ talk.old) × (out.new.items ≡ out.old.items)) }
    ensures goes { (limit : ℕ) → 512 ≤ limit →
        Goes limit talk.old talk.new out.old.items out.new.items }
    ensures rests { Rests talk.old talk.new out.old.items out.new.items }
{
    handle_is_short(handle);
    let from = out.len();
    let closed = close_in(talk, alloc, session, handle, out);
    frames_are_read(out, from);
    closed
}

/// The link with this own handle in the session with this number is closed, and its outcomes are answered.
fn close_in(
    talk: &mut LinkTalk,
    alloc: Global,
    session: u64,
    handle: OutputHandle,
    out: &mut VecDeque<SessionFrame>,
) -> Result<Vec<Event>, EndpointError>
    ensures ok { IfOk result (λ events. DoneIn (closes events.items) session handle talk.old out.old.items talk.new
        out.new.items) }
    ensures err { IfErr result (RefusesDetach
        (end_live (live_at talk.old.sessions session) handle)) }
    ensures kept { OnErr result ((talk.new ≡ talk.old) × (out.new.items ≡ out.old.items)) }
{
    let Some(session) = talk.sessions.live_mut(session) else {
        return Err(EndpointError::IllegalState);
    };
    close_by(session, alloc, handle, out)
}

/// The link of the session with this own handle is closed, and its outcomes are answered.
fn close_by(
    session: &mut LinkSession,
    alloc: Global,
    handle: OutputHandle,
    out: &mut VecDeque<SessionFrame>,
) -> Result<Vec<Event>, EndpointError>
    ensures ok { IfOk result (λ events. ClosedBy events.items handle session.old out.old.items session.new
        out.new.items) }
    ensures err { IfErr result (RefusesDetach (end_at session.old handle)) }
    ensures kept { OnErr result ((session.new ≡ session.old) × (out.new.items ≡ out.old.items)) }
{
    let count = open_in(session, handle)?;
    let mut events = Vec::with_capacity(alloc, count)?;
    attached::detach(session, alloc, handle, true, None, out)?;
    tell_first(session, handle, count, Vec::new(alloc), &mut events);
    Ok(events)
}

/// How many messages are open of the link of the session with this own handle.
///
/// It is refused with `IllegalState` alone, exactly where no attached link has the handle.
fn open_in(session: &LinkSession, handle: OutputHandle) -> Result<usize, EndpointError>
    ensures there { OnOk result (is_there (end_at session.now handle) ≡ true) }
    ensures ok { IfOk result (λ count. count ≡ open_count (end_at session.now handle)) }
    ensures err { IfErr result (λ e. (e ≡ IllegalState)
        × (is_there (end_at session.now handle) ≡ false)) }
{
    let Some(link) = session.session.link(handle) else {
        return Err(EndpointError::IllegalState);
    };
    if !link.link.local_state().is_attached() {
        return Err(EndpointError::IllegalState);
    }
    Ok(open_count(&link.link))
}

//! How a link is detached, by its number (part 2, 2.6.5).
ghost use Rattle.std.specs.Prelude.{◌≡◌, ◌≤◌, ◌<◌, ◌^◌, ℕ, false, IfErr, OnErr, OnOk};
ghost use Rattle.amqp_endpoint_tables.specs.LinkState.{place_at};
ghost use Rattle.amqp_endpoint_tables.specs.State.{live_at};
ghost use Rattle.amqp_endpoint_attached.specs.Detaching.{RefusesDetach};
ghost use Rattle.amqp_endpoint_conversation.specs.Going.{Goes, Rests};
ghost use Rattle.amqp_endpoint_link_calls.specs.Calling.{BarsDetach, DoneAt, DoneIn, detaches};
ghost use Rattle.amqp_endpoint_link_calls.specs.Places.{end_live};

use crate::holding::{LinkTalk, holder};
use amqp_endpoint_attached as attached;
use amqp_endpoint_fitting::frames_are_read;
use amqp_endpoint_model::EndpointError;
use amqp_endpoint_tables::Links;
use amqp_link::LinkEnd;
use amqp_session_performatives::SessionFrame;
use amqp_session_types::OutputHandle;
use std::alloc::Global;
use std::collections::VecDeque;

/// Detaches the link with this number, which keeps its deliveries and can be resumed (part 2, 2.6.4, 2.6.5). Its own
/// Detach, without an error, is handed out, or waits behind what the link has waiting (part 2, 2.7.7); it fits each
/// limit that a peer may set (part 2, 2.4.1). The link is held by its session until the peer's Detach comes.
///
/// It is refused, in this order, with `UnknownLink` exactly where no link has the number, with `IllegalState` exactly
/// where the link is at rest or isn't attached in its session, and with `Memory`. Nothing changes then.
pub fn detach(
    talk: &mut LinkTalk,
    alloc: Global,
    links: &Links<LinkEnd>,
    link: u64,
    out: &mut VecDeque<SessionFrame>,
) -> Result<(), EndpointError>
    ensures ok { OnOk result
        (DoneAt (detaches false) (place_at links.now link) talk.old out.old.items talk.new out.new.items) }
    ensures err { IfErr result (BarsDetach talk.old (place_at links.now link)) }
    ensures kept { OnErr result ((talk.new ≡ talk.old) × (out.new.items ≡ out.old.items)) }
    ensures goes { (limit : ℕ) → 512 ≤ limit →
        Goes limit talk.old talk.new out.old.items out.new.items }
    ensures rests { Rests talk.old talk.new out.old.items out.new.items }
{
    let (session, handle) = holder(links, link)?;
    detach_held(talk, alloc, session, handle, out)
}

/// The link with this own handle in the session with this number is detached. Its Detach fits each limit that a peer
/// may set.
fn detach_held(
    talk: &mut LinkTalk,
    alloc: Global,
    session: u64,
    handle: OutputHandle,
    out: &mut VecDeque<SessionFrame>,
) -> Result<(), EndpointError>
    ensures ok { OnOk result
        (DoneIn (detaches false) session handle talk.old out.old.items talk.new out.new.items) }
    ensures err { IfErr result (RefusesDetach
        (end_live (live_at talk.old.sessions session) handle)) }
    ensures kept { OnErr result ((talk.new ≡ talk.old) × (out.new.items ≡ out.old.items)) }
    ensures goes { (limit : ℕ) → 512 ≤ limit →
        Goes limit talk.old talk.new out.old.items out.new.items }
    ensures rests { Rests talk.old talk.new out.old.items out.new.items }
{
    handle_is_short(handle);
    let from = out.len();
    let detached = detach_in(talk, alloc, session, handle, out);
    frames_are_read(out, from);
    detached
}

/// The link with this own handle in the session with this number is detached.
fn detach_in(
    talk: &mut LinkTalk,
    alloc: Global,
    session: u64,
    handle: OutputHandle,
    out: &mut VecDeque<SessionFrame>,
) -> Result<(), EndpointError>
    ensures ok { OnOk result
        (DoneIn (detaches false) session handle talk.old out.old.items talk.new out.new.items) }
    ensures err { IfErr result (RefusesDetach
        (end_live (live_at talk.old.sessions session) handle)) }
    ensures kept { OnErr result ((talk.new ≡ talk.old) × (out.new.items ≡ out.old.items)) }
{
    let Some(session) = talk.sessions.live_mut(session) else {
        return Err(EndpointError::IllegalState);
    };
    attached::detach(session, alloc, handle, false, None, out)
}

/// The number of a handle is that of a uint (part 2, 2.8.4).
pub(crate) fn handle_is_short(handle: OutputHandle)
    ensures { handle.0 < 2 ^ 32 }
{
    let _number = handle.0;
}

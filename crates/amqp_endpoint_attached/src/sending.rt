//! What is sent for a link of a session (part 2, 2.7.4, 2.7.7).
ghost use Rattle.std.specs.Prelude.{◌≡◌, ◌++◌, ◌≤◌, ◌<◌, IfOk, IsSome, OnOk, option_to_list};
ghost use Rattle.std.specs.VecDeque.{deque_len, deque_capacity};
ghost use Rattle.amqp_session_outgoing.specs.Queues.{room_behind};
ghost use Rattle.amqp_session_core.specs.State.{link_at};
ghost use Rattle.amqp_session_core.specs.declared.batch.BehindFrame.TheVariants as behind;
ghost use Rattle.amqp_endpoint_attached.specs.Sent.{HandsOut};

use amqp_endpoint_links::{AskingSession, Numbered};
use amqp_link::LinkEnd;
use amqp_session_core::{BehindFrame, LinkRelay, Session};
use amqp_session_outgoing::Place;
use amqp_session_performatives::{Detach, LinkFlow, SessionFrame};
use amqp_session_types::OutputHandle;
use std::alloc::{AllocError, Global};
use std::collections::VecDeque;

/// A session of an endpoint, with links that bear their numbers, and those that its peer asks for.
pub type LinkSession = AskingSession<Numbered<LinkEnd>>;

/// Room for a frame behind what the link has waiting, and for one that is handed out. It is refused where there is no
/// memory.
pub(crate) fn room_for_frame<R: LinkRelay>(
    session: &Session<R>,
    alloc: Global,
    handle: OutputHandle,
    out: &mut VecDeque<SessionFrame>,
) -> Result<Place<BehindFrame>, AllocError>
    ensures place { IfOk result (λ place.
        room_behind handle.0 1 session.now.outgoing.queues ≤ place) }
    ensures spare { OnOk result (deque_len out.new < deque_capacity out.new) }
    ensures same { out.new.items ≡ out.old.items }
    ensures capacity { deque_capacity out.old ≤ deque_capacity out.new }
{
    out.reserve(1)?;
    match session.place_behind(alloc, handle, 1) {
        Ok(place) => Ok(place),
        Err(_) => Err(AllocError),
    }
}

/// Sends a Flow of a link for which there is room, on the link's own handle.
pub(crate) fn send_flow<R: LinkRelay>(
    session: &mut Session<R>,
    handle: OutputHandle,
    place: Place<BehindFrame>,
    flow: LinkFlow,
    out: &mut VecDeque<SessionFrame>,
)
    requires there { IsSome (link_at session.old handle.0) }
    requires place { room_behind handle.0 1 session.old.outgoing.queues ≤ place }
    requires spare { deque_len out.old < deque_capacity out.old }
    ensures sent { HandsOut R.gives session.old handle (behind.Flow (record flow { handle = record { 0 = handle.0 } }))
        out.old.items session.new out.new.items }
    ensures capacity { deque_capacity out.new ≡ deque_capacity out.old }
{
    let Ok(frame) = session.on_outgoing_flow_in(handle, place, flow) else {
        unreachable!()
    };
    queue(out, frame);
}

/// Sends a Detach of a link for which there is room, on the link's own handle.
pub(crate) fn send_detach<R: LinkRelay>(
    session: &mut Session<R>,
    handle: OutputHandle,
    place: Place<BehindFrame>,
    detach: Detach,
    out: &mut VecDeque<SessionFrame>,
)
    requires there { IsSome (link_at session.old handle.0) }
    requires place { room_behind handle.0 1 session.old.outgoing.queues ≤ place }
    requires spare { deque_len out.old < deque_capacity out.old }
    ensures sent { HandsOut R.gives session.old handle
        (behind.Detach (record detach { handle = record { 0 = handle.0 } }))
        out.old.items session.new out.new.items }
    ensures capacity { deque_capacity out.new ≡ deque_capacity out.old }
{
    let Ok(frame) = session.on_outgoing_detach_in(handle, place, detach) else {
        unreachable!()
    };
    queue(out, frame);
}

/// A frame is handed out, if there is one. There is room for it.
pub(crate) fn queue<F: Drop>(out: &mut VecDeque<F>, frame: Option<F>)
    requires { deque_len out.old < deque_capacity out.old }
    ensures items { out.new.items ≡ out.old.items ++ option_to_list frame }
    ensures capacity { deque_capacity out.new ≡ deque_capacity out.old }
{
    if let Some(frame) = frame {
        out.push_back_reserved(frame);
    }
}

//! What was kept of a Flow for a link that the peer asked for, once a link answers it (part 2, 2.6.3, 2.7.4).
ghost use Rattle.std.specs.Prelude.{◌≡◌, ◌≤◌, ◌<◌, IsSome};
ghost use Rattle.std.specs.VecDeque.{deque_len, deque_capacity};
ghost use Rattle.amqp_session_outgoing.specs.Queues.{room_behind};
ghost use Rattle.amqp_session_core.specs.State.{link_at};
ghost use Rattle.amqp_link.specs.Ends.{flow_answer, flowed};
ghost use Rattle.amqp_endpoint_attached.specs.Kept.{Replies, TakesBy, TakesKept};

use crate::sending::{LinkSession, queue};
use amqp_endpoint_links::Numbered;
use amqp_link::{End, LinkEnd};
use amqp_session_core::{BehindFrame, LinkRelay, Session};
use amqp_session_outgoing::Place;
use amqp_session_performatives::{LinkFlow, SessionFrame};
use amqp_session_types::OutputHandle;
use std::collections::VecDeque;

/// The link with this own handle takes what was kept of a Flow, if one came, and replies to it where it is attached and
/// the Flow wants that (part 2, 2.7.4). There is room for the reply, behind what the link has waiting too. It takes no
/// memory.
pub fn take_kept(
    session: &mut LinkSession,
    handle: OutputHandle,
    kept: Option<LinkFlow>,
    place: Place<BehindFrame>,
    out: &mut VecDeque<SessionFrame>,
)
    requires there { IsSome (link_at session.old.session handle.0) }
    requires place { room_behind handle.0 1 session.old.session.outgoing.queues ≤ place }
    requires room { deque_len out.old < deque_capacity out.old }
    ensures takes { TakesKept handle kept session.old out.old.items session.new out.new.items }
    ensures capacity { deque_capacity out.new ≡ deque_capacity out.old }
{
    match kept {
        Some(flow) => {
            let reply = take_flow(&mut session.session, handle, flow);
            send_reply(&mut session.session, handle, place, reply, out);
        }
        None => {}
    }
}

/// The link takes a Flow, and answers the one with which it replies.
fn take_flow(
    session: &mut Session<Numbered<LinkEnd>>,
    handle: OutputHandle,
    flow: LinkFlow,
) -> Option<LinkFlow>
    requires { IsSome (link_at session.old handle.0) }
    ensures { TakesBy handle flow result session.old session.new }
{
    let Some(link) = session.link_mut(handle) else {
        unreachable!()
    };
    on_incoming_flow(&mut link.link, flow)
}

/// An end of one does.
fn on_incoming_flow(link: &mut LinkEnd, flow: LinkFlow) -> Option<LinkFlow>
    ensures state { link.new ≡ flowed link.old flow }
    ensures reply { result ≡ flow_answer link.old flow }
{
    match link.end_mut() {
        End::Sender(link) => link.on_incoming_flow(flow),
        End::Receiver(link) => link.on_incoming_flow(flow),
    }
}

/// The Flow with which a link replies is sent, if there is one. There is room for it.
fn send_reply<R: LinkRelay>(
    session: &mut Session<R>,
    handle: OutputHandle,
    place: Place<BehindFrame>,
    reply: Option<LinkFlow>,
    out: &mut VecDeque<SessionFrame>,
)
    requires there { IsSome (link_at session.old handle.0) }
    requires place { room_behind handle.0 1 session.old.outgoing.queues ≤ place }
    requires room { deque_len out.old < deque_capacity out.old }
    ensures replies { Replies R.gives handle reply session.old out.old.items session.new out.new.items }
    ensures capacity { deque_capacity out.new ≡ deque_capacity out.old }
{
    let Some(flow) = reply else {
        return;
    };
    let Ok(frame) = session.on_outgoing_flow_in(handle, place, flow) else {
        unreachable!()
    };
    queue(out, frame);
}

//! What the peer says to the sessions (part 2, 2.5, 2.6).
ghost use Rattle.std.specs.Prelude.{◌≡◌, ◌≤◌, ℕ, IfErr, OnErr, OnOk};
ghost use Rattle.amqp_endpoint_model.specs.Relay.{IsOfSession, IsSessionFault};
ghost use Rattle.amqp_endpoint_conversation.specs.Going.{Goes, Rests};
ghost use Rattle.amqp_endpoint_linking.specs.Handed.{Tells};
ghost use Rattle.amqp_endpoint.specs.Hearing.{Hears, Refuses};

use amqp_endpoint_conversation::Conversation;
use amqp_endpoint_link_hearing::{
    hear_attach, hear_detach, hear_disposition, hear_flow, hear_transfer,
};
use amqp_endpoint_linking::{hear_begin, hear_end};
use amqp_endpoint_links::Numbered;
use amqp_endpoint_model::{EndpointError, Event};
use amqp_endpoint_tables::Links;
use amqp_link::LinkEnd;
use amqp_session_frames::FrameBody;
use amqp_session_performatives::SessionFrame;
use amqp_session_types::IncomingChannel;
use std::alloc::Global;
use std::collections::VecDeque;

/// Takes a frame of the peer that is neither Open nor Close, by the function that is for its performative. `given`
/// counts the messages that are handed out; no frame that is handed out is longer than `limit` bytes.
///
/// It ends the connection as that function says. Nothing is handed out or told then, and no link changes.
#[inline(never)]
pub(crate) fn hear(
    talk: &mut Conversation<Numbered<LinkEnd>>,
    links: &mut Links<LinkEnd>,
    given: &mut u64,
    alloc: Global,
    limit: u32,
    channel: IncomingChannel,
    body: FrameBody,
    out: &mut VecDeque<SessionFrame>,
    events: &mut Vec<Event>,
) -> Result<(), EndpointError>
    requires theirs { IsOfSession body }
    ensures ok { OnOk result
        (Tells (λ frames told. Hears talk.old links.old given.old limit channel body frames told
        talk.new links.new given.new)
        out.old.items events.old.items out.new.items events.new.items) }
    ensures err { IfErr result (λ e. IsSessionFault e × Refuses talk.old links.old given.old limit channel body e
        talk.new links.new) }
    ensures kept { OnErr result ((links.new ≡ links.old) × (given.new ≡ given.old) × (out.new.items ≡ out.old.items)
        × (events.new.items ≡ events.old.items)) }
    ensures goes { 512 ≤ limit → Goes limit talk.old talk.new out.old.items out.new.items }
    ensures rests { Rests talk.old talk.new out.old.items out.new.items }
{
    match body {
        FrameBody::Begin(begin) => hear_begin(talk, links, alloc, channel, begin, out, events),
        FrameBody::Attach(attach) => {
            hear_attach(talk, links, alloc, limit, channel, attach, out, events)
        }
        FrameBody::Flow(flow) => hear_flow(talk, links, alloc, limit, channel, flow, out, events),
        FrameBody::Transfer {
            performative,
            payload,
        } => hear_transfer(
            talk,
            links,
            given,
            alloc,
            channel,
            performative,
            payload,
            out,
            events,
        ),
        FrameBody::Disposition(disposition) => {
            hear_disposition(talk, links, alloc, limit, channel, disposition, out, events)
        }
        FrameBody::Detach(detach) => {
            hear_detach(talk, links, alloc, limit, channel, detach, out, events)
        }
        FrameBody::End(end) => hear_end(talk, links, channel, end, out, events),
        FrameBody::Empty | FrameBody::Open(_) | FrameBody::Close(_) => unreachable!(),
    }
}

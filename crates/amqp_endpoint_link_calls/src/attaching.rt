//! How a link attaches in one of an endpoint's sessions (part 2, 2.6.3).
ghost use Rattle.std.specs.Prelude.{◌≡◌, ◌≤◌, true, IfErr, IfOk, OnErr};
ghost use Rattle.amqp_link.specs.Ends.{state_of};
ghost use Rattle.amqp_endpoint_attached.specs.Links.{is_at_rest, receiver_by, sender_by};
ghost use Rattle.amqp_endpoint_conversation.specs.Going.{Goes, Rests};
ghost use Rattle.amqp_endpoint_link_calls.specs.Attaching.{LinkAttaches};
ghost use Rattle.amqp_endpoint_link_calls.specs.Refusals.{BarsAttaching, BarsPlacing};

use crate::LinkTalk;
use crate::entering::{enter, prepare};
use crate::looking::attach_refusal;
use crate::placed::Placed;
use crate::placing::{Coming, attach_new};
use amqp_endpoint_attached::{receiver, sender};
use amqp_endpoint_model::{EndpointError, LinkSettings};
use amqp_endpoint_tables::Links;
use amqp_link::LinkEnd;
use amqp_session_performatives::SessionFrame;
use amqp_session_types::Role;
use std::alloc::Global;
use std::collections::VecDeque;

/// Attaches a link, which is at rest, in the session with this number (part 2, 2.6.3). It gets the next number, and the
/// session holds it under the handle that it offers. Its own Attach is handed out; it lists as many of the link's
/// unsettled deliveries as a frame of `limit` bytes holds. Where the peer asks there for a link of its name, and has
/// the other end of it, the link answers that, and takes the peer's Attach: `Attached` is told, and behind that the
/// outcomes of its messages that the peer's list decides; then it gives up the deliveries that are to be given up, in
/// their order, each by a transfer of its own (part 2, 2.6.13), takes what was kept of a Flow, to which it replies where
/// that wants it (part 2, 2.7.4), and sends on as many of its open messages as it has credit for then (part 2, 2.6.7).
/// Where no frame of `limit` bytes holds one of these transfers, or its number is in use, the link is closed instead:
/// `Refused` is told with `FrameTooLarge` or `NumberInUse`, and behind that the outcomes of its messages that end by
/// it. What is handed out fits a `limit` of 512 or more.
///
/// It is refused, tested in this order, with `UnknownSession` exactly where no session has the number; with
/// `IllegalState` exactly where the session isn't mapped (part 2, 2.5.5); with `DuplicatedLinkName` exactly where a
/// link that isn't closed has the name (part 2, 2.6.1); with `HandleMaxReached` exactly where the handle that is
/// offered is above the peer's handle-max (part 2, 2.7.2); with `Link` exactly where a test of the link refuses the
/// Attach of the one that it answers, with the error of the first that does; with `FrameTooLarge` exactly where its own
/// Attach fits no frame of `limit` bytes, even without its unsettled deliveries; and with `Memory`, which may stand in
/// place of each behind `DuplicatedLinkName`. It is refused with `Session(HandleInUse)` where a link of the session has
/// the handle of the one that it answers (part 2, 2.8.17): none has in a session whose links came by frames and calls.
/// Nothing changes then, and the link is dropped.
pub fn attach(
    talk: &mut LinkTalk,
    links: &mut Links<LinkEnd>,
    alloc: Global,
    limit: u32,
    session: u64,
    link: LinkEnd,
    out: &mut VecDeque<SessionFrame>,
) -> Result<Placed, EndpointError>
    requires { is_at_rest (state_of link) ≡ true }
    ensures ok { IfOk result (λ placed. LinkAttaches talk.old links.old out.old.items limit session link placed
        talk.new links.new out.new.items) }
    ensures err { IfErr result (BarsPlacing limit talk.old links.old session link) }
    ensures kept { OnErr result
        ((talk.new ≡ talk.old) × (links.new ≡ links.old) × (out.new.items ≡ out.old.items)) }
    ensures goes { 512 ≤ limit → Goes limit talk.old talk.new out.old.items out.new.items }
    ensures rests { Rests talk.old talk.new out.old.items out.new.items }
{
    let room = links.room();
    let name = prepare(talk, links, session, &link.base().name)?;
    let coming = Coming {
        number: links.next_number(),
        session,
        link,
    };
    let placed = attach_new(talk, alloc, limit, coming, out);
    enter(links, room, name, &placed);
    placed
}

/// Attaches a sending link with these settings, which is new, in the session with this number, as `attach` does (part
/// 2, 2.6.3, 2.7.3).
///
/// It is refused as `attach` is, but that `Memory` stands in place of none but `FrameTooLarge` and
/// `Session(HandleInUse)`, and of `Link` where that tells a list of filters. Nothing changes then.
pub fn attach_sender(
    talk: &mut LinkTalk,
    links: &mut Links<LinkEnd>,
    alloc: Global,
    limit: u32,
    session: u64,
    settings: &LinkSettings,
    out: &mut VecDeque<SessionFrame>,
) -> Result<Placed, EndpointError>
    ensures ok { IfOk result (λ placed. LinkAttaches talk.old links.old out.old.items limit session
        (sender_by settings.now) placed talk.new links.new out.new.items) }
    ensures err { IfErr result (BarsAttaching limit talk.old links.old session
        (sender_by settings.now)) }
    ensures kept { OnErr result
        ((talk.new ≡ talk.old) × (links.new ≡ links.old) × (out.new.items ≡ out.old.items)) }
    ensures goes { 512 ≤ limit → Goes limit talk.old talk.new out.old.items out.new.items }
    ensures rests { Rests talk.old talk.new out.old.items out.new.items }
{
    match attach_refusal(talk, links, alloc, session, Role::Sender, settings) {
        Some(refusal) => Err(refusal),
        None => match sender(alloc, settings) {
            Ok(link) => attach(talk, links, alloc, limit, session, link, out),
            Err(_) => Err(EndpointError::Memory),
        },
    }
}

/// Attaches a receiving link with these settings in the session with this number, as `attach_sender` does a sending
/// one (part 2, 2.6.3, 2.7.3).
///
/// It is refused as that is. Nothing changes then.
pub fn attach_receiver(
    talk: &mut LinkTalk,
    links: &mut Links<LinkEnd>,
    alloc: Global,
    limit: u32,
    session: u64,
    settings: &LinkSettings,
    out: &mut VecDeque<SessionFrame>,
) -> Result<Placed, EndpointError>
    ensures ok { IfOk result (λ placed. LinkAttaches talk.old links.old out.old.items limit session
        (receiver_by settings.now) placed talk.new links.new out.new.items) }
    ensures err { IfErr result (BarsAttaching limit talk.old links.old session
        (receiver_by settings.now)) }
    ensures kept { OnErr result
        ((talk.new ≡ talk.old) × (links.new ≡ links.old) × (out.new.items ≡ out.old.items)) }
    ensures goes { 512 ≤ limit → Goes limit talk.old talk.new out.old.items out.new.items }
    ensures rests { Rests talk.old talk.new out.old.items out.new.items }
{
    match attach_refusal(talk, links, alloc, session, Role::Receiver, settings) {
        Some(refusal) => Err(refusal),
        None => match receiver(alloc, settings) {
            Ok(link) => attach(talk, links, alloc, limit, session, link, out),
            Err(_) => Err(EndpointError::Memory),
        },
    }
}

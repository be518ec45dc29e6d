//! How a link attaches, and what comes of it at once (part 2, 2.6.3).
ghost use Rattle.std.specs.Prelude.{◌≡◌, ◌≤◌, IfErr, IfOk, OnErr};
ghost use Rattle.amqp_endpoint_conversation.specs.Going.{Goes, Rests};
ghost use Rattle.amqp_endpoint_attached.specs.Links.{receiver_by, sender_by};
ghost use Rattle.amqp_endpoint_link_calls.specs.Refusals.{BarsAttaching, BarsResuming};
ghost use Rattle.amqp_endpoint_linking.specs.Handed.{Hands};
ghost use Rattle.amqp_endpoint.specs.Attaching.{LinkAttached, LinkResumed};

use amqp_endpoint_conversation::Conversation;
use amqp_endpoint_link_calls as link;
use amqp_endpoint_link_calls::{Again, Placed};
use amqp_endpoint_links::Numbered;
use amqp_endpoint_model::{Attaching, EndpointError, LinkSettings};
use amqp_endpoint_tables::Links;
use amqp_link::LinkEnd;
use amqp_session_performatives::SessionFrame;
use std::alloc::Global;
use std::collections::VecDeque;

/// Attaches a sending link with these settings in the session with this number, and answers its number with what comes
/// of it at once (part 2, 2.6.3).
///
/// It is refused as `amqp_endpoint_link_calls::attach_sender` is. Nothing changes then.
pub(crate) fn attach_sender(
    talk: &mut Conversation<Numbered<LinkEnd>>,
    links: &mut Links<LinkEnd>,
    alloc: Global,
    limit: u32,
    session: u64,
    settings: &LinkSettings,
    out: &mut VecDeque<SessionFrame>,
) -> Result<Attaching, EndpointError>
    ensures ok { IfOk result (λ a. Hands (λ frames. LinkAttached talk.old links.old limit session
        (sender_by settings.now) a.link a.events.items frames talk.new links.new) out.old.items out.new.items) }
    ensures err { IfErr result (BarsAttaching limit talk.old links.old session
        (sender_by settings.now)) }
    ensures kept { OnErr result
        ((talk.new ≡ talk.old) × (links.new ≡ links.old) × (out.new.items ≡ out.old.items)) }
    ensures goes { 512 ≤ limit → Goes limit talk.old talk.new out.old.items out.new.items }
    ensures rests { Rests talk.old talk.new out.old.items out.new.items }
{
    let placed = link::attach_sender(talk, links, alloc, limit, session, settings, out)?;
    Ok(told(placed))
}

/// Attaches a receiving link with these settings, as `attach_sender` does a sending one. It is refused as that is.
pub(crate) fn attach_receiver(
    talk: &mut Conversation<Numbered<LinkEnd>>,
    links: &mut Links<LinkEnd>,
    alloc: Global,
    limit: u32,
    session: u64,
    settings: &LinkSettings,
    out: &mut VecDeque<SessionFrame>,
) -> Result<Attaching, EndpointError>
    ensures ok { IfOk result (λ a. Hands (λ frames. LinkAttached talk.old links.old limit session
        (receiver_by settings.now) a.link a.events.items frames talk.new links.new) out.old.items out.new.items) }
    ensures err { IfErr result (BarsAttaching limit talk.old links.old session
        (receiver_by settings.now)) }
    ensures kept { OnErr result
        ((talk.new ≡ talk.old) × (links.new ≡ links.old) × (out.new.items ≡ out.old.items)) }
    ensures goes { 512 ≤ limit → Goes limit talk.old talk.new out.old.items out.new.items }
    ensures rests { Rests talk.old talk.new out.old.items out.new.items }
{
    let placed = link::attach_receiver(talk, links, alloc, limit, session, settings, out)?;
    Ok(told(placed))
}

/// Attaches the link with this number again, which is at rest, in the session with that number, and answers its number
/// with what comes of it at once (part 2, 2.6.3, 2.6.13).
///
/// It is refused as `amqp_endpoint_link_calls::resume` is. Nothing changes then.
pub(crate) fn resume(
    talk: &mut Conversation<Numbered<LinkEnd>>,
    links: &mut Links<LinkEnd>,
    alloc: Global,
    limit: u32,
    again: Again,
    out: &mut VecDeque<SessionFrame>,
) -> Result<Attaching, EndpointError>
    ensures ok { IfOk result (λ a. Hands (λ frames. LinkResumed talk.old links.old limit again.link again.session
        a.link a.events.items frames talk.new links.new) out.old.items out.new.items) }
    ensures err { IfErr result (BarsResuming limit talk.old links.old again.link again.session) }
    ensures kept { OnErr result
        ((talk.new ≡ talk.old) × (links.new ≡ links.old) × (out.new.items ≡ out.old.items)) }
    ensures goes { 512 ≤ limit → Goes limit talk.old talk.new out.old.items out.new.items }
    ensures rests { Rests talk.old talk.new out.old.items out.new.items }
{
    let placed = link::resume(talk, links, alloc, limit, again, out)?;
    Ok(told(placed))
}

/// What comes of a link that attaches, for its owner.
fn told(placed: Placed) -> Attaching
    ensures { (result.link ≡ placed.link) × (result.events.items ≡ placed.events.items) }
{
    let Placed {
        link,
        session: _,
        handle: _,
        events,
    } = placed;
    Attaching { link, events }
}

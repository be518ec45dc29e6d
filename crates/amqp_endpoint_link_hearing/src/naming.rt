//! The link that a peer's Attach names (part 2, 2.6.1, 2.6.3).
ghost use Rattle.std.specs.Prelude.{◌≡◌, IsSome, Some, option_copied};
ghost use Rattle.amqp_endpoint_link_hearing.specs.Naming.{IsNamed, IsNamedOn};
ghost use Rattle.amqp_endpoint_link_hearing.specs.Naming.{is_other, link_of, named_end, named_held, standing};
ghost use Rattle.amqp_endpoint_linking.specs.Linking.{Link};

use amqp_endpoint_attached::role;
use amqp_endpoint_conversation::Conversation;
use amqp_endpoint_links::{NamedLink, Numbered};
use amqp_endpoint_tables::Links;
use amqp_link::LinkEnd;
use amqp_link_base::LinkState;
use amqp_session_performatives::Attach;
use amqp_session_types::{IncomingChannel, OutputHandle, Role};

/// What the endpoint has of the link that the peer's Attach names in the session that the peer's channel reaches
/// (part 2, 2.6.3): of the one with its name and the other role, where that session holds it.
pub(crate) fn named_on(
    talk: &Conversation<Numbered<LinkEnd>>,
    links: &Links<LinkEnd>,
    channel: IncomingChannel,
    attach: &Attach,
) -> NamedLink
    ensures { IsNamedOn talk.now links.now channel attach.now result }
{
    match talk.sessions.reached(channel) {
        Some(session) => named_in(talk, links, session, attach),
        None => NamedLink::Absent,
    }
}

/// The same in the session with this number.
fn named_in(
    talk: &Conversation<Numbered<LinkEnd>>,
    links: &Links<LinkEnd>,
    session: u64,
    attach: &Attach,
) -> NamedLink
    ensures { IsNamed talk.now links.now session attach.now result }
{
    match links.named(&attach.name) {
        Some(number) => named_held(talk, session, attach.role, links.held(number)),
        None => NamedLink::Absent,
    }
}

/// What it has of a link that is held so.
fn named_held(
    talk: &Conversation<Numbered<LinkEnd>>,
    session: u64,
    peer: Role,
    held: Option<(u64, OutputHandle)>,
) -> NamedLink
    ensures { result ≡ named_held talk.now session peer held }
{
    let Some((holder, handle)) = held else {
        return NamedLink::Absent;
    };
    if holder != session {
        return NamedLink::Absent;
    }
    match link_of(talk, session, handle) {
        Some(link) => named_end(&link.link, peer, handle),
        None => NamedLink::Absent,
    }
}

/// What it has of this end of a link.
fn named_end(link: &LinkEnd, peer: Role, handle: OutputHandle) -> NamedLink
    ensures { result ≡ named_end link.now peer handle }
{
    if !is_other(role(link), peer) {
        return NamedLink::Absent;
    }
    standing(link.local_state(), handle)
}

/// Whether one of two roles is the other end's.
fn is_other(own: Role, peer: Role) -> bool
    ensures { result ≡ is_other own peer }
{
    match (own, peer) {
        (Role::Sender, Role::Receiver) | (Role::Receiver, Role::Sender) => true,
        _ => false,
    }
}

/// How a link in this state waits for the peer's Attach.
fn standing(state: LinkState, handle: OutputHandle) -> NamedLink
    ensures { result ≡ standing state handle }
{
    match state {
        LinkState::AttachSent | LinkState::IncompleteAttachSent => NamedLink::Waiting(handle),
        LinkState::Attached | LinkState::IncompleteAttachExchanged => NamedLink::Attached,
        _ => NamedLink::Absent,
    }
}

/// The link with this own handle in the session with this number, if that has begun.
pub(crate) fn link_of<'a>(
    talk: &'a Conversation<Numbered<LinkEnd>>,
    session: u64,
    handle: OutputHandle,
) -> Option<&'a Numbered<LinkEnd>>
    ensures { option_copied result ≡ link_of talk.now session handle }
{
    let session = talk.sessions.live(session)?;
    session.session.link(handle)
}

/// The number of the link that is there.
pub(crate) fn number_of(
    talk: &Conversation<Numbered<LinkEnd>>,
    session: u64,
    handle: OutputHandle,
) -> u64
    requires { IsSome (link_of talk.now session handle) }
    ensures { (link : Link) → link_of talk.now session handle ≡ Some link → result ≡ link.number }
{
    match link_of(talk, session, handle) {
        Some(link) => link.number,
        None => unreachable!(),
    }
}

//! What becomes of the links of a session that is over (part 2, 2.5.2, 2.6.4, 2.6.6).
ghost use Rattle.amqp_endpoint_linking.specs.GivingBack.{AllGivenBack, GivenBack, IsAtRest, IsClosed, SessionGivenBack};
ghost use Rattle.amqp_endpoint_linking.specs.Linking.{links_of};

use amqp_endpoint_attached::{LinkSession, break_off, is_closed};
use amqp_endpoint_links::Numbered;
use amqp_endpoint_tables::Links;
use amqp_link::LinkEnd;
use amqp_session_core::Links as LinksLeft;

/// A session is over, whose links come back, one after the other by rising own handle (part 2, 2.6.4). Each is detached
/// by that, and at rest from now on; but where its own closing Detach had gone it is closed for good, and its number
/// and its name lead to it no longer (part 2, 2.6.5, 2.6.6). It takes no memory.
///
/// Of a link that `links` doesn't know, or that no session holds there, nothing becomes.
pub fn give_back(links: &mut Links<LinkEnd>, session: Box<LinkSession>)
    ensures { AllGivenBack links.old (links_of session) links.new }
{
    give_all_back(links, Box::into_inner(session).into_links());
}

/// A session is over that had begun, if one is.
pub(crate) fn give_back_if(links: &mut Links<LinkEnd>, session: Option<Box<LinkSession>>)
    ensures { SessionGivenBack links.old session links.new }
{
    if let Some(session) = session {
        give_back(links, session);
    }
}

/// The session of these links is over.
fn give_all_back(links: &mut Links<LinkEnd>, mut left: LinksLeft<Numbered<LinkEnd>>)
    ensures { AllGivenBack links.old left links.new }
{
    while let Some(link) = left.next() {
        give_one_back(links, link);
    }
}

/// The session of this link is over.
fn give_one_back(links: &mut Links<LinkEnd>, link: Numbered<LinkEnd>)
    ensures { GivenBack links.old link links.new }
{
    let Numbered { number, mut link } = link;
    break_off(&mut link);
    if is_closed(&link) {
        close(links, number);
        return;
    }
    rest(links, number, link);
}

/// The link with this number is closed for good.
fn close(links: &mut Links<LinkEnd>, number: u64)
    ensures { IsClosed links.old number links.new }
{
    let _ = links.close(number);
}

/// The link with this number is at rest.
fn rest(links: &mut Links<LinkEnd>, number: u64, link: LinkEnd)
    ensures { IsAtRest links.old number link links.new }
{
    let _ = links.rest(number, link);
}

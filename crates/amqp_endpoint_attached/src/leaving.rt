//! How a link leaves its session (part 2, 2.6.5).
ghost use Rattle.amqp_endpoint_attached.specs.TakenOut.{TakenOut};

use crate::sending::LinkSession;
use amqp_endpoint_links::Numbered;
use amqp_link::LinkEnd;
use amqp_session_types::OutputHandle;

/// Takes the link with this own handle out of its session, where nothing of it waits: its handle goes to another link
/// then, and its unsettled deliveries are forgotten there (part 2, 2.6.2, 2.6.5). Where something of it waits it stays,
/// and nothing changes; nor does it where no link has the handle. It takes no memory.
pub fn take_out(session: &mut LinkSession, handle: OutputHandle) -> Option<Numbered<LinkEnd>>
    ensures { TakenOut session.old handle result session.new }
{
    match session.session.deallocate_link(handle) {
        Ok(link) => link,
        Err(_) => None,
    }
}

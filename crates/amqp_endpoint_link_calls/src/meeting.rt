//! Which link of the peer's a link answers (part 2, 2.6.3).
ghost use Rattle.std.specs.Prelude.{◌≡◌};
ghost use Rattle.amqp_endpoint_link_calls.specs.Naming.{Meets, MeetsBy, are_both};

use amqp_endpoint_attached::role;
use amqp_endpoint_links::AskedLinks;
use amqp_link::LinkEnd;
use amqp_session_types::{InputHandle, Role};
use serde_amqp_types::Text;

/// The handle of the asked link that the link answers: the one with its name, of which the peer has the other end.
pub(crate) fn met(asked: &AskedLinks, link: &LinkEnd) -> Option<InputHandle>
    ensures { Meets asked.now link.now result }
{
    met_by(asked, &link.base().name, role(link))
}

/// The handle of the asked link that one with this name and in this role answers.
pub(crate) fn met_by(asked: &AskedLinks, name: &Text, role: Role) -> Option<InputHandle>
    ensures { MeetsBy asked.now name.now role result }
{
    let Some(input) = asked.named(name) else {
        return None;
    };
    let Some(wanted) = asked.get(input) else {
        unreachable!()
    };
    if are_both(role, wanted.attach.role) {
        return Some(input);
    }
    None
}

/// Whether the two are the roles of both ends of one link.
fn are_both(own: Role, peers: Role) -> bool
    ensures { result ≡ are_both own peers }
{
    match own {
        Role::Sender => matches!(peers, Role::Receiver),
        Role::Receiver => matches!(peers, Role::Sender),
    }
}

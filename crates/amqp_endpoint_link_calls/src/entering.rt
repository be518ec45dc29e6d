//! How a link that attaches comes to be among the endpoint's links, by its number and its name (part 2, 2.6.1).
ghost use Rattle.std.specs.Prelude.{◌≡◌, ◌<◌, IfErr, IfOk, OnErr, OnOk, length};
ghost use Rattle.amqp_endpoint_tables.specs.LinkState.{IsNewName};
ghost use Rattle.amqp_endpoint_tables.specs.LinkSteps.{Enters, LowersRoom, Step};
ghost use Rattle.amqp_endpoint_link_calls.specs.Attaching.{with_room};
ghost use Rattle.amqp_endpoint_link_calls.specs.Refusals.{BarsName, FindsName, MayAttach};

use crate::LinkTalk;
use crate::placed::Placed;
use amqp_endpoint_model::EndpointError;
use amqp_endpoint_tables::{LinkRefusal, Links, NewName};
use amqp_link::LinkEnd;
use serde_amqp_types::Text;

/// Room for a link with this name that is to attach in the session with this number.
///
/// It is refused, tested in this order, with `UnknownSession` exactly where no session has the number, with
/// `IllegalState` exactly where it isn't mapped (part 2, 2.5.5), with `DuplicatedLinkName` exactly where a link that
/// isn't closed has the name (part 2, 2.6.1), and with `Memory`. Nothing changes then.
pub(crate) fn prepare(
    talk: &LinkTalk,
    links: &mut Links<LinkEnd>,
    session: u64,
    name: &Text,
) -> Result<NewName, EndpointError>
    ensures ok { IfOk result (λ given. (given ≡ name.now) × (links.new ≡ with_room links.old)) }
    ensures may { OnOk result (MayAttach talk.now links.old session name.now) }
    ensures err { IfErr result (BarsName talk.now links.old session name.now) }
    ensures kept { OnErr result (links.new ≡ links.old) }
{
    if talk.sessions.place(session).is_none() {
        return Err(EndpointError::UnknownSession);
    }
    if !talk.is_mapped(session) {
        return Err(EndpointError::IllegalState);
    }
    match links.make_room(name) {
        Ok(name) => Ok(name),
        Err(LinkRefusal::NameInUse) => Err(EndpointError::DuplicatedLinkName),
        Err(LinkRefusal::Memory) => Err(EndpointError::Memory),
    }
}

/// Why no link with this name attaches in the session with this number, if that is found before anything grows: the
/// first that holds of what `prepare` tests. It takes no memory.
#[tactic(auto, using(crate::proofs::Looked::names))]
pub(crate) fn name_refusal(
    talk: &LinkTalk,
    links: &Links<LinkEnd>,
    session: u64,
    name: &Text,
) -> Option<EndpointError>
    ensures { FindsName talk.now links.now session name.now result }
{
    if talk.sessions.place(session).is_none() {
        return Some(EndpointError::UnknownSession);
    }
    if !talk.is_mapped(session) {
        return Some(EndpointError::IllegalState);
    }
    match links.named(name) {
        Some(_) => Some(EndpointError::DuplicatedLinkName),
        None => None,
    }
}

/// A link for which there is room is entered where it was placed. Where it was refused, no more room is left than
/// this.
pub(crate) fn enter(
    links: &mut Links<LinkEnd>,
    room: usize,
    name: NewName,
    placed: &Result<Placed, EndpointError>,
)
    requires room { 0 < links.old.room }
    requires new_name { IsNewName links.old.links name }
    ensures ok { IfOk placed.now (λ p. Step links.old
        (Enters (length links.old.links) name p.session p.handle)
        links.new) }
    ensures err { OnErr placed.now (Step links.old (LowersRoom room) links.new) }
{
    match placed {
        Ok(placed) => {
            let _ = links.enter(name, placed.session, placed.handle);
        }
        Err(_) => links.lower_room(room),
    }
}

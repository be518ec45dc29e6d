//! Where a link is held.
ghost use Rattle.std.specs.Prelude.{◌≡◌, IfErr, IfOk, Some};
ghost use Rattle.amqp_endpoint_tables.specs.LinkState.{place_at};
ghost use Rattle.amqp_endpoint_tables.specs.declared.link_place.LinkPlace.TheVariants.{Held};
ghost use Rattle.amqp_endpoint_link_calls.specs.Places.{IsNotHeld};

use amqp_endpoint_conversation::Conversation;
use amqp_endpoint_links::Numbered;
use amqp_endpoint_model::EndpointError;
use amqp_endpoint_tables::{LinkPlace, Links};
use amqp_link::LinkEnd;
use amqp_session_types::OutputHandle;

/// The sessions of an endpoint, with links that bear their numbers.
pub type LinkTalk = Conversation<Numbered<LinkEnd>>;

/// The session that holds the link with this number, and the own handle that it has there.
///
/// It is refused with `UnknownLink` where no link has the number, and with `IllegalState` where it is at rest.
pub fn holder(links: &Links<LinkEnd>, link: u64) -> Result<(u64, OutputHandle), EndpointError>
    ensures ok { IfOk result (λ held. place_at links.now link ≡ Some (Held held.0 held.1)) }
    ensures err { IfErr result (IsNotHeld (place_at links.now link)) }
{
    let Some(place) = links.place(link) else {
        return Err(EndpointError::UnknownLink);
    };
    match place {
        LinkPlace::Held { session, handle } => Ok((*session, *handle)),
        LinkPlace::AtRest(_) => Err(EndpointError::IllegalState),
    }
}

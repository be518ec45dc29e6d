//! What is told of a link by its number (part 2, 2.6.7).
ghost use Rattle.std.specs.Prelude.{◌≡◌};
ghost use Rattle.amqp_endpoint_tables.specs.LinkState.{place_at};
ghost use Rattle.amqp_endpoint_tables.specs.State.{live_at};
ghost use Rattle.amqp_endpoint_link_calls.specs.Places.{end_live, end_of};
ghost use Rattle.amqp_endpoint_link_calls.specs.Seeing.{credit_told};

use crate::holding::LinkTalk;
use amqp_endpoint_attached as attached;
use amqp_endpoint_model::EndpointError;
use amqp_endpoint_tables::{LinkPlace, Links};
use amqp_link::LinkEnd;
use amqp_session_types::OutputHandle;

/// How many more deliveries may be sent by the link with this number, as its end knows, in its session or at rest (part
/// 2, 2.6.7).
///
/// It is refused with `UnknownLink` alone, exactly where there is no such link: none has the number, or the session
/// that it is said to be held by hasn't got it.
pub fn credit(talk: &LinkTalk, links: &Links<LinkEnd>, link: u64) -> Result<u32, EndpointError>
    ensures { result ≡ credit_told (end_of talk.now (place_at links.now link)) }
{
    let Some(place) = links.place(link) else {
        return Err(EndpointError::UnknownLink);
    };
    match place {
        LinkPlace::Held { session, handle } => credit_held(talk, *session, *handle),
        LinkPlace::AtRest(end) => Ok(attached::credit(end)),
    }
}

/// How many more deliveries may be sent by the link with this own handle in the session with this number.
fn credit_held(talk: &LinkTalk, session: u64, handle: OutputHandle) -> Result<u32, EndpointError>
    ensures { result ≡ credit_told (end_live (live_at talk.now.sessions session) handle) }
{
    let Some(session) = talk.sessions.live(session) else {
        return Err(EndpointError::UnknownLink);
    };
    match session.session.link(handle) {
        Some(link) => Ok(attached::credit(&link.link)),
        None => Err(EndpointError::UnknownLink),
    }
}

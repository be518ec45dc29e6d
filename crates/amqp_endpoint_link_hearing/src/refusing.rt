//! What is done of what a session refuses (part 2, 2.5.2).
ghost use Rattle.std.specs.Prelude.{◌<◌};
ghost use Rattle.std.specs.Vec.{vec_capacity, vec_len};
ghost use Rattle.amqp_endpoint_link_hearing.specs.Saying.{RefusalDone};

use amqp_endpoint_conversation::HearRefusal;
use amqp_endpoint_linking::give_back;
use amqp_endpoint_links::Numbered;
use amqp_endpoint_model::{EndpointError, Event, Refused};
use amqp_endpoint_tables::Links;
use amqp_link::LinkEnd;
use amqp_session_types::ConnectionError;

/// A session that ended by its fault gives its links back, and this is told; any other refusal ends the connection.
/// There is room for what is told.
pub(crate) fn refuse(
    links: &mut Links<LinkEnd>,
    refusal: HearRefusal<Numbered<LinkEnd>>,
    events: &mut Vec<Event>,
) -> Result<(), EndpointError>
    requires { vec_len events.old < vec_capacity events.old }
    ensures { RefusalDone links.old refusal events.old.items result links.new events.new.items }
{
    match refusal {
        HearRefusal::Memory => Err(EndpointError::Memory),
        HearRefusal::NotFound => Err(EndpointError::Connection(ConnectionError::NotFound)),
        HearRefusal::Asked(_, fault) => Err(EndpointError::Session(fault)),
        HearRefusal::Session(number, fault, session) => {
            give_back(links, session);
            events.push_reserved(Event::Refused(Refused {
                session: number,
                link: None,
                error: EndpointError::Session(fault),
            }));
            Ok(())
        }
    }
}

//! What speaks against a new link that attaches, before it is made (part 2, 2.6.3).
ghost use Rattle.std.specs.Prelude.{◌≡◌, IfSome, IsSome, option_map};
ghost use Rattle.std.specs.FinMap as map;
ghost use Rattle.amqp_endpoint_attached.specs.Answering.{asked_failed};
ghost use Rattle.amqp_endpoint_attached.specs.Links.{link_by};
ghost use Rattle.amqp_endpoint_attached.specs.Refusals.{FindsTested};
ghost use Rattle.amqp_endpoint_conversation.specs.Ending.{IsMapped};
ghost use Rattle.amqp_endpoint_link_calls.specs.Refusals.{FindsAttaching, FindsOne, FindsSaid, failed_at};
ghost use Rattle.amqp_endpoint_link_calls.specs.Refusals.{of_refusal};

use crate::LinkTalk;
use crate::entering::name_refusal;
use crate::meeting::met_by;
use crate::placing::of_refusal;
use amqp_endpoint_attached::{AttachRefusal, LinkSession, offered, test};
use amqp_endpoint_links::AskedLinks;
use amqp_endpoint_model::{EndpointError, LinkSettings};
use amqp_endpoint_tables::Links;
use amqp_link::LinkEnd;
use amqp_session_types::{InputHandle, Role};
use std::alloc::Global;

/// Why no link with these settings attaches in this role in the session with this number, if that is found before
/// anything grows: the first that holds of what `attach_sender` and `attach_receiver` test, but for whether its own
/// Attach fits, and `Session(HandleInUse)`. It takes memory for the list alone of the filters that the peer doesn't
/// apply: `Memory` stands in place of that list.
pub(crate) fn attach_refusal(
    talk: &LinkTalk,
    links: &Links<LinkEnd>,
    alloc: Global,
    session: u64,
    role: Role,
    settings: &LinkSettings,
) -> Option<EndpointError>
    ensures { FindsAttaching talk.now links.now session (link_by role settings.now) result }
{
    match name_refusal(talk, links, session, &settings.name) {
        Some(refusal) => Some(refusal),
        None => live_refusal(talk, alloc, session, role, settings),
    }
}

/// Why the session with this number, which is mapped, refuses one.
fn live_refusal(
    talk: &LinkTalk,
    alloc: Global,
    session: u64,
    role: Role,
    settings: &LinkSettings,
) -> Option<EndpointError>
    requires { IsMapped talk.now session }
    ensures { FindsSaid talk.now session (link_by role settings.now) result }
{
    let Some(live) = talk.sessions.live(session) else {
        unreachable!()
    };
    let found = refusal_in(live, alloc, role, settings);
    said_of(found)
}

/// The endpoint's name for it.
fn said_of(found: Option<AttachRefusal>) -> Option<EndpointError>
    ensures { result ≡ option_map of_refusal found }
{
    match found {
        Some(refusal) => Some(of_refusal(refusal)),
        None => None,
    }
}

/// Why this session refuses one.
fn refusal_in(
    live: &LinkSession,
    alloc: Global,
    role: Role,
    settings: &LinkSettings,
) -> Option<AttachRefusal>
    ensures { FindsOne live.now (link_by role settings.now) result }
{
    let input = met_by(&live.asked, &settings.name, role);
    match offered(&live.session) {
        Ok(_) => test_asked(&live.asked, alloc, role, settings, input),
        Err(refusal) => Some(refusal),
    }
}

/// Why one refuses the Attach of the link that it answers, if it answers one.
fn test_asked(
    asked: &AskedLinks,
    alloc: Global,
    role: Role,
    settings: &LinkSettings,
    input: Option<InputHandle>,
) -> Option<AttachRefusal>
    requires { IfSome input (λ input. IsSome (map.get asked.now input.0)) }
    ensures { FindsTested (failed_at (link_by role settings.now) asked.now input) result }
{
    match input {
        Some(handle) => test_one(asked, alloc, role, settings, handle),
        None => None,
    }
}

/// Why one refuses the Attach of the asked link with this handle.
fn test_one(
    asked: &AskedLinks,
    alloc: Global,
    role: Role,
    settings: &LinkSettings,
    input: InputHandle,
) -> Option<AttachRefusal>
    requires { IsSome (map.get asked.now input.0) }
    ensures { FindsTested (asked_failed (link_by role settings.now) (map.get asked.now input.0)) result }
{
    let Some(wanted) = asked.get(input) else {
        unreachable!()
    };
    test(alloc, role, settings, &wanted.attach)
}

//! How a link attaches again that is at rest (part 2, 2.6.3, 2.6.13).
ghost use Rattle.std.specs.Prelude.{◌≡◌, ◌≤◌, ℕ, IfErr, IfOk, IsSome, OnErr, OnOk};
ghost use Rattle.amqp_link.specs.declared.end.End.{End};
ghost use Rattle.amqp_endpoint_attached.specs.Links.{is_at_rest};
ghost use Rattle.amqp_endpoint_conversation.specs.Ending.{IsMapped};
ghost use Rattle.amqp_endpoint_conversation.specs.Going.{Goes, Rests};
ghost use Rattle.amqp_endpoint_model.specs.declared.error.EndpointError.TheVariants.{HandleMaxReached};
ghost use Rattle.amqp_endpoint_tables.specs.LinkState.{held_at, put};
ghost use Rattle.amqp_endpoint_tables.specs.declared.link_place.LinkPlace.TheVariants.{AtRest};
ghost use Rattle.amqp_endpoint_link_calls.specs.Attaching.{LinkResumes, MayResume};
ghost use Rattle.amqp_endpoint_link_calls.specs.Refusals.{BarsResuming, OffersIn, OffersNone, is_resting, of_refusal};

use crate::LinkTalk;
use crate::placed::Placed;
use crate::placing::{Coming, attach_live, of_refusal};
use amqp_endpoint_attached::{Unattached, offered};
use amqp_endpoint_model::EndpointError;
use amqp_endpoint_tables::{LinkPlace, Links};
use amqp_link::LinkEnd;
use amqp_link_base::LinkState;
use amqp_session_performatives::SessionFrame;
use amqp_session_types::OutputHandle;
use std::alloc::Global;
use std::collections::VecDeque;

/// Which link attaches again, and where.
#[derive(Clone, Copy, Debug, PartialEq, Eq)]
pub struct Again {
    /// The number of the link.
    pub link: u64,
    /// The number of the session.
    pub session: u64,
}

/// Attaches the link with this number again, which is at rest, in the session with that number (part 2, 2.6.3). The
/// link keeps its number, and the session holds it under the handle that it offers. Its own Attach is handed out; it
/// lists as many of the link's unsettled deliveries as a frame of `limit` bytes holds (part 2, 2.6.13). Where the peer
/// asks there for a link of its name, and has the other end of it, the link answers that, and what comes of it is as
/// `attach` says. What is handed out fits a `limit` of 512 or more.
///
/// It is refused, tested in this order, with `UnknownLink` exactly where no link has the number; with
/// `UnknownSession` exactly where no session has that number; with `IllegalState` exactly where the session isn't
/// mapped (part 2, 2.5.5), or the link isn't at rest; with `HandleMaxReached` exactly where the handle that is
/// offered is above the peer's handle-max (part 2, 2.7.2); with `Link` exactly where a test of the link refuses the
/// Attach of the one that it answers, with the error of the first that does; with `FrameTooLarge` exactly where its
/// own Attach fits no frame of `limit` bytes, even without its unsettled deliveries; and with `Memory`, in place of
/// none of these but `FrameTooLarge`, and of `Link` where that tells a list of filters. It is refused with
/// `Session(HandleInUse)` where a link of the session has the handle of the one that it answers (part 2, 2.8.17):
/// none has in a session whose links came by frames and calls. Nothing changes then: the link is at rest, as it was.
pub fn resume(
    talk: &mut LinkTalk,
    links: &mut Links<LinkEnd>,
    alloc: Global,
    limit: u32,
    again: Again,
    out: &mut VecDeque<SessionFrame>,
) -> Result<Placed, EndpointError>
    ensures ok { IfOk result (λ placed. LinkResumes talk.old links.old out.old.items limit again.link again.session
        placed talk.new links.new out.new.items) }
    ensures err { IfErr result (BarsResuming limit talk.old links.old again.link again.session) }
    ensures kept { OnErr result
        ((talk.new ≡ talk.old) × (links.new ≡ links.old) × (out.new.items ≡ out.old.items)) }
    ensures goes { 512 ≤ limit → Goes limit talk.old talk.new out.old.items out.new.items }
    ensures rests { Rests talk.old talk.new out.old.items out.new.items }
{
    let handle = resumable(talk, links, again)?;
    let Again {
        link: number,
        session,
    } = again;
    let Some(link) = links.hold(number, session, handle) else {
        unreachable!()
    };
    let coming = Coming {
        number,
        session,
        link,
    };
    match attach_live(talk, alloc, limit, coming, out) {
        Ok(placed) => Ok(placed),
        Err(refused) => Err(rest_again(links, number, refused)),
    }
}

/// The handle that the session offers in which the link may attach again.
fn resumable(
    talk: &LinkTalk,
    links: &Links<LinkEnd>,
    again: Again,
) -> Result<OutputHandle, EndpointError>
    ensures ok { IfOk result (OffersIn talk.now again.session) }
    ensures may { OnOk result ((end : End) × MayResume talk.now links.now again.link again.session end) }
    ensures err { (limit : ℕ) → IfErr result (BarsResuming limit talk.now links.now again.link again.session) }
{
    let Again { link, session } = again;
    let Some(place) = links.place(link) else {
        return Err(EndpointError::UnknownLink);
    };
    if talk.sessions.place(session).is_none() {
        return Err(EndpointError::UnknownSession);
    }
    if !talk.is_mapped(session) {
        return Err(EndpointError::IllegalState);
    }
    if !is_resting(place) {
        return Err(EndpointError::IllegalState);
    }
    handle_in(talk, session)
}

/// Whether a link in this place is at rest.
fn is_resting(place: &LinkPlace<LinkEnd>) -> bool
    ensures { result ≡ is_resting place.now }
{
    match place {
        LinkPlace::Held { .. } => false,
        LinkPlace::AtRest(link) => is_at_rest(link.local_state()),
    }
}

/// Whether no end of a link in this state is attached.
fn is_at_rest(state: LinkState) -> bool
    ensures { result ≡ is_at_rest state }
{
    matches!(state, LinkState::Unattached | LinkState::Detached)
}

/// The handle that the session with this number offers, which is mapped.
///
/// It is refused with `HandleMaxReached` alone, exactly where that handle is above the peer's handle-max.
fn handle_in(talk: &LinkTalk, session: u64) -> Result<OutputHandle, EndpointError>
    requires { IsMapped talk.now session }
    ensures ok { IfOk result (OffersIn talk.now session) }
    ensures err { IfErr result (λ e. (e ≡ HandleMaxReached) × OffersNone talk.now session) }
{
    let Some(live) = talk.sessions.live(session) else {
        unreachable!()
    };
    match offered(&live.session) {
        Ok(handle) => Ok(handle),
        Err(refusal) => Err(of_refusal(refusal)),
    }
}

/// The link with this number, which was to attach, is at rest again. Answers the endpoint's name for why.
fn rest_again(links: &mut Links<LinkEnd>, number: u64, refused: Unattached) -> EndpointError
    ensures said { result ≡ of_refusal refused.refusal }
    ensures back { IsSome (held_at links.old number) → links.new ≡ put links.old number (AtRest refused.link) }
{
    let Unattached { refusal, link } = refused;
    let _ = links.rest(number, link);
    of_refusal(refusal)
}

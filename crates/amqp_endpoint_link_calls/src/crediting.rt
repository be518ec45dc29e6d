//! The credit that is given by a receiving link, by its number (part 2, 2.6.7).
ghost use Rattle.std.specs.Prelude.{◌≡◌, ℕ, IfErr, IfOk, OnErr, OnOk};
ghost use Rattle.amqp_endpoint_tables.specs.LinkState.{place_at};
ghost use Rattle.amqp_endpoint_tables.specs.State.{live_at};
ghost use Rattle.amqp_endpoint_attached.specs.Receiving.{RefusesDrain, RefusesGrant};
ghost use Rattle.amqp_endpoint_conversation.specs.Going.{Goes, Rests};
ghost use Rattle.amqp_endpoint_link_calls.specs.Calling.{BarsDrain, BarsGrant, DoneAt, DoneIn, gives_credit};
ghost use Rattle.amqp_endpoint_link_calls.specs.Calling.{wants_drain};
ghost use Rattle.amqp_endpoint_link_calls.specs.Places.{end_live};

use crate::holding::{LinkTalk, holder};
use amqp_endpoint_attached as attached;
use amqp_endpoint_fitting::frames_are_read;
use amqp_endpoint_model::EndpointError;
use amqp_endpoint_tables::Links;
use amqp_link::LinkEnd;
use amqp_session_performatives::SessionFrame;
use amqp_session_types::OutputHandle;
use std::alloc::Global;
use std::collections::VecDeque;

/// Gives this credit by the receiving link with this number, in place of what was left of the credit given before, and
/// answers what was left; no drain is wanted any more (part 2, 2.6.7). The Flow that shows it, without properties, is
/// handed out, or waits behind what the link has waiting; it fits each limit that a peer may set (part 2, 2.4.1).
///
/// It is refused, in this order, with `UnknownLink` exactly where no link has the number, with `IllegalState` exactly
/// where the link is at rest, isn't attached in its session, or sends, with `CreditOutOfRange` exactly where the credit
/// is more than 2^31 - 1, and with `Memory`. Nothing changes then.
pub fn grant(
    talk: &mut LinkTalk,
    alloc: Global,
    links: &Links<LinkEnd>,
    link: u64,
    credit: u32,
    out: &mut VecDeque<SessionFrame>,
) -> Result<u32, EndpointError>
    ensures ok { IfOk result (λ left. DoneAt (gives_credit credit left) (place_at links.now link) talk.old
        out.old.items talk.new out.new.items) }
    ensures err { IfErr result (BarsGrant talk.old (place_at links.now link) credit) }
    ensures kept { OnErr result ((talk.new ≡ talk.old) × (out.new.items ≡ out.old.items)) }
    ensures goes { (limit : ℕ) → Goes limit talk.old talk.new out.old.items out.new.items }
    ensures rests { Rests talk.old talk.new out.old.items out.new.items }
{
    let (session, handle) = holder(links, link)?;
    let from = out.len();
    let granted = grant_in(talk, alloc, session, handle, credit, out);
    frames_are_read(out, from);
    granted
}

/// Wants the credit used up that was given by the receiving link with this number (part 2, 2.6.7). The Flow that shows
/// it, without properties, is handed out, or waits behind what the link has waiting; it fits each limit that a peer may
/// set (part 2, 2.4.1).
///
/// It is refused, in this order, with `UnknownLink` exactly where no link has the number, with `IllegalState` exactly
/// where the link is at rest, isn't attached in its session, or sends, and with `Memory`. Nothing changes then.
pub fn drain(
    talk: &mut LinkTalk,
    alloc: Global,
    links: &Links<LinkEnd>,
    link: u64,
    out: &mut VecDeque<SessionFrame>,
) -> Result<(), EndpointError>
    ensures ok { OnOk result
        (DoneAt wants_drain (place_at links.now link) talk.old out.old.items talk.new out.new.items) }
    ensures err { IfErr result (BarsDrain talk.old (place_at links.now link)) }
    ensures kept { OnErr result ((talk.new ≡ talk.old) × (out.new.items ≡ out.old.items)) }
    ensures goes { (limit : ℕ) → Goes limit talk.old talk.new out.old.items out.new.items }
    ensures rests { Rests talk.old talk.new out.old.items out.new.items }
{
    let (session, handle) = holder(links, link)?;
    let from = out.len();
    let drained = drain_in(talk, alloc, session, handle, out);
    frames_are_read(out, from);
    drained
}

/// So much credit is given by the receiving link with this own handle in the session with this number.
fn grant_in(
    talk: &mut LinkTalk,
    alloc: Global,
    session: u64,
    handle: OutputHandle,
    credit: u32,
    out: &mut VecDeque<SessionFrame>,
) -> Result<u32, EndpointError>
    ensures ok { IfOk result (λ left. DoneIn (gives_credit credit left) session handle talk.old out.old.items
        talk.new out.new.items) }
    ensures err { IfErr result (RefusesGrant (end_live (live_at talk.old.sessions session) handle)
        credit) }
    ensures kept { OnErr result ((talk.new ≡ talk.old) × (out.new.items ≡ out.old.items)) }
{
    let Some(session) = talk.sessions.live_mut(session) else {
        return Err(EndpointError::IllegalState);
    };
    attached::grant(session, alloc, handle, credit, out)
}

/// The credit of the receiving link with this own handle in the session with this number is to be used up.
fn drain_in(
    talk: &mut LinkTalk,
    alloc: Global,
    session: u64,
    handle: OutputHandle,
    out: &mut VecDeque<SessionFrame>,
) -> Result<(), EndpointError>
    ensures ok { OnOk result (DoneIn wants_drain session handle talk.old out.old.items talk.new
        out.new.items) }
    ensures err { IfErr result (RefusesDrain
        (end_live (live_at talk.old.sessions session) handle)) }
    ensures kept { OnErr result ((talk.new ≡ talk.old) × (out.new.items ≡ out.old.items)) }
{
    let Some(session) = talk.sessions.live_mut(session) else {
        return Err(EndpointError::IllegalState);
    };
    attached::drain(session, alloc, handle, out)
}

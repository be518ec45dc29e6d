//! A link attaches that answers one that the peer asks for (part 2, 2.6.3).
ghost use Rattle.std.specs.Prelude.{◌≡◌, ◌≤◌, ◌<◌, ◌+◌, ℕ, true, false, Some, IsSome, IfSome, IfOk, IfErr, OnErr};
ghost use Rattle.std.specs.FinMap as map;
ghost use Rattle.std.specs.VecDeque.{deque_len, deque_capacity};
ghost use Rattle.amqp_session_core.specs.State.{link_at};
ghost use Rattle.amqp_session_core.specs.Steps.{Step, Allocates};
ghost use Rattle.amqp_link_base.specs.State.{after_send_attach};
ghost use Rattle.amqp_link.specs.Ends.{state_of};
ghost use Rattle.amqp_link.specs.Preparing.{IsFor, carried_out, left_by};
ghost use Rattle.amqp_endpoint_attached.specs.Answering.{Answers, IsPrepared, IsTakenSo, SaysAll, left_to_do};
ghost use Rattle.amqp_endpoint_attached.specs.Answering.{said_by, told_of};
ghost use Rattle.amqp_endpoint_attached.specs.Linked.{gives};
ghost use Rattle.amqp_endpoint_attached.specs.Links.{is_at_rest, with_number};
ghost use Rattle.amqp_endpoint_attached.specs.Refusals.{RefusesHandle};

use crate::announcing::attach_frame;
use crate::exchanging::{PreparedAnswer, take_in};
use crate::refusal::{Unattached, handed_back};
use amqp_endpoint_links::{AskingSession, Numbered};
use amqp_link::LinkEnd;
use amqp_link_base::AttachExchange;
use amqp_link_sender::Attaching;
use amqp_link_unsettled::Abort;
use amqp_session_core::Session;
use amqp_session_performatives::{LinkFlow, SessionFrame};
use amqp_session_types::{InputHandle, OutputHandle};
use serde_amqp_types::Array;
use std::alloc::Global;
use std::collections::VecDeque;

/// What comes of a link that answered an asked one.
#[derive(Debug, Drop)]
pub struct Answered {
    /// The own handle that it got.
    pub handle: OutputHandle,
    /// What the two Attach leave to be done for unsettled deliveries (part 2, 2.6.13): incomplete also where deliveries go on
    /// and its own Attach lists only a part of them.
    pub exchange: AttachExchange,
    /// The deliveries that a sending link gives up, in the order in which their transfers go; none of a receiving link.
    pub aborts: Array<Abort>,
    /// What was kept of a Flow of the peer's, which the link hasn't taken yet (part 2, 2.7.4).
    pub kept: Option<LinkFlow>,
}

/// Attaches a link, which is at rest, under this number, as it was made ready: it answers the one that the peer asks for
/// with this handle (part 2, 2.6.3), and takes the peer's Attach. It gets the handle that the session offers, frames
/// with the peer's handle reach it from now on, and the peer asks for that link no longer. Its own Attach is put behind
/// what is handed out, for which there is room. What was kept of a Flow is answered, for `take_kept`.
///
/// It is refused with `HandleMaxReached` exactly where the handle that is offered is above the peer's handle-max (part 2,
/// 2.7.2); with `HandleInUse` exactly where a link of the session has the peer's handle; and with `Memory`, in place of
/// none of these but `HandleInUse`. The session, its asked links and what is handed out stay then, and the link comes
/// back as it was.
pub fn answer(
    session: &mut AskingSession<Numbered<LinkEnd>>,
    alloc: Global,
    number: u64,
    link: LinkEnd,
    input: InputHandle,
    ready: PreparedAnswer,
    out: &mut VecDeque<SessionFrame>,
) -> Result<Answered, Unattached>
    requires at_rest { is_at_rest (state_of link) ≡ true }
    requires taken { IsTakenSo session.old link input ready.taken }
    requires room { deque_len out.old < deque_capacity out.old }
    ensures ok { (limit : ℕ) → IsPrepared limit session.old link input ready → IfOk result (λ answered.
        Answers session.old out.old.items limit number link input answered session.new out.new.items) }
    ensures left { IfOk result (λ answered.
        left_to_do answered ≡ said_by ready.attach.incomplete_unsettled (left_by ready.taken)) }
    ensures room { deque_len out.new ≤ deque_len out.old + 1 }
    ensures capacity { deque_capacity out.new ≡ deque_capacity out.old }
    ensures err { IfErr result (λ refused.
        RefusesHandle session.old.session (Some input.0) refused.refusal × (refused.link ≡ link)) }
    ensures kept { OnErr result ((session.new ≡ session.old) × (out.new.items ≡ out.old.items)) }
{
    match allocate(session, number, link, input) {
        Ok(handle) => Ok(hand_out(&mut session.session, alloc, handle, ready, out)),
        Err(refused) => Err(refused),
    }
}

/// A link gets the handle that is offered, and the peer's leads to it. It comes back, as it was, where it gets none. The
/// session stays then.
#[tactic(auto, using(crate::proofs::Refusing::input_refused))]
fn allocate(
    session: &mut AskingSession<Numbered<LinkEnd>>,
    number: u64,
    link: LinkEnd,
    input: InputHandle,
) -> Result<OutputHandle, Unattached>
    ensures ok { IfOk result (λ handle.
        Step gives session.old.session (Allocates handle.0 (with_number number link) (Some input.0))
        session.new.session
        × (session.new ≡ record session.old {
          session = session.new.session;
          asked = map.remove session.old.asked input.0;
        })) }
    ensures err { IfErr result (λ refused.
        RefusesHandle session.old.session (Some input.0) refused.refusal × (refused.link ≡ link)) }
    ensures kept { OnErr result (session.new ≡ session.old) }
{
    match session.answer_link(Numbered { number, link }, input) {
        Ok(handle) => Ok(handle),
        Err(refused) => Err(handed_back(refused)),
    }
}

/// The link with this handle answers the asked one, as it was made ready, and its Attach is handed out. There is room
/// for it.
fn hand_out(
    session: &mut Session<Numbered<LinkEnd>>,
    alloc: Global,
    handle: OutputHandle,
    ready: PreparedAnswer,
    out: &mut VecDeque<SessionFrame>,
) -> Answered
    requires there { IsSome (link_at session.old handle.0) }
    requires made { IfSome (link_at session.old handle.0) (λ link. IsFor link.link ready.taken) }
    requires allows { IfSome (link_at session.old handle.0) (λ link.
        IsSome (after_send_attach (state_of (carried_out link.link ready.taken)) false)) }
    requires room { deque_len out.old < deque_capacity out.old }
    ensures says { SaysAll session.old out.old.items handle ready result session.new out.new.items }
    ensures room { deque_len out.new ≡ deque_len out.old + 1 }
    ensures capacity { deque_capacity out.new ≡ deque_capacity out.old }
{
    let PreparedAnswer {
        taken,
        attach,
        kept,
    } = ready;
    let incomplete = attach.incomplete_unsettled;
    let attaching = take_in(session, alloc, handle, taken, incomplete);
    let Attaching { exchange, aborts } = attaching;
    out.push_back_reserved(attach_frame(session, attach));
    Answered {
        handle,
        exchange: told_of(exchange, incomplete),
        aborts,
        kept,
    }
}

/// What is told of an exchange by a link whose own Attach lists only a part of its deliveries, or all.
fn told_of(exchange: AttachExchange, incomplete: bool) -> AttachExchange
    ensures { result ≡ told_of incomplete exchange }
{
    match (incomplete, exchange) {
        (true, AttachExchange::Resume) => AttachExchange::IncompleteUnsettled,
        (_, exchange) => exchange,
    }
}

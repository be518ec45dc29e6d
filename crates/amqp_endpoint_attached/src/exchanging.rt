//! How a link answers one that the peer asks for: what both Attach make of it (part 2, 2.6.3).
ghost use Rattle.std.specs.Prelude.{◌≡◌, ◌⊎◌, Ok, Err, true, false, None, Some, IsOk, IsSome, IfOk, IfErr, IfSome, OnOk};
ghost use Rattle.std.specs.Prelude.{option_map};
ghost use Rattle.std.specs.FinMap as map;
ghost use Rattle.amqp_session_core.specs.State.{link_at};
ghost use Rattle.amqp_link_base.specs.State.{after_send_attach};
ghost use Rattle.amqp_link.specs.Ends.{state_of};
ghost use Rattle.amqp_link.specs.Preparing.{IsFor, attach_planned, carried_out};
ghost use Rattle.amqp_endpoint_attached.specs.Answering.{IsPrepared, IsReady, RefusesAnswer, RefusesExchange, TakesAll};
ghost use Rattle.amqp_endpoint_attached.specs.Answering.{TakesIn, plain};
ghost use Rattle.amqp_endpoint_attached.specs.Links.{is_at_rest, offered};
ghost use Rattle.amqp_endpoint_attached.specs.Refusals.{IsOffered, RefusesPeer, test_failed};

use crate::announcing::{announce, offered, send_attach};
use crate::refusal::AttachRefusal;
use amqp_endpoint_links::{AskedLink, AskingSession, Numbered};
use amqp_link::{LinkEnd, PreparedAttach};
use amqp_link_sender::Attaching;
use amqp_session_core::{LinkRelay, Session};
use amqp_session_performatives::{Attach, LinkFlow};
use amqp_session_types::{Boxed, InputHandle, OutputHandle};
use std::alloc::Global;

/// What a link says that answers an asked one, made ready before it changes.
#[derive(Drop)]
pub struct PreparedAnswer {
    /// What the peer's Attach makes of it.
    pub taken: PreparedAttach,
    /// Its own Attach.
    pub attach: Boxed<Attach>,
    /// What was kept of a Flow.
    pub kept: Option<LinkFlow>,
}

/// What a link, which is at rest, says where it answers the one that the peer asks for with this handle (part 2, 2.6.3):
/// what the peer's Attach makes of it, and its own Attach under the handle that is offered, written of the link as it is,
/// which lists as many of its unsettled deliveries as a frame of `limit` bytes holds. Nothing changes.
///
/// It is refused, tested in this order, with `HandleMaxReached` exactly where the handle that is offered is above the
/// peer's handle-max (part 2, 2.7.2); with `Link` exactly where a test of the link refuses the peer's Attach (part 2,
/// 2.6.3), with the error of the first that does; with `FrameTooLarge` exactly where its own Attach fits no frame of
/// `limit` bytes, even without its unsettled deliveries; and with `Memory`, in place of none of these but
/// `FrameTooLarge`, and of `Link` where that tells a list of filters.
pub fn prepare_answer(
    session: &AskingSession<Numbered<LinkEnd>>,
    alloc: Global,
    limit: u32,
    link: &LinkEnd,
    input: InputHandle,
) -> Result<PreparedAnswer, AttachRefusal>
    requires asked { IsSome (map.get session.now.asked input.0) }
    requires at_rest { is_at_rest (state_of link.now) ≡ true }
    ensures ok { IfOk result (IsPrepared limit session.now link.now input) }
    ensures err { IfErr result (RefusesAnswer limit session.now link.now input) }
{
    let Some(asked) = session.asked.get(input) else {
        unreachable!()
    };
    make_ready(&session.session, alloc, limit, link, asked)
}

/// What it says that answers this asked link.
#[tactic(auto, using(crate::proofs::Refusing::exchange_refused))]
fn make_ready<R: LinkRelay>(
    session: &Session<R>,
    alloc: Global,
    limit: u32,
    link: &LinkEnd,
    asked: &AskedLink,
) -> Result<PreparedAnswer, AttachRefusal>
    requires { is_at_rest (state_of link.now) ≡ true }
    ensures ok { IfOk result (IsReady limit link.now asked.now (offered session.now)) }
    ensures passes { OnOk result (IsOffered session.now
        × (test_failed link.now asked.now.attach ≡ None)) }
    ensures err { IfErr result (RefusesExchange limit session.now link.now asked.now) }
{
    let handle = offered(session)?;
    let attach = announce(link, alloc, handle, limit);
    let taken = prepare(link, alloc, &asked.attach);
    let (taken, attach) = both(taken, attach)?;
    Ok(PreparedAnswer {
        taken,
        attach,
        kept: kept_flow(&asked.flow),
    })
}

/// Both of two values, or the first refusal.
fn both<A: Drop, B: Drop, E: Drop>(first: Result<A, E>, second: Result<B, E>) -> Result<(A, B), E>
    ensures ok { IfOk result (λ c. (first ≡ Ok c.0) × (second ≡ Ok c.1)) }
    ensures err { IfErr result (λ e. (first ≡ Err e) ⊎ (IsOk first × (second ≡ Err e))) }
{
    let first = first?;
    Ok((first, second?))
}

/// What the peer's Attach makes of a link at rest. It is refused with the link's own refusal, or with `Memory`, where
/// the link doesn't refuse it or tells a list of filters.
#[tactic(auto, using(crate::proofs::Taking::rules))]
fn prepare(link: &LinkEnd, alloc: Global, attach: &Attach) -> Result<PreparedAttach, AttachRefusal>
    requires { is_at_rest (state_of link.now) ≡ true }
    ensures ok { IfOk result (λ prepared. attach_planned link.now attach.now ≡ Ok prepared) }
    ensures passes { OnOk result (test_failed link.now attach.now ≡ None) }
    ensures err { IfErr result (RefusesPeer link.now attach.now) }
{
    match link.prepare_attach(alloc, attach) {
        Ok(decided) => match decided {
            Ok(prepared) => Ok(prepared),
            Err(error) => Err(AttachRefusal::Link(error)),
        },
        Err(_) => Err(AttachRefusal::Memory),
    }
}

/// What was kept of a Flow, without its properties.
fn kept_flow(kept: &Option<LinkFlow>) -> Option<LinkFlow>
    ensures { result ≡ option_map plain kept.now }
{
    match kept {
        Some(flow) => Some(without_properties(flow)),
        None => None,
    }
}

/// The link of a session with this own handle takes the peer's Attach that was made ready, and sends its own, which
/// lists only a part of its unsettled deliveries or all. It answers what is left to be done.
pub(crate) fn take_in(
    session: &mut Session<Numbered<LinkEnd>>,
    alloc: Global,
    handle: OutputHandle,
    prepared: PreparedAttach,
    incomplete: bool,
) -> Attaching
    requires there { IsSome (link_at session.old handle.0) }
    requires made { IfSome (link_at session.old handle.0) (λ link. IsFor link.link prepared) }
    requires allows { IfSome (link_at session.old handle.0) (λ link.
        IsSome (after_send_attach (state_of (carried_out link.link prepared)) false)) }
    ensures { TakesIn session.old handle prepared incomplete result session.new }
{
    let Some(link) = session.link_mut(handle) else {
        unreachable!()
    };
    take_all(&mut link.link, alloc, handle, prepared, incomplete)
}

/// The link itself does so.
fn take_all(
    link: &mut LinkEnd,
    alloc: Global,
    handle: OutputHandle,
    prepared: PreparedAttach,
    incomplete: bool,
) -> Attaching
    requires made { IsFor link.old prepared }
    requires allows { IsSome (after_send_attach (state_of (carried_out link.old prepared)) false) }
    ensures { TakesAll link.old handle prepared incomplete result link.new }
{
    let attaching = link.commit_attach(alloc, prepared);
    send_attach(link, handle, incomplete);
    attaching
}

/// A Flow without its properties, which no link takes.
fn without_properties(flow: &LinkFlow) -> LinkFlow
    ensures { result ≡ plain flow.now }
{
    LinkFlow {
        handle: flow.handle,
        delivery_count: flow.delivery_count,
        link_credit: flow.link_credit,
        available: flow.available,
        drain: flow.drain,
        echo: flow.echo,
        properties: None,
    }
}

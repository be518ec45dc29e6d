//! How several deliveries are disposed of at once (part 2, 2.6.12, 2.7.6).
ghost use Rattle.std.specs.Prelude.{◌≡◌, ◌≤◌, true, IfErr, IfOk, OnErr, Some};
ghost use Rattle.std.specs.VecDeque.{deque_capacity};
ghost use Rattle.amqp_link_receiver.specs.DisposingAll.{NotNamed};
ghost use Rattle.amqp_endpoint_attached.specs.Linked.{end_in};
ghost use Rattle.amqp_endpoint_attached.specs.Receiving.{is_receiving};
ghost use Rattle.amqp_endpoint_messages.specs.Disposing.{Commits, EndCommits, EndPrepares};
ghost use Rattle.amqp_endpoint_messages.specs.Refusals.{AllAnswered, named_at};

use crate::dispositions::send_each;
use crate::looking::{answer, is_receiving};
use crate::measuring::all_fit;
use amqp_endpoint_attached::LinkSession;
use amqp_endpoint_links::Numbered;
use amqp_endpoint_model::EndpointError;
use amqp_link::{End, LinkEnd};
use amqp_link_receiver::{DisposeError, PreparedDisposal};
use amqp_session_core::Session;
use amqp_session_performatives::{Disposition, SessionFrame};
use amqp_session_states::DeliveryState;
use amqp_session_types::{DeliveryTag, OutputHandle};
use std::alloc::Global;
use std::collections::VecDeque;

/// Disposes of the deliveries with these tags of the receiving link with this own handle, all of them or none (part 2,
/// 2.6.12, 2.7.6): one Disposition is handed out for each run of numbers that follow each other and whose transfers
/// name the same settle mode, in the order of the numbers. Of no tags there is none, and nothing changes. Each delivery
/// is settled as is asked; where that says nothing, it is by the mode of its transfer, or else the link's (part 2,
/// 2.8.3). The session forgets what is settled.
///
/// It is refused, in this order, with `IllegalState` exactly where no attached receiving link has the handle; as the
/// link refuses the first of the tags that it refuses, with `AlreadyDisposed` exactly where nothing is kept of it, its
/// outcome was told or it was named before, and with `NotAssociated` exactly where it has no number in the present
/// attachment; with `FrameTooLarge` exactly where one of those Dispositions doesn't fit the limit; and with `Memory`,
/// which the tags and the Dispositions are looked at with, too. Nothing changes then.
pub fn dispose_all(
    session: &mut LinkSession,
    alloc: Global,
    limit: u32,
    handle: OutputHandle,
    tags: &[DeliveryTag],
    state: DeliveryState,
    settled: Option<bool>,
    out: &mut VecDeque<SessionFrame>,
) -> Result<(), EndpointError>
    ensures answer { AllAnswered limit session.old handle tags.now state settled result out.old.items session.new
        out.new.items }
    ensures kept { OnErr result ((session.new ≡ session.old) × (out.new.items ≡ out.old.items)) }
    ensures waiting { session.new.session.outgoing ≡ session.old.session.outgoing }
    ensures fields { session.new.session.fields ≡ session.old.session.fields }
    ensures capacity { deque_capacity out.old ≤ deque_capacity out.new }
{
    if !is_receiving(&session.session, handle) {
        return Err(EndpointError::IllegalState);
    }
    let prepared = match prepare_in(&session.session, alloc, handle, tags, state, settled) {
        Ok(prepared) => prepared,
        Err(error) => return Err(answer(error)),
    };
    let going = prepared.told();
    let fit = all_fit(limit, going);
    if !fit {
        return Err(EndpointError::FrameTooLarge);
    }
    if out.reserve(going.len()).is_err() {
        return Err(EndpointError::Memory);
    }
    let told = commit_in(&mut session.session, alloc, handle, prepared);
    send_each(&mut session.session, told, out);
    Ok(())
}

/// The attached receiving link with this own handle makes ready what disposes of the deliveries with these tags.
fn prepare_in(
    session: &Session<Numbered<LinkEnd>>,
    alloc: Global,
    handle: OutputHandle,
    tags: &[DeliveryTag],
    state: DeliveryState,
    settled: Option<bool>,
) -> Result<PreparedDisposal, DisposeError>
    requires { is_receiving (end_in session.now handle) ≡ true }
    ensures ready { IfOk result (λ prepared.
        EndPrepares (end_in session.now handle) tags.now state settled prepared) }
    ensures refused { IfErr result (λ error.
        NotNamed (named_at (end_in session.now handle) tags.now) error) }
{
    let Some(link) = session.link(handle) else {
        unreachable!()
    };
    prepare_by(&link.link, alloc, tags, state, settled)
}

/// An attached receiving link makes it ready.
fn prepare_by(
    link: &LinkEnd,
    alloc: Global,
    tags: &[DeliveryTag],
    state: DeliveryState,
    settled: Option<bool>,
) -> Result<PreparedDisposal, DisposeError>
    requires { is_receiving (Some link.now) ≡ true }
    ensures ready { IfOk result (λ prepared. EndPrepares (Some link.now) tags.now state settled prepared) }
    ensures refused { IfErr result (λ error. NotNamed (named_at (Some link.now) tags.now) error) }
{
    match link.end() {
        End::Receiver(receiver) => receiver.prepare_dispose_all(alloc, tags, state, settled),
        End::Sender(_) => unreachable!(),
    }
}

/// The attached receiving link with this own handle disposes of deliveries as it was made ready.
fn commit_in(
    session: &mut Session<Numbered<LinkEnd>>,
    alloc: Global,
    handle: OutputHandle,
    prepared: PreparedDisposal,
) -> Vec<Disposition>
    requires { is_receiving (end_in session.old handle) ≡ true }
    ensures told { result.items ≡ prepared.told }
    ensures commits { Commits handle prepared session.old session.new }
{
    let Some(link) = session.link_mut(handle) else {
        unreachable!()
    };
    commit_by(&mut link.link, alloc, prepared)
}

/// An attached receiving link does so.
fn commit_by(link: &mut LinkEnd, alloc: Global, prepared: PreparedDisposal) -> Vec<Disposition>
    requires { is_receiving (Some link.old) ≡ true }
    ensures told { result.items ≡ prepared.told }
    ensures commits { EndCommits link.old prepared link.new }
{
    match link.end_mut() {
        End::Receiver(receiver) => receiver.commit_dispose_all(alloc, prepared),
        End::Sender(_) => unreachable!(),
    }
}

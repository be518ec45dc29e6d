//! How one delivery is disposed of (part 2, 2.6.12, 2.7.6).
ghost use Rattle.std.specs.Prelude.{◌≡◌, ◌≤◌, true, IsOk, IfOk, OnErr, ◌∷◌, []};
ghost use Rattle.std.specs.VecDeque.{deque_capacity};
ghost use Rattle.amqp_endpoint_attached.specs.Linked.{end_in};
ghost use Rattle.amqp_endpoint_attached.specs.Receiving.{is_receiving};
ghost use Rattle.amqp_endpoint_messages.specs.Disposing.{DisposesOfOne, EndDisposesOne};
ghost use Rattle.amqp_endpoint_messages.specs.Refusals.{OneAnswered, kept_at};

use crate::dispositions::send_one;
use crate::looking::{fits, is_receiving, kept, refusal};
use amqp_endpoint_attached::LinkSession;
use amqp_endpoint_links::Numbered;
use amqp_endpoint_model::EndpointError;
use amqp_link::{End, LinkEnd};
use amqp_link_receiver::DisposeError;
use amqp_session_core::Session;
use amqp_session_performatives::{Disposition, SessionFrame};
use amqp_session_states::DeliveryState;
use amqp_session_types::{DeliveryTag, OutputHandle};
use std::alloc::Global;
use std::collections::VecDeque;

/// Disposes of the delivery with this tag of the receiving link with this own handle (part 2, 2.6.12, 2.7.6): one
/// Disposition without `last` is handed out. The delivery is settled as is asked; where that says nothing, it is by the
/// mode of its transfer, or else the link's (part 2, 2.8.3). The session forgets what is settled.
///
/// It is refused, in this order, with `IllegalState` exactly where no attached receiving link has the handle; with
/// `AlreadyDisposed` exactly where nothing is kept of the delivery or its outcome was told; with `NotAssociated`
/// exactly where it has no number in the present attachment; with `FrameTooLarge` exactly where that Disposition
/// doesn't fit the limit; and with `Memory`. Nothing changes then.
pub fn dispose(
    session: &mut LinkSession,
    alloc: Global,
    limit: u32,
    handle: OutputHandle,
    tag: &DeliveryTag,
    state: DeliveryState,
    settled: Option<bool>,
    out: &mut VecDeque<SessionFrame>,
) -> Result<(), EndpointError>
    ensures answer { OneAnswered limit session.old handle tag.now state settled result out.old.items session.new
        out.new.items }
    ensures kept { OnErr result ((session.new ≡ session.old) × (out.new.items ≡ out.old.items)) }
    ensures waiting { session.new.session.outgoing ≡ session.old.session.outgoing }
    ensures fields { session.new.session.fields ≡ session.old.session.fields }
    ensures capacity { deque_capacity out.old ≤ deque_capacity out.new }
{
    if !is_receiving(&session.session, handle) {
        return Err(EndpointError::IllegalState);
    }
    let delivery = match kept(&session.session, handle, tag) {
        Ok(delivery) => delivery,
        Err(why) => return Err(refusal(why)),
    };
    let fit = fits(
        &session.session,
        limit,
        handle,
        tag,
        &delivery,
        &state,
        settled,
    );
    if !fit {
        return Err(EndpointError::FrameTooLarge);
    }
    if out.reserve(1).is_err() {
        return Err(EndpointError::Memory);
    }
    let Ok(told) = dispose_in(&mut session.session, alloc, handle, tag, state, settled) else {
        return Err(EndpointError::Memory);
    };
    send_one(&mut session.session, told, out);
    Ok(())
}

/// The attached receiving link with this own handle disposes of the delivery with this tag. It is refused where there
/// is no memory.
fn dispose_in(
    session: &mut Session<Numbered<LinkEnd>>,
    alloc: Global,
    handle: OutputHandle,
    tag: &DeliveryTag,
    state: DeliveryState,
    settled: Option<bool>,
) -> Result<Disposition, DisposeError>
    requires there { is_receiving (end_in session.old handle) ≡ true }
    requires keeps { IsOk (kept_at (end_in session.old handle) tag.now) }
    ensures disposes { IfOk result (λ told.
        DisposesOfOne handle tag.now state settled session.old (told ∷ []) session.new) }
    ensures kept { OnErr result (session.new ≡ session.old) }
{
    let Some(link) = session.link_mut(handle) else {
        unreachable!()
    };
    dispose_by(&mut link.link, alloc, tag, state, settled)
}

/// An attached receiving link disposes of the delivery with this tag.
fn dispose_by(
    link: &mut LinkEnd,
    alloc: Global,
    tag: &DeliveryTag,
    state: DeliveryState,
    settled: Option<bool>,
) -> Result<Disposition, DisposeError>
    requires { is_receiving (Some link.old) ≡ true }
    ensures { EndDisposesOne link.old tag.now state settled result link.new }
{
    match link.end_mut() {
        End::Receiver(receiver) => receiver.dispose(alloc, tag, state, settled),
        End::Sender(_) => unreachable!(),
    }
}

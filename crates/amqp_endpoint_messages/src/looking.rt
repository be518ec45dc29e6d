//! What a receiving link of a session says of deliveries before they are disposed of (part 2, 2.6.12, 2.7.6).
ghost use Rattle.std.specs.Prelude.{◌≡◌, Ok, Some, true};
ghost use Rattle.amqp_endpoint_attached.specs.Linked.{end_in};
ghost use Rattle.amqp_endpoint_attached.specs.Receiving.{is_receiving};
ghost use Rattle.amqp_endpoint_messages.specs.Refusals.{IsErrorOf, error_of, kept_at, one_fits};

use crate::measuring::delivery_fits;
use amqp_endpoint_links::Numbered;
use amqp_endpoint_model::EndpointError;
use amqp_link::{End, LinkEnd};
use amqp_link_receiver::{Disposable, DisposeError, DisposeRefusal};
use amqp_session_core::Session;
use amqp_session_states::DeliveryState;
use amqp_session_types::{DeliveryTag, OutputHandle};

/// Whether an attached receiving link has this own handle.
pub fn is_receiving(session: &Session<Numbered<LinkEnd>>, handle: OutputHandle) -> bool
    ensures { result ≡ is_receiving (end_in session.now handle) }
{
    let Some(link) = session.link(handle) else {
        return false;
    };
    is_receiving_end(&link.link)
}

/// Whether the end is that of an attached receiving link.
fn is_receiving_end(link: &LinkEnd) -> bool
    ensures { result ≡ is_receiving (Some link.now) }
{
    match link.end() {
        End::Sender(_) => false,
        End::Receiver(receiver) => receiver.local_state().is_attached(),
    }
}

/// What the delivery with this tag is disposed of by, where an attached receiving link has the handle.
pub(crate) fn kept(
    session: &Session<Numbered<LinkEnd>>,
    handle: OutputHandle,
    tag: &DeliveryTag,
) -> Result<Disposable, DisposeRefusal>
    requires { is_receiving (end_in session.now handle) ≡ true }
    ensures { result ≡ kept_at (end_in session.now handle) tag.now }
{
    let Some(link) = session.link(handle) else {
        unreachable!()
    };
    kept_by(&link.link, tag)
}

/// What the delivery with this tag is disposed of by.
fn kept_by(link: &LinkEnd, tag: &DeliveryTag) -> Result<Disposable, DisposeRefusal>
    requires { is_receiving (Some link.now) ≡ true }
    ensures { result ≡ kept_at (Some link.now) tag.now }
{
    match link.end() {
        End::Receiver(receiver) => receiver.disposable(tag),
        End::Sender(_) => unreachable!(),
    }
}

/// Whether the Disposition by which the link with this handle disposes of the delivery with this tag, which is disposed
/// of by this, fits the limit.
pub(crate) fn fits(
    session: &Session<Numbered<LinkEnd>>,
    limit: u32,
    handle: OutputHandle,
    tag: &DeliveryTag,
    delivery: &Disposable,
    state: &DeliveryState,
    settled: Option<bool>,
) -> bool
    requires { Ok delivery.now ≡ kept_at (end_in session.now handle) tag.now }
    ensures { result ≡ one_fits limit (end_in session.now handle) tag.now state.now settled }
{
    let Some(link) = session.link(handle) else {
        return true;
    };
    fits_by(&link.link, limit, tag, delivery, state, settled)
}

/// Whether the Disposition by which a link disposes of the delivery with this tag fits the limit.
fn fits_by(
    link: &LinkEnd,
    limit: u32,
    _tag: &DeliveryTag,
    delivery: &Disposable,
    state: &DeliveryState,
    settled: Option<bool>,
) -> bool
    requires { Ok delivery.now ≡ kept_at (Some link.now) _tag.now }
    ensures { result ≡ one_fits limit (Some link.now) _tag.now state.now settled }
{
    match link.end() {
        End::Receiver(receiver) => delivery_fits(limit, receiver, delivery, state, settled),
        End::Sender(_) => true,
    }
}

/// What is answered where a link refuses a delivery.
pub(crate) fn refusal(why: DisposeRefusal) -> EndpointError
    ensures { result ≡ error_of why }
{
    match why {
        DisposeRefusal::NotKept => EndpointError::AlreadyDisposed,
        DisposeRefusal::AlreadyDisposed => EndpointError::AlreadyDisposed,
        DisposeRefusal::NotAssociated => EndpointError::NotAssociated,
    }
}

/// What is answered where a link disposes of nothing.
pub(crate) fn answer(error: DisposeError) -> EndpointError
    ensures { IsErrorOf error result }
{
    match error {
        DisposeError::Refused(why) => refusal(why),
        DisposeError::Memory => EndpointError::Memory,
    }
}

//! A message that is ready, cut into transfers (part 2, 2.6.14, 2.7.5).
ghost use Rattle.std.specs.Prelude.{◌≡◌, IfOk, IfErr};
ghost use Rattle.amqp_link_sender.specs.Room.{room_of};
ghost use Rattle.amqp_endpoint_messages.specs.Sending.{CutsTo, IsCut, RefusesCut, on_handle, uncut};

use amqp_endpoint_model::EndpointError;
use amqp_link_sender::{PreparedBatch, PreparedSend, SplitRefusal, split};
use amqp_session_core::Batch;
use amqp_session_performatives::Transfer;
use amqp_session_types::{Handle, OutputHandle};
use bytes::Bytes;
use std::alloc::Global;

/// Cuts a message that is ready into transfers on its link's own handle, for frames of at most `limit` bytes.
///
/// They stand in `spare`, whose own are dropped if it has any: where its memory is enough they take none.
///
/// It is refused, in this order, with `FrameTooLarge` exactly where no frame has room for a byte, and with `Memory`.
pub(crate) fn cut(
    alloc: Global,
    spare: Batch,
    limit: u32,
    handle: OutputHandle,
    ready: PreparedSend,
) -> Result<PreparedBatch, EndpointError>
    ensures ok { IfOk result (IsCut limit handle ready) }
    ensures err { IfErr result (RefusesCut (room_of (on_handle handle ready.transfer) limit)) }
{
    let PreparedSend {
        transfer,
        payload,
        entry,
    } = ready;
    let batch = transfers(alloc, spare, limit, on_handle(handle, transfer), payload)?;
    Ok(PreparedBatch { batch, entry })
}

/// A transfer on this own handle.
pub(crate) fn on_handle(handle: OutputHandle, transfer: Transfer) -> Transfer
    ensures { result ≡ on_handle handle transfer }
{
    let mut transfer = transfer;
    transfer.handle = Handle(handle.0);
    transfer
}

/// The transfers of a message of which the first says this.
fn transfers(
    alloc: Global,
    spare: Batch,
    limit: u32,
    first: Transfer,
    payload: Bytes,
) -> Result<Batch, EndpointError>
    ensures { CutsTo (room_of first limit) first payload result }
{
    match split(alloc, spare, first, payload, limit as usize) {
        Ok(batch) => Ok(batch),
        Err(refusal) => Err(uncut(refusal)),
    }
}

/// The endpoint's refusal for that of a message that isn't cut.
fn uncut(refusal: SplitRefusal) -> EndpointError
    ensures { result ≡ uncut refusal }
{
    match refusal {
        SplitRefusal::NoRoom => EndpointError::FrameTooLarge,
        SplitRefusal::Memory => EndpointError::Memory,
    }
}

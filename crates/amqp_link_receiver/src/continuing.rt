//! Transfers that aren't the last of their deliveries (part 2, 2.6.14).
ghost use Rattle.std.specs.Prelude.{◌≡◌, ◌+◌, ◌^◌, ◌<◌, length, take, Some, None, IfOk, Ok};
ghost use Rattle.amqp_link_types.specs.declared.refusals.ReceiverTransferError.TheVariants.{Memory};
ghost use Rattle.amqp_link_receiver.specs.Deliveries.{begun, delivery_of, fresh, found, grown, kept_bytes, resumed};
ghost use Rattle.amqp_link_receiver.specs.Deliveries.{resumption, with_part};
ghost use Rattle.amqp_link_receiver.specs.declared.resuming.Resumption.TheVariants.{From};
ghost use Rattle.amqp_link_receiver.specs.Steps.{Continues, Begins, registered, settled_by};

use crate::answer::Registering;
use crate::arriving::Incoming;
use crate::attachment::Attachment;
use crate::entry::Entry;
use crate::head::{Head, Start, start_of};
use crate::noting::{forget_settled, make_room, note};
use crate::resuming::{Resumption, front_size, how_resumed, push_half, take_half};
use amqp_link_base::Gathered;
use amqp_link_types::ReceiverTransferError;
use amqp_link_unsettled::UnsettledMap;
use amqp_session_types::DeliveryTag;
use bytes::Bytes;
use std::alloc::{AllocError, Global};

/// Goes on with the delivery that is coming in.
pub(crate) fn go_on(
    alloc: Global,
    attachment: Attachment,
    held: &mut Incoming<Gathered>,
    unsettled: &mut UnsettledMap<Entry>,
    head: &Head,
    payload: Bytes,
) -> Result<Registering, ReceiverTransferError>
    ensures { Continues attachment held.old unsettled.old.entries
        (with_part attachment payload (delivery_of (Some held.old) unsettled.old.entries head.now))
        result held.new unsettled.new.entries }
{
    if !held.agrees(head) {
        return Err(ReceiverTransferError::InconsistentFieldInMultiFrameDelivery);
    }
    if held.is_too_large(attachment, &payload) {
        return Err(ReceiverTransferError::MessageSizeExceeded);
    }
    let settled = held.settled || head.settled;
    let key = make_room(unsettled, &held.delivery_tag, settled || held.joins)?;
    held.grow(payload)?;
    let registering = settled_by(held.settled, settled, held.delivery_id);
    held.go_on(head);
    note(alloc, attachment, unsettled, key, held);
    Ok(registering)
}

/// What a continuation changes of the session's unsettled deliveries: one that settles its delivery ends it there.
pub(crate) fn settled_by(before: bool, after: bool, number: u32) -> Registering
    ensures { result ≡ settled_by before after number }
{
    if before {
        return Registering::Unchanged;
    }
    if after {
        return Registering::Settled { number };
    }
    Registering::Unchanged
}

/// What a first transfer changes of the session's unsettled deliveries: one that isn't settled begins there.
pub(crate) fn registered(
    settled: bool,
    number: u32,
    tag: &DeliveryTag,
) -> Result<Registering, AllocError>
    ensures { IfOk result (λ r. r ≡ registered settled number tag.now) }
{
    if settled {
        return Ok(Registering::Unchanged);
    }
    let tag = tag.clone()?;
    Ok(Registering::Unsettled { number, tag })
}

/// Begins a delivery.
pub(crate) fn begin(
    alloc: Global,
    attachment: Attachment,
    unsettled: &mut UnsettledMap<Entry>,
    head: Head,
    payload: Bytes,
) -> Result<(Incoming<Gathered>, Registering), ReceiverTransferError>
    ensures { Begins attachment unsettled.old.entries
        (with_part attachment payload (delivery_of None unsettled.old.entries head)) result
        unsettled.new.entries }
{
    let start = start_of(head)?;
    if start.resume {
        return resume(alloc, attachment, unsettled, start, payload);
    }
    begin_fresh(alloc, attachment, unsettled, start, payload)
}

/// Begins a delivery that isn't known.
fn begin_fresh(
    alloc: Global,
    attachment: Attachment,
    unsettled: &mut UnsettledMap<Entry>,
    start: Start,
    payload: Bytes,
) -> Result<(Incoming<Gathered>, Registering), ReceiverTransferError>
    ensures { Begins attachment unsettled.old.entries
        (with_part attachment payload (fresh start
        (found unsettled.old.entries start.delivery_tag))) result unsettled.new.entries }
{
    if unsettled.contains(&start.delivery_tag) {
        return Err(ReceiverTransferError::IllegalState);
    }
    if attachment.is_passed(0, payload.len() as u64) {
        return Err(ReceiverTransferError::MessageSizeExceeded);
    }
    let mut gathered = Gathered::new(alloc);
    gathered.push(payload)?;
    keep(
        alloc,
        attachment,
        unsettled,
        start.with_bytes(gathered, false),
    )
}

/// Enters a delivery that begins.
fn keep(
    alloc: Global,
    attachment: Attachment,
    unsettled: &mut UnsettledMap<Entry>,
    delivery: Incoming<Gathered>,
) -> Result<(Incoming<Gathered>, Registering), ReceiverTransferError>
    ensures { Begins attachment unsettled.old.entries (Ok delivery) result unsettled.new.entries }
{
    let registering = registered(
        delivery.settled,
        delivery.delivery_id,
        &delivery.delivery_tag,
    )?;
    let without = delivery.settled || delivery.joins;
    let key = make_room(unsettled, &delivery.delivery_tag, without)?;
    note(alloc, attachment, unsettled, key, &delivery);
    Ok((delivery, registering))
}

/// Resumes a delivery.
fn resume(
    alloc: Global,
    attachment: Attachment,
    unsettled: &mut UnsettledMap<Entry>,
    start: Start,
    payload: Bytes,
) -> Result<(Incoming<Gathered>, Registering), ReceiverTransferError>
    ensures { Begins attachment unsettled.old.entries
        (with_part attachment payload (resumed start
        (found unsettled.old.entries start.delivery_tag))) result unsettled.new.entries }
{
    match how_resumed(unsettled, &start.delivery_tag, start.place)? {
        Resumption::Joins => keep(
            alloc,
            attachment,
            unsettled,
            start.with_bytes(Gathered::new(alloc), true),
        ),
        Resumption::From(at) => {
            let size = front_size(unsettled, &start.delivery_tag, at);
            if attachment.is_passed(size, payload.len() as u64) {
                return Err(ReceiverTransferError::MessageSizeExceeded);
            }
            resume_half(alloc, attachment, unsettled, start, at, payload)
        }
    }
}

/// Resumes a delivery from a place in the bytes that are kept of it.
fn resume_half(
    alloc: Global,
    attachment: Attachment,
    unsettled: &mut UnsettledMap<Entry>,
    start: Start,
    at: usize,
    payload: Bytes,
) -> Result<(Incoming<Gathered>, Registering), ReceiverTransferError>
    requires from { resumption (found unsettled.old.entries start.delivery_tag) start.place
        ≡ Ok (From at) }
    requires short { length (take at (kept_bytes (found unsettled.old.entries start.delivery_tag)))
        + length payload < 2 ^ 32 }
    ensures { Begins attachment unsettled.old.entries
        (Ok
        (grown (begun start (take at (kept_bytes (found unsettled.old.entries start.delivery_tag))))
        payload)) result unsettled.new.entries }
{
    let registering = registered(start.settled, start.delivery_id, &start.delivery_tag)?;
    let kept = take_half(alloc, unsettled, &start.delivery_tag);
    let bytes = push_half(unsettled, &start.delivery_tag, kept, at, payload)?;
    let delivery = start.with_bytes(bytes, false);
    forget_settled(unsettled, &delivery);
    Ok((delivery, registering))
}

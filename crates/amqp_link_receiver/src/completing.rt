//! The last transfers of deliveries (part 2, 2.6.14).
ghost use Rattle.std.specs.Prelude.{◌≡◌, ◌^◌, ◌<◌, ◌↔◌, [], length, take, true, Some, None, IfOk, IsTrue, Ok, Err};
ghost use Rattle.std.specs.Prelude.{false, OnErr};
ghost use Rattle.amqp_link_types.specs.declared.refusals.ReceiverTransferError.TheVariants.{Memory};
ghost use Rattle.amqp_link_receiver.specs.Deliveries.{begun, delivery_of, fresh, found, joined, kept_bytes, resumed};
ghost use Rattle.amqp_link_receiver.specs.Deliveries.{resumption, with_last};
ghost use Rattle.amqp_link_receiver.specs.Receiving.{completion, message_of, noted, whole_of};
ghost use Rattle.amqp_link_receiver.specs.Steps.{CompletedAs, Completes};

use crate::answer::{Answer, Message, Registering, Told};
use crate::arriving::Incoming;
use crate::attachment::Attachment;
use crate::continuing::{registered, settled_by};
use crate::entry::{Entry, WholeMessage};
use crate::head::{Head, Start, start_of};
use crate::message_bytes::MessageBytes;
use crate::noting::{enter, fresh_key, make_room, renumber};
use crate::resuming::{Resumption, front_size, how_resumed, joined_from};
use amqp_link_base::Gathered;
use amqp_link_types::ReceiverTransferError;
use amqp_link_unsettled::UnsettledMap;
use bytes::Bytes;
use std::alloc::{AllocError, Global};

/// Completes the delivery that is coming in.
pub(crate) fn finish(
    alloc: Global,
    attachment: Attachment,
    held: &Incoming<Gathered>,
    unsettled: &mut UnsettledMap<Entry>,
    head: &Head,
    payload: &Bytes,
) -> Result<Answer, ReceiverTransferError>
    ensures { Completes attachment (Some held.now) unsettled.old.entries
        (with_last attachment payload.now
        (delivery_of (Some held.now) unsettled.old.entries head.now)) result unsettled.new.entries }
{
    if !held.agrees(head) {
        return Err(ReceiverTransferError::InconsistentFieldInMultiFrameDelivery);
    }
    let settled = held.settled || head.settled;
    if attachment.is_other(settled, held.rcv_settle_mode) {
        return Err(ReceiverTransferError::IllegalRcvSettleModeInTransfer);
    }
    if held.is_too_large(attachment, payload) {
        return Err(ReceiverTransferError::MessageSizeExceeded);
    }
    let registering = settled_by(held.settled, settled, held.delivery_id);
    let whole = held.completed_with(alloc, head, payload)?;
    complete(attachment, unsettled, registering, whole)
}

/// Takes a delivery of one transfer.
pub(crate) fn take_whole(
    alloc: Global,
    attachment: Attachment,
    unsettled: &mut UnsettledMap<Entry>,
    head: Head,
    payload: Bytes,
) -> Result<Answer, ReceiverTransferError>
    ensures { Completes attachment None unsettled.old.entries
        (with_last attachment payload (delivery_of None unsettled.old.entries head)) result
        unsettled.new.entries }
{
    let start = start_of(head)?;
    if start.resume {
        return resume_whole(alloc, attachment, unsettled, start, payload);
    }
    take_fresh(attachment, unsettled, start, payload)
}

/// Takes a delivery of one transfer that isn't known.
#[tactic(auto, using(crate::proofs::Alone::among_none))]
fn take_fresh(
    attachment: Attachment,
    unsettled: &mut UnsettledMap<Entry>,
    start: Start,
    payload: Bytes,
) -> Result<Answer, ReceiverTransferError>
    ensures { Completes attachment None unsettled.old.entries
        (with_last attachment payload (fresh start
        (found unsettled.old.entries start.delivery_tag))) result unsettled.new.entries }
{
    if start.settled {
        if has_none(unsettled) {
            return take_settled(attachment, start, payload);
        }
    }
    if unsettled.contains(&start.delivery_tag) {
        return Err(ReceiverTransferError::IllegalState);
    }
    if attachment.is_other(start.settled, start.rcv_settle_mode) {
        return Err(ReceiverTransferError::IllegalRcvSettleModeInTransfer);
    }
    if attachment.is_passed(0, payload.len() as u64) {
        return Err(ReceiverTransferError::MessageSizeExceeded);
    }
    file_fresh(attachment, unsettled, start.with_bytes(payload, false))
}

/// Whether no delivery is unsettled.
fn has_none(unsettled: &UnsettledMap<Entry>) -> bool
    ensures { IsTrue result ↔ (unsettled.now.entries ≡ []) }
{
    unsettled.is_empty()
}

/// Takes a settled delivery of one transfer where none is unsettled: its message is handed out as it came.
#[inline(always)]
fn take_settled(
    attachment: Attachment,
    start: Start,
    payload: Bytes,
) -> Result<Answer, ReceiverTransferError>
    requires { start.settled ≡ true }
    ensures { Completes attachment None [] (with_last attachment payload (fresh start None)) result
        [] }
{
    if attachment.is_passed(0, payload.len() as u64) {
        return Err(ReceiverTransferError::MessageSizeExceeded);
    }
    Ok(Answer {
        registering: Registering::Unchanged,
        told: Told::Message(Message {
            delivery_id: start.delivery_id,
            delivery_tag: start.delivery_tag,
            message_format: start.message_format,
            rcv_settle_mode: None,
            settled: true,
            payload,
        }),
    })
}

/// Takes a delivery that isn't known and is complete at once.
#[tactic(auto, using(crate::proofs::Entering::none_taken))]
fn file_fresh(
    attachment: Attachment,
    unsettled: &mut UnsettledMap<Entry>,
    delivery: Incoming<Bytes>,
) -> Result<Answer, ReceiverTransferError>
    requires short { length delivery.payload < 2 ^ 32 }
    requires absent { found unsettled.old.entries delivery.delivery_tag ≡ None }
    requires begins { delivery.joins ≡ false }
    ensures { Completes attachment None unsettled.old.entries (Ok delivery) result
        unsettled.new.entries }
{
    let registering = registered(
        delivery.settled,
        delivery.delivery_id,
        &delivery.delivery_tag,
    )?;
    if delivery.settled {
        return Ok(handed_out(registering, delivery));
    }
    let key = fresh_key(unsettled, &delivery.delivery_tag)?;
    let whole = whole_of(attachment, &delivery)?;
    unsettled.insert_reserved(key, Entry::Whole(whole));
    Ok(handed_out(registering, delivery))
}

/// Takes a delivery that begins and is complete at once.
fn file(
    attachment: Attachment,
    unsettled: &mut UnsettledMap<Entry>,
    delivery: Incoming<Bytes>,
) -> Result<Answer, ReceiverTransferError>
    requires { length delivery.payload < 2 ^ 32 }
    ensures { Completes attachment None unsettled.old.entries (Ok delivery) result
        unsettled.new.entries }
{
    let registering = registered(
        delivery.settled,
        delivery.delivery_id,
        &delivery.delivery_tag,
    )?;
    complete(attachment, unsettled, registering, delivery)
}

/// Resumes a delivery whose last transfer this is.
fn resume_whole(
    alloc: Global,
    attachment: Attachment,
    unsettled: &mut UnsettledMap<Entry>,
    start: Start,
    payload: Bytes,
) -> Result<Answer, ReceiverTransferError>
    ensures { Completes attachment None unsettled.old.entries
        (with_last attachment payload (resumed start
        (found unsettled.old.entries start.delivery_tag))) result unsettled.new.entries }
{
    let how = how_resumed(unsettled, &start.delivery_tag, start.place)?;
    if attachment.is_other(start.settled, start.rcv_settle_mode) {
        return Err(ReceiverTransferError::IllegalRcvSettleModeInTransfer);
    }
    match how {
        Resumption::Joins => file(attachment, unsettled, start.with_bytes(Bytes::new(), true)),
        Resumption::From(at) => {
            let size = front_size(unsettled, &start.delivery_tag, at);
            if attachment.is_passed(size, payload.len() as u64) {
                return Err(ReceiverTransferError::MessageSizeExceeded);
            }
            let whole = joined_from(alloc, unsettled, &start.delivery_tag, at, &payload)?;
            file(attachment, unsettled, start.with_bytes(whole, false))
        }
    }
}

/// A delivery is complete: its message is handed out, and kept where it isn't settled.
fn complete(
    attachment: Attachment,
    unsettled: &mut UnsettledMap<Entry>,
    registering: Registering,
    delivery: Incoming<Bytes>,
) -> Result<Answer, ReceiverTransferError>
    requires { length delivery.payload < 2 ^ 32 }
    ensures { CompletedAs attachment registering unsettled.old.entries delivery result
        unsettled.new.entries }
{
    if delivery.settled {
        let _ = unsettled.remove(&delivery.delivery_tag);
        return Ok(handed_out(registering, delivery));
    }
    if delivery.joins {
        let number = delivery.delivery_id;
        let mode = delivery.rcv_settle_mode;
        renumber(attachment, unsettled, &delivery.delivery_tag, number, mode);
        return Ok(handed_out(registering, delivery));
    }
    let key = make_room(unsettled, &delivery.delivery_tag, false)?;
    let whole = whole_of(attachment, &delivery)?;
    enter(unsettled, key, &delivery.delivery_tag, Entry::Whole(whole));
    Ok(handed_out(registering, delivery))
}

/// What is kept of a message that isn't settled.
fn whole_of(attachment: Attachment, delivery: &Incoming<Bytes>) -> Result<WholeMessage, AllocError>
    requires { length delivery.now.payload < 2 ^ 32 }
    ensures { IfOk result (λ m. m ≡ whole_of attachment delivery.now) }
{
    let payload = delivery.payload.clone()?;
    Ok(WholeMessage {
        payload: MessageBytes::new(payload),
        state: None,
        number: delivery.delivery_id,
        attachment: attachment.count,
        rcv_settle_mode: delivery.rcv_settle_mode,
        message: None,
    })
}

/// What comes of the last transfer of a delivery.
fn handed_out(registering: Registering, delivery: Incoming<Bytes>) -> Answer
    ensures { result ≡ record { registering = registering; told = completion delivery } }
{
    Answer {
        registering,
        told: completion(delivery),
    }
}

/// The message of a delivery that is complete, or that it was handed out before.
fn completion(delivery: Incoming<Bytes>) -> Told
    ensures { result ≡ completion delivery }
{
    if delivery.joins {
        return Told::Joined {
            number: delivery.delivery_id,
            tag: delivery.delivery_tag,
        };
    }
    Told::Message(message_of(delivery))
}

/// The message of a delivery.
fn message_of(delivery: Incoming<Bytes>) -> Message
    ensures { result ≡ message_of delivery }
{
    let rcv_settle_mode = if delivery.settled {
        None
    } else {
        delivery.rcv_settle_mode
    };
    Message {
        delivery_id: delivery.delivery_id,
        delivery_tag: delivery.delivery_tag,
        message_format: delivery.message_format,
        rcv_settle_mode,
        settled: delivery.settled,
        payload: delivery.payload,
    }
}

//! What a transfer would come to (part 2, 2.7.5).
ghost use Rattle.std.specs.Prelude.{◌≡◌, [], None, Some};
ghost use Rattle.amqp_link_receiver.specs.Deliveries.{delivery_of, found, fresh, resumed, with_last};
ghost use Rattle.amqp_link_receiver.specs.Foreseen.{completes, is_handed, start_at};
ghost use Rattle.amqp_link_receiver.specs.Reading.{head_of};

use crate::arriving::Incoming;
use crate::attachment::Attachment;
use crate::entry::Entry;
use crate::head::{place_of, says};
use crate::link::ReceiverLink;
use crate::resuming::{Resumption, front_size, how_resumed};
use amqp_link_base::Gathered;
use amqp_link_unsettled::UnsettledMap;
use amqp_session_performatives::Transfer;
use amqp_session_types::DeliveryTag;
use bytes::Bytes;

impl ReceiverLink {
    /// Whether the link would hand out a message for a transfer with its payload, if there is memory: whether it is
    /// attached, and the transfer is the last of a delivery of which no message was handed out before, and isn't refused
    /// (part 2, 2.7.5). It takes no memory.
    pub fn completes(&self, transfer: &Transfer, payload: &Bytes) -> bool
        ensures { result ≡ completes self.now transfer.now payload.now }
    {
        if !self.base.is_attached() {
            return false;
        }
        self.end.completes(self.attachment(), transfer, payload)
    }
}

/// Whether the last transfer of the delivery that is coming in completes a message.
pub(crate) fn finishes(
    attachment: Attachment,
    held: &Incoming<Gathered>,
    transfer: &Transfer,
    payload: &Bytes,
) -> bool
    ensures { result ≡ is_handed (with_last attachment payload.now
        (delivery_of (Some held.now) [] (head_of transfer.now))) }
{
    if !held.repeats(
        transfer.delivery_id,
        &transfer.delivery_tag,
        transfer.message_format,
    ) {
        return false;
    }
    if attachment.is_other(held.settled || says(transfer.settled), held.rcv_settle_mode) {
        return false;
    }
    if held.is_too_large(attachment, payload) {
        return false;
    }
    !held.joins
}

/// Whether a delivery of one transfer is a message.
pub(crate) fn is_whole(
    attachment: Attachment,
    unsettled: &UnsettledMap<Entry>,
    transfer: &Transfer,
    payload: &Bytes,
) -> bool
    ensures { result ≡ is_handed (with_last attachment payload.now
        (delivery_of None unsettled.now.entries (head_of transfer.now))) }
{
    let Some(number) = transfer.delivery_id else {
        return false;
    };
    let Some(tag) = &transfer.delivery_tag else {
        return false;
    };
    if transfer.resume {
        return is_resumed(attachment, unsettled, transfer, number, tag, payload);
    }
    is_fresh(attachment, unsettled, transfer, number, tag, payload)
}

/// Whether a delivery of one transfer, with this number and this tag, is a message where it isn't resumed.
fn is_fresh(
    attachment: Attachment,
    unsettled: &UnsettledMap<Entry>,
    transfer: &Transfer,
    _number: u32,
    tag: &DeliveryTag,
    payload: &Bytes,
) -> bool
    ensures { result ≡ is_handed (with_last attachment payload.now
        (fresh (start_at transfer.now _number tag.now) (found unsettled.now.entries tag.now))) }
{
    if unsettled.contains(tag) {
        return false;
    }
    if attachment.is_other(says(transfer.settled), transfer.rcv_settle_mode) {
        return false;
    }
    !attachment.is_passed(0, payload.len() as u64)
}

/// Whether a delivery whose last transfer this is, with this number and this tag, is a message where it is resumed.
fn is_resumed(
    attachment: Attachment,
    unsettled: &UnsettledMap<Entry>,
    transfer: &Transfer,
    _number: u32,
    tag: &DeliveryTag,
    payload: &Bytes,
) -> bool
    ensures { result ≡ is_handed (with_last attachment payload.now
        (resumed (start_at transfer.now _number tag.now) (found unsettled.now.entries tag.now))) }
{
    let Ok(how) = how_resumed(unsettled, tag, place_of(&transfer.state)) else {
        return false;
    };
    if attachment.is_other(says(transfer.settled), transfer.rcv_settle_mode) {
        return false;
    }
    match how {
        Resumption::Joins => false,
        Resumption::From(at) => {
            let size = front_size(unsettled, tag, at);
            !attachment.is_passed(size, payload.len() as u64)
        }
    }
}

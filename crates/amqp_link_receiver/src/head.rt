//! What a receiver reads of a transfer (part 2, 2.7.5).
ghost use Rattle.std.specs.Prelude.{◌≡◌};
ghost use Rattle.amqp_link_receiver.specs.Reading.{head_of, place_of, says};
ghost use Rattle.amqp_link_receiver.specs.Deliveries.{start_of};

use crate::arriving::Incoming;
use amqp_link_types::ReceiverTransferError;
use amqp_session_performatives::Transfer;
use amqp_session_states::{DeliveryState, Received};
use amqp_session_types::{DeliveryTag, ReceiverSettleMode};

/// What a receiver reads of a transfer (part 2, 2.7.5).
#[derive(Debug, Drop)]
pub struct Head {
    /// The number of the delivery.
    pub delivery_id: Option<u32>,
    /// What the link calls the delivery.
    pub delivery_tag: Option<DeliveryTag>,
    /// How the message is encoded.
    pub message_format: Option<u32>,
    /// Whether the transfer says that the sender has settled the delivery.
    pub settled: bool,
    /// Whether a continuation of the delivery follows.
    pub more: bool,
    /// How the receiver is to settle this delivery.
    pub rcv_settle_mode: Option<ReceiverSettleMode>,
    /// The place that the delivery is resumed from (part 3, 3.4.1).
    pub place: Option<Received>,
    /// Whether it resumes a delivery of an earlier attachment.
    pub resume: bool,
    /// Whether the sender gives the delivery up.
    pub aborted: bool,
}

/// What a receiver reads of a transfer that begins a delivery.
#[derive(Debug, Drop)]
pub struct Start {
    /// The number of the delivery.
    pub delivery_id: u32,
    /// What the link calls the delivery.
    pub delivery_tag: DeliveryTag,
    /// How the message is encoded.
    pub message_format: Option<u32>,
    /// Whether the transfer says that the sender has settled the delivery.
    pub settled: bool,
    /// How the receiver is to settle this delivery.
    pub rcv_settle_mode: Option<ReceiverSettleMode>,
    /// The place that the delivery is resumed from (part 3, 3.4.1).
    pub place: Option<Received>,
    /// Whether it resumes a delivery of an earlier attachment.
    pub resume: bool,
}

impl Start {
    /// The delivery that it begins, with bytes of it, and whether its message is there whole.
    pub(crate) fn with_bytes<P>(self, payload: P, joins: bool) -> Incoming<P>
        ensures { result ≡ record {
          delivery_id = self.delivery_id;
          delivery_tag = self.delivery_tag;
          message_format = self.message_format;
          settled = self.settled;
          rcv_settle_mode = self.rcv_settle_mode;
          payload = payload;
          joins = joins;
        } }
    {
        Incoming {
            delivery_id: self.delivery_id,
            delivery_tag: self.delivery_tag,
            message_format: self.message_format,
            settled: self.settled,
            rcv_settle_mode: self.rcv_settle_mode,
            payload,
            joins,
        }
    }
}

/// A transfer that begins a delivery, which has a number and a tag.
pub(crate) fn start_of(head: Head) -> Result<Start, ReceiverTransferError>
    ensures { result ≡ start_of head }
{
    let Head {
        delivery_id,
        delivery_tag,
        message_format,
        settled,
        more: _,
        rcv_settle_mode,
        place,
        resume,
        aborted: _,
    } = head;
    let Some(delivery_id) = delivery_id else {
        return Err(ReceiverTransferError::DeliveryIdIsNone);
    };
    let Some(delivery_tag) = delivery_tag else {
        return Err(ReceiverTransferError::DeliveryTagIsNone);
    };
    Ok(Start {
        delivery_id,
        delivery_tag,
        message_format,
        settled,
        rcv_settle_mode,
        place,
        resume,
    })
}

/// What a receiver reads of a transfer.
pub(crate) fn head_of(transfer: Transfer) -> Head
    ensures { result ≡ head_of transfer }
{
    Head {
        delivery_id: transfer.delivery_id,
        delivery_tag: transfer.delivery_tag,
        message_format: transfer.message_format,
        settled: says(transfer.settled),
        more: transfer.more,
        rcv_settle_mode: transfer.rcv_settle_mode,
        place: place_of(&transfer.state),
        resume: transfer.resume,
        aborted: transfer.aborted,
    }
}

/// A delivery is settled only where a transfer of it says so.
pub(crate) fn says(settled: Option<bool>) -> bool
    ensures { result ≡ says settled }
{
    settled.unwrap_or(false)
}

/// The place that a delivery is resumed from, where its state names one.
pub(crate) fn place_of(state: &Option<DeliveryState>) -> Option<Received>
    ensures { result ≡ place_of state.now }
{
    match state {
        Some(DeliveryState::Received(place)) => Some(*place),
        _ => None,
    }
}

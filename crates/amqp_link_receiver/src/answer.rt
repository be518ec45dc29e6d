//! What a receiving end answers to a transfer (part 2, 2.7.5).
use amqp_link_types::ReceiverTransferError;
use amqp_session_types::{DeliveryTag, ReceiverSettleMode};
use bytes::Bytes;

/// A message as a receiving end hands it out.
#[derive(Debug, Drop)]
pub struct Message {
    /// The number of its delivery (part 2, 2.8.6).
    pub delivery_id: u32,
    /// What the link calls its delivery (part 2, 2.8.7).
    pub delivery_tag: DeliveryTag,
    /// How it is encoded (part 2, 2.8.11).
    pub message_format: Option<u32>,
    /// How it is to be settled, where its first transfer said it. Of a message that its sender has settled that says
    /// nothing, and it is None.
    pub rcv_settle_mode: Option<ReceiverSettleMode>,
    /// Whether its sender has settled it.
    pub settled: bool,
    /// Its bytes.
    pub payload: Bytes,
}

/// What a transfer changes of the deliveries that the session knows as unsettled (part 2, 2.6.12).
#[derive(Debug, Drop)]
pub enum Registering {
    /// Nothing: it goes on with a delivery, or begins one that is settled.
    Unchanged,
    /// It begins a delivery that isn't settled.
    Unsettled {
        /// The number of the delivery.
        number: u32,
        /// What the link calls it.
        tag: DeliveryTag,
    },
    /// It settles a delivery that was begun unsettled, or gives it up.
    Settled {
        /// The number of the delivery.
        number: u32,
    },
}

/// What comes of a transfer.
#[derive(Debug, Drop)]
pub enum Told {
    /// More transfers of the delivery are to come.
    Nothing,
    /// It completes a message.
    Message(Message),
    /// It completes a delivery whose message was handed out in an earlier attachment. The delivery has a new number.
    Joined {
        /// The number.
        number: u32,
        /// What the link calls the delivery.
        tag: DeliveryTag,
    },
    /// It gives a delivery up.
    Dropped,
    /// It is refused. `Memory` is never told so.
    Refused(ReceiverTransferError),
}

/// What a receiving end answers to a transfer.
#[derive(Debug, Drop)]
pub struct Answer {
    /// What becomes of the delivery in the session.
    pub registering: Registering,
    /// What comes of the transfer.
    pub told: Told,
}

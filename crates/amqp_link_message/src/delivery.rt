//! What a receiver hands out (part 2, 2.6.12).
ghost use Rattle.std.specs.Prelude.{◌≡◌, IfOk, OnErr};
ghost use Rattle.serde_amqp_read.specs.Reads.{Unless, faultless};
ghost use Rattle.amqp_link_message.specs.Parts.{ReadsParts, NoParts};
ghost use Rattle.amqp_link_message.specs.Message.{message_parts, message_takes};

use crate::body::ReadBody;
use crate::message::Message;
use crate::payload::read_payload;
use crate::raw::Raw;
use amqp_session_types::{DeliveryNumber, DeliveryTag, Handle, MessageFormat, ReceiverSettleMode};
use serde_amqp_item::Error;
use std::alloc::{AllocError, Global};
use std::fmt;

/// A message that was received, with what its transfers said of it (part 2, 2.7.5).
#[derive(Debug, Drop)]
pub struct Delivery<B> {
    /// The handle of the link that it came on.
    pub handle: Handle,
    /// The number of the delivery in its session (part 2, 2.6.12).
    pub delivery_id: DeliveryNumber,
    /// The tag of the delivery on its link.
    pub delivery_tag: DeliveryTag,
    /// The format of the message, where it was said (part 2, 2.8.11).
    pub message_format: Option<MessageFormat>,
    /// How the receiver is to settle it, where that was said (part 2, 2.8.3).
    pub rcv_settle_mode: Option<ReceiverSettleMode>,
    /// The message.
    pub message: Message<B>,
}

/// What is said to settle a delivery.
#[derive(Debug, Drop)]
pub struct DeliveryInfo {
    /// The number of the delivery in its session (part 2, 2.6.12).
    pub delivery_id: DeliveryNumber,
    /// The tag of the delivery on its link.
    pub delivery_tag: DeliveryTag,
    /// How the receiver is to settle it, where that was said (part 2, 2.8.3).
    pub rcv_settle_mode: Option<ReceiverSettleMode>,
}

impl<B> Delivery<B> {
    /// The handle of the link that it came on.
    pub fn handle(&self) -> &Handle
        ensures { result.now ≡ self.now.handle }
    {
        &self.handle
    }

    /// The message.
    pub fn message(&self) -> &Message<B>
        ensures { result.now ≡ self.now.message }
    {
        &self.message
    }

    /// The number of the delivery in its session.
    pub fn delivery_id(&self) -> DeliveryNumber
        ensures { result ≡ self.now.delivery_id }
    {
        self.delivery_id
    }

    /// The tag of the delivery on its link.
    pub fn delivery_tag(&self) -> &DeliveryTag
        ensures { result.now ≡ self.now.delivery_tag }
    {
        &self.delivery_tag
    }

    /// The format of the message, where it was said.
    pub fn message_format(&self) -> Option<MessageFormat>
        ensures { result ≡ self.now.message_format }
    {
        self.message_format
    }

    /// The body of the message.
    pub fn body(&self) -> &B
        ensures { result.now ≡ self.now.message.body }
    {
        &self.message.body
    }

    /// The message alone.
    pub fn into_message(self) -> Message<B>
        ensures { result ≡ self.message }
    {
        let Delivery {
            handle: _,
            delivery_id: _,
            delivery_tag: _,
            message_format: _,
            rcv_settle_mode: _,
            message,
        } = self;
        message
    }

    /// What is said to settle the delivery, and its message. The format is dropped.
    pub fn into_parts(self) -> (DeliveryInfo, Message<B>)
        ensures { result ≡ record {
          0 = record { delivery_id = self.delivery_id; delivery_tag = self.delivery_tag; rcv_settle_mode = self.rcv_settle_mode };
          1 = self.message;
        } }
    {
        let Delivery {
            handle: _,
            delivery_id,
            delivery_tag,
            message_format: _,
            rcv_settle_mode,
            message,
        } = self;
        let info = DeliveryInfo {
            delivery_id,
            delivery_tag,
            rcv_settle_mode,
        };
        (info, message)
    }
}

impl<B: Drop> Delivery<B> {
    /// The body of the message alone.
    pub fn into_body(self) -> B
        ensures { result ≡ self.message.body }
    {
        let Message {
            header: _,
            delivery_annotations: _,
            message_annotations: _,
            properties: _,
            application_properties: _,
            body,
            footer: _,
        } = self.into_message();
        body
    }
}

impl Delivery<Raw> {
    /// Reads the message as one with a body of this type (part 3, 3.2).
    ///
    /// Errors: `Memory`; any other exactly where the payload doesn't say the sections of such a message in order, to its
    /// end.
    pub fn read<B: ReadBody>(&self, alloc: Global) -> Result<Message<B>, Error>
        ensures ok { IfOk result (λ m. ReadsParts (message_takes B.takes) self.now.message.body.0
            (message_parts B.items m)) }
        ensures refused { Unless faultless result
            (NoParts (message_takes B.takes) self.now.message.body.0) }
    {
        read_payload(alloc, self.message.body.0.as_slice())
    }
}

impl DeliveryInfo {
    /// What is said to settle a delivery that is kept. It is refused where there is no memory for the tag.
    pub fn from_ref<B>(delivery: &Delivery<B>) -> Result<Self, AllocError>
        ensures { IfOk result (λ i. i ≡ record {
          delivery_id = delivery.now.delivery_id;
          delivery_tag = delivery.now.delivery_tag;
          rcv_settle_mode = delivery.now.rcv_settle_mode;
        }) }
    {
        Ok(DeliveryInfo {
            delivery_id: delivery.delivery_id,
            delivery_tag: delivery.delivery_tag.clone()?,
            rcv_settle_mode: delivery.rcv_settle_mode,
        })
    }

    /// The number of the delivery in its session.
    pub fn delivery_id(&self) -> DeliveryNumber
        ensures { result ≡ self.now.delivery_id }
    {
        self.delivery_id
    }

    /// The tag of the delivery on its link.
    pub fn delivery_tag(&self) -> &DeliveryTag
        ensures { result.now ≡ self.now.delivery_tag }
    {
        &self.delivery_tag
    }

    /// How the receiver is to settle it, where that was said.
    pub fn rcv_settle_mode(&self) -> Option<ReceiverSettleMode>
        ensures { result ≡ self.now.rcv_settle_mode }
    {
        self.rcv_settle_mode
    }
}

/// A second one. It is refused where there is no memory for the tag.
impl Clone for DeliveryInfo {
    ghost is_clone = { λ x y. y ≡ x };

    fn clone(&self) -> Result<Self, AllocError> {
        Ok(DeliveryInfo {
            delivery_id: self.delivery_id,
            delivery_tag: self.delivery_tag.clone()?,
            rcv_settle_mode: self.rcv_settle_mode,
        })
    }
}

/// What is said to settle the delivery. Its message is dropped.
impl<B: Drop> From<Delivery<B>> for DeliveryInfo {
    ghost from_gives = { λ d i. i ≡ record { delivery_id = d.delivery_id; delivery_tag = d.delivery_tag; rcv_settle_mode = d.rcv_settle_mode } };

    fn from(delivery: Delivery<B>) -> Self {
        let (info, _message) = delivery.into_parts();
        info
    }
}

/// Its number, its tag in hexadecimal digits, and the body of its message.
impl<B: fmt::Display> fmt::Display for Delivery<B> {
    fn fmt<W: fmt::Write>(&self, f: &mut fmt::Formatter<W>) -> fmt::Result {
        let number = self.delivery_id;
        write!(f, "Delivery {{ delivery_id: {number}, delivery_tag: 0x")?;
        for byte in self.delivery_tag.as_slice() {
            write!(f, "{byte:02x}")?;
        }
        let body = &self.message.body;
        write!(f, ", message.body: {body} }}")
    }
}

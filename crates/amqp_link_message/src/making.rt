//! Messages and what is sent, made of bodies and of plain values (part 3, 3.2).
ghost use Rattle.std.specs.Prelude.{◌≡◌, None};
ghost use Rattle.amqp_link_message.specs.Making.{bare, IsSendableOf};

use crate::any_body::Body;
use crate::message::Message;
use crate::raw::Raw;
use crate::sendable::{MESSAGE_FORMAT, Sendable};
use amqp_link_sections::{AmqpSequence, AmqpValue, Data};
use bytes::Bytes;
use serde_amqp_types::Text;

impl<B> Message<B> {
    /// A message of this body alone.
    pub fn new(body: B) -> Self
        ensures { result ≡ bare body }
    {
        Message {
            header: None,
            delivery_annotations: None,
            message_annotations: None,
            properties: None,
            application_properties: None,
            body,
            footer: None,
        }
    }
}

/// A message of this data alone.
impl From<Data> for Message<Data> {
    ghost from_gives = { λ b m. m ≡ bare b };

    fn from(body: Data) -> Self {
        Message::new(body)
    }
}

/// A message of this sequence alone.
impl<T> From<AmqpSequence<T>> for Message<AmqpSequence<T>> {
    ghost from_gives = { λ b m. m ≡ bare b };

    fn from(body: AmqpSequence<T>) -> Self {
        Message::new(body)
    }
}

/// A message of this value alone.
impl<T> From<AmqpValue<T>> for Message<AmqpValue<T>> {
    ghost from_gives = { λ b m. m ≡ bare b };

    fn from(body: AmqpValue<T>) -> Self {
        Message::new(body)
    }
}

/// A message of this body alone.
impl<T> From<Body<T>> for Message<Body<T>> {
    ghost from_gives = { λ b m. m ≡ bare b };

    fn from(body: Body<T>) -> Self {
        Message::new(body)
    }
}

/// A message whose payload is these bytes.
impl From<Raw> for Message<Raw> {
    ghost from_gives = { λ b m. m ≡ bare b };

    fn from(body: Raw) -> Self {
        Message::new(body)
    }
}

/// A message whose payload is these bytes.
impl From<Bytes> for Message<Raw> {
    ghost from_gives = { λ b m. m ≡ bare (record { 0 = b }) };

    fn from(bytes: Bytes) -> Self {
        Message::new(Raw(bytes))
    }
}

/// A message of a boolean.
impl From<bool> for Message<AmqpValue<bool>> {
    ghost from_gives = { λ b m. m ≡ bare (record { 0 = b }) };

    fn from(value: bool) -> Self {
        Message::new(AmqpValue(value))
    }
}

/// A message of a uint.
impl From<u32> for Message<AmqpValue<u32>> {
    ghost from_gives = { λ n m. m ≡ bare (record { 0 = n }) };

    fn from(value: u32) -> Self {
        Message::new(AmqpValue(value))
    }
}

/// A message of a ulong.
impl From<u64> for Message<AmqpValue<u64>> {
    ghost from_gives = { λ n m. m ≡ bare (record { 0 = n }) };

    fn from(value: u64) -> Self {
        Message::new(AmqpValue(value))
    }
}

/// A message of an int.
impl From<i32> for Message<AmqpValue<i32>> {
    ghost from_gives = { λ n m. m ≡ bare (record { 0 = n }) };

    fn from(value: i32) -> Self {
        Message::new(AmqpValue(value))
    }
}

/// A message of a long.
impl From<i64> for Message<AmqpValue<i64>> {
    ghost from_gives = { λ n m. m ≡ bare (record { 0 = n }) };

    fn from(value: i64) -> Self {
        Message::new(AmqpValue(value))
    }
}

/// A message of a text.
impl From<Text> for Message<AmqpValue<Text>> {
    ghost from_gives = { λ t m. m ≡ bare (record { 0 = t }) };

    fn from(value: Text) -> Self {
        Message::new(AmqpValue(value))
    }
}

/// A message of a text.
impl From<String> for Message<AmqpValue<String>> {
    ghost from_gives = { λ t m. m ≡ bare (record { 0 = t }) };

    fn from(value: String) -> Self {
        Message::new(AmqpValue(value))
    }
}

/// What is sent of a message that is made of this: it has format 0, and no word on how it is settled.
impl<B, T: Into<Message<B>>> From<T> for Sendable<B> {
    ghost from_gives = { λ x s. IsSendableOf (T.converts x) s };

    fn from(value: T) -> Self {
        Sendable {
            message: value.into(),
            message_format: MESSAGE_FORMAT,
            settled: None,
        }
    }
}

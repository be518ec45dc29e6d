//! A delivery that is coming in (part 2, 2.6.14).
ghost use Rattle.std.specs.Prelude.{◌≡◌, ◌+◌, ◌<◌, ◌^◌, length, IfOk, OnOk, OnErr, false};
ghost use Rattle.amqp_link_receiver.specs.Deliveries.{agrees, continued, grown, is_too_large, repeats_number};
ghost use Rattle.amqp_link_receiver.specs.Deliveries.{repeats, repeats_tag};

use crate::attachment::Attachment;
use crate::head::Head;
use amqp_link_base::Gathered;
use amqp_session_types::{DeliveryTag, ReceiverSettleMode};
use bytes::Bytes;
use std::alloc::{AllocError, Global};

/// A delivery that is coming in, with its bytes as they are kept (part 2, 2.6.14).
#[derive(Drop)]
pub struct Incoming<P> {
    /// What the link calls it, as its first transfer told it.
    pub delivery_tag: DeliveryTag,
    /// Its number, as its first transfer told it.
    pub delivery_id: u32,
    /// How the message is encoded, once a transfer told it.
    pub message_format: Option<u32>,
    /// Whether a transfer said that the sender has settled it.
    pub settled: bool,
    /// How the receiver is to settle it, as its first transfer told it.
    pub rcv_settle_mode: Option<ReceiverSettleMode>,
    /// Whether the message was received whole in an earlier attachment: what comes of it again is passed over.
    pub joins: bool,
    /// The bytes of the message that have come.
    pub payload: P,
}

impl Incoming<Gathered> {
    /// Whether a transfer repeats or leaves out what the earlier ones of the delivery said.
    pub(crate) fn agrees(&self, head: &Head) -> bool
        ensures { result ≡ agrees self.now head.now }
    {
        self.repeats(head.delivery_id, &head.delivery_tag, head.message_format)
    }

    /// Whether number, tag and format are those of the delivery, or are left out.
    pub(crate) fn repeats(
        &self,
        number: Option<u32>,
        tag: &Option<DeliveryTag>,
        format: Option<u32>,
    ) -> bool
        ensures { result ≡ repeats self.now number tag.now format }
    {
        repeats_number(Some(self.delivery_id), number)
            && repeats_tag(&self.delivery_tag, tag)
            && repeats_number(self.message_format, format)
    }

    /// Whether the message is larger than what is taken with so many bytes more.
    pub(crate) fn is_too_large(&self, attachment: Attachment, payload: &Bytes) -> bool
        ensures { result ≡ is_too_large attachment self.now payload.now }
    {
        if self.joins {
            return false;
        }
        attachment.is_passed(self.payload.size() as u64, payload.len() as u64)
    }

    /// Goes on by what a continuation says.
    pub(crate) fn go_on(&mut self, head: &Head)
        ensures { self.new ≡ continued self.old head.now }
    {
        self.settled = self.settled || head.settled;
    }

    /// The whole delivery, with its last transfer.
    pub(crate) fn completed_with(
        &self,
        alloc: Global,
        head: &Head,
        last: &Bytes,
    ) -> Result<Incoming<Bytes>, AllocError>
        requires { self.now.joins ≡ false → length self.now.payload + length last.now < 2 ^ 32 }
        ensures all { IfOk result (λ d. d ≡ grown (continued self.now head.now) last.now) }
        ensures short { IfOk result (λ d. length d.payload < 2 ^ 32) }
    {
        Ok(Incoming {
            delivery_id: self.delivery_id,
            delivery_tag: self.delivery_tag.clone()?,
            message_format: self.message_format,
            settled: self.settled || head.settled,
            rcv_settle_mode: self.rcv_settle_mode,
            payload: self.all_with(alloc, last)?,
            joins: self.joins,
        })
    }

    /// The bytes that have come with the last ones. What is passed over is left off.
    fn all_with(&self, alloc: Global, last: &Bytes) -> Result<Bytes, AllocError>
        requires { self.now.joins ≡ false → length self.now.payload + length last.now < 2 ^ 32 }
        ensures all { IfOk result (λ all. all ≡ (grown self.now last.now).payload) }
        ensures short { IfOk result (λ all. length all < 2 ^ 32) }
    {
        let size = self.payload.size();
        if self.joins {
            return self.payload.join(alloc, size, &Bytes::new());
        }
        self.payload.join(alloc, size, last)
    }

    /// Goes on by these bytes.
    pub(crate) fn grow(&mut self, payload: Bytes) -> Result<(), AllocError>
        requires { self.old.joins ≡ false → length self.old.payload + length payload < 2 ^ 32 }
        ensures ok { OnOk result (self.new ≡ grown self.old payload) }
        ensures err { OnErr result (self.new ≡ self.old) }
    {
        if self.joins {
            return Ok(());
        }
        self.payload.push(payload)
    }
}

/// Whether a number is that which was told before, or is left out.
fn repeats_number(own: Option<u32>, told: Option<u32>) -> bool
    ensures { result ≡ repeats_number own told }
{
    let Some(told) = told else {
        return true;
    };
    match own {
        Some(own) => told == own,
        None => false,
    }
}

/// Whether a tag is the delivery's, or is left out.
fn repeats_tag(own: &DeliveryTag, told: &Option<DeliveryTag>) -> bool
    ensures { result ≡ repeats_tag own.now told.now }
{
    match told {
        Some(told) => *told == *own,
        None => true,
    }
}

//! How messages are sent on once their link is attached again (part 2, 2.6.13).
ghost use Rattle.std.specs.Prelude.{◌≡◌, ◌<◌, drop, true, false, Some, None, IsOk, IfOk};
ghost use Rattle.amqp_link_sender.specs.Sends.{first_transfer};
ghost use Rattle.amqp_link_sender.specs.SendsOn.{can_send_on, next_on, prepared_on, prepared_waiting};
ghost use Rattle.amqp_link_sender.specs.SendsOn.{resumed_behind, resuming_transfer, sent_on};

use crate::link::SenderLink;
use crate::sending::first_transfer;
use amqp_link_unsettled::{Messages, Open, Resumption, Waiting};
use amqp_session_performatives::Transfer;
use amqp_session_states::{DeliveryState, Received};
use amqp_session_types::{DeliveryTag, Handle};
use bytes::Bytes;
use std::alloc::AllocError;

/// A message that is ready to be sent on.
#[derive(Drop)]
pub struct PreparedSendOn {
    /// What its first transfer says of it, without its number.
    pub transfer: Transfer,
    /// The bytes that its receiver lacks, which are cut into transfers.
    pub payload: Bytes,
}

/// The place at which a message starts.
const START: Received = Received {
    section_number: 0,
    section_offset: 0,
};

impl SenderLink {
    /// What is sent on next: the first message that waits, while the link is attached and has credit; None where there is
    /// nothing (part 2, 2.6.13). It is refused where there is no memory for it.
    ///
    /// A message that its receiver doesn't know is sent anew from its first byte. One that it knows is resumed at the place
    /// that the receiver listed, or at its start where there is no such place in it.
    pub fn prepare_send_on(&self) -> Result<Option<PreparedSendOn>, AllocError>
        ensures next { IfOk result (λ p. p ≡ next_on self.now) }
        ensures nothing { next_on self.now ≡ None → IsOk result }
    {
        if !self.can_send_on() {
            return Ok(None);
        }
        let Some(waiting) = self.messages.first_waiting() else {
            return Ok(None);
        };
        prepared_waiting(&self.messages, waiting)
    }

    /// The message that was ready is sent on: it takes one credit, and waits no more (part 2, 2.6.7 and 2.6.13). It takes no
    /// memory.
    pub fn commit_send_on(&mut self)
        requires { 0 < self.old.flow.link_credit }
        ensures { self.new ≡ sent_on self.old }
    {
        let _ = self.flow.try_consume(1);
        self.messages.sent_on();
    }

    /// Whether the link is attached and has credit.
    fn can_send_on(&self) -> bool
        ensures { result ≡ can_send_on self.now }
    {
        if !self.base.is_attached() {
            return false;
        }
        self.flow.link_credit() != 0
    }
}

/// A message that waits as it is sent on; None where it isn't open.
pub(crate) fn prepared_waiting(
    messages: &Messages,
    waiting: &Waiting,
) -> Result<Option<PreparedSendOn>, AllocError>
    ensures next { IfOk result (λ p. p ≡ prepared_waiting messages.now waiting.now) }
    ensures nothing { prepared_waiting messages.now waiting.now ≡ None → IsOk result }
{
    let Some(message) = messages.get(&waiting.tag) else {
        return Ok(None);
    };
    Ok(Some(prepared_on(message, waiting.resumption)?))
}

/// A message as it is sent on.
fn prepared_on(message: &Open, resumption: Resumption) -> Result<PreparedSendOn, AllocError>
    ensures { IfOk result (λ p. p ≡ prepared_on message.now resumption) }
{
    match resumption {
        Resumption::Resend => sent_anew(message),
        Resumption::Resume(place) => resumed(message, place, message.bytes_before(place)),
    }
}

/// A message that is sent anew.
fn sent_anew(message: &Open) -> Result<PreparedSendOn, AllocError>
    ensures { IfOk result (λ p. p ≡ prepared_on message.now Resumption.Resend) }
{
    let payload = message.payload.clone()?;
    let tag = message.tag.clone()?;
    Ok(PreparedSendOn {
        transfer: first_transfer(tag, message.message_format, false),
        payload,
    })
}

/// A message that is resumed behind so many bytes, or at its start where its receiver's place can't be read.
fn resumed(
    message: &Open,
    place: Received,
    before: Option<usize>,
) -> Result<PreparedSendOn, AllocError>
    ensures { IfOk result (λ p. p ≡ resumed_behind message.now place before) }
{
    match before {
        Some(n) => resuming(message, place, behind(&message.payload, n)?),
        None => resuming(message, START, message.payload.clone()?),
    }
}

/// The bytes behind the first so many.
fn behind(payload: &Bytes, n: usize) -> Result<Bytes, AllocError>
    ensures { IfOk result (λ b. b ≡ drop n payload.now) }
{
    if n >= payload.len() {
        return payload.slice(payload.len()..);
    }
    payload.slice(n..)
}

/// A message of which these bytes are sent behind a place.
fn resuming(message: &Open, place: Received, payload: Bytes) -> Result<PreparedSendOn, AllocError>
    ensures { IfOk result (λ p. p ≡ record
        { transfer = resuming_transfer message.now place; payload = payload }) }
{
    let tag = message.tag.clone()?;
    Ok(PreparedSendOn {
        transfer: resuming_transfer(tag, message.message_format, place),
        payload,
    })
}

/// The first transfer of a message, which resumes it at a place (part 2, 2.7.5).
fn resuming_transfer(tag: DeliveryTag, message_format: u32, place: Received) -> Transfer
    ensures { result ≡ record (first_transfer tag message_format false) {
      state = Some (DeliveryState.Received place);
      resume = true;
    } }
{
    Transfer {
        handle: Handle(0),
        delivery_id: None,
        delivery_tag: Some(tag),
        message_format: Some(message_format),
        settled: Some(false),
        more: false,
        rcv_settle_mode: None,
        state: Some(DeliveryState::Received(place)),
        resume: true,
        aborted: false,
        batchable: false,
    }
}

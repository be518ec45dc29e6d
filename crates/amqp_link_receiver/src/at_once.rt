//! Transfers that bring a whole message, taken at once: beside the general way of `on_incoming_transfer`, which takes
//! any transfer and owns it, a way that reads one where it lies (part 2, 2.6.14 and 2.7.5).
ghost use Rattle.std.specs.Prelude.{◌≡◌, ◌<◌, ◌^◌, IfSome, IsTrue, None, Some, length};
ghost use Rattle.amqp_link_receiver.specs.AtOnce.{Enters, TakesAtOnce, brought, is_alone};
ghost use Rattle.amqp_link_receiver.specs.Deliveries.{found};

use crate::attachment::Attachment;
use crate::entry::{Entry, WholeMessage};
use crate::head::says;
use crate::link::ReceiverLink;
use crate::message_bytes::MessageBytes;
use crate::noting::fresh_key;
use amqp_link_unsettled::UnsettledMap;
use amqp_session_performatives::Transfer;
use amqp_session_types::DeliveryTag;
use bytes::Bytes;

impl ReceiverLink {
    /// Takes a transfer with its payload at once, and says whether it did, where the transfer brings a whole message, as
    /// `on_incoming_transfer` takes it (part 2, 2.7.5): the link hands the message out as the transfer says it. A message
    /// that isn't settled bears this number of its owner's from then on. Nothing changes where it didn't, as where the
    /// link isn't attached, where something speaks against the message, and where there is no memory: the transfer is to
    /// be taken in the general way then.
    #[tactic(auto, using(crate::proofs::AtOnce::taken_by_link))]
    pub fn takes_at_once(&mut self, transfer: &Transfer, payload: &Bytes, message: u64) -> bool
        ensures { TakesAtOnce self.old transfer.now payload.now message result self.new }
    {
        if !self.base.is_attached() {
            return false;
        }
        let attachment = self.attachment();
        if !self
            .end
            .takes_at_once(attachment, transfer, payload, message)
        {
            return false;
        }
        true
    }
}

/// Whether a transfer isn't given up, is the last of its delivery and resumes none.
pub(crate) fn is_alone(transfer: &Transfer) -> bool
    ensures { result ≡ is_alone transfer.now }
{
    if transfer.aborted {
        return false;
    }
    if transfer.more {
        return false;
    }
    !transfer.resume
}

/// Enters the delivery that a transfer brings whole, of which nothing is kept, with the number of its message, unless it
/// is settled; and says whether it did. Nothing changes where it didn't.
#[tactic(auto, using(crate::proofs::AtOnce::entered_settled, crate::proofs::AtOnce::entered_whole))]
pub(crate) fn enters(
    attachment: Attachment,
    unsettled: &mut UnsettledMap<Entry>,
    transfer: &Transfer,
    number: u32,
    tag: &DeliveryTag,
    payload: &Bytes,
    message: u64,
) -> bool
    requires { length payload.now < 2 ^ 32 }
    ensures { Enters attachment unsettled.old.entries (brought transfer.now number tag.now
        payload.now) message result unsettled.new.entries }
{
    if !is_unknown(unsettled, tag) {
        return false;
    }
    if says(transfer.settled) {
        return true;
    }
    if attachment.is_other(false, transfer.rcv_settle_mode) {
        return false;
    }
    let Some(whole) = numbered(attachment, transfer, number, payload, message) else {
        return false;
    };
    let Ok(key) = fresh_key(unsettled, tag) else {
        return false;
    };
    unsettled.insert_reserved(key, Entry::Whole(whole));
    true
}

/// Whether nothing is kept of a delivery, which takes no look-up where nothing is kept of any.
fn is_unknown(unsettled: &UnsettledMap<Entry>, tag: &DeliveryTag) -> bool
    ensures { IsTrue result → found unsettled.now.entries tag.now ≡ None }
{
    if unsettled.is_empty() {
        return true;
    }
    !unsettled.contains(tag)
}

/// What is kept of a message that isn't settled, with its number; None where there is no memory.
fn numbered(
    attachment: Attachment,
    transfer: &Transfer,
    number: u32,
    payload: &Bytes,
    message: u64,
) -> Option<WholeMessage>
    requires { length payload.now < 2 ^ 32 }
    ensures { IfSome result (λ m. m ≡ record {
      payload = payload.now;
      state = None;
      number = number;
      attachment = attachment.count;
      rcv_settle_mode = transfer.now.rcv_settle_mode;
      message = Some message;
    }) }
{
    let Ok(payload) = payload.clone() else {
        return None;
    };
    Some(WholeMessage {
        payload: MessageBytes::new(payload),
        state: None,
        number,
        attachment: attachment.count,
        rcv_settle_mode: transfer.rcv_settle_mode,
        message: Some(message),
    })
}

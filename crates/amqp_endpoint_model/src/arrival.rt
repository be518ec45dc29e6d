//! Messages that one Transfer brings whole (part 2, 2.7.5): beside those that are put together of several.
ghost use Rattle.std.specs.Prelude.{◌≡◌};
ghost use Rattle.amqp_endpoint_model.specs.Arriving.{SaysDelivery, arrived};

use crate::event::{Event, Message};
use amqp_link_message::{Delivery, Raw};
use amqp_session_performatives::Transfer;
use amqp_session_types::{Handle, OutputHandle};
use bytes::Bytes;

/// A message that was taken from the Transfer that brought it whole, and isn't told yet (part 2, 2.6.12, 2.7.5).
#[derive(Debug, Clone, Copy, PartialEq, Eq)]
pub struct Arrival {
    /// The number of the link by which it came.
    pub link: u64,
    /// The number that the message has from now on, by which it is disposed of.
    pub message: u64,
    /// The link's own handle.
    pub handle: OutputHandle,
}

impl Arrival {
    /// What is told of it: its delivery as its Transfer says it, which says a number and a tag, and its bytes as they
    /// came.
    pub fn told(self, transfer: Transfer, payload: Bytes) -> Event
        requires { SaysDelivery transfer }
        ensures { result ≡ arrived self transfer payload }
    {
        let (Some(delivery_id), Some(delivery_tag)) = (transfer.delivery_id, transfer.delivery_tag)
        else {
            unreachable!()
        };
        let settled = transfer.settled.unwrap_or(false);
        Event::Message(Message {
            link: self.link,
            message: self.message,
            delivery: Delivery {
                handle: Handle(self.handle.0),
                delivery_id,
                delivery_tag,
                message_format: transfer.message_format,
                rcv_settle_mode: if settled {
                    None
                } else {
                    transfer.rcv_settle_mode
                },
                message: amqp_link_message::Message::new(Raw(payload)),
            },
            settled,
        })
    }
}

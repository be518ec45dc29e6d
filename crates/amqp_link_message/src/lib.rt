//! Messages of AMQP 1.0: their sections in order, what is handed to a sender, and what a receiver hands out
//! (part 3, 3.2; part 2, 2.6.12 and 2.8.11).
#![tactic(auto)]

mod any_body;
mod body;
mod delivery;
mod front;
pub mod laws;
mod making;
mod message;
mod parts;
mod payload;
mod raw;
mod sections;
mod send_result;
mod sendable;
mod several;
mod writing;

pub use any_body::Body;
pub use body::{ReadBody, RoundTripBody, WriteBody};
pub use delivery::{Delivery, DeliveryInfo};
pub use message::Message;
pub use payload::read_payload;
pub use raw::Raw;
pub use send_result::{FromDeliveryFailure, FromDeliveryState, FromPreSettled, SendResult};
pub use sendable::{Builder, MESSAGE_FORMAT, NoMessage, Sendable};
pub use several::OneOrMore;

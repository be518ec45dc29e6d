//! What connections and sessions of AMQP 1.0 share: types of their performatives' fields, and what they answer when
//! they refuse (part 2).
#![tactic(auto)]

mod aside;
mod boxed;
mod channels;
pub mod definitions;
mod error;
mod handles;
pub mod laws;
mod modes;
mod or_default;
mod refusals;

pub use aside::Aside;
pub use boxed::Boxed;
pub use channels::{IncomingChannel, OutgoingChannel};
pub use definitions::{
    DeliveryNumber, DeliveryTag, Fields, FilterSet, Handle, MessageFormat, Milliseconds,
    ReceiverSettleMode, Role, Seconds, SenderSettleMode, SequenceNumber, TransferNumber,
};
pub use handles::{InputHandle, OutputHandle};
pub use or_default::{HasDefault, OrDefault};
pub use refusals::{
    BeginError, ConnectionError, ConnectionStopReason, OpenError, SessionError, SessionStopReason,
    TryCloseError, TryEndError,
};

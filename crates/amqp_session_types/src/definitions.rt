//! Types that several performatives share (part 2, 2.8).
pub use crate::error::Error;
pub use crate::handles::Handle;
pub use crate::modes::{ReceiverSettleMode, Role, SenderSettleMode};
use serde_amqp_types::{ByteBuf, Symbol};
use serde_amqp_values::{OrderedMap, RawValue};

/// Values of any type by their names (part 2, 2.8.13).
pub type Fields = OrderedMap<Symbol, RawValue>;

/// Filters by their names (part 3, 3.5.8).
pub type FilterSet = OrderedMap<Symbol, RawValue>;

/// What a link calls a delivery, of at most 32 bytes (part 2, 2.8.7).
pub type DeliveryTag = ByteBuf;

/// The number of a delivery in its session, which wraps (part 2, 2.8.6).
pub type DeliveryNumber = u32;

/// The number of a transfer in its session, which wraps (part 2, 2.8.8).
pub type TransferNumber = u32;

/// A number of a sequence that wraps (part 2, 2.8.10).
pub type SequenceNumber = u32;

/// How a message is encoded (part 2, 2.8.11).
pub type MessageFormat = u32;

/// A time in milliseconds (part 2, 2.8.5).
pub type Milliseconds = u32;

/// A time in seconds (part 2, 2.8.4).
pub type Seconds = u32;

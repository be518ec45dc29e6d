//! What the ends of a link of AMQP 1.0 share: what they answer when they refuse, and what marks an end as the sending or
//! the receiving one (part 2, 2.6).
#![tactic(auto)]

mod attaching;
mod link_error;
mod refusals;
mod role;

pub use attaching::{DesiredFilterNotSupported, ReceiverAttachError, SenderAttachError};
pub use link_error::LinkError;
pub use refusals::{
    ApplyRemoteDetachError, DetachError, DispositionError, FlowError, IllegalLinkStateError,
    InsufficientCredit, LinkStateError, ReceiverTransferError, RecvError, SendError,
};
pub use role::{DEFAULT_CREDIT, IntoRole, ReceiverMarker, SenderMarker};

//! The receiving end of a link of AMQP 1.0: how it is attached and detached, the credit that it gives, the messages
//! that come in by it, of one transfer or several, those that are resumed, and how they are disposed of (part 2, 2.6).
//!
//! What each call of a link does says specs/: State, Attaching, Ending, Flowing, Incoming, AtOnce, Foreseen, Disposing; what it
//! does with transfers and unsettled deliveries, those of its `ReceivingEnd`.
#![tactic(auto)]

mod answer;
mod arriving;
mod at_once;
mod attaching;
mod attachment;
mod completing;
mod continuing;
mod disposable;
mod disposing;
mod disposing_all;
mod ending;
mod entry;
mod flowing;
mod foreseeing;
mod head;
mod incoming;
pub mod laws;
mod link;
mod message_bytes;
mod noting;
mod numbering;
mod resuming;
mod state;

pub use answer::{Answer, Message, Registering, Told};
pub use arriving::Incoming;
pub use attaching::{Attached, PreparedAttach};
pub use attachment::Attachment;
pub use disposable::{Disposable, DisposeRefusal};
pub use disposing::DisposeError;
pub use disposing_all::PreparedDisposal;
pub use entry::{Entry, Note, WholeMessage};
pub use flowing::{FlowRefusal, GrantRefusal, Granted};
pub use head::{Head, Start};
pub use link::ReceiverLink;
pub use message_bytes::MessageBytes;
pub use resuming::Resumption;
pub use state::ReceivingEnd;

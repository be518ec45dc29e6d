//! The sending end of a link of AMQP 1.0: what it sends and keeps until it is settled, its credit, what frames of its
//! receiver make of it (part 2, 2.6), and how messages are cut into transfers, each of which fits in a frame (part 2,
//! 2.6.14).
//!
//! What each call does says specs/: Sending, Attaching, Sends, ReadiesAtOnce, SendsOn, Dispositions, Ending. What comes
//! of a cut message says `Splits` in specs/Splitting.antt, and how much fits in a frame specs/Room.antt.
#![tactic(auto)]

mod attaching;
mod dispositions;
mod ending;
mod going_on;
pub mod laws;
mod link;
mod payloads;
mod results;
mod sending;
mod sending_at_once;
mod sending_on;
mod splitting;

pub use attaching::{AttachAnswer, Attaching, PreparedAttach};
pub use ending::DetachRefusal;
pub use link::{Counts, SenderLink};
pub use payloads::PreparedBatch;
pub use results::SendResult;
pub use sending::{PreparedSend, SendRefusal};
pub use sending_at_once::ReadyAtOnce;
pub use sending_on::PreparedSendOn;
pub use splitting::{SplitRefusal, split};

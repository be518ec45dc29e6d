//! The links of an endpoint's sessions (part 2, 2.6): how one is made and attaches, of itself or in answer to one that
//! the peer asks for; the credit that it gives; how it is detached, and how it leaves its session.
//!
//! What each call does says specs/: Attaching and Answering, with what they are refused for in Refusals; Receiving,
//! Detaching, TakenOut and Ends; what is sent for a link, Sent, and what was kept of a Flow, Kept.
#![tactic(auto)]

mod announcing;
mod answering;
mod attaching;
mod detaching;
mod ends;
mod exchanging;
mod flowing;
pub mod laws;
mod leaving;
mod making;
mod receiving;
mod refusal;
mod sending;
mod testing;

pub use announcing::offered;
pub use answering::{Answered, answer};
pub use attaching::attach;
pub use detaching::{answer_detach, detach, detach_placed};
pub use ends::{break_off, credit, is_closed, role, stands};
pub use exchanging::{PreparedAnswer, prepare_answer};
pub use flowing::take_kept;
pub use leaving::take_out;
pub use making::{receiver, sender};
pub use receiving::{drain, grant};
pub use refusal::{AttachRefusal, Unattached};
pub use sending::LinkSession;
pub use testing::test;

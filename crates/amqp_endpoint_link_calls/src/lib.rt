//! The calls of an endpoint that concern its links, by their numbers (part 2, 2.6): how one attaches in a session, of
//! itself or in answer to one that the peer asks for there (part 2, 2.6.3), and how one does again that is at rest; how
//! it is detached or closed, the credit that it is given, and what waits to be sent by it; how a message is sent, and
//! how messages that came are disposed of (part 2, 2.6.7, 2.6.12).
//!
//! A call goes to the session that holds the link, where one does. What it does there say amqp_endpoint_attached and
//! amqp_endpoint_messages, and what it does to the endpoint say specs/: Calling and Closing, by where the link is, for
//! which Places has the words; Attaching and Refusals, with the words of Naming; Seeing and Waiting what is told;
//! Sending, and Disposing with what it is refused for in Refusing, for which Keeping has the words.
#![tactic(auto)]

mod attaching;
mod closing;
mod crediting;
mod detaching;
mod disposing;
mod entering;
mod holding;
mod keeping;
pub mod laws;
mod looking;
mod meeting;
mod placed;
mod placing;
mod refusing;
mod resuming;
mod seeing;
mod sending;
mod turns;

pub use attaching::{attach, attach_receiver, attach_sender};
pub use closing::close_link;
pub use crediting::{drain, grant};
pub use detaching::detach;
pub use disposing::{dispose, dispose_all};
pub use holding::{LinkTalk, holder};
pub use placed::Placed;
pub use resuming::{Again, resume};
pub use seeing::credit;
pub use sending::{send, send_refusal};
pub use turns::{held_back, waiting};

//! What becomes of messages in a session of an endpoint (part 2, 2.6.12): how one is sent by a link (part 2, 2.7.5),
//! how those that a receiving link took are disposed of (part 2, 2.7.6), and what the owner of a sending link is told
//! of its own (part 3, 3.4).
//!
//! What is sent says specs/Sending.antt, and what is sent as one transfer at once, SendsAtOnce. Messages that came are
//! disposed of several at once, all or none, or one: what each call does say specs/: Disposing and Dispositions, with
//! what it is refused for in Refusals, and what a frame holds in Longest. Outcomes are told of the messages that a
//! disposition of the peer reaches, and of those that a link has as it ends: specs/ Reached and All; what is echoed to
//! the peer (part 2, 2.8.3), Echoing. What a link does once the peer's Attach is taken (part 2, 2.6.13) says GoingOn:
//! which deliveries it gives up, GivingUp; which messages it sends on once it has credit, and how, SendingOn; and what
//! is made ready for that, MadeReady.
#![tactic(auto)]

mod cutting;
mod disposing_all;
pub mod disposing_laws;
mod dispositions;
mod echoing;
mod ending;
mod giving_up;
mod going_on;
mod looking;
mod measuring;
mod one;
pub mod outcome_laws;
mod preparing;
mod reached;
mod sending;
mod sending_at_once;
mod sending_on;
mod taking;

pub use disposing_all::dispose_all;
pub use echoing::{Echoes, make_echoes, send_echoes};
pub use ending::{open_count, open_in, tell_by, tell_first};
pub use giving_up::{
    Closing, GivingUp, close_for, make_closing, make_giving_up, make_room_to_tell,
};
pub use going_on::{
    AttachReady, OnReady, go_on_attached, make_attach_ready, make_on_ready, make_room_for,
};
pub use looking::is_receiving;
pub use measuring::delivery_fits;
pub use one::dispose;
pub use preparing::send_refusal;
pub use reached::{reached_by, tell_reached, tell_reached_one};
pub use sending::send;
pub use sending_on::{FlowReady, SendingOn, make_flow_ready, send_on};

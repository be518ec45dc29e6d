//! The sessions of an endpoint with their links, as far as sessions begin and end: by calls, by what the peer says, by
//! their faults and with their connection (part 2, 2.5). Where one is over its links are given back (part 2, 2.6.4).
//!
//! What they do say specs/: Calling, Hearing and Ending, and GivingBack of the links.
#![tactic(auto)]

mod back;
mod calling;
mod hearing;
pub mod laws;
mod over;

pub use back::give_back;
pub use calling::{accept_begin, begin, end, fail};
pub use hearing::{hear_begin, hear_end};
pub use over::{finish, leave};

//! The sending side of a session of AMQP 1.0: the peer's window, the numbers of transfers and deliveries, and what
//! waits for the window, link by link (part 2, 2.5.6 and 2.6.12); and the unsettled deliveries of a session, of either
//! side, with the ranges of them that a disposition names (part 2, 2.6.12 and 2.7.6).
//!
//! Links that wait stand in a turn: where the window allows a transfer, the first of them sends one and then stands
//! last. What a call does says `Step` in specs/History.antt. Which numbers a range names says specs/Range.antt, and
//! which deliveries it touches `Touches` in specs/Touched.antt.
#![tactic(auto)]

mod behind;
mod delivery;
mod error;
mod frames;
pub mod laws;
mod nodes;
mod outgoing;
mod passing_at_once;
mod place;
mod range;
mod spots;
mod turns;
mod unsettled;

pub use behind::Behind;
pub use delivery::Delivery;
pub use error::TransferError;
pub use frames::{Outbound, Part, Sent};
pub use outgoing::Outgoing;
pub use place::Place;
pub use range::DeliveryRange;
pub use unsettled::Unsettled;

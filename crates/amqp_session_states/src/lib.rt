//! The states of a delivery and the termini of a link in AMQP 1.0 (part 3, 3.4 and 3.5): their fields, and how they
//! are written and read.
#![tactic(auto)]

mod accepted;
mod delivery_state;
pub mod laws;
mod modified;
mod outcome;
mod received;
mod rejected;
mod released;
mod source;
mod target;
mod target_archetype;
mod terminus;

pub use accepted::Accepted;
pub use delivery_state::DeliveryState;
pub use modified::Modified;
pub use outcome::Outcome;
pub use received::Received;
pub use rejected::Rejected;
pub use released::Released;
pub use source::Source;
pub use target::Target;
pub use target_archetype::TargetArchetype;
pub use terminus::{DistributionMode, TerminusDurability, TerminusExpiryPolicy};

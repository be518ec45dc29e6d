//! What both ends of a link of AMQP 1.0 keep and do alike: its name and handles, its terms, and what goes into each
//! own Attach; how it is attached and detached: the states that it goes through, what a peer's Attach is refused for,
//! and what of it is taken over (part 2, 2.6, 2.7.3; part 3, 3.5.3 and 3.5.4); how they keep count of deliveries and
//! credit (part 2, 2.6.7); and deliveries of several transfers (part 2, 2.6.14): what is held of one that is still
//! coming, and places in its message (part 3, 3.4.1).
//!
//! What a Flow says to either end, and what it answers, is defined in specs/Flows.antt. What holds between two ends
//! with Flows and messages on their way is a law over the runs of specs/World.antt. Where sections start and what a
//! place is says specs/Starts.antt, what transfers say specs/Readings.antt.
#![tactic(auto)]

mod archetype;
mod base;
mod detached;
mod exchange;
mod filters;
pub mod flow_laws;
mod flow_state;
mod gathered;
mod incomplete;
mod inner;
pub mod place_laws;
mod properties;
mod receiver;
mod scan;
mod sender;
mod size;
mod source;
mod state;
mod terms;
mod values;
mod verify;

pub use amqp_link_types::{InsufficientCredit, ReceiverMarker, SenderMarker};
pub use archetype::{
    DynamicTarget, TargetArchetypeCapabilities, TargetArchetypeExt, VariantOfTargetArchetype,
    VerifyTargetArchetype,
};
pub use base::{IllegalState, LinkBase};
pub use detached::Detached;
pub use exchange::{AttachExchange, ReceiverAttachExchange};
pub use flow_state::LinkFlowState;
pub use gathered::Gathered;
pub use incomplete::IncompleteTransfer;
pub use inner::LinkFlowStateInner;
pub use properties::{merge_properties, merged_properties};
pub use scan::{place, read_place};
pub use size::get_max_message_size;
pub use source::VerifySource;
pub use state::LinkState;
pub use terms::Terms;
pub use values::{both, put};
pub use verify::{verify_attach_as_receiver, verify_attach_as_sender};

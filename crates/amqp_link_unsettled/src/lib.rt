//! What a link keeps of its unsettled deliveries, how an Attach lists it, and what becomes of a delivery that was
//! interrupted (part 2, 2.6.12, 2.6.13 and 2.7.3; part 3, 3.4); and the messages of a sending link: those that are
//! open, those of which the outcome is known, and those that are to be sent on.
//!
//! What becomes of a delivery says specs/Resumption.antt, how many deliveries an Attach lists specs/Listing.antt, and
//! what each call makes of messages specs/Messages.antt.
#![tactic(auto)]

mod entry;
mod exchange;
mod exchanging;
mod fate;
mod iter;
mod laws;
mod listing;
mod map;
mod message;
mod messages;
mod open;
mod resolution;
mod resumption;
mod rising;
mod slot;

pub use entry::Entry;
pub use exchange::SenderAttachExchange;
pub use exchanging::{Abort, PreparedExchange};
pub use iter::Iter;
pub use laws::places_are_ordered;
pub use listing::{
    ListError, Listed, UnsettledList, fits_text, list_entries, list_unsettled, with_entries,
};
pub use map::{Noting, UnsettledMap};
pub use message::{AsDeliveryState, UnsettledMessage};
pub use messages::Messages;
pub use open::{Open, Resumption, Waiting};
pub use resolution::{Failure, Resolution};
pub use resumption::{Decision, ResumingDelivery, decide, is_past, resume_delivery};
pub use slot::Numbered;

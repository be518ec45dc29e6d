//! The performatives of AMQP 1.0 (part 2, 2.7): their fields, and how they are written and read. Also what a session
//! hands its links and its connection of them, and takes from them (part 2, 2.5 and 2.6).
#![tactic(auto)]

/// Values as a pair of the first and the others.
macro_rules! row {
    () => { () };
    ($first:expr $(, $others:expr)* $(,)?) => { ($first, row![$($others),*]) };
}

/// Patterns of such values.
macro_rules! row_pattern {
    () => { () };
    ($first:pat $(, $others:pat)* $(,)?) => { ($first, row_pattern![$($others),*]) };
}

mod attach;
mod begin;
mod both;
mod close;
mod composite;
mod continuation;
mod detach;
mod disposition;
mod end;
mod flow;
pub mod laws;
mod link_flow;
mod link_frame;
mod open;
mod performative;
mod session_frame;
mod transfer;

pub use attach::Attach;
pub use begin::Begin;
pub use close::Close;
pub use continuation::clear_continuation_fields;
pub use detach::Detach;
pub use disposition::Disposition;
pub use end::End;
pub use flow::Flow;
pub use link_flow::{LinkFlow, MissingHandle};
pub use link_frame::{LinkFrame, LinkTransfer};
pub use open::Open;
pub use performative::Performative;
pub use session_frame::{SessionFrame, SessionFrameBody, SessionOutgoingItem};
pub use transfer::Transfer;

//! What the peer says of links in the sessions of an endpoint: its Attach, its Flows, its Transfers and Dispositions,
//! and its Detach (part 2, 2.6.3 to 2.6.6, 2.7.3 to 2.7.7).
//!
//! What comes of it say specs/: Attaching, Flowing, Transferring, Disposing and Detaching; how a session refuses it,
//! Saying; and which links are closed by a Disposition that can't be echoed, Unechoed.
#![tactic(auto)]

mod at_once;
mod attaching;
mod closing;
mod detaching;
mod disposing;
mod flowing;
mod handing;
mod hearing;
mod leaving;
mod naming;
mod reaching;
mod refusing;
mod settled;
mod transferring;
mod unechoed;

pub use at_once::hear_at_once;
pub use attaching::hear_attach;
pub use detaching::hear_detach;
pub use disposing::hear_disposition;
pub use flowing::hear_flow;
pub use transferring::hear_transfer;

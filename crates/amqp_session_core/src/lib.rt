//! A session of AMQP 1.0 over links of any type (part 2, 2.5): what a link is to its session (`LinkRelay`), and a
//! session (`Session`) that is proved once for every such link.
//!
//! What a call does says `Step` in specs/Steps.antt. Laws of whole histories of calls are in `laws`.
#![tactic(auto)]

mod accessors;
mod at_once;
mod batch;
mod begins;
mod dispositions;
mod fields;
mod flows;
mod incoming;
pub mod laws;
mod leaving;
mod links;
mod over;
mod relay;
mod routes;
mod sending;
mod sending_at_once;
mod session;
mod settled;
mod state;

pub use at_once::TakenAtOnce;
pub use batch::{Batch, BehindFrame, TransferFrame};
pub use dispositions::{DeliveryRuns, DispositionRoom, FewNumbers, StateCopies, Touched, echoes};
pub use fields::{OUTGOING_WINDOW, SessionFields};
pub use incoming::TransferTaken;
pub use links::Unallocated;
pub use over::Links;
pub use relay::{LinkOwner, LinkRelay, Registration, RelayError, TransferAnswer};
pub use session::Session;
pub use settled::SettledAtOnce;
pub use state::SessionState;

//! What an endpoint has by number: its sessions, on the connection that gives them channels (part 2, 2.5.1), and its
//! links, by their names as well, each held by a session or at rest (part 2, 2.6.1). What a session and a link are
//! isn't known here.
//!
//! What a call of `Sessions` does says `Step` in specs/Steps.antt, and one of `Links` that in specs/LinkSteps.antt.
#![tactic(auto)]

mod asking;
mod ending;
pub mod laws;
pub mod link_laws;
mod link_place;
mod links;
mod moving;
mod numbered;
mod place;
mod sessions;

pub use link_place::{LinkPlace, LinkRefusal, Named, NewName};
pub use links::Links;
pub use place::{PeerEnd, Place, Standing, Unbegun};
pub use sessions::Sessions;

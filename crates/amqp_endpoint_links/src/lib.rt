//! The links of an endpoint as its sessions hold them: each bears the number by which its owner names it, and beside
//! them stand those that the peer asks for: links that it attached and that no link here answers yet (part 2, 2.6.3).
//! So do the sessions that it began and that no session here accepts yet (part 2, 2.5.1).
#![tactic(auto)]

mod asking;
mod beginning;
mod hearing;
pub mod laws;
mod links;
mod numbered;
mod session;
mod table;

pub use asking::{AskingSession, AttachTaken, DetachTaken, NamedLink};
pub use hearing::{LinkPerformative, PerformativeTaken, hear_asked};
pub use links::{AskRefusal, AskedLink, AskedLinks};
pub use numbered::Numbered;
pub use session::{AskedSession, SessionFlow};

//! One end of an AMQP 1.0 connection without a network: bytes in by `feed`, bytes out by `pull`, and calls between;
//! two such ends joined by two streams of bytes, which may be cut anywhere and broken anywhere; and a caller's loop:
//! how a program moves bytes between an endpoint and its stream, and answers what the peer says.
#![tactic(auto)]

mod batch;
mod carrying;
mod coding;
mod condition;
mod connecting;
mod endpoint;
mod ends;
mod error;
pub mod laws;
mod no_sessions;
mod playing;
mod queued;
mod receiving;
mod reply;
mod sending;
mod step;
mod turning;
pub mod world;
mod world_laws;

pub use endpoint::Endpoint;
pub use error::CallerError;
pub use no_sessions::NoSessions;
pub use playing::play;
pub use receiving::read_in;
pub use reply::{Did, Moved, WorldReply};
pub use sending::write_out;
pub use step::{End, Step};
pub use turning::{Program, serve, turn};
pub use world_laws::{each_end_has_its_own_run, what_is_on_its_way, what_its_connection_was_fed};

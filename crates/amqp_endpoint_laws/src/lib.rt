//! Laws of whole runs: what an endpoint does in one, whatever its sessions are, what passes between two, and what one
//! who sees the frames pass reads of their sessions; and of an endpoint with links, how its sessions and links came
//! about, that names, tags, numbers and channels are apart (part 2, 2.5, 2.6), that its transfers lie in its peers'
//! windows (part 2, 2.5.6), and which messages it sends and hands out.
#![tactic(auto)]

pub mod between;
pub mod deeds;
pub mod laws;
pub mod reading;

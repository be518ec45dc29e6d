//! Scripts of one endpoint, or of two: lines of text that are read into calls, and the answers to these printed.
#![tactic(auto)]

mod laws;
mod messages;
mod printing;
mod script;
mod statement;
mod terms;

pub use laws::follows_grammar;
pub use printing::{print_replies, print_world};
pub use script::{Given, OneScript, Parsed, TwoScript, parse};

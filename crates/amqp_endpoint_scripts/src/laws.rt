//! The law of how scripts are read.
ghost use Rattle.amqp_endpoint_scripts.specs.Grammar.{FollowsGrammar};

/// A script is the line `one`, at most one settings line of the end `a`, and steps of it; or the line `two`, at most
/// one settings line of each end, and steps of both. The line that is told to be unreadable is the first one up to
/// which the lines can begin such a script, and with which they can't.
#[tactic(auto, using(crate::proofs::Grammars::follows_grammar))]
pub fn follows_grammar()
    ensures { FollowsGrammar }
{}

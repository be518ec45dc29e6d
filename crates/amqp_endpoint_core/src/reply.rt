//! What the steps of a world answer.
use amqp_endpoint_model::{Answer, EndpointError, Fed};

/// What was moved.
#[derive(Debug, Drop)]
pub struct Moved {
    /// What was pulled, in order. It is in the stream, whatever the answer is.
    pub pulled: Vec<Vec<u8>>,
    /// What the feed answered. `Memory` where a growth of the world's own or a pull was refused: nothing was fed then.
    pub answer: Result<Fed, EndpointError>,
}

/// What a step did.
#[derive(Debug, Drop)]
pub enum Did {
    /// The call's answer.
    Called(Answer),
    /// What was moved. Where the feed's fault broke its end off, the world did a break behind it.
    Moved(Moved),
    /// Both ends broke off.
    Broken,
}

/// What a step did, and how many answers of bytes each end still gives behind it.
#[derive(Debug, Drop)]
pub struct WorldReply {
    /// What the step did.
    pub did: Did,
    /// `queued()` of the end `A` behind the step.
    pub queued_a: usize,
    /// `queued()` of the end `B` behind the step.
    pub queued_b: usize,
}

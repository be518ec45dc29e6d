//! What comes of a link that attaches.
use amqp_endpoint_model::Event;
use amqp_session_types::OutputHandle;

/// What comes of a link that attaches in a session (part 2, 2.6.3).
#[derive(Debug, Drop)]
pub struct Placed {
    /// Its number.
    pub link: u64,
    /// The number of its session.
    pub session: u64,
    /// The own handle that it got there (part 2, 2.6.2).
    pub handle: OutputHandle,
    /// What is told of it at once: where it answered a link that the peer asked for, that it is attached, and what
    /// comes of that; nothing where it waits for the peer's Attach.
    pub events: Vec<Event>,
}

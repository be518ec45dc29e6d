//! The sessions of an endpoint: they begin and end, by its calls and by its peer's Begin and End.
use amqp_endpoint_links::{AskedSession, AskingSession};
use amqp_endpoint_tables::Sessions;

/// The sessions of an endpoint, and how each of them begins. What is said in it comes in as performatives, and is
/// handed out as frames, in the order in which they are to be sent.
#[derive(Drop)]
pub struct Conversation<R> {
    /// The sessions, by their numbers.
    pub sessions: Sessions<Box<AskedSession>, Box<AskingSession<R>>>,
    /// The number that the first transfer of each session gets (part 2, 2.5.6).
    pub first_transfer_number: u32,
    /// How many transfers each session takes at once (part 2, 2.5.6).
    pub incoming_window: u32,
}

//! Where an endpoint stands with its connection.
/// Where an endpoint stands with its connection.
#[derive(Debug, Clone, Copy, PartialEq, Eq, Drop)]
pub enum Phase {
    /// There is none, or it was broken off.
    Unconnected,
    /// The own protocol header is queued, and the peer's isn't whole yet (part 2, 2.2).
    Greeting,
    /// The own Open is queued, and the peer's frames are read.
    Running,
    /// A fault or the peer's Close has ended it: input is dropped.
    Over,
}

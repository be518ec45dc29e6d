//! What the peer's Detach makes of a link (part 2, 2.6.4 to 2.6.6).

/// What the peer's Detach made of a link.
#[derive(Debug, Clone, Copy, PartialEq, Eq)]
pub struct Detached {
    /// The link is closed, and not only detached (part 2, 2.6.6).
    pub closed: bool,
    /// The own Detach has not been sent, and is to be (part 2, 2.6.4).
    pub answer: bool,
}

//! How a link stands to the frames of its peer (part 2, 2.6.3 to 2.6.6).
ghost use Rattle.std.specs.Prelude.{◌≡◌};
ghost use Rattle.amqp_link.specs.Standing.{standing_of};

use amqp_link_base::LinkState;

/// How a link stands to the frames of its peer.
#[derive(Debug, Clone, Copy, PartialEq, Eq)]
pub enum Standing {
    /// It is attached: its frames are taken.
    Attached,
    /// Its own Detach was sent: what comes before the peer's is dropped.
    Detaching,
    /// It isn't attached.
    Apart,
}

impl Standing {
    /// How a link in this state stands.
    pub fn of(state: LinkState) -> Standing
        ensures { result ≡ standing_of state }
    {
        match state {
            LinkState::Attached | LinkState::IncompleteAttachExchanged => Standing::Attached,
            LinkState::DetachSent | LinkState::CloseSent => Standing::Detaching,
            _ => Standing::Apart,
        }
    }
}

//! What became of messages (part 3, 3.4).
ghost use Rattle.std.specs.Prelude.{◌≡◌};
ghost use Rattle.amqp_link_unsettled.specs.Resolutions.{resolution_of, ends};

use amqp_session_states::{DeliveryState, Outcome};

/// Why a link that is gone leaves its messages without an outcome.
#[derive(Debug, Clone, Copy, PartialEq, Eq)]
pub enum Failure {
    /// The link was closed here.
    Closed,
    /// The peer closed the link.
    RemoteClosed,
    /// The peer closed the link and gave an error, which the link keeps.
    RemoteClosedWithError,
}

/// What became of a message that is open no more.
#[derive(Debug, PartialEq, Eq, Drop)]
pub enum Resolution {
    /// Its receiver came to this outcome (part 3, 3.4).
    Outcome(Outcome),
    /// It was settled without a state.
    NoState,
    /// It was settled with a state that isn't terminal.
    NotTerminal,
    /// It is given up, since the two ends don't agree on where it stands (part 2, 2.6.13).
    Aborted,
    /// The link is gone.
    Failed(Failure),
}

impl Resolution {
    /// What becomes of a message that comes to its end with this state.
    pub fn of_state(state: Option<DeliveryState>) -> Self
        ensures { result ≡ resolution_of state }
    {
        match state {
            None => Resolution::NoState,
            Some(DeliveryState::Received(_)) => Resolution::NotTerminal,
            Some(DeliveryState::Accepted(accepted)) => {
                Resolution::Outcome(Outcome::Accepted(accepted))
            }
            Some(DeliveryState::Rejected(rejected)) => {
                Resolution::Outcome(Outcome::Rejected(rejected))
            }
            Some(DeliveryState::Released(released)) => {
                Resolution::Outcome(Outcome::Released(released))
            }
            Some(DeliveryState::Modified(modified)) => {
                Resolution::Outcome(Outcome::Modified(modified))
            }
        }
    }
}

/// Whether a disposition ends a message: where it settles it, and where its state is terminal (part 2, 2.7.6).
pub(crate) fn ends(settled: bool, state: &Option<DeliveryState>) -> bool
    ensures { result ≡ ends settled state.now }
{
    if settled {
        return true;
    }
    match state {
        Some(state) => state.is_terminal(),
        None => false,
    }
}

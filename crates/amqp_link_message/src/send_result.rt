//! What becomes of a message that was sent (part 3, 3.4).
ghost use Rattle.std.specs.Prelude.{◌≡◌, Ok, Err, ok_or};
ghost use Rattle.amqp_session_types.specs.declared.refusals.SessionStopReason.{SessionStopReason};
ghost use Rattle.amqp_session_states.specs.Terminal.{state_outcome};
ghost use Rattle.amqp_session_states.specs.declared.delivery_state.DeliveryState.{DeliveryState};
ghost use Rattle.amqp_session_states.specs.declared.outcome.Outcome.TheVariants.{Accepted};
ghost use Rattle.amqp_link_types.specs.declared.refusals.LinkStateError.{LinkStateError};
ghost use Rattle.amqp_link_types.specs.declared.refusals.LinkStateError.TheVariants.{IllegalState, SessionStopped};
ghost use Rattle.amqp_link_types.specs.declared.refusals.SendError.TheVariants.{LinkStateError as NoOutcome};
ghost use Rattle.amqp_link_types.specs.declared.refusals.SendError.TheVariants.{NonTerminalDeliveryState};
ghost use Rattle.amqp_link_types.specs.declared.refusals.SendError.TheVariants.{IllegalDeliveryState};

use amqp_link_types::{LinkStateError, RecvError, SendError};
use amqp_session_states::{Accepted, DeliveryState, Outcome};
use amqp_session_types::SessionStopReason;

/// The outcome of a message that was sent, or why it has none.
pub type SendResult = Result<Outcome, SendError>;

/// What a message comes to that is settled as it is sent (part 2, 2.6.12).
pub trait FromPreSettled: Sized {
    /// What it comes to.
    ghost settled: { Self };

    /// What a message comes to that is settled as it is sent.
    fn from_settled() -> Self
        ensures { result ≡ settled };
}

/// What a message comes to by the state that it is settled with (part 3, 3.4).
pub trait FromDeliveryState: Sized {
    /// What it comes to without a state.
    ghost without_state: { Self };

    /// What it comes to with a state.
    ghost with_state: { DeliveryState → Self };

    /// What a message comes to that is settled without a state.
    fn from_none() -> Self
        ensures { result ≡ without_state };

    /// What a message comes to that is settled with this state.
    fn from_delivery_state(state: DeliveryState) -> Self
        ensures { result ≡ with_state state };
}

/// What a message comes to whose link fails before it is settled.
pub trait FromDeliveryFailure: Sized {
    /// What it comes to where the link is gone.
    ghost link_gone: { Self };

    /// What it comes to where the link's session has stopped.
    ghost session_stopped: { SessionStopReason → Self };

    /// What it comes to where the link's state makes it fail.
    ghost link_failed: { LinkStateError → Self };

    /// What a message comes to whose outcome nobody can tell any more.
    fn from_oneshot_recv_error(error: RecvError) -> Self
        ensures { result ≡ link_gone };

    /// What a message comes to whose session has stopped (part 2, 2.5.2).
    fn from_session_stop_reason(reason: SessionStopReason) -> Self
        ensures { result ≡ session_stopped reason };

    /// What a message comes to that fails with its link.
    fn from_link_state_error(error: LinkStateError) -> Self
        ensures { result ≡ link_failed error };
}

/// It counts as accepted.
impl FromPreSettled for SendResult {
    ghost settled = { Ok (Accepted (record {})) };

    fn from_settled() -> Self {
        Ok(Outcome::Accepted(Accepted {}))
    }
}

/// A terminal state is the outcome, any other is `NonTerminalDeliveryState`, and none is `IllegalDeliveryState`.
impl FromDeliveryState for SendResult {
    ghost without_state = { Err IllegalDeliveryState };

    ghost with_state = { λ s. ok_or (state_outcome s) NonTerminalDeliveryState };

    fn from_none() -> Self {
        Err(SendError::IllegalDeliveryState)
    }

    fn from_delivery_state(state: DeliveryState) -> Self {
        match state.into_outcome() {
            Ok(outcome) => Ok(outcome),
            Err(_received) => Err(SendError::NonTerminalDeliveryState),
        }
    }
}

/// `LinkStateError`: `IllegalState` where the link is gone, else why it or its session failed.
impl FromDeliveryFailure for SendResult {
    ghost link_gone = { Err (NoOutcome IllegalState) };

    ghost session_stopped = { λ r. Err (NoOutcome (SessionStopped r)) };

    ghost link_failed = { λ e. Err (NoOutcome e) };

    fn from_oneshot_recv_error(_error: RecvError) -> Self {
        Err(SendError::LinkStateError(LinkStateError::IllegalState))
    }

    fn from_session_stop_reason(reason: SessionStopReason) -> Self {
        Err(SendError::LinkStateError(LinkStateError::SessionStopped(reason)))
    }

    fn from_link_state_error(error: LinkStateError) -> Self {
        Err(SendError::LinkStateError(error))
    }
}

//! What the sender of a message is told (part 3, 3.4).
ghost use Rattle.std.specs.Prelude.{◌≡◌, IfOk, IfErr};
ghost use Rattle.amqp_link_unsettled.specs.declared.resolution.Failure.TheVariants.{RemoteClosedWithError};
ghost use Rattle.amqp_link_unsettled.specs.declared.resolution.Resolution.TheVariants.{Failed};
ghost use Rattle.amqp_link_sender.specs.Results.{send_result, failure_error, closed_with};

use crate::link::SenderLink;
use amqp_link_types::{LinkStateError, SendError};
use amqp_link_unsettled::{Failure, Resolution};
use amqp_session_states::Outcome;
use amqp_session_types::{Boxed, definitions};
use std::alloc::AllocError;

/// What the sender of a message is told of it: its outcome, or why it has none.
pub type SendResult = Result<Outcome, SendError>;

impl SenderLink {
    /// What became of a message, as its sender is told. It is refused only where there is no memory for the error with
    /// which the peer closed the link.
    pub fn result_of(&self, resolution: Resolution) -> Result<SendResult, AllocError>
        ensures ok { IfOk result (λ r. r ≡ send_result self.now.remote_error resolution) }
        ensures only { IfErr result (λ _. resolution ≡ Failed RemoteClosedWithError) }
    {
        match resolution {
            Resolution::Outcome(outcome) => Ok(Ok(outcome)),
            Resolution::NoState => Ok(Err(SendError::IllegalDeliveryState)),
            Resolution::NotTerminal => Ok(Err(SendError::NonTerminalDeliveryState)),
            Resolution::Aborted => Ok(Err(SendError::LinkStateError(LinkStateError::IllegalState))),
            Resolution::Failed(why) => {
                let error = failure_error(&self.remote_error, why)?;
                Ok(Err(SendError::LinkStateError(error)))
            }
        }
    }
}

/// Why a link that is gone leaves a message without an outcome, by the error with which the peer closed it.
fn failure_error(
    kept: &Option<Boxed<definitions::Error>>,
    why: Failure,
) -> Result<LinkStateError, AllocError>
    ensures ok { IfOk result (λ e. e ≡ failure_error kept.now why) }
    ensures only { IfErr result (λ _. why ≡ RemoteClosedWithError) }
{
    match why {
        Failure::Closed => Ok(LinkStateError::IllegalState),
        Failure::RemoteClosed => Ok(LinkStateError::RemoteClosed),
        Failure::RemoteClosedWithError => closed_with(kept),
    }
}

/// That the peer closed the link, with this error or without.
fn closed_with(kept: &Option<Boxed<definitions::Error>>) -> Result<LinkStateError, AllocError>
    ensures { IfOk result (λ e. e ≡ closed_with kept.now) }
{
    let Some(error) = kept else {
        return Ok(LinkStateError::RemoteClosed);
    };
    Ok(LinkStateError::RemoteClosedWithError((**error).clone()?))
}

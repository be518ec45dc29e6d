//! What comes of the Attach frames that a sending link and its peer exchange (part 2, 2.6.13).
ghost use Rattle.std.specs.Prelude.{◌≡◌};
ghost use Rattle.amqp_link_unsettled.specs.Exchange.{completed};

use crate::resumption::ResumingDelivery;
use amqp_session_types::DeliveryTag;

/// What is left to be done once both Attach frames of a sending link have passed (part 2, 2.6.13).
#[derive(Debug, Drop)]
pub enum SenderAttachExchange {
    /// Neither end had unsettled deliveries.
    Complete,
    /// These deliveries are known to go on. A list was incomplete, so there may be others.
    IncompleteUnsettled(Vec<(DeliveryTag, ResumingDelivery)>),
    /// These deliveries go on, and no other was interrupted.
    Resume(Vec<(DeliveryTag, ResumingDelivery)>),
}

impl SenderAttachExchange {
    /// Nothing, where nothing is left to be done, or else this error.
    pub fn complete_or<E: Drop>(self, err: E) -> Result<(), E>
        ensures { result ≡ completed self err }
    {
        match self {
            SenderAttachExchange::Complete => Ok(()),
            _ => Err(err),
        }
    }
}

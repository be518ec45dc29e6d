//! What two Attach that were exchanged leave to be done (part 2, 2.6.13).
ghost use Rattle.std.specs.Prelude.{◌≡◌, ◌&&◌};
ghost use Rattle.amqp_link_base.specs.Exchange.{exchange, lists_none, complete_or};

use crate::state::LinkState;
use amqp_session_states::DeliveryState;
use amqp_session_types::DeliveryTag;
use serde_amqp_values::OrderedMap;

/// What two Attach that were exchanged leave to be done for deliveries that are unsettled (part 2, 2.6.13).
#[derive(Debug, Clone, Copy, PartialEq, Eq)]
pub enum AttachExchange {
    /// Nothing: no delivery is unsettled.
    Complete,
    /// One of the two doesn't list all of its unsettled deliveries. Those that are listed are settled first; then the
    /// link is detached and attached anew for the others.
    IncompleteUnsettled,
    /// The deliveries that are listed are to be resumed.
    Resume,
}

/// What a receiver has still to do.
pub type ReceiverAttachExchange = AttachExchange;

/// The states of a peer's unsettled deliveries by their tags (part 2, 2.7.3).
type Unsettled = Option<OrderedMap<DeliveryTag, Option<DeliveryState>>>;

impl AttachExchange {
    /// What a receiver in this state has still to do once the sender's Attach listed these deliveries: nothing where it
    /// lists none.
    pub fn of_receiver(state: LinkState, peer: &Unsettled) -> AttachExchange
        ensures { result ≡ exchange state (lists_none peer.now) }
    {
        AttachExchange::of(state, lists_none(peer))
    }

    /// What a sender in this state has still to do once the receiver's Attach listed these deliveries: nothing where it
    /// lists none, and the sender has none itself.
    pub fn of_sender(state: LinkState, own_is_empty: bool, peer: &Unsettled) -> AttachExchange
        ensures { result ≡ exchange state (own_is_empty && lists_none peer.now) }
    {
        AttachExchange::of(state, own_is_empty && lists_none(peer))
    }

    /// What is to be done in this state, where no delivery is unsettled or some are.
    fn of(state: LinkState, settled: bool) -> AttachExchange
        ensures { result ≡ exchange state settled }
    {
        if settled {
            return AttachExchange::Complete;
        }
        if state.is_incomplete() {
            return AttachExchange::IncompleteUnsettled;
        }
        AttachExchange::Resume
    }

    /// Nothing where nothing is left to be done, and this error where something is.
    pub fn complete_or<E: Drop>(self, err: E) -> Result<(), E>
        ensures { result ≡ complete_or self err }
    {
        match self {
            AttachExchange::Complete => Ok(()),
            AttachExchange::IncompleteUnsettled | AttachExchange::Resume => Err(err),
        }
    }
}

/// Whether a list of unsettled deliveries is left off or empty.
fn lists_none(list: &Unsettled) -> bool
    ensures { result ≡ lists_none list.now }
{
    match list {
        Some(deliveries) => deliveries.is_empty(),
        None => true,
    }
}

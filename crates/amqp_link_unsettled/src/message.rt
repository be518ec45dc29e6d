//! What a sending link keeps of a message that isn't settled (part 2, 2.6.12).
ghost use Rattle.std.specs.Prelude.{◌≡◌, Option, Ok, Err};
ghost use Rattle.amqp_session_states.specs.declared.delivery_state.DeliveryState.{DeliveryState};

use amqp_link_types::LinkStateError;
use amqp_session_states::DeliveryState;
use bytes::Bytes;

/// A message that is sent and not settled yet (part 2, 2.6.12).
///
/// A call that ends it answers what is told to the sender of the message: the state that it ended with, or why nothing
/// is known of that.
#[derive(Debug, Drop)]
pub struct UnsettledMessage {
    /// The bytes of the message.
    pub payload: Bytes,
    /// The last state that was told of it, if any was.
    pub state: Option<DeliveryState>,
    /// The format of the message (part 2, 2.7.5).
    pub message_format: u32,
}

impl UnsettledMessage {
    /// A message with these bytes, this state and this format.
    pub fn new(payload: Bytes, state: Option<DeliveryState>, message_format: u32) -> Self
        ensures { result ≡ record {
          payload = payload;
          state = state;
          message_format = message_format;
        } }
    {
        UnsettledMessage {
            payload,
            state,
            message_format,
        }
    }

    /// Ends the message with the state that was told of it last.
    pub fn settle(self) -> Result<Option<DeliveryState>, LinkStateError>
        ensures { result ≡ Ok self.state }
    {
        Ok(self.state)
    }

    /// Ends the message with this state.
    pub fn settle_with_state(
        self,
        state: Option<DeliveryState>,
    ) -> Result<Option<DeliveryState>, LinkStateError>
        ensures { result ≡ Ok state }
    {
        Ok(state)
    }

    /// Ends the message without a state, since its link can't tell one any more.
    pub fn fail(self, error: LinkStateError) -> Result<Option<DeliveryState>, LinkStateError>
        ensures { result ≡ Err error }
    {
        Err(error)
    }
}

/// What has a state of its delivery, or none yet.
pub trait AsDeliveryState {
    /// The state that it has.
    ghost delivery_state: { Self → Option DeliveryState };

    /// The state of its delivery, if it has one.
    fn as_delivery_state(&self) -> &Option<DeliveryState>
        ensures { result.now ≡ delivery_state self.now };
}

impl AsDeliveryState for UnsettledMessage {
    ghost delivery_state = { λ m. m.state };

    fn as_delivery_state(&self) -> &Option<DeliveryState> {
        &self.state
    }
}

impl AsDeliveryState for Option<DeliveryState> {
    ghost delivery_state = { λ s. s };

    fn as_delivery_state(&self) -> &Option<DeliveryState> {
        self
    }
}

//! A message that is open, and how it is sent on (part 2, 2.6.13).
ghost use Rattle.std.specs.Prelude.{◌≡◌, None};
ghost use Rattle.amqp_link_unsettled.specs.Told.{told};

use crate::{Listed, Noting, Numbered};
use amqp_session_states::{DeliveryState, Received};
use amqp_session_types::DeliveryTag;
use bytes::Bytes;
use std::alloc::AllocError;

/// A message that was sent unsettled, and of which the outcome isn't known yet (part 2, 2.6.12).
#[derive(Debug, Drop)]
pub struct Open {
    /// What the link calls the message.
    pub tag: DeliveryTag,
    /// Its bytes.
    pub payload: Bytes,
    /// The last state that the peer told of it, which isn't terminal; None where it told none.
    pub state: Option<DeliveryState>,
    /// How it is encoded (part 2, 2.8.11).
    pub message_format: u32,
}

impl Open {
    /// What the link calls the message.
    pub(crate) fn into_tag(self) -> DeliveryTag
        ensures { result ≡ self.tag }
    {
        self.tag
    }
}

/// The peer tells a state of the message.
impl Noting for Open {
    type Note = Option<DeliveryState>;

    ghost noted = { told };

    fn note(&mut self, note: Option<DeliveryState>) {
        self.state = note;
    }
}

/// A message that a link sends bears no number.
impl Numbered for Open {
    ghost number_of = { λ _. None };

    fn number(&self) -> Option<u64> {
        None
    }
}

/// An Attach lists the message with the state that the peer told of it.
impl Listed for Open {
    ghost listed = { λ m. m.state };

    fn listed_state(&self) -> Result<Option<DeliveryState>, AllocError> {
        Ok(self.state.clone()?)
    }
}

/// How a message is sent on.
#[derive(Debug, Clone, Copy, PartialEq, Eq)]
pub enum Resumption {
    /// Anew, from its first byte: the receiver doesn't know of it.
    Resend,
    /// From the place at which its receiver stands.
    Resume(Received),
}

/// A message that waits to be sent on.
#[derive(Debug, Drop)]
pub struct Waiting {
    /// What the link calls it.
    pub tag: DeliveryTag,
    /// How it is sent on.
    pub resumption: Resumption,
}

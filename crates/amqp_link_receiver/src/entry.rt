//! What a receiving end keeps of an unsettled delivery (part 2, 2.6.12 and 2.6.13).
ghost use Rattle.std.specs.Prelude.{◌≡◌, IfOk};
ghost use Rattle.amqp_link_receiver.specs.Listed.{listed_as, whole_listed_as};
ghost use Rattle.amqp_link_receiver.specs.Notes.{entry_number, message_noted, noted_of};

use crate::message_bytes::MessageBytes;
use amqp_link_base::{Gathered, place};
use amqp_link_unsettled::{Listed, Noting, Numbered};
use amqp_session_states::DeliveryState;
use amqp_session_types::ReceiverSettleMode;
use std::alloc::AllocError;

/// What a receiving end keeps of an unsettled delivery (part 2, 2.6.12).
#[derive(Drop)]
pub enum Entry {
    /// Not all of its message has come: the bytes that came in earlier attachments.
    Half(Gathered),
    /// Its message has come whole.
    Whole(WholeMessage),
}

/// An unsettled message that has come whole.
#[derive(Drop)]
pub struct WholeMessage {
    /// Its bytes.
    pub payload: MessageBytes,
    /// The state that the receiver told of it, once it did (part 3, 3.4).
    pub state: Option<DeliveryState>,
    /// The number of its delivery (part 2, 2.8.6).
    pub number: u32,
    /// The attachment of the link that the delivery has this number in.
    pub attachment: u64,
    /// How it is to be settled, where its transfer said it (part 2, 2.8.3).
    pub rcv_settle_mode: Option<ReceiverSettleMode>,
    /// The number that the link's owner gave the message, once it did.
    pub message: Option<u64>,
}

/// What is noted of a message that has come whole.
#[derive(Drop)]
pub enum Note {
    /// The number that the link's owner gives it.
    Named(u64),
    /// The state that the receiver tells of it (part 3, 3.4).
    Told(DeliveryState),
    /// What its delivery is called in an attachment of the link.
    Numbered {
        /// That attachment.
        attachment: u64,
        /// The number of its delivery there (part 2, 2.8.6).
        number: u32,
        /// How it is to be settled, where its transfer there said it (part 2, 2.8.3).
        rcv_settle_mode: Option<ReceiverSettleMode>,
    },
}

/// Of a delivery whose message hasn't come whole nothing is noted.
impl Noting for Entry {
    type Note = Note;

    ghost noted = { noted_of };

    fn note(&mut self, note: Note) {
        match self {
            Entry::Half(_) => {}
            Entry::Whole(message) => note_message(message, note),
        }
    }
}

/// A message that has come whole bears the number that the link's owner gave it.
impl Numbered for Entry {
    ghost number_of = { entry_number };

    fn number(&self) -> Option<u64> {
        match self {
            Entry::Half(_) => None,
            Entry::Whole(message) => message.message,
        }
    }
}

/// Notes something of a message that has come whole.
fn note_message(message: &mut WholeMessage, note: Note)
    ensures { message.new ≡ message_noted message.old note }
{
    match note {
        Note::Named(number) => message.message = Some(number),
        Note::Told(state) => message.state = Some(state),
        Note::Numbered {
            attachment,
            number,
            rcv_settle_mode,
        } => {
            message.attachment = attachment;
            message.number = number;
            message.rcv_settle_mode = rcv_settle_mode;
        }
    }
}

/// What has come of a delivery is listed with the place to which it reaches, and a whole message with the state that
/// was told of it, or with the place of its end (part 2, 2.6.13; part 3, 3.4.1).
impl Listed for Entry {
    ghost listed = { listed_as };

    fn listed_state(&self) -> Result<Option<DeliveryState>, AllocError> {
        match self {
            Entry::Half(kept) => Ok(Some(DeliveryState::Received(kept.place()))),
            Entry::Whole(message) => listed_whole(message),
        }
    }
}

/// The state that a message that has come whole is listed with.
fn listed_whole(message: &WholeMessage) -> Result<Option<DeliveryState>, AllocError>
    ensures { IfOk result (λ s. s ≡ whole_listed_as message.now) }
{
    if message.state.is_some() {
        return Ok(message.state.clone()?);
    }
    let payload = message.payload.as_bytes();
    Ok(Some(DeliveryState::Received(place(payload, payload.len()))))
}

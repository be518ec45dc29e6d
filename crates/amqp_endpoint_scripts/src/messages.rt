//! The words by which a script sends messages and disposes of them.
ghost use Rattle.std.specs.Prelude.{◌≡◌};
ghost use Rattle.amqp_endpoint_scripts.specs.MessageWords.{settled_of, settling_of, state_of};

use amqp_session_states::{Accepted, DeliveryState, Modified, Rejected, Released};

/// Whether a message is sent settled (part 2, 2.7.5).
pub fn read_settled(word: &str) -> Option<bool>
    ensures { result ≡ settled_of word.now }
{
    match word {
        "settled" => Some(true),
        "unsettled" => Some(false),
        _ => None,
    }
}

/// The outcome that the sender of a message is told, of which no field is set (part 3, 3.4).
pub fn read_state(word: &str) -> Option<DeliveryState>
    ensures { result ≡ state_of word.now }
{
    match word {
        "accepted" => Some(DeliveryState::Accepted(Accepted {})),
        "rejected" => Some(DeliveryState::Rejected(Rejected { error: None })),
        "released" => Some(DeliveryState::Released(Released {})),
        "modified" => Some(DeliveryState::Modified(Modified {
            delivery_failed: None,
            undeliverable_here: None,
            message_annotations: None,
        })),
        _ => None,
    }
}

/// Whether a message is settled as it is disposed of: `mode` leaves that to the settle mode that its transfers say, or
/// else to its link's (part 2, 2.7.6, 2.8.3).
pub fn read_settling(word: &str) -> Option<Option<bool>>
    ensures { result ≡ settling_of word.now }
{
    match word {
        "settled" => Some(Some(true)),
        "unsettled" => Some(Some(false)),
        "mode" => Some(None),
        _ => None,
    }
}

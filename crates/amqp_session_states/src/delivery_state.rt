//! The states of a delivery (part 3, 3.4).
ghost use Rattle.std.specs.Prelude.{◌≡◌, ◌≢◌, IfOk, MatchResult, OnOk, Some, None, refl};
ghost use Rattle.serde_amqp_read.specs.Reads.{Unless};
ghost use Rattle.serde_amqp_de.specs.Reads.{Refuses, Took, at_of};
ghost use Rattle.serde_amqp_values.specs.Choice.{fields_chosen};
ghost use Rattle.amqp_session_states.specs.DeliveryStateLaws.{delivery_state_rows_decided, delivery_state_rows_differ};
ghost use Rattle.amqp_session_states.specs.DeliveryStateLaws.{delivery_state_decided, delivery_state_again};
ghost use Rattle.amqp_session_states.specs.DeliveryStateLaws.{delivery_state_same, delivery_state_present};
ghost use Rattle.amqp_session_states.specs.DeliveryState.{delivery_state_item, delivery_state_rows};
ghost use Rattle.amqp_session_states.specs.DeliveryState.{delivery_state_taken};
ghost use Rattle.amqp_session_states.specs.Terminal.{is_terminal, terminal_state, state_outcome};
ghost use Rattle.amqp_session_states.specs.declared.delivery_state.DeliveryState.TheVariants.{Received as ReceivedState};

use crate::accepted::Accepted;
use crate::modified::Modified;
use crate::outcome::Outcome;
use crate::received::{self, Received};
use crate::rejected::Rejected;
use crate::released::Released;
use serde_amqp_de::{Deserialize, Deserializer, NeverNull, Read};
use serde_amqp_item::Error;
use serde_amqp_round_trip::{Faithful, RoundTrip};
use serde_amqp_ser::{Serialize, Serializer, Sink};
use serde_amqp_values::{Choice, read_choice, read_fields_of};
use std::alloc::{AllocError, Global};

/// The state of a delivery at one end of its link (part 3, 3.4).
#[derive(Debug, PartialEq, Eq, Drop)]
pub enum DeliveryState {
    /// A part of the message was received (part 3, 3.4.1).
    Received(Received),
    /// The message was accepted (part 3, 3.4.2).
    Accepted(Accepted),
    /// The message was rejected (part 3, 3.4.3).
    Rejected(Rejected),
    /// The message was released (part 3, 3.4.4).
    Released(Released),
    /// The message was modified (part 3, 3.4.5).
    Modified(Modified),
}

impl DeliveryState {
    /// Whether the delivery has come to its end in this state: all but received (part 3, 3.4).
    pub fn is_terminal(&self) -> bool
        ensures { result ≡ is_terminal self.now }
    {
        !matches!(self, DeliveryState::Received(_))
    }

    /// The outcome that the state is.
    ///
    /// A state that isn't terminal is handed back.
    pub fn into_outcome(self) -> Result<Outcome, Received>
        ensures { MatchResult result (λ o. state_outcome self ≡ Some o)
            (λ r. self ≡ ReceivedState r) }
    {
        match self {
            DeliveryState::Received(received) => Err(received),
            DeliveryState::Accepted(accepted) => Ok(Outcome::Accepted(accepted)),
            DeliveryState::Rejected(rejected) => Ok(Outcome::Rejected(rejected)),
            DeliveryState::Released(released) => Ok(Outcome::Released(released)),
            DeliveryState::Modified(modified) => Ok(Outcome::Modified(modified)),
        }
    }
}

impl From<Outcome> for DeliveryState {
    ghost from_gives = { λ o s. s ≡ terminal_state o };

    fn from(outcome: Outcome) -> Self {
        match outcome {
            Outcome::Accepted(accepted) => DeliveryState::Accepted(accepted),
            Outcome::Rejected(rejected) => DeliveryState::Rejected(rejected),
            Outcome::Released(released) => DeliveryState::Released(released),
            Outcome::Modified(modified) => DeliveryState::Modified(modified),
        }
    }
}

impl Clone for DeliveryState {
    ghost is_clone = { λ x y. y ≡ x };

    fn clone(&self) -> Result<Self, AllocError> {
        match self {
            DeliveryState::Received(received) => Ok(DeliveryState::Received(*received)),
            DeliveryState::Accepted(accepted) => Ok(DeliveryState::Accepted(*accepted)),
            DeliveryState::Rejected(rejected) => Ok(DeliveryState::Rejected(rejected.clone()?)),
            DeliveryState::Released(released) => Ok(DeliveryState::Released(*released)),
            DeliveryState::Modified(modified) => Ok(DeliveryState::Modified(modified.clone()?)),
        }
    }
}

impl Serialize for DeliveryState {
    ghost item = { delivery_state_item };

    fn is_null(&self) -> bool {
        false
    }

    fn serialize<W: Sink>(&self, s: &mut Serializer<W>) -> Result<(), Error> {
        match self {
            DeliveryState::Received(received) => received.serialize(s),
            DeliveryState::Accepted(accepted) => accepted.serialize(s),
            DeliveryState::Rejected(rejected) => rejected.serialize(s),
            DeliveryState::Released(released) => released.serialize(s),
            DeliveryState::Modified(modified) => modified.serialize(s),
        }
    }
}

impl Choice for DeliveryState {
    ghost table = { delivery_state_rows };

    ghost item = { delivery_state_item };

    fn code_of_name(name: &[u8]) -> Option<u64> {
        if name == received::NAME {
            return Some(received::CODE);
        }
        Outcome::code_of_name(name)
    }

    fn read_fields<R: Read>(
        alloc: Global,
        de: &mut Deserializer<R>,
        code: u64,
    ) -> Result<DeliveryState, Error> {
        if code == received::CODE {
            return read_received(alloc, de, code);
        }
        read_outcome(alloc, de, code)
    }

    ghost decided = { delivery_state_rows_decided };

    ghost differ = { delivery_state_rows_differ };
}

/// Reads the fields of a received state, which has this code.
///
/// Errors: as those of `Choice::read_fields`.
fn read_received<R: Read>(
    alloc: Global,
    de: &mut Deserializer<R>,
    code: u64,
) -> Result<DeliveryState, Error>
    requires bare { de.old.element ≡ None }
    requires received { code ≡ 0x23 }
    ensures ok { IfOk result (λ s. Took (fields_chosen delivery_state_rows code) None
        (at_of R.rest de.old) (at_of R.rest de.new) (delivery_state_item s)) }
    ensures element { OnOk result (de.new.element ≡ None) }
    ensures refused { Unless R.faulty result
        (Refuses (fields_chosen delivery_state_rows code) None (at_of R.rest de.old)) }
{
    let (section_number, (section_offset, ())) = read_fields_of::<received::Fields, R>(alloc, de)?;
    Ok(DeliveryState::Received(Received {
        section_number,
        section_offset,
    }))
}

/// Reads the fields of a state that isn't received, which has this code.
///
/// Errors: as those of `Choice::read_fields`.
fn read_outcome<R: Read>(
    alloc: Global,
    de: &mut Deserializer<R>,
    code: u64,
) -> Result<DeliveryState, Error>
    requires bare { de.old.element ≡ None }
    requires other { code ≢ 0x23 }
    ensures ok { IfOk result (λ s. Took (fields_chosen delivery_state_rows code) None
        (at_of R.rest de.old) (at_of R.rest de.new) (delivery_state_item s)) }
    ensures element { OnOk result (de.new.element ≡ None) }
    ensures refused { Unless R.faulty result
        (Refuses (fields_chosen delivery_state_rows code) None (at_of R.rest de.old)) }
{
    let outcome = Outcome::read_fields(alloc, de, code)?;
    Ok(DeliveryState::from(outcome))
}

/// A described list with the descriptor of one of the states. Any other descriptor answers `InvalidValue`.
impl Deserialize for DeliveryState {
    ghost item = { delivery_state_item };

    ghost take = { delivery_state_taken };

    #[tactic(auto, using(serde_amqp_values::proofs::Choosing::absents))]
    fn absent(_alloc: Global) -> Option<DeliveryState> {
        None
    }

    fn read<R: Read>(alloc: Global, de: &mut Deserializer<R>) -> Result<DeliveryState, Error> {
        read_choice(alloc, de)
    }

    ghost decided = { delivery_state_decided };
}

impl RoundTrip for DeliveryState {
    ghost same = { λ _. refl };

    ghost again = { delivery_state_again };
}

impl Faithful for DeliveryState {
    ghost faithful = { delivery_state_same };
}

impl NeverNull for DeliveryState {
    ghost present = { delivery_state_present };
}

//! The outcomes of a delivery (part 3, 3.4).
ghost use Rattle.std.specs.Prelude.{◌≡◌, IfOk, OnOk, None, refl};
ghost use Rattle.serde_amqp_read.specs.Reads.{Unless};
ghost use Rattle.serde_amqp_de.specs.Reads.{Refuses, Took, at_of};
ghost use Rattle.serde_amqp_values.specs.Choice.{fields_chosen};
ghost use Rattle.amqp_session_states.specs.OutcomeLaws.{outcome_rows_decided, outcome_rows_differ, outcome_decided};
ghost use Rattle.amqp_session_states.specs.OutcomeLaws.{outcome_again, outcome_same, outcome_present};
ghost use Rattle.amqp_session_states.specs.Outcome.{outcome_item, outcome_rows, outcome_taken};

use crate::accepted::{self, Accepted};
use crate::modified::{self, Modified};
use crate::rejected::{self, Rejected};
use crate::released::{self, Released};
use amqp_session_types::Aside;
use serde_amqp_de::{Deserialize, Deserializer, NeverNull, Read};
use serde_amqp_item::Error;
use serde_amqp_round_trip::{Faithful, RoundTrip};
use serde_amqp_ser::{Serialize, Serializer, Sink};
use serde_amqp_values::{Choice, read_choice, read_fields_of};
use std::alloc::{AllocError, Global};

/// A terminal state of a delivery (part 3, 3.4).
#[derive(Debug, PartialEq, Eq, Drop)]
pub enum Outcome {
    /// The message was accepted (part 3, 3.4.2).
    Accepted(Accepted),
    /// The message was rejected (part 3, 3.4.3).
    Rejected(Rejected),
    /// The message was released (part 3, 3.4.4).
    Released(Released),
    /// The message was modified (part 3, 3.4.5).
    Modified(Modified),
}

impl Clone for Outcome {
    ghost is_clone = { λ x y. y ≡ x };

    fn clone(&self) -> Result<Self, AllocError> {
        match self {
            Outcome::Accepted(accepted) => Ok(Outcome::Accepted(*accepted)),
            Outcome::Rejected(rejected) => Ok(Outcome::Rejected(rejected.clone()?)),
            Outcome::Released(released) => Ok(Outcome::Released(*released)),
            Outcome::Modified(modified) => Ok(Outcome::Modified(modified.clone()?)),
        }
    }
}

impl Serialize for Outcome {
    ghost item = { outcome_item };

    fn is_null(&self) -> bool {
        false
    }

    fn serialize<W: Sink>(&self, s: &mut Serializer<W>) -> Result<(), Error> {
        match self {
            Outcome::Accepted(accepted) => accepted.serialize(s),
            Outcome::Rejected(rejected) => rejected.serialize(s),
            Outcome::Released(released) => released.serialize(s),
            Outcome::Modified(modified) => modified.serialize(s),
        }
    }
}

impl Choice for Outcome {
    ghost table = { outcome_rows };

    ghost item = { outcome_item };

    fn code_of_name(name: &[u8]) -> Option<u64> {
        if name == accepted::NAME {
            return Some(accepted::CODE);
        }
        if name == rejected::NAME {
            return Some(rejected::CODE);
        }
        if name == released::NAME {
            return Some(released::CODE);
        }
        if name == modified::NAME {
            return Some(modified::CODE);
        }
        None
    }

    #[tactic(auto, using(serde_amqp_values::proofs::Choosing::chosen))]
    fn read_fields<R: Read>(
        alloc: Global,
        de: &mut Deserializer<R>,
        code: u64,
    ) -> Result<Outcome, Error> {
        match code {
            accepted::CODE => read_accepted(alloc, de, code),
            rejected::CODE => read_rejected(alloc, de, code),
            released::CODE => read_released(alloc, de, code),
            modified::CODE => read_modified(alloc, de, code),
            _ => Err(Error::InvalidValue),
        }
    }

    ghost decided = { outcome_rows_decided };

    ghost differ = { outcome_rows_differ };
}

/// Reads the fields of an accepted outcome, which has this code.
///
/// Errors: as those of `Choice::read_fields`.
fn read_accepted<R: Read>(
    alloc: Global,
    de: &mut Deserializer<R>,
    code: u64,
) -> Result<Outcome, Error>
    requires bare { de.old.element ≡ None }
    requires coded { code ≡ 0x24 }
    ensures ok { IfOk result (λ o. Took (fields_chosen outcome_rows code) None (at_of R.rest de.old)
        (at_of R.rest de.new) (outcome_item o)) }
    ensures element { OnOk result (de.new.element ≡ None) }
    ensures refused { Unless R.faulty result
        (Refuses (fields_chosen outcome_rows code) None (at_of R.rest de.old)) }
{
    read_fields_of::<accepted::Fields, R>(alloc, de)?;
    Ok(Outcome::Accepted(Accepted {}))
}

/// Reads the fields of a rejected outcome, which has this code.
///
/// Errors: as those of `Choice::read_fields`.
fn read_rejected<R: Read>(
    alloc: Global,
    de: &mut Deserializer<R>,
    code: u64,
) -> Result<Outcome, Error>
    requires bare { de.old.element ≡ None }
    requires coded { code ≡ 0x25 }
    ensures ok { IfOk result (λ o. Took (fields_chosen outcome_rows code) None (at_of R.rest de.old)
        (at_of R.rest de.new) (outcome_item o)) }
    ensures element { OnOk result (de.new.element ≡ None) }
    ensures refused { Unless R.faulty result
        (Refuses (fields_chosen outcome_rows code) None (at_of R.rest de.old)) }
{
    let (Aside(error), ()) = read_fields_of::<rejected::Fields, R>(alloc, de)?;
    Ok(Outcome::Rejected(Rejected { error }))
}

/// Reads the fields of a released outcome, which has this code.
///
/// Errors: as those of `Choice::read_fields`.
fn read_released<R: Read>(
    alloc: Global,
    de: &mut Deserializer<R>,
    code: u64,
) -> Result<Outcome, Error>
    requires bare { de.old.element ≡ None }
    requires coded { code ≡ 0x26 }
    ensures ok { IfOk result (λ o. Took (fields_chosen outcome_rows code) None (at_of R.rest de.old)
        (at_of R.rest de.new) (outcome_item o)) }
    ensures element { OnOk result (de.new.element ≡ None) }
    ensures refused { Unless R.faulty result
        (Refuses (fields_chosen outcome_rows code) None (at_of R.rest de.old)) }
{
    read_fields_of::<released::Fields, R>(alloc, de)?;
    Ok(Outcome::Released(Released {}))
}

/// Reads the fields of a modified outcome, which has this code.
///
/// Errors: as those of `Choice::read_fields`.
fn read_modified<R: Read>(
    alloc: Global,
    de: &mut Deserializer<R>,
    code: u64,
) -> Result<Outcome, Error>
    requires bare { de.old.element ≡ None }
    requires coded { code ≡ 0x27 }
    ensures ok { IfOk result (λ o. Took (fields_chosen outcome_rows code) None (at_of R.rest de.old)
        (at_of R.rest de.new) (outcome_item o)) }
    ensures element { OnOk result (de.new.element ≡ None) }
    ensures refused { Unless R.faulty result
        (Refuses (fields_chosen outcome_rows code) None (at_of R.rest de.old)) }
{
    let (delivery_failed, (undeliverable_here, (Aside(message_annotations), ()))) =
        read_fields_of::<modified::Fields, R>(alloc, de)?;
    Ok(Outcome::Modified(Modified {
        delivery_failed,
        undeliverable_here,
        message_annotations,
    }))
}

/// A described list with the descriptor of one of the outcomes. Any other descriptor answers `InvalidValue`.
impl Deserialize for Outcome {
    ghost item = { outcome_item };

    ghost take = { outcome_taken };

    #[tactic(auto, using(serde_amqp_values::proofs::Choosing::absents))]
    fn absent(_alloc: Global) -> Option<Outcome> {
        None
    }

    fn read<R: Read>(alloc: Global, de: &mut Deserializer<R>) -> Result<Outcome, Error> {
        read_choice(alloc, de)
    }

    ghost decided = { outcome_decided };
}

impl RoundTrip for Outcome {
    ghost same = { λ _. refl };

    ghost again = { outcome_again };
}

impl Faithful for Outcome {
    ghost faithful = { outcome_same };
}

impl NeverNull for Outcome {
    ghost present = { outcome_present };
}

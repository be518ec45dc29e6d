//! What stands as a link's target (part 2, 2.7.3).
ghost use Rattle.std.specs.Prelude.{◌≡◌, refl};
ghost use Rattle.amqp_session_states.specs.ArchetypeLaws.{target_archetype_decided, target_archetype_again};
ghost use Rattle.amqp_session_states.specs.ArchetypeLaws.{target_archetype_same, target_archetype_present};
ghost use Rattle.amqp_session_states.specs.TargetArchetype.{begins_with_one, is_other, target_archetype_item};
ghost use Rattle.amqp_session_states.specs.TargetArchetype.{target_archetype_taken, target_descriptors};

use crate::target::Target;
use serde_amqp_de::{Deserialize, Deserializer, NeverNull, Read};
use serde_amqp_item::Error;
use serde_amqp_round_trip::{Faithful, RoundTrip};
use serde_amqp_ser::{Serialize, Serializer, Sink};
use serde_amqp_values::RawValue;
use std::alloc::{AllocError, Global};

/// What stands as a link's target: a target, or a described value of another type, which is kept as it is (part 2,
/// 2.7.3).
#[derive(Debug, PartialEq, Eq)]
pub enum TargetArchetype {
    /// A target (part 3, 3.5.4).
    Target(Target),
    /// A described value whose descriptor is not a target's. Bytes that are no such value are not written.
    Other(RawValue),
}

impl Drop for TargetArchetype {
    fn drop(self) {
        match self {
            TargetArchetype::Target(_) => {}
            TargetArchetype::Other(_) => {}
        }
    }
}

impl Clone for TargetArchetype {
    ghost is_clone = { λ x y. y ≡ x };

    fn clone(&self) -> Result<Self, AllocError> {
        match self {
            TargetArchetype::Target(target) => Ok(TargetArchetype::Target(target.clone()?)),
            TargetArchetype::Other(value) => Ok(TargetArchetype::Other(value.clone()?)),
        }
    }
}

/// A target's code, as a ulong of one byte.
const SHORT_CODE: &[u8] = &[0x53, 0x29];

/// A target's code, as a ulong of eight bytes.
const LONG_CODE: &[u8] = &[0x80, 0, 0, 0, 0, 0, 0, 0, 0x29];

/// A target's name, as a symbol with a size of one byte.
const SHORT_NAME: &[u8] = b"\xa3\x10amqp:target:list";

/// A target's name, as a symbol with a size of four bytes.
const LONG_NAME: &[u8] = b"\xb3\0\0\0\x10amqp:target:list";

/// Whether the bytes begin with the descriptor of a target.
fn begins_with_target(bytes: &[u8]) -> bool
    ensures { result ≡ begins_with_one target_descriptors bytes.now }
{
    bytes.starts_with(SHORT_CODE)
        || bytes.starts_with(LONG_CODE)
        || bytes.starts_with(SHORT_NAME)
        || bytes.starts_with(LONG_NAME)
}

/// Whether the bytes of a value are those of a described value that is no target.
#[tactic(auto, unfolding(crate::specs::TargetArchetype::is_other))]
fn is_other(bytes: &[u8]) -> bool
    ensures { result ≡ is_other bytes.now }
{
    match bytes.split_first() {
        Some((0x00, descriptor)) => !begins_with_target(descriptor),
        _ => false,
    }
}

/// An other value answers `InvalidValue` where its bytes are those of a target or of a value that isn't described,
/// and in an array, whose elements have no constructor.
impl Serialize for TargetArchetype {
    ghost item = { target_archetype_item };

    fn is_null(&self) -> bool {
        false
    }

    fn serialize<W: Sink>(&self, s: &mut Serializer<W>) -> Result<(), Error> {
        match self {
            TargetArchetype::Target(target) => target.serialize(s),
            TargetArchetype::Other(value) => {
                if is_other(value.as_bytes()) {
                    return value.serialize(s);
                }
                Err(Error::InvalidValue)
            }
        }
    }
}

/// A described value: a target where it has a target's descriptor, and any other one as its bytes.
/// `InvalidFormatCode` where it isn't described.
impl Deserialize for TargetArchetype {
    ghost item = { target_archetype_item };

    ghost take = { target_archetype_taken };

    #[tactic(auto, unfolding(crate::specs::TargetArchetype::target_archetype_taken, serde_amqp_de::specs::Takes::record_taken))]
    fn absent(_alloc: Global) -> Option<TargetArchetype> {
        None
    }

    #[tactic(auto, using(crate::proofs::Archetypes::archetypes))]
    fn read<R: Read>(alloc: Global, de: &mut Deserializer<R>) -> Result<TargetArchetype, Error> {
        if de.element().is_some() {
            return Ok(TargetArchetype::Target(Target::read(alloc, de)?));
        }
        let value = <RawValue as Deserialize>::read(alloc, de)?;
        if is_other(value.as_bytes()) {
            return Ok(TargetArchetype::Other(value));
        }
        Ok(TargetArchetype::Target(value.read(alloc)?))
    }

    ghost decided = { target_archetype_decided };
}

impl RoundTrip for TargetArchetype {
    ghost same = { λ _. refl };

    ghost again = { target_archetype_again };
}

impl Faithful for TargetArchetype {
    ghost faithful = { target_archetype_same };
}

impl NeverNull for TargetArchetype {
    ghost present = { target_archetype_present };
}

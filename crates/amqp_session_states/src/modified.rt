//! A delivery was modified (part 3, 3.4.5).
ghost use Rattle.std.specs.Prelude.{◌≡◌, refl};
ghost use Rattle.amqp_session_states.specs.Modified.{modified_item, modified_taken};
ghost use Rattle.amqp_session_states.specs.Again.{modified_again};
ghost use Rattle.amqp_session_states.specs.Deciding.{modified_decided};
ghost use Rattle.amqp_session_states.specs.Faithful.{modified_same};

use amqp_session_types::definitions::Fields as Annotations;
use amqp_session_types::{Aside, Boxed};
use serde_amqp_de::{Deserialize, Deserializer, NeverNull, Read, read_record};
use serde_amqp_item::Error;
use serde_amqp_round_trip::{Faithful, RoundTrip};
use serde_amqp_ser::{Serialize, Serializer, Sink, serialize_record};
use std::alloc::{AllocError, Global};

/// The message was not acted upon, and is to be changed (part 3, 3.4.5).
#[derive(Debug, PartialEq, Eq, Drop)]
pub struct Modified {
    /// Whether it counts as a delivery that failed. Where it is absent nothing is said.
    pub delivery_failed: Option<bool>,
    /// Whether the link is not to be given the message again. Where it is absent nothing is said.
    pub undeliverable_here: Option<bool>,
    /// What is to be merged into the message's annotations.
    pub message_annotations: Option<Boxed<Annotations>>,
}

/// The descriptor's code.
pub(crate) const CODE: u64 = 0x27;

/// The descriptor's name.
pub(crate) const NAME: &[u8] = b"amqp:modified:list";

/// The fields in their order.
pub(crate) type Fields = (Option<bool>, (Option<bool>, (Aside<Annotations>, ())));

impl Clone for Modified {
    ghost is_clone = { λ x y. y ≡ x };

    fn clone(&self) -> Result<Self, AllocError> {
        Ok(Modified {
            delivery_failed: self.delivery_failed,
            undeliverable_here: self.undeliverable_here,
            message_annotations: self.message_annotations.clone()?,
        })
    }
}

impl Serialize for Modified {
    ghost item = { modified_item };

    fn is_null(&self) -> bool {
        false
    }

    fn serialize<W: Sink>(&self, s: &mut Serializer<W>) -> Result<(), Error> {
        serialize_record(
            s,
            CODE,
            &(
                &self.delivery_failed,
                (&self.undeliverable_here, (&self.message_annotations, ())),
            ),
        )
    }
}

impl Deserialize for Modified {
    ghost item = { modified_item };

    ghost take = { modified_taken };

    #[tactic(auto, unfolding(serde_amqp_de::specs::Takes::record_taken))]
    fn absent(_alloc: Global) -> Option<Modified> {
        None
    }

    fn read<R: Read>(alloc: Global, de: &mut Deserializer<R>) -> Result<Modified, Error> {
        let (delivery_failed, (undeliverable_here, (Aside(message_annotations), ()))) =
            read_record::<Fields, R>(alloc, de, CODE, NAME)?;
        Ok(Modified {
            delivery_failed,
            undeliverable_here,
            message_annotations,
        })
    }

    ghost decided = { modified_decided };
}

impl RoundTrip for Modified {
    ghost same = { λ _. refl };

    ghost again = { modified_again };
}

impl Faithful for Modified {
    ghost faithful = { modified_same };
}

impl NeverNull for Modified {
    ghost present = { λ _. refl };
}

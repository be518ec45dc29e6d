//! Annotations for the next hop of a message (part 3, 3.2.2).
ghost use Rattle.std.specs.Prelude.{◌≡◌, refl};
ghost use Rattle.amqp_link_sections.specs.Annotations.{delivery_annotations_item, delivery_annotations_taken};
ghost use Rattle.amqp_link_sections.specs.AnnotationLaws.{delivery_annotations_again, delivery_annotations_decided};
ghost use Rattle.amqp_link_sections.specs.AnnotationLaws.{delivery_annotations_same};

use crate::annotations::Annotations;
use crate::described::read_described;
use serde_amqp_de::{Deserialize, Deserializer, NeverNull, Read};
use serde_amqp_item::Error;
use serde_amqp_round_trip::{Faithful, RoundTrip};
use serde_amqp_ser::{Serialize, Serializer, Sink};
use std::alloc::{AllocError, Global};

/// What a sender tells the receiver next to it about a delivery, of values of any type by keys of any type (part 3,
/// 3.2.2). It is not passed on.
#[derive(Debug, PartialEq, Eq, Drop)]
pub struct DeliveryAnnotations(
    /// The pairs, in their order.
    pub Annotations,
);

/// The descriptor's code.
pub(crate) const CODE: u64 = 0x71;

/// The descriptor's name.
const NAME: &[u8] = b"amqp:delivery-annotations:map";

impl Clone for DeliveryAnnotations {
    ghost is_clone = { λ x y. y ≡ x };

    #[tactic(auto, using(crate::proofs::Clones::clones))]
    fn clone(&self) -> Result<Self, AllocError> {
        Ok(DeliveryAnnotations(self.0.clone()?))
    }
}

/// A map with a descriptor. In an array it answers `InvalidValue`, since a described item has no wide form.
impl Serialize for DeliveryAnnotations {
    ghost item = { delivery_annotations_item };

    fn is_null(&self) -> bool {
        false
    }

    fn serialize<W: Sink>(&self, s: &mut Serializer<W>) -> Result<(), Error> {
        s.described_basic(CODE, &self.0)
    }
}

impl Deserialize for DeliveryAnnotations {
    ghost item = { delivery_annotations_item };

    ghost take = { delivery_annotations_taken };

    #[tactic(auto, unfolding(crate::specs::Described::described_as))]
    fn absent(_alloc: Global) -> Option<DeliveryAnnotations> {
        None
    }

    fn read<R: Read>(
        alloc: Global,
        de: &mut Deserializer<R>,
    ) -> Result<DeliveryAnnotations, Error> {
        Ok(DeliveryAnnotations(read_described(alloc, de, CODE, NAME)?))
    }

    ghost decided = { delivery_annotations_decided };
}

impl RoundTrip for DeliveryAnnotations {
    ghost same = { λ _. refl };

    ghost again = { delivery_annotations_again };
}

impl Faithful for DeliveryAnnotations {
    ghost faithful = { delivery_annotations_same };
}

impl NeverNull for DeliveryAnnotations {
    ghost present = { λ _. refl };
}

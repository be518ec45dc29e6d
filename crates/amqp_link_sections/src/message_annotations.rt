//! Annotations of a message (part 3, 3.2.3).
ghost use Rattle.std.specs.Prelude.{◌≡◌, refl};
ghost use Rattle.amqp_link_sections.specs.Annotations.{message_annotations_item, message_annotations_taken};
ghost use Rattle.amqp_link_sections.specs.AnnotationLaws.{message_annotations_again, message_annotations_decided};
ghost use Rattle.amqp_link_sections.specs.AnnotationLaws.{message_annotations_same};

use crate::annotations::Annotations;
use crate::described::read_described;
use serde_amqp_de::{Deserialize, Deserializer, NeverNull, Read};
use serde_amqp_item::Error;
use serde_amqp_round_trip::{Faithful, RoundTrip};
use serde_amqp_ser::{Serialize, Serializer, Sink};
use std::alloc::{AllocError, Global};

/// What is said of a message to all nodes that it passes, of values of any type by keys of any type (part 3, 3.2.3).
#[derive(Debug, PartialEq, Eq, Drop)]
pub struct MessageAnnotations(
    /// The pairs, in their order.
    pub Annotations,
);

/// The descriptor's code.
pub(crate) const CODE: u64 = 0x72;

/// The descriptor's name.
const NAME: &[u8] = b"amqp:message-annotations:map";

impl Clone for MessageAnnotations {
    ghost is_clone = { λ x y. y ≡ x };

    #[tactic(auto, using(crate::proofs::Clones::clones))]
    fn clone(&self) -> Result<Self, AllocError> {
        Ok(MessageAnnotations(self.0.clone()?))
    }
}

/// A map with a descriptor. In an array it answers `InvalidValue`, since a described item has no wide form.
impl Serialize for MessageAnnotations {
    ghost item = { message_annotations_item };

    fn is_null(&self) -> bool {
        false
    }

    fn serialize<W: Sink>(&self, s: &mut Serializer<W>) -> Result<(), Error> {
        s.described_basic(CODE, &self.0)
    }
}

impl Deserialize for MessageAnnotations {
    ghost item = { message_annotations_item };

    ghost take = { message_annotations_taken };

    #[tactic(auto, unfolding(crate::specs::Described::described_as))]
    fn absent(_alloc: Global) -> Option<MessageAnnotations> {
        None
    }

    fn read<R: Read>(alloc: Global, de: &mut Deserializer<R>) -> Result<MessageAnnotations, Error> {
        Ok(MessageAnnotations(read_described(alloc, de, CODE, NAME)?))
    }

    ghost decided = { message_annotations_decided };
}

impl RoundTrip for MessageAnnotations {
    ghost same = { λ _. refl };

    ghost again = { message_annotations_again };
}

impl Faithful for MessageAnnotations {
    ghost faithful = { message_annotations_same };
}

impl NeverNull for MessageAnnotations {
    ghost present = { λ _. refl };
}

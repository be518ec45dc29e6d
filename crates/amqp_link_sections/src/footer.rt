//! The footer of a message (part 3, 3.2.9).
ghost use Rattle.std.specs.Prelude.{◌≡◌, refl};
ghost use Rattle.amqp_link_sections.specs.Annotations.{footer_item, footer_taken};
ghost use Rattle.amqp_link_sections.specs.AnnotationLaws.{footer_again, footer_decided, footer_same};

use crate::annotations::Annotations;
use crate::described::read_described;
use serde_amqp_de::{Deserialize, Deserializer, NeverNull, Read};
use serde_amqp_item::Error;
use serde_amqp_round_trip::{Faithful, RoundTrip};
use serde_amqp_ser::{Serialize, Serializer, Sink};
use std::alloc::{AllocError, Global};

/// What is known of a message only behind its body, as a signature, of values of any type by keys of any type (part 3,
/// 3.2.9).
#[derive(Debug, PartialEq, Eq, Drop)]
pub struct Footer(
    /// The pairs, in their order.
    pub Annotations,
);

/// The descriptor's code.
pub(crate) const CODE: u64 = 0x78;

/// The descriptor's name.
const NAME: &[u8] = b"amqp:footer:map";

impl Clone for Footer {
    ghost is_clone = { λ x y. y ≡ x };

    #[tactic(auto, using(crate::proofs::Clones::clones))]
    fn clone(&self) -> Result<Self, AllocError> {
        Ok(Footer(self.0.clone()?))
    }
}

/// A map with a descriptor. In an array it answers `InvalidValue`, since a described item has no wide form.
impl Serialize for Footer {
    ghost item = { footer_item };

    fn is_null(&self) -> bool {
        false
    }

    fn serialize<W: Sink>(&self, s: &mut Serializer<W>) -> Result<(), Error> {
        s.described_basic(CODE, &self.0)
    }
}

impl Deserialize for Footer {
    ghost item = { footer_item };

    ghost take = { footer_taken };

    #[tactic(auto, unfolding(crate::specs::Described::described_as))]
    fn absent(_alloc: Global) -> Option<Footer> {
        None
    }

    fn read<R: Read>(alloc: Global, de: &mut Deserializer<R>) -> Result<Footer, Error> {
        Ok(Footer(read_described(alloc, de, CODE, NAME)?))
    }

    ghost decided = { footer_decided };
}

impl RoundTrip for Footer {
    ghost same = { λ _. refl };

    ghost again = { footer_again };
}

impl Faithful for Footer {
    ghost faithful = { footer_same };
}

impl NeverNull for Footer {
    ghost present = { λ _. refl };
}

//! The properties that an application gives a message (part 3, 3.2.5).
ghost use Rattle.std.specs.Prelude.{◌≡◌, refl};
ghost use Rattle.amqp_link_sections.specs.Annotations.{application_properties_item, application_properties_taken};
ghost use Rattle.amqp_link_sections.specs.AnnotationLaws.{application_properties_again, application_properties_decided};
ghost use Rattle.amqp_link_sections.specs.AnnotationLaws.{application_properties_same};

use crate::described::read_described;
use serde_amqp_de::{Deserialize, Deserializer, NeverNull, Read};
use serde_amqp_item::Error;
use serde_amqp_round_trip::{Faithful, RoundTrip};
use serde_amqp_ser::{Serialize, Serializer, Sink};
use serde_amqp_types::Text;
use serde_amqp_values::{OrderedMap, RawValue};
use std::alloc::{AllocError, Global};

/// What an application says of a message, of values of any type by names (part 3, 3.2.5).
#[derive(Debug, PartialEq, Eq, Drop)]
pub struct ApplicationProperties(
    /// The pairs, in their order.
    pub OrderedMap<Text, RawValue>,
);

/// The descriptor's code.
pub(crate) const CODE: u64 = 0x74;

/// The descriptor's name.
const NAME: &[u8] = b"amqp:application-properties:map";

impl Clone for ApplicationProperties {
    ghost is_clone = { λ x y. y ≡ x };

    #[tactic(auto, using(crate::proofs::Clones::clones))]
    fn clone(&self) -> Result<Self, AllocError> {
        Ok(ApplicationProperties(self.0.clone()?))
    }
}

/// A map with a descriptor. In an array it answers `InvalidValue`, since a described item has no wide form.
impl Serialize for ApplicationProperties {
    ghost item = { application_properties_item };

    fn is_null(&self) -> bool {
        false
    }

    fn serialize<W: Sink>(&self, s: &mut Serializer<W>) -> Result<(), Error> {
        s.described_basic(CODE, &self.0)
    }
}

impl Deserialize for ApplicationProperties {
    ghost item = { application_properties_item };

    ghost take = { application_properties_taken };

    #[tactic(auto, unfolding(crate::specs::Described::described_as))]
    fn absent(_alloc: Global) -> Option<ApplicationProperties> {
        None
    }

    fn read<R: Read>(
        alloc: Global,
        de: &mut Deserializer<R>,
    ) -> Result<ApplicationProperties, Error> {
        Ok(ApplicationProperties(read_described(alloc, de, CODE, NAME)?))
    }

    ghost decided = { application_properties_decided };
}

impl RoundTrip for ApplicationProperties {
    ghost same = { λ _. refl };

    ghost again = { application_properties_again };
}

impl Faithful for ApplicationProperties {
    ghost faithful = { application_properties_same };
}

impl NeverNull for ApplicationProperties {
    ghost present = { λ _. refl };
}

//! How much of a delivery was received (part 3, 3.4.1).
ghost use Rattle.std.specs.Prelude.{◌≡◌, refl};
ghost use Rattle.amqp_session_states.specs.Received.{received_item, received_taken};
ghost use Rattle.amqp_session_states.specs.Again.{received_again};
ghost use Rattle.amqp_session_states.specs.Deciding.{received_decided};
ghost use Rattle.amqp_session_states.specs.Faithful.{received_same};

use serde_amqp_de::{Deserialize, Deserializer, NeverNull, Read, read_record};
use serde_amqp_item::Error;
use serde_amqp_round_trip::{Faithful, RoundTrip};
use serde_amqp_ser::{Serialize, Serializer, Sink, serialize_record};
use std::alloc::Global;

/// The message was received up to a place (part 3, 3.4.1). It is the only state that is not terminal.
#[derive(Debug, Clone, Copy, PartialEq, Eq)]
pub struct Received {
    /// The section of the message that the place is in. The first one is 0.
    pub section_number: u32,
    /// How many bytes of that section stand before the place.
    pub section_offset: u64,
}

/// The descriptor's code.
pub(crate) const CODE: u64 = 0x23;

/// The descriptor's name.
pub(crate) const NAME: &[u8] = b"amqp:received:list";

/// The fields in their order.
pub(crate) type Fields = (u32, (u64, ()));

impl Serialize for Received {
    ghost item = { received_item };

    fn is_null(&self) -> bool {
        false
    }

    fn serialize<W: Sink>(&self, s: &mut Serializer<W>) -> Result<(), Error> {
        serialize_record(s, CODE, &(&self.section_number, (&self.section_offset, ())))
    }
}

impl Deserialize for Received {
    ghost item = { received_item };

    ghost take = { received_taken };

    #[tactic(auto, unfolding(serde_amqp_de::specs::Takes::record_taken))]
    fn absent(_alloc: Global) -> Option<Received> {
        None
    }

    fn read<R: Read>(alloc: Global, de: &mut Deserializer<R>) -> Result<Received, Error> {
        let (section_number, (section_offset, ())) = read_record::<Fields, R>(
            alloc, de, CODE, NAME,
        )?;
        Ok(Received {
            section_number,
            section_offset,
        })
    }

    ghost decided = { received_decided };
}

impl RoundTrip for Received {
    ghost same = { λ _. refl };

    ghost again = { received_again };
}

impl Faithful for Received {
    ghost faithful = { received_same };
}

impl NeverNull for Received {
    ghost present = { λ _. refl };
}

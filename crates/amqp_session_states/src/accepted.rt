//! A delivery was accepted (part 3, 3.4.2).
ghost use Rattle.std.specs.Prelude.{◌≡◌, refl};
ghost use Rattle.amqp_session_states.specs.Accepted.{accepted_item, accepted_taken};
ghost use Rattle.amqp_session_states.specs.Again.{accepted_again};
ghost use Rattle.amqp_session_states.specs.Deciding.{accepted_decided};
ghost use Rattle.amqp_session_states.specs.Faithful.{accepted_same};

use serde_amqp_de::{Deserialize, Deserializer, NeverNull, Read, read_record};
use serde_amqp_item::Error;
use serde_amqp_round_trip::{Faithful, RoundTrip};
use serde_amqp_ser::{Serialize, Serializer, Sink, serialize_record};
use std::alloc::Global;

/// The message was accepted (part 3, 3.4.2).
#[derive(Debug, Clone, Copy, PartialEq, Eq)]
pub struct Accepted {}

/// The descriptor's code.
pub(crate) const CODE: u64 = 0x24;

/// The descriptor's name.
pub(crate) const NAME: &[u8] = b"amqp:accepted:list";

/// It has no fields.
pub(crate) type Fields = ();

impl Serialize for Accepted {
    ghost item = { accepted_item };

    fn is_null(&self) -> bool {
        false
    }

    fn serialize<W: Sink>(&self, s: &mut Serializer<W>) -> Result<(), Error> {
        serialize_record(s, CODE, &())
    }
}

impl Deserialize for Accepted {
    ghost item = { accepted_item };

    ghost take = { accepted_taken };

    #[tactic(auto, unfolding(serde_amqp_de::specs::Takes::record_taken))]
    fn absent(_alloc: Global) -> Option<Accepted> {
        None
    }

    fn read<R: Read>(alloc: Global, de: &mut Deserializer<R>) -> Result<Accepted, Error> {
        let () = read_record::<Fields, R>(alloc, de, CODE, NAME)?;
        Ok(Accepted {})
    }

    ghost decided = { accepted_decided };
}

impl RoundTrip for Accepted {
    ghost same = { λ _. refl };

    ghost again = { accepted_again };
}

impl Faithful for Accepted {
    ghost faithful = { accepted_same };
}

impl NeverNull for Accepted {
    ghost present = { λ _. refl };
}

//! A delivery was released (part 3, 3.4.4).
ghost use Rattle.std.specs.Prelude.{◌≡◌, refl};
ghost use Rattle.amqp_session_states.specs.Released.{released_item, released_taken};
ghost use Rattle.amqp_session_states.specs.Again.{released_again};
ghost use Rattle.amqp_session_states.specs.Deciding.{released_decided};
ghost use Rattle.amqp_session_states.specs.Faithful.{released_same};

use serde_amqp_de::{Deserialize, Deserializer, NeverNull, Read, read_record};
use serde_amqp_item::Error;
use serde_amqp_round_trip::{Faithful, RoundTrip};
use serde_amqp_ser::{Serialize, Serializer, Sink, serialize_record};
use std::alloc::Global;

/// The message was not and will not be acted upon (part 3, 3.4.4).
#[derive(Debug, Clone, Copy, PartialEq, Eq)]
pub struct Released {}

/// The descriptor's code.
pub(crate) const CODE: u64 = 0x26;

/// The descriptor's name.
pub(crate) const NAME: &[u8] = b"amqp:released:list";

/// It has no fields.
pub(crate) type Fields = ();

impl Serialize for Released {
    ghost item = { released_item };

    fn is_null(&self) -> bool {
        false
    }

    fn serialize<W: Sink>(&self, s: &mut Serializer<W>) -> Result<(), Error> {
        serialize_record(s, CODE, &())
    }
}

impl Deserialize for Released {
    ghost item = { released_item };

    ghost take = { released_taken };

    #[tactic(auto, unfolding(serde_amqp_de::specs::Takes::record_taken))]
    fn absent(_alloc: Global) -> Option<Released> {
        None
    }

    fn read<R: Read>(alloc: Global, de: &mut Deserializer<R>) -> Result<Released, Error> {
        let () = read_record::<Fields, R>(alloc, de, CODE, NAME)?;
        Ok(Released {})
    }

    ghost decided = { released_decided };
}

impl RoundTrip for Released {
    ghost same = { λ _. refl };

    ghost again = { released_again };
}

impl Faithful for Released {
    ghost faithful = { released_same };
}

impl NeverNull for Released {
    ghost present = { λ _. refl };
}

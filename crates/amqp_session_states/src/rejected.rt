//! A delivery was rejected (part 3, 3.4.3).
ghost use Rattle.std.specs.Prelude.{◌≡◌, refl};
ghost use Rattle.amqp_session_states.specs.Rejected.{rejected_item, rejected_taken};
ghost use Rattle.amqp_session_states.specs.Again.{rejected_again};
ghost use Rattle.amqp_session_states.specs.Deciding.{rejected_decided};
ghost use Rattle.amqp_session_states.specs.Faithful.{rejected_same};

use amqp_session_types::{Aside, Boxed, definitions};
use serde_amqp_de::{Deserialize, Deserializer, NeverNull, Read, read_record};
use serde_amqp_item::Error;
use serde_amqp_round_trip::{Faithful, RoundTrip};
use serde_amqp_ser::{Serialize, Serializer, Sink, serialize_record};
use std::alloc::{AllocError, Global};

/// The message is invalid and can't be acted upon (part 3, 3.4.3).
#[derive(Debug, PartialEq, Eq, Drop)]
pub struct Rejected {
    /// Why it was rejected.
    pub error: Option<Boxed<definitions::Error>>,
}

/// The descriptor's code.
pub(crate) const CODE: u64 = 0x25;

/// The descriptor's name.
pub(crate) const NAME: &[u8] = b"amqp:rejected:list";

/// The fields in their order.
pub(crate) type Fields = (Aside<definitions::Error>, ());

impl Clone for Rejected {
    ghost is_clone = { λ x y. y ≡ x };

    fn clone(&self) -> Result<Self, AllocError> {
        Ok(Rejected {
            error: self.error.clone()?,
        })
    }
}

impl Serialize for Rejected {
    ghost item = { rejected_item };

    fn is_null(&self) -> bool {
        false
    }

    fn serialize<W: Sink>(&self, s: &mut Serializer<W>) -> Result<(), Error> {
        serialize_record(s, CODE, &(&self.error, ()))
    }
}

impl Deserialize for Rejected {
    ghost item = { rejected_item };

    ghost take = { rejected_taken };

    #[tactic(auto, unfolding(serde_amqp_de::specs::Takes::record_taken))]
    fn absent(_alloc: Global) -> Option<Rejected> {
        None
    }

    fn read<R: Read>(alloc: Global, de: &mut Deserializer<R>) -> Result<Rejected, Error> {
        let (Aside(error), ()) = read_record::<Fields, R>(alloc, de, CODE, NAME)?;
        Ok(Rejected { error })
    }

    ghost decided = { rejected_decided };
}

impl RoundTrip for Rejected {
    ghost same = { λ _. refl };

    ghost again = { rejected_again };
}

impl Faithful for Rejected {
    ghost faithful = { rejected_same };
}

impl NeverNull for Rejected {
    ghost present = { λ _. refl };
}

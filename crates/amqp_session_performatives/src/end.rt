//! The end performative (part 2, 2.7.8).
ghost use Rattle.std.specs.Prelude.{◌≡◌, refl};
ghost use Rattle.amqp_session_performatives.specs.End.{end_fields, end_item, end_takes, end_taken};
ghost use Rattle.amqp_session_performatives.specs.EndLaws.{end_decided, end_again, end_same};

use crate::composite::{Composite, Performs, read_composite};
use crate::performative::Performative;
use amqp_session_types::definitions::Error;
use serde_amqp_de::{Deserialize, Deserializer, NeverNull, Read};
use serde_amqp_round_trip::{Faithful, RoundTrip};
use serde_amqp_ser::{Serialize, Serializer, Sink, serialize_record};
use serde_amqp_values::read_fields_of;
use std::alloc::{AllocError, Global};

/// Ends a session (part 2, 2.7.8).
#[derive(Debug, PartialEq, Drop)]
pub struct End {
    /// Why the session is ended, where it is ended for an error.
    pub error: Option<Error>,
}

/// The descriptor's code.
pub(crate) const CODE: u64 = 0x17;

/// The descriptor's name.
pub(crate) const NAME: &[u8] = b"amqp:end:list";

impl Clone for End {
    ghost is_clone = { λ x y. y ≡ x };

    fn clone(&self) -> Result<Self, AllocError> {
        Ok(End {
            error: self.error.clone()?,
        })
    }
}

/// The fields in their order.
type Row = (Option<Error>, ());

impl Composite for End {
    ghost takes = { end_takes };

    ghost fields = { end_fields };

    #[inline(always)]
    fn read_fields<R: Read>(
        alloc: Global,
        de: &mut Deserializer<R>,
    ) -> Result<End, serde_amqp_item::Error> {
        let row_pattern![error] = read_fields_of::<Row, R>(alloc, de)?;
        Ok(End { error })
    }
}

impl Performs for End {
    ghost code = { 0x17 };

    fn into_performative(self) -> Performative {
        Performative::End(self)
    }
}

impl Serialize for End {
    ghost item = { end_item };

    fn is_null(&self) -> bool {
        false
    }

    fn serialize<W: Sink>(&self, s: &mut Serializer<W>) -> Result<(), serde_amqp_item::Error> {
        serialize_record(s, CODE, &row![&self.error])
    }
}

impl Deserialize for End {
    ghost item = { end_item };

    ghost take = { end_taken };

    #[tactic(auto, unfolding(serde_amqp_de::specs::Takes::record_taken))]
    fn absent(_alloc: Global) -> Option<End> {
        None
    }

    fn read<R: Read>(
        alloc: Global,
        de: &mut Deserializer<R>,
    ) -> Result<End, serde_amqp_item::Error> {
        read_composite(alloc, de, CODE, NAME)
    }

    ghost decided = { end_decided };
}

impl RoundTrip for End {
    ghost same = { λ _. refl };

    ghost again = { end_again };
}

impl Faithful for End {
    ghost faithful = { end_same };
}

impl NeverNull for End {
    ghost present = { λ _. refl };
}

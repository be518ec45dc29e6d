//! The close performative (part 2, 2.7.9).
ghost use Rattle.std.specs.Prelude.{◌≡◌, refl};
ghost use Rattle.amqp_session_performatives.specs.Close.{close_fields, close_item, close_takes, close_taken};
ghost use Rattle.amqp_session_performatives.specs.CloseLaws.{close_decided, close_again, close_same};

use crate::composite::{Composite, Performs, read_composite};
use crate::performative::Performative;
use amqp_session_types::definitions::Error;
use serde_amqp_de::{Deserialize, Deserializer, NeverNull, Read};
use serde_amqp_round_trip::{Faithful, RoundTrip};
use serde_amqp_ser::{Serialize, Serializer, Sink, serialize_record};
use serde_amqp_values::read_fields_of;
use std::alloc::{AllocError, Global};

/// Ends a connection (part 2, 2.7.9).
#[derive(Debug, PartialEq, Drop)]
pub struct Close {
    /// Why the connection is closed, where it is closed for an error.
    pub error: Option<Error>,
}

/// The descriptor's code.
pub(crate) const CODE: u64 = 0x18;

/// The descriptor's name.
pub(crate) const NAME: &[u8] = b"amqp:close:list";

impl Clone for Close {
    ghost is_clone = { λ x y. y ≡ x };

    fn clone(&self) -> Result<Self, AllocError> {
        Ok(Close {
            error: self.error.clone()?,
        })
    }
}

/// The fields in their order.
type Row = (Option<Error>, ());

impl Composite for Close {
    ghost takes = { close_takes };

    ghost fields = { close_fields };

    #[inline(always)]
    fn read_fields<R: Read>(
        alloc: Global,
        de: &mut Deserializer<R>,
    ) -> Result<Close, serde_amqp_item::Error> {
        let row_pattern![error] = read_fields_of::<Row, R>(alloc, de)?;
        Ok(Close { error })
    }
}

impl Performs for Close {
    ghost code = { 0x18 };

    fn into_performative(self) -> Performative {
        Performative::Close(self)
    }
}

impl Serialize for Close {
    ghost item = { close_item };

    fn is_null(&self) -> bool {
        false
    }

    fn serialize<W: Sink>(&self, s: &mut Serializer<W>) -> Result<(), serde_amqp_item::Error> {
        serialize_record(s, CODE, &row![&self.error])
    }
}

impl Deserialize for Close {
    ghost item = { close_item };

    ghost take = { close_taken };

    #[tactic(auto, unfolding(serde_amqp_de::specs::Takes::record_taken))]
    fn absent(_alloc: Global) -> Option<Close> {
        None
    }

    fn read<R: Read>(
        alloc: Global,
        de: &mut Deserializer<R>,
    ) -> Result<Close, serde_amqp_item::Error> {
        read_composite(alloc, de, CODE, NAME)
    }

    ghost decided = { close_decided };
}

impl RoundTrip for Close {
    ghost same = { λ _. refl };

    ghost again = { close_again };
}

impl Faithful for Close {
    ghost faithful = { close_same };
}

impl NeverNull for Close {
    ghost present = { λ _. refl };
}

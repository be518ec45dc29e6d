//! The detach performative (part 2, 2.7.7).
ghost use Rattle.std.specs.Prelude.{◌≡◌, refl};
ghost use Rattle.amqp_session_performatives.specs.Detach.{detach_fields, detach_item, detach_takes, detach_taken};
ghost use Rattle.amqp_session_performatives.specs.DetachLaws.{detach_decided, detach_again, detach_same};

use crate::composite::{Composite, Performs, read_composite};
use crate::performative::Performative;
use amqp_session_types::Handle;
use amqp_session_types::definitions::Error;
use serde_amqp_de::{Deserialize, Deserializer, NeverNull, Read};
use serde_amqp_round_trip::{Faithful, RoundTrip};
use serde_amqp_ser::{Serialize, Serializer, Sink, serialize_record};
use serde_amqp_types::BoolOr;
use serde_amqp_values::read_fields_of;
use std::alloc::{AllocError, Global};

/// Detaches a link from its session (part 2, 2.7.7).
#[derive(Debug, PartialEq)]
pub struct Detach {
    /// The link.
    pub handle: Handle,
    /// Whether the sender closes the link for good. False where it is absent.
    pub closed: bool,
    /// Why the link is detached, where it is detached for an error.
    pub error: Option<Error>,
}

impl Drop for Detach {
    fn drop(self) {
        let Detach {
            handle: _,
            closed: _,
            error: _,
        } = self;
    }
}

/// The descriptor's code.
pub(crate) const CODE: u64 = 0x16;

/// The descriptor's name.
pub(crate) const NAME: &[u8] = b"amqp:detach:list";

impl Clone for Detach {
    ghost is_clone = { λ x y. y ≡ x };

    fn clone(&self) -> Result<Self, AllocError> {
        Ok(Detach {
            handle: self.handle,
            closed: self.closed,
            error: self.error.clone()?,
        })
    }
}

/// The fields in their order.
type Row = (Handle, (BoolOr<false>, (Option<Error>, ())));

impl Composite for Detach {
    ghost takes = { detach_takes };

    ghost fields = { detach_fields };

    #[inline(always)]
    fn read_fields<R: Read>(
        alloc: Global,
        de: &mut Deserializer<R>,
    ) -> Result<Detach, serde_amqp_item::Error> {
        let row_pattern![handle, BoolOr(closed), error] = read_fields_of::<Row, R>(alloc, de)?;
        Ok(Detach {
            handle,
            closed,
            error,
        })
    }
}

impl Performs for Detach {
    ghost code = { 0x16 };

    fn into_performative(self) -> Performative {
        Performative::Detach(self)
    }
}

impl Serialize for Detach {
    ghost item = { detach_item };

    fn is_null(&self) -> bool {
        false
    }

    fn serialize<W: Sink>(&self, s: &mut Serializer<W>) -> Result<(), serde_amqp_item::Error> {
        serialize_record(
            s,
            CODE,
            &row![self.handle, BoolOr::<false>(self.closed), &self.error],
        )
    }
}

impl Deserialize for Detach {
    ghost item = { detach_item };

    ghost take = { detach_taken };

    #[tactic(auto, unfolding(serde_amqp_de::specs::Takes::record_taken))]
    fn absent(_alloc: Global) -> Option<Detach> {
        None
    }

    fn read<R: Read>(
        alloc: Global,
        de: &mut Deserializer<R>,
    ) -> Result<Detach, serde_amqp_item::Error> {
        read_composite(alloc, de, CODE, NAME)
    }

    ghost decided = { detach_decided };
}

impl RoundTrip for Detach {
    ghost same = { λ _. refl };

    ghost again = { detach_again };
}

impl Faithful for Detach {
    ghost faithful = { detach_same };
}

impl NeverNull for Detach {
    ghost present = { λ _. refl };
}

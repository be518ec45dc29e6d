//! The disposition performative (part 2, 2.7.6).
ghost use Rattle.std.specs.Prelude.{◌≡◌, refl};
ghost use Rattle.amqp_session_performatives.specs.Disposition.{disposition_fields, disposition_item, disposition_takes};
ghost use Rattle.amqp_session_performatives.specs.Disposition.{disposition_taken};
ghost use Rattle.amqp_session_performatives.specs.DispositionLaws.{disposition_decided, disposition_again};
ghost use Rattle.amqp_session_performatives.specs.DispositionLaws.{disposition_same};

use crate::composite::{Composite, Performs, read_composite};
use crate::performative::Performative;
use amqp_session_states::DeliveryState;
use amqp_session_types::Role;
use serde_amqp_de::{Deserialize, Deserializer, NeverNull, Read};
use serde_amqp_round_trip::{Faithful, RoundTrip};
use serde_amqp_ser::{Serialize, Serializer, Sink, serialize_record};
use serde_amqp_types::BoolOr;
use serde_amqp_values::read_fields_of;
use std::alloc::{AllocError, Global};

/// Tells the state of deliveries with consecutive numbers (part 2, 2.7.6).
#[derive(Debug, PartialEq)]
pub struct Disposition {
    /// Which end of the deliveries' links the sender of this frame is.
    pub role: Role,
    /// The first of the numbers.
    pub first: u32,
    /// The last of the numbers. Where it is absent it is the first.
    pub last: Option<u32>,
    /// Whether the sender of this frame has settled the deliveries. False where it is absent.
    pub settled: bool,
    /// The state of the deliveries at the sender of this frame.
    pub state: Option<DeliveryState>,
    /// Whether the receiver of this frame may put its answer off. False where it is absent.
    pub batchable: bool,
}

impl Drop for Disposition {
    fn drop(self) {
        let Disposition {
            role: _,
            first: _,
            last: _,
            settled: _,
            state: _,
            batchable: _,
        } = self;
    }
}

/// The descriptor's code.
pub(crate) const CODE: u64 = 0x15;

/// The descriptor's name.
pub(crate) const NAME: &[u8] = b"amqp:disposition:list";

impl Clone for Disposition {
    ghost is_clone = { λ x y. y ≡ x };

    #[tactic(auto, using(crate::specs::DispositionLaws::disposition_parts, crate::proofs::Clones::symbols_cloned))]
    fn clone(&self) -> Result<Self, AllocError> {
        Ok(Disposition {
            role: self.role,
            first: self.first,
            last: self.last,
            settled: self.settled,
            state: self.state.clone()?,
            batchable: self.batchable,
        })
    }
}

/// The fields in their order.
type Row = (
    Role,
    (
        u32,
        (
            Option<u32>,
            (BoolOr<false>, (Option<DeliveryState>, (BoolOr<false>, ()))),
        ),
    ),
);

impl Composite for Disposition {
    ghost takes = { disposition_takes };

    ghost fields = { disposition_fields };

    #[inline(always)]
    fn read_fields<R: Read>(
        alloc: Global,
        de: &mut Deserializer<R>,
    ) -> Result<Disposition, serde_amqp_item::Error> {
        let row_pattern![role, first, last, BoolOr(settled), state, BoolOr(batchable)] =
            read_fields_of::<Row, R>(alloc, de)?;
        Ok(Disposition {
            role,
            first,
            last,
            settled,
            state,
            batchable,
        })
    }
}

impl Performs for Disposition {
    ghost code = { 0x15 };

    fn into_performative(self) -> Performative {
        Performative::Disposition(self)
    }
}

impl Serialize for Disposition {
    ghost item = { disposition_item };

    fn is_null(&self) -> bool {
        false
    }

    fn serialize<W: Sink>(&self, s: &mut Serializer<W>) -> Result<(), serde_amqp_item::Error> {
        serialize_record(
            s,
            CODE,
            &row![
                self.role,
                self.first,
                &self.last,
                BoolOr::<false>(self.settled),
                &self.state,
                BoolOr::<false>(self.batchable)
            ],
        )
    }
}

impl Deserialize for Disposition {
    ghost item = { disposition_item };

    ghost take = { disposition_taken };

    #[tactic(auto, unfolding(serde_amqp_de::specs::Takes::record_taken))]
    fn absent(_alloc: Global) -> Option<Disposition> {
        None
    }

    fn read<R: Read>(
        alloc: Global,
        de: &mut Deserializer<R>,
    ) -> Result<Disposition, serde_amqp_item::Error> {
        read_composite(alloc, de, CODE, NAME)
    }

    ghost decided = { disposition_decided };
}

impl RoundTrip for Disposition {
    ghost same = { λ _. refl };

    ghost again = { disposition_again };
}

impl Faithful for Disposition {
    ghost faithful = { disposition_same };
}

impl NeverNull for Disposition {
    ghost present = { λ _. refl };
}

//! The transfer performative (part 2, 2.7.5).
ghost use Rattle.std.specs.Prelude.{◌≡◌, refl};
ghost use Rattle.amqp_session_performatives.specs.Transfer.{transfer_fields, transfer_item, transfer_takes};
ghost use Rattle.amqp_session_performatives.specs.Transfer.{transfer_taken};
ghost use Rattle.amqp_session_performatives.specs.TransferLaws.{transfer_decided, transfer_again, transfer_same};

use crate::composite::{Composite, Performs, read_composite};
use crate::performative::Performative;
use amqp_session_states::DeliveryState;
use amqp_session_types::{DeliveryTag, Handle, ReceiverSettleMode};
use serde_amqp_de::{Deserialize, Deserializer, NeverNull, Read};
use serde_amqp_round_trip::{Faithful, RoundTrip};
use serde_amqp_ser::{Serialize, Serializer, Sink, serialize_record};
use serde_amqp_types::BoolOr;
use serde_amqp_values::read_fields_of;
use std::alloc::{AllocError, Global};

/// Carries a delivery, or a part of it, on a link (part 2, 2.7.5).
#[derive(Debug, PartialEq, Drop)]
pub struct Transfer {
    /// The link.
    pub handle: Handle,
    /// The number of the delivery. A continuation may leave it off.
    pub delivery_id: Option<u32>,
    /// What the link calls the delivery. A continuation may leave it off.
    pub delivery_tag: Option<DeliveryTag>,
    /// How the message is encoded. A continuation may leave it off.
    pub message_format: Option<u32>,
    /// Whether the sender has settled the delivery.
    pub settled: Option<bool>,
    /// Whether a continuation of the delivery follows. False where it is absent.
    pub more: bool,
    /// How the receiver is to settle this delivery. Where it is absent the link's mode says it.
    pub rcv_settle_mode: Option<ReceiverSettleMode>,
    /// The state of the delivery at the sender.
    pub state: Option<DeliveryState>,
    /// Whether it resumes a delivery of an earlier attachment. False where it is absent.
    pub resume: bool,
    /// Whether the sender gives the delivery up. False where it is absent.
    pub aborted: bool,
    /// Whether the receiver may put its answer off. False where it is absent.
    pub batchable: bool,
}

/// The descriptor's code.
pub(crate) const CODE: u64 = 0x14;

/// The descriptor's name.
pub(crate) const NAME: &[u8] = b"amqp:transfer:list";

impl Clone for Transfer {
    ghost is_clone = { λ x y. y ≡ x };

    #[tactic(auto, using(crate::specs::TransferLaws::transfer_parts, crate::proofs::Clones::symbols_cloned))]
    fn clone(&self) -> Result<Self, AllocError> {
        Ok(Transfer {
            handle: self.handle,
            delivery_id: self.delivery_id,
            delivery_tag: self.delivery_tag.clone()?,
            message_format: self.message_format,
            settled: self.settled,
            more: self.more,
            rcv_settle_mode: self.rcv_settle_mode,
            state: self.state.clone()?,
            resume: self.resume,
            aborted: self.aborted,
            batchable: self.batchable,
        })
    }
}

/// The fields in their order.
type Row = (
    Handle,
    (
        Option<u32>,
        (
            Option<DeliveryTag>,
            (
                Option<u32>,
                (
                    Option<bool>,
                    (
                        BoolOr<false>,
                        (
                            Option<ReceiverSettleMode>,
                            (
                                Option<DeliveryState>,
                                (BoolOr<false>, (BoolOr<false>, (BoolOr<false>, ()))),
                            ),
                        ),
                    ),
                ),
            ),
        ),
    ),
);

impl Composite for Transfer {
    ghost takes = { transfer_takes };

    ghost fields = { transfer_fields };

    #[inline(always)]
    fn read_fields<R: Read>(
        alloc: Global,
        de: &mut Deserializer<R>,
    ) -> Result<Transfer, serde_amqp_item::Error> {
        let row_pattern![
            handle,
            delivery_id,
            delivery_tag,
            message_format,
            settled,
            BoolOr(more),
            rcv_settle_mode,
            state,
            BoolOr(resume),
            BoolOr(aborted),
            BoolOr(batchable)
        ] = read_fields_of::<Row, R>(alloc, de)?;
        Ok(Transfer {
            handle,
            delivery_id,
            delivery_tag,
            message_format,
            settled,
            more,
            rcv_settle_mode,
            state,
            resume,
            aborted,
            batchable,
        })
    }
}

impl Performs for Transfer {
    ghost code = { 0x14 };

    fn into_performative(self) -> Performative {
        Performative::Transfer(self)
    }
}

impl Serialize for Transfer {
    ghost item = { transfer_item };

    fn is_null(&self) -> bool {
        false
    }

    fn serialize<W: Sink>(&self, s: &mut Serializer<W>) -> Result<(), serde_amqp_item::Error> {
        serialize_record(
            s,
            CODE,
            &row![
                self.handle,
                &self.delivery_id,
                &self.delivery_tag,
                &self.message_format,
                &self.settled,
                BoolOr::<false>(self.more),
                &self.rcv_settle_mode,
                &self.state,
                BoolOr::<false>(self.resume),
                BoolOr::<false>(self.aborted),
                BoolOr::<false>(self.batchable)
            ],
        )
    }
}

impl Deserialize for Transfer {
    ghost item = { transfer_item };

    ghost take = { transfer_taken };

    #[tactic(auto, unfolding(serde_amqp_de::specs::Takes::record_taken))]
    fn absent(_alloc: Global) -> Option<Transfer> {
        None
    }

    fn read<R: Read>(
        alloc: Global,
        de: &mut Deserializer<R>,
    ) -> Result<Transfer, serde_amqp_item::Error> {
        read_composite(alloc, de, CODE, NAME)
    }

    ghost decided = { transfer_decided };
}

impl RoundTrip for Transfer {
    ghost same = { λ _. refl };

    ghost again = { transfer_again };
}

impl Faithful for Transfer {
    ghost faithful = { transfer_same };
}

impl NeverNull for Transfer {
    ghost present = { λ _. refl };
}

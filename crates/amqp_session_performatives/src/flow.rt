//! The flow performative (part 2, 2.7.4).
ghost use Rattle.std.specs.Prelude.{◌≡◌, refl};
ghost use Rattle.amqp_session_performatives.specs.Flow.{flow_fields, flow_item, flow_takes, flow_taken};
ghost use Rattle.amqp_session_performatives.specs.FlowLaws.{flow_decided, flow_again, flow_same};

use crate::composite::{Composite, Performs, read_composite};
use crate::performative::Performative;
use amqp_session_types::{Aside, Boxed, Fields, Handle};
use serde_amqp_de::{Deserialize, Deserializer, NeverNull, Read};
use serde_amqp_round_trip::{Faithful, RoundTrip};
use serde_amqp_ser::{Serialize, Serializer, Sink, serialize_record};
use serde_amqp_types::BoolOr;
use serde_amqp_values::read_fields_of;
use std::alloc::{AllocError, Global};

/// Tells the state of a session, and of one of its links where it has a handle (part 2, 2.7.4).
#[derive(Debug, PartialEq, Drop)]
pub struct Flow {
    /// The number of the next transfer that the sender awaits. It is absent before the peer's begin came.
    pub next_incoming_id: Option<u32>,
    /// How many transfers the sender takes now.
    pub incoming_window: u32,
    /// The number of the next transfer that the sender will send.
    pub next_outgoing_id: u32,
    /// How many transfers the sender may send.
    pub outgoing_window: u32,
    /// The link whose state it tells. It is absent where it tells that of the session alone.
    pub handle: Option<Handle>,
    /// The delivery count of the link's sending end, as the sender of this frame knows it.
    pub delivery_count: Option<u32>,
    /// How many more deliveries the receiving end takes.
    pub link_credit: Option<u32>,
    /// How many deliveries the sending end has.
    pub available: Option<u32>,
    /// Whether the sending end is to use up its credit. False where it is absent.
    pub drain: bool,
    /// Whether the receiver is to answer with its own state. False where it is absent.
    pub echo: bool,
    /// More about the link's state, by names.
    pub properties: Option<Boxed<Fields>>,
}

/// The descriptor's code.
pub(crate) const CODE: u64 = 0x13;

/// The descriptor's name.
pub(crate) const NAME: &[u8] = b"amqp:flow:list";

impl Clone for Flow {
    ghost is_clone = { λ x y. y ≡ x };

    #[tactic(auto, using(crate::specs::FlowLaws::flow_parts, crate::proofs::Clones::symbols_cloned))]
    fn clone(&self) -> Result<Self, AllocError> {
        Ok(Flow {
            next_incoming_id: self.next_incoming_id,
            incoming_window: self.incoming_window,
            next_outgoing_id: self.next_outgoing_id,
            outgoing_window: self.outgoing_window,
            handle: self.handle,
            delivery_count: self.delivery_count,
            link_credit: self.link_credit,
            available: self.available,
            drain: self.drain,
            echo: self.echo,
            properties: self.properties.clone()?,
        })
    }
}

/// The fields in their order.
type Row = (
    Option<u32>,
    (
        u32,
        (
            u32,
            (
                u32,
                (
                    Option<Handle>,
                    (
                        Option<u32>,
                        (
                            Option<u32>,
                            (
                                Option<u32>,
                                (BoolOr<false>, (BoolOr<false>, (Aside<Fields>, ()))),
                            ),
                        ),
                    ),
                ),
            ),
        ),
    ),
);

impl Composite for Flow {
    ghost takes = { flow_takes };

    ghost fields = { flow_fields };

    #[inline(always)]
    fn read_fields<R: Read>(
        alloc: Global,
        de: &mut Deserializer<R>,
    ) -> Result<Flow, serde_amqp_item::Error> {
        let row_pattern![
            next_incoming_id,
            incoming_window,
            next_outgoing_id,
            outgoing_window,
            handle,
            delivery_count,
            link_credit,
            available,
            BoolOr(drain),
            BoolOr(echo),
            Aside(properties)
        ] = read_fields_of::<Row, R>(alloc, de)?;
        Ok(Flow {
            next_incoming_id,
            incoming_window,
            next_outgoing_id,
            outgoing_window,
            handle,
            delivery_count,
            link_credit,
            available,
            drain,
            echo,
            properties,
        })
    }
}

impl Performs for Flow {
    ghost code = { 0x13 };

    fn into_performative(self) -> Performative {
        Performative::Flow(self)
    }
}

impl Serialize for Flow {
    ghost item = { flow_item };

    fn is_null(&self) -> bool {
        false
    }

    fn serialize<W: Sink>(&self, s: &mut Serializer<W>) -> Result<(), serde_amqp_item::Error> {
        serialize_record(
            s,
            CODE,
            &row![
                &self.next_incoming_id,
                self.incoming_window,
                self.next_outgoing_id,
                self.outgoing_window,
                &self.handle,
                &self.delivery_count,
                &self.link_credit,
                &self.available,
                BoolOr::<false>(self.drain),
                BoolOr::<false>(self.echo),
                &self.properties
            ],
        )
    }
}

impl Deserialize for Flow {
    ghost item = { flow_item };

    ghost take = { flow_taken };

    #[tactic(auto, unfolding(serde_amqp_de::specs::Takes::record_taken))]
    fn absent(_alloc: Global) -> Option<Flow> {
        None
    }

    fn read<R: Read>(
        alloc: Global,
        de: &mut Deserializer<R>,
    ) -> Result<Flow, serde_amqp_item::Error> {
        read_composite(alloc, de, CODE, NAME)
    }

    ghost decided = { flow_decided };
}

impl RoundTrip for Flow {
    ghost same = { λ _. refl };

    ghost again = { flow_again };
}

impl Faithful for Flow {
    ghost faithful = { flow_same };
}

impl NeverNull for Flow {
    ghost present = { λ _. refl };
}

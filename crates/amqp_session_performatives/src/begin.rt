//! The begin performative (part 2, 2.7.2).
ghost use Rattle.std.specs.Prelude.{◌≡◌, refl};
ghost use Rattle.amqp_session_performatives.specs.Begin.{begin_fields, begin_item, begin_takes, begin_taken};
ghost use Rattle.amqp_session_performatives.specs.BeginLaws.{begin_decided, begin_again, begin_same};

use crate::composite::{Composite, Performs, read_composite};
use crate::performative::Performative;
use amqp_session_types::{Aside, Boxed, Fields};
use serde_amqp_de::{Deserialize, Deserializer, NeverNull, Read};
use serde_amqp_round_trip::{Faithful, RoundTrip};
use serde_amqp_ser::{Serialize, Serializer, Sink, serialize_record};
use serde_amqp_types::{Array, Multiple, Symbol, UIntOr};
use serde_amqp_values::read_fields_of;
use std::alloc::{AllocError, Global};

/// Begins a session on a channel (part 2, 2.7.2).
#[derive(Debug, PartialEq)]
pub struct Begin {
    /// The channel of the begin that this one answers. It is absent where it answers none.
    pub remote_channel: Option<u16>,
    /// The number of the next transfer that the sender will send.
    pub next_outgoing_id: u32,
    /// How many transfers the sender takes now.
    pub incoming_window: u32,
    /// How many transfers the sender may send.
    pub outgoing_window: u32,
    /// The highest handle that may be used. 4294967295 where it is absent.
    pub handle_max: u32,
    /// What the sender can do.
    pub offered_capabilities: Array<Symbol>,
    /// What the sender may use if the receiver can do it.
    pub desired_capabilities: Array<Symbol>,
    /// More about the session, by names.
    pub properties: Option<Boxed<Fields>>,
}

impl Drop for Begin {
    fn drop(self) {
        let Begin {
            remote_channel: _,
            next_outgoing_id: _,
            incoming_window: _,
            outgoing_window: _,
            handle_max: _,
            offered_capabilities: _,
            desired_capabilities: _,
            properties: _,
        } = self;
    }
}

/// The descriptor's code.
pub(crate) const CODE: u64 = 0x11;

/// The descriptor's name.
pub(crate) const NAME: &[u8] = b"amqp:begin:list";

impl Clone for Begin {
    ghost is_clone = { λ x y. y ≡ x };

    #[tactic(auto, using(crate::specs::BeginLaws::begin_parts, crate::proofs::Clones::symbols_cloned))]
    fn clone(&self) -> Result<Self, AllocError> {
        Ok(Begin {
            remote_channel: self.remote_channel,
            next_outgoing_id: self.next_outgoing_id,
            incoming_window: self.incoming_window,
            outgoing_window: self.outgoing_window,
            handle_max: self.handle_max,
            offered_capabilities: self.offered_capabilities.clone()?,
            desired_capabilities: self.desired_capabilities.clone()?,
            properties: self.properties.clone()?,
        })
    }
}

/// The fields in their order.
type Row = (
    Option<u16>,
    (
        u32,
        (
            u32,
            (
                u32,
                (
                    UIntOr<4294967295>,
                    (
                        Multiple<Array<Symbol>>,
                        (Multiple<Array<Symbol>>, (Aside<Fields>, ())),
                    ),
                ),
            ),
        ),
    ),
);

impl Composite for Begin {
    ghost takes = { begin_takes };

    ghost fields = { begin_fields };

    #[inline(always)]
    fn read_fields<R: Read>(
        alloc: Global,
        de: &mut Deserializer<R>,
    ) -> Result<Begin, serde_amqp_item::Error> {
        let row_pattern![
            remote_channel,
            next_outgoing_id,
            incoming_window,
            outgoing_window,
            UIntOr(handle_max),
            Multiple(offered_capabilities),
            Multiple(desired_capabilities),
            Aside(properties)
        ] = read_fields_of::<Row, R>(alloc, de)?;
        Ok(Begin {
            remote_channel,
            next_outgoing_id,
            incoming_window,
            outgoing_window,
            handle_max,
            offered_capabilities,
            desired_capabilities,
            properties,
        })
    }
}

impl Performs for Begin {
    ghost code = { 0x11 };

    fn into_performative(self) -> Performative {
        Performative::Begin(self)
    }
}

impl Serialize for Begin {
    ghost item = { begin_item };

    fn is_null(&self) -> bool {
        false
    }

    fn serialize<W: Sink>(&self, s: &mut Serializer<W>) -> Result<(), serde_amqp_item::Error> {
        serialize_record(
            s,
            CODE,
            &row![
                &self.remote_channel,
                self.next_outgoing_id,
                self.incoming_window,
                self.outgoing_window,
                UIntOr::<4294967295>(self.handle_max),
                Multiple(&self.offered_capabilities),
                Multiple(&self.desired_capabilities),
                &self.properties
            ],
        )
    }
}

impl Deserialize for Begin {
    ghost item = { begin_item };

    ghost take = { begin_taken };

    #[tactic(auto, unfolding(serde_amqp_de::specs::Takes::record_taken))]
    fn absent(_alloc: Global) -> Option<Begin> {
        None
    }

    fn read<R: Read>(
        alloc: Global,
        de: &mut Deserializer<R>,
    ) -> Result<Begin, serde_amqp_item::Error> {
        read_composite(alloc, de, CODE, NAME)
    }

    ghost decided = { begin_decided };
}

impl RoundTrip for Begin {
    ghost same = { λ _. refl };

    ghost again = { begin_again };
}

impl Faithful for Begin {
    ghost faithful = { begin_same };
}

impl NeverNull for Begin {
    ghost present = { λ _. refl };
}

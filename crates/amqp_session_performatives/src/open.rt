//! The open performative (part 2, 2.7.1).
ghost use Rattle.std.specs.Prelude.{◌≡◌, IfOk, refl};
ghost use Rattle.amqp_session_performatives.specs.Open.{open_fields, open_item, open_takes, open_taken};
ghost use Rattle.amqp_session_performatives.specs.OpenLaws.{open_decided, open_again, open_same};

use crate::composite::{Composite, Performs, read_composite};
use crate::performative::Performative;
use amqp_session_types::{Aside, Boxed, Fields};
use serde_amqp_de::{Deserialize, Deserializer, NeverNull, Read};
use serde_amqp_round_trip::{Faithful, RoundTrip};
use serde_amqp_ser::{Serialize, Serializer, Sink, serialize_record};
use serde_amqp_types::{Array, Multiple, Symbol, Text, UIntOr, UShortOr};
use serde_amqp_values::read_fields_of;
use std::alloc::{AllocError, Global};

/// Begins a connection (part 2, 2.7.1).
#[derive(Debug, PartialEq, Drop)]
pub struct Open {
    /// The name of the container that sends it.
    pub container_id: Text,
    /// The host that the sender wants to reach.
    pub hostname: Option<Text>,
    /// The size of the largest frame that the sender takes, in bytes. 4294967295 where it is absent.
    pub max_frame_size: u32,
    /// The highest channel that may be used. 65535 where it is absent.
    pub channel_max: u16,
    /// After how many milliseconds without a frame the sender closes the connection.
    pub idle_time_out: Option<u32>,
    /// The locales in which the sender writes texts.
    pub outgoing_locales: Array<Symbol>,
    /// The locales in which the sender wants texts.
    pub incoming_locales: Array<Symbol>,
    /// What the sender can do.
    pub offered_capabilities: Array<Symbol>,
    /// What the sender may use if the receiver can do it.
    pub desired_capabilities: Array<Symbol>,
    /// More about the connection and its container, by names.
    pub properties: Option<Boxed<Fields>>,
}

/// The descriptor's code.
pub(crate) const CODE: u64 = 0x10;

/// The descriptor's name.
pub(crate) const NAME: &[u8] = b"amqp:open:list";

impl Clone for Open {
    ghost is_clone = { λ x y. y ≡ x };

    fn clone(&self) -> Result<Self, AllocError> {
        let (outgoing_locales, incoming_locales) = self.clone_locales()?;
        let (offered_capabilities, desired_capabilities) = self.clone_capabilities()?;
        Ok(Open {
            container_id: self.container_id.clone()?,
            hostname: self.hostname.clone()?,
            max_frame_size: self.max_frame_size,
            channel_max: self.channel_max,
            idle_time_out: self.idle_time_out,
            outgoing_locales,
            incoming_locales,
            offered_capabilities,
            desired_capabilities,
            properties: self.properties.clone()?,
        })
    }
}

impl Open {
    /// Clones of the locales.
    #[tactic(auto, using(crate::proofs::Clones::symbols_cloned))]
    fn clone_locales(&self) -> Result<(Array<Symbol>, Array<Symbol>), AllocError>
        ensures { IfOk result (λ c. (c.0 ≡ self.now.outgoing_locales)
            × (c.1 ≡ self.now.incoming_locales)) }
    {
        Ok((
            self.outgoing_locales.clone()?,
            self.incoming_locales.clone()?,
        ))
    }

    /// Clones of the capabilities.
    #[tactic(auto, using(crate::proofs::Clones::symbols_cloned))]
    fn clone_capabilities(&self) -> Result<(Array<Symbol>, Array<Symbol>), AllocError>
        ensures { IfOk result (λ c. (c.0 ≡ self.now.offered_capabilities)
            × (c.1 ≡ self.now.desired_capabilities)) }
    {
        Ok((
            self.offered_capabilities.clone()?,
            self.desired_capabilities.clone()?,
        ))
    }
}

/// The fields in their order.
type Row = (
    Text,
    (
        Option<Text>,
        (
            UIntOr<4294967295>,
            (
                UShortOr<65535>,
                (
                    Option<u32>,
                    (
                        Multiple<Array<Symbol>>,
                        (
                            Multiple<Array<Symbol>>,
                            (
                                Multiple<Array<Symbol>>,
                                (Multiple<Array<Symbol>>, (Aside<Fields>, ())),
                            ),
                        ),
                    ),
                ),
            ),
        ),
    ),
);

impl Composite for Open {
    ghost takes = { open_takes };

    ghost fields = { open_fields };

    #[inline(always)]
    fn read_fields<R: Read>(
        alloc: Global,
        de: &mut Deserializer<R>,
    ) -> Result<Open, serde_amqp_item::Error> {
        let row_pattern![
            container_id,
            hostname,
            UIntOr(max_frame_size),
            UShortOr(channel_max),
            idle_time_out,
            Multiple(outgoing_locales),
            Multiple(incoming_locales),
            Multiple(offered_capabilities),
            Multiple(desired_capabilities),
            Aside(properties)
        ] = read_fields_of::<Row, R>(alloc, de)?;
        Ok(Open {
            container_id,
            hostname,
            max_frame_size,
            channel_max,
            idle_time_out,
            outgoing_locales,
            incoming_locales,
            offered_capabilities,
            desired_capabilities,
            properties,
        })
    }
}

impl Performs for Open {
    ghost code = { 0x10 };

    fn into_performative(self) -> Performative {
        Performative::Open(self)
    }
}

impl Serialize for Open {
    ghost item = { open_item };

    fn is_null(&self) -> bool {
        false
    }

    fn serialize<W: Sink>(&self, s: &mut Serializer<W>) -> Result<(), serde_amqp_item::Error> {
        serialize_record(
            s,
            CODE,
            &row![
                &self.container_id,
                &self.hostname,
                UIntOr::<4294967295>(self.max_frame_size),
                UShortOr::<65535>(self.channel_max),
                &self.idle_time_out,
                Multiple(&self.outgoing_locales),
                Multiple(&self.incoming_locales),
                Multiple(&self.offered_capabilities),
                Multiple(&self.desired_capabilities),
                &self.properties
            ],
        )
    }
}

impl Deserialize for Open {
    ghost item = { open_item };

    ghost take = { open_taken };

    #[tactic(auto, unfolding(serde_amqp_de::specs::Takes::record_taken))]
    fn absent(_alloc: Global) -> Option<Open> {
        None
    }

    fn read<R: Read>(
        alloc: Global,
        de: &mut Deserializer<R>,
    ) -> Result<Open, serde_amqp_item::Error> {
        read_composite(alloc, de, CODE, NAME)
    }

    ghost decided = { open_decided };
}

impl RoundTrip for Open {
    ghost same = { λ _. refl };

    ghost again = { open_again };
}

impl Faithful for Open {
    ghost faithful = { open_same };
}

impl NeverNull for Open {
    ghost present = { λ _. refl };
}

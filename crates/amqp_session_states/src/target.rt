//! The target of a link (part 3, 3.5.4).
ghost use Rattle.std.specs.Prelude.{◌≡◌, ◌∷◌, [], refl};
ghost use Rattle.serde_amqp_item.specs.Item.{scalar, string};
ghost use Rattle.serde_amqp_item.specs.Record.{record_item};
ghost use Rattle.amqp_session_states.specs.Target.{target_item, target_of, target_taken};
ghost use Rattle.amqp_session_states.specs.TargetLaws.{target_again, target_decided, target_same};

use crate::terminus::{TerminusDurability, TerminusExpiryPolicy};
use amqp_session_types::OrDefault;
use amqp_session_types::definitions::{Fields as Properties, Seconds};
use serde_amqp_de::{Deserialize, Deserializer, NeverNull, Read, read_record};
use serde_amqp_item::Error;
use serde_amqp_round_trip::{Faithful, RoundTrip};
use serde_amqp_ser::{Serialize, Serializer, Sink, serialize_record};
use serde_amqp_types::{Array, BoolOr, Multiple, Symbol, Text, UIntOr};
use std::alloc::{AllocError, Global};

/// Where a link's messages go (part 3, 3.5.4).
#[derive(Debug, PartialEq, Eq)]
pub struct Target {
    /// The address of the node.
    pub address: Option<Text>,
    /// What of the target outlasts a loss of the connection. Nothing where it is absent.
    pub durable: TerminusDurability,
    /// When the target expires. With its session where it is absent.
    pub expiry_policy: TerminusExpiryPolicy,
    /// How many seconds the target stays after that. None where it is absent.
    pub timeout: Seconds,
    /// Whether the receiver is asked to make the node. Not where it is absent.
    pub dynamic: bool,
    /// What the node is to be like that is made.
    pub dynamic_node_properties: Option<Properties>,
    /// What the sender wants or can use.
    pub capabilities: Array<Symbol>,
}

impl Drop for Target {
    fn drop(self) {
        let Target {
            address: _,
            durable: _,
            expiry_policy: _,
            timeout: _,
            dynamic: _,
            dynamic_node_properties: _,
            capabilities: _,
        } = self;
    }
}

/// The descriptor's code.
const CODE: u64 = 0x29;

/// The descriptor's name.
const NAME: &[u8] = b"amqp:target:list";

/// The fields in their order.
type Fields = (
    Option<Text>,
    (
        OrDefault<TerminusDurability>,
        (
            OrDefault<TerminusExpiryPolicy>,
            (
                UIntOr<0>,
                (
                    BoolOr<false>,
                    (Option<Properties>, (Multiple<Array<Symbol>>, ())),
                ),
            ),
        ),
    ),
);

impl Target {
    /// The target with this address. All else is as the standard has it where a field is absent (part 3, 3.5.4): nothing
    /// of it is durable, it expires with its session and at once, and the address is the peer's, not to be made.
    pub fn of(address: Text) -> Self
        ensures value { result ≡ target_of address }
        ensures absent { target_item result ≡ record_item 0x29 (scalar (string address) ∷ []) }
    {
        let text = address.into_inner();
        let alloc = *text.allocator();
        Target {
            address: Some(Text::new(text)),
            durable: TerminusDurability::None,
            expiry_policy: TerminusExpiryPolicy::SessionEnd,
            timeout: 0,
            dynamic: false,
            dynamic_node_properties: None,
            capabilities: Array::new(alloc),
        }
    }
}

impl Clone for Target {
    ghost is_clone = { λ x y. y ≡ x };

    fn clone(&self) -> Result<Self, AllocError> {
        Ok(Target {
            address: self.address.clone()?,
            durable: self.durable,
            expiry_policy: self.expiry_policy,
            timeout: self.timeout,
            dynamic: self.dynamic,
            dynamic_node_properties: self.dynamic_node_properties.clone()?,
            capabilities: self.capabilities.clone()?,
        })
    }
}

impl Serialize for Target {
    ghost item = { target_item };

    fn is_null(&self) -> bool {
        false
    }

    fn serialize<W: Sink>(&self, s: &mut Serializer<W>) -> Result<(), Error> {
        serialize_record(
            s,
            CODE,
            &(
                &self.address,
                (
                    OrDefault(self.durable),
                    (
                        OrDefault(self.expiry_policy),
                        (
                            UIntOr::<0>(self.timeout),
                            (
                                BoolOr::<false>(self.dynamic),
                                (
                                    &self.dynamic_node_properties,
                                    (Multiple(&self.capabilities), ()),
                                ),
                            ),
                        ),
                    ),
                ),
            ),
        )
    }
}

impl Deserialize for Target {
    ghost item = { target_item };

    ghost take = { target_taken };

    #[tactic(auto, unfolding(serde_amqp_de::specs::Takes::record_taken))]
    fn absent(_alloc: Global) -> Option<Target> {
        None
    }

    fn read<R: Read>(alloc: Global, de: &mut Deserializer<R>) -> Result<Target, Error> {
        let (
            address,
            (
                OrDefault(durable),
                (
                    OrDefault(expiry_policy),
                    (
                        UIntOr(timeout),
                        (BoolOr(dynamic), (dynamic_node_properties, (Multiple(capabilities), ()))),
                    ),
                ),
            ),
        ) = read_record::<Fields, R>(alloc, de, CODE, NAME)?;
        Ok(Target {
            address,
            durable,
            expiry_policy,
            timeout,
            dynamic,
            dynamic_node_properties,
            capabilities,
        })
    }

    ghost decided = { target_decided };
}

impl RoundTrip for Target {
    ghost same = { λ _. refl };

    ghost again = { target_again };
}

impl Faithful for Target {
    ghost faithful = { target_same };
}

impl NeverNull for Target {
    ghost present = { λ _. refl };
}

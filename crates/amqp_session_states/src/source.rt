//! The source of a link (part 3, 3.5.3).
ghost use Rattle.std.specs.Prelude.{◌≡◌, ◌∷◌, [], IfOk, refl};
ghost use Rattle.serde_amqp_item.specs.Item.{scalar, string};
ghost use Rattle.serde_amqp_item.specs.Record.{record_item};
ghost use Rattle.amqp_session_states.specs.Source.{source_item, source_of, source_taken};
ghost use Rattle.amqp_session_states.specs.SourceLaws.{source_again, source_decided, source_same};

use crate::outcome::Outcome;
use crate::terminus::{DistributionMode, TerminusDurability, TerminusExpiryPolicy};
use amqp_session_types::OrDefault;
use amqp_session_types::definitions::{Fields as Properties, FilterSet, Seconds};
use serde_amqp_de::{Deserialize, Deserializer, NeverNull, Read, read_record};
use serde_amqp_item::Error;
use serde_amqp_round_trip::{Faithful, RoundTrip};
use serde_amqp_ser::{Serialize, Serializer, Sink, serialize_record};
use serde_amqp_types::{Array, BoolOr, Multiple, Symbol, Text, UIntOr};
use std::alloc::{AllocError, Global};

/// Where a link's messages come from (part 3, 3.5.3).
#[derive(Debug, PartialEq, Eq)]
pub struct Source {
    /// The address of the node.
    pub address: Option<Text>,
    /// What of the source outlasts a loss of the connection. Nothing where it is absent.
    pub durable: TerminusDurability,
    /// When the source expires. With its session where it is absent.
    pub expiry_policy: TerminusExpiryPolicy,
    /// How many seconds the source stays after that. None where it is absent.
    pub timeout: Seconds,
    /// Whether the sender is asked to make the node. Not where it is absent.
    pub dynamic: bool,
    /// What the node is to be like that is made.
    pub dynamic_node_properties: Option<Properties>,
    /// Whether the messages are moved from the node or copied.
    pub distribution_mode: Option<DistributionMode>,
    /// Which messages are wanted.
    pub filter: Option<FilterSet>,
    /// The outcome of deliveries that are settled without one.
    pub default_outcome: Option<Outcome>,
    /// The descriptors of the outcomes that may be chosen.
    pub outcomes: Array<Symbol>,
    /// What the receiver wants or can use.
    pub capabilities: Array<Symbol>,
}

impl Drop for Source {
    fn drop(self) {
        let Source {
            address: _,
            durable: _,
            expiry_policy: _,
            timeout: _,
            dynamic: _,
            dynamic_node_properties: _,
            distribution_mode: _,
            filter: _,
            default_outcome: _,
            outcomes: _,
            capabilities: _,
        } = self;
    }
}

/// The descriptor's code.
const CODE: u64 = 0x28;

/// The descriptor's name.
const NAME: &[u8] = b"amqp:source:list";

/// The fields in their order.
type Fields = (
    Option<Text>,
    (
        OrDefault<TerminusDurability>,
        (
            OrDefault<TerminusExpiryPolicy>,
            (
                UIntOr<0>,
                (BoolOr<false>, (Option<Properties>, LaterFields)),
            ),
        ),
    ),
);

/// The fields behind the first six.
type LaterFields = (
    Option<DistributionMode>,
    (
        Option<FilterSet>,
        (
            Option<Outcome>,
            (Multiple<Array<Symbol>>, (Multiple<Array<Symbol>>, ())),
        ),
    ),
);

impl Clone for Source {
    ghost is_clone = { λ x y. y ≡ x };

    fn clone(&self) -> Result<Self, AllocError> {
        let (outcomes, capabilities) = self.clone_symbols()?;
        let (address, dynamic_node_properties) = self.clone_node()?;
        let (filter, default_outcome) = self.clone_choice()?;
        Ok(Source {
            address,
            durable: self.durable,
            expiry_policy: self.expiry_policy,
            timeout: self.timeout,
            dynamic: self.dynamic,
            dynamic_node_properties,
            distribution_mode: self.distribution_mode,
            filter,
            default_outcome,
            outcomes,
            capabilities,
        })
    }
}

impl Source {
    /// The source with this address. All else is as the standard has it where a field is absent (part 3, 3.5.3): nothing
    /// of it is durable, it expires with its session and at once, and the address is the peer's, not to be made.
    pub fn of(address: Text) -> Self
        ensures value { result ≡ source_of address }
        ensures absent { source_item result ≡ record_item 0x28 (scalar (string address) ∷ []) }
    {
        let text = address.into_inner();
        let alloc = *text.allocator();
        Source {
            address: Some(Text::new(text)),
            durable: TerminusDurability::None,
            expiry_policy: TerminusExpiryPolicy::SessionEnd,
            timeout: 0,
            dynamic: false,
            dynamic_node_properties: None,
            distribution_mode: None,
            filter: None,
            default_outcome: None,
            outcomes: Array::new(alloc),
            capabilities: Array::new(alloc),
        }
    }

    /// Clones of the address and of what the node is to be like.
    #[tactic(auto, using(amqp_session_types::proofs::Clones::clones))]
    fn clone_node(&self) -> Result<(Option<Text>, Option<Properties>), AllocError>
        ensures { IfOk result (λ c. (c.0 ≡ self.now.address)
            × (c.1 ≡ self.now.dynamic_node_properties)) }
    {
        Ok((self.address.clone()?, self.dynamic_node_properties.clone()?))
    }

    /// Clones of what says which messages are wanted, and of the outcome of those that are settled without one.
    #[tactic(auto, using(amqp_session_types::proofs::Clones::clones))]
    fn clone_choice(&self) -> Result<(Option<FilterSet>, Option<Outcome>), AllocError>
        ensures { IfOk result (λ c. (c.0 ≡ self.now.filter) × (c.1 ≡ self.now.default_outcome)) }
    {
        Ok((self.filter.clone()?, self.default_outcome.clone()?))
    }

    /// Clones of the outcomes that may be chosen and of the capabilities.
    #[tactic(auto, using(amqp_session_types::proofs::Clones::clones))]
    fn clone_symbols(&self) -> Result<(Array<Symbol>, Array<Symbol>), AllocError>
        ensures { IfOk result (λ c. (c.0 ≡ self.now.outcomes) × (c.1 ≡ self.now.capabilities)) }
    {
        Ok((self.outcomes.clone()?, self.capabilities.clone()?))
    }
}

impl Serialize for Source {
    ghost item = { source_item };

    fn is_null(&self) -> bool {
        false
    }

    fn serialize<W: Sink>(&self, s: &mut Serializer<W>) -> Result<(), Error> {
        serialize_record(
            s,
            CODE,
            &(
                &self.address,
                (
                    OrDefault(self.durable),
                    (
                        OrDefault(self.expiry_policy),
                        (
                            UIntOr::<0>(self.timeout),
                            (
                                BoolOr::<false>(self.dynamic),
                                (
                                    &self.dynamic_node_properties,
                                    (
                                        &self.distribution_mode,
                                        (
                                            &self.filter,
                                            (
                                                &self.default_outcome,
                                                (
                                                    Multiple(&self.outcomes),
                                                    (Multiple(&self.capabilities), ()),
                                                ),
                                            ),
                                        ),
                                    ),
                                ),
                            ),
                        ),
                    ),
                ),
            ),
        )
    }
}

impl Deserialize for Source {
    ghost item = { source_item };

    ghost take = { source_taken };

    #[tactic(auto, unfolding(serde_amqp_de::specs::Takes::record_taken))]
    fn absent(_alloc: Global) -> Option<Source> {
        None
    }

    fn read<R: Read>(alloc: Global, de: &mut Deserializer<R>) -> Result<Source, Error> {
        let (
            address,
            (
                OrDefault(durable),
                (
                    OrDefault(expiry_policy),
                    (
                        UIntOr(timeout),
                        (
                            BoolOr(dynamic),
                            (
                                dynamic_node_properties,
                                (
                                    distribution_mode,
                                    (
                                        filter,
                                        (
                                            default_outcome,
                                            (Multiple(outcomes), (Multiple(capabilities), ())),
                                        ),
                                    ),
                                ),
                            ),
                        ),
                    ),
                ),
            ),
        ) = read_record::<Fields, R>(alloc, de, CODE, NAME)?;
        Ok(Source {
            address,
            durable,
            expiry_policy,
            timeout,
            dynamic,
            dynamic_node_properties,
            distribution_mode,
            filter,
            default_outcome,
            outcomes,
            capabilities,
        })
    }

    ghost decided = { source_decided };
}

impl RoundTrip for Source {
    ghost same = { λ _. refl };

    ghost again = { source_again };
}

impl Faithful for Source {
    ghost faithful = { source_same };
}

impl NeverNull for Source {
    ghost present = { λ _. refl };
}

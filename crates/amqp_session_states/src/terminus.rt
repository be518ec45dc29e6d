//! What a source or a target is asked to be (part 3, 3.5.5 to 3.5.7).
ghost use Rattle.std.specs.Prelude.{◌≡◌, Option, Some, None, MatchOption, refl};
ghost use Rattle.serde_amqp_de.specs.Deciding.{symbol_decided, uint_decided};
ghost use Rattle.serde_amqp_de.specs.Takes.{symbol_taken, uint_taken, is_uint};
ghost use Rattle.amqp_session_types.specs.Limits.{is_uint_upto, is_symbol_among, is_symbol_of};
ghost use Rattle.amqp_session_types.specs.LimitLaws.{limited_decided};
ghost use Rattle.amqp_session_states.specs.Terminus.{durability_item, durability_taken, expiry_policy_name};
ghost use Rattle.amqp_session_states.specs.Terminus.{expiry_policy_names, expiry_policy_item, expiry_policy_taken};
ghost use Rattle.amqp_session_states.specs.Terminus.{session_end_name, distribution_mode_name, distribution_mode_names};
ghost use Rattle.amqp_session_states.specs.Terminus.{distribution_mode_item, distribution_mode_taken};
ghost use Rattle.amqp_session_states.specs.TerminusLaws.{durability_again, durability_same, durability_present};
ghost use Rattle.amqp_session_states.specs.TerminusLaws.{durability_one, expiry_policy_again, expiry_policy_same};
ghost use Rattle.amqp_session_states.specs.TerminusLaws.{expiry_policy_one, distribution_mode_again};
ghost use Rattle.amqp_session_states.specs.TerminusLaws.{distribution_mode_same};

use amqp_session_types::HasDefault;
use serde_amqp_de::{Deserialize, Deserializer, NeverNull, Read};
use serde_amqp_item::Error;
use serde_amqp_round_trip::{Faithful, RoundTrip};
use serde_amqp_ser::{Serialize, Serializer, Sink};
use serde_amqp_types::Symbol;
use std::alloc::Global;

/// What of a source or a target outlasts a loss of the connection (part 3, 3.5.5).
#[derive(Debug, Clone, Copy, PartialEq, Eq)]
pub enum TerminusDurability {
    /// Nothing. This is the default.
    None,
    /// That it exists, and how it is configured.
    Configuration,
    /// That, and its unsettled deliveries.
    UnsettledState,
}

/// When a source or a target expires (part 3, 3.5.6).
#[derive(Debug, Clone, Copy, PartialEq, Eq)]
pub enum TerminusExpiryPolicy {
    /// When its link is detached.
    LinkDetach,
    /// When its session ends. This is the default.
    SessionEnd,
    /// When its connection closes.
    ConnectionClose,
    /// Never.
    Never,
}

/// How a source gives its messages to its links (part 3, 3.5.7).
#[derive(Debug, Clone, Copy, PartialEq, Eq)]
pub enum DistributionMode {
    /// A message that was given to a link is given to no other one.
    Move,
    /// Each link is given each message.
    Copy,
}

/// A uint: 0 for none, 1 for the configuration, 2 for the unsettled state.
impl Serialize for TerminusDurability {
    ghost item = { durability_item };

    fn is_null(&self) -> bool {
        false
    }

    fn serialize<W: Sink>(&self, s: &mut Serializer<W>) -> Result<(), Error> {
        match self {
            TerminusDurability::None => s.serialize_u32(0),
            TerminusDurability::Configuration => s.serialize_u32(1),
            TerminusDurability::UnsettledState => s.serialize_u32(2),
        }
    }
}

/// A uint above 2 answers `InvalidValue`.
impl Deserialize for TerminusDurability {
    ghost item = { durability_item };

    ghost take = { durability_taken };

    #[tactic(auto, unfolding(amqp_session_types::specs::Limits::limited))]
    fn absent(_alloc: Global) -> Option<TerminusDurability> {
        None
    }

    #[tactic(auto, using(amqp_session_types::proofs::Limiting::uints))]
    fn read<R: Read>(alloc: Global, de: &mut Deserializer<R>) -> Result<TerminusDurability, Error> {
        match u32::read(alloc, de)? {
            0 => Ok(TerminusDurability::None),
            1 => Ok(TerminusDurability::Configuration),
            2 => Ok(TerminusDurability::UnsettledState),
            _ => Err(Error::InvalidValue),
        }
    }

    ghost decided = { limited_decided (is_uint_upto 2) uint_taken uint_decided };
}

impl RoundTrip for TerminusDurability {
    ghost same = { λ _. refl };

    ghost again = { durability_again };
}

impl Faithful for TerminusDurability {
    ghost faithful = { durability_same };
}

impl NeverNull for TerminusDurability {
    ghost present = { durability_present };
}

/// None.
impl HasDefault for TerminusDurability {
    ghost is_default_item = { is_uint 0 };

    fn default_value() -> TerminusDurability {
        TerminusDurability::None
    }

    fn is_default(&self) -> bool {
        matches!(self, TerminusDurability::None)
    }

    ghost one_default = { durability_one };
}

impl TerminusExpiryPolicy {
    /// The symbol that stands for it.
    pub fn name(self) -> &'static str
        ensures { result.now ≡ expiry_policy_name self }
    {
        match self {
            TerminusExpiryPolicy::LinkDetach => "link-detach",
            TerminusExpiryPolicy::SessionEnd => "session-end",
            TerminusExpiryPolicy::ConnectionClose => "connection-close",
            TerminusExpiryPolicy::Never => "never",
        }
    }
}

/// A symbol: link-detach, session-end, connection-close or never.
impl Serialize for TerminusExpiryPolicy {
    ghost item = { expiry_policy_item };

    fn is_null(&self) -> bool {
        false
    }

    fn serialize<W: Sink>(&self, s: &mut Serializer<W>) -> Result<(), Error> {
        s.symbol(self.name())
    }
}

/// Any other symbol answers `InvalidValue`.
impl Deserialize for TerminusExpiryPolicy {
    ghost item = { expiry_policy_item };

    ghost take = { expiry_policy_taken };

    #[tactic(auto, unfolding(amqp_session_types::specs::Limits::limited))]
    fn absent(_alloc: Global) -> Option<TerminusExpiryPolicy> {
        None
    }

    #[tactic(auto, using(amqp_session_types::proofs::Limiting::symbols))]
    fn read<R: Read>(
        alloc: Global,
        de: &mut Deserializer<R>,
    ) -> Result<TerminusExpiryPolicy, Error> {
        let name = Symbol::read(alloc, de)?;
        match name.as_str() {
            "link-detach" => Ok(TerminusExpiryPolicy::LinkDetach),
            "session-end" => Ok(TerminusExpiryPolicy::SessionEnd),
            "connection-close" => Ok(TerminusExpiryPolicy::ConnectionClose),
            "never" => Ok(TerminusExpiryPolicy::Never),
            _ => Err(Error::InvalidValue),
        }
    }

    ghost decided = { limited_decided (is_symbol_among expiry_policy_names) symbol_taken symbol_decided };
}

impl RoundTrip for TerminusExpiryPolicy {
    ghost same = { λ _. refl };

    ghost again = { expiry_policy_again };
}

impl Faithful for TerminusExpiryPolicy {
    ghost faithful = { expiry_policy_same };
}

impl NeverNull for TerminusExpiryPolicy {
    ghost present = { λ _. refl };
}

/// The end of the session.
impl HasDefault for TerminusExpiryPolicy {
    ghost is_default_item = { is_symbol_of session_end_name };

    fn default_value() -> TerminusExpiryPolicy {
        TerminusExpiryPolicy::SessionEnd
    }

    fn is_default(&self) -> bool {
        matches!(self, TerminusExpiryPolicy::SessionEnd)
    }

    ghost one_default = { expiry_policy_one };
}

impl DistributionMode {
    /// The symbol that stands for it.
    pub fn name(self) -> &'static str
        ensures { result.now ≡ distribution_mode_name self }
    {
        match self {
            DistributionMode::Move => "move",
            DistributionMode::Copy => "copy",
        }
    }
}

/// A symbol: move or copy.
impl Serialize for DistributionMode {
    ghost item = { distribution_mode_item };

    fn is_null(&self) -> bool {
        false
    }

    fn serialize<W: Sink>(&self, s: &mut Serializer<W>) -> Result<(), Error> {
        s.symbol(self.name())
    }
}

/// Any other symbol answers `InvalidValue`.
impl Deserialize for DistributionMode {
    ghost item = { distribution_mode_item };

    ghost take = { distribution_mode_taken };

    #[tactic(auto, unfolding(amqp_session_types::specs::Limits::limited))]
    fn absent(_alloc: Global) -> Option<DistributionMode> {
        None
    }

    #[tactic(auto, using(amqp_session_types::proofs::Limiting::symbols))]
    fn read<R: Read>(alloc: Global, de: &mut Deserializer<R>) -> Result<DistributionMode, Error> {
        let name = Symbol::read(alloc, de)?;
        match name.as_str() {
            "move" => Ok(DistributionMode::Move),
            "copy" => Ok(DistributionMode::Copy),
            _ => Err(Error::InvalidValue),
        }
    }

    ghost decided = { limited_decided (is_symbol_among distribution_mode_names) symbol_taken symbol_decided };
}

impl RoundTrip for DistributionMode {
    ghost same = { λ _. refl };

    ghost again = { distribution_mode_again };
}

impl Faithful for DistributionMode {
    ghost faithful = { distribution_mode_same };
}

impl NeverNull for DistributionMode {
    ghost present = { λ _. refl };
}

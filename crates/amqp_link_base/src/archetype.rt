//! What stands as a link's target, and what that of a peer's Attach is refused for (part 2, 2.7.3; part 3, 3.5.4).
ghost use Rattle.std.specs.Prelude.{◌≡◌, List, Bool, false, Option, Some};
ghost use Rattle.std.specs.Borrow.{sem, Lends};
ghost use Rattle.serde_amqp_types.specs.contracts.array.Array.{the_row as array_row};
ghost use Rattle.amqp_link_types.specs.declared.attaching.SenderAttachError.{SenderAttachError};
ghost use Rattle.amqp_link_types.specs.declared.attaching.ReceiverAttachError.{ReceiverAttachError};
ghost use Rattle.amqp_link_base.specs.Tests.{FirstOf};
ghost use Rattle.amqp_link_base.specs.Target.{sender_target_tests, receiver_target_tests, sender_archetype_tests};
ghost use Rattle.amqp_link_base.specs.Target.{receiver_archetype_tests, is_coordinator, dynamic_of};

use amqp_link_types::{ReceiverAttachError, SenderAttachError};
use amqp_session_states::{Target, TargetArchetype};
use serde_amqp_types::{Array, Symbol};

/// What stands as a target and can be compared with the peer's.
pub trait VerifyTargetArchetype {
    /// The tests of a sender, of the own target and the receiver's.
    ghost sender_tests: { Self → Self → List (Bool × SenderAttachError) };

    /// The tests of a receiver, of the own target and the sender's.
    ghost receiver_tests: { Self → Self → List (Bool × ReceiverAttachError) };

    /// What a sender answers to the target of the receiver's Attach: the error of the first test that applies.
    fn verify_as_sender(&self, other: &Self) -> Result<(), SenderAttachError>
        ensures { FirstOf (sender_tests self.now other.now) result };

    /// What a receiver answers to the target of the sender's Attach: the error of the first test that applies.
    fn verify_as_receiver(&self, other: &Self) -> Result<(), ReceiverAttachError>
        ensures { FirstOf (receiver_tests self.now other.now) result };
}

/// A sender refuses a target that the receiver made and that has no address. A receiver refuses one that it is asked to
/// make and that has an address already. Both refuse properties of a node that isn't to be made.
impl VerifyTargetArchetype for Target {
    ghost sender_tests = { λ own peer. sender_target_tests peer };

    ghost receiver_tests = { λ own peer. receiver_target_tests peer };

    fn verify_as_sender(&self, other: &Self) -> Result<(), SenderAttachError> {
        if other.dynamic {
            if other.address.is_none() {
                return Err(SenderAttachError::TargetAddressIsNoneWhenDynamicIsTrue);
            }
            return Ok(());
        }
        if other.dynamic_node_properties.is_some() {
            return Err(SenderAttachError::DynamicNodePropertiesIsSomeWhenDynamicIsFalse);
        }
        Ok(())
    }

    fn verify_as_receiver(&self, other: &Self) -> Result<(), ReceiverAttachError> {
        if other.dynamic {
            if other.address.is_some() {
                return Err(ReceiverAttachError::TargetAddressIsSomeWhenDynamicIsTrue);
            }
            return Ok(());
        }
        if other.dynamic_node_properties.is_some() {
            return Err(ReceiverAttachError::DynamicNodePropertiesIsSomeWhenDynamicIsFalse);
        }
        Ok(())
    }
}

/// The tests of the target where the peer's is one. Any other archetype is refused.
impl VerifyTargetArchetype for TargetArchetype {
    ghost sender_tests = { λ own peer. sender_archetype_tests peer };

    ghost receiver_tests = { λ own peer. receiver_archetype_tests peer };

    fn verify_as_sender(&self, other: &Self) -> Result<(), SenderAttachError> {
        match other {
            TargetArchetype::Target(target) => target.verify_as_sender(target),
            TargetArchetype::Other(_) => Err(SenderAttachError::CoordinatorIsNotImplemented),
        }
    }

    fn verify_as_receiver(&self, other: &Self) -> Result<(), ReceiverAttachError> {
        match other {
            TargetArchetype::Target(target) => target.verify_as_receiver(target),
            TargetArchetype::Other(_) => Err(ReceiverAttachError::CoordinatorIsNotImplemented),
        }
    }
}

/// What may be an archetype of another type than a target.
pub trait VariantOfTargetArchetype {
    /// Whether it is of another type.
    ghost is_other: { Self → Bool };

    /// Whether it is of another type than a target, such as a coordinator (part 4, 4.5.1).
    fn is_coordinator(&self) -> bool
        ensures { result ≡ is_other self.now };
}

impl VariantOfTargetArchetype for Target {
    ghost is_other = { λ _. false };

    fn is_coordinator(&self) -> bool {
        false
    }
}

impl VariantOfTargetArchetype for TargetArchetype {
    ghost is_other = { is_coordinator };

    fn is_coordinator(&self) -> bool {
        matches!(self, TargetArchetype::Other(_))
    }
}

/// What may stand for a node that is to be made.
pub trait DynamicTarget {
    /// Whether the node is to be made.
    ghost dynamic: { Self → Option Bool };

    /// Whether the node is to be made; None where the archetype has no such field (part 3, 3.5.4).
    fn is_dynamic(&self) -> Option<bool>
        ensures { result ≡ dynamic self.now };
}

impl DynamicTarget for Target {
    ghost dynamic = { λ target. Some target.dynamic };

    fn is_dynamic(&self) -> Option<bool> {
        Some(self.dynamic)
    }
}

impl DynamicTarget for TargetArchetype {
    ghost dynamic = { dynamic_of };

    fn is_dynamic(&self) -> Option<bool> {
        match self {
            TargetArchetype::Target(target) => Some(target.dynamic),
            TargetArchetype::Other(_) => None,
        }
    }
}

/// What has capabilities.
pub trait TargetArchetypeCapabilities {
    /// What a capability is.
    type Capability;

    /// The capabilities.
    ghost capabilities: { Self → List Self.Capability };

    /// It with other capabilities.
    ghost with_capabilities: { Self → List Self.Capability → Self };

    /// The capabilities, which can be changed. All else of it stays (part 3, 3.5.4).
    fn capabilities_mut(&mut self) -> &mut Array<Self::Capability>
        ensures* writes_back { sem 𝓛 (Lends Self.row (array_row Self.Capability.row) self.entry result
            (with_capabilities self.old)) }
        ensures value { result.now ≡ capabilities self.old };
}

impl TargetArchetypeCapabilities for Target {
    type Capability = Symbol;

    ghost capabilities = { λ target. target.capabilities };

    ghost with_capabilities = { λ target symbols. record target { capabilities = symbols } };

    fn capabilities_mut(&mut self) -> &mut Array<Symbol> {
        &mut self.capabilities
    }
}

/// A target with all that a link asks of it.
pub trait TargetArchetypeExt: VerifyTargetArchetype
    + TargetArchetypeCapabilities
    + VariantOfTargetArchetype
    + DynamicTarget {}

impl<T> TargetArchetypeExt for T
where
    T: VerifyTargetArchetype
        + TargetArchetypeCapabilities
        + VariantOfTargetArchetype
        + DynamicTarget,
{}

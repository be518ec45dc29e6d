//! What the source of a peer's Attach is refused for (part 3, 3.5.3).
ghost use Rattle.std.specs.Prelude.{List, Bool};
ghost use Rattle.amqp_link_types.specs.declared.attaching.SenderAttachError.{SenderAttachError};
ghost use Rattle.amqp_link_types.specs.declared.attaching.ReceiverAttachError.{ReceiverAttachError};
ghost use Rattle.amqp_link_base.specs.Tests.{FirstOf, JudgedBy, first_of};
ghost use Rattle.amqp_link_base.specs.Source.{sender_source_tests, receiver_source_tests, made_source_tests};

use crate::filters::verify_filters;
use amqp_link_types::{ReceiverAttachError, SenderAttachError};
use amqp_session_states::Source;
use std::alloc::Global;

/// A source that can be compared with the peer's.
pub trait VerifySource {
    /// The tests of a sender, of the own source and the receiver's.
    ghost sender_tests: { Self → Self → List (Bool × SenderAttachError) };

    /// The tests of a receiver, of the own source and the sender's.
    ghost receiver_tests: { Self → Self → List (Bool × ReceiverAttachError) };

    /// What a sender answers to the source of the receiver's Attach: the error of the first test that applies.
    fn verify_as_sender(&self, other: &Self) -> Result<(), SenderAttachError>
        ensures { FirstOf (sender_tests self.now other.now) result };

    /// What a receiver answers to the source of the sender's Attach: the error of the first test that applies. It is
    /// `Memory` only where there is none for the list of the filters that the sender doesn't apply.
    fn verify_as_receiver(&self, alloc: Global, other: &Self) -> Result<(), ReceiverAttachError>
        ensures { JudgedBy (first_of (receiver_tests self.now other.now)) result };
}

/// A sender refuses a source that it is asked to make and that has an address already. A receiver refuses one that
/// doesn't apply all filters that it wants, and one that the sender made and that has no address. Both refuse properties
/// of a node that isn't to be made.
impl VerifySource for Source {
    ghost sender_tests = { λ own peer. sender_source_tests peer };

    ghost receiver_tests = { receiver_source_tests };

    fn verify_as_sender(&self, other: &Self) -> Result<(), SenderAttachError> {
        if other.dynamic {
            if other.address.is_some() {
                return Err(SenderAttachError::SourceAddressIsSomeWhenDynamicIsTrue);
            }
            return Ok(());
        }
        if other.dynamic_node_properties.is_some() {
            return Err(SenderAttachError::DynamicNodePropertiesIsSomeWhenDynamicIsFalse);
        }
        Ok(())
    }

    #[tactic(auto, using(crate::proofs::Joining::tests_joined))]
    fn verify_as_receiver(&self, alloc: Global, other: &Self) -> Result<(), ReceiverAttachError> {
        verify_filters(alloc, &self.filter, &other.filter)?;
        verify_made_source(other)
    }
}

/// What a receiver answers to a source, apart from its filters.
fn verify_made_source(source: &Source) -> Result<(), ReceiverAttachError>
    ensures { JudgedBy (first_of (made_source_tests source.now)) result }
{
    if source.dynamic {
        if source.address.is_none() {
            return Err(ReceiverAttachError::SourceAddressIsNoneWhenDynamicIsTrue);
        }
        return Ok(());
    }
    if source.dynamic_node_properties.is_some() {
        return Err(ReceiverAttachError::DynamicNodePropertiesIsSomeWhenDynamicIsFalse);
    }
    Ok(())
}

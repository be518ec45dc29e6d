//! What a peer's Attach is refused for, test by test (part 2, 2.6.3 and 2.7.3; part 3, 3.5.3 and 3.5.4).
ghost use Rattle.amqp_link_base.specs.Tests.{FirstOf, JudgedBy, first_of};
ghost use Rattle.amqp_link_base.specs.Attach.{sender_tests, receiver_tests, source_tests_of_sender};
ghost use Rattle.amqp_link_base.specs.Attach.{target_tests_of_sender, mode_tests, source_tests_of_receiver};
ghost use Rattle.amqp_link_base.specs.Attach.{count_tests, target_tests_of_receiver};

use crate::archetype::{VariantOfTargetArchetype, VerifyTargetArchetype};
use crate::source::VerifySource;
use amqp_link_types::{ReceiverAttachError, SenderAttachError};
use amqp_session_performatives::Attach;
use amqp_session_states::{Source, TargetArchetype};
use amqp_session_types::SenderSettleMode;
use std::alloc::Global;

/// What a sender with these terms answers to the receiver's Attach: the error of the first test that applies, of its
/// source, of its target and of its modes. Where the link or the peer has no source, or no target, the two aren't
/// compared; but the receiver's target must be there, and be a target.
#[tactic(auto, using(crate::proofs::Joining::tests_joined))]
pub fn verify_attach_as_sender(
    source: &Option<Source>,
    target: &Option<TargetArchetype>,
    snd_settle_mode: SenderSettleMode,
    attach: &Attach,
) -> Result<(), SenderAttachError>
    ensures { FirstOf (sender_tests source.now target.now snd_settle_mode attach.now) result }
{
    verify_source_as_sender(source, &attach.source)?;
    verify_target_as_sender(target, &attach.target)?;
    verify_mode(snd_settle_mode, attach.snd_settle_mode)
}

/// What a receiver with these terms answers to the sender's Attach: the error of the first test that applies, of its
/// source, of its count of deliveries and of its target. Where the link or the peer has no source, or no target, the two
/// aren't compared; but the sender's source must be there, and its target, if there is one, must be a target. The error is
/// `Memory` only in place of a list of filters, where there is none for it.
#[tactic(auto, using(crate::proofs::Joining::tests_joined))]
pub fn verify_attach_as_receiver(
    alloc: Global,
    source: &Option<Source>,
    target: &Option<TargetArchetype>,
    attach: &Attach,
) -> Result<(), ReceiverAttachError>
    ensures { JudgedBy (first_of (receiver_tests source.now target.now attach.now)) result }
{
    verify_source_as_receiver(alloc, source, &attach.source)?;
    verify_count(attach.initial_delivery_count)?;
    verify_target_as_receiver(target, &attach.target)
}

/// What a sender answers to the receiver's source.
fn verify_source_as_sender(
    own: &Option<Source>,
    peer: &Option<Source>,
) -> Result<(), SenderAttachError>
    ensures { FirstOf (source_tests_of_sender own.now peer.now) result }
{
    match (own, peer) {
        (Some(own), Some(peer)) => own.verify_as_sender(peer),
        _ => Ok(()),
    }
}

/// What a sender answers to the receiver's target.
#[tactic(auto, using(crate::proofs::Joining::archetypes))]
fn verify_target_as_sender(
    own: &Option<TargetArchetype>,
    peer: &Option<TargetArchetype>,
) -> Result<(), SenderAttachError>
    ensures { FirstOf (target_tests_of_sender own.now peer.now) result }
{
    let Some(peer) = peer else {
        return Err(SenderAttachError::IncomingTargetIsNone);
    };
    if peer.is_coordinator() {
        return Err(SenderAttachError::CoordinatorIsNotImplemented);
    }
    match own {
        Some(own) => own.verify_as_sender(peer),
        None => Ok(()),
    }
}

/// What a sender answers to how the receiver wants deliveries to be settled: it doesn't send all of them settled where
/// they are wanted unsettled, or the reverse (part 2, 2.8.2).
fn verify_mode(own: SenderSettleMode, peer: SenderSettleMode) -> Result<(), SenderAttachError>
    ensures { FirstOf (mode_tests own peer) result }
{
    match (own, peer) {
        (SenderSettleMode::Settled, SenderSettleMode::Unsettled)
        | (SenderSettleMode::Unsettled, SenderSettleMode::Settled) => {
            Err(SenderAttachError::SndSettleModeNotSupported)
        }
        _ => Ok(()),
    }
}

/// What a receiver answers to the sender's source.
fn verify_source_as_receiver(
    alloc: Global,
    own: &Option<Source>,
    peer: &Option<Source>,
) -> Result<(), ReceiverAttachError>
    ensures { JudgedBy (first_of (source_tests_of_receiver own.now peer.now)) result }
{
    let Some(peer) = peer else {
        return Err(ReceiverAttachError::IncomingSourceIsNone);
    };
    match own {
        Some(own) => own.verify_as_receiver(alloc, peer),
        None => Ok(()),
    }
}

/// What a receiver answers to the sender's count of deliveries.
fn verify_count(initial_delivery_count: Option<u32>) -> Result<(), ReceiverAttachError>
    ensures { JudgedBy (first_of (count_tests initial_delivery_count)) result }
{
    match initial_delivery_count {
        Some(_) => Ok(()),
        None => Err(ReceiverAttachError::InitialDeliveryCountIsNone),
    }
}

/// What a receiver answers to the sender's target.
#[tactic(auto, using(crate::proofs::Joining::archetypes))]
fn verify_target_as_receiver(
    own: &Option<TargetArchetype>,
    peer: &Option<TargetArchetype>,
) -> Result<(), ReceiverAttachError>
    ensures { JudgedBy (first_of (target_tests_of_receiver own.now peer.now)) result }
{
    let Some(peer) = peer else {
        return Ok(());
    };
    if peer.is_coordinator() {
        return Err(ReceiverAttachError::CoordinatorIsNotImplemented);
    }
    match own {
        Some(own) => own.verify_as_receiver(peer),
        None => Ok(()),
    }
}

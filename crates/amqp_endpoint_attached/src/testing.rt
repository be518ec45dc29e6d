//! What a new link would refuse of the peer's Attach, before it is made (part 2, 2.6.3, 2.7.3).
ghost use Rattle.std.specs.Prelude.{◌≡◌};
ghost use Rattle.amqp_endpoint_attached.specs.Links.{link_by, receiver_by, sender_by};
ghost use Rattle.amqp_endpoint_attached.specs.Refusals.{FindsTested, test_failed, told_of};

use crate::refusal::AttachRefusal;
use amqp_endpoint_model::LinkSettings;
use amqp_link_base::{verify_attach_as_receiver, verify_attach_as_sender};
use amqp_link_types::{LinkError, ReceiverAttachError};
use amqp_session_performatives::Attach;
use amqp_session_types::Role;
use std::alloc::Global;

/// Why a link with these settings, which is new, refuses the peer's Attach: the first of its tests that fails, if one
/// does. It takes memory for the list of filters alone that the peer doesn't apply: `Memory` stands in place of that
/// list.
pub fn test(
    alloc: Global,
    role: Role,
    settings: &LinkSettings,
    attach: &Attach,
) -> Option<AttachRefusal>
    ensures { FindsTested (test_failed (link_by role settings.now) attach.now) result }
{
    match role {
        Role::Sender => test_sender(settings, attach),
        Role::Receiver => test_receiver(alloc, settings, attach),
    }
}

/// Why one refuses it that sends.
#[tactic(auto, using(crate::proofs::Tested::tests))]
fn test_sender(settings: &LinkSettings, attach: &Attach) -> Option<AttachRefusal>
    ensures { FindsTested (test_failed (sender_by settings.now) attach.now) result }
{
    match verify_attach_as_sender(
        &settings.source,
        &settings.target,
        settings.snd_settle_mode,
        attach,
    ) {
        Ok(()) => None,
        Err(error) => Some(AttachRefusal::Link(LinkError::SenderAttach(error))),
    }
}

/// Why one refuses it that receives.
#[tactic(auto, using(crate::proofs::Tested::tests))]
fn test_receiver(alloc: Global, settings: &LinkSettings, attach: &Attach) -> Option<AttachRefusal>
    ensures { FindsTested (test_failed (receiver_by settings.now) attach.now) result }
{
    match verify_attach_as_receiver(alloc, &settings.source, &settings.target, attach) {
        Ok(()) => None,
        Err(error) => Some(told_of(error)),
    }
}

/// What a receiver's test answers is told so.
fn told_of(error: ReceiverAttachError) -> AttachRefusal
    ensures { result ≡ told_of error }
{
    match error {
        ReceiverAttachError::Memory => AttachRefusal::Memory,
        error => AttachRefusal::Link(LinkError::ReceiverAttach(error)),
    }
}

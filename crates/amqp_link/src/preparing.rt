//! What the peer's Attach makes of an end of a link, made ready before anything changes (part 2, 2.6.3 and 2.6.13).
ghost use Rattle.std.specs.Prelude.{◌≡◌, IfErr, IfOk, IsOk};
ghost use Rattle.amqp_link.specs.Preparing.{IsFor, MayWantMemory, attach_planned, carried_out, left_by};
ghost use Rattle.amqp_link.specs.Preparing.{receiver_planned, sender_planned};
ghost use Rattle.amqp_link_receiver.specs.Attaching.{MayWantMemory as ReceiverMayWant};
ghost use Rattle.amqp_link_receiver.specs.Attaching.{attach_planned as planned_for_receiver};
ghost use Rattle.amqp_link_sender.specs.Attaching.{attach_planned as planned_for_sender};

use crate::end::{End, LinkEnd};
use amqp_link_receiver::{PreparedAttach as OfReceiver, ReceiverLink};
use amqp_link_sender::{Attaching, PreparedAttach as OfSender, SenderLink};
use amqp_link_types::LinkError;
use amqp_session_performatives::Attach;
use serde_amqp_types::Array;
use std::alloc::{AllocError, Global};

/// What the peer's Attach makes of an end of a link.
#[derive(Drop)]
pub enum PreparedAttach {
    /// Of one that sends.
    Sender(OfSender),
    /// Of one that receives.
    Receiver(OfReceiver),
}

impl LinkEnd {
    /// What the peer's Attach makes of the link is made ready, or the answer is why it is refused: where the link's
    /// state doesn't allow it, or else by the first test that it fails. Nothing changes yet.
    ///
    /// Errors: want of memory alone, where the Attach isn't refused, or where it is for filters that the peer doesn't
    /// apply, of which there is a list.
    pub fn prepare_attach(
        &self,
        alloc: Global,
        attach: &Attach,
    ) -> Result<Result<PreparedAttach, LinkError>, AllocError>
        ensures ok { IfOk result (λ decided. decided ≡ attach_planned self.now attach.now) }
        ensures err { IfErr result (λ _. MayWantMemory self.now attach.now) }
    {
        match &self.end {
            End::Sender(link) => prepare_sender(link, alloc, attach),
            End::Receiver(link) => prepare_receiver(link, alloc, attach),
        }
    }

    /// The Attach is taken that was made ready for the link, and what is left to be done for unsettled deliveries is
    /// answered. It takes no memory.
    pub fn commit_attach(&mut self, alloc: Global, prepared: PreparedAttach) -> Attaching
        requires { IsFor self.old prepared }
        ensures link { self.new ≡ carried_out self.old prepared }
        ensures left { result ≡ left_by prepared }
    {
        match (&mut self.end, prepared) {
            (End::Sender(link), PreparedAttach::Sender(prepared)) => link.commit_attach(prepared),
            (End::Receiver(link), PreparedAttach::Receiver(prepared)) => Attaching {
                exchange: link.commit_attach(prepared),
                aborts: Array::new(alloc),
            },
            _ => unreachable!(),
        }
    }
}

/// What is made ready for a sending link.
fn prepare_sender(
    link: &SenderLink,
    alloc: Global,
    attach: &Attach,
) -> Result<Result<PreparedAttach, LinkError>, AllocError>
    ensures ok { IfOk result (λ decided. decided ≡ sender_planned (planned_for_sender link.now attach.now)) }
    ensures err { IfErr result (λ _. IsOk (planned_for_sender link.now attach.now)) }
{
    match link.prepare_attach(alloc, attach)? {
        Ok(prepared) => Ok(Ok(PreparedAttach::Sender(prepared))),
        Err(error) => Ok(Err(LinkError::SenderAttach(error))),
    }
}

/// What is made ready for a receiving link.
fn prepare_receiver(
    link: &ReceiverLink,
    alloc: Global,
    attach: &Attach,
) -> Result<Result<PreparedAttach, LinkError>, AllocError>
    ensures ok { IfOk result (λ decided. decided ≡ receiver_planned (planned_for_receiver link.now attach.now)) }
    ensures err { IfErr result (λ _. ReceiverMayWant (planned_for_receiver link.now attach.now)) }
{
    match link.prepare_attach(alloc, attach)? {
        Ok(prepared) => Ok(Ok(PreparedAttach::Receiver(prepared))),
        Err(error) => Ok(Err(LinkError::ReceiverAttach(error))),
    }
}

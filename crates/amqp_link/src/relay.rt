//! An end of a link as its session sees it (part 2, 2.6).
ghost use Rattle.std.specs.Prelude.{◌≡◌, Err};
ghost use Rattle.amqp_link.specs.Gives.{answer_of, attaches, detaches, dropped, receives, registering_of};

use crate::at_once::receives_at_once;
use crate::end::{End, LinkEnd};
use crate::standing::Standing;
use amqp_link_base::Detached;
use amqp_link_receiver::{Answer, Attached, ReceiverLink, Registering, Told};
use amqp_link_sender::{AttachAnswer, DetachRefusal, SenderLink};
use amqp_session_core::{LinkRelay, Registration, RelayError, TransferAnswer};
use amqp_session_performatives::{Attach, Detach, LinkFlow, Transfer};
use amqp_session_states::DeliveryState;
use amqp_session_types::{DeliveryTag, Role};
use bytes::Bytes;
use std::alloc::Global;

/// What an end of a link tells of the peer's Attach.
#[derive(Debug, Drop)]
pub enum AttachTold {
    /// A sending link.
    Sender(AttachAnswer),
    /// A receiving link.
    Receiver(Attached),
}

/// A link's own refusal of an Attach or of a transfer is a part of what it tells. The session is refused a frame for a link
/// that isn't attached, and a transfer to one that sends. Where the own Detach was sent, transfers and Flows are dropped
/// until the peer's comes.
impl LinkRelay for LinkEnd {
    ghost use Rattle.amqp_link.specs.Gives.{attaches, flows, transfers, tells, names, disposes, detaches};

    type Attached = AttachTold;

    type Transferred = Told;

    type Detached = Detached;

    ghost gives = { record {
      attaches = attaches;
      flows = flows;
      transfers = transfers;
      disposes = disposes;
      detaches = detaches;
    } };

    ghost tells = { tells };

    ghost names = { names };

    fn on_incoming_attach(
        &mut self,
        alloc: Global,
        attach: &Attach,
    ) -> Result<AttachTold, RelayError> {
        match &mut self.end {
            End::Sender(link) => attach_sender(link, alloc, attach),
            End::Receiver(link) => attach_receiver(link, alloc, attach),
        }
    }

    fn on_incoming_flow(
        &mut self,
        _alloc: Global,
        flow: LinkFlow,
    ) -> Result<Option<LinkFlow>, RelayError> {
        match Standing::of(self.local_state()) {
            Standing::Attached => Ok(self.take_flow(flow)),
            Standing::Detaching => Ok(None),
            Standing::Apart => Err(RelayError::UnattachedHandle),
        }
    }

    fn on_incoming_transfer(
        &mut self,
        alloc: Global,
        transfer: Transfer,
        payload: Bytes,
    ) -> Result<TransferAnswer<Told>, RelayError> {
        match Standing::of(self.local_state()) {
            Standing::Attached => match &mut self.end {
                End::Sender(_) => Err(RelayError::TransferFrameToSender),
                End::Receiver(link) => receive(link, alloc, transfer, payload),
            },
            Standing::Detaching => Ok(dropped()),
            Standing::Apart => Err(RelayError::UnattachedHandle),
        }
    }

    fn takes_at_once(&mut self, transfer: &Transfer, payload: &Bytes, message: u64) -> bool {
        match Standing::of(self.local_state()) {
            Standing::Attached => receives_at_once(&mut self.end, transfer, payload, message),
            _ => false,
        }
    }

    fn on_incoming_disposition(
        &mut self,
        tag: &DeliveryTag,
        role: Role,
        settled: bool,
        state: Option<DeliveryState>,
    ) -> bool {
        match (&mut self.end, role) {
            (End::Sender(link), Role::Receiver) => {
                link.on_incoming_disposition(tag, settled, state)
            }
            (End::Receiver(link), Role::Sender) => {
                link.on_incoming_disposition(tag, settled);
                false
            }
            _ => false,
        }
    }

    fn on_incoming_detach(
        &mut self,
        alloc: Global,
        detach: &Detach,
    ) -> Result<Detached, RelayError> {
        match &mut self.end {
            End::Sender(link) => detach_sender(link, alloc, detach),
            End::Receiver(link) => detach_receiver(link, detach),
        }
    }
}

/// A sending link takes the peer's Attach.
#[tactic(auto, using(crate::proofs::Kept::rules))]
fn attach_sender(
    link: &mut SenderLink,
    alloc: Global,
    attach: &Attach,
) -> Result<AttachTold, RelayError>
    ensures gives { attaches (End.Sender link.old) attach.now result (End.Sender link.new) }
    ensures memory { result ≡ Err RelayError.Memory → link.new ≡ link.old }
{
    match link.on_incoming_attach(alloc, attach) {
        Ok(answer) => Ok(AttachTold::Sender(answer)),
        Err(_) => Err(RelayError::Memory),
    }
}

/// A receiving link takes the peer's Attach.
#[tactic(auto, using(crate::proofs::Kept::rules))]
fn attach_receiver(
    link: &mut ReceiverLink,
    alloc: Global,
    attach: &Attach,
) -> Result<AttachTold, RelayError>
    ensures gives { attaches (End.Receiver link.old) attach.now result (End.Receiver link.new) }
    ensures memory { result ≡ Err RelayError.Memory → link.new ≡ link.old }
{
    match link.on_incoming_attach(alloc, attach) {
        Ok(answer) => Ok(AttachTold::Receiver(answer)),
        Err(_) => Err(RelayError::Memory),
    }
}

/// A receiving link that is attached takes a transfer.
#[tactic(auto, using(crate::proofs::Kept::rules))]
fn receive(
    link: &mut ReceiverLink,
    alloc: Global,
    transfer: Transfer,
    payload: Bytes,
) -> Result<TransferAnswer<Told>, RelayError>
    ensures gives { receives link.old transfer payload result (End.Receiver link.new) }
    ensures memory { result ≡ Err RelayError.Memory → link.new ≡ link.old }
{
    match link.on_incoming_transfer(alloc, transfer, payload) {
        Ok(answer) => Ok(told_of(answer)),
        Err(_) => Err(RelayError::Memory),
    }
}

/// What a receiving link answers to a transfer, as the session is told it.
fn told_of(answer: Answer) -> TransferAnswer<Told>
    ensures { answer_of result ≡ answer }
{
    let Answer { registering, told } = answer;
    TransferAnswer {
        registration: registration_of(registering),
        told,
    }
}

/// What becomes of a delivery in the session.
fn registration_of(registering: Registering) -> Registration
    ensures { registering_of result ≡ registering }
{
    match registering {
        Registering::Unchanged => Registration::Unchanged,
        Registering::Unsettled { number, tag } => Registration::Unsettled { number, tag },
        Registering::Settled { number } => Registration::Settled { number },
    }
}

/// What is told of a transfer that is dropped.
fn dropped() -> TransferAnswer<Told>
    ensures { result ≡ dropped }
{
    TransferAnswer {
        registration: Registration::Unchanged,
        told: Told::Dropped,
    }
}

/// A sending link takes the peer's Detach.
#[tactic(auto, using(crate::proofs::Kept::rules))]
fn detach_sender(
    link: &mut SenderLink,
    alloc: Global,
    detach: &Detach,
) -> Result<Detached, RelayError>
    ensures gives { detaches (End.Sender link.old) detach.now result (End.Sender link.new) }
    ensures memory { result ≡ Err RelayError.Memory → link.new ≡ link.old }
{
    match link.on_incoming_detach(alloc, detach.closed, &detach.error) {
        Ok(told) => Ok(told),
        Err(DetachRefusal::IllegalState) => Err(RelayError::UnattachedHandle),
        Err(DetachRefusal::Memory) => Err(RelayError::Memory),
    }
}

/// A receiving link takes the peer's Detach.
fn detach_receiver(link: &mut ReceiverLink, detach: &Detach) -> Result<Detached, RelayError>
    ensures gives { detaches (End.Receiver link.old) detach.now result (End.Receiver link.new) }
    ensures memory { result ≡ Err RelayError.Memory → link.new ≡ link.old }
{
    match link.on_incoming_detach(detach.closed) {
        Ok(told) => Ok(told),
        Err(_) => Err(RelayError::UnattachedHandle),
    }
}

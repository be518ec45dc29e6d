//! What a session asks of its links.
ghost use Rattle.std.specs.Prelude.{◌≡◌};
ghost use Rattle.amqp_session_core.specs.Relay.{session_error};
ghost use Rattle.amqp_session_core.specs.AtOnce.{TakesAtOnce};

use amqp_session_performatives::{Attach, Detach, LinkFlow, Transfer};
use amqp_session_states::DeliveryState;
use amqp_session_types::{DeliveryTag, Role, SessionError};
use bytes::Bytes;
use std::alloc::Global;
use thiserror::Error;

/// Why a link refuses a frame, where that is a refusal of its session (part 2, 2.5). What a link itself finds wrong with
/// a frame is a part of its answer, which the session hands on.
#[derive(Debug, Clone, Copy, PartialEq, Eq, Error)]
pub enum RelayError {
    /// The link isn't attached (part 2, 2.8.17).
    #[error("the link isn't attached")]
    UnattachedHandle,
    /// A transfer came to a link that sends (part 2, 2.6.12).
    #[error("a transfer to a sender")]
    TransferFrameToSender,
    /// There was no memory. The link is as before.
    #[error("out of memory")]
    Memory,
}

impl From<RelayError> for SessionError {
    ghost from_gives = { λ e s. s ≡ session_error e };

    fn from(error: RelayError) -> Self {
        match error {
            RelayError::UnattachedHandle => SessionError::UnattachedHandle,
            RelayError::TransferFrameToSender => SessionError::TransferFrameToSender,
            RelayError::Memory => SessionError::Memory,
        }
    }
}

/// What a transfer changes of the deliveries that its session keeps as unsettled (part 2, 2.6.12).
#[derive(Debug, Drop)]
pub enum Registration {
    /// Nothing: it goes on with a delivery, or begins one that is settled.
    Unchanged,
    /// It begins a delivery that isn't settled.
    Unsettled {
        /// The number of the delivery (part 2, 2.8.6).
        number: u32,
        /// What the link calls it.
        tag: DeliveryTag,
    },
    /// It settles a delivery that its first transfer began unsettled, or gives it up.
    Settled {
        /// The number of the delivery.
        number: u32,
    },
}

/// What a link answers to a transfer.
#[derive(Debug, Drop)]
pub struct TransferAnswer<A> {
    /// What becomes of the delivery in the session.
    pub registration: Registration,
    /// What the session hands on to its caller.
    pub told: A,
}

/// Who owns links of a session and changes them between its calls, by what each of these changes keeps.
pub trait LinkOwner<R> {
    /// What a change keeps: the link before, and the link behind.
    ghost keeps: { R → R → Type 0 };
}

/// A link as its session sees it (part 2, 2.6). Each call relates the link before, the frame, the answer and the link
/// behind; a type that is a link says by its relations, `gives`, what its calls do, and a session is proved for all of
/// them.
///
/// A link that refuses for want of memory is as before.
pub trait LinkRelay: Drop {
    ghost use Rattle.std.specs.Prelude.{ℕ, List};
    ghost use Rattle.amqp_session_core.specs.Relay.{Relations};
    ghost use Rattle.amqp_session_performatives.specs.declared.transfer.Transfer.{Transfer};

    /// What a link tells of an Attach.
    type Attached: Drop;

    /// What a link tells of a transfer, such as the message that it completes.
    type Transferred: Drop;

    /// What a link tells of a Detach.
    type Detached: Drop;

    /// What its calls do: the link before, the frame, the answer, and the link behind.
    ghost gives: { Relations Self Self.Attached Self.Transferred Self.Detached };

    /// What it tells of a transfer that brings a whole message, with these bytes.
    ghost tells: { Transfer → List ℕ → Self.Transferred };

    /// The link, once the message that a transfer brought bears this number of its owner's.
    ghost names: { Self → Transfer → ℕ → Self };

    /// Takes the peer's Attach (part 2, 2.7.3).
    fn on_incoming_attach(
        &mut self,
        alloc: Global,
        attach: &Attach,
    ) -> Result<Self::Attached, RelayError>
        ensures gives { gives.attaches self.old attach.now result self.new }
        ensures memory { result ≡ Err RelayError.Memory → self.new ≡ self.old };

    /// Takes a Flow (part 2, 2.7.4), and answers the one that is to be sent, if any.
    fn on_incoming_flow(
        &mut self,
        alloc: Global,
        flow: LinkFlow,
    ) -> Result<Option<LinkFlow>, RelayError>
        ensures gives { gives.flows self.old flow result self.new }
        ensures memory { result ≡ Err RelayError.Memory → self.new ≡ self.old };

    /// Takes a transfer (part 2, 2.7.5).
    fn on_incoming_transfer(
        &mut self,
        alloc: Global,
        transfer: Transfer,
        payload: Bytes,
    ) -> Result<TransferAnswer<Self::Transferred>, RelayError>
        ensures gives { gives.transfers self.old transfer payload result self.new }
        ensures memory { result ≡ Err RelayError.Memory → self.new ≡ self.old };

    /// Takes a transfer with its payload at once, and says whether it did, where the transfer brings a whole message, as
    /// `on_incoming_transfer` takes it (part 2, 2.7.5). A message that isn't settled bears this number of its owner's from
    /// then on. Nothing changes where it didn't: the transfer is to be taken in the general way then. A link may always
    /// answer no.
    fn takes_at_once(&mut self, transfer: &Transfer, payload: &Bytes, message: u64) -> bool
        ensures { TakesAtOnce gives.transfers tells names self.old transfer.now payload.now message
            result self.new };

    /// Takes the disposition of one delivery (part 2, 2.7.6), and answers whether it is echoed. It takes no memory.
    fn on_incoming_disposition(
        &mut self,
        tag: &DeliveryTag,
        role: Role,
        settled: bool,
        state: Option<DeliveryState>,
    ) -> bool
        ensures gives { gives.disposes self.old tag.now role settled state result self.new };

    /// Takes a Detach (part 2, 2.7.7).
    fn on_incoming_detach(
        &mut self,
        alloc: Global,
        detach: &Detach,
    ) -> Result<Self::Detached, RelayError>
        ensures gives { gives.detaches self.old detach.now result self.new }
        ensures memory { result ≡ Err RelayError.Memory → self.new ≡ self.old };
}

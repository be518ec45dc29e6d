//! How a receiving link disposes of deliveries (part 2, 2.6.12, 2.7.6 and 2.8.3).
ghost use Rattle.std.specs.Prelude.{◌≡◌, option_copied};
ghost use Rattle.amqp_link_receiver.specs.Numbering.{tag_of};
ghost use Rattle.amqp_link_receiver.specs.Disposing.{Disposes, disposable_now, disposition_of, is_settled};
ghost use Rattle.amqp_link_receiver.specs.Disposing.{message_numbered, settles_at_once};

use crate::link::ReceiverLink;
use crate::{Disposable, DisposeRefusal};
use amqp_session_performatives::Disposition;
use amqp_session_states::DeliveryState;
use amqp_session_types::{DeliveryTag, ReceiverSettleMode, Role};
use std::alloc::{AllocError, Global};
use thiserror::Error;

/// Why a delivery isn't disposed of. The link is as before.
#[derive(Debug, Clone, Copy, PartialEq, Eq, Error)]
pub enum DisposeError {
    /// It can't be disposed of.
    #[error("the delivery can not be disposed of")]
    Refused(DisposeRefusal),
    /// There was no memory for the state that is noted.
    #[error("out of memory")]
    Memory,
}

impl From<DisposeRefusal> for DisposeError {
    ghost use Rattle.amqp_link_receiver.specs.declared.disposing.DisposeError.TheVariants.{Refused};

    ghost from_gives = { λ why e. e ≡ Refused why };

    fn from(why: DisposeRefusal) -> Self {
        DisposeError::Refused(why)
    }
}

impl From<AllocError> for DisposeError {
    ghost use Rattle.amqp_link_receiver.specs.declared.disposing.DisposeError.TheVariants.{Memory};

    ghost from_gives = { λ _ e. e ≡ Memory };

    fn from(_error: AllocError) -> Self {
        DisposeError::Memory
    }
}

impl ReceiverLink {
    /// What the delivery with this tag is disposed of by: its number in the present attachment, and its own settle
    /// mode (part 2, 2.7.6).
    ///
    /// Errors: `NotKept` where nothing is kept of it; `AlreadyDisposed` where its outcome was told; `NotAssociated`
    /// where it has no number in the present attachment, as one that hasn't come whole.
    pub fn disposable(&self, tag: &DeliveryTag) -> Result<Disposable, DisposeRefusal>
        ensures { result ≡ disposable_now self.now tag.now }
    {
        self.end.disposable(self.attachment(), tag)
    }

    /// Whether a delivery that is disposed of by this is settled as its state is told: as is asked, or by the mode of
    /// its transfer, or else the link's (part 2, 2.8.3).
    pub fn settles(&self, delivery: &Disposable, asked: Option<bool>) -> bool
        ensures { result ≡ is_settled self.now.base.terms.rcv_settle_mode delivery.now.rcv_settle_mode asked }
    {
        let mode = self.base.terms.rcv_settle_mode;
        is_settled(mode, delivery.rcv_settle_mode, asked)
    }

    /// Disposes of the delivery with this tag, and answers the Disposition that is to be sent (part 2, 2.7.6). The
    /// delivery is settled as is asked; where that says nothing, it is by the mode of its transfer, or else the
    /// link's: `First` settles, and `Second` doesn't (part 2, 2.8.3). Where it is settled nothing of it is kept, and
    /// else its state is noted.
    ///
    /// Errors: `Refused` exactly where `disposable` refuses it, with what that says; `Memory` only where it isn't
    /// settled. Nothing changes then.
    pub fn dispose(
        &mut self,
        alloc: Global,
        tag: &DeliveryTag,
        state: DeliveryState,
        settled: Option<bool>,
    ) -> Result<Disposition, DisposeError>
        ensures { Disposes (disposable_now self.old tag.now) self.old tag.now state settled result
            self.new }
    {
        let delivery = self.disposable(tag)?;
        let mode = self.base.terms.rcv_settle_mode;
        if is_settled(mode, delivery.rcv_settle_mode, settled) {
            self.end.on_incoming_disposition(tag, true);
            return Ok(disposition(delivery.number, true, state));
        }
        let noted = state.clone()?;
        self.end.dispose_reserved(alloc, tag, false, noted);
        Ok(disposition(delivery.number, false, state))
    }
}

impl ReceiverLink {
    /// The message with a tag bears this number of its owner's from now on, where it has come whole and is unsettled.
    /// It takes no memory.
    pub fn number_message(&mut self, alloc: Global, tag: &DeliveryTag, message: u64)
        ensures { self.new ≡ message_numbered self.old tag.now message }
    {
        self.end.number_message(alloc, tag, message);
    }

    /// The tag of the unsettled message that bears this number of its owner's, of the first of them if more than one
    /// does. Where messages bear numbers that rise as the messages came, it takes hardly more time for many deliveries
    /// than for few.
    pub fn tag_of(&self, message: u64) -> Option<&DeliveryTag>
        ensures { option_copied result ≡ tag_of self.now.end.unsettled message }
    {
        self.end.tag_of(message)
    }
}

/// Whether a delivery is settled as its state is told: as is asked, or by the mode of its transfer, or else the
/// link's.
pub(crate) fn is_settled(
    link: ReceiverSettleMode,
    told: Option<ReceiverSettleMode>,
    asked: Option<bool>,
) -> bool
    ensures { result ≡ is_settled link told asked }
{
    if let Some(settled) = asked {
        return settled;
    }
    settles_at_once(told.unwrap_or(link))
}

/// Whether a receiver settles as it tells the state.
fn settles_at_once(mode: ReceiverSettleMode) -> bool
    ensures { result ≡ settles_at_once mode }
{
    match mode {
        ReceiverSettleMode::First => true,
        ReceiverSettleMode::Second => false,
    }
}

/// The Disposition of one delivery.
fn disposition(number: u32, settled: bool, state: DeliveryState) -> Disposition
    ensures { result ≡ disposition_of number settled state }
{
    Disposition {
        role: Role::Receiver,
        first: number,
        last: None,
        settled,
        state: Some(state),
        batchable: false,
    }
}

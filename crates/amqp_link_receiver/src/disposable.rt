//! How a receiving end disposes of a delivery (part 2, 2.7.6).
ghost use Rattle.std.specs.Prelude.{◌≡◌, None, if◌then◌else◌};
ghost use Rattle.amqp_link_receiver.specs.declared.disposable.DisposeRefusal.TheVariants.{AlreadyDisposed};
ghost use Rattle.amqp_link_receiver.specs.Deliveries.{found};
ghost use Rattle.amqp_link_receiver.specs.Disposals.{disposable, is_final, numbered_in, with_state};

use crate::entry::{Entry, Note, WholeMessage};
use amqp_link_unsettled::{Numbered, UnsettledMap};
use amqp_session_states::DeliveryState;
use amqp_session_types::{DeliveryTag, ReceiverSettleMode};
use thiserror::Error;

/// Why a delivery can't be disposed of.
#[derive(Debug, Clone, Copy, PartialEq, Eq, Error)]
pub enum DisposeRefusal {
    /// Nothing is kept of it: it is unknown, or settled.
    #[error("the delivery is not kept")]
    NotKept,
    /// Its outcome was told (part 3, 3.4).
    #[error("the delivery is disposed of already")]
    AlreadyDisposed,
    /// It has no number in the present attachment.
    #[error("the delivery has no number")]
    NotAssociated,
}

/// What a delivery is disposed of by.
#[derive(Debug, Clone, Copy, PartialEq, Eq)]
pub struct Disposable {
    /// The number of the delivery in the present attachment (part 2, 2.8.6).
    pub number: u32,
    /// How it is to be settled, where its transfer said it; else the link's mode says it (part 2, 2.8.3).
    pub rcv_settle_mode: Option<ReceiverSettleMode>,
}

/// It bears no number of its owner's.
impl Numbered for Disposable {
    ghost number_of = { λ _. None };

    fn number(&self) -> Option<u64> {
        None
    }
}

/// What the delivery with a tag is disposed of by, in an attachment.
pub(crate) fn disposable_in(
    count: u64,
    unsettled: &UnsettledMap<Entry>,
    tag: &DeliveryTag,
) -> Result<Disposable, DisposeRefusal>
    ensures { result ≡ disposable count (found unsettled.now.entries tag.now) }
{
    match unsettled.get(tag) {
        None => Err(DisposeRefusal::NotKept),
        Some(Entry::Half(_)) => Err(DisposeRefusal::NotAssociated),
        Some(Entry::Whole(message)) => disposable_message(count, message),
    }
}

/// What a message is disposed of by.
fn disposable_message(count: u64, message: &WholeMessage) -> Result<Disposable, DisposeRefusal>
    ensures { result ≡ (if is_final message.now.state then Err AlreadyDisposed else numbered_in
        count message.now) }
{
    if is_final(&message.state) {
        return Err(DisposeRefusal::AlreadyDisposed);
    }
    if message.attachment != count {
        return Err(DisposeRefusal::NotAssociated);
    }
    Ok(Disposable {
        number: message.number,
        rcv_settle_mode: message.rcv_settle_mode,
    })
}

/// Whether a state is an outcome.
fn is_final(state: &Option<DeliveryState>) -> bool
    ensures { result ≡ is_final state.now }
{
    match state {
        Some(state) => state.is_terminal(),
        None => false,
    }
}

/// Notes the state that is told of a message.
pub(crate) fn tell(unsettled: &mut UnsettledMap<Entry>, tag: &DeliveryTag, state: DeliveryState)
    ensures { unsettled.new.entries ≡ with_state unsettled.old.entries tag.now state }
{
    unsettled.note_where_kept(tag, Note::Told(state));
}

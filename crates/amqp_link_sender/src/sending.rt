//! How messages are sent (part 2, 2.6.7 and 2.6.12).
ghost use Rattle.std.specs.Prelude.{◌≡◌, ◌<◌, length, max, min, None, IfSome, IfOk, OnOk, OnErr};
ghost use Rattle.amqp_link_sender.specs.Sends.{Prepares, refusal, prepared, first_transfer, entry_unless, is_too_large};
ghost use Rattle.amqp_link_sender.specs.Sends.{goes_settled, takes_messages, is_absent, sent};

use crate::link::SenderLink;
use amqp_link_base::LinkState;
use amqp_link_unsettled::{Entry, Messages};
use amqp_session_performatives::Transfer;
use amqp_session_types::{DeliveryTag, Handle, SenderSettleMode};
use bytes::Bytes;
use std::alloc::{AllocError, Global};

/// Why a message isn't sent. The link is as before.
#[derive(Debug, Clone, Copy, PartialEq, Eq)]
pub enum SendRefusal {
    /// The link isn't attached, or one of the two Attach lists only a part of the unsettled deliveries, or a message with
    /// this tag is open.
    IllegalState,
    /// The message is larger than the link takes (part 2, 2.7.3), or has 2^32 bytes or more.
    MessageTooLarge,
    /// There is no credit (part 2, 2.6.7).
    CreditMissing,
    /// There was no memory.
    Memory,
}

impl From<AllocError> for SendRefusal {
    ghost use Rattle.amqp_link_sender.specs.declared.sending.SendRefusal.TheVariants.{Memory};

    ghost from_gives = { λ _ e. e ≡ Memory };

    fn from(_error: AllocError) -> Self {
        SendRefusal::Memory
    }
}

/// A message that is ready to be sent.
#[derive(Drop)]
pub struct PreparedSend {
    /// What its first transfer says of it, without its number.
    pub transfer: Transfer,
    /// Its bytes, which are cut into transfers.
    pub payload: Bytes,
    /// The message as it is open once it is sent; None where it goes settled.
    pub entry: Option<Entry>,
}

impl SenderLink {
    /// Makes a message ready to be sent, and room for it (part 2, 2.6.12). Nothing else changes until it is committed.
    ///
    /// Errors, tested in this order: `IllegalState` where the link isn't attached, or one of the two Attach lists only a
    /// part of the unsettled deliveries, or a message with this tag is open; `MessageTooLarge`; `CreditMissing` where there
    /// is no credit; `Memory`. Nothing changes then.
    pub fn prepare_send(
        &mut self,
        tag: DeliveryTag,
        message_format: u32,
        payload: Bytes,
        settled: Option<bool>,
    ) -> Result<PreparedSend, SendRefusal>
        ensures { Prepares (refusal self.old tag (length payload))
            (prepared tag message_format payload (goes_settled self.old.base.terms.snd_settle_mode settled))
            self.old result self.new }
    {
        if let Some(refusal) = self.refusal(&tag, payload.len()) {
            return Err(refusal);
        }
        let settled = goes_settled(self.base.terms.snd_settle_mode, settled);
        let prepared = PreparedSend::new(tag, message_format, payload, settled)?;
        Ok(with_room(&mut self.messages, prepared)?)
    }

    /// A message that was made ready is sent: it takes one credit, and is open from now on unless it went settled
    /// (part 2, 2.6.7 and 2.6.12). It takes no memory.
    pub fn commit_send(&mut self, entry: Option<Entry>)
        requires credit { 0 < self.old.flow.link_credit }
        requires room { 0 < self.old.messages.room }
        requires absent { IfSome entry (λ m. is_absent self.old m.tag) }
        ensures { self.new ≡ sent self.old entry }
    {
        let _ = self.flow.try_consume(1);
        if let Some(entry) = entry {
            self.messages.open_reserved(entry);
        }
    }

    /// For how many more messages there is room.
    pub fn room(&self) -> usize
        ensures { result ≡ self.now.messages.room }
    {
        self.messages.room()
    }

    /// Gives up room that was made for messages: so many more at most are sure to find room then. With the room of
    /// before it takes a message back that was made ready and isn't sent. It takes no memory.
    pub fn lower_room(&mut self, room: usize)
        ensures { self.new
            ≡ record self.old { messages = record self.old.messages { room = min self.old.messages.room room } } }
    {
        self.messages.lower_room(room);
    }

    /// Why a message with this tag and so many bytes isn't sent, if it isn't.
    ///
    /// `IllegalState`, then `MessageTooLarge`, then `CreditMissing`, as `prepare_send` refuses it; never `Memory`.
    pub fn refusal(&self, tag: &DeliveryTag, size: usize) -> Option<SendRefusal>
        ensures { result ≡ refusal self.now tag.now size }
    {
        if !takes_messages(self.base.local_state) {
            return Some(SendRefusal::IllegalState);
        }
        if self.messages.is_open(tag) {
            return Some(SendRefusal::IllegalState);
        }
        if is_too_large(self.base.terms.max_message_size, size) {
            return Some(SendRefusal::MessageTooLarge);
        }
        if self.flow.link_credit() == 0 {
            return Some(SendRefusal::CreditMissing);
        }
        None
    }
}

impl PreparedSend {
    /// A message that goes settled or doesn't.
    pub(crate) fn new(
        tag: DeliveryTag,
        message_format: u32,
        payload: Bytes,
        settled: bool,
    ) -> Result<Self, AllocError>
        ensures { IfOk result (λ p. p ≡ prepared tag message_format payload settled) }
    {
        let entry = entry_unless(settled, &tag, message_format, &payload)?;
        Ok(PreparedSend {
            transfer: first_transfer(tag, message_format, settled),
            payload,
            entry,
        })
    }
}

/// The message as it is open once it is sent, unless it goes settled.
fn entry_unless(
    settled: bool,
    tag: &DeliveryTag,
    message_format: u32,
    payload: &Bytes,
) -> Result<Option<Entry>, AllocError>
    ensures { IfOk result (λ e. e ≡ entry_unless settled tag.now message_format payload.now) }
{
    if settled {
        return Ok(None);
    }
    let entry = Entry::new(tag, payload.clone()?, message_format)?;
    Ok(Some(entry))
}

/// What the first transfer of a message says of it. Its session writes its link and its number into it, and who cuts the
/// message, whether more follow (part 2, 2.7.5).
pub(crate) fn first_transfer(tag: DeliveryTag, message_format: u32, settled: bool) -> Transfer
    ensures { result ≡ first_transfer tag message_format settled }
{
    Transfer {
        handle: Handle(0),
        delivery_id: None,
        delivery_tag: Some(tag),
        message_format: Some(message_format),
        settled: Some(settled),
        more: false,
        rcv_settle_mode: None,
        state: None,
        resume: false,
        aborted: false,
        batchable: false,
    }
}

/// Makes room for one message, and hands back what is ready.
pub(crate) fn with_room<T: Drop>(messages: &mut Messages, prepared: T) -> Result<T, AllocError>
    ensures ok { IfOk result (λ p. p ≡ prepared) }
    ensures room { OnOk result (messages.new
        ≡ record messages.old { room = max messages.old.room 1 }) }
    ensures err { OnErr result (messages.new ≡ messages.old) }
{
    messages.reserve(1)?;
    Ok(prepared)
}

/// Whether both Attach were exchanged, and each lists all unsettled deliveries.
fn takes_messages(state: LinkState) -> bool
    ensures { result ≡ takes_messages state }
{
    matches!(state, LinkState::Attached)
}

/// Whether a message of so many bytes is larger than the link takes, 0 being no bound, or than any message is.
fn is_too_large(maximum: u64, size: usize) -> bool
    ensures { result ≡ is_too_large maximum size }
{
    if maximum != 0 && maximum < size as u64 {
        return true;
    }
    size >= 1 << 32
}

/// Whether a message goes settled: as the link's mode says, and where that leaves it open, as it is asked.
pub(crate) fn goes_settled(mode: SenderSettleMode, asked: Option<bool>) -> bool
    ensures { result ≡ goes_settled mode asked }
{
    match mode {
        SenderSettleMode::Settled => true,
        SenderSettleMode::Unsettled => false,
        SenderSettleMode::Mixed => asked.unwrap_or(false),
    }
}

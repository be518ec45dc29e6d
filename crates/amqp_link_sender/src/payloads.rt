//! How messages are sent as transfers that fit the peer's frames (part 2, 2.6.14 and 2.7.5).
ghost use Rattle.std.specs.Prelude.{◌≡◌, ◌⊎◌, length, None, IfOk, IfErr, IsSomeAnd};
ghost use Rattle.amqp_link_sender.specs.Room.{room_of};
ghost use Rattle.amqp_link_sender.specs.Splitting.{Splits};
ghost use Rattle.amqp_link_sender.specs.Payloads.{Cuts, SendsPayload, Splitting};
ghost use Rattle.amqp_link_sender.specs.Sends.{goes_settled, prepared, refusal};

use crate::link::SenderLink;
use crate::sending::{PreparedSend, SendRefusal, goes_settled, with_room};
use crate::{SplitRefusal, split};
use amqp_link_unsettled::Entry;
use amqp_session_core::Batch;
use amqp_session_performatives::Transfer;
use amqp_session_types::DeliveryTag;
use bytes::Bytes;
use std::alloc::Global;

/// A message that is ready to be sent, cut into transfers.
#[derive(Drop)]
pub struct PreparedBatch {
    /// Its transfers, without its number. Its session takes all of them or none.
    pub batch: Batch,
    /// The message as it is open once it is sent; None where it goes settled.
    pub entry: Option<Entry>,
}

impl SenderLink {
    /// Makes a message ready to be sent, cuts it into transfers for frames of at most `limit` bytes, and makes room for it
    /// (part 2, 2.6.12 and 2.6.14). Nothing else changes until it is committed, by `commit_send`.
    ///
    /// Errors, tested in this order: those of `prepare_send`, but for want of memory; `IllegalState` where a frame has no
    /// room for a byte of the message; `Memory`, which may stand in place of the latter. Nothing changes then.
    ///
    /// The transfers stand in `spare`, whose own are dropped if it has any: where its memory is enough they take none.
    pub fn send_payload(
        &mut self,
        alloc: Global,
        spare: Batch,
        tag: DeliveryTag,
        message_format: u32,
        payload: Bytes,
        settled: Option<bool>,
        limit: usize,
    ) -> Result<PreparedBatch, SendRefusal>
        ensures { SendsPayload (refusal self.old tag (length payload))
            (prepared tag message_format payload (goes_settled self.old.base.terms.snd_settle_mode settled))
            limit self.old result self.new }
    {
        if let Some(refusal) = self.refusal(&tag, payload.len()) {
            return Err(refusal);
        }
        let settled = goes_settled(self.base.terms.snd_settle_mode, settled);
        let ready = PreparedSend::new(tag, message_format, payload, settled)?;
        self.cut(alloc, spare, ready, limit)
    }

    /// Cuts a message that is ready, and makes room for it.
    #[tactic(auto, using(crate::proofs::Cutting::cutting))]
    fn cut(
        &mut self,
        alloc: Global,
        spare: Batch,
        ready: PreparedSend,
        limit: usize,
    ) -> Result<PreparedBatch, SendRefusal>
        ensures { Cuts (room_of ready.transfer limit) ready self.old result self.new }
    {
        let PreparedSend {
            transfer,
            payload,
            entry,
        } = ready;
        let batch = split_for(alloc, spare, transfer, payload, limit)?;
        Ok(with_room(&mut self.messages, PreparedBatch { batch, entry })?)
    }

    /// Cuts what is sent behind this first transfer into transfers for frames of at most `limit` bytes: a message that is
    /// sent on, or an abort, which has no bytes (part 2, 2.6.13 and 2.6.14).
    ///
    /// The transfers stand in `spare`, as those of `send_payload`.
    ///
    /// Errors: `NoRoom` exactly where a frame has no room for a byte; `Memory`.
    pub fn send_payload_with_transfer(
        alloc: Global,
        spare: Batch,
        transfer: Transfer,
        payload: Bytes,
        limit: usize,
    ) -> Result<Batch, SplitRefusal>
        ensures ok { IfOk result (λ batch. IsSomeAnd (room_of transfer limit)
            (λ room. Splits transfer payload room batch)) }
        ensures refused { room_of transfer limit ≡ None → result ≡ Err SplitRefusal.NoRoom }
        ensures only { IfErr result (λ e. (e ≡ SplitRefusal.Memory)
            ⊎ ((e ≡ SplitRefusal.NoRoom) × (room_of transfer limit ≡ None))) }
    {
        split(alloc, spare, transfer, payload, limit)
    }
}

/// The transfers of a message that is ready.
#[tactic(auto, using(crate::proofs::Cutting::splitting))]
fn split_for(
    alloc: Global,
    spare: Batch,
    first: Transfer,
    payload: Bytes,
    limit: usize,
) -> Result<Batch, SendRefusal>
    ensures { Splitting (room_of first limit) first payload result }
{
    match split(alloc, spare, first, payload, limit) {
        Ok(batch) => Ok(batch),
        Err(error) => Err(SendRefusal::from(error)),
    }
}

impl From<SplitRefusal> for SendRefusal {
    ghost use Rattle.amqp_link_sender.specs.Payloads.{uncut};

    ghost from_gives = { λ e why. why ≡ uncut e };

    fn from(error: SplitRefusal) -> Self {
        match error {
            SplitRefusal::NoRoom => SendRefusal::IllegalState,
            SplitRefusal::Memory => SendRefusal::Memory,
        }
    }
}

//! Messages cut into transfers (part 2, 2.6.14 and 2.7.5).
ghost use Rattle.std.specs.Prelude.{◌≡◌, ◌-◌, ◌<◌, ◌⊎◌, [], ◌∷◌, ◌++◌, length, false, OnOk, IfOk, IfErr, IfSome};
ghost use Rattle.std.specs.Prelude.{IsSomeAnd, Some, None, Err};
ghost use Rattle.amqp_session_core.specs.Batch.{Transfers, first_of};
ghost use Rattle.serde_amqp_item.specs.Canon.{canon};
ghost use Rattle.amqp_link_sender.specs.Room.{room_behind, room_of, some_bytes};
ghost use Rattle.amqp_link_sender.specs.Splitting.{Splits, Rest, later, some_left};

use amqp_session_core::Batch;
use amqp_session_performatives::Transfer;
use amqp_session_types::Handle;
use bytes::Bytes;
use serde_amqp_ser::{Serialize, serialized_size};
use std::alloc::{AllocError, Global};
use thiserror::Error;

/// How many bytes stand before a frame's performative (part 2, 2.3.1).
const HEADER: usize = 8;

/// Why a message isn't cut.
#[derive(Debug, Clone, Copy, PartialEq, Eq, Error)]
pub enum SplitRefusal {
    /// A frame has no room for a byte of it.
    #[error("a frame has no room for a byte of the message")]
    NoRoom,
    /// There was no memory.
    #[error("out of memory")]
    Memory,
}

impl From<AllocError> for SplitRefusal {
    ghost use Rattle.amqp_link_sender.specs.declared.splitting.SplitRefusal.TheVariants.{Memory};

    ghost from_gives = { λ _ e. e ≡ Memory };

    fn from(_error: AllocError) -> Self {
        SplitRefusal::Memory
    }
}

/// Cuts a message into the transfers of a delivery, each of which fits in a frame of at most `limit` bytes, the frame's
/// header among them (part 2, 2.6.14 and 2.7.5). They share the payload's buffer.
///
/// `first` is what the first transfer says, but for `more`: that is told by the cut. It is measured with a delivery-id
/// of four bytes, since its session is still to write that. Each transfer carries as much as one of that size leaves,
/// and only the last one less; an empty payload is one transfer. Later transfers carry the handle and `more` alone.
///
/// They stand in `spare`, whose own are dropped if it has any: where its memory is enough they take none.
///
/// It is refused with `NoRoom` exactly where a frame has no room for a byte of the payload, and with `Memory`.
pub fn split(
    alloc: Global,
    spare: Batch,
    first: Transfer,
    payload: Bytes,
    limit: usize,
) -> Result<Batch, SplitRefusal>
    ensures ok { IfOk result (λ batch. IsSomeAnd (room_of first limit)
        (λ room. Splits first payload room batch)) }
    ensures refused { room_of first limit ≡ None → result ≡ Err SplitRefusal.NoRoom }
    ensures only { IfErr result (λ e. (e ≡ SplitRefusal.Memory)
        ⊎ ((e ≡ SplitRefusal.NoRoom) × (room_of first limit ≡ None))) }
{
    let mut first = first;
    let Some(room) = payload_room(&mut first, limit) else {
        return Err(SplitRefusal::NoRoom);
    };
    Ok(cut(alloc, spare, first, payload, room)?)
}

/// How many bytes of the payload each transfer may carry. None where there is no room for one.
fn payload_room(first: &mut Transfer, limit: usize) -> Option<usize>
    ensures same { first.new ≡ first.old }
    ensures room { result ≡ room_of first.old limit }
    ensures some { IfSome result (λ room. 0 < room) }
{
    let delivery_id = first.delivery_id;
    let more = first.more;
    first.delivery_id = Some(u32::MAX);
    first.more = true;
    let room = room_behind(first, limit);
    first.delivery_id = delivery_id;
    first.more = more;
    room
}

/// What a frame leaves behind its header and a performative, unless that is nothing.
fn room_behind<T: Serialize>(performative: &T, limit: usize) -> Option<usize>
    ensures value { result ≡ room_behind (canon (T.item performative.now)) limit }
    ensures some { IfSome result (λ room. 0 < room) }
{
    match serialized_size(performative) {
        Ok(size) => left(limit, size),
        Err(_) => None,
    }
}

/// What a frame leaves behind its header and a performative of so many bytes, unless that is nothing.
fn left(limit: usize, size: usize) -> Option<usize>
    ensures value { result ≡ some_bytes (limit - 8 - size) }
    ensures some { IfSome result (λ room. 0 < room) }
{
    let room = limit.saturating_sub(HEADER).saturating_sub(size);
    if room == 0 {
        return None;
    }
    Some(room)
}

/// Cuts a payload into transfers of at most so many bytes.
#[tactic(auto, using(crate::proofs::Splits::is_whole))]
fn cut(
    alloc: Global,
    spare: Batch,
    first: Transfer,
    payload: Bytes,
    room: usize,
) -> Result<Batch, AllocError>
    requires { 0 < room }
    ensures { IfOk result (λ batch. Splits first payload room batch) }
{
    if payload.len() <= room {
        return Ok(whole(alloc, spare, first, payload)?);
    }
    cut_up(alloc, spare, first, payload, room)
}

/// The one transfer of a payload that isn't cut.
#[inline(always)]
fn whole(alloc: Global, spare: Batch, first: Transfer, payload: Bytes) -> Result<Batch, AllocError>
    ensures { IfOk result (λ batch. batch ≡ first_of (record first { more = false }) payload ∷ []) }
{
    let mut first = first;
    first.more = false;
    let mut alone = spare;
    alone.clear();
    alone.push_first(alloc, first, payload)?;
    Ok(alone)
}

/// Cuts a payload into a first transfer and those behind it.
fn cut_up(
    alloc: Global,
    spare: Batch,
    first: Transfer,
    payload: Bytes,
    room: usize,
) -> Result<Batch, AllocError>
    requires { 0 < room }
    ensures { IfOk result (λ batch. Splits first payload room batch) }
{
    let mut first = first;
    let mut rest = payload;
    let handle = first.handle;
    let front = rest.split_to(rest.len().min(room))?;
    first.more = is_left(&rest);
    let mut batch = spare;
    batch.clear();
    batch.push_first(alloc, first, front)?;
    push_rest(alloc, &mut batch, handle, rest, room)?;
    Ok(batch)
}

/// Puts what is left of a payload behind the first transfer.
fn push_rest(
    alloc: Global,
    batch: &mut Batch,
    handle: Handle,
    payload: Bytes,
    room: usize,
) -> Result<(), AllocError>
    requires { 0 < room }
    ensures { OnOk result ((added : Transfers) × (batch.new ≡ batch.old ++ added)
        × Rest handle payload room added) }
{
    let mut rest = payload;
    while is_left(&rest) {
        let piece = rest.split_to(rest.len().min(room))?;
        let more = is_left(&rest);
        batch.push_continuation(alloc, later(handle, more), piece)?;
    }
    Ok(())
}

/// Whether any bytes are left.
#[tactic(auto, using(crate::proofs::Pushing::left_tests))]
fn is_left(bytes: &Bytes) -> bool
    ensures { result ≡ some_left bytes.now }
{
    !bytes.is_empty()
}

/// A later transfer of a delivery.
fn later(handle: Handle, more: bool) -> Transfer
    ensures { result ≡ later handle more }
{
    Transfer {
        handle,
        delivery_id: None,
        delivery_tag: None,
        message_format: None,
        settled: None,
        more,
        rcv_settle_mode: None,
        state: None,
        resume: false,
        aborted: false,
        batchable: false,
    }
}

//! How a delivery is resumed (part 2, 2.6.13).
ghost use Rattle.std.specs.Prelude.{◌≡◌, ◌+◌, ◌^◌, ◌<◌, ◌++◌, [], length, take, IfOk, OnErr, OnOk, Some};
ghost use Rattle.std.specs.Map.{set_value};
ghost use Rattle.std.specs.Str.{bytes_eq};
ghost use Rattle.amqp_link_receiver.specs.Deliveries.{found, kept_bytes, resumed_from, resumption};
ghost use Rattle.amqp_link_receiver.specs.Steps.{IsHalf};
ghost use Rattle.amqp_link_receiver.specs.declared.entry.Entry.TheVariants.{Half};

use crate::entry::Entry;
use crate::message_bytes::MessageBytes;
use amqp_link_base::{Gathered, read_place};
use amqp_link_types::ReceiverTransferError;
use amqp_link_unsettled::UnsettledMap;
use amqp_session_states::Received;
use amqp_session_types::DeliveryTag;
use bytes::Bytes;
use std::alloc::{AllocError, Global};

/// How a delivery is resumed (part 2, 2.6.13).
#[derive(Debug, Clone, Copy)]
pub enum Resumption {
    /// It goes on from so many of the bytes that are kept of it.
    From(usize),
    /// Its message is there whole.
    Joins,
}

/// How the delivery with a tag is resumed from a place.
pub(crate) fn how_resumed(
    unsettled: &UnsettledMap<Entry>,
    tag: &DeliveryTag,
    place: Option<Received>,
) -> Result<Resumption, ReceiverTransferError>
    ensures { result ≡ resumption (found unsettled.now.entries tag.now) place }
{
    match unsettled.get(tag) {
        None => Err(ReceiverTransferError::IllegalState),
        Some(Entry::Half(kept)) => match half_from(kept, place) {
            Some(at) => Ok(Resumption::From(at)),
            None => Err(ReceiverTransferError::IllegalState),
        },
        Some(Entry::Whole(message)) => match whole_from(&message.payload, place) {
            Some(_) => Ok(Resumption::Joins),
            None => Err(ReceiverTransferError::IllegalState),
        },
    }
}

/// Where a place stands in the bytes that are kept, or their end where it isn't named.
fn half_from(kept: &Gathered, place: Option<Received>) -> Option<usize>
    ensures { result ≡ resumed_from kept.now place }
{
    match place {
        Some(place) => kept.read_place(place),
        None => Some(kept.size()),
    }
}

/// Where a place stands in a message, or its end where it isn't named.
fn whole_from(payload: &MessageBytes, place: Option<Received>) -> Option<usize>
    ensures { result ≡ resumed_from payload.now place }
{
    match place {
        Some(place) => read_place(payload.as_bytes(), place),
        None => Some(payload.as_bytes().len()),
    }
}

/// How many bytes the first ones are that are kept of a delivery.
pub(crate) fn front_size(unsettled: &UnsettledMap<Entry>, tag: &DeliveryTag, at: usize) -> u64
    requires { IsHalf (found unsettled.now.entries tag.now) }
    ensures { result ≡ length (take at (kept_bytes (found unsettled.now.entries tag.now))) }
{
    match unsettled.get(tag) {
        Some(Entry::Half(kept)) => at.min(kept.size()) as u64,
        _ => unreachable!(),
    }
}

/// Takes the bytes that are kept of a delivery out, and leaves none.
pub(crate) fn take_half(
    alloc: Global,
    unsettled: &mut UnsettledMap<Entry>,
    tag: &DeliveryTag,
) -> Gathered
    requires { IsHalf (found unsettled.old.entries tag.now) }
    ensures kept { found unsettled.old.entries tag.now ≡ Some (Half result) }
    ensures entries { unsettled.new.entries
        ≡ set_value (bytes_eq tag.now) unsettled.old.entries (Half []) }
{
    match unsettled.replace(tag, Entry::Half(Gathered::new(alloc))) {
        Entry::Half(kept) => kept,
        Entry::Whole(_) => unreachable!(),
    }
}

/// The first of the bytes that were taken out, with these behind them. Where there is no memory the bytes are put back.
pub(crate) fn push_half(
    unsettled: &mut UnsettledMap<Entry>,
    tag: &DeliveryTag,
    mut kept: Gathered,
    at: usize,
    payload: Bytes,
) -> Result<Gathered, AllocError>
    requires half { IsHalf (found unsettled.old.entries tag.now) }
    requires short { length (take at kept) + length payload < 2 ^ 32 }
    ensures bytes { IfOk result (λ bytes. bytes ≡ take at kept ++ payload) }
    ensures ok { OnOk result (unsettled.new.entries ≡ unsettled.old.entries) }
    ensures err { OnErr result (unsettled.new.entries
        ≡ set_value (bytes_eq tag.now) unsettled.old.entries (Half kept)) }
{
    match kept.push_behind(at, payload) {
        Ok(()) => Ok(kept),
        Err(error) => {
            put_half(unsettled, tag, kept);
            Err(error)
        }
    }
}

/// Puts the bytes that were taken out back.
pub(crate) fn put_half(unsettled: &mut UnsettledMap<Entry>, tag: &DeliveryTag, kept: Gathered)
    requires { IsHalf (found unsettled.old.entries tag.now) }
    ensures { unsettled.new.entries ≡ set_value (bytes_eq tag.now) unsettled.old.entries
        (Half kept) }
{
    let _ = unsettled.replace(tag, Entry::Half(kept));
}

/// The first of the bytes that are kept of a delivery, with these behind them.
pub(crate) fn joined_from(
    alloc: Global,
    unsettled: &UnsettledMap<Entry>,
    tag: &DeliveryTag,
    at: usize,
    last: &Bytes,
) -> Result<Bytes, AllocError>
    requires { IsHalf (found unsettled.now.entries tag.now) }
    ensures { IfOk result (λ all. all ≡ take at (kept_bytes (found unsettled.now.entries tag.now))
        ++ last.now) }
{
    match unsettled.get(tag) {
        Some(Entry::Half(kept)) => kept.join(alloc, at, last),
        _ => unreachable!(),
    }
}

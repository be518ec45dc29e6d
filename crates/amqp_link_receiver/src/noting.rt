//! How deliveries are entered among the unsettled ones (part 2, 2.6.12).
ghost use Rattle.std.specs.Prelude.{◌≡◌, ◌<◌, ◌||◌, [], IsSome, IfOk, OnOk, false, if◌then◌else◌};
ghost use Rattle.std.specs.Map.{set_value};
ghost use Rattle.std.specs.Str.{bytes_eq};
ghost use Rattle.amqp_link_receiver.specs.Deliveries.{found};
ghost use Rattle.amqp_link_receiver.specs.declared.entry.Entry.TheVariants.{Half};
ghost use Rattle.amqp_link_receiver.specs.Receiving.{entered, noted, without};
ghost use Rattle.amqp_link_receiver.specs.Steps.{key_of, renumbered_as};

use crate::arriving::Incoming;
use crate::attachment::Attachment;
use crate::entry::{Entry, Note};
use amqp_link_base::Gathered;
use amqp_link_unsettled::UnsettledMap;
use amqp_session_types::{DeliveryTag, ReceiverSettleMode};
use std::alloc::{AllocError, Global};

/// A key for a delivery that is to be entered, and room for it. None where it has an entry, and where it gets none.
pub(crate) fn make_room(
    unsettled: &mut UnsettledMap<Entry>,
    tag: &DeliveryTag,
    without: bool,
) -> Result<Option<DeliveryTag>, AllocError>
    ensures entries { unsettled.new.entries ≡ unsettled.old.entries }
    ensures key { IfOk result (λ key. key
        ≡ key_of without tag.now (found unsettled.old.entries tag.now)) }
    ensures room { IfOk result (λ key. IsSome key → 0 < unsettled.new.room) }
{
    if without {
        return Ok(None);
    }
    if unsettled.contains(tag) {
        return Ok(None);
    }
    Ok(Some(fresh_key(unsettled, tag)?))
}

/// A key for a delivery that has no entry and is to be entered, and room for it.
pub(crate) fn fresh_key(
    unsettled: &mut UnsettledMap<Entry>,
    tag: &DeliveryTag,
) -> Result<DeliveryTag, AllocError>
    ensures entries { unsettled.new.entries ≡ unsettled.old.entries }
    ensures key { IfOk result (λ key. key ≡ tag.now) }
    ensures room { OnOk result (0 < unsettled.new.room) }
{
    let key = tag.clone()?;
    unsettled.reserve(1)?;
    Ok(key)
}

/// Enters a delivery for which there is room: in the place of its entry, or behind the others.
pub(crate) fn enter(
    unsettled: &mut UnsettledMap<Entry>,
    key: Option<DeliveryTag>,
    tag: &DeliveryTag,
    entry: Entry,
)
    requires key { key ≡ key_of false tag.now (found unsettled.old.entries tag.now) }
    requires room { IsSome key → 0 < unsettled.old.room }
    ensures { unsettled.new.entries ≡ entered unsettled.old.entries tag.now entry }
{
    match key {
        Some(key) => unsettled.insert_reserved(key, entry),
        None => put(unsettled, tag, entry),
    }
}

/// Puts an entry in the place of the one that a delivery has.
pub(crate) fn put(unsettled: &mut UnsettledMap<Entry>, tag: &DeliveryTag, entry: Entry)
    requires { IsSome (found unsettled.old.entries tag.now) }
    ensures { unsettled.new.entries ≡ set_value (bytes_eq tag.now) unsettled.old.entries entry }
{
    let _ = unsettled.replace(tag, entry);
}

/// Gives a message that is there whole the number of its delivery in the present attachment.
pub(crate) fn renumber(
    attachment: Attachment,
    unsettled: &mut UnsettledMap<Entry>,
    tag: &DeliveryTag,
    number: u32,
    rcv_settle_mode: Option<ReceiverSettleMode>,
)
    ensures { unsettled.new.entries ≡ renumbered_as attachment unsettled.old.entries tag.now number
        rcv_settle_mode }
{
    let note = Note::Numbered {
        attachment: attachment.count,
        number,
        rcv_settle_mode,
    };
    unsettled.note_where_kept(tag, note);
}

/// Notes that transfers of a delivery are coming in: where it is settled nothing is kept of it.
pub(crate) fn note(
    alloc: Global,
    attachment: Attachment,
    unsettled: &mut UnsettledMap<Entry>,
    key: Option<DeliveryTag>,
    delivery: &Incoming<Gathered>,
)
    requires key { key ≡ key_of (delivery.now.settled || delivery.now.joins)
        delivery.now.delivery_tag (found unsettled.old.entries delivery.now.delivery_tag) }
    requires room { IsSome key → 0 < unsettled.old.room }
    ensures { unsettled.new.entries ≡ noted attachment unsettled.old.entries delivery.now
        (Half []) }
{
    let tag = &delivery.delivery_tag;
    if delivery.settled {
        let _ = unsettled.remove(tag);
        return;
    }
    if delivery.joins {
        let number = delivery.delivery_id;
        let mode = delivery.rcv_settle_mode;
        renumber(attachment, unsettled, tag, number, mode);
        return;
    }
    enter(unsettled, key, tag, Entry::Half(Gathered::new(alloc)));
}

/// Keeps nothing of a delivery that is settled.
pub(crate) fn forget_settled(unsettled: &mut UnsettledMap<Entry>, delivery: &Incoming<Gathered>)
    ensures { unsettled.new.entries ≡ (if delivery.now.settled then without unsettled.old.entries
        delivery.now.delivery_tag else unsettled.old.entries) }
{
    if delivery.settled {
        let _ = unsettled.remove(&delivery.delivery_tag);
    }
}

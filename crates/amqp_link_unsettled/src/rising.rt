//! How a delivery is found by its number, where the numbers rise in the order in which the deliveries were registered.
ghost use Rattle.std.specs.Prelude.{◌≡◌, ◌<◌, Some, length, nat_le, option_copied};
ghost use Rattle.amqp_link_unsettled.specs.Numbers.{tag_with};
ghost use Rattle.amqp_link_unsettled.specs.Rising.{InOrder, Rising, ends, raised, restamped, same_number, standing};

use crate::iter::Iter;
use crate::slot::{Numbered, Slot, is_number};
use amqp_session_types::DeliveryTag;
use indexmap::map::Slice;

/// What is more than each number, once a delivery that bears this one is registered behind the others; None where the
/// numbers don't rise.
pub(crate) fn raised(bound: Option<u64>, number: Option<u64>) -> Option<u64>
    ensures { result ≡ raised bound number }
{
    let Some(bound) = bound else {
        return None;
    };
    let Some(number) = number else {
        return Some(bound);
    };
    if number < bound {
        return None;
    }
    if number == u64::MAX {
        return None;
    }
    Some(number + 1)
}

/// What is more than each number up to a delivery and than each of all deliveries, once the delivery bears another
/// number.
pub(crate) fn restamped(
    below: u64,
    bound: Option<u64>,
    is_last: bool,
    before: Option<u64>,
    after: Option<u64>,
) -> (u64, Option<u64>)
    ensures { result ≡ restamped below bound is_last before after }
{
    if is_same(before, after) {
        return (below, bound);
    }
    if !is_last {
        return (below, None);
    }
    match raised(bound, after) {
        Some(bound) => (bound, Some(bound)),
        None => (below, None),
    }
}

/// Whether two deliveries bear the same number, or none.
fn is_same(one: Option<u64>, other: Option<u64>) -> bool
    ensures { result ≡ same_number one other }
{
    match other {
        Some(other) => is_number(other, one),
        None => one.is_none(),
    }
}

/// The tag of the first delivery that bears this number, where the numbers rise to a bound.
pub(crate) fn search<'a, M: Numbered>(
    slots: Slice<'a, DeliveryTag, Slot<M>>,
    bound: u64,
    number: u64,
) -> Option<&'a DeliveryTag>
    requires { InOrder M.number_of (Some bound) slots }
    ensures { option_copied result ≡ tag_with M.number_of number (standing slots.entry) }
{
    let mut rest = guessed(slots, bound, number);
    while rest.len() > 1 {
        let half = rest.len() / 2;
        rest = cut(rest, half, number);
    }
    let (first, _) = rest.split_first()?;
    let (tag, slot) = first;
    if slot.bears(number) {
        return Some(tag);
    }
    None
}

/// The deliveries among which the one with this number is, cut where it stands if each number follows the one before.
fn guessed<'a, M: Numbered>(
    slots: Slice<'a, DeliveryTag, Slot<M>>,
    bound: u64,
    number: u64,
) -> Slice<'a, DeliveryTag, Slot<M>>
    requires { InOrder M.number_of (Some bound) slots }
    ensures same { tag_with M.number_of number (standing result)
        ≡ tag_with M.number_of number (standing slots.entry) }
    ensures rises { Rising M.number_of result }
{
    let behind = bound.saturating_sub(number) as usize;
    let at = slots.len().saturating_sub(behind);
    let from = cut(slots, at, number);
    cut(from, 1, number)
}

/// The part of some deliveries in which the one with this number is, where they are cut at this place.
fn cut<'a, M: Numbered>(
    slots: Slice<'a, DeliveryTag, Slot<M>>,
    at: usize,
    number: u64,
) -> Slice<'a, DeliveryTag, Slot<M>>
    requires { Rising M.number_of slots }
    ensures same { tag_with M.number_of number (standing result)
        ≡ tag_with M.number_of number (standing slots.entry) }
    ensures rises { Rising M.number_of result }
    ensures shorter { 0 < at → at < length slots.entry → length result < length slots.entry }
{
    if at == 0 {
        return slots;
    }
    if at >= slots.len() {
        return slots;
    }
    let (front, back) = slots.split_at(at);
    if ends_below(&front, number) {
        return back;
    }
    front
}

/// Whether no delivery of these bears this number or a greater one.
fn ends_below<M>(slots: &Slice<'_, DeliveryTag, Slot<M>>, number: u64) -> bool
    ensures { result ≡ nat_le (ends 0 slots.now) number }
{
    let Some((last, _)) = slots.split_last() else {
        return true;
    };
    let (_, slot) = last;
    slot.below <= number
}

/// The tag of the first delivery that bears this number, in whatever order the numbers are.
pub(crate) fn first_with<'a, M: Numbered>(
    entries: Iter<'a, M>,
    number: u64,
) -> Option<&'a DeliveryTag>
    ensures { option_copied result ≡ tag_with M.number_of number entries.entry }
{
    let mut entries = entries;
    while let Some((tag, message)) = entries.next() {
        if is_number(number, message.number()) {
            return Some(tag);
        }
    }
    None
}

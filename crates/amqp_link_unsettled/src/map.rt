//! The unsettled deliveries of a link, in the order in which they were registered (part 2, 2.6.12).
ghost use Rattle.std.specs.Prelude.{◌≡◌, ℕ, ◌==◌, ◌+◌, ◌-◌, ◌<◌, ◌≤◌, ◌^◌, List, [], ◌∷◌, ◌++◌, length, max, min};
ghost use Rattle.std.specs.Prelude.{is_some, Option, None, Some, IsSome, IfSome, IfNone, IsOk, OnOk, OnErr, option_copied};
ghost use Rattle.std.specs.Prelude.{filter, reverse};
ghost use Rattle.std.specs.List.{IsDistinct};
ghost use Rattle.std.specs.Map.{keys_of, lookup, remove_entry, set_value};
ghost use Rattle.std.specs.Map.Iter.{ShowsInOrder, deref_pair};
ghost use Rattle.std.specs.Option.{option_to_list};
ghost use Rattle.std.specs.Str.{bytes_eq};
ghost use Rattle.indexmap.specs.IndexMap.{index_map_len, spare};
ghost use Rattle.amqp_link_unsettled.specs.Entries.{changed};
ghost use Rattle.amqp_link_unsettled.specs.Numbers.{tag_with};
ghost use Rattle.amqp_link_unsettled.specs.Rising.{InOrder, standing};

use crate::iter::Iter;
use crate::rising::{first_with, raised, restamped, search};
use crate::slot::{Numbered, Slot};
use amqp_session_types::DeliveryTag;
use indexmap::IndexMap;
use std::alloc::{AllocError, Global};
use std::marker::Model;

/// What a link keeps of its unsettled deliveries, by their tags, in the order in which they were registered
/// (part 2, 2.6.12).
///
/// A delivery is taken out without memory, and the others keep their order. Registering deliveries and taking them out
/// again, in whatever order, takes time by their number.
///
/// A clause sees the record `Kept`: the deliveries in order, no two of one tag, and for how many more there is room.
#[derive(Drop)]
pub struct UnsettledMap<M: Numbered> {
    /// A delivery that was taken out leaves its tag, without a value, until such tags are swept out.
    slots: IndexMap<DeliveryTag, Slot<M>>,
    /// How many of them have a value.
    count: usize,
    room: usize,
    /// More than each number that a delivery bears, where these rise in the order of the deliveries; None where they
    /// don't.
    bound: Option<u64>,
}

impl<M: Numbered> Model for UnsettledMap<M> {
    ghost use Rattle.std.specs.Prelude.{◌≡◌, ◌≤◌, length};
    ghost use Rattle.indexmap.specs.IndexMap.{spare};
    ghost use Rattle.amqp_link_unsettled.specs.Entries.{Kept};
    ghost use Rattle.amqp_link_unsettled.specs.Rising.{InOrder, standing};

    ghost Value = { Kept M };

    ghost view = { λ u. record { entries = standing u.slots.entries; room = u.room } };

    ghost invariant = { λ u. (u.count ≡ length (standing u.slots.entries)) × (u.room ≤ spare u.slots) × InOrder M.number_of u.bound u.slots.entries };
}

/// What keeps something that is told of its delivery.
pub trait Noting {
    /// What is told.
    type Note: Drop;

    /// It, once this is told.
    ghost noted: { Self → Self.Note → Self };

    /// Notes what is told.
    fn note(&mut self, note: Self::Note)
        ensures { self.new ≡ noted self.old note };
}

impl<M: Numbered + Drop> UnsettledMap<M> {
    /// No deliveries. It takes no memory.
    pub fn new(alloc: Global) -> Self
        ensures { result ≡ record { entries = []; room = 0 } }
    {
        UnsettledMap {
            slots: IndexMap::new(alloc),
            count: 0,
            room: 0,
            bound: Some(0),
        }
    }

    /// How many deliveries there are. No two of them have one tag.
    #[tactic(auto, using(crate::proofs::Standing::rules))]
    pub fn len(&self) -> usize
        ensures len { result ≡ length self.now.entries }
        ensures apart { IsDistinct bytes_eq (keys_of self.now.entries) }
    {
        let _ = self.slots.len();
        self.count
    }

    /// Whether there are none.
    pub fn is_empty(&self) -> bool
        ensures { result ≡ (length self.now.entries == 0) }
    {
        self.count == 0
    }

    /// Whether there is a delivery with this tag.
    pub fn contains(&self, tag: &DeliveryTag) -> bool
        ensures { result ≡ is_some (lookup (bytes_eq tag.now) self.now.entries) }
    {
        self.get(tag).is_some()
    }

    /// What is kept of the delivery with this tag, if there is one.
    #[tactic(auto, using(crate::proofs::Standing::rules))]
    pub fn get(&self, tag: &DeliveryTag) -> Option<&M>
        ensures { option_copied result ≡ lookup (bytes_eq tag.now) self.now.entries }
    {
        if self.count == 0 {
            return None;
        }
        let _ = self.slots.len();
        self.slots.get(tag)?.kept.as_ref()
    }

    /// The tag of the first delivery that bears this number. Where the numbers rise in the order in which the deliveries
    /// were registered, it takes hardly more time for many deliveries than for few.
    pub fn find(&self, number: u64) -> Option<&DeliveryTag>
        ensures { option_copied result ≡ tag_with M.number_of number self.now.entries }
    {
        match self.bound {
            Some(bound) => search(self.slots.as_slice(), bound, number),
            None => first_with(self.iter(), number),
        }
    }

    /// Keeps something else of the delivery with this tag, which there must be, and hands back what was kept.
    pub fn replace(&mut self, tag: &DeliveryTag, message: M) -> M
        requires { IsSome (lookup (bytes_eq tag.now) self.old.entries) }
        ensures earlier { lookup (bytes_eq tag.now) self.old.entries ≡ Some result }
        ensures entries { self.new
            ≡ record self.old { entries = set_value (bytes_eq tag.now) self.old.entries message } }
    {
        exchange(&mut self.slots, &mut self.bound, tag, message)
    }

    /// Notes something of the delivery with this tag, which there must be.
    #[tactic(auto, using(crate::proofs::Noted::changed_some))]
    pub fn note(&mut self, tag: &DeliveryTag, note: M::Note)
    where
        M: Noting,
        requires { IsSome (lookup (bytes_eq tag.now) self.old.entries) }
        ensures { IfSome (lookup (bytes_eq tag.now) self.old.entries) (λ m. self.new
            ≡ record self.old { entries = set_value (bytes_eq tag.now) self.old.entries (M.noted m note) }) }
    {
        self.note_where_kept(tag, note);
    }

    /// Notes something of the delivery with this tag, if there is one.
    pub fn note_where_kept(&mut self, tag: &DeliveryTag, note: M::Note)
    where
        M: Noting,
        ensures { self.new ≡ record self.old
            { entries = changed (λ m. M.noted m note) tag.now self.old.entries } }
    {
        self.bound = note_in(&mut self.slots, self.bound, tag, note);
    }

    /// For how many more deliveries there is room.
    pub fn room(&self) -> usize
        ensures { result ≡ self.now.room }
    {
        self.room
    }

    /// Makes room, so that so many more deliveries are registered without memory. Where there is none nothing changes.
    pub fn reserve(&mut self, count: usize) -> Result<(), AllocError>
        ensures ok { OnOk result (self.new ≡ record self.old { room = max self.old.room count }) }
        ensures err { OnErr result (self.new ≡ self.old) }
        ensures room { count ≤ self.old.room → IsOk result }
    {
        let room = self.room.max(count);
        self.slots.reserve(room)?;
        self.room = room;
        Ok(())
    }

    /// Gives up room that was made: so many more deliveries at most are sure to find room then. It takes no memory.
    pub fn lower_room(&mut self, room: usize)
        ensures { self.new ≡ record self.old { room = min self.old.room room } }
    {
        self.room = self.room.min(room);
    }

    /// Registers a delivery behind the others. There must be room for it, and no other delivery with its tag.
    pub fn insert_reserved(&mut self, tag: DeliveryTag, message: M)
        requires room { 0 < self.old.room }
        requires absent { lookup (bytes_eq tag) self.old.entries ≡ None }
        ensures { self.new ≡ record {
          entries = self.old.entries ++ (tag, message) ∷ [];
          room = self.old.room - 1;
        } }
    {
        self.bound = enter(&mut self.slots, self.bound, self.count, tag, message);
        self.count += 1;
        self.room -= 1;
    }

    /// Takes a delivery out, if there is one with this tag. The others keep their order. It takes no memory.
    pub fn remove(&mut self, tag: &DeliveryTag) -> Option<M>
        ensures value { result ≡ lookup (bytes_eq tag.now) self.old.entries }
        ensures others { self.new ≡ record self.old
            { entries = remove_entry (bytes_eq tag.now) self.old.entries } }
    {
        if self.count == 0 {
            return None;
        }
        let message = take_out(&mut self.slots, tag)?;
        self.count -= 1;
        sweep_where_due(&mut self.slots, self.count);
        Some(message)
    }

    /// Takes all deliveries out. The room stays.
    pub fn clear(&mut self)
        ensures { self.new ≡ record self.old { entries = [] } }
    {
        self.slots.clear();
        self.count = 0;
        self.bound = Some(0);
    }

    /// The deliveries in the order in which they were registered.
    #[tactic(auto, using(crate::proofs::Standing::rules))]
    pub fn iter(&self) -> Iter<'_, M>
        ensures rest { result ≡ self.now.entries }
        ensures runs { ShowsInOrder (deref_pair {K = List ℕ} {X = M}) }
        ensures fits { length self.now.entries < 2 ^ 63 }
        ensures apart { IsDistinct bytes_eq (keys_of self.now.entries) }
    {
        Iter {
            slots: self.slots.iter(),
        }
    }

    /// Turns the order of the deliveries round.
    #[tactic(auto, using(crate::proofs::Standing::rules))]
    pub fn reverse(&mut self)
        ensures { self.new ≡ record self.old { entries = reverse self.old.entries } }
    {
        self.slots.reverse();
        self.bound = None;
    }

    /// Takes the last delivery out, if there is one. It takes no memory.
    pub fn pop_last(&mut self) -> Option<(DeliveryTag, M)>
        ensures entries { self.old.entries ≡ self.new.entries ++ option_to_list result }
        ensures none { IfNone result (self.new.entries ≡ []) }
        ensures room { self.new.room ≡ self.old.room }
    {
        let last = pop_live(&mut self.slots)?;
        self.count -= 1;
        Some(last)
    }
}

/// Enters a delivery behind the others, of which there are so many, and answers the bound of their numbers.
fn enter<M: Numbered + Drop>(
    slots: &mut IndexMap<DeliveryTag, Slot<M>>,
    bound: Option<u64>,
    count: usize,
    tag: DeliveryTag,
    message: M,
) -> Option<u64>
    requires count { count ≡ length (standing slots.old.entries) }
    requires room { 0 < spare slots.old }
    requires absent { lookup (bytes_eq tag) (standing slots.old.entries) ≡ None }
    requires order { InOrder M.number_of bound slots.old.entries }
    ensures entries { standing slots.new.entries ≡ standing slots.old.entries ++ (tag, message) ∷ [] }
    ensures room { spare slots.old ≤ spare slots.new + 1 }
    ensures fits { length (standing slots.new.entries) < 2 ^ 63 }
    ensures order { InOrder M.number_of result slots.new.entries }
{
    let bound = begun(slots, bound, count);
    forget(slots, count, &tag);
    let bound = raised(bound, message.number());
    push(slots, bound.unwrap_or(0), tag, message);
    bound
}

/// The bound of the numbers of deliveries, of which there are so many. Where there are none, the numbers rise.
fn begun<M: Numbered + Drop>(
    slots: &mut IndexMap<DeliveryTag, Slot<M>>,
    bound: Option<u64>,
    count: usize,
) -> Option<u64>
    requires count { count ≡ length (standing slots.old.entries) }
    requires order { InOrder M.number_of bound slots.old.entries }
    ensures entries { standing slots.new.entries ≡ standing slots.old.entries }
    ensures room { spare slots.old ≤ spare slots.new }
    ensures order { InOrder M.number_of result slots.new.entries }
{
    if count != 0 {
        return bound;
    }
    if bound.is_some() {
        return bound;
    }
    slots.clear();
    Some(0)
}

/// Sees to it that a tag without a value isn't there at all. It is looked for only where some tag has none.
fn forget<M: Numbered + Drop>(
    slots: &mut IndexMap<DeliveryTag, Slot<M>>,
    count: usize,
    tag: &DeliveryTag,
)
    requires count { count ≡ length (standing slots.old.entries) }
    requires absent { lookup (bytes_eq tag.now) (standing slots.old.entries) ≡ None }
    ensures entries { standing slots.new.entries ≡ standing slots.old.entries }
    ensures gone { lookup (bytes_eq tag.now) slots.new.entries ≡ None }
    ensures room { spare slots.old ≤ spare slots.new }
    ensures order { (b : Option ℕ) → InOrder M.number_of b slots.old.entries
        → InOrder M.number_of b slots.new.entries }
{
    if slots.len() == count {
        return;
    }
    if !slots.contains_key(tag) {
        return;
    }
    sweep(slots);
}

/// Enters a delivery whose tag isn't there at all.
fn push<M: Drop>(
    slots: &mut IndexMap<DeliveryTag, Slot<M>>,
    below: u64,
    tag: DeliveryTag,
    message: M,
)
    requires room { 0 < spare slots.old }
    requires absent { lookup (bytes_eq tag) slots.old.entries ≡ None }
    ensures entries { slots.new.entries ≡ slots.old.entries
        ++ (tag, record { below = below; kept = Some message }) ∷ [] }
    ensures room { spare slots.old ≤ spare slots.new + 1 }
    ensures fits { length slots.new.entries < 2 ^ 63 }
{
    let kept = Some(message);
    match slots.insert(tag, Slot { below, kept }) {
        Ok(_) => {}
        Err(_) => unreachable!(),
    }
    let _ = slots.len();
}

/// Puts another value in the place of that of a tag, which has one.
fn exchange<M: Numbered + Drop>(
    slots: &mut IndexMap<DeliveryTag, Slot<M>>,
    bound: &mut Option<u64>,
    tag: &DeliveryTag,
    message: M,
) -> M
    requires there { IsSome (lookup (bytes_eq tag.now) (standing slots.old.entries)) }
    requires order { InOrder M.number_of bound.old slots.old.entries }
    ensures earlier { lookup (bytes_eq tag.now) (standing slots.old.entries) ≡ Some result }
    ensures entries { standing slots.new.entries
        ≡ set_value (bytes_eq tag.now) (standing slots.old.entries) message }
    ensures room { spare slots.new ≡ spare slots.old }
    ensures order { InOrder M.number_of bound.new slots.new.entries }
{
    let Some(slot) = slots.get_mut(tag) else {
        unreachable!()
    };
    let after = message.number();
    let earlier = slot.kept.replace(message).unwrap();
    let (below, raised) = restamped(slot.below, *bound, false, earlier.number(), after);
    slot.below = below;
    *bound = raised;
    earlier
}

/// Notes something of the value of a tag, if it has one, and answers the bound of the numbers.
fn note_in<M: Noting + Numbered + Drop>(
    slots: &mut IndexMap<DeliveryTag, Slot<M>>,
    bound: Option<u64>,
    tag: &DeliveryTag,
    note: M::Note,
) -> Option<u64>
    requires { InOrder M.number_of bound slots.old.entries }
    ensures entries { standing slots.new.entries
        ≡ changed (λ m. M.noted m note) tag.now (standing slots.old.entries) }
    ensures room { spare slots.new ≡ spare slots.old }
    ensures order { InOrder M.number_of result slots.new.entries }
{
    let Some(index) = slots.get_index_of(tag) else {
        return bound;
    };
    let count = slots.len();
    let is_last = index + 1 == count;
    let slot = &mut slots[index];
    let Some(message) = &mut slot.kept else {
        return bound;
    };
    let before = message.number();
    message.note(note);
    let after = message.number();
    let (below, bound) = restamped(slot.below, bound, is_last, before, after);
    slot.below = below;
    bound
}

/// Takes the value of a tag out, if it has one.
fn take_out<M: Numbered>(slots: &mut IndexMap<DeliveryTag, Slot<M>>, tag: &DeliveryTag) -> Option<M>
    ensures value { result ≡ lookup (bytes_eq tag.now) (standing slots.old.entries) }
    ensures others { standing slots.new.entries
        ≡ remove_entry (bytes_eq tag.now) (standing slots.old.entries) }
    ensures room { spare slots.new ≡ spare slots.old }
    ensures order { (b : Option ℕ) → InOrder M.number_of b slots.old.entries
        → InOrder M.number_of b slots.new.entries }
{
    slots.get_mut(tag)?.kept.take()
}

/// Takes the tags without a value out where they are more than so many.
fn sweep_where_due<M: Numbered + Drop>(slots: &mut IndexMap<DeliveryTag, Slot<M>>, count: usize)
    ensures entries { standing slots.new.entries ≡ standing slots.old.entries }
    ensures room { spare slots.old ≤ spare slots.new }
    ensures order { (b : Option ℕ) → InOrder M.number_of b slots.old.entries
        → InOrder M.number_of b slots.new.entries }
{
    if slots.len() / 2 <= count {
        return;
    }
    sweep(slots);
}

/// Takes the tags without a value out.
fn sweep<M: Drop>(slots: &mut IndexMap<DeliveryTag, Slot<M>>)
    ensures entries { slots.new.entries ≡ filter (λ e. is_some (e.1).kept) slots.old.entries }
    ensures room { spare slots.old ≤ spare slots.new }
{
    slots.retain(
        |_tag: &DeliveryTag, slot: &mut Slot<M>| -> bool
            ensures { (result ≡ is_some (slot.old).kept) × (slot.new ≡ slot.old) }
        { slot.kept.is_some() },
    );
}

/// Takes the last value out with its tag, and the tags without a value behind it.
fn pop_live<M: Numbered + Drop>(
    slots: &mut IndexMap<DeliveryTag, Slot<M>>,
) -> Option<(DeliveryTag, M)>
    ensures entries { standing slots.old.entries ≡ standing slots.new.entries ++ option_to_list result }
    ensures none { IfNone result (standing slots.new.entries ≡ []) }
    ensures room { spare slots.old ≤ spare slots.new }
    ensures order { (b : Option ℕ) → InOrder M.number_of b slots.old.entries
        → InOrder M.number_of b slots.new.entries }
{
    while let Some((tag, slot)) = slots.pop() {
        let Slot { below: _, kept } = slot;
        if let Some(message) = kept {
            return Some((tag, message));
        }
    }
    None
}

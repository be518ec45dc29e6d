//! What lives, by the numbers that it was given.
ghost use Rattle.std.specs.Prelude.{◌≡◌, ◌+◌, ◌^◌, ◌<◌, ◌≤◌, ◌++◌, [], ◌∷◌, IfNone, IsSome, OnOk, OnSome, None, Some, length};
ghost use Rattle.std.specs.Prelude.{ℕ, cond, nat_eq, option_copied, slice_get, slice_set};
ghost use Rattle.std.specs.Option.{option_copied_mut};
ghost use types.Logic.{sem};
ghost use Rattle.std.specs.Map.{lookup};
ghost use Rattle.std.specs.Vec.{vec_len, vec_capacity};
ghost use Rattle.indexmap.specs.IndexMap.{index_of, insert_entry, spare, IsUnique};
ghost use Rattle.amqp_endpoint_tables.specs.Spread.{beside, living};
ghost use Rattle.amqp_endpoint_tables.specs.LendsNumbered.{lends_living, lends_slot};

use indexmap::IndexMap;
use std::alloc::{AllocError, Global};
use std::marker::Model;

/// What was given numbers, which count from 0 and never come back. Of what was taken out nothing is kept.
///
/// A clause sees the record `Slots`.
pub(crate) struct Numbered<X> {
    /// The numbers of what lives, in its order.
    places: IndexMap<u64, ()>,
    live: Vec<X>,
    /// How many numbers were given.
    next: u64,
}

impl<X: Drop> Drop for Numbered<X> {
    fn drop(self) {
        let Numbered {
            places: _,
            live: _,
            next: _,
        } = self;
    }
}

impl<X> Model for Numbered<X> {
    ghost use Rattle.std.specs.Prelude.{◌≡◌, ◌-◌, length, min};
    ghost use Rattle.std.specs.Coded.{codes};
    ghost use Rattle.std.specs.Vec.{vec_len, vec_capacity};
    ghost use Rattle.indexmap.specs.IndexMap.{spare};
    ghost use Rattle.amqp_endpoint_tables.specs.Spread.{AreGiven, Slots, beside, spread};

    ghost Value = { Slots X };

    ghost coded = { Prim.hlevel (codes) };

    ghost view = { λ s. record {
      items = spread s.next (beside s.places.entries s.live.items);
      spare = min (spare s.places) (vec_capacity s.live - vec_len s.live);
    } };

    ghost invariant = { λ s. AreGiven s.next (beside s.places.entries s.live.items)
        × (length s.live.items ≡ length s.places.entries) };
}

impl<X: Drop> Numbered<X> {
    /// Nothing. It takes no memory.
    pub(crate) fn new(alloc: Global) -> Self
        ensures { result.items ≡ [] }
    {
        Numbered {
            places: IndexMap::new(alloc),
            live: Vec::new(alloc),
            next: 0,
        }
    }

    /// The number that is given next.
    pub(crate) fn next(&self) -> u64
        ensures { result ≡ length self.now.items }
    {
        self.next
    }

    /// What lives at a number.
    pub(crate) fn get(&self, number: u64) -> Option<&X>
        ensures { option_copied result ≡ living self.now.items number }
    {
        match self.places.get_index_of(&number) {
            Some(index) => item_at(&self.live, index),
            None => None,
        }
    }

    /// What lives at a number, to be changed.
    pub(crate) fn get_mut(&mut self, number: u64) -> Option<&mut X>
        ensures* writes_back { sem 𝓛 (lends_slot X.row self.entry number result) }
        ensures value { option_copied_mut result ≡ living self.old.items number }
    {
        match self.places.get_index_of(&number) {
            Some(index) => Some(&mut self.live[index]),
            None => None,
        }
    }

    /// What lives at a number, where something does, to be changed.
    pub(crate) fn at_mut(&mut self, number: u64) -> &mut X
        requires { IsSome (living self.old.items number) }
        ensures* lends { sem 𝓛 (lends_living X.row self.entry number result) }
        ensures value { living self.old.items number ≡ Some result.now }
    {
        let Some(index) = self.places.get_index_of(&number) else {
            unreachable!()
        };
        &mut self.live[index]
    }

    /// Makes room for so many more.
    pub(crate) fn reserve(&mut self, additional: usize) -> Result<(), AllocError>
        ensures items { self.new.items ≡ self.old.items }
        ensures ok { OnOk result (additional ≤ self.new.spare) }
        ensures spare { self.old.spare ≤ self.new.spare }
    {
        self.places.reserve(additional)?;
        self.live.reserve(additional)
    }

    /// Gives the next number, for which there is room.
    pub(crate) fn push(&mut self, item: X)
        requires spare { 0 < self.old.spare }
        requires next { length self.old.items + 1 < 2 ^ 64 }
        ensures items { self.new.items ≡ self.old.items ++ Some item ∷ [] }
        ensures spare { self.old.spare ≤ self.new.spare + 1 }
    {
        put_number(&mut self.places, self.next);
        self.live.push_reserved(item);
        self.next += 1;
    }

    /// Takes out what lives at a number. Nothing lives there any more.
    pub(crate) fn take(&mut self, number: u64) -> Option<X>
        ensures value { result ≡ living self.old.items number }
        ensures taken { OnSome result (self.new.items ≡ slice_set self.old.items number None) }
        ensures none { IfNone result (self.new.items ≡ self.old.items) }
        ensures spare { self.old.spare ≤ self.new.spare }
    {
        match self.places.get_index_of(&number) {
            Some(index) => Some(take_at(&mut self.places, &mut self.live, number, index)),
            None => None,
        }
    }
}

/// What stands at a place.
fn item_at<X>(live: &Vec<X>, index: usize) -> Option<&X>
    ensures { option_copied result ≡ slice_get live.now.items index }
{
    live.get(index)
}

/// A new number stands behind the others. There is room for it.
fn put_number(places: &mut IndexMap<u64, ()>, number: u64)
    requires { 0 < spare places.old }
    ensures entries { places.new.entries ≡ insert_entry nat_eq places.old.entries number tt }
    ensures spare { spare places.old ≤ spare places.new + 1 }
{
    match places.insert(number, ()) {
        Ok(_) => {}
        Err(_) => unreachable!(),
    }
}

/// Takes out what lives at a number, whose place is known. The last takes the place.
fn take_at<X: Drop>(
    places: &mut IndexMap<u64, ()>,
    live: &mut Vec<X>,
    number: u64,
    index: usize,
) -> X
    requires index { index_of nat_eq places.old number ≡ Some index }
    requires unique { IsUnique nat_eq places.old }
    requires long { length live.old.items ≡ length places.old.entries }
    requires within { index < vec_len live.old }
    ensures value { lookup (nat_eq number) (beside places.old.entries live.old.items) ≡ Some result }
    ensures gone { (other : ℕ) → lookup (nat_eq other) (beside places.new.entries live.new.items)
        ≡ cond (nat_eq number other) None
        (lookup (nat_eq other) (beside places.old.entries live.old.items)) }
    ensures long { length live.new.items ≡ length places.new.entries }
    ensures spare { spare places.old ≤ spare places.new }
    ensures len { vec_len live.new + 1 ≡ vec_len live.old }
    ensures capacity { vec_capacity live.new ≡ vec_capacity live.old }
{
    let _ = places.swap_remove_index(index);
    live.swap_remove(index)
}

//! The unsettled deliveries of a session by their numbers.
ghost use Rattle.std.specs.Prelude.{◌≡◌, ℕ, ◌+◌, ◌-◌, ◌<◌, ◌≤◌, ◌==◌, ◌^◌, ◌↔◌, not, IsTrue, IfOk, OnOk, OnErr, IsOk};
ghost use Rattle.std.specs.Prelude.{max, option_copied};
ghost use Rattle.std.specs.FinMap as map;
ghost use Rattle.amqp_session_outgoing.specs.Table.{IsUnsettled, unless_of};
ghost use Rattle.amqp_session_outgoing.specs.Touched.{Touches, number_at};
ghost use Rattle.amqp_session_outgoing.specs.Outside.{names, outside};
ghost use Rattle.amqp_session_outgoing.specs.Noted.{Notes};
ghost use Rattle.std.specs.BTreeSet.{IsOrdered, contains};
ghost use Rattle.std.specs.Ordering.{nat_cmp};

use crate::delivery::Delivery;
use crate::range::DeliveryRange;
use amqp_session_types::OutputHandle;
use indexmap::IndexMap;
use std::alloc::{AllocError, Global};
use std::collections::BTreeSet;
use std::marker::Model;

/// The unsettled deliveries of one role in a session, by their numbers (part 2, 2.6.12).
#[derive(Debug, Drop)]
pub struct Unsettled {
    deliveries: IndexMap<u32, Delivery>,
    room: usize,
}

impl Model for Unsettled {
    ghost use Rattle.std.specs.Prelude.{◌≤◌};
    ghost use Rattle.std.specs.FinMap as map;
    ghost use Rattle.std.specs.Coded.{codes};
    ghost use Rattle.indexmap.specs.IndexMap.{spare};
    ghost use Rattle.amqp_session_outgoing.specs.Table.{Deliveries, table_code};

    ghost Value = { Deliveries };

    ghost coded = { Prim.hlevel (codes, table_code) };

    ghost view = { λ u. record { table = map.from_entries u.deliveries.entries; room = u.room } };

    ghost invariant = { λ u. u.room ≤ spare u.deliveries };
}

impl Unsettled {
    /// No deliveries. It takes no memory.
    pub fn new(alloc: Global) -> Self
        ensures { result ≡ record { table = map.empty; room = 0 } }
    {
        Unsettled {
            deliveries: IndexMap::new(alloc),
            room: 0,
        }
    }

    /// Whether a delivery of this number is unsettled.
    #[tactic(auto, using(crate::proofs::Tables::rules))]
    pub fn contains(&self, number: u32) -> bool
        ensures { IsTrue result ↔ IsUnsettled self.now.table number }
    {
        if self.deliveries.is_empty() {
            return false;
        }
        self.deliveries.contains_key(&number)
    }

    /// The unsettled delivery of this number, if there is one.
    #[tactic(auto, using(crate::proofs::Tables::rules))]
    pub fn get(&self, number: u32) -> Option<&Delivery>
        ensures { option_copied result ≡ map.get self.now.table number }
    {
        self.deliveries.get(&number)
    }

    /// Makes room, so that so many more deliveries are registered without memory. Where there is none nothing changes.
    pub fn reserve(&mut self, count: usize) -> Result<(), AllocError>
        ensures ok { OnOk result (self.new ≡ record self.old { room = max self.old.room count }) }
        ensures err { OnErr result (self.new ≡ self.old) }
        ensures room { count ≤ self.old.room → IsOk result }
    {
        let room = self.room.max(count);
        self.deliveries.reserve(room)?;
        self.room = room;
        Ok(())
    }

    /// Registers a delivery for which there is room. It takes the place of an earlier one of its number.
    #[tactic(auto, using(crate::proofs::Tables::rules))]
    pub fn register_reserved(&mut self, number: u32, delivery: Delivery)
        requires { 0 < self.old.room }
        ensures { self.new ≡ record {
          table = map.insert self.old.table number delivery;
          room = self.old.room - 1;
        } }
    {
        let _ = self.deliveries.insert(number, delivery);
        self.room -= 1;
    }

    /// Takes a delivery out, if there is one of this number.
    #[tactic(auto, using(crate::proofs::Tables::rules))]
    pub fn settle(&mut self, number: u32)
        ensures { self.new ≡ record self.old { table = map.remove self.old.table number } }
    {
        let _ = self.deliveries.swap_remove(&number);
    }

    /// Takes a delivery out, if there is one of this number, and hands it out.
    #[tactic(auto, using(crate::proofs::Tables::rules))]
    pub fn take(&mut self, number: u32) -> Option<Delivery>
        ensures delivery { result ≡ map.get self.old.table number }
        ensures rest { self.new ≡ record self.old { table = map.remove self.old.table number } }
    {
        self.deliveries.swap_remove(&number)
    }

    /// Registers a delivery. It takes the place of an earlier one of its number. It is refused where there is no memory,
    /// and nothing changes then.
    pub fn register(&mut self, number: u32, delivery: Delivery) -> Result<(), AllocError>
        ensures ok { OnOk result (self.new ≡ record
            { table = map.insert self.old.table number delivery; room = self.old.room - 1 }) }
        ensures err { OnErr result (self.new ≡ self.old) }
        ensures room { 0 < self.old.room → IsOk result }
    {
        self.reserve(1)?;
        self.register_reserved(number, delivery);
        Ok(())
    }

    /// Takes out each delivery that a range names. It takes no memory, and time by the range or by the deliveries that
    /// there are, whichever are fewer.
    pub fn settle_range(&mut self, range: DeliveryRange)
        ensures { self.new ≡ record self.old { table = outside range self.old.table } }
    {
        if range.count as usize <= self.deliveries.len() {
            self.settle_each(range);
        } else {
            self.settle_named(range);
        }
    }

    /// Takes out the deliveries of a range, number by number.
    fn settle_each(&mut self, range: DeliveryRange)
        ensures { self.new ≡ record self.old { table = outside range self.old.table } }
    {
        for distance in 0..range.count {
            self.settle(range.first.wrapping_add(distance));
        }
    }

    /// Takes out the deliveries of a range, delivery by delivery.
    fn settle_named(&mut self, range: DeliveryRange)
        ensures { self.new ≡ record self.old { table = outside range self.old.table } }
    {
        let _ = self.deliveries.len();
        self.deliveries.retain(
            |number: &u32, delivery: &mut Delivery| -> bool
                ensures { (result ≡ not (names range number.now)) × (delivery.new ≡ delivery.old) }
            { !range.contains(*number) },
        );
    }

    /// Takes out all deliveries of the link with this own handle.
    pub fn forget(&mut self, handle: OutputHandle)
        ensures others { (number : ℕ) → map.get self.new.table number
            ≡ unless_of handle.0 (map.get self.old.table number) }
        ensures room { self.new.room ≡ self.old.room }
    {
        let _ = self.deliveries.len();
        self.deliveries.retain(
            |_number: &u32, delivery: &mut Delivery| -> bool
                ensures { (result ≡ not ((delivery.old.handle).0 == handle.0))
                    × (delivery.new ≡ delivery.old) }
            { delivery.handle != handle },
        );
    }

    /// The numbers of a range that are of unsettled deliveries, each once, in order from the first. It takes time by
    /// the range or by the deliveries that there are, whichever are fewer. It is refused where there is no memory for
    /// the answer.
    pub fn touched(&self, alloc: Global, range: DeliveryRange) -> Result<Vec<u32>, AllocError>
        ensures { IfOk result (λ numbers. Touches range self.now.table numbers.items) }
    {
        if range.count as usize <= self.deliveries.len() {
            return self.walked(alloc, range);
        }
        self.gathered(alloc, range)
    }

    /// The numbers of a range that are of unsettled deliveries, number by number.
    fn walked(&self, alloc: Global, range: DeliveryRange) -> Result<Vec<u32>, AllocError>
        ensures { IfOk result (λ numbers. Touches range self.now.table numbers.items) }
    {
        let mut numbers = Vec::new(alloc);
        for distance in 0..range.count {
            let number = range.first.wrapping_add(distance);
            if self.contains(number) {
                numbers.push(number)?;
            }
        }
        Ok(numbers)
    }

    /// The numbers of a range that are of unsettled deliveries, delivery by delivery.
    fn gathered(&self, alloc: Global, range: DeliveryRange) -> Result<Vec<u32>, AllocError>
        ensures { IfOk result (λ numbers. Touches range self.now.table numbers.items) }
    {
        let mut distances = self.distances(alloc, range.first, range.count)?;
        let mut numbers = Vec::with_capacity(alloc, distances.len())?;
        while let Some(distance) = distances.pop_first() {
            numbers.push(range.first.wrapping_add(distance))?;
        }
        Ok(numbers)
    }

    /// How far the unsettled deliveries among so many numbers are from the first of these.
    fn distances(&self, alloc: Global, first: u32, count: u32) -> Result<BTreeSet<u32>, AllocError>
        ensures ordered { IfOk result (λ set. IsOrdered nat_cmp set) }
        ensures each { IfOk result (λ set. (d : ℕ) →
            IsTrue (contains nat_cmp set d) ↔
            ((d < count) × IsUnsettled self.now.table (number_at first d))) }
    {
        let mut distances = BTreeSet::new(alloc);
        for i in 0..self.deliveries.len() {
            let (number, _) = self.deliveries.get_index(i).unwrap();
            note(&mut distances, first, count, *number)?;
        }
        Ok(distances)
    }
}

/// Notes how far a number is from a first one, where it is one of so many.
fn note(
    distances: &mut BTreeSet<u32>,
    first: u32,
    count: u32,
    number: u32,
) -> Result<(), AllocError>
    ensures ordered { IsOrdered nat_cmp distances.old → IsOrdered nat_cmp distances.new }
    ensures ok { OnOk result (Notes first count number distances.old distances.new) }
    ensures fits { number < 2 ^ 32 }
{
    let distance = number.wrapping_sub(first);
    if distance >= count {
        return Ok(());
    }
    distances.insert(distance)?;
    Ok(())
}

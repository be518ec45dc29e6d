//! Rows of values in nodes that are used again.
ghost use Rattle.std.specs.Prelude.{◌≡◌, ◌+◌, ◌-◌, ◌<◌, ◌≤◌, ◌^◌, ◌↔◌, ◌==◌, [], ◌∷◌, ◌++◌, length, take, drop, max};
ghost use Rattle.std.specs.Prelude.{IsOk, OnOk, OnErr, IfSome, IsSome, slice_index_or};
ghost use Rattle.amqp_session_outgoing.specs.Nodes.{values_of, HoldValues, AreFree};
ghost use Rattle.amqp_session_outgoing.specs.Frames.{last_room};
ghost use Rattle.amqp_session_outgoing.specs.Queues.{trailed};

use crate::frames::Outbound;
use crate::place::Place;
use std::alloc::{AllocError, Global};
use std::collections::{LinkedList, VecDeque};
use std::marker::Model;
use std::mem;

/// Fewer nodes than so many stand in one list.
pub(crate) const LIMIT: usize = 0x8000_0000_0000_0000;

/// Values in a row, each in a node of its own, which comes from a store and goes back to one.
#[derive(Drop)]
pub(crate) struct Row<U> {
    nodes: LinkedList<Option<U>>,
}

impl<U> Model for Row<U> {
    ghost use Rattle.std.specs.Prelude.{List};
    ghost use Rattle.amqp_session_outgoing.specs.Nodes.{values_of, HoldValues};

    ghost Value = { List U };

    ghost view = { λ r. values_of r.nodes };

    ghost invariant = { λ r. HoldValues r.nodes };
}

/// Nodes without values. A contract sees how many they are.
#[derive(Drop)]
pub(crate) struct Store<U> {
    nodes: LinkedList<Option<U>>,
}

impl<U> Model for Store<U> {
    ghost use Rattle.std.specs.Prelude.{ℕ, length};
    ghost use Rattle.amqp_session_outgoing.specs.Nodes.{AreFree};

    ghost Value = { ℕ };

    ghost view = { λ s. length s.nodes };

    ghost invariant = { λ s. AreFree s.nodes };
}

impl<U: Drop> Store<U> {
    /// No nodes. It takes no memory.
    pub(crate) fn new(alloc: Global) -> Self
        ensures { result ≡ 0 }
    {
        Store {
            nodes: LinkedList::new(alloc),
        }
    }

    /// Gets memory for nodes until there are so many. Those that it got stay also where there is no more.
    pub(crate) fn reserve(&mut self, count: usize) -> Result<(), AllocError>
        ensures ok { OnOk result (self.new ≡ max self.old count) }
        ensures kept { self.old ≤ self.new }
        ensures bound { self.new ≤ max self.old count }
        ensures refused { OnErr result (self.old < count) }
    {
        fill(&mut self.nodes, count)
    }
}

impl<U> Row<U> {
    /// How many values there are.
    #[tactic(auto, using(crate::proofs::Noding::rules))]
    pub(crate) fn len(&self) -> usize
        ensures { result ≡ length self.now }
    {
        self.nodes.len()
    }

    /// Whether there is none.
    pub(crate) fn is_empty(&self) -> bool
        ensures { result ≡ (length self.now == 0) }
    {
        self.len() == 0
    }

    /// The last value, if there is one.
    pub(crate) fn last(&self) -> Option<&U>
        ensures some { IsSome result ↔ (0 < length self.now) }
        ensures lookup { IfSome result (λ u.
            u.now ≡ slice_index_or self.now (length self.now - 1) u.now) }
    {
        self.nodes.back()?.as_ref()
    }
}

impl<U: Drop> Row<U> {
    /// No values. It takes no memory.
    pub(crate) fn new(alloc: Global) -> Self
        ensures { result ≡ [] }
    {
        Row {
            nodes: LinkedList::new(alloc),
        }
    }

    /// Puts a value last, in a node of the store.
    #[inline(always)]
    pub(crate) fn push(&mut self, store: &mut Store<U>, value: U)
        requires node { 0 < store.old }
        requires short { length self.old + 1 < 2 ^ 63 }
        ensures values { self.new ≡ self.old ++ value ∷ [] }
        ensures store { store.new + 1 ≡ store.old }
    {
        put_last(&mut self.nodes, &mut store.nodes, value);
    }

    /// Puts all of a batch last, in nodes of the store. The batch is empty then.
    pub(crate) fn append(&mut self, store: &mut Store<U>, batch: &mut VecDeque<U>)
        requires nodes { length batch.old.items ≤ store.old }
        requires short { length self.old + store.old < 2 ^ 63 }
        ensures values { self.new ≡ self.old ++ batch.old.items }
        ensures store { store.new + length batch.old.items ≡ store.old }
        ensures emptied { batch.new.items ≡ [] }
    {
        while let Some(value) = batch.pop_front() {
            self.push(store, value);
        }
    }

    /// Takes the first value out. Its node goes to the store.
    #[inline(always)]
    pub(crate) fn take_first(&mut self, store: &mut Store<U>) -> U
        requires some { 0 < length self.old }
        requires short { store.old + 1 < 2 ^ 63 }
        ensures values { self.old ≡ result ∷ self.new }
        ensures store { store.new ≡ store.old + 1 }
    {
        take_first(&mut self.nodes, &mut store.nodes)
    }
}

impl<T: Drop, F: Drop> Row<Outbound<T, F>> {
    /// A frame goes behind the last of these transfers. It is refused where there is no memory and the place has no
    /// room.
    pub(crate) fn trail(&mut self, place: &mut Place<F>, frame: F) -> Result<(), AllocError>
        requires some { 0 < length self.old }
        ensures ok { OnOk result (self.new ≡ trailed frame self.old) }
        ensures err { OnErr result (self.new ≡ self.old) }
        ensures short { OnOk result (last_room 1 self.old < 2 ^ 64) }
        ensures refused { OnErr result (place.old < last_room 1 self.old) }
        ensures some { 0 < length self.new }
    {
        trail(&mut self.nodes, place, frame)
    }
}

/// A frame goes behind the transfer of the last node.
fn trail<T: Drop, F: Drop>(
    nodes: &mut LinkedList<Option<Outbound<T, F>>>,
    place: &mut Place<F>,
    frame: F,
) -> Result<(), AllocError>
    requires hold { HoldValues nodes.old }
    requires some { 0 < length (values_of nodes.old) }
    ensures hold { HoldValues nodes.new }
    ensures ok { OnOk result (values_of nodes.new ≡ trailed frame (values_of nodes.old)) }
    ensures err { OnErr result (values_of nodes.new ≡ values_of nodes.old) }
    ensures short { OnOk result (last_room 1 (values_of nodes.old) < 2 ^ 64) }
    ensures refused { OnErr result (place.old < last_room 1 (values_of nodes.old)) }
    ensures some { 0 < length (values_of nodes.new) }
{
    let slot = nodes.back_mut().unwrap();
    let mut last = slot.take().unwrap();
    let pushed = last.behind.push(place, frame);
    *slot = Some(last);
    pushed
}

/// Adds free nodes until there are so many.
#[tactic(auto, using(crate::proofs::Noding::rules))]
fn fill<U: Drop>(nodes: &mut LinkedList<Option<U>>, count: usize) -> Result<(), AllocError>
    requires free { AreFree nodes.old }
    ensures free { AreFree nodes.new }
    ensures ok { OnOk result (length nodes.new ≡ max (length nodes.old) count) }
    ensures kept { length nodes.old ≤ length nodes.new }
    ensures bound { length nodes.new ≤ max (length nodes.old) count }
    ensures refused { OnErr result (length nodes.old < count) }
{
    while nodes.len() < count {
        if nodes.push_back(None).is_err() {
            return Err(AllocError);
        }
    }
    Ok(())
}

/// The first node of a list goes to the end of another.
#[inline(always)]
fn move_first<X: Drop>(from: &mut LinkedList<X>, to: &mut LinkedList<X>)
    requires some { 0 < length from.old }
    requires short { length to.old + 1 < 2 ^ 63 }
    ensures from { from.new ≡ drop 1 from.old }
    ensures to { to.new ≡ to.old ++ take 1 from.old }
{
    let mut first = from.split_off(1).unwrap();
    mem::swap(&mut first, from);
    to.append(&mut first).unwrap();
}

/// The first of the free nodes gets a value and goes to the end of the others.
#[inline(always)]
fn put_last<U: Drop>(nodes: &mut LinkedList<Option<U>>, store: &mut LinkedList<Option<U>>, value: U)
    requires hold { HoldValues nodes.old }
    requires free { AreFree store.old }
    requires node { 0 < length store.old }
    requires short { length (values_of nodes.old) + 1 < 2 ^ 63 }
    ensures hold { HoldValues nodes.new }
    ensures free { AreFree store.new }
    ensures values { values_of nodes.new ≡ values_of nodes.old ++ value ∷ [] }
    ensures store { length store.new + 1 ≡ length store.old }
{
    let first = store.front_mut().unwrap();
    *first = Some(value);
    move_first(store, nodes);
}

/// The first node of a list gives its value up, and goes to the end of the free ones.
#[inline(always)]
fn take_first<U: Drop>(nodes: &mut LinkedList<Option<U>>, store: &mut LinkedList<Option<U>>) -> U
    requires hold { HoldValues nodes.old }
    requires free { AreFree store.old }
    requires some { 0 < length (values_of nodes.old) }
    requires short { length store.old + 1 < 2 ^ 63 }
    ensures hold { HoldValues nodes.new }
    ensures free { AreFree store.new }
    ensures values { values_of nodes.old ≡ result ∷ values_of nodes.new }
    ensures store { length store.new ≡ length store.old + 1 }
{
    let first = nodes.front_mut().unwrap();
    let value = first.take().unwrap();
    move_first(nodes, store);
    value
}

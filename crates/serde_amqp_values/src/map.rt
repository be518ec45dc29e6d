//! Maps that keep the order of their pairs (part 1, 1.6.23).
ghost use Rattle.std.specs.Prelude.{◌≡◌, ◌==◌, [], length, IsOk, IfOk};
ghost use Rattle.std.specs.Borrow.{sem};
ghost use Rattle.serde_amqp_values.specs.Lends.{lends_inner};
ghost use Rattle.serde_amqp_values.specs.Pairs.{KeysApart, all_inserted};

use indexmap::IndexMap;
use std::alloc::{AllocError, Global};
use std::hash::Hash;
use std::marker::Model;

/// A map whose pairs keep the order in which their keys came (part 1, section 1.6.23). No key stands in it
/// twice. A clause sees the list of its pairs; the room that it has is no part of its value.
#[derive(Drop)]
pub struct OrderedMap<K: Eq + Hash, V> {
    pairs: IndexMap<K, V>,
}

impl<K: Eq + Hash, V> Model for OrderedMap<K, V> {
    ghost use Rattle.std.specs.Prelude.{List};

    ghost Value = { List (K × V) };

    ghost view = { λ m. m.pairs.entries };
}

impl<K: Eq + Hash, V> OrderedMap<K, V> {
    /// The map with no pairs, which takes no memory yet.
    pub fn new(alloc: Global) -> Self
        ensures { result ≡ [] }
    {
        OrderedMap {
            pairs: IndexMap::new(alloc),
        }
    }

    /// The map with no pairs, with room for `capacity` of them. It is refused where there is no memory for it,
    /// and never where `capacity` is 0.
    pub fn with_capacity(alloc: Global, capacity: usize) -> Result<Self, AllocError>
        ensures value { IfOk result (λ m. m ≡ []) }
        ensures succeeds { capacity ≡ 0 → IsOk result }
    {
        Ok(OrderedMap {
            pairs: IndexMap::with_capacity(alloc, capacity)?,
        })
    }

    /// The map with these pairs, inserted one after the other: a key that comes again keeps its place, and
    /// takes the later value. It is refused where there is no memory for them.
    pub fn from_pairs(alloc: Global, pairs: Vec<(K, V)>) -> Result<Self, AllocError>
    where
        K: Drop,
        V: Drop,
        ensures value { IfOk result (λ m. m ≡ all_inserted K.eq [] pairs.items) }
        ensures apart { IfOk result (KeysApart K.eq) }
    {
        Ok(OrderedMap::from_iter(alloc, pairs)?)
    }

    /// How many pairs there are.
    pub fn len(&self) -> usize
        ensures value { result ≡ length self.now }
        ensures apart { KeysApart K.eq self.now }
    {
        self.pairs.len()
    }

    /// Whether there are none.
    pub fn is_empty(&self) -> bool
        ensures { result ≡ (length self.now == 0) }
    {
        self.pairs.is_empty()
    }

    /// The `IndexMap` that holds the pairs.
    pub fn as_inner(&self) -> &IndexMap<K, V>
        ensures { result.now.entries ≡ self.now }
    {
        &self.pairs
    }

    /// The `IndexMap` that holds the pairs, which can be changed.
    pub fn as_inner_mut(&mut self) -> &mut IndexMap<K, V>
        ensures* writes_back { sem 𝓛 (lends_inner K.row V.row K.Hash self.entry result) }
        ensures value { result.now.entries ≡ self.old }
    {
        &mut self.pairs
    }

    /// The `IndexMap` that holds the pairs.
    pub fn into_inner(self) -> IndexMap<K, V>
        ensures { result.entries ≡ self }
    {
        self.pairs
    }

    /// Gives back what memory it can. The pairs stay.
    pub fn shrink_to_fit(&mut self)
        ensures { self.new ≡ self.old }
    {
        self.pairs.shrink_to_fit();
    }
}

impl<K: Eq + Hash, V> From<IndexMap<K, V>> for OrderedMap<K, V> {
    ghost from_gives = { λ m n. n ≡ m.entries };

    fn from(pairs: IndexMap<K, V>) -> Self {
        OrderedMap { pairs }
    }
}

/// The pairs inserted one after the other: a key that comes again keeps its place, and takes the later value.
impl<K: Eq + Hash + Drop, V: Drop> FromIterator<(K, V)> for OrderedMap<K, V> {
    type Alloc = Global;

    ghost from_iter_gives = { λ xs m. (m ≡ all_inserted K.eq [] xs) × KeysApart K.eq m };

    #[tactic(auto, using(crate::proofs::PairLemmas::all))]
    fn from_iter<I: IntoIterator<Item = (K, V)>>(
        alloc: Global,
        iter: I,
    ) -> Result<Self, AllocError> {
        Ok(OrderedMap::from(IndexMap::from_iter(alloc, iter)?))
    }
}

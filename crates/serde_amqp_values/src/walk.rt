//! The pairs, the keys and the values, one after the other.
ghost use Rattle.std.specs.Prelude.{◌≡◌, ◌<◌, ◌^◌, length};
ghost use Rattle.std.specs.Iterator.Runs.{YieldsMutRefsInOrder};
ghost use Rattle.std.specs.Map.{keys_of, values_of};
ghost use Rattle.std.specs.Map.Iter.{ShowsInOrder, ShowsInReverse, ShowsValuesInOrder, LendsValuesInOrder};
ghost use Rattle.std.specs.Map.Iter.{GivesInOrder, GivesInReverse, deref, deref_pair};
ghost use Rattle.indexmap.specs.Iter.{iter_mut_rest, values_mut_rest, values_mut_steps, IterMutCanStep};
ghost use Rattle.serde_amqp_values.specs.Pairs.{KeysApart};

use super::map::OrderedMap;
use indexmap::map::{IntoIter, IntoKeys, IntoValues, Iter, IterMut, Keys, Values, ValuesMut};
use std::hash::Hash;

impl<K: Eq + Hash, V> OrderedMap<K, V> {
    /// The pairs in their order.
    pub fn iter(&self) -> Iter<'_, K, V>
        ensures rest { result ≡ self.now }
        ensures runs { ShowsInOrder (deref_pair {K = K} {X = V}) }
        ensures runs_back { ShowsInReverse (deref_pair {K = K} {X = V}) }
        ensures fits { length self.now < 2 ^ 63 }
        ensures apart { KeysApart K.eq self.now }
    {
        self.as_inner().iter()
    }

    /// The pairs in their order, with values that can be changed. No contract says which pairs the map has
    /// afterwards; behind `as_inner_mut().iter_mut()` it has the same keys in the same order.
    pub fn iter_mut(&mut self) -> IterMut<'_, K, V>
        ensures ready { IterMutCanStep result }
        ensures rest { iter_mut_rest result ≡ self.old }
        ensures runs { LendsValuesInOrder (iter_mut_rest {K = K} {V = V}) }
        ensures fits { length self.old < 2 ^ 63 }
        ensures apart { KeysApart K.eq self.old }
    {
        self.as_inner_mut().iter_mut()
    }

    /// The keys in their order.
    pub fn keys(&self) -> Keys<'_, K, V>
        ensures rest { result ≡ keys_of self.now }
        ensures runs { ShowsInOrder (deref {X = K}) }
        ensures runs_back { ShowsInReverse (deref {X = K}) }
        ensures fits { length self.now < 2 ^ 63 }
        ensures apart { KeysApart K.eq self.now }
    {
        self.as_inner().keys()
    }

    /// The values in the order of their keys.
    pub fn values(&self) -> Values<'_, K, V>
        ensures rest { result ≡ values_of self.now }
        ensures runs { ShowsInOrder (deref {X = V}) }
        ensures runs_back { ShowsInReverse (deref {X = V}) }
        ensures fits { length self.now < 2 ^ 63 }
    {
        self.as_inner().values()
    }

    /// The values in the order of their keys, which can be changed. Of the map afterwards the contract says as
    /// little as that of `iter_mut`.
    pub fn values_mut(&mut self) -> ValuesMut<'_, K, V>
        ensures rest { values_mut_rest result ≡ values_of self.old }
        ensures runs { YieldsMutRefsInOrder (values_mut_steps {K = K} {V = V}) values_mut_rest }
        ensures fits { length self.old < 2 ^ 63 }
    {
        self.as_inner_mut().values_mut()
    }

    /// The keys in their order. The values are dropped.
    pub fn into_keys(self) -> IntoKeys<K, V>
        ensures rest { result ≡ keys_of self }
        ensures runs { GivesInOrder K }
        ensures runs_back { GivesInReverse K }
        ensures fits { length self < 2 ^ 63 }
        ensures apart { KeysApart K.eq self }
    {
        self.into_inner().into_keys()
    }

    /// The values in the order of their keys. The keys are dropped.
    pub fn into_values(self) -> IntoValues<K, V>
        ensures rest { result ≡ values_of self }
        ensures runs { GivesInOrder V }
        ensures runs_back { GivesInReverse V }
        ensures fits { length self < 2 ^ 63 }
    {
        self.into_inner().into_values()
    }
}

/// Each pair once, in their order.
impl<'a, K: Eq + Hash, V> IntoIterator for &'a OrderedMap<K, V> {
    type Item = (&'a K, &'a V);

    type IntoIter = Iter<'a, K, V>;

    ghost into_iter_gives = { λ m r. (r ≡ m.now) × (length m.now < 2 ^ 63) × ShowsInOrder (deref_pair {K = K} {X = V}) × ShowsValuesInOrder (deref_pair {K = K} {X = V}) × KeysApart K.eq m.now };

    fn into_iter(self) -> Iter<'a, K, V> {
        self.as_inner().into_iter()
    }
}

/// Each pair once, in their order.
impl<K: Eq + Hash + Drop, V: Drop> IntoIterator for OrderedMap<K, V> {
    type Item = (K, V);

    type IntoIter = IntoIter<K, V>;

    ghost into_iter_gives = { λ m r. (r ≡ m) × (length m < 2 ^ 63) × GivesInOrder (K × V) × KeysApart K.eq m × GivesInReverse (K × V) };

    fn into_iter(self) -> IntoIter<K, V> {
        self.into_inner().into_iter()
    }
}

/// Each pair once, in their order, with values that can be changed.
impl<'a, K: Eq + Hash, V> IntoIterator for &'a mut OrderedMap<K, V> {
    type Item = (&'a K, &'a mut V);

    type IntoIter = IterMut<'a, K, V>;

    ghost into_iter_gives = { λ m r. (iter_mut_rest r ≡ m.now) × IterMutCanStep r × (length m.now < 2 ^ 63) × KeysApart K.eq m.now };

    fn into_iter(self) -> IterMut<'a, K, V> {
        self.iter_mut()
    }
}

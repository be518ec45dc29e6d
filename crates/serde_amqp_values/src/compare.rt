//! Equality, order, hash, clone and text of an `OrderedMap`: those of the list of its pairs, in their order.
ghost use Rattle.std.specs.Cmp.{partial_equiv_from_equiv, on_equiv, and_equiv, then_agrees, on_total, then_total};
ghost use Rattle.std.specs.Cmp.{both_tied, on_per, and_per, on_po, then_po};
ghost use Rattle.std.specs.Cmp.Lexicographic.{pointwise, slice_cmp, slice_partial_cmp, lists_equiv, lists_agrees};
ghost use Rattle.std.specs.Cmp.Lexicographic.{lists_total, lists_ties, lists_per, lists_po};
ghost use Rattle.std.specs.Hash as fed;
ghost use Rattle.std.specs.Hash.{on_Alike, and-Alike, items_Alike};
ghost use Rattle.std.specs.List.{AllZip};
ghost use Rattle.serde_amqp_values.specs.Compared.{same_pair, pair_order, partial_pair_order, pair_fed};

use super::lexical::{equal, feed, order, partial_order};
use super::map::OrderedMap;
use std::alloc::AllocError;
use std::cmp::Ordering;
use std::fmt;
use std::hash::{Hash, Hasher};

/// Two maps are equal where they have equal pairs in the same order.
impl<K: Eq + Hash, V: PartialEq> PartialEq for OrderedMap<K, V> {
    ghost eq = { pointwise (same_pair K.eq V.eq) };

    ghost laws = { lists_per (and_per (on_per (λ p. p.0) (partial_equiv_from_equiv K.Eq.laws)) (on_per (λ p. p.1) V.laws)) };

    fn eq(&self, other: &Self) -> bool {
        equal(self.iter(), other.iter())
    }
}

impl<K: Eq + Hash, V: Eq> Eq for OrderedMap<K, V> {
    ghost laws = { lists_equiv (and_equiv (on_equiv (λ p. p.0) K.Eq.laws) (on_equiv (λ p. p.1) V.Eq.laws)) };
}

/// The first pairs that differ decide, the key before the value, and else the lengths.
impl<K: PartialOrd + Eq + Hash, V: PartialOrd> PartialOrd for OrderedMap<K, V> {
    ghost partial_cmp = { slice_partial_cmp (partial_pair_order K.partial_cmp V.partial_cmp) };

    ghost laws = { lists_po (then_po (on_po (λ p. p.0) K.PartialOrd.laws) (on_po (λ p. p.1) V.PartialOrd.laws)) };

    fn partial_cmp(&self, other: &Self) -> Option<Ordering> {
        partial_order(self.iter(), other.iter())
    }
}

impl<K: Ord + Hash, V: Ord> Ord for OrderedMap<K, V> {
    ghost cmp = { slice_cmp (pair_order K.cmp V.cmp) };

    ghost total = { lists_total (then_total (on_total (λ p. p.0) K.total) (on_total (λ p. p.1) V.total)) };

    ghost matches_partial_cmp = { lists_agrees (then_agrees (λ p q. K.matches_partial_cmp p.0 q.0) (λ p q. V.matches_partial_cmp p.1 q.1)) };

    ghost matches_eq = { let by_key = K.cmp in
        let by_value = V.cmp in
        lists_ties (pair_order by_key by_value) (λ p q. both_tied _ _ (by_key p.0 q.0) (by_value p.1 q.1) (K.matches_eq p.0 q.0) (V.matches_eq p.1 q.1)) };

    fn cmp(&self, other: &Self) -> Ordering {
        order(self.iter(), other.iter())
    }
}

/// Equal maps feed a hasher alike.
impl<K: Eq + Hash, V: Hash> Hash for OrderedMap<K, V> {
    ghost hash_input = { fed.slice (pair_fed K.hash_input V.hash_input) };

    ghost respects_eq = { (items_Alike (and-Alike (on_Alike (λ p. p.0) (record { fed = K.respects_eq })) (on_Alike (λ p. p.1) (record { fed = V.respects_eq })))).fed };

    fn hash<H: Hasher>(&self, state: &mut H) {
        feed(self.iter(), state);
    }
}

/// A second map with clones of the pairs in their order. It is refused where there is no memory for it, and
/// where a key's clone isn't equal to the key.
impl<K: Eq + Hash + Clone, V: Clone> Clone for OrderedMap<K, V> {
    ghost is_clone = { AllZip (λ p q. K.is_clone p.0 q.0 × V.is_clone p.1 q.1) };

    fn clone(&self) -> Result<Self, AllocError> {
        Ok(OrderedMap::from(self.as_inner().clone()?))
    }
}

impl<K: Eq + Hash + fmt::Debug, V: fmt::Debug> fmt::Debug for OrderedMap<K, V> {
    fn fmt<W: fmt::Write>(&self, f: &mut fmt::Formatter<W>) -> fmt::Result {
        self.as_inner().fmt(f)
    }
}

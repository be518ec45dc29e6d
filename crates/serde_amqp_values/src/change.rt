//! What puts pairs in and takes them out.
ghost use Rattle.std.specs.Borrow.{sem};
ghost use Rattle.std.specs.Bound.{start_index, end_index};
ghost use Rattle.std.specs.List.{remove_range};
ghost use Rattle.std.specs.Prelude.{◌≡◌, ◌<◌, ◌≤◌, ◌^◌, length, cond, [], None, Some, IfOk, OnOk, IfErr, OnErr};
ghost use Rattle.std.specs.Map.{lookup, lookup_entry};
ghost use Rattle.indexmap.specs.Drain.{drain_rest, drain_kept, drain_lender, DrainKeepsAlong};
ghost use Rattle.indexmap.specs.IndexMap.{items_in_range};
ghost use Rattle.serde_amqp_values.specs.Drained.{DrainsInOrder, DrainsInReverse};
ghost use Rattle.serde_amqp_values.specs.Lends.{lends_inner_to};
ghost use Rattle.serde_amqp_values.specs.Pairs.{KeysApart, pairs_inserted, pairs_shifted, pairs_swapped};

use super::map::OrderedMap;
use indexmap::map::Drain;
use std::alloc::AllocFailed;
use std::hash::Hash;
use std::ops::RangeBounds;

impl<K: Eq + Hash, V> OrderedMap<K, V> {
    /// Puts a pair in and returns the key's earlier value. A key that is there keeps its place, and the key
    /// that came first stays; a new one goes to the end. It is refused only where a new key finds no memory;
    /// the pair comes back then, and the map is as before.
    #[tactic(auto, using(crate::proofs::PairLemmas::rules))]
    pub fn insert(&mut self, key: K, value: V) -> Result<Option<V>, AllocFailed<(K, V)>>
    where
        K: Drop,
        ensures earlier { IfOk result (λ v. v ≡ lookup (K.eq key) self.old) }
        ensures pairs { OnOk result (self.new ≡ pairs_inserted K.eq self.old key value) }
        ensures values { OnOk result ((k : K) →
            lookup (K.eq k) self.new ≡ cond (K.eq key k) (Some value) (lookup (K.eq k) self.old)) }
        ensures returned { IfErr result (λ e. e.value ≡ (key, value)) }
        ensures kept { OnErr result (self.new ≡ self.old) }
        ensures absent { OnErr result (lookup (K.eq key) self.old ≡ None) }
        ensures apart { KeysApart K.eq self.new }
    {
        self.as_inner_mut().insert(key, value)
    }

    /// Takes the key's pair out and returns its value; the last pair takes its place. Where no pair has the
    /// key there is nothing to return, and the map stays.
    #[tactic(auto, using(crate::proofs::PairLemmas::rules))]
    pub fn swap_remove(&mut self, key: &K) -> Option<V>
    where
        K: Drop,
        ensures value { result ≡ lookup (K.eq key.now) self.old }
        ensures pairs { self.new ≡ pairs_swapped K.eq self.old key.now }
        ensures values { (k : K) → lookup (K.eq k) self.new
            ≡ cond (K.eq key.now k) None (lookup (K.eq k) self.old) }
        ensures apart { KeysApart K.eq self.new }
    {
        self.as_inner_mut().swap_remove(key)
    }

    /// Takes the key's pair out and returns its value; the others keep their order. Where no pair has the key
    /// there is nothing to return, and the map stays.
    pub fn shift_remove(&mut self, key: &K) -> Option<V>
    where
        K: Drop,
        ensures value { result ≡ lookup (K.eq key.now) self.old }
        ensures pairs { self.new ≡ pairs_shifted K.eq self.old key.now }
        ensures values { (k : K) → lookup (K.eq k) self.new
            ≡ cond (K.eq key.now k) None (lookup (K.eq k) self.old) }
        ensures apart { KeysApart K.eq self.new }
    {
        self.as_inner_mut().shift_remove(key)
    }

    /// Takes the key's pair out as `swap_remove` does and returns it.
    #[tactic(auto, using(crate::proofs::PairLemmas::rules))]
    pub fn swap_remove_entry(&mut self, key: &K) -> Option<(K, V)>
        ensures entry { result ≡ lookup_entry (K.eq key.now) self.old }
        ensures pairs { self.new ≡ pairs_swapped K.eq self.old key.now }
        ensures values { (k : K) → lookup (K.eq k) self.new
            ≡ cond (K.eq key.now k) None (lookup (K.eq k) self.old) }
        ensures apart { KeysApart K.eq self.new }
    {
        self.as_inner_mut().swap_remove_entry(key)
    }

    /// Takes the key's pair out as `shift_remove` does and returns it.
    #[tactic(auto, using(crate::proofs::PairLemmas::rules))]
    pub fn shift_remove_entry(&mut self, key: &K) -> Option<(K, V)>
        ensures entry { result ≡ lookup_entry (K.eq key.now) self.old }
        ensures pairs { self.new ≡ pairs_shifted K.eq self.old key.now }
        ensures values { (k : K) → lookup (K.eq k) self.new
            ≡ cond (K.eq key.now k) None (lookup (K.eq k) self.old) }
        ensures apart { KeysApart K.eq self.new }
    {
        self.as_inner_mut().shift_remove_entry(key)
    }

    /// Takes all pairs out.
    pub fn clear(&mut self)
    where
        K: Drop,
        V: Drop,
        ensures { self.new ≡ [] }
    {
        self.as_inner_mut().clear();
    }

    /// Takes the pairs in a range of places out and returns them, whose first place is 0; the range must lie
    /// within the map. Those behind the range close up as the iterator is dropped.
    pub fn drain<R: RangeBounds<usize>>(&mut self, range: R) -> Drain<'_, K, V>
    where
        K: Drop,
        V: Drop,
        requires known { R.has_bounds range }
        requires in_order { start_index (R.start_bound range)
            ≤ end_index (R.end_bound range) (length self.old) }
        requires within { end_index (R.end_bound range) (length self.old) ≤ length self.old }
        ensures* writes_back { sem 𝓛 (lends_inner_to K.row V.row K.Hash self.entry
            (drain_lender result)) }
        ensures rest { drain_rest result ≡ items_in_range self.old (R.start_bound range)
            (R.end_bound range) }
        ensures kept { drain_kept result ≡ remove_range self.old (start_index (R.start_bound range))
            (end_index (R.end_bound range) (length self.old)) }
        ensures fits { length (drain_rest result) < 2 ^ 63 }
        ensures runs { DrainsInOrder K V }
        ensures runs_back { DrainsInReverse K V }
        ensures stays { DrainKeepsAlong result }
    {
        self.as_inner_mut().drain(range)
    }
}

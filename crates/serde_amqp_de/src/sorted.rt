//! Maps in the order of their keys.
ghost use Rattle.std.specs.Prelude.{◌≡◌, [], IfOk, refl};
ghost use Rattle.serde_amqp_item.specs.Entries.{all_placed, sorted_item};
ghost use Rattle.serde_amqp_de.specs.Sorted.{item_order, sorted_taken};
ghost use Rattle.serde_amqp_de.specs.SortedLaws.{sorted_decided};

use crate::deserialize::{Deserialize, NeverNull};
use crate::deserializer::Deserializer;
use crate::map::read_map;
use serde_amqp_item::Error;
use serde_amqp_read::Read;
use std::alloc::{AllocError, Global};
use std::collections::BTreeMap;

/// A type whose values can be the keys of a map that is read in their order: they compare as their items do,
/// numbers by value and texts byte by byte.
pub trait SortedKey: Deserialize + Ord {
    /// Two values compare as their items.
    ghost ordered: { (x y : Self) → Self.cmp x y ≡ item_order (Self.item x) (Self.item y) };
}

impl SortedKey for bool {
    ghost ordered = { λ _ _. refl };
}

impl SortedKey for u8 {
    ghost ordered = { λ _ _. refl };
}

impl SortedKey for u16 {
    ghost ordered = { λ _ _. refl };
}

impl SortedKey for u32 {
    ghost ordered = { λ _ _. refl };
}

impl SortedKey for u64 {
    ghost ordered = { λ _ _. refl };
}

impl SortedKey for i8 {
    ghost ordered = { λ _ _. refl };
}

impl SortedKey for i16 {
    ghost ordered = { λ _ _. refl };
}

impl SortedKey for i32 {
    ghost ordered = { λ _ _. refl };
}

impl SortedKey for i64 {
    ghost ordered = { λ _ _. refl };
}

impl SortedKey for char {
    ghost ordered = { λ _ _. refl };
}

impl SortedKey for String {
    ghost ordered = { λ _ _. refl };
}

/// The map with these pairs, put in one after the other: a key that comes again takes the later value.
///
/// Errors: where there is no memory for them.
fn sort<K: Ord + Drop, V: Drop>(
    alloc: Global,
    pairs: Vec<(K, V)>,
) -> Result<BTreeMap<K, V>, AllocError>
    ensures { IfOk result (λ m. m.entries ≡ all_placed K.cmp [] pairs.items) }
{
    let mut sorted = BTreeMap::new(alloc);
    for (key, value) in pairs {
        sorted.insert(key, value)?;
    }
    Ok(sorted)
}

/// A map whose keys and values the types take (part 1, section 1.6.23), in the order of the keys. A key that
/// comes again has its last value.
impl<K: SortedKey + Drop, V: Deserialize + Drop> Deserialize for BTreeMap<K, V> {
    ghost item = { λ m. sorted_item K.cmp K.item V.item m.entries };

    ghost take = { sorted_taken K.take V.take };

    #[tactic(auto, unfolding(crate::specs::Sorted::sorted_taken, crate::specs::Maps::pairs_taken))]
    fn absent(_alloc: Global) -> Option<BTreeMap<K, V>> {
        None
    }

    #[tactic(auto, using(crate::proofs::Sorting::sorting))]
    fn read<R: Read>(alloc: Global, de: &mut Deserializer<R>) -> Result<BTreeMap<K, V>, Error> {
        let pairs = read_map(alloc, de)?;
        Ok(sort(alloc, pairs)?)
    }

    ghost decided = { sorted_decided K.take V.take K.decided V.decided };
}

impl<K: SortedKey + Drop, V: Deserialize + Drop> NeverNull for BTreeMap<K, V> {
    ghost present = { λ _. refl };
}

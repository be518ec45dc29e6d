//! Two rows of pairs, compared pair by pair from the first, and a row of pairs, hashed.
ghost use Rattle.std.specs.Prelude.{◌≡◌, fold};
ghost use Rattle.std.specs.Cmp.Lexicographic.{pointwise, slice_cmp, slice_partial_cmp};
ghost use Rattle.std.specs.Hash as fed;
ghost use Rattle.serde_amqp_values.specs.Compared.{same_pair, pair_order, partial_pair_order, pair_fed};

use indexmap::map::Iter;
use std::cmp::Ordering;
use std::hash::{Hash, Hasher};

fn pairs_equal<K: PartialEq, V: PartialEq>(a: &K, x: &V, b: &K, y: &V) -> bool
    ensures { result ≡ same_pair K.eq V.eq (a.now, x.now) (b.now, y.now) }
{
    a.eq(b) && x.eq(y)
}

/// Whether the rows are as long, and each pair equals the one in its place.
pub(crate) fn equal<K: PartialEq, V: PartialEq>(left: Iter<'_, K, V>, right: Iter<'_, K, V>) -> bool
    ensures { result ≡ pointwise (same_pair K.eq V.eq) left.entry right.entry }
{
    let mut left = left;
    let mut right = right;
    while let Some((a, x)) = left.next() {
        let Some((b, y)) = right.next() else {
            return false;
        };
        if !pairs_equal(a, x, b, y) {
            return false;
        }
    }
    right.next().is_none()
}

fn order_of_pairs<K: Ord, V: Ord>(a: &K, x: &V, b: &K, y: &V) -> Ordering
    ensures { result ≡ pair_order K.cmp V.cmp (a.now, x.now) (b.now, y.now) }
{
    match a.cmp(b) {
        Ordering::Less => Ordering::Less,
        Ordering::Equal => x.cmp(y),
        Ordering::Greater => Ordering::Greater,
    }
}

/// The order of the first pairs that differ, and else that of the lengths.
pub(crate) fn order<K: Ord, V: Ord>(left: Iter<'_, K, V>, right: Iter<'_, K, V>) -> Ordering
    ensures { result ≡ slice_cmp (pair_order K.cmp V.cmp) left.entry right.entry }
{
    let mut left = left;
    let mut right = right;
    while let Some((a, x)) = left.next() {
        let Some((b, y)) = right.next() else {
            return Ordering::Greater;
        };
        match order_of_pairs(a, x, b, y) {
            Ordering::Less => return Ordering::Less,
            Ordering::Equal => {}
            Ordering::Greater => return Ordering::Greater,
        }
    }
    match right.next() {
        Some(_) => Ordering::Less,
        None => Ordering::Equal,
    }
}

fn partial_order_of_pairs<K: PartialOrd, V: PartialOrd>(
    a: &K,
    x: &V,
    b: &K,
    y: &V,
) -> Option<Ordering>
    ensures { result ≡ partial_pair_order K.partial_cmp V.partial_cmp (a.now, x.now)
        (b.now, y.now) }
{
    match a.partial_cmp(b) {
        Some(found) => match found {
            Ordering::Less => Some(Ordering::Less),
            Ordering::Equal => x.partial_cmp(y),
            Ordering::Greater => Some(Ordering::Greater),
        },
        None => None,
    }
}

/// The order of the first pairs that differ, if they have one, and else that of the lengths.
pub(crate) fn partial_order<K: PartialOrd, V: PartialOrd>(
    left: Iter<'_, K, V>,
    right: Iter<'_, K, V>,
) -> Option<Ordering>
    ensures { result ≡ slice_partial_cmp (partial_pair_order K.partial_cmp V.partial_cmp) left.entry
        right.entry }
{
    let mut left = left;
    let mut right = right;
    while let Some((a, x)) = left.next() {
        let Some((b, y)) = right.next() else {
            return Some(Ordering::Greater);
        };
        match partial_order_of_pairs(a, x, b, y) {
            Some(found) => match found {
                Ordering::Less => return Some(Ordering::Less),
                Ordering::Equal => {}
                Ordering::Greater => return Some(Ordering::Greater),
            },
            None => return None,
        }
    }
    match right.next() {
        Some(_) => Some(Ordering::Less),
        None => Some(Ordering::Equal),
    }
}

/// Feeds the length, and then each key with its value.
pub(crate) fn feed<K: Hash, V: Hash, H: Hasher>(pairs: Iter<'_, K, V>, state: &mut H)
    ensures { state.new ≡ fold H.write state.old
        (fed.slice (pair_fed K.hash_input V.hash_input) pairs.entry) }
{
    let mut pairs = pairs;
    state.write_usize(pairs.len());
    while let Some((key, value)) = pairs.next() {
        key.hash(state);
        value.hash(state);
    }
}

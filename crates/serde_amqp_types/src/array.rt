//! Arrays (part 1, 1.6.24).
ghost use Rattle.std.specs.Cmp.Lexicographic.{pointwise, slice_cmp, slice_partial_cmp, lists_per, lists_equiv};
ghost use Rattle.std.specs.Cmp.Lexicographic.{lists_po, lists_total, lists_agrees, lists_ties};
ghost use Rattle.std.specs.Hash as fed;
ghost use Rattle.std.specs.Hash.{items_Alike};
ghost use Rattle.std.specs.Iterator.Runs.{EveryRun, ItemsMapTo, ItemsAre};
ghost use Rattle.std.specs.List.{AllZip};
ghost use Rattle.std.specs.Prelude.{◌≡◌, ◌==◌, ◌<◌, ◌^◌, length, map, IfOk, OnOk, Some, None};
ghost use Rattle.std.specs.Slice.Iter.{iter_rest, iter_steps};
ghost use Rattle.std.specs.declared.alloc.Global.{Global as Heap};
ghost use Rattle.std.specs.Vec.Iter.{into_iter_steps, into_iter_items};
ghost use Rattle.serde_amqp_item.specs.Item.{array, items_of};
ghost use Rattle.serde_amqp_de.specs.Again.{array_faithful, array_same_item};
ghost use Rattle.serde_amqp_read.specs.Reads.{Unless};
ghost use Rattle.serde_amqp_de.specs.Reads.{At, TookOne, Refuses, at_of};
ghost use Rattle.serde_amqp_types.specs.Takes.{array_or_one_taken};
ghost use Rattle.serde_amqp_types.specs.Deciding.{array_or_one_decided};
ghost use Rattle.serde_amqp_types.specs.Again.{array_again};

use serde_amqp_de::{Deserialize, Deserializer, Read, read_array};
use serde_amqp_item::{EncodingCodes, Error};
use serde_amqp_round_trip::{Faithful, RoundTrip};
use serde_amqp_ser::{Serialize, Serializer, Sink};
use std::alloc::{AllocError, Global};
use std::cmp::Ordering;
use std::hash::{Hash, Hasher};
use std::marker::Model;
use std::ops::DerefSlice;
use std::slice::Iter;
use std::vec::IntoIter;

/// Values of one type, written as an array (part 1, 1.6.24). A clause sees the list of them.
#[derive(Debug, Drop)]
pub struct Array<T> {
    items: Vec<T>,
}

impl<T> Model for Array<T> {
    ghost use Rattle.std.specs.Prelude.{List};

    ghost Value = { List T };

    ghost view = { λ a. a.items.items };
}

impl<T> Array<T> {
    ghost use Rattle.std.specs.Prelude.{[]};

    /// The array with no values.
    pub fn new(alloc: Global) -> Self
        ensures { result ≡ [] }
    {
        Array {
            items: Vec::new(alloc),
        }
    }

    /// The values.
    pub fn into_inner(self) -> Vec<T>
        ensures { result.items ≡ self }
    {
        self.items
    }

    /// How many values there are.
    pub fn len(&self) -> usize
        ensures { result ≡ length self.now }
    {
        self.items.len()
    }

    /// Whether there are none.
    pub fn is_empty(&self) -> bool
        ensures { result ≡ (length self.now == 0) }
    {
        self.items.is_empty()
    }

    /// The values.
    pub fn as_slice(&self) -> &[T]
        ensures { result.now ≡ self.now }
    {
        self.items.as_slice()
    }

    /// The values, one after the other.
    pub fn iter(&self) -> Iter<'_, T>
        ensures { iter_rest result ≡ self.now }
    {
        self.items.as_slice().iter()
    }
}

impl<T> From<Vec<T>> for Array<T> {
    ghost from_gives = { λ v a. a ≡ v.items };

    fn from(items: Vec<T>) -> Self {
        Array { items }
    }
}

impl<T> From<Array<T>> for Vec<T> {
    ghost from_gives = { λ a v. v.items ≡ a };

    fn from(array: Array<T>) -> Self {
        array.into_inner()
    }
}

/// The values, collected. It is refused where there is no memory for them.
impl<T: Drop> FromIterator<T> for Array<T> {
    type Alloc = Global;

    ghost from_iter_gives = { λ xs a. a ≡ xs };

    fn from_iter<U: IntoIterator<Item = T>>(alloc: Global, iter: U) -> Result<Self, AllocError> {
        Ok(Array {
            items: Vec::from_iter(alloc, iter)?,
        })
    }
}

impl<T> DerefSlice for Array<T> {
    type Elem = T;

    ghost deref_gives = { λ a xs. xs ≡ a };

    fn deref(&self) -> &[T] {
        self.as_slice()
    }
}

/// Each value once, in order.
impl<T: Drop> IntoIterator for Array<T> {
    type Item = T;

    type IntoIter = IntoIter<T, Global>;

    ghost into_iter_gives = { λ a it. (into_iter_items it ≡ a) × EveryRun (into_iter_steps {X = T} {Z = Heap}) (λ p. ItemsAre p (into_iter_items p.from)) };

    fn into_iter(self) -> IntoIter<T, Global> {
        self.items.into_iter()
    }
}

/// Each value once, in order.
impl<'a, T> IntoIterator for &'a Array<T> {
    type Item = &'a T;

    type IntoIter = Iter<'a, T>;

    ghost into_iter_gives = { λ a it. (iter_rest it ≡ a.now) × (length (iter_rest it) < 2 ^ 64) × EveryRun (iter_steps {A = T}) (λ p. ItemsMapTo p (λ x. x.now) (iter_rest p.from)) };

    fn into_iter(self) -> Iter<'a, T> {
        self.as_slice().iter()
    }
}

impl<T: Clone> Clone for Array<T> {
    ghost is_clone = { AllZip T.is_clone };

    fn clone(&self) -> Result<Self, AllocError> {
        Ok(Array {
            items: self.items.clone()?,
        })
    }
}

impl<T: PartialEq> PartialEq for Array<T> {
    ghost eq = { pointwise T.eq };

    ghost laws = { lists_per T.laws };

    fn eq(&self, other: &Self) -> bool {
        self.as_slice() == other.as_slice()
    }
}

impl<T: Eq> Eq for Array<T> {
    ghost laws = { lists_equiv T.Eq.laws };
}

impl<T: PartialOrd> PartialOrd for Array<T> {
    ghost partial_cmp = { slice_partial_cmp T.partial_cmp };

    ghost laws = { lists_po T.PartialOrd.laws };

    fn partial_cmp(&self, other: &Self) -> Option<Ordering> {
        self.as_slice().partial_cmp(&other.as_slice())
    }
}

impl<T: Ord> Ord for Array<T> {
    ghost cmp = { slice_cmp T.cmp };

    ghost total = { lists_total T.total };

    ghost matches_partial_cmp = { lists_agrees T.matches_partial_cmp };

    ghost matches_eq = { lists_ties T.cmp T.matches_eq };

    fn cmp(&self, other: &Self) -> Ordering {
        self.as_slice().cmp(&other.as_slice())
    }
}

impl<T: Hash> Hash for Array<T> {
    ghost hash_input = { fed.slice T.hash_input };

    ghost respects_eq = { (items_Alike (record { fed = T.respects_eq })).fed };

    fn hash<H: Hasher>(&self, state: &mut H) {
        self.as_slice().hash(state);
    }
}

impl<T: Serialize> Serialize for Array<T> {
    ghost item = { λ a. array (items_of (map T.item a)) };

    fn is_null(&self) -> bool {
        false
    }

    fn serialize<W: Sink>(&self, s: &mut Serializer<W>) -> Result<(), Error> {
        s.serialize_array(self.as_slice())
    }
}

/// Reads one value.
#[tactic(auto, using(serde_amqp_de::proofs::Sequences::ones))]
fn read_one<T: Deserialize + Drop, R: Read>(
    alloc: Global,
    de: &mut Deserializer<R>,
) -> Result<Vec<T>, Error>
    ensures ok { IfOk result (λ v. TookOne T.take de.old.element (at_of R.rest de.old)
        (at_of R.rest de.new) (map T.item v.items)) }
    ensures element { OnOk result (de.new.element ≡ de.old.element) }
    ensures refused { Unless R.faulty result (Refuses T.take de.old.element (at_of R.rest de.old)) }
{
    let value = T::read(alloc, de)?;
    let mut values = Vec::new(alloc);
    values.push(value)?;
    Ok(values)
}

/// The elements of an array, and any other item but null as one element.
impl<T: Deserialize + Drop> Deserialize for Array<T> {
    ghost item = { λ a. array (items_of (map T.item a)) };

    ghost take = { array_or_one_taken T.take };

    #[tactic(auto, unfolding(crate::specs::Takes::array_or_one_taken))]
    fn absent(_alloc: Global) -> Option<Array<T>> {
        None
    }

    #[tactic(auto, using(crate::proofs::Arrays::arrays))]
    fn read<R: Read>(alloc: Global, de: &mut Deserializer<R>) -> Result<Array<T>, Error> {
        match de.peek()? {
            EncodingCodes::Null => Err(Error::InvalidFormatCode),
            EncodingCodes::Array8 => Ok(Array::from(read_array(alloc, de)?)),
            EncodingCodes::Array32 => Ok(Array::from(read_array(alloc, de)?)),
            _ => Ok(Array::from(read_one(alloc, de)?)),
        }
    }

    ghost decided = { array_or_one_decided T.take T.decided };
}

impl<T: RoundTrip + Drop> RoundTrip for Array<T> {
    ghost same = { array_same_item T.Serialize.item T.Deserialize.item T.same };

    ghost again = { array_again T.take T.Deserialize.item T.again };
}

impl<T: Faithful + Drop> Faithful for Array<T> {
    ghost faithful = { array_faithful T.Deserialize.item T.faithful };
}

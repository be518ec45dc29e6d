//! Lists, arrays and fields of several values.
ghost use Rattle.std.specs.Prelude.{◌≡◌, ◌++◌, ℕ, List, map, IfOk, OnOk, MatchOption, Option, Some, None};
ghost use Rattle.serde_amqp_item.specs.Item.{Item, scalar, null, list, array, items_of};
ghost use Rattle.serde_amqp_read.specs.Reads.{Unless};
ghost use Rattle.serde_amqp_de.specs.Reads.{At, Took, Refuses, at_of, TookAll, RefusesAll, TookOne, TookSized};
ghost use Rattle.serde_amqp_de.specs.Reads.{RefusesSized};
ghost use Rattle.serde_amqp_de.specs.Takes.{each_taken, elements_taken, items_taken, sequence_taken, several};
ghost use Rattle.serde_amqp_de.specs.Takes.{multiple_taken};
ghost use Rattle.serde_amqp_de.specs.Deciding.{sequence_decided};

use crate::deserialize::Deserialize;
use crate::deserializer::Deserializer;
use serde_amqp_item::{EncodingCodes, Error};
use serde_amqp_read::Read;
use std::alloc::Global;

/// Reads so many items, one behind the other.
fn read_items<T: Deserialize + Drop, R: Read>(
    alloc: Global,
    de: &mut Deserializer<R>,
    count: usize,
) -> Result<Vec<T>, Error>
    ensures ok { IfOk result (λ v. TookAll (each_taken T.take) count de.old.element
        (at_of R.rest de.old) (at_of R.rest de.new) (map T.item v.items)) }
    ensures element { OnOk result (de.new.element ≡ de.old.element) }
    ensures refused { Unless R.faulty result
        (RefusesAll (each_taken T.take) count de.old.element (at_of R.rest de.old)) }
{
    let mut values = Vec::new(alloc);
    for _ in 0..count {
        let value = T::read(alloc, de)?;
        values.push(value)?;
    }
    Ok(values)
}

/// Reads so many items that fill so many bytes.
#[tactic(auto, using(crate::proofs::Several::sizes))]
fn read_sized<T: Deserialize + Drop, R: Read>(
    alloc: Global,
    de: &mut Deserializer<R>,
    count: usize,
    size: usize,
) -> Result<Vec<T>, Error>
    ensures ok { IfOk result (λ v. TookSized (each_taken T.take) count size de.old.element
        (at_of R.rest de.old) (at_of R.rest de.new) (map T.item v.items)) }
    ensures element { OnOk result (de.new.element ≡ de.old.element) }
    ensures refused { Unless R.faulty result
        (RefusesSized (each_taken T.take) count size de.old.element (at_of R.rest de.old)) }
{
    let start = de.pos();
    let values = read_items(alloc, de, count)?;
    if de.pos() - start != size {
        return Err(Error::InvalidLength);
    }
    Ok(values)
}

/// Reads the items of a list (part 1, section 1.6.22).
///
/// Errors: `Memory`; a fault of the reader itself; any other exactly where no front of what is left is a
/// wire form of a list whose items the type takes.
#[tactic(auto, using(crate::proofs::Sequences::lists))]
pub fn read_list<T: Deserialize + Drop, R: Read>(
    alloc: Global,
    de: &mut Deserializer<R>,
) -> Result<Vec<T>, Error>
    ensures ok { IfOk result (λ v. Took (items_taken T.take) de.old.element (at_of R.rest de.old)
        (at_of R.rest de.new) (list (items_of (map T.item v.items)))) }
    ensures element { OnOk result (de.new.element ≡ de.old.element) }
    ensures refused { Unless R.faulty result
        (Refuses (items_taken T.take) de.old.element (at_of R.rest de.old)) }
{
    let outer = de.element();
    let (count, size) = de.list_head()?;
    de.set_element(None);
    let values = read_sized(alloc, de, count, size)?;
    de.set_element(outer);
    Ok(values)
}

/// Reads the elements of an array (part 1, section 1.6.24).
///
/// Errors: `Memory`; a fault of the reader itself; any other exactly where no front of what is left is a
/// wire form of an array whose elements the type takes.
#[tactic(auto, using(crate::proofs::Sequences::arrays))]
pub fn read_array<T: Deserialize + Drop, R: Read>(
    alloc: Global,
    de: &mut Deserializer<R>,
) -> Result<Vec<T>, Error>
    ensures ok { IfOk result (λ v. Took (elements_taken T.take) de.old.element (at_of R.rest de.old)
        (at_of R.rest de.new) (array (items_of (map T.item v.items)))) }
    ensures element { OnOk result (de.new.element ≡ de.old.element) }
    ensures refused { Unless R.faulty result
        (Refuses (elements_taken T.take) de.old.element (at_of R.rest de.old)) }
{
    let outer = de.element();
    let (count, size) = de.array_head()?;
    let values = read_sized(alloc, de, count, size)?;
    de.set_element(outer);
    Ok(values)
}

/// Reads one value.
#[tactic(auto, using(crate::proofs::Sequences::ones))]
fn read_one<T: Deserialize + Drop, R: Read>(
    alloc: Global,
    de: &mut Deserializer<R>,
) -> Result<Vec<T>, Error>
    ensures ok { IfOk result (λ v. TookOne T.take de.old.element (at_of R.rest de.old)
        (at_of R.rest de.new) (map T.item v.items)) }
    ensures element { OnOk result (de.new.element ≡ de.old.element) }
    ensures refused { Unless R.faulty result (Refuses T.take de.old.element (at_of R.rest de.old)) }
{
    let value = T::read(alloc, de)?;
    let mut values = Vec::new(alloc);
    values.push(value)?;
    Ok(values)
}

/// Reads a field of several values: null is none, an array is its elements, and any other item is one
/// value (part 1, section 1.4).
///
/// Errors: `Memory`; a fault of the reader itself; any other exactly where no front of what is left is a
/// wire form of such an item.
#[tactic(auto, using(crate::proofs::Sequences::multiples))]
pub fn read_multiple<T: Deserialize + Drop, R: Read>(
    alloc: Global,
    de: &mut Deserializer<R>,
) -> Result<Vec<T>, Error>
    ensures ok { IfOk result (λ v. Took (multiple_taken T.take) de.old.element (at_of R.rest de.old)
        (at_of R.rest de.new) (several (map T.item v.items))) }
    ensures element { OnOk result (de.new.element ≡ de.old.element) }
    ensures refused { Unless R.faulty result
        (Refuses (multiple_taken T.take) de.old.element (at_of R.rest de.old)) }
{
    match de.peek()? {
        EncodingCodes::Null => {
            de.deserialize_unit()?;
            Ok(Vec::new(alloc))
        }
        EncodingCodes::Array8 => Ok(read_array(alloc, de)?),
        EncodingCodes::Array32 => Ok(read_array(alloc, de)?),
        _ => Ok(read_one(alloc, de)?),
    }
}

/// A list, or the elements of an array.
impl<T: Deserialize + Drop> Deserialize for Vec<T> {
    ghost item = { λ v. list (items_of (map T.item v.items)) };

    ghost take = { sequence_taken T.take };

    #[tactic(auto, unfolding(crate::specs::Takes::sequence_taken))]
    fn absent(_alloc: Global) -> Option<Vec<T>> {
        None
    }

    #[tactic(auto, using(crate::proofs::Sequences::sequences))]
    fn read<R: Read>(alloc: Global, de: &mut Deserializer<R>) -> Result<Vec<T>, Error> {
        match de.peek()? {
            EncodingCodes::Array8 => Ok(read_array(alloc, de)?),
            EncodingCodes::Array32 => Ok(read_array(alloc, de)?),
            _ => Ok(read_list(alloc, de)?),
        }
    }

    ghost decided = { sequence_decided T.take T.decided };
}

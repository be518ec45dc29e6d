//! Maps.
ghost use Rattle.std.specs.Prelude.{◌≡◌, ◌%◌, List, IfOk, OnOk, OnErr, Option, Some, None};
ghost use Rattle.serde_amqp_item.specs.Item.{Item};
ghost use Rattle.serde_amqp_item.specs.Kind.{map_kind};
ghost use Rattle.serde_amqp_read.specs.Reads.{Unless};
ghost use Rattle.serde_amqp_de.specs.Reads.{At, Opens, Took, Refuses, HasFailed, at_of};
ghost use Rattle.serde_amqp_de.specs.Names.{Names, Named, Led, Says};
ghost use Rattle.serde_amqp_item.specs.Entries.{pair_items, map_item};
ghost use Rattle.serde_amqp_de.specs.Maps.{map_in, map_taken, pairs_taken, TookPairs};
ghost use Rattle.serde_amqp_de.specs.Maps.{RefusesPairs, TookSizedPairs, RefusesSizedPairs};

use crate::deserialize::Deserialize;
use crate::deserializer::Deserializer;
use serde_amqp_item::{EncodingCodes, Error, MAX_ARRAY_COUNT};
use serde_amqp_read::Read;
use std::alloc::Global;

impl<R: Read> Deserializer<R> {
    /// Reads the head of a map: the number of its keys and values together, which is even, and of their
    /// bytes (part 1, section 1.6.23). The keys and values follow in turn.
    ///
    /// Errors: `Io` where the input ends; `InvalidFormatCode` for any other type; `InvalidLength` for
    /// a size that is too small, for a key without a value, and for more than 32,768 pairs. After an error
    /// the reader has failed.
    #[tactic(auto, using(crate::proofs::Heads::refusing, crate::proofs::Maps::maps))]
    pub fn map_head(&mut self) -> Result<(usize, usize), Error>
        ensures ok { IfOk result (λ h. Opens map_in None self.old.element (at_of R.rest self.old)
            (at_of R.rest self.new) h.0 h.1) }
        ensures even { IfOk result (λ h. h.0 % 2 ≡ 0) }
        ensures element { OnOk result (self.new.element ≡ self.old.element) }
        ensures refused { Unless R.faulty result
            (Refuses map_taken self.old.element (at_of R.rest self.old)) }
        ensures failed { OnErr result (HasFailed R.rest self.new) }
        ensures named { Named R.faulty result
            (Names map_kind self.old.element (R.rest self.old.reader)) }
        ensures said { IfOk result (λ h. Led map_kind self.old.element (R.rest self.old.reader)
            (Says h.0)) }
    {
        match self.code()? {
            EncodingCodes::Map8 => {
                let (size, count) = self.count8()?;
                if size < 1 {
                    return Err(self.refuse(Error::InvalidLength));
                }
                if count % 2 != 0 {
                    return Err(self.refuse(Error::InvalidLength));
                }
                Ok((count as usize, size as usize - 1))
            }
            EncodingCodes::Map32 => {
                let (size, count) = self.count32()?;
                let count = count as usize;
                if size < 4 {
                    return Err(self.refuse(Error::InvalidLength));
                }
                if count > MAX_ARRAY_COUNT {
                    return Err(self.refuse(Error::InvalidLength));
                }
                if count % 2 != 0 {
                    return Err(self.refuse(Error::InvalidLength));
                }
                Ok((count, size as usize - 4))
            }
            _ => Err(self.refuse(Error::InvalidFormatCode)),
        }
    }
}

/// Reads so many keys with their values, one behind the other.
fn read_pairs<K: Deserialize + Drop, V: Deserialize + Drop, R: Read>(
    alloc: Global,
    de: &mut Deserializer<R>,
    count: usize,
) -> Result<Vec<(K, V)>, Error>
    requires { de.old.element ≡ None }
    ensures ok { IfOk result (λ v. TookPairs K.take V.take count (at_of R.rest de.old)
        (at_of R.rest de.new) (pair_items K.item V.item v.items)) }
    ensures element { OnOk result (de.new.element ≡ None) }
    ensures refused { Unless R.faulty result
        (RefusesPairs K.take V.take count (at_of R.rest de.old)) }
{
    let mut pairs = Vec::new(alloc);
    for _ in 0..count {
        let key = K::read(alloc, de)?;
        let value = V::read(alloc, de)?;
        pairs.push((key, value))?;
    }
    Ok(pairs)
}

/// Reads so many keys with their values that fill so many bytes.
#[tactic(auto, using(crate::proofs::Pairs::sizes))]
fn read_sized_pairs<K: Deserialize + Drop, V: Deserialize + Drop, R: Read>(
    alloc: Global,
    de: &mut Deserializer<R>,
    count: usize,
    size: usize,
) -> Result<Vec<(K, V)>, Error>
    requires { de.old.element ≡ None }
    ensures ok { IfOk result (λ v. TookSizedPairs K.take V.take count size (at_of R.rest de.old)
        (at_of R.rest de.new) (pair_items K.item V.item v.items)) }
    ensures refused { Unless R.faulty result
        (RefusesSizedPairs K.take V.take count size (at_of R.rest de.old)) }
{
    let start = de.pos();
    let pairs = read_pairs(alloc, de, count)?;
    if de.pos() - start != size {
        return Err(Error::InvalidLength);
    }
    Ok(pairs)
}

/// Reads the keys and values of a map (part 1, section 1.6.23), in the order of the bytes. A key that is
/// repeated stands there each time.
///
/// Errors: `Memory`; a fault of the reader itself; any other exactly where no front of what is left is a
/// wire form of a map whose keys and values the types take.
#[tactic(auto, using(crate::proofs::Pairs::reading))]
pub fn read_map<K: Deserialize + Drop, V: Deserialize + Drop, R: Read>(
    alloc: Global,
    de: &mut Deserializer<R>,
) -> Result<Vec<(K, V)>, Error>
    ensures ok { IfOk result (λ v. Took (pairs_taken K.take V.take) de.old.element
        (at_of R.rest de.old) (at_of R.rest de.new) (map_item K.item V.item v.items)) }
    ensures element { OnOk result (de.new.element ≡ de.old.element) }
    ensures refused { Unless R.faulty result
        (Refuses (pairs_taken K.take V.take) de.old.element (at_of R.rest de.old)) }
{
    let outer = de.element();
    let (count, size) = de.map_head()?;
    de.set_element(None);
    let pairs = read_sized_pairs(alloc, de, count / 2, size)?;
    de.set_element(outer);
    Ok(pairs)
}

//! What can be read.
ghost use Rattle.std.specs.Prelude.{◌≡◌, ◌++◌, ℕ, List, IfOk, OnOk, OnErr, MatchOption, Option, Some, None, Bool};
ghost use Rattle.std.specs.Prelude.{false, refl, string_bytes};
ghost use Rattle.serde_amqp_item.specs.Item.{Item, scalar, null, boolean, ushort, uint, ulong, string};
ghost use Rattle.serde_amqp_item.specs.Wire.{Wire};
ghost use Rattle.serde_amqp_item.specs.Record.{option_item};
ghost use Rattle.serde_amqp_read.specs.Reads.{Unless, faultless};
ghost use Rattle.serde_amqp_de.specs.Reads.{Took, Refuses, at_of, HasFailed};
ghost use Rattle.serde_amqp_de.specs.Names.{NamesOption, Named};
ghost use Rattle.serde_amqp_de.specs.Takes.{null_taken, boolean_taken, ushort_taken, uint_taken, ulong_taken};
ghost use Rattle.serde_amqp_de.specs.Takes.{string_taken, option_taken, reads_as_null};
ghost use Rattle.serde_amqp_de.specs.Decides.{Decided};
ghost use Rattle.serde_amqp_de.specs.Deciding.{null_decided, boolean_decided, ushort_decided, uint_decided};
ghost use Rattle.serde_amqp_de.specs.Deciding.{ulong_decided, string_decided, option_decided};

use crate::deserializer::Deserializer;
use serde_amqp_item::{EncodingCodes, Error};
use serde_amqp_read::{Read, SliceReader};
use std::alloc::Global;

/// A type whose values are read from wire forms of items (part 1).
pub trait Deserialize: Sized {
    /// The item that a value is.
    ghost item: { Self → Item };

    /// Which items the type takes, and the item of the value that it makes of one.
    ghost take: { Item → Option Item };

    /// The value of a field that is absent, which is null (part 1, section 1.4); none where the field
    /// is mandatory.
    fn absent(alloc: Global) -> Option<Self>
        ensures { MatchOption result (take (scalar null) ≡ None)
            (λ v. take (scalar null) ≡ Some (item v)) };

    /// Reads a value. After an error use the reader no more: `deserialize` sees to that.
    ///
    /// Errors: `Memory`; a fault of the reader itself; any other exactly where no front of what is left
    /// is a wire form of an item that the type takes.
    fn read<R: Read>(alloc: Global, de: &mut Deserializer<R>) -> Result<Self, Error>
        ensures ok { IfOk result (λ v. Took take de.old.element (at_of R.rest de.old)
            (at_of R.rest de.new) (item v)) }
        ensures element { OnOk result (de.new.element ≡ de.old.element) }
        ensures refused { Unless R.faulty result
            (Refuses take de.old.element (at_of R.rest de.old)) };

    /// Reads a value. After an error the reader has failed, so that each later call is refused.
    ///
    /// Errors: as for `read`.
    final fn deserialize<R: Read>(alloc: Global, de: &mut Deserializer<R>) -> Result<Self, Error>
        ensures ok { IfOk result (λ v. Took take de.old.element (at_of R.rest de.old)
            (at_of R.rest de.new) (item v)) }
        ensures element { OnOk result (de.new.element ≡ de.old.element) }
        ensures refused { Unless R.faulty result
            (Refuses take de.old.element (at_of R.rest de.old)) }
        ensures failed { OnErr result (HasFailed R.rest de.new) }
    {
        match Self::read(alloc, de) {
            Ok(value) => Ok(value),
            Err(e) => {
                de.fail();
                Err(e)
            }
        }
    }

    /// Bytes give one value, whichever of the items that they are a form of is taken.
    ghost decided: { Decided take };
}

/// No value is read as null.
pub trait NeverNull: Deserialize {
    ghost present: { (x : Self) → reads_as_null (Self.item x) ≡ false };
}

impl Deserialize for () {
    ghost item = { λ _. scalar null };

    ghost take = { null_taken };

    fn absent(_alloc: Global) -> Option<()> {
        Some(())
    }

    #[tactic(auto, using(crate::proofs::Values::taking))]
    fn read<R: Read>(_alloc: Global, de: &mut Deserializer<R>) -> Result<(), Error> {
        de.deserialize_unit()
    }

    ghost decided = { null_decided };
}

impl Deserialize for bool {
    ghost item = { λ b. scalar (boolean b) };

    ghost take = { boolean_taken };

    fn absent(_alloc: Global) -> Option<bool> {
        None
    }

    #[inline(always)]
    #[tactic(auto, using(crate::proofs::Values::taking))]
    fn read<R: Read>(_alloc: Global, de: &mut Deserializer<R>) -> Result<bool, Error> {
        de.deserialize_bool()
    }

    ghost decided = { boolean_decided };
}

impl Deserialize for u16 {
    ghost item = { λ n. scalar (ushort n) };

    ghost take = { ushort_taken };

    fn absent(_alloc: Global) -> Option<u16> {
        None
    }

    #[tactic(auto, using(crate::proofs::Values::taking))]
    fn read<R: Read>(_alloc: Global, de: &mut Deserializer<R>) -> Result<u16, Error> {
        de.deserialize_u16()
    }

    ghost decided = { ushort_decided };
}

impl Deserialize for u32 {
    ghost item = { λ n. scalar (uint n) };

    ghost take = { uint_taken };

    fn absent(_alloc: Global) -> Option<u32> {
        None
    }

    #[inline(always)]
    #[tactic(auto, using(crate::proofs::Values::taking))]
    fn read<R: Read>(_alloc: Global, de: &mut Deserializer<R>) -> Result<u32, Error> {
        de.deserialize_u32()
    }

    ghost decided = { uint_decided };
}

impl Deserialize for u64 {
    ghost item = { λ n. scalar (ulong n) };

    ghost take = { ulong_taken };

    fn absent(_alloc: Global) -> Option<u64> {
        None
    }

    #[inline(always)]
    #[tactic(auto, using(crate::proofs::Values::taking))]
    fn read<R: Read>(_alloc: Global, de: &mut Deserializer<R>) -> Result<u64, Error> {
        de.deserialize_u64()
    }

    ghost decided = { ulong_decided };
}

impl Deserialize for String {
    ghost item = { λ s. scalar (string (string_bytes s)) };

    ghost take = { string_taken };

    fn absent(_alloc: Global) -> Option<String> {
        None
    }

    #[tactic(auto, using(crate::proofs::Values::taking))]
    fn read<R: Read>(alloc: Global, de: &mut Deserializer<R>) -> Result<String, Error> {
        de.deserialize_string(alloc)
    }

    ghost decided = { string_decided };
}

/// None is null (part 1, section 1.4).
impl<T: Deserialize> Deserialize for Option<T> {
    ghost item = { option_item T.item };

    ghost take = { option_taken T.take };

    #[tactic(auto, unfolding(crate::specs::Takes::option_taken))]
    fn absent(_alloc: Global) -> Option<Option<T>> {
        Some(None)
    }

    #[tactic(auto, using(crate::proofs::Values::optional))]
    fn read<R: Read>(alloc: Global, de: &mut Deserializer<R>) -> Result<Option<T>, Error> {
        match de.peek()? {
            EncodingCodes::Null => {
                de.deserialize_unit()?;
                Ok(None)
            }
            _ => Ok(Some(T::read(alloc, de)?)),
        }
    }

    ghost decided = { option_decided T.take T.decided };
}

impl<R: Read> Deserializer<R> {
    /// Reads null as none, and any other item as a value (part 1, section 1.4).
    ///
    /// Errors: `Io` where the input ends; `InvalidFormatCode` where no constructor comes next; those of the
    /// value's `read` behind a constructor that isn't that of null. After an error the reader has failed.
    #[tactic(auto, using(crate::proofs::Values::optional))]
    pub fn deserialize_option<T: Deserialize>(&mut self, alloc: Global) -> Result<Option<T>, Error>
        ensures ok { IfOk result (λ o. Took (option_taken T.take) self.old.element
            (at_of R.rest self.old) (at_of R.rest self.new) (option_item T.item o)) }
        ensures element { OnOk result (self.new.element ≡ self.old.element) }
        ensures refused { Unless R.faulty result
            (Refuses (option_taken T.take) self.old.element (at_of R.rest self.old)) }
        ensures failed { OnErr result (HasFailed R.rest self.new) }
        ensures named { Named R.faulty result
            (NamesOption self.old.element (R.rest self.old.reader)) }
    {
        match self.peek()? {
            EncodingCodes::Null => {
                self.deserialize_unit()?;
                Ok(None)
            }
            _ => Ok(Some(T::deserialize(alloc, self)?)),
        }
    }
}

impl NeverNull for bool {
    ghost present = { λ _. refl };
}

impl NeverNull for u16 {
    ghost present = { λ _. refl };
}

impl NeverNull for u32 {
    ghost present = { λ _. refl };
}

impl NeverNull for u64 {
    ghost present = { λ _. refl };
}

impl NeverNull for String {
    ghost present = { λ _. refl };
}

/// Reads a value from the front of the bytes.
///
/// Errors: `Memory`; any other exactly where no front of the bytes is a wire form of an item that the
/// type takes.
pub fn from_slice<T: Deserialize>(alloc: Global, bytes: &[u8]) -> Result<T, Error>
    ensures ok { IfOk result (λ v. (x : Item) × (front : List ℕ) × (more : List ℕ)
        × Wire x None front × (bytes.now ≡ front ++ more) × (T.take x ≡ Some (T.item v))) }
    ensures refused { Unless faultless result
        ((x : Item) (front more : List ℕ) → Wire x None front → bytes.now ≡ front ++ more →
        T.take x ≡ None) }
{
    let mut de = Deserializer::new(SliceReader::new(bytes));
    T::deserialize(alloc, &mut de)
}

/// Reads a value from the front of what is left of a reader, and gives the reader back: what stands
/// behind that front is left in it. What `from_slice` says of its bytes this says of what is left of the
/// reader.
///
/// Errors: `Memory`; any other exactly where no front of what is left is a wire form of an item that the
/// type takes. What is left ends where an inner reader fails.
pub fn from_reader<T: Deserialize, R: Read + Drop>(
    alloc: Global,
    reader: R,
) -> Result<(T, R), Error>
    ensures ok { IfOk result (λ p. (x : Item) × (front : List ℕ) × Wire x None front
        × (R.rest reader ≡ front ++ R.rest p.1) × (T.take x ≡ Some (T.item p.0))) }
    ensures refused { Unless faultless result
        ((x : Item) (front more : List ℕ) → Wire x None front → R.rest reader ≡ front ++ more →
        T.take x ≡ None) }
{
    let mut de = Deserializer::new(reader);
    let value = T::deserialize(alloc, &mut de)?;
    Ok((value, de.into_reader()))
}

//! Whole values, as texts of their own.
ghost use Rattle.std.specs.Prelude.{◌≡◌, ◌≢◌, ◌≤◌, ◌^◌, ◌⊎◌, ◌++◌, ℕ, List, length, Option, Some, None, IsSome, OnOk};
ghost use Rattle.std.specs.Prelude.{IfOk, IfErr, OnErr};
ghost use Rattle.serde_amqp_item.specs.Canon.{canon};
ghost use Rattle.serde_amqp_ser.specs.Written.{capped};
ghost use Rattle.serde_amqp_ser.specs.Sizes.{HasLength, IsTooLong};
ghost use Rattle.serde_amqp_ser.specs.Puts.{serialized, OnlyWhere, bytes_state};

use crate::serialize::Serialize;
use crate::serializer::Serializer;
use crate::sink::Counter;
use serde_amqp_item::Error;
use std::alloc::Global;

/// How many bytes the canonical text of a value has, up to 2^64.
fn counted<T: Serialize>(value: &T) -> Result<u128, Error>
    ensures ok { IfOk result (λ n. (text : List ℕ) × (canon (T.item value.now) ≡ Some text)
        × (n ≡ capped (length text))) }
    ensures refused { IfErr result (λ e. (e ≢ Error.Memory) × (canon (T.item value.now) ≡ None)) }
{
    let mut s = Serializer::new(Counter::new());
    value.serialize(&mut s)?;
    Ok(s.into_inner().count())
}

/// How many bytes the canonical text of a value has, counted without memory. Refuses a value that has
/// none, and answers `InvalidLength` where it has 2^64 bytes or more.
pub fn serialized_size<T: Serialize>(value: &T) -> Result<usize, Error>
    ensures ok { IfOk result (λ n. HasLength (canon (T.item value.now)) n) }
    ensures refused { IfErr result (λ e. (canon (T.item value.now) ≡ None)
        ⊎ (IsTooLong (canon (T.item value.now)) × (e ≡ Error.InvalidLength))) }
    ensures memory { IfErr result (λ e. e ≢ Error.Memory) }
{
    let Ok(size) = usize::try_from(counted(value)?) else {
        return Err(Error::InvalidLength);
    };
    Ok(size)
}

/// The canonical text of a value. Counts first, so that it takes memory once. Any error but `Memory`
/// comes exactly where the value has no canonical text; `Memory` is for want of memory alone, as for a
/// text of 2^64 bytes or more.
pub fn to_vec<T: Serialize>(alloc: Global, value: &T) -> Result<Vec<u8>, Error>
    ensures ok { IfOk result (λ bytes. canon (T.item value.now) ≡ Some bytes.items) }
    ensures refused { IfErr result (λ e. e ≢ Error.Memory → canon (T.item value.now) ≡ None) }
    ensures memory { IfErr result (λ e. e ≡ Error.Memory → IsSome (canon (T.item value.now))) }
{
    let Ok(size) = usize::try_from(counted(value)?) else {
        return Err(Error::Memory);
    };
    let mut s = Serializer::new(Vec::with_capacity(alloc, size)?);
    value.serialize(&mut s)?;
    Ok(s.into_inner())
}

/// Writes the canonical text of a value behind the bytes that are there. Counts first, so that it takes
/// memory once. The errors are those of [`to_vec`], and after each of them the bytes are as before.
pub fn append_to_vec<T: Serialize>(
    alloc: Global,
    value: &T,
    bytes: &mut Vec<u8>,
) -> Result<(), Error>
    ensures ok { OnOk result ((text : List ℕ) × (canon (T.item value.now) ≡ Some text)
        × (bytes.new.items ≡ bytes.old.items ++ text)) }
    ensures err { OnErr result (bytes.new.items ≡ bytes.old.items) }
    ensures refused { IfErr result (λ e. e ≢ Error.Memory → canon (T.item value.now) ≡ None) }
    ensures memory { IfErr result (λ e. e ≡ Error.Memory → IsSome (canon (T.item value.now))) }
{
    let Ok(size) = usize::try_from(counted(value)?) else {
        return Err(Error::Memory);
    };
    bytes.reserve(size)?;
    let len = bytes.len();
    let mut s = Serializer::new(std::mem::replace(bytes, Vec::new(alloc)));
    let result = value.serialize(&mut s);
    *bytes = s.into_inner();
    if result.is_err() {
        bytes.truncate(len);
    }
    result
}

impl Serializer<Vec<u8>> {
    /// Writes a value, or leaves all as before: after an error the vector has the bytes that it had, and the
    /// next value is written where this one was to be. Any error but `Memory` comes exactly where the value's
    /// item has no canonical text, in an array no wide form.
    pub fn write_value<T: Serialize>(&mut self, value: &T) -> Result<(), Error>
        ensures ok { OnOk result (serialized (bytes_state self.old.writer.items self.old.element)
            (T.item value.now) ≡ Some (bytes_state self.new.writer.items self.new.element)) }
        ensures err { OnErr result ((self.new.writer.items ≡ self.old.writer.items)
            × (self.new.element ≡ self.old.element)) }
        ensures refused { OnlyWhere result (serialized
            (bytes_state self.old.writer.items self.old.element) (T.item value.now)) }
    {
        let len = self.writer.len();
        let element = self.element;
        let result = value.serialize(self);
        if result.is_err() {
            self.writer.truncate(len);
            self.element = element;
        }
        result
    }
}

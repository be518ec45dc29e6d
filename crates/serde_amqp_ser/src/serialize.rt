//! What can be written.
ghost use Rattle.std.specs.Prelude.{◌≡◌, ℕ, List, map, Some, None, OnOk, OnErr};
ghost use Rattle.serde_amqp_item.specs.Item.{Item, scalar, null, boolean, ubyte, ushort, uint, ulong, byte, short, int};
ghost use Rattle.serde_amqp_item.specs.Item.{long, float, double, char, string, list, items_of};
ghost use Rattle.serde_amqp_item.specs.Record.{is_null, option_item};
ghost use Rattle.std.specs.String.{string_bytes};
ghost use Rattle.serde_amqp_ser.specs.Written.{Written, Keeps};
ghost use Rattle.serde_amqp_ser.specs.Puts.{State, serialized, OnlyWhere, WantsMemory, state_of};

use crate::serializer::Serializer;
use crate::sink::Sink;
use serde_amqp_item::{Double, Error, Float};

/// A value that is written as one item.
pub trait Serialize {
    /// The item that a value is.
    ghost item: { Self → Item };

    /// Whether the value is written as null. A null at the end of a record is left off.
    fn is_null(&self) -> bool
        ensures { result ≡ is_null (item self.now) };

    /// Writes the canonical text of the value's item, in an array its wide form. Any error but `Memory`
    /// comes exactly where the item has none. A value that is refused leaves the serializer as before.
    fn serialize<W: Sink>(&self, s: &mut Serializer<W>) -> Result<(), Error>
        ensures ok { OnOk result (serialized (state_of W.written s.old) (item self.now)
            ≡ Some (state_of W.written s.new)) }
        ensures err { OnErr result (state_of W.written s.new ≡ state_of W.written s.old) }
        ensures kept { Keeps (W.written s.old.writer) (W.written s.new.writer) }
        ensures refused { OnlyWhere result (serialized (state_of W.written s.old) (item self.now)) }
        ensures memory { WantsMemory W.takes_memory result };
}

/// Null.
impl Serialize for () {
    ghost item = { λ _. scalar null };

    fn is_null(&self) -> bool {
        true
    }

    fn serialize<W: Sink>(&self, s: &mut Serializer<W>) -> Result<(), Error> {
        s.serialize_unit()
    }
}

/// A boolean.
impl Serialize for bool {
    ghost item = { λ b. scalar (boolean b) };

    fn is_null(&self) -> bool {
        false
    }

    #[inline(always)]
    fn serialize<W: Sink>(&self, s: &mut Serializer<W>) -> Result<(), Error> {
        s.serialize_bool(*self)
    }
}

/// A ubyte.
impl Serialize for u8 {
    ghost item = { λ n. scalar (ubyte n) };

    fn is_null(&self) -> bool {
        false
    }

    fn serialize<W: Sink>(&self, s: &mut Serializer<W>) -> Result<(), Error> {
        s.serialize_u8(*self)
    }
}

/// A ushort.
impl Serialize for u16 {
    ghost item = { λ n. scalar (ushort n) };

    fn is_null(&self) -> bool {
        false
    }

    fn serialize<W: Sink>(&self, s: &mut Serializer<W>) -> Result<(), Error> {
        s.serialize_u16(*self)
    }
}

/// A uint.
impl Serialize for u32 {
    ghost item = { λ n. scalar (uint n) };

    fn is_null(&self) -> bool {
        false
    }

    #[inline(always)]
    fn serialize<W: Sink>(&self, s: &mut Serializer<W>) -> Result<(), Error> {
        s.serialize_u32(*self)
    }
}

/// A ulong.
impl Serialize for u64 {
    ghost item = { λ n. scalar (ulong n) };

    fn is_null(&self) -> bool {
        false
    }

    #[inline(always)]
    fn serialize<W: Sink>(&self, s: &mut Serializer<W>) -> Result<(), Error> {
        s.serialize_u64(*self)
    }
}

/// A byte.
impl Serialize for i8 {
    ghost item = { λ z. scalar (byte z) };

    fn is_null(&self) -> bool {
        false
    }

    fn serialize<W: Sink>(&self, s: &mut Serializer<W>) -> Result<(), Error> {
        s.serialize_i8(*self)
    }
}

/// A short.
impl Serialize for i16 {
    ghost item = { λ z. scalar (short z) };

    fn is_null(&self) -> bool {
        false
    }

    fn serialize<W: Sink>(&self, s: &mut Serializer<W>) -> Result<(), Error> {
        s.serialize_i16(*self)
    }
}

/// An int.
impl Serialize for i32 {
    ghost item = { λ z. scalar (int z) };

    fn is_null(&self) -> bool {
        false
    }

    fn serialize<W: Sink>(&self, s: &mut Serializer<W>) -> Result<(), Error> {
        s.serialize_i32(*self)
    }
}

/// A long.
impl Serialize for i64 {
    ghost item = { λ z. scalar (long z) };

    fn is_null(&self) -> bool {
        false
    }

    fn serialize<W: Sink>(&self, s: &mut Serializer<W>) -> Result<(), Error> {
        s.serialize_i64(*self)
    }
}

/// A float.
impl Serialize for Float {
    ghost item = { λ x. scalar (float x.0) };

    fn is_null(&self) -> bool {
        false
    }

    fn serialize<W: Sink>(&self, s: &mut Serializer<W>) -> Result<(), Error> {
        s.serialize_f32(*self)
    }
}

/// A double.
impl Serialize for Double {
    ghost item = { λ x. scalar (double x.0) };

    fn is_null(&self) -> bool {
        false
    }

    fn serialize<W: Sink>(&self, s: &mut Serializer<W>) -> Result<(), Error> {
        s.serialize_f64(*self)
    }
}

/// A char.
impl Serialize for char {
    ghost item = { λ c. scalar (char c) };

    fn is_null(&self) -> bool {
        false
    }

    fn serialize<W: Sink>(&self, s: &mut Serializer<W>) -> Result<(), Error> {
        s.serialize_char(*self)
    }
}

/// A string.
impl Serialize for String {
    ghost item = { λ text. scalar (string (string_bytes text)) };

    fn is_null(&self) -> bool {
        false
    }

    fn serialize<W: Sink>(&self, s: &mut Serializer<W>) -> Result<(), Error> {
        s.serialize_str(self.as_str())
    }
}

/// What it points to.
impl<T: Serialize> Serialize for &T {
    ghost item = { λ x. T.item x.now };

    fn is_null(&self) -> bool {
        T::is_null(*self)
    }

    fn serialize<W: Sink>(&self, s: &mut Serializer<W>) -> Result<(), Error> {
        T::serialize(*self, s)
    }
}

/// Null, or the value.
impl<T: Serialize> Serialize for Option<T> {
    ghost item = { option_item T.item };

    fn is_null(&self) -> bool {
        match self {
            None => true,
            Some(x) => x.is_null(),
        }
    }

    fn serialize<W: Sink>(&self, s: &mut Serializer<W>) -> Result<(), Error> {
        match self {
            None => s.serialize_unit(),
            Some(x) => x.serialize(s),
        }
    }
}

/// A list.
impl<T: Serialize> Serialize for Vec<T> {
    ghost item = { λ v. list (items_of (map T.item v.items)) };

    fn is_null(&self) -> bool {
        false
    }

    fn serialize<W: Sink>(&self, s: &mut Serializer<W>) -> Result<(), Error> {
        s.serialize_list(self.as_slice())
    }
}

/// A string.
impl Serialize for &str {
    ghost item = { λ text. scalar (string text.now) };

    fn is_null(&self) -> bool {
        false
    }

    fn serialize<W: Sink>(&self, s: &mut Serializer<W>) -> Result<(), Error> {
        s.serialize_str(*self)
    }
}

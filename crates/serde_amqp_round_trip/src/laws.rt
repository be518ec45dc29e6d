//! What is written is read back. The functions do nothing: their contracts are the laws.
ghost use Rattle.std.specs.Prelude.{◌≡◌, List, ℕ, ◌++◌, Some, None};
ghost use Rattle.serde_amqp_item.specs.Item.{Item};
ghost use Rattle.serde_amqp_item.specs.Wire.{Wire, IsCapped, IsStrict};
ghost use Rattle.serde_amqp_item.specs.Canon.{canon, AllWithin, RawKept};

use crate::values::{Faithful, RoundTrip};

/// A value that was written is read back (part 1): the canonical text of its item, with anything behind it, begins
/// with a wire form that the type takes, and what it makes of it is of the same item. The premises say that the
/// item's counts are in their bounds, and that its raw items are wire forms.
pub fn written_is_read<T: RoundTrip>()
    ensures there { (v : T) (text : List ℕ) → AllWithin IsCapped (T.Serialize.item v) →
        RawKept IsStrict (T.Serialize.item v) → canon (T.Serialize.item v) ≡ Some text →
        Wire (T.Deserialize.item v) None text
        × (T.take (T.Deserialize.item v) ≡ Some (T.Deserialize.item v)) }
    ensures same { (v : T) (text more front rest : List ℕ) (x u : Item) →
        AllWithin IsCapped (T.Serialize.item v) → RawKept IsStrict (T.Serialize.item v) →
        canon (T.Serialize.item v) ≡ Some text → Wire x None front → text ++ more ≡ front ++ rest →
        T.take x ≡ Some u → u ≡ T.Serialize.item v }
{}

/// Where no two values have the same item, the value that is read is the one that was written.
pub fn written_is_read_equal<T: Faithful>()
    ensures { (v w : T) (text more front rest : List ℕ) (x : Item) →
        AllWithin IsCapped (T.Serialize.item v) → RawKept IsStrict (T.Serialize.item v) →
        canon (T.Serialize.item v) ≡ Some text → Wire x None front → text ++ more ≡ front ++ rest →
        T.take x ≡ Some (T.Deserialize.item w) → w ≡ v }
{}

//! Binary data (part 1, 1.6.19).
ghost use Rattle.std.specs.Cmp.{partial_equiv_from_equiv};
ghost use Rattle.std.specs.Cmp.Lexicographic.{slice_cmp, nat_list_cmp_total, texts_ties, texts_po, same_text};
ghost use Rattle.std.specs.Hash as fed;
ghost use Rattle.std.specs.Ordering.{nat_cmp};
ghost use Rattle.std.specs.Prelude.{◌≡◌, ◌==◌, ◌≤◌, length, IfOk, IsOk, Some, refl};
ghost use Rattle.std.specs.Str.{bytes_eq};
ghost use Rattle.std.proofs.Common.{ap, sym};
ghost use Rattle.std.proofs.lemmas.Cmp.{nat_list_eq_equiv};
ghost use Rattle.serde_amqp_item.specs.Item.{scalar, binary};
ghost use Rattle.serde_amqp_de.specs.Takes.{binary_taken};
ghost use Rattle.serde_amqp_de.specs.Deciding.{binary_decided};
ghost use Rattle.serde_amqp_types.specs.Faithful.{binary_faithful};

use serde_amqp_de::{Deserialize, Deserializer, MapKey, NeverNull, Read, ShortBytes};
use serde_amqp_item::Error;
use serde_amqp_round_trip::{Faithful, RoundTrip};
use serde_amqp_ser::{Serialize, Serializer, Sink};
use std::alloc::{AllocError, Global};
use std::cmp::Ordering;
use std::fmt;
use std::hash::{Hash, Hasher};
use std::marker::Model;

/// How many bytes are compared one by one, at most, as those of most tags are: the comparison of slices goes by groups of
/// many, and takes twice as long for few.
const SHORT: usize = 32;

/// Bytes (part 1, 1.6.19). Up to 32 of them, as a delivery's tag has at most, lie in the value itself. A clause
/// sees the list of them.
pub struct ByteBuf {
    bytes: ShortBytes,
}

impl Drop for ByteBuf {
    fn drop(self) {
        let ByteBuf { bytes: _ } = self;
    }
}

impl Model for ByteBuf {
    ghost use Rattle.std.specs.Prelude.{List, ℕ};

    ghost Value = { List ℕ };

    ghost view = { λ b. b.bytes.items };
}

impl ByteBuf {
    ghost use Rattle.std.specs.Prelude.{[]};

    /// No bytes.
    pub fn new(alloc: Global) -> Self
        ensures { result ≡ [] }
    {
        ByteBuf {
            bytes: ShortBytes::new(alloc),
        }
    }

    /// A copy of these bytes. It is refused where there are more than 32 and there is no memory for them.
    pub fn from_slice(alloc: Global, bytes: &[u8]) -> Result<Self, AllocError>
        ensures ok { IfOk result (λ b. b ≡ bytes.now) }
        ensures short { length bytes.now ≤ 32 → IsOk result }
    {
        Ok(ByteBuf {
            bytes: ShortBytes::from_slice(alloc, bytes)?,
        })
    }

    /// The bytes.
    pub fn as_slice(&self) -> &[u8]
        ensures { result.now ≡ self.now }
    {
        self.bytes.as_slice()
    }

    /// How many bytes there are.
    pub fn len(&self) -> usize
        ensures { result ≡ length self.now }
    {
        self.bytes.len()
    }

    /// Whether there are none.
    pub fn is_empty(&self) -> bool
        ensures { result ≡ (length self.now == 0) }
    {
        self.bytes.is_empty()
    }

    /// A second copy of the bytes. It is refused where there are more than 32 and there is no memory for them.
    pub fn try_clone(&self, alloc: Global) -> Result<Self, AllocError>
        ensures ok { IfOk result (λ b. b ≡ self.now) }
        ensures short { length self.now ≤ 32 → IsOk result }
    {
        ByteBuf::from_slice(alloc, self.as_slice())
    }
}

impl Clone for ByteBuf {
    ghost is_clone = { λ x y. y ≡ x };

    fn clone(&self) -> Result<Self, AllocError> {
        Ok(ByteBuf {
            bytes: ShortBytes::from_slice(*self.bytes.allocator(), self.as_slice())?,
        })
    }
}

impl From<Vec<u8>> for ByteBuf {
    ghost from_gives = { λ v b. b ≡ v.items };

    fn from(bytes: Vec<u8>) -> Self {
        ByteBuf {
            bytes: ShortBytes::from_vec(bytes),
        }
    }
}

impl PartialEq for ByteBuf {
    ghost eq = { bytes_eq };

    ghost laws = { partial_equiv_from_equiv nat_list_eq_equiv };

    fn eq(&self, other: &Self) -> bool {
        if self.len() > SHORT {
            return self.as_slice() == other.as_slice();
        }
        are_same(self.as_slice(), other.as_slice())
    }
}

/// Whether two lists hold the same bytes, which are compared one by one.
fn are_same(one: &[u8], other: &[u8]) -> bool
    ensures { result ≡ bytes_eq one.now other.now }
{
    let mut left = one;
    let mut right = other;
    while let Some((x, xs)) = left.split_first() {
        let Some((y, ys)) = right.split_first() else {
            return false;
        };
        if *x != *y {
            return false;
        }
        left = xs;
        right = ys;
    }
    right.is_empty()
}

impl Eq for ByteBuf {
    ghost laws = { nat_list_eq_equiv };
}

impl PartialOrd for ByteBuf {
    ghost partial_cmp = { λ x y. Some (slice_cmp nat_cmp x y) };

    ghost laws = { texts_po };

    fn partial_cmp(&self, other: &Self) -> Option<Ordering> {
        Some(self.cmp(other))
    }
}

/// The order of the bytes, the first of them first.
impl Ord for ByteBuf {
    ghost cmp = { slice_cmp nat_cmp };

    ghost total = { nat_list_cmp_total };

    ghost matches_partial_cmp = { λ _ _. refl };

    ghost matches_eq = { texts_ties };

    fn cmp(&self, other: &Self) -> Ordering {
        self.as_slice().cmp(&other.as_slice())
    }
}

/// The hash of the bytes.
impl Hash for ByteBuf {
    ghost hash_input = { fed.slice fed.u8 };

    ghost respects_eq = { λ x y h. ap (fed.slice fed.u8) (same_text x y (sym h)) };

    fn hash<H: Hasher>(&self, state: &mut H) {
        self.as_slice().hash(state);
    }
}

impl fmt::Debug for ByteBuf {
    fn fmt<W: fmt::Write>(&self, f: &mut fmt::Formatter<W>) -> fmt::Result {
        let bytes = self.as_slice();
        write!(f, "{bytes:?}")
    }
}

impl Serialize for ByteBuf {
    ghost item = { λ b. scalar (binary b) };

    fn is_null(&self) -> bool {
        false
    }

    fn serialize<W: Sink>(&self, s: &mut Serializer<W>) -> Result<(), Error> {
        s.serialize_bytes(self.as_slice())
    }
}

impl Deserialize for ByteBuf {
    ghost item = { λ b. scalar (binary b) };

    ghost take = { binary_taken };

    fn absent(_alloc: Global) -> Option<ByteBuf> {
        None
    }

    #[tactic(auto, using(serde_amqp_de::proofs::Values::taking))]
    fn read<R: Read>(alloc: Global, de: &mut Deserializer<R>) -> Result<ByteBuf, Error> {
        Ok(ByteBuf {
            bytes: de.deserialize_byte_buf(alloc)?,
        })
    }

    ghost decided = { binary_decided };
}

impl RoundTrip for ByteBuf {
    ghost same = { λ _. refl };

    ghost again = { λ _. refl };
}

impl Faithful for ByteBuf {
    ghost faithful = { binary_faithful };
}

impl NeverNull for ByteBuf {
    ghost present = { λ _. refl };
}

impl MapKey for ByteBuf {
    ghost equal = { λ _ _. refl };
}

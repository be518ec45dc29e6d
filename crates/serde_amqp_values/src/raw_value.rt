//! Raw values.
ghost use Rattle.std.specs.Cmp.{partial_equiv_from_equiv};
ghost use Rattle.std.specs.Cmp.Lexicographic.{same_text};
ghost use Rattle.std.specs.Hash as fed;
ghost use Rattle.std.specs.Prelude.{◌≡◌, ◌∷◌, [], ℕ, List, IfOk, Option, Some, None, refl};
ghost use Rattle.std.specs.Str.{bytes_eq};
ghost use Rattle.std.proofs.lemmas.Cmp.{nat_list_eq_equiv};
ghost use Rattle.std.proofs.Common.{ap, sym};
ghost use Rattle.serde_amqp_item.specs.Item.{Item, raw};
ghost use Rattle.serde_amqp_item.specs.Wire.{Wire};
ghost use Rattle.serde_amqp_item.specs.Canon.{canon};
ghost use Rattle.serde_amqp_read.specs.Reads.{StrictBytes, Unless, faultless};
ghost use Rattle.serde_amqp_de.specs.Kept.{raw_taken, raw_decided, raw_faithful};

use serde_amqp_de::{Deserialize, Deserializer, MapKey, from_slice};
use serde_amqp_item::Error;
use serde_amqp_read::{Read, SliceReader};
use serde_amqp_round_trip::{Faithful, RoundTrip};
use serde_amqp_ser::{Serialize, Serializer, Sink, to_vec};
use std::alloc::{AllocError, Global};
use std::fmt;
use std::hash::{Hash, Hasher};
use std::marker::Model;

/// A value of any type, kept as the bytes of one strict form: its constructor and what stands behind it, with exact
/// sizes and counts, of which there may be any number (part 1, section 1.2). A clause sees the bytes.
#[derive(Drop)]
pub struct RawValue {
    bytes: Vec<u8>,
}

impl Model for RawValue {
    ghost use Rattle.std.specs.Prelude.{List, ℕ};
    ghost use Rattle.serde_amqp_read.specs.Reads.{StrictBytes};

    ghost Value = { List ℕ };

    ghost view = { λ v. v.bytes.items };

    ghost invariant = { λ v. StrictBytes v.bytes.items };
}

impl RawValue {
    /// Null: the byte 40 (part 1, section 1.6.1). It is refused where there is no memory for it.
    #[tactic(auto, using(crate::proofs::Strict::stricts))]
    pub fn null(alloc: Global) -> Result<Self, AllocError>
        ensures { IfOk result (λ v. v ≡ 0x40 ∷ []) }
    {
        Ok(RawValue {
            bytes: Vec::from_slice(alloc, &[0x40])?,
        })
    }

    /// The value with these bytes, all of them.
    ///
    /// Errors: `Memory`; `InvalidLength` where bytes stand behind a strict form; any other where no strict form
    /// stands at the front: `Io` where the bytes end within it, `InvalidFormatCode`, `InvalidValue`,
    /// `InvalidUtf8Encoding` and `InvalidLength`.
    #[tactic(auto, using(crate::proofs::Strict::stricts))]
    pub fn from_bytes(alloc: Global, bytes: &[u8]) -> Result<Self, Error>
        ensures ok { IfOk result (λ v. v ≡ bytes.now) }
        ensures refused { Unless faultless result (StrictBytes bytes.now → ⊥) }
    {
        let form = SliceReader::new(bytes).forward_read_byte_buf(alloc)?;
        if form.len() != bytes.len() {
            return Err(Error::InvalidLength);
        }
        Ok(RawValue { bytes: form })
    }

    /// The value that is written of this one: its canonical text.
    ///
    /// Errors: `Memory`; any other exactly where the value has no canonical text that is one strict form.
    #[tactic(auto, using(crate::proofs::Strict::stricts))]
    pub fn of<T: Serialize>(alloc: Global, value: &T) -> Result<Self, Error>
        ensures ok { IfOk result (λ v. canon (T.item value.now) ≡ Some v) }
        ensures refused { Unless faultless result
            ((bytes : List ℕ) → canon (T.item value.now) ≡ Some bytes → StrictBytes bytes → ⊥) }
    {
        let text = to_vec(alloc, value)?;
        RawValue::from_bytes(alloc, text.as_slice())
    }

    /// The bytes.
    pub fn as_bytes(&self) -> &[u8]
        ensures value { result.now ≡ self.now }
        ensures strict { StrictBytes self.now }
    {
        self.bytes.as_slice()
    }

    /// The bytes as a `Vec`.
    pub fn into_bytes(self) -> Vec<u8>
        ensures { result.items ≡ self }
    {
        self.bytes
    }

    /// Whether it is null.
    pub fn is_null(&self) -> bool
        ensures { result ≡ bytes_eq self.now (0x40 ∷ []) }
    {
        self.bytes.as_slice() == [0x40].as_slice()
    }

    /// Reads the bytes, all of them, as a value of a type.
    ///
    /// Errors: `Memory`; any other exactly where the bytes are a wire form of no item that the type takes.
    pub fn read<T: Deserialize>(&self, alloc: Global) -> Result<T, Error>
        ensures ok { IfOk result (λ v. (x : Item) × Wire x None self.now
            × (T.take x ≡ Some (T.item v))) }
        ensures refused { Unless faultless result
            ((x : Item) → Wire x None self.now → T.take x ≡ None) }
    {
        from_slice(alloc, self.as_bytes())
    }

    /// A second copy of the value. It is refused where there is no memory for it.
    pub fn try_clone(&self, alloc: Global) -> Result<Self, AllocError>
        ensures { IfOk result (λ v. v ≡ self.now) }
    {
        Ok(RawValue {
            bytes: Vec::from_slice(alloc, self.bytes.as_slice())?,
        })
    }
}

impl Clone for RawValue {
    ghost is_clone = { λ x y. y ≡ x };

    fn clone(&self) -> Result<Self, AllocError> {
        Ok(RawValue {
            bytes: self.bytes.clone()?,
        })
    }
}

impl PartialEq for RawValue {
    ghost eq = { bytes_eq };

    ghost laws = { partial_equiv_from_equiv nat_list_eq_equiv };

    fn eq(&self, other: &Self) -> bool {
        self.as_bytes() == other.as_bytes()
    }
}

impl Eq for RawValue {
    ghost laws = { nat_list_eq_equiv };
}

impl fmt::Debug for RawValue {
    fn fmt<W: fmt::Write>(&self, f: &mut fmt::Formatter<W>) -> fmt::Result {
        f.debug_tuple("RawValue").field(&self.as_bytes()).finish()
    }
}

/// The bytes, as they are.
impl Serialize for RawValue {
    ghost item = { λ v. raw v };

    fn is_null(&self) -> bool {
        false
    }

    fn serialize<W: Sink>(&self, s: &mut Serializer<W>) -> Result<(), Error> {
        s.serialize_raw(self.as_bytes())
    }
}

/// The bytes of one value, whatever its type. No element of an array is read so, since it has no constructor.
impl Deserialize for RawValue {
    ghost item = { λ v. raw v };

    ghost take = { raw_taken };

    fn absent(_alloc: Global) -> Option<RawValue> {
        None
    }

    #[tactic(auto, using(serde_amqp_de::proofs::Values::taking))]
    fn read<R: Read>(alloc: Global, de: &mut Deserializer<R>) -> Result<RawValue, Error> {
        Ok(RawValue {
            bytes: de.deserialize_raw(alloc)?,
        })
    }

    ghost decided = { raw_decided };
}

impl RoundTrip for RawValue {
    ghost same = { λ _. refl };

    ghost again = { λ _. refl };
}

impl Faithful for RawValue {
    ghost faithful = { raw_faithful };
}

impl MapKey for RawValue {
    ghost equal = { λ _ _. refl };
}

/// The hash of the bytes.
impl Hash for RawValue {
    ghost hash_input = { fed.slice fed.u8 };

    ghost respects_eq = { λ x y h. ap (fed.slice fed.u8) (same_text x y (sym h)) };

    fn hash<H: Hasher>(&self, state: &mut H) {
        self.as_bytes().hash(state);
    }
}

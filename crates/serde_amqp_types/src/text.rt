//! Strings (part 1, 1.6.20).
ghost use Rattle.std.specs.Cmp.{partial_equiv_from_equiv};
ghost use Rattle.std.specs.Cmp.Lexicographic.{slice_cmp, nat_list_cmp_total, texts_ties, texts_po, same_text};
ghost use Rattle.std.specs.Hash as fed;
ghost use Rattle.std.specs.Ordering.{nat_cmp};
ghost use Rattle.std.specs.Prelude.{◌≡◌, IfOk, Some, string_bytes, refl};
ghost use Rattle.std.specs.Str.{IsUtf8, bytes_eq};
ghost use Rattle.std.proofs.Common.{ap, sym};
ghost use Rattle.std.proofs.lemmas.Cmp.{nat_list_eq_equiv};
ghost use Rattle.serde_amqp_item.specs.Item.{scalar, string};
ghost use Rattle.serde_amqp_de.specs.Takes.{string_taken};
ghost use Rattle.serde_amqp_de.specs.Deciding.{string_decided};
ghost use Rattle.serde_amqp_types.specs.Faithful.{string_faithful};

use serde_amqp_de::{Deserialize, Deserializer, MapKey, NeverNull, Read};
use serde_amqp_item::Error;
use serde_amqp_round_trip::{Faithful, RoundTrip};
use serde_amqp_ser::{Serialize, Serializer, Sink};
use std::alloc::{AllocError, Global};
use std::cmp::Ordering;
use std::fmt;
use std::hash::{Hash, Hasher};
use std::marker::Model;

/// A string of AMQP: Unicode text (part 1, 1.6.20). A clause sees its UTF-8 bytes.
#[derive(Drop)]
pub struct Text {
    text: String,
}

impl Model for Text {
    ghost use Rattle.std.specs.Prelude.{List, ℕ, string_bytes};
    ghost use Rattle.std.specs.Str.{IsUtf8};

    ghost Value = { List ℕ };

    ghost view = { λ t. string_bytes t.text };

    ghost invariant = { λ t. IsUtf8 (string_bytes t.text) };
}

impl Text {
    /// The string with this text.
    pub fn new(text: String) -> Self
        ensures { result ≡ string_bytes text }
    {
        // What a `String` holds is UTF-8.
        let _ = text.as_str();
        Text { text }
    }

    /// The string with this text, copied. It is refused where there is no memory for it.
    pub fn from_str(alloc: Global, text: &str) -> Result<Self, AllocError>
        ensures { IfOk result (λ t. t ≡ text.now) }
    {
        Ok(Text {
            text: String::from_str(alloc, text)?,
        })
    }

    /// The text.
    pub fn as_str(&self) -> &str
        ensures value { result.now ≡ self.now }
        ensures utf8 { IsUtf8 self.now }
    {
        self.text.as_str()
    }

    /// The text as a `String`.
    pub fn into_inner(self) -> String
        ensures { string_bytes result ≡ self }
    {
        self.text
    }

    /// A second string with the same text. It is refused where there is no memory for it.
    pub fn try_clone(&self, alloc: Global) -> Result<Self, AllocError>
        ensures { IfOk result (λ t. t ≡ self.now) }
    {
        Ok(Text {
            text: String::from_str(alloc, self.text.as_str())?,
        })
    }
}

impl Clone for Text {
    ghost is_clone = { λ x y. y ≡ x };

    fn clone(&self) -> Result<Self, AllocError> {
        Ok(Text {
            text: self.text.clone()?,
        })
    }
}

impl From<String> for Text {
    ghost from_gives = { λ s t. t ≡ string_bytes s };

    fn from(text: String) -> Self {
        Text::new(text)
    }
}

impl PartialEq for Text {
    ghost eq = { bytes_eq };

    ghost laws = { partial_equiv_from_equiv nat_list_eq_equiv };

    fn eq(&self, other: &Self) -> bool {
        self.text.as_str() == other.text.as_str()
    }
}

impl Eq for Text {
    ghost laws = { nat_list_eq_equiv };
}

impl PartialOrd for Text {
    ghost partial_cmp = { λ x y. Some (slice_cmp nat_cmp x y) };

    ghost laws = { texts_po };

    fn partial_cmp(&self, other: &Self) -> Option<Ordering> {
        Some(self.cmp(other))
    }
}

/// The order of the bytes.
impl Ord for Text {
    ghost cmp = { slice_cmp nat_cmp };

    ghost total = { nat_list_cmp_total };

    ghost matches_partial_cmp = { λ _ _. refl };

    ghost matches_eq = { texts_ties };

    fn cmp(&self, other: &Self) -> Ordering {
        self.text.as_str().cmp(other.text.as_str())
    }
}

/// The hash of the text.
impl Hash for Text {
    ghost hash_input = { fed.str };

    ghost respects_eq = { λ x y h. ap fed.str (same_text x y (sym h)) };

    fn hash<H: Hasher>(&self, state: &mut H) {
        self.text.as_str().hash(state);
    }
}

impl fmt::Display for Text {
    ghost output = { λ t. Some t };

    fn fmt<W: fmt::Write>(&self, f: &mut fmt::Formatter<W>) -> fmt::Result {
        let text = self.text.as_str();
        write!(f, "{text}")
    }
}

impl fmt::Debug for Text {
    fn fmt<W: fmt::Write>(&self, f: &mut fmt::Formatter<W>) -> fmt::Result {
        let text = self.text.as_str();
        write!(f, "{text:?}")
    }
}

impl Serialize for Text {
    ghost item = { λ t. scalar (string t) };

    fn is_null(&self) -> bool {
        false
    }

    fn serialize<W: Sink>(&self, s: &mut Serializer<W>) -> Result<(), Error> {
        s.serialize_str(self.as_str())
    }
}

impl Deserialize for Text {
    ghost item = { λ t. scalar (string t) };

    ghost take = { string_taken };

    fn absent(_alloc: Global) -> Option<Text> {
        None
    }

    #[tactic(auto, using(serde_amqp_de::proofs::Values::taking))]
    fn read<R: Read>(alloc: Global, de: &mut Deserializer<R>) -> Result<Text, Error> {
        Ok(Text::new(de.deserialize_string(alloc)?))
    }

    ghost decided = { string_decided };
}

impl RoundTrip for Text {
    ghost same = { λ _. refl };

    ghost again = { λ _. refl };
}

impl Faithful for Text {
    ghost faithful = { string_faithful };
}

impl NeverNull for Text {
    ghost present = { λ _. refl };
}

impl MapKey for Text {
    ghost equal = { λ _ _. refl };
}

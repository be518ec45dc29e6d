//! Symbols (part 1, 1.6.21).
ghost use Rattle.std.specs.Cmp.{partial_equiv_from_equiv};
ghost use Rattle.std.specs.Cmp.Lexicographic.{slice_cmp, nat_list_cmp_total, texts_ties, texts_po, same_text};
ghost use Rattle.std.specs.Hash as fed;
ghost use Rattle.std.specs.Ordering.{nat_cmp};
ghost use Rattle.std.specs.Prelude.{◌≡◌, IfOk, Some, string_bytes, refl};
ghost use Rattle.std.specs.Str.{IsUtf8, bytes_eq};
ghost use Rattle.std.proofs.Common.{ap, sym};
ghost use Rattle.std.proofs.lemmas.Cmp.{nat_list_eq_equiv};
ghost use Rattle.serde_amqp_item.specs.Item.{scalar, symbol};
ghost use Rattle.serde_amqp_de.specs.Takes.{symbol_taken};
ghost use Rattle.serde_amqp_de.specs.Deciding.{symbol_decided};
ghost use Rattle.serde_amqp_types.specs.Faithful.{symbol_faithful};

use serde_amqp_de::{Deserialize, Deserializer, MapKey, NeverNull, Read};
use serde_amqp_item::Error;
use serde_amqp_round_trip::{Faithful, RoundTrip};
use serde_amqp_ser::{Serialize, Serializer, Sink};
use std::alloc::{AllocError, Global};
use std::cmp::Ordering;
use std::fmt;
use std::hash::{Hash, Hasher};
use std::marker::Model;

/// A symbolic value from a constrained domain (part 1, 1.6.21). A clause sees its UTF-8 bytes.
#[derive(Drop)]
pub struct Symbol {
    text: String,
}

impl Model for Symbol {
    ghost use Rattle.std.specs.Prelude.{List, ℕ, string_bytes};
    ghost use Rattle.std.specs.Str.{IsUtf8};

    ghost Value = { List ℕ };

    ghost view = { λ t. string_bytes t.text };

    ghost invariant = { λ t. IsUtf8 (string_bytes t.text) };
}

impl Symbol {
    /// The symbol with this text.
    pub fn new(text: String) -> Self
        ensures { result ≡ string_bytes text }
    {
        // What a `String` holds is UTF-8.
        let _ = text.as_str();
        Symbol { text }
    }

    /// The symbol with this text, copied. It is refused where there is no memory for it.
    pub fn from_str(alloc: Global, text: &str) -> Result<Self, AllocError>
        ensures { IfOk result (λ t. t ≡ text.now) }
    {
        Ok(Symbol {
            text: String::from_str(alloc, text)?,
        })
    }

    /// The text.
    pub fn as_str(&self) -> &str
        ensures value { result.now ≡ self.now }
        ensures utf8 { IsUtf8 self.now }
    {
        self.text.as_str()
    }

    /// The text as a `String`.
    pub fn into_inner(self) -> String
        ensures { string_bytes result ≡ self }
    {
        self.text
    }

    /// A second symbol with the same text. It is refused where there is no memory for it.
    pub fn try_clone(&self, alloc: Global) -> Result<Self, AllocError>
        ensures { IfOk result (λ t. t ≡ self.now) }
    {
        Ok(Symbol {
            text: String::from_str(alloc, self.text.as_str())?,
        })
    }
}

impl Clone for Symbol {
    ghost is_clone = { λ x y. y ≡ x };

    fn clone(&self) -> Result<Self, AllocError> {
        Ok(Symbol {
            text: self.text.clone()?,
        })
    }
}

impl From<String> for Symbol {
    ghost from_gives = { λ s t. t ≡ string_bytes s };

    fn from(text: String) -> Self {
        Symbol::new(text)
    }
}

impl PartialEq for Symbol {
    ghost eq = { bytes_eq };

    ghost laws = { partial_equiv_from_equiv nat_list_eq_equiv };

    fn eq(&self, other: &Self) -> bool {
        self.text.as_str() == other.text.as_str()
    }
}

impl Eq for Symbol {
    ghost laws = { nat_list_eq_equiv };
}

impl PartialOrd for Symbol {
    ghost partial_cmp = { λ x y. Some (slice_cmp nat_cmp x y) };

    ghost laws = { texts_po };

    fn partial_cmp(&self, other: &Self) -> Option<Ordering> {
        Some(self.cmp(other))
    }
}

/// The order of the bytes.
impl Ord for Symbol {
    ghost cmp = { slice_cmp nat_cmp };

    ghost total = { nat_list_cmp_total };

    ghost matches_partial_cmp = { λ _ _. refl };

    ghost matches_eq = { texts_ties };

    fn cmp(&self, other: &Self) -> Ordering {
        self.text.as_str().cmp(other.text.as_str())
    }
}

/// The hash of the text.
impl Hash for Symbol {
    ghost hash_input = { fed.str };

    ghost respects_eq = { λ x y h. ap fed.str (same_text x y (sym h)) };

    fn hash<H: Hasher>(&self, state: &mut H) {
        self.text.as_str().hash(state);
    }
}

impl fmt::Display for Symbol {
    ghost output = { λ t. Some t };

    fn fmt<W: fmt::Write>(&self, f: &mut fmt::Formatter<W>) -> fmt::Result {
        let text = self.text.as_str();
        write!(f, "{text}")
    }
}

impl fmt::Debug for Symbol {
    fn fmt<W: fmt::Write>(&self, f: &mut fmt::Formatter<W>) -> fmt::Result {
        let text = self.text.as_str();
        write!(f, "{text:?}")
    }
}

impl Serialize for Symbol {
    ghost item = { λ t. scalar (symbol t) };

    fn is_null(&self) -> bool {
        false
    }

    fn serialize<W: Sink>(&self, s: &mut Serializer<W>) -> Result<(), Error> {
        s.symbol(self.as_str())
    }
}

impl Deserialize for Symbol {
    ghost item = { λ t. scalar (symbol t) };

    ghost take = { symbol_taken };

    fn absent(_alloc: Global) -> Option<Symbol> {
        None
    }

    #[tactic(auto, using(serde_amqp_de::proofs::Values::taking))]
    fn read<R: Read>(alloc: Global, de: &mut Deserializer<R>) -> Result<Symbol, Error> {
        Ok(Symbol::new(de.deserialize_symbol(alloc)?))
    }

    ghost decided = { symbol_decided };
}

impl RoundTrip for Symbol {
    ghost same = { λ _. refl };

    ghost again = { λ _. refl };
}

impl Faithful for Symbol {
    ghost faithful = { symbol_faithful };
}

impl NeverNull for Symbol {
    ghost present = { λ _. refl };
}

impl MapKey for Symbol {
    ghost equal = { λ _ _. refl };
}

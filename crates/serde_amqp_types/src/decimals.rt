//! Decimal floating point numbers (part 1, 1.6.13 to 1.6.15).
ghost use Rattle.std.specs.Prelude.{◌≡◌, ◌≢◌, length, MatchResult, Some, refl};
ghost use Rattle.serde_amqp_item.specs.Item.{scalar, decimal32, decimal64, decimal128};
ghost use Rattle.serde_amqp_item.specs.declared.error.Error.TheVariants.{InvalidLength};
ghost use Rattle.serde_amqp_de.specs.Takes.{decimal32_taken, decimal64_taken, decimal128_taken};
ghost use Rattle.serde_amqp_de.specs.Deciding.{decimal32_decided, decimal64_decided, decimal128_decided};
ghost use Rattle.serde_amqp_types.specs.Faithful.{decimal32_faithful, decimal64_faithful, decimal128_faithful};

use serde_amqp_de::{Deserialize, Deserializer, NeverNull, Read};
use serde_amqp_item::Error;
use serde_amqp_round_trip::{Faithful, RoundTrip};
use serde_amqp_ser::{Serialize, Serializer, Sink};
use std::alloc::Global;
use std::marker::Model;

/// A decimal floating point number, as the `N` bytes of its IEEE 754 encoding. Two are equal where their
/// bytes are. A clause sees the bytes.
#[derive(Debug, Clone, Copy, PartialEq, Eq)]
pub struct Decimal<const N: usize>([u8; N]);

/// A decimal floating point number of 32 bits (part 1, 1.6.13).
pub type Dec32 = Decimal<4>;

/// A decimal floating point number of 64 bits (part 1, 1.6.14).
pub type Dec64 = Decimal<8>;

/// A decimal floating point number of 128 bits (part 1, 1.6.15).
pub type Dec128 = Decimal<16>;

impl<const N: usize> Model for Decimal<N> {
    ghost use Rattle.std.specs.Prelude.{List, ℕ};

    ghost Value = { List ℕ };

    ghost view = { λ d. d.0 };

    ghost inverse = { λ bs. record { 0 = bs } };
}

impl<const N: usize> Decimal<N> {
    /// The bytes.
    pub fn into_inner(self) -> [u8; N]
        ensures { result ≡ self.entry }
    {
        self.0
    }

    /// The bytes.
    pub fn as_inner(&self) -> &[u8; N]
        ensures { result.now ≡ self.now }
    {
        &self.0
    }
}

impl<const N: usize> From<[u8; N]> for Decimal<N> {
    ghost from_gives = { λ bs d. d ≡ bs };

    fn from(bytes: [u8; N]) -> Self {
        Decimal(bytes)
    }
}

impl<const N: usize> From<Decimal<N>> for [u8; N] {
    ghost from_gives = { λ d bs. bs ≡ d };

    fn from(value: Decimal<N>) -> Self {
        value.into_inner()
    }
}

/// The number with these bytes. Answers `InvalidLength` for any number of bytes but `N`.
impl<const N: usize> TryFrom<&[u8]> for Decimal<N> {
    type Error = Error;

    ghost try_from_gives = { λ bs r. MatchResult r (λ d. (d ≡ bs.now) × (length bs.now ≡ N)) (λ e. (e ≡ InvalidLength) × (length bs.now ≢ N)) };

    fn try_from(bytes: &[u8]) -> Result<Self, Error> {
        match <[u8; N]>::try_from(bytes) {
            Ok(bytes) => Ok(Decimal(bytes)),
            Err(_) => Err(Error::InvalidLength),
        }
    }
}

impl Serialize for Dec32 {
    ghost item = { λ d. scalar (decimal32 d) };

    fn is_null(&self) -> bool {
        false
    }

    fn serialize<W: Sink>(&self, s: &mut Serializer<W>) -> Result<(), Error> {
        s.serialize_decimal32(self.as_inner())
    }
}

impl Serialize for Dec64 {
    ghost item = { λ d. scalar (decimal64 d) };

    fn is_null(&self) -> bool {
        false
    }

    fn serialize<W: Sink>(&self, s: &mut Serializer<W>) -> Result<(), Error> {
        s.serialize_decimal64(self.as_inner())
    }
}

impl Serialize for Dec128 {
    ghost item = { λ d. scalar (decimal128 d) };

    fn is_null(&self) -> bool {
        false
    }

    fn serialize<W: Sink>(&self, s: &mut Serializer<W>) -> Result<(), Error> {
        s.serialize_decimal128(self.as_inner())
    }
}

impl Deserialize for Dec32 {
    ghost item = { λ d. scalar (decimal32 d) };

    ghost take = { decimal32_taken };

    fn absent(_alloc: Global) -> Option<Dec32> {
        None
    }

    #[tactic(auto, using(serde_amqp_de::proofs::Values::taking))]
    fn read<R: Read>(_alloc: Global, de: &mut Deserializer<R>) -> Result<Dec32, Error> {
        Ok(Decimal::from(de.deserialize_decimal32()?))
    }

    ghost decided = { decimal32_decided };
}

impl RoundTrip for Dec32 {
    ghost same = { λ _. refl };

    ghost again = { λ _. refl };
}

impl Faithful for Dec32 {
    ghost faithful = { decimal32_faithful };
}

impl NeverNull for Dec32 {
    ghost present = { λ _. refl };
}

impl Deserialize for Dec64 {
    ghost item = { λ d. scalar (decimal64 d) };

    ghost take = { decimal64_taken };

    fn absent(_alloc: Global) -> Option<Dec64> {
        None
    }

    #[tactic(auto, using(serde_amqp_de::proofs::Values::taking))]
    fn read<R: Read>(_alloc: Global, de: &mut Deserializer<R>) -> Result<Dec64, Error> {
        Ok(Decimal::from(de.deserialize_decimal64()?))
    }

    ghost decided = { decimal64_decided };
}

impl RoundTrip for Dec64 {
    ghost same = { λ _. refl };

    ghost again = { λ _. refl };
}

impl Faithful for Dec64 {
    ghost faithful = { decimal64_faithful };
}

impl NeverNull for Dec64 {
    ghost present = { λ _. refl };
}

impl Deserialize for Dec128 {
    ghost item = { λ d. scalar (decimal128 d) };

    ghost take = { decimal128_taken };

    fn absent(_alloc: Global) -> Option<Dec128> {
        None
    }

    #[tactic(auto, using(serde_amqp_de::proofs::Values::taking))]
    fn read<R: Read>(_alloc: Global, de: &mut Deserializer<R>) -> Result<Dec128, Error> {
        Ok(Decimal::from(de.deserialize_decimal128()?))
    }

    ghost decided = { decimal128_decided };
}

impl RoundTrip for Dec128 {
    ghost same = { λ _. refl };

    ghost again = { λ _. refl };
}

impl Faithful for Dec128 {
    ghost faithful = { decimal128_faithful };
}

impl NeverNull for Dec128 {
    ghost present = { λ _. refl };
}

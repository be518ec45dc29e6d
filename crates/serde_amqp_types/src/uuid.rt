//! Universally unique identifiers (part 1, 1.6.18).
ghost use Rattle.std.specs.Prelude.{◌≡◌, ◌≢◌, ⊤, length, MatchResult, Some, refl};
ghost use Rattle.serde_amqp_item.specs.Item.{scalar, uuid};
ghost use Rattle.serde_amqp_item.specs.declared.error.Error.TheVariants.{InvalidLength};
ghost use Rattle.serde_amqp_de.specs.Takes.{uuid_taken};
ghost use Rattle.serde_amqp_de.specs.Deciding.{uuid_decided};
ghost use Rattle.serde_amqp_types.specs.Faithful.{uuid_faithful};

use serde_amqp_de::{Deserialize, Deserializer, NeverNull, Read};
use serde_amqp_item::Error;
use serde_amqp_round_trip::{Faithful, RoundTrip};
use serde_amqp_ser::{Serialize, Serializer, Sink};
use std::alloc::{AllocError, Global};
use std::marker::Model;

/// A universally unique identifier, as its 16 bytes (part 1, 1.6.18). A clause sees the bytes.
#[derive(Debug, Drop, PartialEq, Eq, PartialOrd, Ord, Hash)]
pub struct Uuid([u8; 16]);

impl Model for Uuid {
    ghost use Rattle.std.specs.Prelude.{List, ℕ};

    ghost Value = { List ℕ };

    ghost view = { λ u. u.0 };

    ghost inverse = { λ bs. record { 0 = bs } };
}

impl Uuid {
    ghost use Rattle.std.specs.Borrow.{sem, Lends, Array, u8};
    ghost use Rattle.serde_amqp_types.specs.contracts.uuid.Uuid.{the_row};

    /// The bytes.
    pub fn into_inner(self) -> [u8; 16]
        ensures { result ≡ self }
    {
        self.0
    }

    /// The bytes.
    pub fn as_inner(&self) -> &[u8; 16]
        ensures { result.now ≡ self.now }
    {
        &self.0
    }

    /// The bytes, to be changed. What is written to them are then the uuid's bytes.
    pub fn as_inner_mut(&mut self) -> &mut [u8; 16]
        ensures* writes_back { sem 𝓛 (Lends the_row (Array u8 16) self.entry result (λ bs. bs)) }
        ensures value { result.now ≡ self.old }
    {
        &mut self.0
    }
}

impl Clone for Uuid {
    ghost is_clone = { λ x y. y ≡ x };

    ghost is_infallible = { λ _. ⊤ };

    fn clone(&self) -> Result<Self, AllocError> {
        Ok(Uuid(self.0))
    }
}

impl From<[u8; 16]> for Uuid {
    ghost from_gives = { λ bs u. u ≡ bs };

    fn from(bytes: [u8; 16]) -> Self {
        Uuid(bytes)
    }
}

impl From<Uuid> for [u8; 16] {
    ghost from_gives = { λ u bs. bs ≡ u };

    fn from(value: Uuid) -> Self {
        value.into_inner()
    }
}

/// The uuid with these bytes. Answers `InvalidLength` for any number of bytes but 16.
impl TryFrom<&[u8]> for Uuid {
    type Error = Error;

    ghost try_from_gives = { λ bs r. MatchResult r (λ u. (u ≡ bs.now) × (length bs.now ≡ 16)) (λ e. (e ≡ InvalidLength) × (length bs.now ≢ 16)) };

    fn try_from(bytes: &[u8]) -> Result<Self, Error> {
        match <[u8; 16]>::try_from(bytes) {
            Ok(bytes) => Ok(Uuid(bytes)),
            Err(_) => Err(Error::InvalidLength),
        }
    }
}

impl Serialize for Uuid {
    ghost item = { λ u. scalar (uuid u) };

    fn is_null(&self) -> bool {
        false
    }

    fn serialize<W: Sink>(&self, s: &mut Serializer<W>) -> Result<(), Error> {
        s.serialize_uuid(self.as_inner())
    }
}

impl Deserialize for Uuid {
    ghost item = { λ u. scalar (uuid u) };

    ghost take = { uuid_taken };

    fn absent(_alloc: Global) -> Option<Uuid> {
        None
    }

    #[tactic(auto, using(serde_amqp_de::proofs::Values::taking))]
    fn read<R: Read>(_alloc: Global, de: &mut Deserializer<R>) -> Result<Uuid, Error> {
        Ok(Uuid::from(de.deserialize_uuid()?))
    }

    ghost decided = { uuid_decided };
}

impl RoundTrip for Uuid {
    ghost same = { λ _. refl };

    ghost again = { λ _. refl };
}

impl Faithful for Uuid {
    ghost faithful = { uuid_faithful };
}

impl NeverNull for Uuid {
    ghost present = { λ _. refl };
}

//! Points in time (part 1, 1.6.17).
ghost use Rattle.std.specs.Prelude.{◌≡◌, Some, refl};
ghost use Rattle.serde_amqp_item.specs.Item.{scalar, timestamp};
ghost use Rattle.serde_amqp_de.specs.Takes.{timestamp_taken};
ghost use Rattle.serde_amqp_de.specs.Deciding.{timestamp_decided};
ghost use Rattle.serde_amqp_types.specs.Faithful.{timestamp_faithful};

use serde_amqp_de::{Deserialize, Deserializer, NeverNull, Read};
use serde_amqp_item::Error;
use serde_amqp_round_trip::{Faithful, RoundTrip};
use serde_amqp_ser::{Serialize, Serializer, Sink};
use std::alloc::Global;
use std::marker::Model;

/// A point in time, in milliseconds since the Unix epoch, 1970-01-01 00:00 UTC (part 1, 1.6.17). One before
/// it is negative. A clause sees the number.
#[derive(Debug, Clone, Copy, PartialEq, Eq, PartialOrd, Ord, Hash)]
pub struct Timestamp(i64);

impl Model for Timestamp {
    ghost use Rattle.std.specs.Prelude.{ℤ};

    ghost Value = { ℤ };

    ghost view = { λ t. t.0 };

    ghost inverse = { λ z. record { 0 = z } };
}

impl Timestamp {
    /// The time so many milliseconds after the Unix epoch.
    pub fn from_milliseconds(milliseconds: i64) -> Self
        ensures { result ≡ milliseconds }
    {
        Timestamp(milliseconds)
    }

    /// How many milliseconds it is after the Unix epoch.
    pub fn milliseconds(&self) -> i64
        ensures { result ≡ self.now }
    {
        self.0
    }

    /// How many milliseconds it is after the Unix epoch.
    pub fn into_inner(self) -> i64
        ensures { result ≡ self }
    {
        self.0
    }
}

impl From<i64> for Timestamp {
    ghost from_gives = { λ z t. t ≡ z };

    fn from(milliseconds: i64) -> Self {
        Timestamp(milliseconds)
    }
}

impl From<Timestamp> for i64 {
    ghost from_gives = { λ t z. z ≡ t };

    fn from(value: Timestamp) -> Self {
        value.into_inner()
    }
}

impl Serialize for Timestamp {
    ghost item = { λ t. scalar (timestamp t) };

    fn is_null(&self) -> bool {
        false
    }

    fn serialize<W: Sink>(&self, s: &mut Serializer<W>) -> Result<(), Error> {
        s.serialize_timestamp(self.milliseconds())
    }
}

impl Deserialize for Timestamp {
    ghost item = { λ t. scalar (timestamp t) };

    ghost take = { timestamp_taken };

    fn absent(_alloc: Global) -> Option<Timestamp> {
        None
    }

    #[tactic(auto, using(serde_amqp_de::proofs::Values::taking))]
    fn read<R: Read>(_alloc: Global, de: &mut Deserializer<R>) -> Result<Timestamp, Error> {
        Ok(Timestamp::from(de.deserialize_timestamp()?))
    }

    ghost decided = { timestamp_decided };
}

impl RoundTrip for Timestamp {
    ghost same = { λ _. refl };

    ghost again = { λ _. refl };
}

impl Faithful for Timestamp {
    ghost faithful = { timestamp_faithful };
}

impl NeverNull for Timestamp {
    ghost present = { λ _. refl };
}

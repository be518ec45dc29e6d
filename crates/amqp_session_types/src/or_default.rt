//! Fields whose type has a default (part 1, 1.4).
ghost use Rattle.std.specs.Prelude.{◌≡◌, Bool, true, Option, refl};
ghost use Rattle.std.proofs.Common.{ap};
ghost use Rattle.serde_amqp_item.specs.Item.{Item};
ghost use Rattle.serde_amqp_de.specs.Takes.{option_taken, mapped, or_null};
ghost use Rattle.serde_amqp_de.specs.Deciding.{option_decided, mapped_decided};
ghost use Rattle.serde_amqp_de.specs.Again.{default_again, default_faithful};

use serde_amqp_de::{Deserialize, Deserializer, NeverNull, Read};
use serde_amqp_item::Error;
use serde_amqp_round_trip::{Faithful, RoundTrip};
use serde_amqp_ser::{Serialize, Serializer, Sink};
use std::alloc::Global;

/// A type of which a field that is absent has a value.
pub trait HasDefault: RoundTrip + NeverNull {
    /// Whether it is the default's item.
    ghost is_default_item: { Item → Bool };

    /// The default.
    fn default_value() -> Self
        ensures { is_default_item (Self.Deserialize.item result) ≡ true };

    /// Whether it is the default.
    fn is_default(&self) -> bool
        ensures { result ≡ is_default_item (Self.Deserialize.item self.now) };

    /// There is one default.
    ghost one_default: { (x y : Self) → is_default_item (Self.Deserialize.item x) ≡ true → is_default_item (Self.Deserialize.item y) ≡ true → Self.Deserialize.item x ≡ Self.Deserialize.item y };
}

/// A field of a type that has a default: it is written as null where it is the default, and null is read as the
/// default.
#[derive(Debug, Clone, Copy, PartialEq, Eq)]
pub struct OrDefault<T>(pub T);

impl<T: HasDefault> Serialize for OrDefault<T> {
    ghost item = { λ x. or_null T.is_default_item (T.Deserialize.item x.0) };

    fn is_null(&self) -> bool {
        self.0.is_default()
    }

    fn serialize<W: Sink>(&self, s: &mut Serializer<W>) -> Result<(), Error> {
        if self.0.is_default() {
            return s.serialize_unit();
        }
        self.0.serialize(s)
    }
}

impl<T: HasDefault + Drop> Deserialize for OrDefault<T> {
    ghost item = { λ x. or_null T.is_default_item (T.Deserialize.item x.0) };

    ghost take = { mapped (or_null T.is_default_item) (option_taken T.take) };

    #[tactic(auto, using(crate::proofs::Defaults::defaults))]
    fn absent(_alloc: Global) -> Option<OrDefault<T>> {
        Some(OrDefault(T::default_value()))
    }

    #[tactic(auto, using(crate::proofs::Defaults::defaults))]
    fn read<R: Read>(alloc: Global, de: &mut Deserializer<R>) -> Result<OrDefault<T>, Error> {
        match Option::<T>::read(alloc, de)? {
            None => Ok(OrDefault(T::default_value())),
            Some(value) => Ok(OrDefault(value)),
        }
    }

    ghost decided = { mapped_decided (or_null T.is_default_item) (option_taken T.take) (option_decided T.take T.decided) };
}

impl<T: HasDefault + Drop> RoundTrip for OrDefault<T> {
    ghost same = { λ _. refl };

    ghost again = { λ x. default_again T.is_default_item T.take (T.Deserialize.item x.0) (T.again x.0) (T.present x.0) };
}

impl<T: HasDefault + Faithful + Drop> Faithful for OrDefault<T> {
    ghost faithful = { λ x y e. ap (λ (v : T). record { 0 = v }) (T.faithful x.0 y.0 (default_faithful T.is_default_item (T.Deserialize.item x.0) (T.Deserialize.item y.0) (T.one_default x.0 y.0) (T.present x.0) (T.present y.0) e)) };
}

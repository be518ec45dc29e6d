//! Values that are read back as they were written.
ghost use Rattle.std.specs.Prelude.{◌≡◌, Some, refl};
ghost use Rattle.serde_amqp_de.specs.Again.{option_same_item, option_again, option_faithful, boolean_faithful};

use serde_amqp_de::{Deserialize, NeverNull};
use serde_amqp_ser::Serialize;

/// A value that is written is read back as the same item.
pub trait RoundTrip: Serialize + Deserialize {
    /// What is written is the item that the value is.
    ghost same: { (x : Self) → Self.Serialize.item x ≡ Self.Deserialize.item x };

    /// The item of a value is taken as it is.
    ghost again: { (x : Self) → Self.take (Self.Deserialize.item x) ≡ Some (Self.Deserialize.item x) };
}

/// No two values have the same item, so that a value that is written is read back equal.
pub trait Faithful: RoundTrip {
    ghost faithful: { (x y : Self) → Self.Deserialize.item x ≡ Self.Deserialize.item y → x ≡ y };
}

impl RoundTrip for () {
    ghost same = { λ _. refl };

    ghost again = { λ _. refl };
}

impl Faithful for () {
    ghost faithful = { λ _ _ _. refl };
}

impl RoundTrip for bool {
    ghost same = { λ _. refl };

    ghost again = { λ _. refl };
}

impl Faithful for bool {
    ghost faithful = { boolean_faithful };
}

impl RoundTrip for String {
    ghost same = { λ _. refl };

    ghost again = { λ _. refl };
}

impl<T: RoundTrip + NeverNull> RoundTrip for Option<T> {
    ghost same = { option_same_item T.Serialize.item T.Deserialize.item T.same };

    ghost again = { option_again T.take T.Deserialize.item T.again T.present };
}

impl<T: Faithful + NeverNull> Faithful for Option<T> {
    ghost faithful = { option_faithful T.Deserialize.item T.faithful T.present };
}

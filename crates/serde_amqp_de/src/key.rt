//! What a map's keys are.
ghost use Rattle.std.specs.Prelude.{◌≡◌, refl};
ghost use Rattle.serde_amqp_de.specs.Same.{item_same};

use crate::deserialize::Deserialize;
use std::hash::Hash;

/// A type whose values can be the keys of a map that is read and keeps the order of its pairs: two are equal exactly
/// where their items are the same.
pub trait MapKey: Deserialize + Eq + Hash {
    /// Two values are equal as their items are the same.
    ghost equal: { (x y : Self) → Self.eq x y ≡ item_same (Self.item x) (Self.item y) };
}

impl MapKey for u8 {
    ghost equal = { λ _ _. refl };
}

impl MapKey for u16 {
    ghost equal = { λ _ _. refl };
}

impl MapKey for u32 {
    ghost equal = { λ _ _. refl };
}

impl MapKey for u64 {
    ghost equal = { λ _ _. refl };
}

impl MapKey for i8 {
    ghost equal = { λ _ _. refl };
}

impl MapKey for i16 {
    ghost equal = { λ _ _. refl };
}

impl MapKey for i32 {
    ghost equal = { λ _ _. refl };
}

impl MapKey for i64 {
    ghost equal = { λ _ _. refl };
}

impl MapKey for char {
    ghost equal = { λ _ _. refl };
}

impl MapKey for String {
    ghost equal = { λ _ _. refl };
}

//! Laws of reading. The functions do nothing: their contracts are the laws.
ghost use Rattle.std.specs.Prelude.{◌≡◌, ℕ, List, ◌++◌, Option, Some};
ghost use Rattle.serde_amqp_item.specs.Item.{Item};
ghost use Rattle.serde_amqp_item.specs.Wire.{Wire};

use crate::deserialize::Deserialize;

/// Bytes give a type one value, whichever of the items that a front of them is a form of is taken.
pub fn one_value<T: Deserialize>()
    ensures { (x y : Item) (k : Option ℕ) (a b s t : List ℕ) (u v : Item) → Wire x k a →
        Wire y k b → a ++ s ≡ b ++ t → T.take x ≡ Some u → T.take y ≡ Some v → u ≡ v }
{}

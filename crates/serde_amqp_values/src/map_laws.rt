//! Laws of items that are keys.
// Laws of maps. The functions do nothing: their contracts are the laws.
ghost use Rattle.std.specs.Prelude.{◌≡◌, ◌<◌, ℕ, List, Option, Some, slice_get, false};
ghost use Rattle.std.specs.Bool.{Decides};
ghost use Rattle.std.specs.List.{AllZip};
ghost use Rattle.serde_amqp_item.specs.Item.{Item};
ghost use Rattle.serde_amqp_item.specs.Wire.{Wire};
ghost use Rattle.serde_amqp_values.specs.Items.{no_map};
ghost use Rattle.serde_amqp_values.specs.Pairs.{KeysApart};
ghost use Rattle.serde_amqp_de.specs.Same.{item_same};

use std::hash::Hash;

/// Items are the same exactly where they are equal.
pub fn same_items_are_equal()
    ensures { (x y : Item) → Decides (item_same x y) (x ≡ y) }
{}

/// Pairs in which a key stands twice have no wire form.
pub fn no_map_has_no_form()
    ensures { (x : Item) (k : Option ℕ) (bytes : List ℕ) → Wire (no_map x) k bytes → ⊥ }
{}

/// Where no key stands twice, two places have pairs with different keys, so that each pair comes once.
pub fn each_pair_once<K: Eq + Hash, V>()
    ensures { (ps : List (K × V)) (i j : ℕ) (p q : K × V) → KeysApart K.eq ps → i < j →
        slice_get ps i ≡ Some p → slice_get ps j ≡ Some q → K.eq p.0 q.0 ≡ false }
{}

/// A map's clone equals it, where keys and values equal their clones.
pub fn clone_is_equal<K: Clone, V: Clone>()
    ensures { ((x y : K) → K.is_clone x y → y ≡ x) → ((x y : V) → V.is_clone x y → y ≡ x) →
        (ps qs : List (K × V)) → AllZip (λ p q. K.is_clone p.0 q.0 × V.is_clone p.1 q.1) ps qs →
        qs ≡ ps }
{}

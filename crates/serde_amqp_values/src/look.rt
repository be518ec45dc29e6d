//! What a key leads to.
ghost use Rattle.std.specs.Prelude.{◌≡◌, is_some};
ghost use Rattle.std.specs.Borrow.{sem};
ghost use Rattle.std.specs.Map.{lookup};
ghost use Rattle.std.specs.Option.{option_copied, option_copied_mut};
ghost use Rattle.serde_amqp_values.specs.Lends.{lends_value};

use super::map::OrderedMap;
use std::hash::Hash;

impl<K: Eq + Hash, V> OrderedMap<K, V> {
    /// Whether a pair has the key.
    pub fn contains_key(&self, key: &K) -> bool
        ensures { result ≡ is_some (lookup (K.eq key.now) self.now) }
    {
        self.as_inner().contains_key(key)
    }

    /// The value of the key; none where no pair has it.
    pub fn get(&self, key: &K) -> Option<&V>
        ensures { option_copied result ≡ lookup (K.eq key.now) self.now }
    {
        self.as_inner().get(key)
    }

    /// The value of the key, which can be changed; none where no pair has it.
    pub fn get_mut(&mut self, key: &K) -> Option<&mut V>
        ensures* writes_back { sem 𝓛 (lends_value K.row V.row K.Hash self.entry (K.eq key.now)
            result) }
        ensures value { option_copied_mut result ≡ lookup (K.eq key.now) self.old }
    {
        self.as_inner_mut().get_mut(key)
    }
}

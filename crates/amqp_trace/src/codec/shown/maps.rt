//! The text of maps.
use crate::codec::runs::{Runs, bracketed};
use crate::codec::shown::Shown;
use serde_amqp::OrderedMap;
use std::alloc::{AllocError, Global};
use std::collections::BTreeMap;
use std::hash::Hash;

fn pair_text<K: Shown, V: Shown>(alloc: Global, key: &K, value: &V) -> Result<String, AllocError> {
    let key = key.text(alloc)?;
    let value = value.text(alloc)?;
    format!(in alloc; "{key}: {value}")
}

impl<K: Shown + Eq + Hash, V: Shown> Shown for OrderedMap<K, V> {
    fn text(&self, alloc: Global) -> Result<String, AllocError> {
        let mut parts = Runs::new(alloc);
        for (key, value) in self.iter() {
            parts.push(pair_text(alloc, key, value)?)?;
        }
        bracketed(alloc, '{', parts, '}')
    }
}

impl<K: Shown + Ord, V: Shown> Shown for BTreeMap<K, V> {
    fn text(&self, alloc: Global) -> Result<String, AllocError> {
        let mut parts = Runs::new(alloc);
        for (key, value) in self.iter() {
            parts.push(pair_text(alloc, key, value)?)?;
        }
        bracketed(alloc, '{', parts, '}')
    }
}

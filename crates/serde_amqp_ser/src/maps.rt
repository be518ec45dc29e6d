//! Maps.
ghost use Rattle.std.specs.Prelude.{◌≡◌, Some, OnOk};
ghost use Rattle.serde_amqp_item.specs.Entries.{sorted_item};
ghost use Rattle.serde_amqp_ser.specs.Written.{Keeps};
ghost use Rattle.serde_amqp_ser.specs.Puts.{serialized, OnlyWhere, WantsMemory, state_of};

use crate::serialize::Serialize;
use crate::serializer::Serializer;
use crate::sink::Sink;
use serde_amqp_item::Error;
use std::collections::BTreeMap;

/// A map of the pairs, in the order of the keys.
impl<K: Serialize + Ord, V: Serialize> Serialize for BTreeMap<K, V> {
    ghost item = { λ m. sorted_item K.cmp K.item V.item m.entries };

    fn is_null(&self) -> bool {
        false
    }

    #[tactic(auto, using(crate::proofs::Grown::growing))]
    fn serialize<W: Sink>(&self, s: &mut Serializer<W>) -> Result<(), Error> {
        let mark = s.mark();
        match put_map(self, s) {
            Ok(()) => Ok(()),
            Err(error) => Err(s.take_back(mark, error)),
        }
    }
}

/// Writes a map of the pairs. After an error the beginning of it may stand there.
#[tactic(auto, using(crate::proofs::Grown::growing))]
fn put_map<K: Serialize + Ord, V: Serialize, W: Sink>(
    pairs: &BTreeMap<K, V>,
    s: &mut Serializer<W>,
) -> Result<(), Error>
    ensures ok { OnOk result (serialized (state_of W.written s.old)
        (sorted_item K.cmp K.item V.item pairs.now.entries)
        ≡ Some (state_of W.written s.new)) }
    ensures kept { Keeps (W.written s.old.writer) (W.written s.new.writer) }
    ensures refused { OnlyWhere result (serialized (state_of W.written s.old)
        (sorted_item K.cmp K.item V.item pairs.now.entries)) }
    ensures memory { WantsMemory W.takes_memory result }
{
    let opened = s.begin_compound();
    for (key, value) in pairs.iter() {
        s.put_pair(key, value)?;
    }
    s.put_map_head(opened, pairs.len())
}

//! Maps in AMQP's encoding (part 1, section 1.6.23).
ghost use Rattle.std.specs.Prelude.{◌≡◌, Some, OnOk};
ghost use Rattle.serde_amqp_ser.specs.Written.{Keeps};
ghost use Rattle.serde_amqp_ser.specs.Puts.{serialized, OnlyWhere, WantsMemory, state_of};
ghost use Rattle.serde_amqp_values.specs.MapAgain.{ordered_same, ordered_again, ordered_faithful, ordered_present};
ghost use Rattle.serde_amqp_values.specs.MapDeciding.{ordered_decided};
ghost use Rattle.serde_amqp_values.specs.Items.{ordered_item};
ghost use Rattle.serde_amqp_values.specs.MapTakes.{ordered_taken};

use super::map::OrderedMap;
use serde_amqp_de::{Deserialize, Deserializer, MapKey, NeverNull, read_map};
use serde_amqp_item::Error;
use serde_amqp_read::Read;
use serde_amqp_round_trip::{Faithful, RoundTrip};
use serde_amqp_ser::{Serialize, Serializer, Sink};
use std::alloc::Global;
use std::hash::Hash;

/// A map of the pairs, in their order.
impl<K: Serialize + Eq + Hash, V: Serialize> Serialize for OrderedMap<K, V> {
    ghost item = { ordered_item K.eq K.item V.item };

    #[tactic(auto, using(crate::proofs::Ordered::ordered_not_null))]
    fn is_null(&self) -> bool {
        false
    }

    #[tactic(auto, using(serde_amqp_ser::proofs::Grown::growing))]
    fn serialize<W: Sink>(&self, s: &mut Serializer<W>) -> Result<(), Error> {
        let mark = s.mark();
        match put_map(self, s) {
            Ok(()) => Ok(()),
            Err(error) => Err(s.take_back(mark, error)),
        }
    }
}

/// Writes a map of the pairs. After an error the beginning of it may stand there.
#[tactic(auto, using(serde_amqp_ser::proofs::Grown::growing))]
fn put_map<K: Serialize + Eq + Hash, V: Serialize, W: Sink>(
    pairs: &OrderedMap<K, V>,
    s: &mut Serializer<W>,
) -> Result<(), Error>
    ensures ok { OnOk result (serialized (state_of W.written s.old)
        (ordered_item K.eq K.item V.item pairs.now)
        ≡ Some (state_of W.written s.new)) }
    ensures kept { Keeps (W.written s.old.writer) (W.written s.new.writer) }
    ensures refused { OnlyWhere result (serialized (state_of W.written s.old)
        (ordered_item K.eq K.item V.item pairs.now)) }
    ensures memory { WantsMemory W.takes_memory result }
{
    let count = pairs.len();
    let opened = s.begin_compound();
    for (key, value) in pairs {
        s.serialize_pair(key, value)?;
    }
    s.end_map(opened, count)
}

/// A map whose keys and values the types take. A key that comes again keeps its first place, and has its last
/// value.
impl<K: MapKey + Drop, V: Deserialize + Drop> Deserialize for OrderedMap<K, V> {
    ghost item = { ordered_item K.eq K.item V.item };

    ghost take = { ordered_taken K.take V.take };

    #[tactic(auto, unfolding(crate::specs::MapTakes::ordered_taken, serde_amqp_de::specs::Maps::pairs_taken))]
    fn absent(_alloc: Global) -> Option<OrderedMap<K, V>> {
        None
    }

    #[tactic(auto, using(crate::proofs::Reading::reading))]
    fn read<R: Read>(alloc: Global, de: &mut Deserializer<R>) -> Result<OrderedMap<K, V>, Error> {
        let pairs = read_map(alloc, de)?;
        Ok(OrderedMap::from_pairs(alloc, pairs)?)
    }

    ghost decided = { ordered_decided K.take V.take K.decided V.decided };
}

impl<K: MapKey + RoundTrip + Drop, V: RoundTrip + Drop> RoundTrip for OrderedMap<K, V> {
    ghost same = { ordered_same K.eq K.Serialize.item K.Deserialize.item V.Serialize.item V.Deserialize.item K.same V.same };

    ghost again = { ordered_again K.eq K.take V.take K.Deserialize.item V.Deserialize.item K.equal K.again V.again };
}

impl<K: MapKey + Faithful + Drop, V: Faithful + Drop> Faithful for OrderedMap<K, V> {
    ghost faithful = { ordered_faithful K.eq K.Deserialize.item V.Deserialize.item K.faithful V.faithful };
}

impl<K: MapKey + Drop, V: Deserialize + Drop> NeverNull for OrderedMap<K, V> {
    ghost present = { ordered_present K.eq K.item V.item };
}

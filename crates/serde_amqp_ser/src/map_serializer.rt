//! The serializer of maps.
ghost use Rattle.std.specs.Prelude.{◌≡◌, ◌∷◌, [], ◌++◌, true, false, List, Option, Some, None, Err, OnOk, OnErr};
ghost use Rattle.serde_amqp_item.specs.Item.{Item, map, pairs_of};
ghost use Rattle.serde_amqp_ser.specs.Written.{Keeps};
ghost use Rattle.serde_amqp_ser.specs.Puts.{State, serialized, OnlyWhere, WantsMemory, state_of};
ghost use Rattle.serde_amqp_ser.specs.Content.{HoldsPairs};

use crate::content::Content;
use crate::serialize::Serialize;
use crate::serializer::Serializer;
use crate::sink::Sink;
use serde_amqp_item::Error;

/// Writes a map of the keys and values as they are given, in turn (part 1, 1.6.23).
#[derive(Drop)]
pub struct MapSerializer<'a, W> {
    /// What writes it.
    pub serializer: &'a mut Serializer<W>,
    /// The map so far.
    pub content: Content,
    /// Whether its last item is a key without a value.
    pub keyed: bool,
}

impl<W: Sink> Serializer<W> {
    /// Begins a map.
    #[tactic(auto, using(crate::proofs::Grown::growing, crate::proofs::Held::holding))]
    pub fn serialize_map<'a>(&'a mut self) -> MapSerializer<'a, W>
        ensures same_reference { result.serializer.ghost_name ≡ self.entry.ghost_name }
        ensures kept { Keeps (W.written self.old.writer) (W.written result.serializer.now.writer) }
        ensures begun { HoldsPairs W.begins (state_of W.written self.old) [] None result.content
            result.keyed (state_of W.written result.serializer.now) }
    {
        let content = self.begin_content();
        MapSerializer {
            serializer: self,
            content,
            keyed: false,
        }
    }
}

impl<'a, W: Sink> MapSerializer<'a, W> {
    /// Writes the next key. Answers `SequenceLengthMismatch`, and changes nothing, where the last key has no
    /// value yet. Any other error but `Memory` comes exactly where the key has no canonical text.
    #[tactic(auto, using(crate::proofs::Grown::growing, crate::proofs::Held::holding))]
    pub fn serialize_key<K: Serialize>(&mut self, key: &K) -> Result<(), Error>
        ensures same_reference { self.new.serializer.ghost_name ≡ self.old.serializer.ghost_name }
        ensures ok { OnOk result ((s : State) (ps : List (Item × Item)) →
            HoldsPairs W.begins s ps None self.old.content self.old.keyed
            (state_of W.written self.old.serializer.now) →
            HoldsPairs W.begins s ps (Some (K.item key.now)) self.new.content self.new.keyed
            (state_of W.written self.new.serializer.now)) }
        ensures err { OnErr result ((self.new.content ≡ self.old.content) × (self.new.keyed ≡ self.old.keyed)
            × (state_of W.written self.new.serializer.now
            ≡ state_of W.written self.old.serializer.now)) }
        ensures kept { Keeps (W.written self.old.serializer.now.writer)
            (W.written self.new.serializer.now.writer) }
        ensures refused { (s : State) (ps qs : List (Item × Item)) (value : Item) →
            HoldsPairs W.begins s ps None self.old.content self.old.keyed
            (state_of W.written self.old.serializer.now) →
            OnlyWhere result (serialized s (map (pairs_of (ps ++ (K.item key.now, value) ∷ qs)))) }
        ensures out_of_turn { self.old.keyed ≡ true →
            (result ≡ Err Error.SequenceLengthMismatch) × (self.new ≡ self.old) }
        ensures memory { WantsMemory W.takes_memory result }
    {
        if self.keyed {
            return Err(Error::SequenceLengthMismatch);
        }
        self.content = self.serializer.put_item(self.content, key)?;
        self.keyed = true;
        Ok(())
    }

    /// Writes the value of the last key. Answers `SequenceLengthMismatch`, and changes nothing, where there
    /// is no key without a value. Any other error but `Memory` comes exactly where the value has no canonical
    /// text.
    #[tactic(auto, using(crate::proofs::Grown::growing, crate::proofs::Held::holding))]
    pub fn serialize_value<V: Serialize>(&mut self, value: &V) -> Result<(), Error>
        ensures same_reference { self.new.serializer.ghost_name ≡ self.old.serializer.ghost_name }
        ensures ok { OnOk result ((s : State) (ps : List (Item × Item)) (key : Item) →
            HoldsPairs W.begins s ps (Some key) self.old.content self.old.keyed
            (state_of W.written self.old.serializer.now) →
            HoldsPairs W.begins s (ps ++ (key, V.item value.now) ∷ []) None self.new.content
            self.new.keyed (state_of W.written self.new.serializer.now)) }
        ensures err { OnErr result ((self.new.content ≡ self.old.content) × (self.new.keyed ≡ self.old.keyed)
            × (state_of W.written self.new.serializer.now
            ≡ state_of W.written self.old.serializer.now)) }
        ensures kept { Keeps (W.written self.old.serializer.now.writer)
            (W.written self.new.serializer.now.writer) }
        ensures refused { (s : State) (ps qs : List (Item × Item)) (key : Item) →
            HoldsPairs W.begins s ps (Some key) self.old.content self.old.keyed
            (state_of W.written self.old.serializer.now) →
            OnlyWhere result (serialized s (map (pairs_of (ps ++ (key, V.item value.now) ∷ qs)))) }
        ensures out_of_turn { self.old.keyed ≡ false →
            (result ≡ Err Error.SequenceLengthMismatch) × (self.new ≡ self.old) }
        ensures memory { WantsMemory W.takes_memory result }
    {
        if !self.keyed {
            return Err(Error::SequenceLengthMismatch);
        }
        self.content = self.serializer.put_item(self.content, value)?;
        self.keyed = false;
        Ok(())
    }

    /// Writes the next key and its value. The errors are those of [`MapSerializer::serialize_key`] and
    /// [`MapSerializer::serialize_value`]; after one neither is there.
    #[tactic(auto, using(crate::proofs::Grown::growing, crate::proofs::Held::holding))]
    pub fn serialize_entry<K: Serialize, V: Serialize>(
        &mut self,
        key: &K,
        value: &V,
    ) -> Result<(), Error>
        ensures same_reference { self.new.serializer.ghost_name ≡ self.old.serializer.ghost_name }
        ensures ok { OnOk result ((s : State) (ps : List (Item × Item)) →
            HoldsPairs W.begins s ps None self.old.content self.old.keyed
            (state_of W.written self.old.serializer.now) →
            HoldsPairs W.begins s (ps ++ (K.item key.now, V.item value.now) ∷ []) None
            self.new.content self.new.keyed (state_of W.written self.new.serializer.now)) }
        ensures err { OnErr result ((self.new.content ≡ self.old.content) × (self.new.keyed ≡ self.old.keyed)
            × (state_of W.written self.new.serializer.now
            ≡ state_of W.written self.old.serializer.now)) }
        ensures kept { Keeps (W.written self.old.serializer.now.writer)
            (W.written self.new.serializer.now.writer) }
        ensures refused { (s : State) (ps qs : List (Item × Item)) →
            HoldsPairs W.begins s ps None self.old.content self.old.keyed
            (state_of W.written self.old.serializer.now) →
            OnlyWhere result
            (serialized s (map (pairs_of (ps ++ (K.item key.now, V.item value.now) ∷ qs)))) }
        ensures out_of_turn { self.old.keyed ≡ true →
            (result ≡ Err Error.SequenceLengthMismatch) × (self.new ≡ self.old) }
        ensures memory { WantsMemory W.takes_memory result }
    {
        if self.keyed {
            return Err(Error::SequenceLengthMismatch);
        }
        self.content = self.serializer.put_entry(self.content, key, value)?;
        Ok(())
    }

    /// Ends the map, or answers `SequenceLengthMismatch` where the last key has no value, `InvalidLength`
    /// where the keys and values take 2^32 - 4 bytes or more, and `InvalidValue` in an array whose first
    /// element is no map. After an error all is as before the map began.
    #[tactic(auto, using(crate::proofs::Grown::growing, crate::proofs::Held::holding))]
    pub fn end(self) -> Result<(), Error>
        ensures ok { OnOk result ((s : State) (ps : List (Item × Item)) →
            HoldsPairs W.begins s ps None self.entry.content self.entry.keyed
            (state_of W.written self.entry.serializer.now) →
            serialized s (map (pairs_of ps)) ≡ Some (state_of W.written self.exit.0.now)) }
        ensures err { OnErr result ((s : Serializer W) (ps : List (Item × Item)) (key : Option Item)
            → HoldsPairs W.begins (state_of W.written s) ps key self.entry.content
            self.entry.keyed (state_of W.written self.entry.serializer.now)
            → state_of W.written self.exit.0.now ≡ state_of W.written s) }
        ensures refused { (s : State) (ps : List (Item × Item)) →
            HoldsPairs W.begins s ps None self.entry.content self.entry.keyed
            (state_of W.written self.entry.serializer.now) →
            OnlyWhere result (serialized s (map (pairs_of ps))) }
        ensures unpaired { self.entry.keyed ≡ true → result ≡ Err Error.SequenceLengthMismatch }
        ensures memory { WantsMemory W.takes_memory result }
    {
        let MapSerializer {
            serializer,
            content,
            keyed,
        } = self;
        if keyed {
            return Err(serializer.take_back(content.opened, Error::SequenceLengthMismatch));
        }
        serializer.finish_map(content)
    }
}

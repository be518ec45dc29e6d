//! Lists and maps that are written in place, item by item.
ghost use Rattle.std.specs.Prelude.{◌≡◌, ◌∷◌, [], ◌++◌, List, length, Some, OnOk, OnErr};
ghost use Rattle.serde_amqp_item.specs.Item.{Item, list, map, items_of, pairs_of};
ghost use Rattle.serde_amqp_ser.specs.Written.{Written, Keeps};
ghost use Rattle.serde_amqp_ser.specs.Puts.{State, serialized, OnlyWhere, WantsMemory, state_of};
ghost use Rattle.serde_amqp_ser.specs.Open.{IsOpen, IsMark, in_turn};

use crate::place::IsArrayElement;
use crate::serialize::Serialize;
use crate::serializer::Serializer;
use crate::sink::Sink;
use serde_amqp_item::Error;

/// A place to go back to: where a value was begun.
#[derive(Debug, Clone, Copy, PartialEq, Eq)]
pub struct Opened {
    /// How many bytes stand before the value.
    pub start: u128,
    /// Where it is written.
    pub outer: IsArrayElement,
}

impl<W: Sink> Serializer<W> {
    /// Begins a list or a map. Its items are written next, a map's keys and values in turn, and then
    /// [`Serializer::end_list`] or [`Serializer::end_map`] ends it.
    #[tactic(auto, using(crate::proofs::Grown::growing, crate::proofs::Begun::opening))]
    pub fn begin_compound(&mut self) -> Opened
        ensures open { IsOpen W.begins (W.written self.old.writer) []
            (state_of W.written self.new) }
        ensures mark { IsMark (state_of W.written self.old) result }
        ensures kept { Keeps (W.written self.old.writer) (W.written self.new.writer) }
    {
        let outer = self.element;
        let start = self.writer.open();
        self.element = IsArrayElement::False;
        Opened { start, outer }
    }

    /// Writes a key and its value. After an error the key may stand there.
    #[tactic(auto, using(crate::proofs::Grown::growing, crate::proofs::Begun::opening))]
    pub(crate) fn put_pair<K: Serialize, V: Serialize>(
        &mut self,
        key: &K,
        value: &V,
    ) -> Result<(), Error>
        ensures ok { OnOk result ((w : Written) (ps : List (Item × Item)) →
            IsOpen W.begins w (in_turn ps) (state_of W.written self.old) →
            IsOpen W.begins w (in_turn (ps ++ (K.item key.now, V.item value.now) ∷ []))
            (state_of W.written self.new)) }
        ensures kept { Keeps (W.written self.old.writer) (W.written self.new.writer) }
        ensures refused { (w : Written) (ps qs : List (Item × Item)) (t : State) →
            IsOpen W.begins w (in_turn ps) (state_of W.written self.old) →
            OnlyWhere result
            (serialized t (map (pairs_of (ps ++ (K.item key.now, V.item value.now) ∷ qs)))) }
        ensures memory { WantsMemory W.takes_memory result }
    {
        key.serialize(self)?;
        value.serialize(self)
    }

    /// Writes a key and its value, the next pair of a map that was begun. Any error but `Memory` comes
    /// exactly where one of them has no canonical text. After an error neither is there.
    #[tactic(auto, using(crate::proofs::Grown::growing, crate::proofs::Begun::opening))]
    pub fn serialize_pair<K: Serialize, V: Serialize>(
        &mut self,
        key: &K,
        value: &V,
    ) -> Result<(), Error>
        ensures ok { OnOk result ((w : Written) (ps : List (Item × Item)) →
            IsOpen W.begins w (in_turn ps) (state_of W.written self.old) →
            IsOpen W.begins w (in_turn (ps ++ (K.item key.now, V.item value.now) ∷ []))
            (state_of W.written self.new)) }
        ensures err { OnErr result (state_of W.written self.new ≡ state_of W.written self.old) }
        ensures kept { Keeps (W.written self.old.writer) (W.written self.new.writer) }
        ensures refused { (w : Written) (ps qs : List (Item × Item)) (t : State) →
            IsOpen W.begins w (in_turn ps) (state_of W.written self.old) →
            OnlyWhere result
            (serialized t (map (pairs_of (ps ++ (K.item key.now, V.item value.now) ∷ qs)))) }
        ensures memory { WantsMemory W.takes_memory result }
    {
        let mark = self.mark();
        match self.put_pair(key, value) {
            Ok(()) => Ok(()),
            Err(error) => Err(self.take_back(mark, error)),
        }
    }

    /// Puts the head of a list in front of its items. After an error the items may stand there.
    #[tactic(auto, using(crate::proofs::Grown::growing, crate::proofs::Begun::opening))]
    pub(crate) fn put_list_head(&mut self, opened: Opened, items: usize) -> Result<(), Error>
        ensures ok { OnOk result ((s : State) (xs : List Item) → IsMark s opened →
            IsOpen W.begins s.written xs (state_of W.written self.old) → length xs ≡ items →
            serialized s (list (items_of xs)) ≡ Some (state_of W.written self.new)) }
        ensures kept { (s : State) (xs : List Item) → IsMark s opened →
            IsOpen W.begins s.written xs (state_of W.written self.old) →
            Keeps s.written (W.written self.new.writer) }
        ensures refused { (s : State) (xs : List Item) → IsMark s opened →
            IsOpen W.begins s.written xs (state_of W.written self.old) → length xs ≡ items →
            OnlyWhere result (serialized s (list (items_of xs))) }
        ensures memory { WantsMemory W.takes_memory result }
    {
        self.element = opened.outer;
        self.close_list(opened.start, items)
    }

    /// Ends a list of so many items (part 1, 1.6.22), or answers `InvalidLength` where they take
    /// 2^32 - 4 bytes or more. In an array it answers `InvalidValue` behind an element that is no list. After
    /// an error all is as before the list began.
    #[tactic(auto, using(crate::proofs::Grown::growing, crate::proofs::Begun::opening))]
    pub fn end_list(&mut self, opened: Opened, items: usize) -> Result<(), Error>
        ensures ok { OnOk result ((s : State) (xs : List Item) → IsMark s opened →
            IsOpen W.begins s.written xs (state_of W.written self.old) → length xs ≡ items →
            serialized s (list (items_of xs)) ≡ Some (state_of W.written self.new)) }
        ensures err { OnErr result ((s : Serializer W) (xs : List Item) → IsMark (state_of W.written s) opened
            → IsOpen W.begins (W.written s.writer) xs (state_of W.written self.old)
            → state_of W.written self.new ≡ state_of W.written s) }
        ensures kept { (s : Serializer W) (xs : List Item) → IsMark (state_of W.written s) opened
            → IsOpen W.begins (W.written s.writer) xs (state_of W.written self.old)
            → Keeps (W.written s.writer) (W.written self.new.writer) }
        ensures refused { (s : State) (xs : List Item) → IsMark s opened →
            IsOpen W.begins s.written xs (state_of W.written self.old) → length xs ≡ items →
            OnlyWhere result (serialized s (list (items_of xs))) }
        ensures memory { WantsMemory W.takes_memory result }
    {
        match self.put_list_head(opened, items) {
            Ok(()) => Ok(()),
            Err(error) => Err(self.take_back(opened, error)),
        }
    }

    /// Puts the head of a map in front of its keys and values. After an error these may stand there.
    #[tactic(auto, using(crate::proofs::Grown::growing, crate::proofs::Begun::opening))]
    pub(crate) fn put_map_head(&mut self, opened: Opened, pairs: usize) -> Result<(), Error>
        ensures ok { OnOk result ((s : State) (ps : List (Item × Item)) → IsMark s opened →
            IsOpen W.begins s.written (in_turn ps) (state_of W.written self.old) →
            length ps ≡ pairs → serialized s (map (pairs_of ps))
            ≡ Some (state_of W.written self.new)) }
        ensures kept { (s : State) (xs : List Item) → IsMark s opened →
            IsOpen W.begins s.written xs (state_of W.written self.old) →
            Keeps s.written (W.written self.new.writer) }
        ensures refused { (s : State) (ps : List (Item × Item)) → IsMark s opened →
            IsOpen W.begins s.written (in_turn ps) (state_of W.written self.old) →
            length ps ≡ pairs → OnlyWhere result (serialized s (map (pairs_of ps))) }
        ensures memory { WantsMemory W.takes_memory result }
    {
        let Some(count) = pairs.checked_mul(2) else {
            return Err(Error::InvalidLength);
        };
        self.element = opened.outer;
        self.close_counted(opened.start, count, 0xc1, 0xd1)
    }

    /// Ends a map of so many pairs (part 1, 1.6.23), or answers `InvalidLength` where they take
    /// 2^32 - 4 bytes or more. In an array it answers `InvalidValue` behind an element that is no map. After
    /// an error all is as before the map began.
    #[tactic(auto, using(crate::proofs::Grown::growing, crate::proofs::Begun::opening))]
    pub fn end_map(&mut self, opened: Opened, pairs: usize) -> Result<(), Error>
        ensures ok { OnOk result ((s : State) (ps : List (Item × Item)) → IsMark s opened →
            IsOpen W.begins s.written (in_turn ps) (state_of W.written self.old) →
            length ps ≡ pairs → serialized s (map (pairs_of ps))
            ≡ Some (state_of W.written self.new)) }
        ensures err { OnErr result ((s : Serializer W) (xs : List Item) → IsMark (state_of W.written s) opened
            → IsOpen W.begins (W.written s.writer) xs (state_of W.written self.old)
            → state_of W.written self.new ≡ state_of W.written s) }
        ensures kept { (s : Serializer W) (xs : List Item) → IsMark (state_of W.written s) opened
            → IsOpen W.begins (W.written s.writer) xs (state_of W.written self.old)
            → Keeps (W.written s.writer) (W.written self.new.writer) }
        ensures refused { (s : State) (ps : List (Item × Item)) → IsMark s opened →
            IsOpen W.begins s.written (in_turn ps) (state_of W.written self.old) →
            length ps ≡ pairs → OnlyWhere result (serialized s (map (pairs_of ps))) }
        ensures memory { WantsMemory W.takes_memory result }
    {
        match self.put_map_head(opened, pairs) {
            Ok(()) => Ok(()),
            Err(error) => Err(self.take_back(opened, error)),
        }
    }
}

//! What the serializers of lists and maps share.
ghost use Rattle.std.specs.Prelude.{◌≡◌, ◌∷◌, [], ◌++◌, List, Some, OnOk, OnErr, IfOk};
ghost use Rattle.serde_amqp_item.specs.Item.{Item, list, map, items_of, pairs_of};
ghost use Rattle.serde_amqp_item.specs.Canon.{canon};
ghost use Rattle.serde_amqp_ser.specs.Written.{Keeps};
ghost use Rattle.serde_amqp_ser.specs.Puts.{State, serialized, OnlyWhere, WantsMemory, state_of};
ghost use Rattle.serde_amqp_ser.specs.Open.{in_turn};
ghost use Rattle.serde_amqp_ser.specs.Content.{Holds};

use crate::opened::Opened;
use crate::serialize::Serialize;
use crate::serializer::Serializer;
use crate::sink::Sink;
use serde_amqp_item::Error;

/// A list or a map that is being written.
#[derive(Debug, Clone, Copy, PartialEq, Eq)]
pub struct Content {
    /// Where it began.
    pub opened: Opened,
    /// How many items it has, of a map the keys and the values: 2^64 - 1 where there are more.
    pub count: usize,
}

impl<W: Sink> Serializer<W> {
    /// Begins a list or a map.
    pub(crate) fn begin_content(&mut self) -> Content
        ensures { Holds W.begins (state_of W.written self.old) [] result
            (state_of W.written self.new) }
    {
        Content {
            opened: self.begin_compound(),
            count: 0,
        }
    }

    /// Writes the next item of a list or a map.
    pub(crate) fn put_item<T: Serialize>(
        &mut self,
        content: Content,
        item: &T,
    ) -> Result<Content, Error>
        ensures ok { IfOk result (λ more. (s : State) (xs : List Item) →
            Holds W.begins s xs content (state_of W.written self.old) →
            Holds W.begins s (xs ++ T.item item.now ∷ []) more (state_of W.written self.new)) }
        ensures err { OnErr result (state_of W.written self.new ≡ state_of W.written self.old) }
        ensures kept { Keeps (W.written self.old.writer) (W.written self.new.writer) }
        ensures refused { (s : State) (xs : List Item) →
            Holds W.begins s xs content (state_of W.written self.old) →
            OnlyWhere result (canon (T.item item.now)) }
        ensures memory { WantsMemory W.takes_memory result }
    {
        item.serialize(self)?;
        Ok(Content {
            opened: content.opened,
            count: content.count.saturating_add(1),
        })
    }

    /// Writes the next key of a map and its value. After an error the key may stand there.
    #[tactic(auto, using(crate::proofs::Grown::growing, crate::proofs::Held::holding))]
    fn put_key_and_value<K: Serialize, V: Serialize>(
        &mut self,
        content: Content,
        key: &K,
        value: &V,
    ) -> Result<Content, Error>
        ensures ok { IfOk result (λ more. (s : State) (ps : List (Item × Item))
            → Holds W.begins s (in_turn ps) content (state_of W.written self.old)
            → Holds W.begins s (in_turn (ps ++ (K.item key.now, V.item value.now) ∷ [])) more
            (state_of W.written self.new)) }
        ensures kept { Keeps (W.written self.old.writer) (W.written self.new.writer) }
        ensures refused { (s t : State) (ps qs : List (Item × Item))
            → Holds W.begins s (in_turn ps) content (state_of W.written self.old)
            → OnlyWhere result
            (serialized t (map (pairs_of (ps ++ (K.item key.now, V.item value.now) ∷ qs)))) }
        ensures memory { WantsMemory W.takes_memory result }
    {
        let keyed = self.put_item(content, key)?;
        self.put_item(keyed, value)
    }

    /// Writes the next key of a map and its value. After an error neither is there.
    #[tactic(auto, using(crate::proofs::Grown::growing))]
    pub(crate) fn put_entry<K: Serialize, V: Serialize>(
        &mut self,
        content: Content,
        key: &K,
        value: &V,
    ) -> Result<Content, Error>
        ensures ok { IfOk result (λ more. (s : State) (ps : List (Item × Item))
            → Holds W.begins s (in_turn ps) content (state_of W.written self.old)
            → Holds W.begins s (in_turn (ps ++ (K.item key.now, V.item value.now) ∷ [])) more
            (state_of W.written self.new)) }
        ensures err { OnErr result (state_of W.written self.new ≡ state_of W.written self.old) }
        ensures kept { Keeps (W.written self.old.writer) (W.written self.new.writer) }
        ensures refused { (s t : State) (ps qs : List (Item × Item))
            → Holds W.begins s (in_turn ps) content (state_of W.written self.old)
            → OnlyWhere result
            (serialized t (map (pairs_of (ps ++ (K.item key.now, V.item value.now) ∷ qs)))) }
        ensures memory { WantsMemory W.takes_memory result }
    {
        let mark = self.mark();
        match self.put_key_and_value(content, key, value) {
            Ok(more) => Ok(more),
            Err(error) => Err(self.take_back(mark, error)),
        }
    }

    /// Ends a list. After an error its items may stand there.
    pub(crate) fn close_list_content(&mut self, content: Content) -> Result<(), Error>
        ensures ok { OnOk result ((s : State) (xs : List Item) →
            Holds W.begins s xs content (state_of W.written self.old) →
            serialized s (list (items_of xs)) ≡ Some (state_of W.written self.new)) }
        ensures kept { (s : State) (xs : List Item) →
            Holds W.begins s xs content (state_of W.written self.old) →
            Keeps s.written (W.written self.new.writer) }
        ensures refused { (s : State) (xs : List Item) →
            Holds W.begins s xs content (state_of W.written self.old) →
            OnlyWhere result (serialized s (list (items_of xs))) }
        ensures memory { WantsMemory W.takes_memory result }
    {
        if content.count == usize::MAX {
            return Err(Error::InvalidLength);
        }
        self.put_list_head(content.opened, content.count)
    }

    /// Ends a list. After an error all is as before it began.
    pub(crate) fn finish_list(&mut self, content: Content) -> Result<(), Error>
        ensures ok { OnOk result ((s : State) (xs : List Item) →
            Holds W.begins s xs content (state_of W.written self.old) →
            serialized s (list (items_of xs)) ≡ Some (state_of W.written self.new)) }
        ensures err { OnErr result ((s : Serializer W) (xs : List Item)
            → Holds W.begins (state_of W.written s) xs content (state_of W.written self.old)
            → state_of W.written self.new ≡ state_of W.written s) }
        ensures refused { (s : State) (xs : List Item) →
            Holds W.begins s xs content (state_of W.written self.old) →
            OnlyWhere result (serialized s (list (items_of xs))) }
        ensures memory { WantsMemory W.takes_memory result }
    {
        match self.close_list_content(content) {
            Ok(()) => Ok(()),
            Err(error) => Err(self.take_back(content.opened, error)),
        }
    }

    /// Ends a map. After an error its keys and values may stand there.
    pub(crate) fn close_map_content(&mut self, content: Content) -> Result<(), Error>
        ensures ok { OnOk result ((s : State) (ps : List (Item × Item)) →
            Holds W.begins s (in_turn ps) content (state_of W.written self.old) →
            serialized s (map (pairs_of ps)) ≡ Some (state_of W.written self.new)) }
        ensures kept { (s : State) (xs : List Item) →
            Holds W.begins s xs content (state_of W.written self.old) →
            Keeps s.written (W.written self.new.writer) }
        ensures refused { (s : State) (ps : List (Item × Item)) →
            Holds W.begins s (in_turn ps) content (state_of W.written self.old) →
            OnlyWhere result (serialized s (map (pairs_of ps))) }
        ensures memory { WantsMemory W.takes_memory result }
    {
        if content.count == usize::MAX {
            return Err(Error::InvalidLength);
        }
        self.put_map_head(content.opened, content.count / 2)
    }

    /// Ends a map. After an error all is as before it began.
    pub(crate) fn finish_map(&mut self, content: Content) -> Result<(), Error>
        ensures ok { OnOk result ((s : State) (ps : List (Item × Item)) →
            Holds W.begins s (in_turn ps) content (state_of W.written self.old) →
            serialized s (map (pairs_of ps)) ≡ Some (state_of W.written self.new)) }
        ensures err { OnErr result ((s : Serializer W) (xs : List Item)
            → Holds W.begins (state_of W.written s) xs content (state_of W.written self.old)
            → state_of W.written self.new ≡ state_of W.written s) }
        ensures refused { (s : State) (ps : List (Item × Item)) →
            Holds W.begins s (in_turn ps) content (state_of W.written self.old) →
            OnlyWhere result (serialized s (map (pairs_of ps))) }
        ensures memory { WantsMemory W.takes_memory result }
    {
        match self.close_map_content(content) {
            Ok(()) => Ok(()),
            Err(error) => Err(self.take_back(content.opened, error)),
        }
    }
}

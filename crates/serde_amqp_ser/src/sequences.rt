//! The serializers of lists.
ghost use Rattle.std.specs.Prelude.{◌≡◌, ◌∷◌, [], ◌++◌, List, Some, OnOk, OnErr};
ghost use Rattle.serde_amqp_item.specs.Item.{Item, list, items_of};
ghost use Rattle.serde_amqp_ser.specs.Written.{Keeps};
ghost use Rattle.serde_amqp_ser.specs.Puts.{State, serialized, OnlyWhere, WantsMemory, state_of};
ghost use Rattle.serde_amqp_ser.specs.Content.{Holds};

use crate::content::Content;
use crate::serialize::Serialize;
use crate::serializer::Serializer;
use crate::sink::Sink;
use serde_amqp_item::Error;

/// Writes a list of so many items as it is given (part 1, 1.6.22).
#[derive(Drop)]
pub struct SeqSerializer<'a, W> {
    /// What writes it.
    pub serializer: &'a mut Serializer<W>,
    /// The list so far.
    pub content: Content,
}

impl<W: Sink> Serializer<W> {
    /// Begins a list.
    #[tactic(auto, using(crate::proofs::Grown::growing, crate::proofs::Held::holding))]
    pub fn serialize_seq<'a>(&'a mut self) -> SeqSerializer<'a, W>
        ensures same_reference { result.serializer.ghost_name ≡ self.entry.ghost_name }
        ensures kept { Keeps (W.written self.old.writer) (W.written result.serializer.now.writer) }
        ensures begun { Holds W.begins (state_of W.written self.old) [] result.content
            (state_of W.written result.serializer.now) }
    {
        let content = self.begin_content();
        SeqSerializer {
            serializer: self,
            content,
        }
    }
}

impl<'a, W: Sink> SeqSerializer<'a, W> {
    /// Writes the next item of the list. Any error but `Memory` comes exactly where the item has no canonical text.
    /// The list is as before then.
    #[tactic(auto, using(crate::proofs::Held::holding))]
    pub fn serialize_element<T: Serialize>(&mut self, item: &T) -> Result<(), Error>
        ensures same_reference { self.new.serializer.ghost_name ≡ self.old.serializer.ghost_name }
        ensures ok { OnOk result ((s : State) (xs : List Item) →
            Holds W.begins s xs self.old.content (state_of W.written self.old.serializer.now) →
            Holds W.begins s (xs ++ T.item item.now ∷ []) self.new.content
            (state_of W.written self.new.serializer.now)) }
        ensures err { OnErr result ((self.new.content ≡ self.old.content)
            × (state_of W.written self.new.serializer.now
            ≡ state_of W.written self.old.serializer.now)) }
        ensures kept { Keeps (W.written self.old.serializer.now.writer)
            (W.written self.new.serializer.now.writer) }
        ensures refused { (s : State) (xs ys : List Item) →
            Holds W.begins s xs self.old.content (state_of W.written self.old.serializer.now) →
            OnlyWhere result (serialized s (list (items_of (xs ++ T.item item.now ∷ ys)))) }
        ensures memory { WantsMemory W.takes_memory result }
    {
        self.content = self.serializer.put_item(self.content, item)?;
        Ok(())
    }

    /// Ends the list, or answers `InvalidLength` where its items take 2^32 - 4 bytes or more, and
    /// `InvalidValue` in an array whose first element is no list. After an error all is as before it began.
    pub fn end(self) -> Result<(), Error>
        ensures ok { OnOk result ((s : State) (xs : List Item) →
            Holds W.begins s xs self.entry.content (state_of W.written self.entry.serializer.now) →
            serialized s (list (items_of xs)) ≡ Some (state_of W.written self.exit.0.now)) }
        ensures err { OnErr result ((s : Serializer W) (xs : List Item)
            → Holds W.begins (state_of W.written s) xs self.entry.content
            (state_of W.written self.entry.serializer.now)
            → state_of W.written self.exit.0.now ≡ state_of W.written s) }
        ensures refused { (s : State) (xs : List Item) →
            Holds W.begins s xs self.entry.content (state_of W.written self.entry.serializer.now) →
            OnlyWhere result (serialized s (list (items_of xs))) }
        ensures memory { WantsMemory W.takes_memory result }
    {
        let SeqSerializer {
            serializer,
            content,
        } = self;
        serializer.finish_list(content)
    }
}

/// Writes a tuple, as a list of its parts.
#[derive(Drop)]
pub struct TupleSerializer<'a, W> {
    /// What writes it.
    pub serializer: &'a mut Serializer<W>,
    /// The list so far.
    pub content: Content,
}

impl<W: Sink> Serializer<W> {
    /// Begins a tuple, which is written as a list.
    #[tactic(auto, using(crate::proofs::Grown::growing, crate::proofs::Held::holding))]
    pub fn serialize_tuple<'a>(&'a mut self) -> TupleSerializer<'a, W>
        ensures same_reference { result.serializer.ghost_name ≡ self.entry.ghost_name }
        ensures kept { Keeps (W.written self.old.writer) (W.written result.serializer.now.writer) }
        ensures begun { Holds W.begins (state_of W.written self.old) [] result.content
            (state_of W.written result.serializer.now) }
    {
        let content = self.begin_content();
        TupleSerializer {
            serializer: self,
            content,
        }
    }
}

impl<'a, W: Sink> TupleSerializer<'a, W> {
    /// Writes the next part of the tuple. Any error but `Memory` comes exactly where the part has no canonical text.
    /// The list is as before then.
    #[tactic(auto, using(crate::proofs::Held::holding))]
    pub fn serialize_element<T: Serialize>(&mut self, part: &T) -> Result<(), Error>
        ensures same_reference { self.new.serializer.ghost_name ≡ self.old.serializer.ghost_name }
        ensures ok { OnOk result ((s : State) (xs : List Item) →
            Holds W.begins s xs self.old.content (state_of W.written self.old.serializer.now) →
            Holds W.begins s (xs ++ T.item part.now ∷ []) self.new.content
            (state_of W.written self.new.serializer.now)) }
        ensures err { OnErr result ((self.new.content ≡ self.old.content)
            × (state_of W.written self.new.serializer.now
            ≡ state_of W.written self.old.serializer.now)) }
        ensures kept { Keeps (W.written self.old.serializer.now.writer)
            (W.written self.new.serializer.now.writer) }
        ensures refused { (s : State) (xs ys : List Item) →
            Holds W.begins s xs self.old.content (state_of W.written self.old.serializer.now) →
            OnlyWhere result (serialized s (list (items_of (xs ++ T.item part.now ∷ ys)))) }
        ensures memory { WantsMemory W.takes_memory result }
    {
        self.content = self.serializer.put_item(self.content, part)?;
        Ok(())
    }

    /// Ends the list, or answers `InvalidLength` where its items take 2^32 - 4 bytes or more, and
    /// `InvalidValue` in an array whose first element is no list. After an error all is as before it began.
    pub fn end(self) -> Result<(), Error>
        ensures ok { OnOk result ((s : State) (xs : List Item) →
            Holds W.begins s xs self.entry.content (state_of W.written self.entry.serializer.now) →
            serialized s (list (items_of xs)) ≡ Some (state_of W.written self.exit.0.now)) }
        ensures err { OnErr result ((s : Serializer W) (xs : List Item)
            → Holds W.begins (state_of W.written s) xs self.entry.content
            (state_of W.written self.entry.serializer.now)
            → state_of W.written self.exit.0.now ≡ state_of W.written s) }
        ensures refused { (s : State) (xs : List Item) →
            Holds W.begins s xs self.entry.content (state_of W.written self.entry.serializer.now) →
            OnlyWhere result (serialized s (list (items_of xs))) }
        ensures memory { WantsMemory W.takes_memory result }
    {
        let TupleSerializer {
            serializer,
            content,
        } = self;
        serializer.finish_list(content)
    }
}

/// Writes a struct of unnamed fields, as a list of them.
#[derive(Drop)]
pub struct TupleStructSerializer<'a, W> {
    /// What writes it.
    pub serializer: &'a mut Serializer<W>,
    /// The list so far.
    pub content: Content,
}

impl<W: Sink> Serializer<W> {
    /// Begins a struct of unnamed fields, which is written as a list.
    #[tactic(auto, using(crate::proofs::Grown::growing, crate::proofs::Held::holding))]
    pub fn serialize_tuple_struct<'a>(&'a mut self) -> TupleStructSerializer<'a, W>
        ensures same_reference { result.serializer.ghost_name ≡ self.entry.ghost_name }
        ensures kept { Keeps (W.written self.old.writer) (W.written result.serializer.now.writer) }
        ensures begun { Holds W.begins (state_of W.written self.old) [] result.content
            (state_of W.written result.serializer.now) }
    {
        let content = self.begin_content();
        TupleStructSerializer {
            serializer: self,
            content,
        }
    }
}

impl<'a, W: Sink> TupleStructSerializer<'a, W> {
    /// Writes the next field of the struct. Any error but `Memory` comes exactly where the field has no canonical text.
    /// The list is as before then.
    #[tactic(auto, using(crate::proofs::Held::holding))]
    pub fn serialize_field<T: Serialize>(&mut self, field: &T) -> Result<(), Error>
        ensures same_reference { self.new.serializer.ghost_name ≡ self.old.serializer.ghost_name }
        ensures ok { OnOk result ((s : State) (xs : List Item) →
            Holds W.begins s xs self.old.content (state_of W.written self.old.serializer.now) →
            Holds W.begins s (xs ++ T.item field.now ∷ []) self.new.content
            (state_of W.written self.new.serializer.now)) }
        ensures err { OnErr result ((self.new.content ≡ self.old.content)
            × (state_of W.written self.new.serializer.now
            ≡ state_of W.written self.old.serializer.now)) }
        ensures kept { Keeps (W.written self.old.serializer.now.writer)
            (W.written self.new.serializer.now.writer) }
        ensures refused { (s : State) (xs ys : List Item) →
            Holds W.begins s xs self.old.content (state_of W.written self.old.serializer.now) →
            OnlyWhere result (serialized s (list (items_of (xs ++ T.item field.now ∷ ys)))) }
        ensures memory { WantsMemory W.takes_memory result }
    {
        self.content = self.serializer.put_item(self.content, field)?;
        Ok(())
    }

    /// Ends the list, or answers `InvalidLength` where its items take 2^32 - 4 bytes or more, and
    /// `InvalidValue` in an array whose first element is no list. After an error all is as before it began.
    pub fn end(self) -> Result<(), Error>
        ensures ok { OnOk result ((s : State) (xs : List Item) →
            Holds W.begins s xs self.entry.content (state_of W.written self.entry.serializer.now) →
            serialized s (list (items_of xs)) ≡ Some (state_of W.written self.exit.0.now)) }
        ensures err { OnErr result ((s : Serializer W) (xs : List Item)
            → Holds W.begins (state_of W.written s) xs self.entry.content
            (state_of W.written self.entry.serializer.now)
            → state_of W.written self.exit.0.now ≡ state_of W.written s) }
        ensures refused { (s : State) (xs : List Item) →
            Holds W.begins s xs self.entry.content (state_of W.written self.entry.serializer.now) →
            OnlyWhere result (serialized s (list (items_of xs))) }
        ensures memory { WantsMemory W.takes_memory result }
    {
        let TupleStructSerializer {
            serializer,
            content,
        } = self;
        serializer.finish_list(content)
    }
}

//! The serializer of an enum's variants.
ghost use Rattle.std.specs.Prelude.{◌≡◌, ◌∷◌, [], ◌++◌, ℕ, List, Some, OnOk, OnErr, IfOk};
ghost use Rattle.std.specs.Borrow.{sem, RestsIfErr};
ghost use Rattle.serde_amqp_item.specs.Item.{Item, scalar, uint};
ghost use Rattle.serde_amqp_ser.specs.Written.{Keeps};
ghost use Rattle.serde_amqp_ser.specs.Puts.{State, serialized, OnlyWhere, WantsMemory, state_of};
ghost use Rattle.serde_amqp_ser.specs.Open.{IsMark, IsOpen};
ghost use Rattle.serde_amqp_ser.specs.Content.{Holds};
ghost use Rattle.serde_amqp_ser.specs.Composite.{HoldsVariant, variant_item};
ghost use Rattle.serde_amqp_ser.specs.contracts.serializer.Serializer.{the_row};

use crate::content::Content;
use crate::opened::Opened;
use crate::serialize::Serialize;
use crate::serializer::Serializer;
use crate::sink::Sink;
use serde_amqp_item::Error;

/// Writes a variant with fields, as a map of one pair: the variant's index, and a list of its fields.
#[derive(Drop)]
pub struct VariantSerializer<'a, W> {
    /// What writes it.
    pub serializer: &'a mut Serializer<W>,
    /// Where the map began.
    pub outer: Opened,
    /// The list of fields so far.
    pub content: Content,
}

impl<W: Sink> Serializer<W> {
    /// Begins the map of a variant, and writes its key.
    #[tactic(auto, using(crate::proofs::Grown::growing, crate::proofs::Begun::opening, crate::proofs::Composed::varying))]
    fn begin_variant(&mut self, index: u32) -> Result<Opened, Error>
        ensures mark { IfOk result (λ opened. IsMark (state_of W.written self.old) opened) }
        ensures key { OnOk result (IsOpen W.begins (W.written self.old.writer)
            (scalar (uint index) ∷ []) (state_of W.written self.new)) }
        ensures err { OnErr result (state_of W.written self.new ≡ state_of W.written self.old) }
        ensures kept { Keeps (W.written self.old.writer) (W.written self.new.writer) }
        ensures refused { (xs : List Item) →
            OnlyWhere result (serialized (state_of W.written self.old) (variant_item index xs)) }
        ensures memory { WantsMemory W.takes_memory result }
    {
        let opened = self.begin_compound();
        match self.serialize_u32(index) {
            Ok(()) => Ok(opened),
            Err(error) => Err(self.take_back(opened, error)),
        }
    }

    /// Begins a variant with this index, which is written as a map of one pair: the index as a uint, and a
    /// list of the fields.
    #[tactic(auto, using(crate::proofs::Grown::growing, crate::proofs::Composed::varying))]
    pub fn serialize_variant<'a>(
        &'a mut self,
        index: u32,
    ) -> Result<VariantSerializer<'a, W>, Error>
        ensures* as_before_at_error { sem 𝓛
            (RestsIfErr (the_row W.row) self.entry (λ it. it.serializer.ghost_name) result
            (λ last. state_of W.written last ≡ state_of W.written self.old)) }
        ensures same_reference { IfOk result
            (λ it. it.serializer.ghost_name ≡ self.entry.ghost_name) }
        ensures kept { IfOk result (λ it. Keeps (W.written self.old.writer)
            (W.written it.serializer.now.writer)) }
        ensures begun { IfOk result (λ it. HoldsVariant W.begins (state_of W.written self.old) index
            [] it.outer it.content (state_of W.written it.serializer.now)) }
        ensures refused { (xs : List Item) →
            OnlyWhere result (serialized (state_of W.written self.old) (variant_item index xs)) }
        ensures memory { WantsMemory W.takes_memory result }
    {
        let outer = self.begin_variant(index)?;
        Ok(VariantSerializer::begin(self, outer))
    }
}

impl<'a, W: Sink> VariantSerializer<'a, W> {
    /// Begins the list of the fields.
    #[tactic(auto, using(crate::proofs::Grown::growing, crate::proofs::Held::holding))]
    fn begin(serializer: &'a mut Serializer<W>, outer: Opened) -> VariantSerializer<'a, W>
        ensures same_reference { result.serializer.ghost_name ≡ serializer.entry.ghost_name }
        ensures kept { Keeps (W.written serializer.old.writer)
            (W.written result.serializer.now.writer) }
        ensures outer { result.outer ≡ outer }
        ensures begun { Holds W.begins (state_of W.written serializer.old) [] result.content
            (state_of W.written result.serializer.now) }
    {
        let content = serializer.begin_content();
        VariantSerializer {
            serializer,
            outer,
            content,
        }
    }

    /// Writes the next field. Any error but `Memory` comes exactly where the field has no canonical text. The
    /// variant is as before then.
    #[tactic(auto, using(crate::proofs::Grown::growing, crate::proofs::Composed::varying))]
    pub fn serialize_field<T: Serialize>(&mut self, field: &T) -> Result<(), Error>
        ensures same_reference { self.new.serializer.ghost_name ≡ self.old.serializer.ghost_name }
        ensures outer { self.new.outer ≡ self.old.outer }
        ensures ok { OnOk result ((s : State) (index : ℕ) (xs : List Item) →
            HoldsVariant W.begins s index xs self.old.outer self.old.content
            (state_of W.written self.old.serializer.now) →
            HoldsVariant W.begins s index (xs ++ T.item field.now ∷ []) self.old.outer
            self.new.content (state_of W.written self.new.serializer.now)) }
        ensures err { OnErr result ((self.new.content ≡ self.old.content)
            × (state_of W.written self.new.serializer.now
            ≡ state_of W.written self.old.serializer.now)) }
        ensures kept { Keeps (W.written self.old.serializer.now.writer)
            (W.written self.new.serializer.now.writer) }
        ensures refused { (s : State) (index : ℕ) (xs ys : List Item) →
            HoldsVariant W.begins s index xs self.old.outer self.old.content
            (state_of W.written self.old.serializer.now) →
            OnlyWhere result (serialized s (variant_item index (xs ++ T.item field.now ∷ ys))) }
        ensures memory { WantsMemory W.takes_memory result }
    {
        self.content = self.serializer.put_item(self.content, field)?;
        Ok(())
    }

    /// Ends the variant, or answers `InvalidLength` where its list or its map takes 2^32 - 4 bytes or more,
    /// and `InvalidValue` in an array whose first element is no map. After an error all is as before it began.
    #[tactic(auto, using(crate::proofs::Grown::growing, crate::proofs::Composed::varying))]
    pub fn end(self) -> Result<(), Error>
        ensures ok { OnOk result ((s : State) (index : ℕ) (xs : List Item) →
            HoldsVariant W.begins s index xs self.entry.outer self.entry.content
            (state_of W.written self.entry.serializer.now) →
            serialized s (variant_item index xs) ≡ Some (state_of W.written self.exit.0.now)) }
        ensures err { OnErr result ((s : Serializer W) (index : ℕ) (xs : List Item)
            → HoldsVariant W.begins (state_of W.written s) index xs self.entry.outer
            self.entry.content (state_of W.written self.entry.serializer.now)
            → state_of W.written self.exit.0.now ≡ state_of W.written s) }
        ensures refused { (s : State) (index : ℕ) (xs : List Item) →
            HoldsVariant W.begins s index xs self.entry.outer self.entry.content
            (state_of W.written self.entry.serializer.now) →
            OnlyWhere result (serialized s (variant_item index xs)) }
        ensures memory { WantsMemory W.takes_memory result }
    {
        let VariantSerializer {
            serializer,
            outer,
            content,
        } = self;
        let Err(error) = serializer.close_variant(outer, content) else {
            return Ok(());
        };
        Err(serializer.take_back(outer, error))
    }
}

impl<W: Sink> Serializer<W> {
    /// Ends the list of a variant's fields, and its map. After an error the beginning of it may stand there.
    #[tactic(auto, using(crate::proofs::Grown::growing, crate::proofs::Composed::varying))]
    fn close_variant(&mut self, outer: Opened, content: Content) -> Result<(), Error>
        ensures ok { OnOk result ((s : State) (index : ℕ) (xs : List Item) →
            HoldsVariant W.begins s index xs outer content (state_of W.written self.old) →
            serialized s (variant_item index xs) ≡ Some (state_of W.written self.new)) }
        ensures kept { (s : State) (index : ℕ) (xs : List Item) →
            HoldsVariant W.begins s index xs outer content (state_of W.written self.old) →
            Keeps s.written (W.written self.new.writer) }
        ensures refused { (s : State) (index : ℕ) (xs : List Item) →
            HoldsVariant W.begins s index xs outer content (state_of W.written self.old) →
            OnlyWhere result (serialized s (variant_item index xs)) }
        ensures memory { WantsMemory W.takes_memory result }
    {
        self.close_list_content(content)?;
        self.put_map_head(outer, 1)
    }
}

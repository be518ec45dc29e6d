//! The serializer of structs with named fields.
ghost use Rattle.std.specs.Prelude.{◌≡◌, ◌∷◌, [], ◌++◌, ℕ, List, Some, OnOk, OnErr, IfOk};
ghost use Rattle.std.specs.Borrow.{sem, RestsIfErr};
ghost use Rattle.serde_amqp_item.specs.Item.{Item, scalar, symbol, ulong, described};
ghost use Rattle.serde_amqp_ser.specs.Written.{Keeps};
ghost use Rattle.serde_amqp_ser.specs.Puts.{State, serialized, OnlyWhere, WantsMemory, state_of};
ghost use Rattle.serde_amqp_ser.specs.contracts.serializer.Serializer.{the_row};
ghost use Rattle.serde_amqp_ser.specs.Content.{Holds};
ghost use Rattle.serde_amqp_ser.specs.Open.{IsMark};
ghost use Rattle.serde_amqp_ser.specs.Composite.{HoldsFields, struct_item};

use crate::content::Content;
use crate::opened::Opened;
use crate::serialize::Serialize;
use crate::serializer::Serializer;
use crate::sink::Sink;
use serde_amqp_item::Error;

/// What a struct is written as.
#[derive(Debug, Clone, Copy, PartialEq, Eq)]
pub enum StructEncoding {
    /// A list of the fields' values.
    None,
    /// A descriptor, and a list of the fields' values (part 1, 1.4).
    DescribedList,
    /// A descriptor, and a map of the fields' names, as symbols, and values.
    DescribedMap,
    /// A descriptor, and a value that has no fields: see [`Serializer::described_basic`].
    DescribedBasic,
}

/// The name of a field.
#[derive(Drop)]
struct Name<'a> {
    text: &'a str,
}

/// A symbol.
impl<'a> Serialize for Name<'a> {
    ghost item = { λ name. scalar (symbol name.text.now) };

    fn is_null(&self) -> bool {
        false
    }

    fn serialize<W: Sink>(&self, s: &mut Serializer<W>) -> Result<(), Error> {
        s.symbol(self.text)
    }
}

/// Writes a struct field by field.
#[derive(Drop)]
pub struct StructSerializer<'a, W> {
    /// What writes it.
    pub serializer: &'a mut Serializer<W>,
    /// Where the struct began.
    pub outer: Opened,
    /// Its list or map so far.
    pub content: Content,
    /// What it is written as.
    pub encoding: StructEncoding,
}

impl<W: Sink> Serializer<W> {
    /// Begins a struct, which is written as a list of its fields' values.
    pub fn serialize_struct<'a>(&'a mut self) -> StructSerializer<'a, W>
        ensures same_reference { result.serializer.ghost_name ≡ self.entry.ghost_name }
        ensures kept { Keeps (W.written self.old.writer) (W.written result.serializer.now.writer) }
        ensures encoding { result.encoding ≡ StructEncoding.None }
        ensures begun { (code : ℕ) → HoldsFields W.begins (state_of W.written self.old)
            StructEncoding.None code [] result.outer result.content
            (state_of W.written result.serializer.now) }
    {
        let outer = self.mark();
        StructSerializer::begin(self, StructEncoding::None, outer)
    }

    /// Begins a struct, which is written as a descriptor of this code and a list of its fields' values
    /// (part 1, 1.4). In an array it answers `InvalidValue`, since a described item has no wide form.
    #[tactic(auto, using(crate::proofs::Grown::growing, crate::proofs::Composed::composing))]
    pub fn described_list<'a>(&'a mut self, code: u64) -> Result<StructSerializer<'a, W>, Error>
        ensures* as_before_at_error { sem 𝓛
            (RestsIfErr (the_row W.row) self.entry (λ it. it.serializer.ghost_name) result
            (λ last. state_of W.written last ≡ state_of W.written self.old)) }
        ensures same_reference { IfOk result
            (λ it. it.serializer.ghost_name ≡ self.entry.ghost_name) }
        ensures kept { IfOk result (λ it. Keeps (W.written self.old.writer)
            (W.written it.serializer.now.writer)) }
        ensures encoding { IfOk result (λ it. it.encoding ≡ StructEncoding.DescribedList) }
        ensures begun { IfOk result (λ it. HoldsFields W.begins (state_of W.written self.old)
            StructEncoding.DescribedList code [] it.outer it.content
            (state_of W.written it.serializer.now)) }
        ensures refused { (value : Item) → OnlyWhere result
            (serialized (state_of W.written self.old) (described (scalar (ulong code)) value)) }
        ensures memory { WantsMemory W.takes_memory result }
    {
        let outer = self.mark();
        self.begin_described(code)?;
        Ok(StructSerializer::begin(self, StructEncoding::DescribedList, outer))
    }

    /// Begins a struct, which is written as a descriptor of this code and a map of its fields' names, as
    /// symbols, and values. In an array it answers `InvalidValue`, since a described item has no wide form.
    #[tactic(auto, using(crate::proofs::Grown::growing, crate::proofs::Composed::composing))]
    pub fn described_map<'a>(&'a mut self, code: u64) -> Result<StructSerializer<'a, W>, Error>
        ensures* as_before_at_error { sem 𝓛
            (RestsIfErr (the_row W.row) self.entry (λ it. it.serializer.ghost_name) result
            (λ last. state_of W.written last ≡ state_of W.written self.old)) }
        ensures same_reference { IfOk result
            (λ it. it.serializer.ghost_name ≡ self.entry.ghost_name) }
        ensures kept { IfOk result (λ it. Keeps (W.written self.old.writer)
            (W.written it.serializer.now.writer)) }
        ensures encoding { IfOk result (λ it. it.encoding ≡ StructEncoding.DescribedMap) }
        ensures begun { IfOk result (λ it. HoldsFields W.begins (state_of W.written self.old)
            StructEncoding.DescribedMap code [] it.outer it.content
            (state_of W.written it.serializer.now)) }
        ensures refused { (value : Item) → OnlyWhere result
            (serialized (state_of W.written self.old) (described (scalar (ulong code)) value)) }
        ensures memory { WantsMemory W.takes_memory result }
    {
        let outer = self.mark();
        self.begin_described(code)?;
        Ok(StructSerializer::begin(self, StructEncoding::DescribedMap, outer))
    }
}

impl<'a, W: Sink> StructSerializer<'a, W> {
    /// Begins the list or the map of a struct.
    #[tactic(auto, using(crate::proofs::Grown::growing, crate::proofs::Held::holding))]
    fn begin(
        serializer: &'a mut Serializer<W>,
        encoding: StructEncoding,
        outer: Opened,
    ) -> StructSerializer<'a, W>
        ensures same_reference { result.serializer.ghost_name ≡ serializer.entry.ghost_name }
        ensures kept { Keeps (W.written serializer.old.writer)
            (W.written result.serializer.now.writer) }
        ensures encoding { result.encoding ≡ encoding }
        ensures outer { result.outer ≡ outer }
        ensures begun { Holds W.begins (state_of W.written serializer.old) [] result.content
            (state_of W.written result.serializer.now) }
    {
        let content = serializer.begin_content();
        StructSerializer {
            serializer,
            outer,
            content,
            encoding,
        }
    }

    /// Writes the next field. The name is written where the struct is a map. Any error but `Memory` comes
    /// exactly where the value or a name that is written has no canonical text. The struct is as before then.
    #[tactic(auto, using(crate::proofs::Grown::growing, crate::proofs::Held::holding, crate::proofs::Composed::composing))]
    pub fn serialize_field<T: Serialize>(&mut self, key: &str, value: &T) -> Result<(), Error>
        ensures same_reference { self.new.serializer.ghost_name ≡ self.old.serializer.ghost_name }
        ensures encoding { self.new.encoding ≡ self.old.encoding }
        ensures outer { self.new.outer ≡ self.old.outer }
        ensures ok { OnOk result ((s : State) (code : ℕ) (fields : List (Item × Item)) →
            HoldsFields W.begins s self.old.encoding code fields self.old.outer self.old.content
            (state_of W.written self.old.serializer.now) →
            HoldsFields W.begins s self.old.encoding code
            (fields ++ (scalar (symbol key.now), T.item value.now) ∷ []) self.old.outer
            self.new.content (state_of W.written self.new.serializer.now)) }
        ensures err { OnErr result ((self.new.content ≡ self.old.content)
            × (state_of W.written self.new.serializer.now
            ≡ state_of W.written self.old.serializer.now)) }
        ensures kept { Keeps (W.written self.old.serializer.now.writer)
            (W.written self.new.serializer.now.writer) }
        ensures refused { (s : State) (code : ℕ) (fields others : List (Item × Item)) →
            HoldsFields W.begins s self.old.encoding code fields self.old.outer self.old.content
            (state_of W.written self.old.serializer.now) →
            OnlyWhere result
            (serialized s (struct_item self.old.encoding code
            (fields ++ (scalar (symbol key.now), T.item value.now) ∷ others))) }
        ensures memory { WantsMemory W.takes_memory result }
    {
        match self.encoding {
            StructEncoding::DescribedMap => {
                self.content = self
                    .serializer
                    .put_entry(self.content, &Name { text: key }, value)?;
                Ok(())
            }
            _ => {
                self.content = self.serializer.put_item(self.content, value)?;
                Ok(())
            }
        }
    }

    /// Ends the struct, or answers `InvalidLength` where its list or map takes 2^32 - 4 bytes or more. In an
    /// array a list without a descriptor is refused with `InvalidValue` behind an element that is no list. After
    /// an error all is as before the struct began.
    #[tactic(auto, using(crate::proofs::Grown::growing, crate::proofs::Held::holding, crate::proofs::Composed::composing))]
    pub fn end(self) -> Result<(), Error>
        ensures ok { OnOk result ((s : State) (code : ℕ) (fields : List (Item × Item)) →
            HoldsFields W.begins s self.entry.encoding code fields self.entry.outer
            self.entry.content (state_of W.written self.entry.serializer.now) →
            serialized s (struct_item self.entry.encoding code fields)
            ≡ Some (state_of W.written self.exit.0.now)) }
        ensures err { OnErr result ((s : Serializer W) (code : ℕ) (fields : List (Item × Item))
            → HoldsFields W.begins (state_of W.written s) self.entry.encoding code fields
            self.entry.outer self.entry.content (state_of W.written self.entry.serializer.now)
            → state_of W.written self.exit.0.now ≡ state_of W.written s) }
        ensures refused { (s : State) (code : ℕ) (fields : List (Item × Item)) →
            HoldsFields W.begins s self.entry.encoding code fields self.entry.outer
            self.entry.content (state_of W.written self.entry.serializer.now) →
            OnlyWhere result (serialized s (struct_item self.entry.encoding code fields)) }
        ensures memory { WantsMemory W.takes_memory result }
    {
        let StructSerializer {
            serializer,
            outer,
            content,
            encoding,
        } = self;
        let Err(error) = serializer.close_struct(encoding, content) else {
            return Ok(());
        };
        Err(serializer.take_back(outer, error))
    }
}

impl<W: Sink> Serializer<W> {
    /// Ends the list or the map of a struct. After an error the beginning of it may stand there.
    #[tactic(auto, using(crate::proofs::Grown::growing, crate::proofs::Held::holding, crate::proofs::Composed::composing))]
    fn close_struct(&mut self, encoding: StructEncoding, content: Content) -> Result<(), Error>
        ensures ok { OnOk result ((s : State) (code : ℕ) (fields : List (Item × Item))
            (outer : Opened) → HoldsFields W.begins s encoding code fields outer content
            (state_of W.written self.old) →
            serialized s (struct_item encoding code fields) ≡ Some (state_of W.written self.new)) }
        ensures kept { (s : State) (code : ℕ) (fields : List (Item × Item)) (outer : Opened) →
            HoldsFields W.begins s encoding code fields outer content
            (state_of W.written self.old) → Keeps s.written (W.written self.new.writer) }
        ensures refused { (s : State) (code : ℕ) (fields : List (Item × Item)) (outer : Opened) →
            HoldsFields W.begins s encoding code fields outer content
            (state_of W.written self.old) →
            OnlyWhere result (serialized s (struct_item encoding code fields)) }
        ensures memory { WantsMemory W.takes_memory result }
    {
        match encoding {
            StructEncoding::DescribedMap => self.close_map_content(content),
            StructEncoding::None => self.close_list_content(content),
            StructEncoding::DescribedList => self.close_list_content(content),
            StructEncoding::DescribedBasic => self.close_list_content(content),
        }
    }
}

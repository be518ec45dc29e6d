//! Lists, arrays and maps that are read item by item, and described values.
ghost use Rattle.std.specs.Prelude.{◌≡◌, ◌≢◌, ◌⊎◌, ◌%◌, ◌∷◌, [], ℕ, List, IfOk, IfErr, OnOk, OnErr, MatchOption};
ghost use Rattle.std.specs.Prelude.{Option, Some, None};
ghost use Rattle.std.specs.Borrow.{RestsIfErr, sem};
ghost use Rattle.serde_amqp_item.specs.declared.error.Error.TheVariants.{SequenceLengthMismatch, InvalidLength};
ghost use Rattle.serde_amqp_item.specs.Item.{Item, items_of, pairs_of, scalar, uint, list, array, map, described};
ghost use Rattle.serde_amqp_item.specs.Kind.{list_kind, array_kind, map_kind, described_kind};
ghost use Rattle.serde_amqp_read.specs.Reads.{Unless};
ghost use Rattle.serde_amqp_de.specs.Names.{Names, NamesCount, Named};
ghost use Rattle.serde_amqp_de.specs.Reads.{At, Reads, Refuses, HasFailed, at_of};
ghost use Rattle.serde_amqp_de.specs.Takes.{uint_taken, list_taken, array_taken, described_taken};
ghost use Rattle.serde_amqp_de.specs.Maps.{map_taken, RefusesPairs};
ghost use Rattle.serde_amqp_de.specs.Open.{a_list, an_array, a_map, a_described_value, counted_taken, variant_taken};
ghost use Rattle.serde_amqp_de.specs.Open.{in_turn, HasRead, TookNext, TookEntry, IsNot, NamesEnd};
ghost use Rattle.serde_amqp_de.specs.contracts.deserializer.Deserializer.{the_row};

use crate::content::Content;
use crate::deserialize::Deserialize;
use crate::deserializer::Deserializer;
use serde_amqp_item::Error;
use serde_amqp_read::Read;
use std::alloc::Global;

/// The items of a list that are left to read.
#[derive(Drop)]
pub struct ListAccess<'a, R> {
    /// The list, of which some items were read.
    pub content: Content<'a, R>,
}

impl<R: Read> Deserializer<R> {
    /// Begins to read a list item by item (part 1, section 1.6.22).
    ///
    /// Errors: as for `list_head`. After an error the reader has failed.
    pub fn deserialize_seq<'a>(&'a mut self) -> Result<ListAccess<'a, R>, Error>
        ensures* failed { sem 𝓛 (RestsIfErr (the_row R.row) self.entry
            (λ a. a.content.de.ghost_name) result (λ d. HasFailed R.rest d)) }
        ensures same_reference { IfOk result
            (λ a. a.content.de.ghost_name ≡ self.entry.ghost_name) }
        ensures begun { IfOk result (λ a. HasRead R.rest a_list None self.old.element
            (at_of R.rest self.old) [] a.content) }
        ensures refused { Unless R.faulty result
            (Refuses list_taken self.old.element (at_of R.rest self.old)) }
        ensures named { Named R.faulty result
            (Names list_kind self.old.element (R.rest self.old.reader)) }
    {
        let outer = self.element();
        let head = self.list_head();
        let (left, end) = self.bounded(head)?;
        self.set_element(None);
        Ok(ListAccess {
            content: Content {
                de: self,
                outer,
                left,
                end: Some(end),
            },
        })
    }

    /// Begins to read a list of so many items, item by item (part 1, section 1.6.22).
    ///
    /// Errors: as for `list_head`, and `SequenceLengthMismatch` for any other number of items. After an
    /// error the reader has failed.
    #[tactic(auto, using(crate::proofs::Opened::others))]
    pub fn deserialize_tuple<'a>(&'a mut self, len: usize) -> Result<ListAccess<'a, R>, Error>
        ensures* failed { sem 𝓛 (RestsIfErr (the_row R.row) self.entry
            (λ a. a.content.de.ghost_name) result (λ d. HasFailed R.rest d)) }
        ensures same_reference { IfOk result
            (λ a. a.content.de.ghost_name ≡ self.entry.ghost_name) }
        ensures begun { IfOk result (λ a. HasRead R.rest a_list None self.old.element
            (at_of R.rest self.old) [] a.content) }
        ensures left { IfOk result (λ a. a.content.left ≡ len) }
        ensures refused { Unless R.faulty result
            (Refuses (counted_taken len) self.old.element (at_of R.rest self.old)) }
        ensures named { Named R.faulty result
            (NamesCount SequenceLengthMismatch len list_kind self.old.element
            (R.rest self.old.reader)) }
    {
        let outer = self.element();
        let head = self.list_head();
        let (left, end) = self.bounded(head)?;
        if left != len {
            self.fail();
            return Err(Error::SequenceLengthMismatch);
        }
        self.set_element(None);
        Ok(ListAccess {
            content: Content {
                de: self,
                outer,
                left,
                end: Some(end),
            },
        })
    }
}

impl<'a, R: Read> ListAccess<'a, R> {
    /// Reads the next item of the list; none where no more are left.
    ///
    /// Errors: as for `T::read`. After an error the reader has failed.
    pub fn next_element<T: Deserialize>(&mut self, alloc: Global) -> Result<Option<T>, Error>
        ensures same_reference { self.new.content.de.ghost_name ≡ self.old.content.de.ghost_name }
        ensures ok { IfOk result (λ o. MatchOption o
            ((self.old.content.left ≡ 0) × (self.new ≡ self.old))
            (λ v. TookNext R.rest T.take self.old.content self.new.content (T.item v))) }
        ensures refused { Unless R.faulty result
            ((self.old.content.left ≢ 0) × Refuses T.take self.old.content.de.now.element
            (at_of R.rest self.old.content.de.now)) }
        ensures failed { OnErr result (HasFailed R.rest self.new.content.de.now
            × (self.new.content.left ≢ 0)) }
    {
        self.content.next(alloc)
    }

    /// Ends the list. Items that were not read are refused with `SequenceLengthMismatch`, and a size
    /// that isn't theirs with `InvalidLength`. After an error the reader has failed.
    pub fn end(self) -> Result<(), Error>
        ensures all { OnOk result (self.entry.content.left ≡ 0) }
        ensures ok { OnOk result ((j k : Option ℕ) (old : At) (xs : List Item) →
            HasRead R.rest a_list j k old xs self.entry.content →
            Reads k old (at_of R.rest self.exit.0.0.now) (list (items_of xs))
            × (self.exit.0.0.now.element ≡ k)) }
        ensures refused { OnErr result ((j k : Option ℕ) (old : At) (xs : List Item) →
            HasRead R.rest a_list j k old xs self.entry.content →
            IsNot k old (list (items_of xs))) }
        ensures failed { OnErr result (HasFailed R.rest self.exit.0.0.now) }
        ensures named { IfErr result (λ e. NamesEnd self.entry.content.left self.entry.content.end
            self.entry.content.de.now.pos e) }
    {
        let outer = self.content.outer;
        let left = self.content.left;
        let end = self.content.end;
        self.content.de.finish(outer, left, end)
    }
}

/// The elements of an array that are left to read.
#[derive(Drop)]
pub struct ArrayAccess<'a, R> {
    /// The array, of which some elements were read.
    pub content: Content<'a, R>,
}

impl<R: Read> Deserializer<R> {
    /// Begins to read an array element by element (part 1, section 1.6.24).
    ///
    /// Errors: as for `array_head`. After an error the reader has failed.
    pub fn deserialize_array<'a>(&'a mut self) -> Result<ArrayAccess<'a, R>, Error>
        ensures* failed { sem 𝓛 (RestsIfErr (the_row R.row) self.entry
            (λ a. a.content.de.ghost_name) result (λ d. HasFailed R.rest d)) }
        ensures same_reference { IfOk result
            (λ a. a.content.de.ghost_name ≡ self.entry.ghost_name) }
        ensures begun { IfOk result (λ a. HasRead R.rest an_array a.content.de.now.element
            self.old.element (at_of R.rest self.old) [] a.content) }
        ensures refused { Unless R.faulty result
            (Refuses array_taken self.old.element (at_of R.rest self.old)) }
        ensures named { Named R.faulty result
            (Names array_kind self.old.element (R.rest self.old.reader)) }
    {
        let outer = self.element();
        let head = self.array_head();
        let (left, end) = self.bounded(head)?;
        Ok(ArrayAccess {
            content: Content {
                de: self,
                outer,
                left,
                end: Some(end),
            },
        })
    }
}

impl<'a, R: Read> ArrayAccess<'a, R> {
    /// Reads the next element of the array; none where no more are left.
    ///
    /// Errors: as for `T::read`. After an error the reader has failed.
    pub fn next_element<T: Deserialize>(&mut self, alloc: Global) -> Result<Option<T>, Error>
        ensures same_reference { self.new.content.de.ghost_name ≡ self.old.content.de.ghost_name }
        ensures ok { IfOk result (λ o. MatchOption o
            ((self.old.content.left ≡ 0) × (self.new ≡ self.old))
            (λ v. TookNext R.rest T.take self.old.content self.new.content (T.item v))) }
        ensures refused { Unless R.faulty result
            ((self.old.content.left ≢ 0) × Refuses T.take self.old.content.de.now.element
            (at_of R.rest self.old.content.de.now)) }
        ensures failed { OnErr result (HasFailed R.rest self.new.content.de.now
            × (self.new.content.left ≢ 0)) }
    {
        self.content.next(alloc)
    }

    /// Ends the array. Elements that were not read are refused with `SequenceLengthMismatch`, and a size
    /// that isn't theirs with `InvalidLength`. After an error the reader has failed.
    pub fn end(self) -> Result<(), Error>
        ensures all { OnOk result (self.entry.content.left ≡ 0) }
        ensures ok { OnOk result ((j k : Option ℕ) (old : At) (xs : List Item) →
            HasRead R.rest an_array j k old xs self.entry.content →
            Reads k old (at_of R.rest self.exit.0.0.now) (array (items_of xs))
            × (self.exit.0.0.now.element ≡ k)) }
        ensures refused { OnErr result ((j k : Option ℕ) (old : At) (xs : List Item) →
            HasRead R.rest an_array j k old xs self.entry.content →
            IsNot k old (array (items_of xs))) }
        ensures failed { OnErr result (HasFailed R.rest self.exit.0.0.now) }
        ensures named { IfErr result (λ e. NamesEnd self.entry.content.left self.entry.content.end
            self.entry.content.de.now.pos e) }
    {
        let outer = self.content.outer;
        let left = self.content.left;
        let end = self.content.end;
        self.content.de.finish(outer, left, end)
    }
}

/// The keys and values of a map that are left to read.
#[derive(Drop)]
pub struct MapAccess<'a, R> {
    /// The map, of which some keys and values were read, in turn.
    pub content: Content<'a, R>,
}

impl<R: Read> Deserializer<R> {
    /// Begins to read a map key by key and value by value (part 1, section 1.6.23).
    ///
    /// Errors: as for `map_head`. After an error the reader has failed.
    pub fn deserialize_map<'a>(&'a mut self) -> Result<MapAccess<'a, R>, Error>
        ensures* failed { sem 𝓛 (RestsIfErr (the_row R.row) self.entry
            (λ a. a.content.de.ghost_name) result (λ d. HasFailed R.rest d)) }
        ensures same_reference { IfOk result
            (λ a. a.content.de.ghost_name ≡ self.entry.ghost_name) }
        ensures begun { IfOk result (λ a. HasRead R.rest a_map None self.old.element
            (at_of R.rest self.old) [] a.content) }
        ensures even { IfOk result (λ a. a.content.left % 2 ≡ 0) }
        ensures refused { Unless R.faulty result
            (Refuses map_taken self.old.element (at_of R.rest self.old)) }
        ensures named { Named R.faulty result
            (Names map_kind self.old.element (R.rest self.old.reader)) }
    {
        let outer = self.element();
        let head = self.map_head();
        let (left, end) = self.bounded(head)?;
        self.set_element(None);
        Ok(MapAccess {
            content: Content {
                de: self,
                outer,
                left,
                end: Some(end),
            },
        })
    }
}

impl<'a, R: Read> MapAccess<'a, R> {
    /// Reads the next key; none where no more are left.
    ///
    /// Errors: as for `K::read`, and `SequenceLengthMismatch` where a value comes next. After an error
    /// the reader has failed.
    #[tactic(auto, using(crate::proofs::Opened::turns))]
    pub fn next_key<K: Deserialize>(&mut self, alloc: Global) -> Result<Option<K>, Error>
        ensures same_reference { self.new.content.de.ghost_name ≡ self.old.content.de.ghost_name }
        ensures due { OnOk result (self.old.content.left % 2 ≡ 0) }
        ensures ok { IfOk result (λ o. MatchOption o
            ((self.old.content.left ≡ 0) × (self.new ≡ self.old))
            (λ v. TookNext R.rest K.take self.old.content self.new.content (K.item v))) }
        ensures refused { Unless R.faulty result
            ((self.old.content.left % 2 ≢ 0)
            ⊎ ((self.old.content.left ≢ 0) × Refuses K.take self.old.content.de.now.element
            (at_of R.rest self.old.content.de.now))) }
        ensures failed { OnErr result (HasFailed R.rest self.new.content.de.now
            × (self.new.content.left ≢ 0)) }
    {
        if self.content.left % 2 != 0 {
            self.content.fail();
            return Err(Error::SequenceLengthMismatch);
        }
        self.content.next(alloc)
    }

    /// Reads the value of the key that was read.
    ///
    /// Errors: as for `V::read`, and `SequenceLengthMismatch` where no key stands before it. After an
    /// error the reader has failed.
    #[tactic(auto, using(crate::proofs::Opened::turns))]
    pub fn next_value<V: Deserialize>(&mut self, alloc: Global) -> Result<V, Error>
        ensures same_reference { self.new.content.de.ghost_name ≡ self.old.content.de.ghost_name }
        ensures due { OnOk result (self.old.content.left % 2 ≢ 0) }
        ensures ok { IfOk result (λ v. TookNext R.rest V.take self.old.content self.new.content
            (V.item v)) }
        ensures refused { Unless R.faulty result
            ((self.old.content.left % 2 ≡ 0)
            ⊎ Refuses V.take self.old.content.de.now.element
            (at_of R.rest self.old.content.de.now)) }
        ensures failed { OnErr result (HasFailed R.rest self.new.content.de.now
            × (self.new.content.left ≢ 0)) }
    {
        if self.content.left % 2 == 0 {
            self.content.fail();
            return Err(Error::SequenceLengthMismatch);
        }
        self.content.item(alloc)
    }

    /// Reads the next key and its value; none where no more are left.
    ///
    /// Errors: as for `next_key` and `next_value`. After an error the reader has failed.
    #[tactic(auto, using(crate::proofs::Opened::turns))]
    pub fn next_entry<K: Deserialize + Drop, V: Deserialize>(
        &mut self,
        alloc: Global,
    ) -> Result<Option<(K, V)>, Error>
        ensures same_reference { self.new.content.de.ghost_name ≡ self.old.content.de.ghost_name }
        ensures due { OnOk result (self.old.content.left % 2 ≡ 0) }
        ensures ok { IfOk result (λ o. MatchOption o
            ((self.old.content.left ≡ 0) × (self.new ≡ self.old))
            (λ p. TookEntry R.rest K.take V.take self.old.content self.new.content (K.item p.0)
            (V.item p.1))) }
        ensures refused { Unless R.faulty result
            ((self.old.content.left % 2 ≢ 0)
            ⊎ ((self.old.content.left ≢ 0) × (self.old.content.de.now.element ≡ None →
            RefusesPairs K.take V.take 1 (at_of R.rest self.old.content.de.now)))) }
        ensures failed { OnErr result (HasFailed R.rest self.new.content.de.now
            × (self.new.content.left ≢ 0)) }
    {
        let Some(key) = self.next_key::<K>(alloc)? else {
            return Ok(None);
        };
        let value = self.next_value::<V>(alloc)?;
        Ok(Some((key, value)))
    }

    /// Ends the map. Keys and values that were not read are refused with `SequenceLengthMismatch`, and a size
    /// that isn't theirs with `InvalidLength`. After an error the reader has failed.
    pub fn end(self) -> Result<(), Error>
        ensures all { OnOk result (self.entry.content.left ≡ 0) }
        ensures ok { OnOk result ((j k : Option ℕ) (old : At) (ps : List (Item × Item)) →
            HasRead R.rest a_map j k old (in_turn ps) self.entry.content →
            Reads k old (at_of R.rest self.exit.0.0.now) (map (pairs_of ps))
            × (self.exit.0.0.now.element ≡ k)) }
        ensures refused { OnErr result ((j k : Option ℕ) (old : At) (ps : List (Item × Item)) →
            HasRead R.rest a_map j k old (in_turn ps) self.entry.content →
            IsNot k old (map (pairs_of ps))) }
        ensures failed { OnErr result (HasFailed R.rest self.exit.0.0.now) }
        ensures named { IfErr result (λ e. NamesEnd self.entry.content.left self.entry.content.end
            self.entry.content.de.now.pos e) }
    {
        let outer = self.content.outer;
        let left = self.content.left;
        let end = self.content.end;
        self.content.de.finish(outer, left, end)
    }
}

/// A variant's index and its value, which are a map of one pair.
#[derive(Drop)]
pub struct VariantAccess<'a, R> {
    /// The map, of which the index may have been read, and the value behind it.
    pub content: Content<'a, R>,
}

impl<R: Read> Deserializer<R> {
    /// Begins to read a variant: a map of one pair, of its index as a uint and of its value.
    ///
    /// Errors: as for `map_head`, and `InvalidLength` for any other number of pairs. After an error the
    /// reader has failed.
    #[tactic(auto, using(crate::proofs::Opened::others))]
    pub fn deserialize_enum<'a>(&'a mut self) -> Result<VariantAccess<'a, R>, Error>
        ensures* failed { sem 𝓛 (RestsIfErr (the_row R.row) self.entry
            (λ a. a.content.de.ghost_name) result (λ d. HasFailed R.rest d)) }
        ensures same_reference { IfOk result
            (λ a. a.content.de.ghost_name ≡ self.entry.ghost_name) }
        ensures begun { IfOk result (λ a. HasRead R.rest a_map None self.old.element
            (at_of R.rest self.old) [] a.content) }
        ensures left { IfOk result (λ a. a.content.left ≡ 2) }
        ensures refused { Unless R.faulty result
            (Refuses variant_taken self.old.element (at_of R.rest self.old)) }
        ensures named { Named R.faulty result
            (NamesCount InvalidLength 2 map_kind self.old.element (R.rest self.old.reader)) }
    {
        let outer = self.element();
        let head = self.map_head();
        let (left, end) = self.bounded(head)?;
        if left != 2 {
            self.fail();
            return Err(Error::InvalidLength);
        }
        self.set_element(None);
        Ok(VariantAccess {
            content: Content {
                de: self,
                outer,
                left,
                end: Some(end),
            },
        })
    }
}

impl<'a, R: Read> VariantAccess<'a, R> {
    /// Reads the index of the variant.
    ///
    /// Errors: as for a uint, and `SequenceLengthMismatch` where it was read before. After an error the
    /// reader has failed.
    #[tactic(auto, using(crate::proofs::Opened::turns))]
    pub fn variant_index(&mut self, alloc: Global) -> Result<u32, Error>
        ensures same_reference { self.new.content.de.ghost_name ≡ self.old.content.de.ghost_name }
        ensures due { OnOk result (self.old.content.left ≡ 2) }
        ensures ok { IfOk result (λ n. TookNext R.rest uint_taken self.old.content self.new.content
            (scalar (uint n))) }
        ensures refused { Unless R.faulty result ((self.old.content.left ≢ 2) ⊎ Refuses uint_taken self.old.content.de.now.element (at_of R.rest self.old.content.de.now)) }
        ensures failed { OnErr result (HasFailed R.rest self.new.content.de.now
            × (self.new.content.left ≢ 0)) }
    {
        if self.content.left != 2 {
            self.content.fail();
            return Err(Error::SequenceLengthMismatch);
        }
        self.content.item(alloc)
    }

    /// Reads the value of the variant.
    ///
    /// Errors: as for `T::read`, and `SequenceLengthMismatch` where the index was not read, or the value
    /// was. After an error the reader has failed.
    #[tactic(auto, using(crate::proofs::Opened::turns))]
    pub fn newtype<T: Deserialize>(&mut self, alloc: Global) -> Result<T, Error>
        ensures same_reference { self.new.content.de.ghost_name ≡ self.old.content.de.ghost_name }
        ensures due { OnOk result (self.old.content.left ≡ 1) }
        ensures ok { IfOk result (λ v. TookNext R.rest T.take self.old.content self.new.content
            (T.item v)) }
        ensures refused { Unless R.faulty result
            ((self.old.content.left ≢ 1) ⊎ Refuses T.take self.old.content.de.now.element
            (at_of R.rest self.old.content.de.now)) }
        ensures failed { OnErr result (HasFailed R.rest self.new.content.de.now
            × (self.new.content.left ≢ 0)) }
    {
        if self.content.left != 1 {
            self.content.fail();
            return Err(Error::SequenceLengthMismatch);
        }
        self.content.item(alloc)
    }

    /// Ends the variant. A value that was not read is refused with `SequenceLengthMismatch`, and a size
    /// that isn't theirs with `InvalidLength`. After an error the reader has failed.
    pub fn end(self) -> Result<(), Error>
        ensures all { OnOk result (self.entry.content.left ≡ 0) }
        ensures ok { OnOk result ((j k : Option ℕ) (old : At) (x y : Item) →
            HasRead R.rest a_map j k old (x ∷ y ∷ []) self.entry.content →
            Reads k old (at_of R.rest self.exit.0.0.now) (map (pairs_of ((x, y) ∷ [])))
            × (self.exit.0.0.now.element ≡ k)) }
        ensures refused { OnErr result ((j k : Option ℕ) (old : At) (x y : Item) →
            HasRead R.rest a_map j k old (x ∷ y ∷ []) self.entry.content →
            IsNot k old (map (pairs_of ((x, y) ∷ [])))) }
        ensures failed { OnErr result (HasFailed R.rest self.exit.0.0.now) }
        ensures named { IfErr result (λ e. NamesEnd self.entry.content.left self.entry.content.end
            self.entry.content.de.now.pos e) }
    {
        let outer = self.content.outer;
        let left = self.content.left;
        let end = self.content.end;
        self.content.de.finish(outer, left, end)
    }
}

/// A descriptor and the value that it describes.
#[derive(Drop)]
pub struct DescribedAccess<'a, R> {
    /// The described value, of which the descriptor may have been read, and the value behind it.
    pub content: Content<'a, R>,
}

impl<R: Read> Deserializer<R> {
    /// Begins to read a described value (part 1, section 1.2).
    ///
    /// Errors: `Io` where the input ends; `InvalidFormatCode` for any other type. After an error the
    /// reader has failed.
    pub fn deserialize_described<'a>(&'a mut self) -> Result<DescribedAccess<'a, R>, Error>
        ensures* failed { sem 𝓛 (RestsIfErr (the_row R.row) self.entry
            (λ a. a.content.de.ghost_name) result (λ d. HasFailed R.rest d)) }
        ensures same_reference { IfOk result
            (λ a. a.content.de.ghost_name ≡ self.entry.ghost_name) }
        ensures begun { IfOk result (λ a. HasRead R.rest a_described_value None self.old.element
            (at_of R.rest self.old) [] a.content) }
        ensures left { IfOk result (λ a. a.content.left ≡ 2) }
        ensures refused { Unless R.faulty result
            (Refuses described_taken self.old.element (at_of R.rest self.old)) }
        ensures named { Named R.faulty result
            (Names described_kind self.old.element (R.rest self.old.reader)) }
    {
        let outer = self.element();
        match self.described() {
            Ok(()) => Ok(DescribedAccess {
                content: Content {
                    de: self,
                    outer,
                    left: 2,
                    end: None,
                },
            }),
            Err(e) => {
                self.fail();
                Err(e)
            }
        }
    }
}

impl<'a, R: Read> DescribedAccess<'a, R> {
    /// Reads the descriptor.
    ///
    /// Errors: as for `T::read`, and `SequenceLengthMismatch` where it was read before. After an error
    /// the reader has failed.
    #[tactic(auto, using(crate::proofs::Opened::turns))]
    pub fn descriptor<T: Deserialize>(&mut self, alloc: Global) -> Result<T, Error>
        ensures same_reference { self.new.content.de.ghost_name ≡ self.old.content.de.ghost_name }
        ensures due { OnOk result (self.old.content.left ≡ 2) }
        ensures ok { IfOk result (λ v. TookNext R.rest T.take self.old.content self.new.content
            (T.item v)) }
        ensures refused { Unless R.faulty result ((self.old.content.left ≢ 2) ⊎ Refuses T.take self.old.content.de.now.element (at_of R.rest self.old.content.de.now)) }
        ensures failed { OnErr result (HasFailed R.rest self.new.content.de.now
            × (self.new.content.left ≢ 0)) }
    {
        if self.content.left != 2 {
            self.content.fail();
            return Err(Error::SequenceLengthMismatch);
        }
        self.content.item(alloc)
    }

    /// Reads the value that the descriptor describes.
    ///
    /// Errors: as for `T::read`, and `SequenceLengthMismatch` where the descriptor was not read, or the
    /// value was. After an error the reader has failed.
    #[tactic(auto, using(crate::proofs::Opened::turns))]
    pub fn value<T: Deserialize>(&mut self, alloc: Global) -> Result<T, Error>
        ensures same_reference { self.new.content.de.ghost_name ≡ self.old.content.de.ghost_name }
        ensures due { OnOk result (self.old.content.left ≡ 1) }
        ensures ok { IfOk result (λ v. TookNext R.rest T.take self.old.content self.new.content
            (T.item v)) }
        ensures refused { Unless R.faulty result
            ((self.old.content.left ≢ 1) ⊎ Refuses T.take self.old.content.de.now.element
            (at_of R.rest self.old.content.de.now)) }
        ensures failed { OnErr result (HasFailed R.rest self.new.content.de.now
            × (self.new.content.left ≢ 0)) }
    {
        if self.content.left != 1 {
            self.content.fail();
            return Err(Error::SequenceLengthMismatch);
        }
        self.content.item(alloc)
    }

    /// Ends the described value. A descriptor or a value that was not read is refused with
    /// `SequenceLengthMismatch`. After an error the reader has failed.
    pub fn end(self) -> Result<(), Error>
        ensures all { OnOk result (self.entry.content.left ≡ 0) }
        ensures ok { OnOk result ((j k : Option ℕ) (old : At) (d v : Item) →
            HasRead R.rest a_described_value j k old (d ∷ v ∷ []) self.entry.content →
            Reads k old (at_of R.rest self.exit.0.0.now) (described d v)
            × (self.exit.0.0.now.element ≡ k)) }
        ensures refused { OnErr result ((j k : Option ℕ) (old : At) (d v : Item) →
            HasRead R.rest a_described_value j k old (d ∷ v ∷ []) self.entry.content →
            IsNot k old (described d v)) }
        ensures failed { OnErr result (HasFailed R.rest self.exit.0.0.now) }
        ensures named { IfErr result (λ e. NamesEnd self.entry.content.left self.entry.content.end
            self.entry.content.de.now.pos e) }
    {
        let outer = self.content.outer;
        let left = self.content.left;
        let end = self.content.end;
        self.content.de.finish(outer, left, end)
    }
}

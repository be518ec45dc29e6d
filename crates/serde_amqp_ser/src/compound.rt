//! Values that hold others: lists and arrays.
ghost use Rattle.std.specs.Prelude.{◌≡◌, ◌≤◌, ◌<◌, ◌∷◌, [], ℕ, ◌+◌, List, ◌++◌, length, map, Some, None, OnOk, OnErr};
ghost use Rattle.serde_amqp_item.specs.Item.{Item, Items, list, array, items_of, item_count};
ghost use Rattle.serde_amqp_item.specs.Canon.{alone, settled, elements};
ghost use Rattle.std.specs.Int.{w32, to_be_bytes};
ghost use Rattle.serde_amqp_ser.specs.Written.{Written, extended, inside, Keeps};
ghost use Rattle.serde_amqp_ser.specs.Open.{IsRoomy};
ghost use Rattle.serde_amqp_ser.specs.Puts.{State, behind, serialized, counted_placed, listed, OnlyWhere, WantsMemory};
ghost use Rattle.serde_amqp_ser.specs.Puts.{place_of, state_of};

use crate::place::IsArrayElement;
use crate::serialize::Serialize;
use crate::serializer::Serializer;
use crate::sink::Sink;
use serde_amqp_item::Error;

impl<W: Sink> Serializer<W> {
    /// Puts a constructor, a size and a count of four bytes each in front of content.
    #[tactic(auto, using(crate::proofs::Grown::growing))]
    fn close_wide(&mut self, start: u128, code: u8, size: u32, count: u32) -> Result<(), Error>
        ensures ok { OnOk result ((w : Written) (content : List ℕ) →
            W.written self.old.writer ≡ extended (inside W.begins w) content → w.size ≡ start →
            behind (record { written = w; place = place_of self.old.element })
            (settled (place_of self.old.element)
            (code, to_be_bytes w32 size ++ to_be_bytes w32 count ++ content))
            ≡ Some (state_of W.written self.new)) }
        ensures kept { (w : Written) (content : List ℕ) →
            W.written self.old.writer ≡ extended (inside W.begins w) content → w.size ≡ start →
            Keeps w (W.written self.new.writer) }
        ensures refused { (w : Written) (content : List ℕ) →
            W.written self.old.writer ≡ extended (inside W.begins w) content → w.size ≡ start →
            OnlyWhere result (behind (record { written = w; place = place_of self.old.element })
            (settled (place_of self.old.element)
            (code, to_be_bytes w32 size ++ to_be_bytes w32 count ++ content))) }
        ensures memory { WantsMemory W.takes_memory result }
    {
        let [s0, s1, s2, s3] = size.to_be_bytes();
        let [c0, c1, c2, c3] = count.to_be_bytes();
        let head = [code, s0, s1, s2, s3, c0, c1, c2, c3];
        match self.element {
            IsArrayElement::False => {
                self.writer.close(start, &head)?;
                Ok(())
            }
            IsArrayElement::FirstElement => {
                self.writer.close(start, &head)?;
                self.element = IsArrayElement::OtherElement(code);
                Ok(())
            }
            IsArrayElement::OtherElement(first) => {
                if first != code {
                    return Err(Error::InvalidValue);
                }
                self.writer.close(start, &head[1..])?;
                Ok(())
            }
        }
    }

    /// Puts a constructor, a size and a count in front of the content that began there: each number in
    /// one byte up to 254 bytes of content and outside of arrays, else in four (part 1, 1.6.22 to 1.6.24).
    #[inline(always)]
    #[tactic(auto, using(crate::proofs::Grown::growing))]
    pub(crate) fn close_counted(
        &mut self,
        start: u128,
        count: usize,
        narrow: u8,
        wide: u8,
    ) -> Result<(), Error>
        ensures ok { OnOk result ((w : Written) (content : List ℕ) →
            W.written self.old.writer ≡ extended (inside W.begins w) content → w.size ≡ start →
            behind (record { written = w; place = place_of self.old.element })
            (counted_placed (place_of self.old.element) narrow wide count content)
            ≡ Some (state_of W.written self.new)) }
        ensures kept { (w : Written) (content : List ℕ) →
            W.written self.old.writer ≡ extended (inside W.begins w) content → w.size ≡ start →
            Keeps w (W.written self.new.writer) }
        ensures refused { (w : Written) (content : List ℕ) →
            W.written self.old.writer ≡ extended (inside W.begins w) content → w.size ≡ start →
            count ≤ length content → OnlyWhere result
            (behind (record { written = w; place = place_of self.old.element })
            (counted_placed (place_of self.old.element) narrow wide count content)) }
        ensures memory { WantsMemory W.takes_memory result }
    {
        let Some(len) = self.writer.content_len(start) else {
            return Err(Error::InvalidLength);
        };
        if let IsArrayElement::False = self.element {
            if len < 255 {
                let Ok(count) = u8::try_from(count) else {
                    return Err(Error::InvalidLength);
                };
                self.writer.close(start, &[narrow, len as u8 + 1, count])?;
                return Ok(());
            }
        }
        let (Some(size), Ok(count)) = (len.checked_add(4), u32::try_from(count)) else {
            return Err(Error::InvalidLength);
        };
        self.close_wide(start, wide, size, count)
    }

    /// Ends a list that began there, by the number of its items.
    #[tactic(auto, using(crate::proofs::Grown::growing))]
    pub(crate) fn close_list(&mut self, start: u128, count: usize) -> Result<(), Error>
        ensures ok { OnOk result ((w : Written) (xs : Items) →
            listed (inside W.begins w) xs ≡ Some (W.written self.old.writer) → w.size ≡ start →
            item_count xs ≡ count → serialized
            (record { written = w; place = place_of self.old.element }) (list xs)
            ≡ Some (state_of W.written self.new)) }
        ensures kept { (w : Written) (xs : Items) →
            listed (inside W.begins w) xs ≡ Some (W.written self.old.writer) → w.size ≡ start →
            Keeps w (W.written self.new.writer) }
        ensures refused { (w : Written) (xs : Items) →
            listed (inside W.begins w) xs ≡ Some (W.written self.old.writer) → w.size ≡ start →
            item_count xs ≡ count → OnlyWhere result
            (serialized (record { written = w; place = place_of self.old.element }) (list xs)) }
        ensures memory { WantsMemory W.takes_memory result }
    {
        if let IsArrayElement::False = self.element {
            if let Some(0) = self.writer.content_len(start) {
                self.writer.close(start, &[0x45])?;
                return Ok(());
            }
        }
        self.close_counted(start, count, 0xc0, 0xd0)
    }

    /// Ends a list outside of arrays, by the number of its items: at `start` there is room for a head of three
    /// bytes, behind which its content begins. After an error the content may stand there.
    #[tactic(auto, using(crate::proofs::Grown::growing))]
    pub(crate) fn close_roomy_list(
        &mut self,
        start: u128,
        content: u128,
        count: u32,
    ) -> Result<(), Error>
        requires { place_of self.old.element ≡ alone }
        ensures ok { OnOk result ((v : W) (xs : Items) → IsRoomy W.begins (W.written v) start
            content xs (W.written self.old.writer) → item_count xs ≡ count → serialized
            (record { written = W.written v; place = alone }) (list xs)
            ≡ Some (state_of W.written self.new)) }
        ensures kept { (v : W) (xs : Items) → IsRoomy W.begins (W.written v) start content xs
            (W.written self.old.writer) → Keeps (W.written v) (W.written self.new.writer) }
        ensures refused { (v : W) (xs : Items) → IsRoomy W.begins (W.written v) start content xs
            (W.written self.old.writer) → item_count xs ≡ count → OnlyWhere result
            (serialized (record { written = W.written v; place = alone }) (list xs)) }
        ensures memory { WantsMemory W.takes_memory result }
    {
        let Some(len) = self.writer.content_len(content) else {
            return Err(Error::InvalidLength);
        };
        if len == 0 {
            self.writer.back_to(start);
            self.writer.put(&[0x45])?;
            return Ok(());
        }
        if len < 255 {
            let Ok(count) = u8::try_from(count) else {
                return Err(Error::InvalidLength);
            };
            self.writer.join(content);
            self.writer.overwrite(start, &[0xc0, len as u8 + 1, count]);
            return Ok(());
        }
        let Some(size) = len.checked_add(4) else {
            return Err(Error::InvalidLength);
        };
        let [s0, s1, s2, s3] = size.to_be_bytes();
        let [c0, c1, c2, c3] = count.to_be_bytes();
        self.writer.close(content, &[s2, s3, c0, c1, c2, c3])?;
        self.writer.overwrite(start, &[0xd0, s0, s1]);
        Ok(())
    }

    /// Ends an array that began there, by the number of its elements.
    #[tactic(auto, using(crate::proofs::Grown::growing))]
    fn close_array(&mut self, start: u128, count: usize) -> Result<(), Error>
        ensures ok { OnOk result ((w : Written) (xs : Items) (content : List ℕ) →
            elements xs ≡ Some content → W.written self.old.writer
            ≡ extended (inside W.begins w) content → w.size ≡ start → item_count xs ≡ count →
            serialized (record { written = w; place = place_of self.old.element }) (array xs)
            ≡ Some (state_of W.written self.new)) }
        ensures kept { (w : Written) (content : List ℕ) →
            W.written self.old.writer ≡ extended (inside W.begins w) content → w.size ≡ start →
            Keeps w (W.written self.new.writer) }
        ensures refused { (w : Written) (xs : Items) (content : List ℕ) →
            elements xs ≡ Some content → W.written self.old.writer
            ≡ extended (inside W.begins w) content → w.size ≡ start → item_count xs ≡ count →
            OnlyWhere result (serialized (record { written = w; place = place_of self.old.element })
            (array xs)) }
        ensures memory { WantsMemory W.takes_memory result }
    {
        self.close_counted(start, count, 0xe0, 0xf0)
    }

    /// Writes a list of these items. After an error the beginning of it may stand there.
    #[tactic(auto, using(crate::proofs::Grown::growing))]
    fn put_list<T: Serialize>(&mut self, items: &[T]) -> Result<(), Error>
        ensures ok { OnOk result (serialized (state_of W.written self.old)
            (list (items_of (map T.item items.now))) ≡ Some (state_of W.written self.new)) }
        ensures kept { Keeps (W.written self.old.writer) (W.written self.new.writer) }
        ensures refused { OnlyWhere result (serialized (state_of W.written self.old)
            (list (items_of (map T.item items.now)))) }
        ensures memory { WantsMemory W.takes_memory result }
    {
        let outer = self.element;
        let start = self.writer.open();
        self.element = IsArrayElement::False;
        for item in items {
            item.serialize(self)?;
        }
        self.element = outer;
        self.close_list(start, items.len())
    }

    /// Writes a list of these items, one behind the other (part 1, 1.6.22), or answers `InvalidLength`
    /// where they take 2^32 - 4 bytes or more.
    #[tactic(auto, using(crate::proofs::Grown::growing))]
    pub fn serialize_list<T: Serialize>(&mut self, items: &[T]) -> Result<(), Error>
        ensures ok { OnOk result (serialized (state_of W.written self.old)
            (list (items_of (map T.item items.now))) ≡ Some (state_of W.written self.new)) }
        ensures err { OnErr result (state_of W.written self.new ≡ state_of W.written self.old) }
        ensures kept { Keeps (W.written self.old.writer) (W.written self.new.writer) }
        ensures refused { OnlyWhere result (serialized (state_of W.written self.old)
            (list (items_of (map T.item items.now)))) }
        ensures memory { WantsMemory W.takes_memory result }
    {
        let mark = self.mark();
        match self.put_list(items) {
            Ok(()) => Ok(()),
            Err(error) => Err(self.take_back(mark, error)),
        }
    }

    /// Writes an array of these elements. After an error the beginning of it may stand there.
    #[tactic(auto, using(crate::proofs::Grown::growing))]
    fn put_array<T: Serialize>(&mut self, elements: &[T]) -> Result<(), Error>
        ensures ok { OnOk result (serialized (state_of W.written self.old)
            (array (items_of (map T.item elements.now))) ≡ Some (state_of W.written self.new)) }
        ensures kept { Keeps (W.written self.old.writer) (W.written self.new.writer) }
        ensures refused { OnlyWhere result (serialized (state_of W.written self.old)
            (array (items_of (map T.item elements.now)))) }
        ensures memory { WantsMemory W.takes_memory result }
    {
        let outer = self.element;
        let start = self.writer.open();
        if elements.is_empty() {
            self.writer.put(&[0x40])?;
            return self.close_array(start, 0);
        }
        self.element = IsArrayElement::FirstElement;
        for element in elements {
            element.serialize(self)?;
        }
        self.element = outer;
        self.close_array(start, elements.len())
    }

    /// Writes an array of these elements (part 1, 1.6.24): the constructor of the first, and each in its
    /// wide form; of no elements the constructor of null. Answers `InvalidValue` where an element has no
    /// wide form or another constructor, `InvalidLength` where they take 2^32 - 4 bytes or more.
    #[tactic(auto, using(crate::proofs::Grown::growing))]
    pub fn serialize_array<T: Serialize>(&mut self, elements: &[T]) -> Result<(), Error>
        ensures ok { OnOk result (serialized (state_of W.written self.old)
            (array (items_of (map T.item elements.now))) ≡ Some (state_of W.written self.new)) }
        ensures err { OnErr result (state_of W.written self.new ≡ state_of W.written self.old) }
        ensures kept { Keeps (W.written self.old.writer) (W.written self.new.writer) }
        ensures refused { OnlyWhere result (serialized (state_of W.written self.old)
            (array (items_of (map T.item elements.now)))) }
        ensures memory { WantsMemory W.takes_memory result }
    {
        let mark = self.mark();
        match self.put_array(elements) {
            Ok(()) => Ok(()),
            Err(error) => Err(self.take_back(mark, error)),
        }
    }
}

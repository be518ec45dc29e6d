//! Composite types, as described lists of their fields (part 1, 1.4).
ghost use Rattle.std.specs.Prelude.{◌≡◌, ◌≤◌, ◌∷◌, [], ℕ, ◌+◌, ◌-◌, ◌^◌, List, length, min, Some, OnOk, OnErr, IfOk};
ghost use Rattle.serde_amqp_item.specs.Item.{Item, items_of};
ghost use Rattle.serde_amqp_item.specs.Canon.{alone};
ghost use Rattle.serde_amqp_item.specs.Record.{all_null, trimmed, record_item};
ghost use Rattle.serde_amqp_ser.specs.Written.{Written, Keeps};
ghost use Rattle.serde_amqp_ser.specs.Puts.{State, serialized, listed, OnlyWhere, WantsMemory, state_of, place_of};

use crate::place::IsArrayElement;
use crate::serialize::Serialize;
use crate::serializer::Serializer;
use crate::sink::Sink;
use serde_amqp_item::Error;

/// The fields of a composite type: a pair of the first and the others, `()` where there are no more.
pub trait Fields {
    /// The items of the fields.
    ghost items: { Self → List Item };

    /// Whether every field is null.
    fn is_null(&self) -> bool
        ensures { result ≡ all_null (items self.now) };

    /// Writes the fields outside of arrays, without the nulls at the end, and says how many these are,
    /// 2^32 - 1 where there are more. After an error the first fields may stand there: what calls it goes back.
    fn put<W: Sink>(&self, s: &mut Serializer<W>) -> Result<u32, Error>
        requires { place_of s.old.element ≡ alone }
        ensures place { OnOk result (place_of s.new.element ≡ alone) }
        ensures count { IfOk result (λ n. n
            ≡ min (length (trimmed (items self.now))) (2 ^ 32 - 1)) }
        ensures ok { OnOk result (listed (W.written s.old.writer)
            (items_of (trimmed (items self.now))) ≡ Some (W.written s.new.writer)) }
        ensures kept { Keeps (W.written s.old.writer) (W.written s.new.writer) }
        ensures refused { OnlyWhere result (listed (W.written s.old.writer)
            (items_of (trimmed (items self.now)))) }
        ensures memory { WantsMemory W.takes_memory result };
}

/// No fields.
impl Fields for () {
    ghost items = { λ _. [] };

    fn is_null(&self) -> bool {
        true
    }

    #[tactic(auto, using(crate::proofs::Grown::growing))]
    fn put<W: Sink>(&self, _s: &mut Serializer<W>) -> Result<u32, Error> {
        Ok(0)
    }
}

/// The first field, and the others.
impl<H: Serialize, T: Fields> Fields for (H, T) {
    ghost items = { λ p. H.item p.0 ∷ T.items p.1 };

    fn is_null(&self) -> bool {
        self.0.is_null() && self.1.is_null()
    }

    #[tactic(auto, using(crate::proofs::Grown::growing, crate::proofs::Fronts::fronts))]
    fn put<W: Sink>(&self, s: &mut Serializer<W>) -> Result<u32, Error> {
        if Fields::is_null(self) {
            return Ok(0);
        }
        self.0.serialize(s)?;
        let others = self.1.put(s)?;
        Ok(others.saturating_add(1))
    }
}

/// Writes a composite value without fields. After an error the beginning of it may stand there.
#[tactic(auto, using(crate::proofs::Grown::growing))]
fn put_empty_record<W: Sink>(s: &mut Serializer<W>, code: u64) -> Result<(), Error>
    ensures ok { OnOk result (serialized (state_of W.written s.old) (record_item code [])
        ≡ Some (state_of W.written s.new)) }
    ensures kept { Keeps (W.written s.old.writer) (W.written s.new.writer) }
    ensures refused { OnlyWhere result (serialized (state_of W.written s.old)
        (record_item code [])) }
    ensures memory { WantsMemory W.takes_memory result }
{
    if let IsArrayElement::False = s.element {
        s.writer.put(&[0x00])?;
        s.serialize_u64(code)?;
        s.writer.put(&[0x45])?;
        return Ok(());
    }
    Err(Error::InvalidValue)
}

/// Writes a composite value with a field that isn't null: three bytes leave room for the head of its list.
/// After an error the beginning of it may stand there.
#[tactic(auto, using(crate::proofs::Grown::growing))]
fn put_filled_record<W: Sink, F: Fields>(
    s: &mut Serializer<W>,
    code: u64,
    fields: &F,
) -> Result<(), Error>
    ensures ok { OnOk result (serialized (state_of W.written s.old)
        (record_item code (F.items fields.now)) ≡ Some (state_of W.written s.new)) }
    ensures kept { Keeps (W.written s.old.writer) (W.written s.new.writer) }
    ensures refused { OnlyWhere result (serialized (state_of W.written s.old)
        (record_item code (F.items fields.now))) }
    ensures memory { WantsMemory W.takes_memory result }
{
    if let IsArrayElement::False = s.element {
        s.writer.put(&[0x00])?;
        s.serialize_u64(code)?;
        let start = s.writer.here();
        s.writer.put(&[0xc0, 0, 0])?;
        let content = s.writer.open();
        let count = fields.put(s)?;
        if count == u32::MAX {
            return Err(Error::InvalidLength);
        }
        return s.close_roomy_list(start, content, count);
    }
    Err(Error::InvalidValue)
}

/// Writes a composite value. After an error the beginning of it may stand there.
#[tactic(auto, using(crate::proofs::Grown::growing))]
fn put_record<W: Sink, F: Fields>(s: &mut Serializer<W>, code: u64, fields: &F) -> Result<(), Error>
    ensures ok { OnOk result (serialized (state_of W.written s.old)
        (record_item code (F.items fields.now)) ≡ Some (state_of W.written s.new)) }
    ensures kept { Keeps (W.written s.old.writer) (W.written s.new.writer) }
    ensures refused { OnlyWhere result (serialized (state_of W.written s.old)
        (record_item code (F.items fields.now))) }
    ensures memory { WantsMemory W.takes_memory result }
{
    if fields.is_null() {
        return put_empty_record(s, code);
    }
    put_filled_record(s, code, fields)
}

/// Writes a composite value with this descriptor: a described list of its fields without the nulls at
/// the end (part 1, 1.4). In an array it answers `InvalidValue`, since a described item has no wide form.
#[tactic(auto, using(crate::proofs::Grown::growing))]
pub fn serialize_record<W: Sink, F: Fields>(
    s: &mut Serializer<W>,
    code: u64,
    fields: &F,
) -> Result<(), Error>
    ensures ok { OnOk result (serialized (state_of W.written s.old)
        (record_item code (F.items fields.now)) ≡ Some (state_of W.written s.new)) }
    ensures err { OnErr result (state_of W.written s.new ≡ state_of W.written s.old) }
    ensures kept { Keeps (W.written s.old.writer) (W.written s.new.writer) }
    ensures refused { OnlyWhere result (serialized (state_of W.written s.old)
        (record_item code (F.items fields.now))) }
    ensures memory { WantsMemory W.takes_memory result }
{
    let mark = s.mark();
    match put_record(s, code, fields) {
        Ok(()) => Ok(()),
        Err(error) => Err(s.take_back(mark, error)),
    }
}

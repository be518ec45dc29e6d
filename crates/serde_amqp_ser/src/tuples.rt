//! Tuples, as lists of their parts.
ghost use Rattle.std.specs.Prelude.{◌≡◌, ◌∷◌, [], Some, OnOk};
ghost use Rattle.serde_amqp_item.specs.Item.{list, items_of};
ghost use Rattle.serde_amqp_ser.specs.Written.{Keeps};
ghost use Rattle.serde_amqp_ser.specs.Puts.{serialized, OnlyWhere, WantsMemory, state_of};

use crate::serialize::Serialize;
use crate::serializer::Serializer;
use crate::sink::Sink;
use serde_amqp_item::Error;

/// A list of one item.
impl<A: Serialize> Serialize for (A,) {
    ghost item = { λ p. list (items_of (A.item p.0 ∷ [])) };

    fn is_null(&self) -> bool {
        false
    }

    #[tactic(auto, using(crate::proofs::Grown::growing))]
    fn serialize<W: Sink>(&self, s: &mut Serializer<W>) -> Result<(), Error> {
        let mark = s.mark();
        match put_one(self, s) {
            Ok(()) => Ok(()),
            Err(error) => Err(s.take_back(mark, error)),
        }
    }
}

/// A list of two items.
impl<A: Serialize, B: Serialize> Serialize for (A, B) {
    ghost item = { λ p. list (items_of (A.item p.0 ∷ B.item p.1 ∷ [])) };

    fn is_null(&self) -> bool {
        false
    }

    #[tactic(auto, using(crate::proofs::Grown::growing))]
    fn serialize<W: Sink>(&self, s: &mut Serializer<W>) -> Result<(), Error> {
        let mark = s.mark();
        match put_two(self, s) {
            Ok(()) => Ok(()),
            Err(error) => Err(s.take_back(mark, error)),
        }
    }
}

/// A list of three items.
impl<A: Serialize, B: Serialize, C: Serialize> Serialize for (A, B, C) {
    ghost item = { λ p. list (items_of (A.item p.0 ∷ B.item p.1 ∷ C.item p.2 ∷ [])) };

    fn is_null(&self) -> bool {
        false
    }

    #[tactic(auto, using(crate::proofs::Grown::growing))]
    fn serialize<W: Sink>(&self, s: &mut Serializer<W>) -> Result<(), Error> {
        let mark = s.mark();
        match put_three(self, s) {
            Ok(()) => Ok(()),
            Err(error) => Err(s.take_back(mark, error)),
        }
    }
}

/// A list of four items.
impl<A: Serialize, B: Serialize, C: Serialize, D: Serialize> Serialize for (A, B, C, D) {
    ghost item = { λ p. list (items_of (A.item p.0 ∷ B.item p.1 ∷ C.item p.2 ∷ D.item p.3 ∷ [])) };

    fn is_null(&self) -> bool {
        false
    }

    #[tactic(auto, using(crate::proofs::Grown::growing))]
    fn serialize<W: Sink>(&self, s: &mut Serializer<W>) -> Result<(), Error> {
        let mark = s.mark();
        match put_four(self, s) {
            Ok(()) => Ok(()),
            Err(error) => Err(s.take_back(mark, error)),
        }
    }
}

/// Writes a list of one item. After an error the beginning of it may stand there.
#[tactic(auto, using(crate::proofs::Grown::growing, crate::proofs::Begun::opening))]
fn put_one<A: Serialize, W: Sink>(parts: &(A,), s: &mut Serializer<W>) -> Result<(), Error>
    ensures ok { OnOk result (serialized (state_of W.written s.old)
        (list (items_of (A.item parts.now.0 ∷ [])))
        ≡ Some (state_of W.written s.new)) }
    ensures kept { Keeps (W.written s.old.writer) (W.written s.new.writer) }
    ensures refused { OnlyWhere result (serialized (state_of W.written s.old)
        (list (items_of (A.item parts.now.0 ∷ [])))) }
    ensures memory { WantsMemory W.takes_memory result }
{
    let opened = s.begin_compound();
    parts.0.serialize(s)?;
    s.put_list_head(opened, 1)
}

/// Writes a list of two items. After an error the beginning of it may stand there.
#[tactic(auto, using(crate::proofs::Grown::growing, crate::proofs::Begun::opening))]
fn put_two<A: Serialize, B: Serialize, W: Sink>(
    parts: &(A, B),
    s: &mut Serializer<W>,
) -> Result<(), Error>
    ensures ok { OnOk result (serialized (state_of W.written s.old)
        (list (items_of (A.item parts.now.0 ∷ B.item parts.now.1 ∷ [])))
        ≡ Some (state_of W.written s.new)) }
    ensures kept { Keeps (W.written s.old.writer) (W.written s.new.writer) }
    ensures refused { OnlyWhere result (serialized (state_of W.written s.old)
        (list (items_of (A.item parts.now.0 ∷ B.item parts.now.1 ∷ [])))) }
    ensures memory { WantsMemory W.takes_memory result }
{
    let opened = s.begin_compound();
    parts.0.serialize(s)?;
    parts.1.serialize(s)?;
    s.put_list_head(opened, 2)
}

/// Writes a list of three items. After an error the beginning of it may stand there.
#[tactic(auto, using(crate::proofs::Grown::growing, crate::proofs::Begun::opening))]
fn put_three<A: Serialize, B: Serialize, C: Serialize, W: Sink>(
    parts: &(A, B, C),
    s: &mut Serializer<W>,
) -> Result<(), Error>
    ensures ok { OnOk result (serialized (state_of W.written s.old)
        (list (items_of (A.item parts.now.0 ∷ B.item parts.now.1 ∷ C.item parts.now.2 ∷ [])))
        ≡ Some (state_of W.written s.new)) }
    ensures kept { Keeps (W.written s.old.writer) (W.written s.new.writer) }
    ensures refused { OnlyWhere result (serialized (state_of W.written s.old)
        (list (items_of (A.item parts.now.0 ∷ B.item parts.now.1 ∷ C.item parts.now.2 ∷ [])))) }
    ensures memory { WantsMemory W.takes_memory result }
{
    let opened = s.begin_compound();
    parts.0.serialize(s)?;
    parts.1.serialize(s)?;
    parts.2.serialize(s)?;
    s.put_list_head(opened, 3)
}

/// Writes a list of four items. After an error the beginning of it may stand there.
#[tactic(auto, using(crate::proofs::Grown::growing, crate::proofs::Begun::opening))]
fn put_four<A: Serialize, B: Serialize, C: Serialize, D: Serialize, W: Sink>(
    parts: &(A, B, C, D),
    s: &mut Serializer<W>,
) -> Result<(), Error>
    ensures ok { OnOk result (serialized (state_of W.written s.old)
        (list (items_of (A.item parts.now.0 ∷ B.item parts.now.1 ∷ C.item parts.now.2 ∷ D.item parts.now.3 ∷ [])))
        ≡ Some (state_of W.written s.new)) }
    ensures kept { Keeps (W.written s.old.writer) (W.written s.new.writer) }
    ensures refused { OnlyWhere result (serialized (state_of W.written s.old)
        (list (items_of (A.item parts.now.0 ∷ B.item parts.now.1 ∷ C.item parts.now.2 ∷ D.item parts.now.3 ∷ [])))) }
    ensures memory { WantsMemory W.takes_memory result }
{
    let opened = s.begin_compound();
    parts.0.serialize(s)?;
    parts.1.serialize(s)?;
    parts.2.serialize(s)?;
    parts.3.serialize(s)?;
    s.put_list_head(opened, 4)
}

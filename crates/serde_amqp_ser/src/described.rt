//! Described values (part 1, 1.2 and 1.4).
ghost use Rattle.std.specs.Prelude.{◌≡◌, Some, OnOk, OnErr};
ghost use Rattle.serde_amqp_item.specs.Item.{Item, scalar, ulong, described};
ghost use Rattle.serde_amqp_ser.specs.Written.{Keeps};
ghost use Rattle.serde_amqp_ser.specs.Puts.{serialized, OnlyWhere, WantsMemory, state_of};
ghost use Rattle.serde_amqp_ser.specs.Composite.{IsDescribed};

use crate::place::IsArrayElement;
use crate::serialize::Serialize;
use crate::serializer::Serializer;
use crate::sink::Sink;
use serde_amqp_item::Error;

impl<W: Sink> Serializer<W> {
    /// Writes a descriptor by its code. After an error the beginning of it may stand there.
    #[tactic(auto, using(crate::proofs::Grown::growing, crate::proofs::Composed::described_rules))]
    fn put_descriptor(&mut self, code: u64) -> Result<(), Error>
        ensures ok { OnOk result (IsDescribed (state_of W.written self.old) code
            (state_of W.written self.new)) }
        ensures kept { Keeps (W.written self.old.writer) (W.written self.new.writer) }
        ensures refused { (value : Item) → OnlyWhere result
            (serialized (state_of W.written self.old) (described (scalar (ulong code)) value)) }
        ensures memory { WantsMemory W.takes_memory result }
    {
        if let IsArrayElement::False = self.element {
            self.writer.put(&[0x00])?;
            return self.serialize_u64(code);
        }
        Err(Error::InvalidValue)
    }

    /// Writes a descriptor by its code. The value that it describes is written next.
    #[tactic(auto, using(crate::proofs::Grown::growing, crate::proofs::Composed::described_rules))]
    pub(crate) fn begin_described(&mut self, code: u64) -> Result<(), Error>
        ensures ok { OnOk result (IsDescribed (state_of W.written self.old) code
            (state_of W.written self.new)) }
        ensures err { OnErr result (state_of W.written self.new ≡ state_of W.written self.old) }
        ensures kept { Keeps (W.written self.old.writer) (W.written self.new.writer) }
        ensures refused { (value : Item) → OnlyWhere result
            (serialized (state_of W.written self.old) (described (scalar (ulong code)) value)) }
        ensures memory { WantsMemory W.takes_memory result }
    {
        let mark = self.mark();
        match self.put_descriptor(code) {
            Ok(()) => Ok(()),
            Err(error) => Err(self.take_back(mark, error)),
        }
    }

    /// Writes a value with a descriptor. After an error the descriptor may stand there.
    #[tactic(auto, using(crate::proofs::Grown::growing, crate::proofs::Composed::described_rules))]
    fn put_described<T: Serialize>(&mut self, code: u64, value: &T) -> Result<(), Error>
        ensures ok { OnOk result (serialized (state_of W.written self.old)
            (described (scalar (ulong code)) (T.item value.now))
            ≡ Some (state_of W.written self.new)) }
        ensures kept { Keeps (W.written self.old.writer) (W.written self.new.writer) }
        ensures refused { OnlyWhere result (serialized (state_of W.written self.old)
            (described (scalar (ulong code)) (T.item value.now))) }
        ensures memory { WantsMemory W.takes_memory result }
    {
        self.put_descriptor(code)?;
        value.serialize(self)
    }

    /// Writes a value with a descriptor of this code (part 1, 1.2). In an array it answers `InvalidValue`,
    /// since a described item has no wide form.
    #[tactic(auto, using(crate::proofs::Grown::growing, crate::proofs::Composed::described_rules))]
    pub fn described_basic<T: Serialize>(&mut self, code: u64, value: &T) -> Result<(), Error>
        ensures ok { OnOk result (serialized (state_of W.written self.old)
            (described (scalar (ulong code)) (T.item value.now))
            ≡ Some (state_of W.written self.new)) }
        ensures err { OnErr result (state_of W.written self.new ≡ state_of W.written self.old) }
        ensures kept { Keeps (W.written self.old.writer) (W.written self.new.writer) }
        ensures refused { OnlyWhere result (serialized (state_of W.written self.old)
            (described (scalar (ulong code)) (T.item value.now))) }
        ensures memory { WantsMemory W.takes_memory result }
    {
        let mark = self.mark();
        match self.put_described(code, value) {
            Ok(()) => Ok(()),
            Err(error) => Err(self.take_back(mark, error)),
        }
    }
}

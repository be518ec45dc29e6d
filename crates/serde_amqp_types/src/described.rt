//! Described values (part 1, section 1.2).
ghost use Rattle.std.specs.Prelude.{◌≡◌, Some, OnOk, refl};
ghost use Rattle.serde_amqp_item.specs.Item.{described};
ghost use Rattle.serde_amqp_ser.specs.Written.{Keeps};
ghost use Rattle.serde_amqp_ser.specs.Puts.{serialized, OnlyWhere, WantsMemory, state_of};
ghost use Rattle.serde_amqp_types.specs.Described.{descriptor_item, described_again, descriptor_again};
ghost use Rattle.serde_amqp_types.specs.Described.{descriptor_faithful, descriptor_present, same_descriptor};
ghost use Rattle.serde_amqp_types.specs.Described.{same_value};
ghost use Rattle.serde_amqp_types.specs.Takes.{any_descriptor_taken, described_with};
ghost use Rattle.serde_amqp_types.specs.Deciding.{any_descriptor_decided, described_with_decided};
ghost use Rattle.std.proofs.Common.{ap, ◌∙◌};

use crate::symbol::Symbol;
use serde_amqp_de::{Deserialize, Deserializer, NeverNull, Read};
use serde_amqp_item::{EncodingCodes, Error};
use serde_amqp_round_trip::{Faithful, RoundTrip};
use serde_amqp_ser::{IsArrayElement, Serialize, Serializer, Sink};
use std::alloc::Global;

/// What says of which type a value is (part 1, section 1.5).
#[derive(Debug, Drop, Clone, PartialEq, Eq, PartialOrd, Ord, Hash)]
pub enum Descriptor {
    /// The name of the type.
    Name(Symbol),
    /// The number of the type: in its upper 32 bits that of a domain, in its lower ones that in the domain.
    Code(u64),
}

/// A value with its descriptor (part 1, section 1.2).
#[derive(Debug, Drop, Clone, PartialEq, Eq, PartialOrd, Ord, Hash)]
pub struct Described<T> {
    pub descriptor: Descriptor,
    pub value: T,
}

/// A symbol or a ulong.
impl Serialize for Descriptor {
    ghost item = { descriptor_item };

    fn is_null(&self) -> bool {
        false
    }

    fn serialize<W: Sink>(&self, s: &mut Serializer<W>) -> Result<(), Error> {
        match self {
            Descriptor::Name(name) => name.serialize(s),
            Descriptor::Code(code) => s.serialize_u64(*code),
        }
    }
}

/// The descriptor and the value. In an array it answers `InvalidValue`, since a described item has no
/// wide form.
impl<T: Serialize> Serialize for Described<T> {
    ghost item = { λ d. described (descriptor_item d.descriptor) (T.item d.value) };

    fn is_null(&self) -> bool {
        false
    }

    #[tactic(auto, using(serde_amqp_ser::proofs::Grown::growing))]
    fn serialize<W: Sink>(&self, s: &mut Serializer<W>) -> Result<(), Error> {
        let mark = s.mark();
        match put_described(self, s) {
            Ok(()) => Ok(()),
            Err(error) => Err(s.take_back(mark, error)),
        }
    }
}

/// Writes a described value. After an error its descriptor may stand there.
#[tactic(auto, using(serde_amqp_ser::proofs::Grown::growing))]
fn put_described<T: Serialize, W: Sink>(
    whole: &Described<T>,
    s: &mut Serializer<W>,
) -> Result<(), Error>
    ensures ok { OnOk result (serialized (state_of W.written s.old)
        (described (descriptor_item whole.now.descriptor) (T.item whole.now.value))
        ≡ Some (state_of W.written s.new)) }
    ensures kept { Keeps (W.written s.old.writer) (W.written s.new.writer) }
    ensures refused { OnlyWhere result (serialized (state_of W.written s.old)
        (described (descriptor_item whole.now.descriptor) (T.item whole.now.value))) }
    ensures memory { WantsMemory W.takes_memory result }
{
    if let IsArrayElement::False = s.element() {
        s.put(&[0x00])?;
        whole.descriptor.serialize(s)?;
        return whole.value.serialize(s);
    }
    Err(Error::InvalidValue)
}

/// A symbol is a name, and a ulong is a code.
impl Deserialize for Descriptor {
    ghost item = { descriptor_item };

    ghost take = { any_descriptor_taken };

    #[tactic(auto, unfolding(crate::specs::Takes::any_descriptor_taken))]
    fn absent(_alloc: Global) -> Option<Descriptor> {
        None
    }

    #[tactic(auto, using(crate::proofs::Descriptions::descriptors))]
    fn read<R: Read>(alloc: Global, de: &mut Deserializer<R>) -> Result<Descriptor, Error> {
        match de.peek()? {
            EncodingCodes::Sym8 => Ok(Descriptor::Name(Symbol::read(alloc, de)?)),
            EncodingCodes::Sym32 => Ok(Descriptor::Name(Symbol::read(alloc, de)?)),
            _ => Ok(Descriptor::Code(de.deserialize_u64()?)),
        }
    }

    ghost decided = { any_descriptor_decided };
}

/// A described value whose descriptor is a symbol or a ulong, and whose value the type takes.
impl<T: Deserialize + Drop> Deserialize for Described<T> {
    ghost item = { λ d. described (descriptor_item d.descriptor) (T.item d.value) };

    ghost take = { described_with T.take };

    #[tactic(auto, unfolding(crate::specs::Takes::described_with))]
    fn absent(_alloc: Global) -> Option<Described<T>> {
        None
    }

    #[tactic(auto, using(crate::proofs::Descriptions::descriptions))]
    fn read<R: Read>(alloc: Global, de: &mut Deserializer<R>) -> Result<Described<T>, Error> {
        let outer = de.element();
        de.described()?;
        let descriptor = Descriptor::read(alloc, de)?;
        let value = T::read(alloc, de)?;
        de.set_element(outer);
        Ok(Described { descriptor, value })
    }

    ghost decided = { described_with_decided T.take T.decided };
}

impl RoundTrip for Descriptor {
    ghost same = { λ _. refl };

    ghost again = { descriptor_again };
}

impl<T: RoundTrip + Drop> RoundTrip for Described<T> {
    ghost same = { λ x. ap (described (descriptor_item x.descriptor)) (T.same x.value) };

    ghost again = { λ x. described_again T.take (T.Deserialize.item x.value) (T.again x.value) x.descriptor };
}

impl Faithful for Descriptor {
    ghost faithful = { descriptor_faithful };
}

impl<T: Faithful + Drop> Faithful for Described<T> {
    ghost faithful = { λ x y e. ap (λ d. record { descriptor = d; value = x.value }) (same_descriptor x.descriptor y.descriptor (T.Deserialize.item x.value) (T.Deserialize.item y.value) e) ∙ ap (λ v. record { descriptor = y.descriptor; value = v }) (T.faithful x.value y.value (same_value (descriptor_item x.descriptor) (descriptor_item y.descriptor) (T.Deserialize.item x.value) (T.Deserialize.item y.value) e)) };
}

impl NeverNull for Descriptor {
    ghost present = { descriptor_present };
}

impl<T: Deserialize + Drop> NeverNull for Described<T> {
    ghost present = { λ _. refl };
}

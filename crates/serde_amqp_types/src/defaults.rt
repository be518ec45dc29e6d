//! Fields of composite types that have a default (part 1, 1.4).
ghost use Rattle.std.specs.Prelude.{◌≡◌, ℕ, Bool, Option, Some, None, refl};
ghost use Rattle.std.proofs.Common.{ap};
ghost use Rattle.serde_amqp_item.specs.Item.{Item, scalar, null, boolean, ubyte, ushort, uint};
ghost use Rattle.serde_amqp_de.specs.Again.{boolean_faithful, ubyte_faithful, ushort_faithful, uint_faithful};
ghost use Rattle.serde_amqp_de.specs.Again.{default_again, default_faithful, one_boolean, one_ushort, one_uint};
ghost use Rattle.serde_amqp_de.specs.Takes.{boolean_taken, ubyte_taken, ushort_taken, uint_taken, option_taken, mapped};
ghost use Rattle.serde_amqp_de.specs.Takes.{or_null, is_boolean, is_ushort, is_uint};
ghost use Rattle.serde_amqp_de.specs.Deciding.{boolean_decided, ubyte_decided, ushort_decided, uint_decided};
ghost use Rattle.serde_amqp_de.specs.Deciding.{option_decided, mapped_decided};
ghost use Rattle.serde_amqp_types.specs.Takes.{is_ubyte};
ghost use Rattle.serde_amqp_types.specs.Again.{one_ubyte};

use serde_amqp_de::{Deserialize, Deserializer, Read};
use serde_amqp_item::Error;
use serde_amqp_round_trip::{Faithful, RoundTrip};
use serde_amqp_ser::{Serialize, Serializer, Sink};
use std::alloc::Global;

/// A uint field whose default is `D`: it is written as null where it is `D`, and null is read as `D`.
#[derive(Debug, Clone, Copy, PartialEq, Eq)]
pub struct UIntOr<const D: u32>(pub u32);

impl<const D: u32> Serialize for UIntOr<D> {
    ghost item = { λ x. or_null (is_uint D) (scalar (uint x.0)) };

    fn is_null(&self) -> bool {
        self.0 == D
    }

    fn serialize<W: Sink>(&self, s: &mut Serializer<W>) -> Result<(), Error> {
        if self.0 == D {
            return s.serialize_unit();
        }
        s.serialize_u32(self.0)
    }
}

impl<const D: u32> Deserialize for UIntOr<D> {
    ghost item = { λ x. or_null (is_uint D) (scalar (uint x.0)) };

    ghost take = { mapped (or_null (is_uint D)) (option_taken uint_taken) };

    #[tactic(auto, using(serde_amqp_de::proofs::Standard::defaults))]
    fn absent(_alloc: Global) -> Option<UIntOr<D>> {
        Some(UIntOr(D))
    }

    #[tactic(auto, using(serde_amqp_de::proofs::Standard::defaults))]
    fn read<R: Read>(alloc: Global, de: &mut Deserializer<R>) -> Result<UIntOr<D>, Error> {
        match Option::<u32>::read(alloc, de)? {
            None => Ok(UIntOr(D)),
            Some(value) => Ok(UIntOr(value)),
        }
    }

    ghost decided = { mapped_decided (or_null (is_uint D)) (option_taken uint_taken) (option_decided uint_taken uint_decided) };
}

/// A ushort field whose default is `D`: it is written as null where it is `D`, and null is read as `D`.
#[derive(Debug, Clone, Copy, PartialEq, Eq)]
pub struct UShortOr<const D: u16>(pub u16);

impl<const D: u16> Serialize for UShortOr<D> {
    ghost item = { λ x. or_null (is_ushort D) (scalar (ushort x.0)) };

    fn is_null(&self) -> bool {
        self.0 == D
    }

    fn serialize<W: Sink>(&self, s: &mut Serializer<W>) -> Result<(), Error> {
        if self.0 == D {
            return s.serialize_unit();
        }
        s.serialize_u16(self.0)
    }
}

impl<const D: u16> Deserialize for UShortOr<D> {
    ghost item = { λ x. or_null (is_ushort D) (scalar (ushort x.0)) };

    ghost take = { mapped (or_null (is_ushort D)) (option_taken ushort_taken) };

    #[tactic(auto, using(serde_amqp_de::proofs::Standard::defaults))]
    fn absent(_alloc: Global) -> Option<UShortOr<D>> {
        Some(UShortOr(D))
    }

    #[tactic(auto, using(serde_amqp_de::proofs::Standard::defaults))]
    fn read<R: Read>(alloc: Global, de: &mut Deserializer<R>) -> Result<UShortOr<D>, Error> {
        match Option::<u16>::read(alloc, de)? {
            None => Ok(UShortOr(D)),
            Some(value) => Ok(UShortOr(value)),
        }
    }

    ghost decided = { mapped_decided (or_null (is_ushort D)) (option_taken ushort_taken) (option_decided ushort_taken ushort_decided) };
}

impl<const D: u32> RoundTrip for UIntOr<D> {
    ghost same = { λ _. refl };

    ghost again = { λ x. default_again (is_uint D) uint_taken (scalar (uint x.0)) refl refl };
}

impl<const D: u32> Faithful for UIntOr<D> {
    ghost faithful = { λ x y e. ap (λ (n : ℕ). record { 0 = n }) (uint_faithful x.0 y.0 (default_faithful (is_uint D) (scalar (uint x.0)) (scalar (uint y.0)) (one_uint D x.0 y.0) refl refl e)) };
}

impl<const D: u16> RoundTrip for UShortOr<D> {
    ghost same = { λ _. refl };

    ghost again = { λ x. default_again (is_ushort D) ushort_taken (scalar (ushort x.0)) refl refl };
}

impl<const D: u16> Faithful for UShortOr<D> {
    ghost faithful = { λ x y e. ap (λ (n : ℕ). record { 0 = n }) (ushort_faithful x.0 y.0 (default_faithful (is_ushort D) (scalar (ushort x.0)) (scalar (ushort y.0)) (one_ushort D x.0 y.0) refl refl e)) };
}

/// A boolean field whose default is `D`: it is written as null where it is `D`, and null is read as `D`.
#[derive(Debug, Clone, Copy, PartialEq, Eq)]
pub struct BoolOr<const D: bool>(pub bool);

impl<const D: bool> Serialize for BoolOr<D> {
    ghost item = { λ x. or_null (is_boolean D) (scalar (boolean x.0)) };

    fn is_null(&self) -> bool {
        self.0 == D
    }

    fn serialize<W: Sink>(&self, s: &mut Serializer<W>) -> Result<(), Error> {
        if self.0 == D {
            return s.serialize_unit();
        }
        s.serialize_bool(self.0)
    }
}

impl<const D: bool> Deserialize for BoolOr<D> {
    ghost item = { λ x. or_null (is_boolean D) (scalar (boolean x.0)) };

    ghost take = { mapped (or_null (is_boolean D)) (option_taken boolean_taken) };

    #[tactic(auto, using(serde_amqp_de::proofs::Standard::defaults))]
    fn absent(_alloc: Global) -> Option<BoolOr<D>> {
        Some(BoolOr(D))
    }

    #[tactic(auto, using(serde_amqp_de::proofs::Standard::defaults))]
    fn read<R: Read>(alloc: Global, de: &mut Deserializer<R>) -> Result<BoolOr<D>, Error> {
        match Option::<bool>::read(alloc, de)? {
            None => Ok(BoolOr(D)),
            Some(value) => Ok(BoolOr(value)),
        }
    }

    ghost decided = { mapped_decided (or_null (is_boolean D)) (option_taken boolean_taken) (option_decided boolean_taken boolean_decided) };
}

impl<const D: bool> RoundTrip for BoolOr<D> {
    ghost same = { λ _. refl };

    ghost again = { λ x. default_again (is_boolean D) boolean_taken (scalar (boolean x.0)) refl refl };
}

impl<const D: bool> Faithful for BoolOr<D> {
    ghost faithful = { λ x y e. ap (λ (b : Bool). record { 0 = b }) (boolean_faithful x.0 y.0 (default_faithful (is_boolean D) (scalar (boolean x.0)) (scalar (boolean y.0)) (one_boolean D x.0 y.0) refl refl e)) };
}

/// A ubyte field whose default is `D`: it is written as null where it is `D`, and null is read as `D`.
#[derive(Debug, Clone, Copy, PartialEq, Eq)]
pub struct UByteOr<const D: u8>(pub u8);

impl<const D: u8> Serialize for UByteOr<D> {
    ghost item = { λ x. or_null (is_ubyte D) (scalar (ubyte x.0)) };

    fn is_null(&self) -> bool {
        self.0 == D
    }

    fn serialize<W: Sink>(&self, s: &mut Serializer<W>) -> Result<(), Error> {
        if self.0 == D {
            return s.serialize_unit();
        }
        s.serialize_u8(self.0)
    }
}

impl<const D: u8> Deserialize for UByteOr<D> {
    ghost item = { λ x. or_null (is_ubyte D) (scalar (ubyte x.0)) };

    ghost take = { mapped (or_null (is_ubyte D)) (option_taken ubyte_taken) };

    #[tactic(auto, using(serde_amqp_de::proofs::Standard::defaults, crate::proofs::UbyteFields::ubytes))]
    fn absent(_alloc: Global) -> Option<UByteOr<D>> {
        Some(UByteOr(D))
    }

    #[tactic(auto, using(serde_amqp_de::proofs::Standard::defaults, crate::proofs::UbyteFields::ubytes))]
    fn read<R: Read>(alloc: Global, de: &mut Deserializer<R>) -> Result<UByteOr<D>, Error> {
        match Option::<u8>::read(alloc, de)? {
            None => Ok(UByteOr(D)),
            Some(value) => Ok(UByteOr(value)),
        }
    }

    ghost decided = { mapped_decided (or_null (is_ubyte D)) (option_taken ubyte_taken) (option_decided ubyte_taken ubyte_decided) };
}

impl<const D: u8> RoundTrip for UByteOr<D> {
    ghost same = { λ _. refl };

    ghost again = { λ x. default_again (is_ubyte D) ubyte_taken (scalar (ubyte x.0)) refl refl };
}

impl<const D: u8> Faithful for UByteOr<D> {
    ghost faithful = { λ x y e. ap (λ (n : ℕ). record { 0 = n }) (ubyte_faithful x.0 y.0 (default_faithful (is_ubyte D) (scalar (ubyte x.0)) (scalar (ubyte y.0)) (one_ubyte D x.0 y.0) refl refl e)) };
}

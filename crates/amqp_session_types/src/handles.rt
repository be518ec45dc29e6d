//! Handles of links (part 2, 2.6.2 and 2.8.17).
ghost use Rattle.std.specs.Prelude.{◌≡◌, ℕ, refl};
ghost use Rattle.std.proofs.Common.{ap};
ghost use Rattle.serde_amqp_item.specs.Item.{scalar, uint};
ghost use Rattle.serde_amqp_de.specs.Takes.{uint_taken};
ghost use Rattle.serde_amqp_de.specs.Deciding.{uint_decided};
ghost use Rattle.serde_amqp_de.specs.Again.{uint_faithful};

use serde_amqp_de::{Deserialize, Deserializer, NeverNull, Read};
use serde_amqp_item::Error;
use serde_amqp_round_trip::{Faithful, RoundTrip};
use serde_amqp_ser::{Serialize, Serializer, Sink};
use std::alloc::Global;

/// What stands for a link in a session's frames (part 2, 2.8.17).
#[derive(Debug, Clone, Copy, PartialEq, Eq, PartialOrd, Ord, Hash)]
pub struct Handle(pub u32);

/// A handle that the peer gave.
#[derive(Debug, Clone, Copy, PartialEq, Eq, PartialOrd, Ord, Hash)]
pub struct InputHandle(pub u32);

/// A handle that was given here.
#[derive(Debug, Clone, Copy, PartialEq, Eq, PartialOrd, Ord, Hash)]
pub struct OutputHandle(pub u32);

impl From<u32> for Handle {
    ghost from_gives = { λ n h. h.0 ≡ n };

    fn from(number: u32) -> Self {
        Handle(number)
    }
}

impl From<Handle> for u32 {
    ghost from_gives = { λ h n. n ≡ h.0 };

    fn from(handle: Handle) -> Self {
        handle.0
    }
}

impl From<Handle> for InputHandle {
    ghost from_gives = { λ h i. i.0 ≡ h.0 };

    fn from(handle: Handle) -> Self {
        InputHandle(handle.0)
    }
}

impl From<InputHandle> for Handle {
    ghost from_gives = { λ i h. h.0 ≡ i.0 };

    fn from(handle: InputHandle) -> Self {
        Handle(handle.0)
    }
}

impl From<u32> for InputHandle {
    ghost from_gives = { λ n h. h.0 ≡ n };

    fn from(number: u32) -> Self {
        InputHandle(number)
    }
}

impl From<InputHandle> for u32 {
    ghost from_gives = { λ h n. n ≡ h.0 };

    fn from(handle: InputHandle) -> Self {
        handle.0
    }
}

impl From<Handle> for OutputHandle {
    ghost from_gives = { λ h o. o.0 ≡ h.0 };

    fn from(handle: Handle) -> Self {
        OutputHandle(handle.0)
    }
}

impl From<OutputHandle> for Handle {
    ghost from_gives = { λ o h. h.0 ≡ o.0 };

    fn from(handle: OutputHandle) -> Self {
        Handle(handle.0)
    }
}

impl From<u32> for OutputHandle {
    ghost from_gives = { λ n h. h.0 ≡ n };

    fn from(number: u32) -> Self {
        OutputHandle(number)
    }
}

impl From<OutputHandle> for u32 {
    ghost from_gives = { λ h n. n ≡ h.0 };

    fn from(handle: OutputHandle) -> Self {
        handle.0
    }
}

impl Serialize for Handle {
    ghost item = { λ h. scalar (uint h.0) };

    fn is_null(&self) -> bool {
        false
    }

    fn serialize<W: Sink>(&self, s: &mut Serializer<W>) -> Result<(), Error> {
        s.serialize_u32(self.0)
    }
}

impl Deserialize for Handle {
    ghost item = { λ h. scalar (uint h.0) };

    ghost take = { uint_taken };

    fn absent(_alloc: Global) -> Option<Handle> {
        None
    }

    fn read<R: Read>(alloc: Global, de: &mut Deserializer<R>) -> Result<Handle, Error> {
        Ok(Handle(u32::read(alloc, de)?))
    }

    ghost decided = { uint_decided };
}

impl RoundTrip for Handle {
    ghost same = { λ _. refl };

    ghost again = { λ _. refl };
}

impl Faithful for Handle {
    ghost faithful = { λ x y e. ap (λ (n : ℕ). record { 0 = n }) (uint_faithful x.0 y.0 e) };
}

impl NeverNull for Handle {
    ghost present = { λ _. refl };
}

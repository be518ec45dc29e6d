//! Numbers and characters as values.
ghost use Rattle.std.specs.Prelude.{Option, refl};
ghost use Rattle.serde_amqp_item.specs.Item.{scalar, ubyte, byte, short, int, long, float, double, char};
ghost use Rattle.serde_amqp_de.specs.Takes.{ubyte_taken, byte_taken, short_taken, int_taken, long_taken, float_taken};
ghost use Rattle.serde_amqp_de.specs.Takes.{double_taken, char_taken};
ghost use Rattle.serde_amqp_de.specs.Deciding.{ubyte_decided, byte_decided, short_decided, int_decided, long_decided};
ghost use Rattle.serde_amqp_de.specs.Deciding.{float_decided, double_decided, char_decided};

use crate::deserialize::{Deserialize, NeverNull};
use crate::deserializer::Deserializer;
use serde_amqp_item::{Double, Error, Float};
use serde_amqp_read::Read;
use std::alloc::Global;

impl Deserialize for u8 {
    ghost item = { λ n. scalar (ubyte n) };

    ghost take = { ubyte_taken };

    fn absent(_alloc: Global) -> Option<u8> {
        None
    }

    #[tactic(auto, using(crate::proofs::Values::numbers))]
    fn read<R: Read>(_alloc: Global, de: &mut Deserializer<R>) -> Result<u8, Error> {
        de.deserialize_u8()
    }

    ghost decided = { ubyte_decided };
}

impl NeverNull for u8 {
    ghost present = { λ _. refl };
}

impl Deserialize for i8 {
    ghost item = { λ z. scalar (byte z) };

    ghost take = { byte_taken };

    fn absent(_alloc: Global) -> Option<i8> {
        None
    }

    #[tactic(auto, using(crate::proofs::Values::numbers))]
    fn read<R: Read>(_alloc: Global, de: &mut Deserializer<R>) -> Result<i8, Error> {
        de.deserialize_i8()
    }

    ghost decided = { byte_decided };
}

impl NeverNull for i8 {
    ghost present = { λ _. refl };
}

impl Deserialize for i16 {
    ghost item = { λ z. scalar (short z) };

    ghost take = { short_taken };

    fn absent(_alloc: Global) -> Option<i16> {
        None
    }

    #[tactic(auto, using(crate::proofs::Values::numbers))]
    fn read<R: Read>(_alloc: Global, de: &mut Deserializer<R>) -> Result<i16, Error> {
        de.deserialize_i16()
    }

    ghost decided = { short_decided };
}

impl NeverNull for i16 {
    ghost present = { λ _. refl };
}

impl Deserialize for i32 {
    ghost item = { λ z. scalar (int z) };

    ghost take = { int_taken };

    fn absent(_alloc: Global) -> Option<i32> {
        None
    }

    #[tactic(auto, using(crate::proofs::Values::numbers))]
    fn read<R: Read>(_alloc: Global, de: &mut Deserializer<R>) -> Result<i32, Error> {
        de.deserialize_i32()
    }

    ghost decided = { int_decided };
}

impl NeverNull for i32 {
    ghost present = { λ _. refl };
}

impl Deserialize for i64 {
    ghost item = { λ z. scalar (long z) };

    ghost take = { long_taken };

    fn absent(_alloc: Global) -> Option<i64> {
        None
    }

    #[tactic(auto, using(crate::proofs::Values::numbers))]
    fn read<R: Read>(_alloc: Global, de: &mut Deserializer<R>) -> Result<i64, Error> {
        de.deserialize_i64()
    }

    ghost decided = { long_decided };
}

impl NeverNull for i64 {
    ghost present = { λ _. refl };
}

impl Deserialize for Float {
    ghost item = { λ x. scalar (float x.0) };

    ghost take = { float_taken };

    fn absent(_alloc: Global) -> Option<Float> {
        None
    }

    #[tactic(auto, using(crate::proofs::Values::numbers))]
    fn read<R: Read>(_alloc: Global, de: &mut Deserializer<R>) -> Result<Float, Error> {
        de.deserialize_f32()
    }

    ghost decided = { float_decided };
}

impl NeverNull for Float {
    ghost present = { λ _. refl };
}

impl Deserialize for Double {
    ghost item = { λ x. scalar (double x.0) };

    ghost take = { double_taken };

    fn absent(_alloc: Global) -> Option<Double> {
        None
    }

    #[tactic(auto, using(crate::proofs::Values::numbers))]
    fn read<R: Read>(_alloc: Global, de: &mut Deserializer<R>) -> Result<Double, Error> {
        de.deserialize_f64()
    }

    ghost decided = { double_decided };
}

impl NeverNull for Double {
    ghost present = { λ _. refl };
}

impl Deserialize for char {
    ghost item = { λ c. scalar (char c) };

    ghost take = { char_taken };

    fn absent(_alloc: Global) -> Option<char> {
        None
    }

    #[tactic(auto, using(crate::proofs::Values::numbers))]
    fn read<R: Read>(_alloc: Global, de: &mut Deserializer<R>) -> Result<char, Error> {
        de.deserialize_char()
    }

    ghost decided = { char_decided };
}

impl NeverNull for char {
    ghost present = { λ _. refl };
}

//! Numbers and characters.
ghost use Rattle.std.specs.Prelude.{refl};
ghost use Rattle.serde_amqp_de.specs.Again.{ubyte_faithful, ushort_faithful, uint_faithful, ulong_faithful};
ghost use Rattle.serde_amqp_de.specs.Again.{byte_faithful, short_faithful, int_faithful, long_faithful};
ghost use Rattle.serde_amqp_de.specs.Again.{float_faithful, double_faithful, char_faithful};

use crate::values::{Faithful, RoundTrip};
use serde_amqp_item::{Double, Float};

impl RoundTrip for u8 {
    ghost same = { λ _. refl };

    ghost again = { λ _. refl };
}

impl Faithful for u8 {
    ghost faithful = { ubyte_faithful };
}

impl RoundTrip for u16 {
    ghost same = { λ _. refl };

    ghost again = { λ _. refl };
}

impl Faithful for u16 {
    ghost faithful = { ushort_faithful };
}

impl RoundTrip for u32 {
    ghost same = { λ _. refl };

    ghost again = { λ _. refl };
}

impl Faithful for u32 {
    ghost faithful = { uint_faithful };
}

impl RoundTrip for u64 {
    ghost same = { λ _. refl };

    ghost again = { λ _. refl };
}

impl Faithful for u64 {
    ghost faithful = { ulong_faithful };
}

impl RoundTrip for i8 {
    ghost same = { λ _. refl };

    ghost again = { λ _. refl };
}

impl Faithful for i8 {
    ghost faithful = { byte_faithful };
}

impl RoundTrip for i16 {
    ghost same = { λ _. refl };

    ghost again = { λ _. refl };
}

impl Faithful for i16 {
    ghost faithful = { short_faithful };
}

impl RoundTrip for i32 {
    ghost same = { λ _. refl };

    ghost again = { λ _. refl };
}

impl Faithful for i32 {
    ghost faithful = { int_faithful };
}

impl RoundTrip for i64 {
    ghost same = { λ _. refl };

    ghost again = { λ _. refl };
}

impl Faithful for i64 {
    ghost faithful = { long_faithful };
}

impl RoundTrip for Float {
    ghost same = { λ _. refl };

    ghost again = { λ _. refl };
}

impl Faithful for Float {
    ghost faithful = { float_faithful };
}

impl RoundTrip for Double {
    ghost same = { λ _. refl };

    ghost again = { λ _. refl };
}

impl Faithful for Double {
    ghost faithful = { double_faithful };
}

impl RoundTrip for char {
    ghost same = { λ _. refl };

    ghost again = { λ _. refl };
}

impl Faithful for char {
    ghost faithful = { char_faithful };
}

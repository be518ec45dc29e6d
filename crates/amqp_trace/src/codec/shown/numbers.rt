//! The text of numbers.
use crate::codec::shown::Shown;
use serde_amqp::{BoolOr, Double, Float, Timestamp, UByteOr, UIntOr, UShortOr};
use std::alloc::{AllocError, Global};

impl Shown for bool {
    fn text(&self, alloc: Global) -> Result<String, AllocError> {
        format!(in alloc; "{self}")
    }
}

impl Shown for u8 {
    fn text(&self, alloc: Global) -> Result<String, AllocError> {
        format!(in alloc; "{self}")
    }
}

impl Shown for u16 {
    fn text(&self, alloc: Global) -> Result<String, AllocError> {
        format!(in alloc; "{self}")
    }
}

impl Shown for u32 {
    fn text(&self, alloc: Global) -> Result<String, AllocError> {
        format!(in alloc; "{self}")
    }
}

impl Shown for u64 {
    fn text(&self, alloc: Global) -> Result<String, AllocError> {
        format!(in alloc; "{self}")
    }
}

impl Shown for i8 {
    fn text(&self, alloc: Global) -> Result<String, AllocError> {
        format!(in alloc; "{self}")
    }
}

impl Shown for i16 {
    fn text(&self, alloc: Global) -> Result<String, AllocError> {
        format!(in alloc; "{self}")
    }
}

impl Shown for i32 {
    fn text(&self, alloc: Global) -> Result<String, AllocError> {
        format!(in alloc; "{self}")
    }
}

impl Shown for i64 {
    fn text(&self, alloc: Global) -> Result<String, AllocError> {
        format!(in alloc; "{self}")
    }
}

/// The number of the character.
impl Shown for char {
    fn text(&self, alloc: Global) -> Result<String, AllocError> {
        format!(in alloc; "U+{:04x}", u32::from(*self))
    }
}

/// The bits.
impl Shown for Float {
    fn text(&self, alloc: Global) -> Result<String, AllocError> {
        format!(in alloc; "{:08x}", self.to_bits())
    }
}

/// The bits.
impl Shown for Double {
    fn text(&self, alloc: Global) -> Result<String, AllocError> {
        format!(in alloc; "{:016x}", self.to_bits())
    }
}

/// The milliseconds.
impl Shown for Timestamp {
    fn text(&self, alloc: Global) -> Result<String, AllocError> {
        format!(in alloc; "{}", self.milliseconds())
    }
}

impl<const D: u8> Shown for UByteOr<D> {
    fn text(&self, alloc: Global) -> Result<String, AllocError> {
        self.0.text(alloc)
    }
}

impl<const D: u16> Shown for UShortOr<D> {
    fn text(&self, alloc: Global) -> Result<String, AllocError> {
        self.0.text(alloc)
    }
}

impl<const D: u32> Shown for UIntOr<D> {
    fn text(&self, alloc: Global) -> Result<String, AllocError> {
        self.0.text(alloc)
    }
}

impl<const D: bool> Shown for BoolOr<D> {
    fn text(&self, alloc: Global) -> Result<String, AllocError> {
        self.0.text(alloc)
    }
}

//! The text of tuples.
use crate::codec::runs::{Runs, bracketed};
use crate::codec::shown::Shown;
use std::alloc::{AllocError, Global};

impl<A: Shown> Shown for (A,) {
    fn text(&self, alloc: Global) -> Result<String, AllocError> {
        let mut parts = Runs::new(alloc);
        parts.push(self.0.text(alloc)?)?;
        bracketed(alloc, '(', parts, ')')
    }
}

impl<A: Shown, B: Shown> Shown for (A, B) {
    fn text(&self, alloc: Global) -> Result<String, AllocError> {
        let mut parts = Runs::new(alloc);
        parts.push(self.0.text(alloc)?)?;
        parts.push(self.1.text(alloc)?)?;
        bracketed(alloc, '(', parts, ')')
    }
}

impl<A: Shown, B: Shown, C: Shown> Shown for (A, B, C) {
    fn text(&self, alloc: Global) -> Result<String, AllocError> {
        let mut parts = Runs::new(alloc);
        parts.push(self.0.text(alloc)?)?;
        parts.push(self.1.text(alloc)?)?;
        parts.push(self.2.text(alloc)?)?;
        bracketed(alloc, '(', parts, ')')
    }
}

impl<A: Shown, B: Shown, C: Shown, D: Shown> Shown for (A, B, C, D) {
    fn text(&self, alloc: Global) -> Result<String, AllocError> {
        let mut parts = Runs::new(alloc);
        parts.push(self.0.text(alloc)?)?;
        parts.push(self.1.text(alloc)?)?;
        parts.push(self.2.text(alloc)?)?;
        parts.push(self.3.text(alloc)?)?;
        bracketed(alloc, '(', parts, ')')
    }
}

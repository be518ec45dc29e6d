//! The text of lists, arrays and described values.
use crate::codec::runs::{Runs, bracketed};
use crate::codec::shown::Shown;
use serde_amqp::{Array, Described, Descriptor, Multiple};
use std::alloc::{AllocError, Global};

fn list_text<T: Shown>(alloc: Global, values: &[T]) -> Result<String, AllocError> {
    let mut parts = Runs::new(alloc);
    for value in values {
        parts.push(value.text(alloc)?)?;
    }
    bracketed(alloc, '[', parts, ']')
}

impl<T: Shown> Shown for Vec<T> {
    fn text(&self, alloc: Global) -> Result<String, AllocError> {
        list_text(alloc, self.as_slice())
    }
}

impl<T: Shown> Shown for Array<T> {
    fn text(&self, alloc: Global) -> Result<String, AllocError> {
        list_text(alloc, self.as_slice())
    }
}

impl<T: Shown> Shown for Multiple<Array<T>> {
    fn text(&self, alloc: Global) -> Result<String, AllocError> {
        self.0.text(alloc)
    }
}

impl Shown for Descriptor {
    fn text(&self, alloc: Global) -> Result<String, AllocError> {
        match self {
            Descriptor::Code(code) => code.text(alloc),
            Descriptor::Name(name) => name.text(alloc),
        }
    }
}

/// The descriptor stands in front of its value.
impl<T: Shown> Shown for Described<T> {
    fn text(&self, alloc: Global) -> Result<String, AllocError> {
        let descriptor = self.descriptor.text(alloc)?;
        let value = self.value.text(alloc)?;
        format!(in alloc; "@{descriptor} {value}")
    }
}

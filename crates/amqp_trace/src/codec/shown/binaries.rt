//! The text of types that are bytes.
use crate::codec::runs::{hex_of, quoted};
use crate::codec::shown::Shown;
use serde_amqp::{
    BinaryRef, ByteBuf, Dec32, Dec64, Dec128, RawValue, Symbol, SymbolRef, Text, Uuid,
};
use std::alloc::{AllocError, Global};

impl Shown for Dec32 {
    fn text(&self, alloc: Global) -> Result<String, AllocError> {
        hex_of(alloc, self.as_inner().as_slice())
    }
}

impl Shown for Dec64 {
    fn text(&self, alloc: Global) -> Result<String, AllocError> {
        hex_of(alloc, self.as_inner().as_slice())
    }
}

impl Shown for Dec128 {
    fn text(&self, alloc: Global) -> Result<String, AllocError> {
        hex_of(alloc, self.as_inner().as_slice())
    }
}

impl Shown for Uuid {
    fn text(&self, alloc: Global) -> Result<String, AllocError> {
        hex_of(alloc, self.as_inner().as_slice())
    }
}

impl Shown for ByteBuf {
    fn text(&self, alloc: Global) -> Result<String, AllocError> {
        hex_of(alloc, self.as_slice())
    }
}

impl Shown for BinaryRef<'_> {
    fn text(&self, alloc: Global) -> Result<String, AllocError> {
        hex_of(alloc, self.0)
    }
}

/// The bytes that are kept.
impl Shown for RawValue {
    fn text(&self, alloc: Global) -> Result<String, AllocError> {
        hex_of(alloc, self.as_bytes())
    }
}

impl Shown for String {
    fn text(&self, alloc: Global) -> Result<String, AllocError> {
        quoted(alloc, self.as_str())
    }
}

impl Shown for &str {
    fn text(&self, alloc: Global) -> Result<String, AllocError> {
        quoted(alloc, self)
    }
}

impl Shown for Text {
    fn text(&self, alloc: Global) -> Result<String, AllocError> {
        quoted(alloc, self.as_str())
    }
}

impl Shown for Symbol {
    fn text(&self, alloc: Global) -> Result<String, AllocError> {
        quoted(alloc, self.as_str())
    }
}

impl Shown for SymbolRef<'_> {
    fn text(&self, alloc: Global) -> Result<String, AllocError> {
        quoted(alloc, self.as_str())
    }
}

//! What values that have parts are written as.
use crate::text::composites::{Composite, Expected};
use std::alloc::AllocError;

/// How the parts of a value are written.
#[derive(Clone, Copy)]
pub(crate) enum Shape {
    /// `[a, b]`
    List,
    /// `{a: b, c: d}`
    Map,
    /// `array[a, b]`
    Array,
    /// `@a b`
    Described,
    /// The descriptor, which isn't written, and the list of a composite.
    Named(Composite),
    /// `open {a: b, c: d}`
    Fields(Composite),
}

/// A value some of whose parts aren't written yet.
#[derive(Clone, Copy)]
pub(crate) struct Unfinished {
    /// How they are written.
    pub(crate) shape: Shape,
    /// How many parts it has.
    pub(crate) parts: usize,
    /// How many of them were come to.
    pub(crate) seen: usize,
    /// Whether one was written.
    pub(crate) has_written: bool,
}

/// Where a value stands.
#[derive(Clone, Copy)]
pub(crate) enum Place {
    /// In no other value, or where it is written as it is anywhere.
    Plain,
    /// The descriptor of a value.
    Descriptor,
    /// The descriptor of a composite, which isn't written.
    KnownDescriptor,
    /// The list of this composite.
    FieldsOf(Composite),
    /// A field in which this is expected.
    Field(Expected),
    /// A field that is null and isn't the last one: it isn't written.
    LeftOut,
}

impl Unfinished {
    /// The value with this shape and so many parts, none of which was come to.
    pub(crate) fn new(shape: Shape, parts: usize) -> Self {
        Unfinished {
            shape,
            parts,
            seen: 0,
            has_written: false,
        }
    }

    /// Whether all parts were come to.
    pub(crate) fn is_finished(&self) -> bool {
        self.seen >= self.parts
    }

    /// What stands behind the last part.
    pub(crate) fn closing(&self) -> &'static str {
        match self.shape {
            Shape::List | Shape::Array => "]",
            Shape::Map | Shape::Fields(_) => "}",
            Shape::Described | Shape::Named(_) => "",
        }
    }

    /// Comes to the next part, which is null or isn't: writes what stands before it, and says where it stands.
    pub(crate) fn next_place(
        &mut self,
        out: &mut String,
        is_null: bool,
    ) -> Result<Place, AllocError> {
        let index = self.seen;
        self.seen = index.saturating_add(1);
        match self.shape {
            Shape::List | Shape::Array => self.separated(out),
            Shape::Map if index % 2 == 0 => self.separated(out),
            Shape::Map => {
                out.push_str(": ")?;
                Ok(Place::Plain)
            }
            Shape::Described if index == 0 => {
                out.push('@')?;
                Ok(Place::Descriptor)
            }
            Shape::Described => {
                out.push(' ')?;
                Ok(Place::Plain)
            }
            Shape::Named(_) if index == 0 => Ok(Place::KnownDescriptor),
            Shape::Named(composite) => Ok(Place::FieldsOf(composite)),
            Shape::Fields(_) if is_null && self.seen < self.parts => Ok(Place::LeftOut),
            Shape::Fields(composite) => self.field(out, composite, index),
        }
    }

    /// Writes a comma where a part was written before.
    fn separated(&mut self, out: &mut String) -> Result<Place, AllocError> {
        if self.has_written {
            out.push_str(", ")?;
        }
        self.has_written = true;
        Ok(Place::Plain)
    }

    /// Writes the name of the field at this index.
    fn field(
        &mut self,
        out: &mut String,
        composite: Composite,
        index: usize,
    ) -> Result<Place, AllocError> {
        self.separated(out)?;
        match composite.fields.get(index) {
            Some((name, expected)) => {
                write!(out, "{name}: ")?;
                Ok(Place::Field(*expected))
            }
            None => Ok(Place::Plain),
        }
    }
}

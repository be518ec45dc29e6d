//! Values as text, token by token.
use crate::text::composites::{Composite, composite_of};
use crate::text::leaves::{push_field, push_leaf, unsigned};
use crate::text::shapes::{Place, Shape, Unfinished};
use serde_amqp_item::{EncodingCodes, Error};
use serde_amqp_tree::{Token, tokens};
use std::alloc::{AllocError, Global};

/// The text of the value that these bytes are. It is refused as [`tokens`] is.
pub fn text_of(alloc: Global, bytes: &[u8]) -> Result<String, Error> {
    let tokens = tokens(alloc, bytes)?;
    Ok(written(alloc, bytes, tokens.as_slice())?)
}

/// The text of these tokens of the bytes.
fn written(alloc: Global, bytes: &[u8], tokens: &[Token]) -> Result<String, AllocError> {
    let mut printer = Printer {
        out: String::new(alloc),
        unfinished: Vec::new(alloc),
    };
    for (index, token) in tokens.iter().enumerate() {
        let behind = tokens.get(index.saturating_add(1)..).unwrap_or(&[]);
        printer.write(bytes, *token, behind)?;
    }
    Ok(printer.out)
}

/// What is written, and which values still have parts to come, the innermost last.
#[derive(Drop)]
struct Printer {
    out: String,
    unfinished: Vec<Unfinished>,
}

/// The bytes of a value without parts.
fn content_of<'a>(bytes: &'a [u8], token: &Token) -> &'a [u8] {
    bytes.get(token.start..token.end).unwrap_or(&[])
}

/// The composite that a described value is, by the tokens behind its own: a descriptor that is the code of one, and a
/// list of no more fields than it has.
fn known_composite(bytes: &[u8], behind: &[Token]) -> Option<Composite> {
    let [descriptor, value, ..] = behind else {
        return None;
    };
    let code = code_of_descriptor(bytes, descriptor)?;
    let composite = composite_of(code)?;
    if is_list(value.code) && value.parts <= composite.fields.len() {
        return Some(composite);
    }
    None
}

/// The number that a descriptor is, if it is an unsigned number of 64 bits.
fn code_of_descriptor(bytes: &[u8], descriptor: &Token) -> Option<u64> {
    if is_ulong(descriptor.code) {
        return Some(unsigned(content_of(bytes, descriptor)));
    }
    None
}

fn is_ulong(code: EncodingCodes) -> bool {
    matches!(
        code,
        EncodingCodes::ULong | EncodingCodes::SmallULong | EncodingCodes::ULong0
    )
}

fn is_list(code: EncodingCodes) -> bool {
    matches!(
        code,
        EncodingCodes::List0 | EncodingCodes::List8 | EncodingCodes::List32
    )
}

impl Printer {
    /// Writes the next token, behind which these stand, and closes what has no more parts.
    fn write(&mut self, bytes: &[u8], token: Token, behind: &[Token]) -> Result<(), AllocError> {
        let place = self.next_place(token.code)?;
        self.write_at(place, bytes, token, behind)?;
        self.close()
    }

    /// Writes what stands before a value with this constructor.
    fn next_place(&mut self, code: EncodingCodes) -> Result<Place, AllocError> {
        match self.unfinished.last_mut() {
            Some(around) => around.next_place(&mut self.out, code == EncodingCodes::Null),
            None => Ok(Place::Plain),
        }
    }

    /// Writes a value at its place: whole, or up to its first part.
    fn write_at(
        &mut self,
        place: Place,
        bytes: &[u8],
        token: Token,
        behind: &[Token],
    ) -> Result<(), AllocError> {
        let content = content_of(bytes, &token);
        match place {
            Place::LeftOut | Place::KnownDescriptor => Ok(()),
            Place::FieldsOf(composite) => self.begin("{", Shape::Fields(composite), token.parts),
            Place::Descriptor if is_ulong(token.code) => {
                let code = unsigned(content);
                write!(&mut self.out, "0x{code:x}")
            }
            Place::Field(expected) if shape_of(token.code).is_none() => {
                push_field(&mut self.out, expected, token.code, content)
            }
            _ => self.write_anywhere(bytes, token, behind),
        }
    }

    /// Writes a value as it is written anywhere: whole, or up to its first part.
    fn write_anywhere(
        &mut self,
        bytes: &[u8],
        token: Token,
        behind: &[Token],
    ) -> Result<(), AllocError> {
        match shape_of(token.code) {
            None => push_leaf(&mut self.out, token.code, content_of(bytes, &token)),
            Some(Shape::Described) => self.begin_described(known_composite(bytes, behind)),
            Some(shape) => self.begin(opening(token.code), shape, token.parts),
        }
    }

    /// Begins a described value: one of a known composite, or another.
    fn begin_described(&mut self, composite: Option<Composite>) -> Result<(), AllocError> {
        match composite {
            Some(composite) => {
                self.out.push_str(composite.name)?;
                self.begin(" ", Shape::Named(composite), 2)
            }
            None => self.begin("", Shape::Described, 2),
        }
    }

    /// Begins a value with so many parts.
    fn begin(&mut self, opening: &str, shape: Shape, parts: usize) -> Result<(), AllocError> {
        self.out.push_str(opening)?;
        self.unfinished.push(Unfinished::new(shape, parts))?;
        Ok(())
    }

    /// Closes the values that have no more parts.
    fn close(&mut self) -> Result<(), AllocError> {
        for _ in 0..self.unfinished.len() {
            let Some(last) = self.unfinished.last() else {
                return Ok(());
            };
            if !last.is_finished() {
                return Ok(());
            }
            self.out.push_str(last.closing())?;
            self.unfinished.pop();
        }
        Ok(())
    }
}

/// How the parts of a value with this constructor are written, if it has parts.
fn shape_of(code: EncodingCodes) -> Option<Shape> {
    match code {
        EncodingCodes::DescribedType => Some(Shape::Described),
        EncodingCodes::List0 | EncodingCodes::List8 | EncodingCodes::List32 => Some(Shape::List),
        EncodingCodes::Map8 | EncodingCodes::Map32 => Some(Shape::Map),
        EncodingCodes::Array8 | EncodingCodes::Array32 => Some(Shape::Array),
        _ => None,
    }
}

/// What stands before the first part.
fn opening(code: EncodingCodes) -> &'static str {
    match code {
        EncodingCodes::Map8 | EncodingCodes::Map32 => "{",
        EncodingCodes::Array8 | EncodingCodes::Array32 => "array[",
        _ => "[",
    }
}

//! Strict forms of any size, taken by a loop.
ghost use Rattle.std.specs.Prelude.{◌≡◌, ◌≢◌, ◌<◌, ◌+◌, ◌∷◌, ◌++◌, [], ℕ, List, length, IfOk, IfErr, OnOk, Option};
ghost use Rattle.std.specs.Prelude.{Some, None, true, false, if◌then◌else◌, nat_lt, ◌==◌, is_some};
ghost use Rattle.std.specs.Int.{w32, from_be_bytes, to_be_bytes};
ghost use Rattle.std.specs.Str.{is_utf8};
ghost use Rattle.serde_amqp_item.specs.Wire.{Width, field_width, row_at, category_of, code_of, boolean_at, char_of};
ghost use Rattle.serde_amqp_item.specs.declared.codes.Category.TheVariants.{Fixed, Variable, Compound, Array};
ghost use Rattle.serde_amqp_read.specs.Reads.{Unless, NamedIfIo, NoStrict};
ghost use Rattle.serde_amqp_read.specs.Pending.{place_of, Moves, TookField, TookContent, NoContent, is_read};
ghost use Rattle.serde_amqp_read.specs.Pending.{is_element, Bare, admits, Taken, Opens, NoRow, Headed, Enters, NoForm};
ghost use Rattle.serde_amqp_read.specs.Pending.{plain_at, plain_width, Finishes, Unfinished, NeedsBytes, TookStrict};

use crate::reader::Read;
use serde_amqp_item::{Category, EncodingCodes, Error, code_of};
use std::alloc::Global;

/// Forms that stand one behind the other.
#[derive(Debug, Clone, Copy)]
pub struct Frame {
    /// How many of them are still to be taken.
    pub left: usize,
    /// The constructor that they inherit from their array, if any (part 1, section 1.2.4).
    pub inherited: Option<u8>,
    /// How many bytes are taken in all behind the last of them, where a size says so.
    pub end: Option<usize>,
}

/// Takes a strict form.
pub(crate) fn take_form<R: Read>(reader: &mut R, alloc: Global) -> Result<Vec<u8>, Error>
    ensures ok { IfOk result (λ v. TookStrict
        (place_of R.rest R.consumed R.ending R.ahead reader.old [])
        (place_of R.rest R.consumed R.ending R.ahead reader.new v.items)) }
    ensures refused { Unless R.faulty result (NoStrict (R.rest reader.old)) }
    ensures named { IfErr result (NamedIfIo (R.ending reader.old)) }
{
    let mut bytes = Vec::new(alloc);
    let mut stack = Vec::new(alloc);
    stack.push(Frame {
        left: 1,
        inherited: None,
        end: None,
    })?;
    while let Some(frame) = stack.pop() {
        match plain_width(frame) {
            Some(width) => take_plain(reader, &mut bytes, frame, width)?,
            None => {
                let opened = enter(reader, &mut bytes, frame.inherited)?;
                stack.push(Frame {
                    left: frame.left - 1,
                    inherited: frame.inherited,
                    end: frame.end,
                })?;
                stack.push(opened)?;
            }
        }
    }
    Ok(bytes)
}

/// The bytes of each form of a frame, where any so many bytes are one.
fn plain_width(frame: Frame) -> Option<usize>
    ensures { result ≡ plain_width frame }
{
    if frame.left == 0 {
        return Some(0);
    }
    match code_of(frame.inherited?)? {
        EncodingCodes::Boolean | EncodingCodes::Char => None,
        code => match Category::try_from(code) {
            Ok(Category::Fixed(width)) => Some(width),
            _ => None,
        },
    }
}

/// Takes all forms of a frame, each of which is any so many bytes.
#[tactic(auto, using(crate::proofs::Plain::finishing))]
fn take_plain<R: Read>(
    reader: &mut R,
    bytes: &mut Vec<u8>,
    frame: Frame,
    width: usize,
) -> Result<(), Error>
    ensures ok { OnOk result (Finishes frame width
        (place_of R.rest R.consumed R.ending R.ahead reader.old bytes.old.items)
        (place_of R.rest R.consumed R.ending R.ahead reader.new bytes.new.items)) }
    ensures refused { Unless R.faulty result
        (Unfinished frame width (place_of R.rest R.consumed R.ending R.ahead reader.old
        bytes.old.items)) }
    ensures named { IfErr result (NamedIfIo (R.ending reader.old)) }
{
    let Some(count) = frame.left.checked_mul(width) else {
        return Err(Error::Memory);
    };
    take_bytes(reader, bytes, count)?;
    match frame.end {
        Some(end) if end != bytes.len() => Err(Error::InvalidLength),
        _ => Ok(()),
    }
}

/// Takes the next form, but for the forms that it holds.
#[tactic(auto, using(crate::proofs::Entered::entering))]
fn enter<R: Read>(
    reader: &mut R,
    bytes: &mut Vec<u8>,
    inherited: Option<u8>,
) -> Result<Frame, Error>
    requires { NeedsBytes inherited }
    ensures ok { IfOk result (λ f. Enters inherited
        (place_of R.rest R.consumed R.ending R.ahead reader.old bytes.old.items)
        (place_of R.rest R.consumed R.ending R.ahead reader.new bytes.new.items) f) }
    ensures refused { Unless R.faulty result (NoForm inherited (R.rest reader.old)) }
    ensures named { IfErr result (NamedIfIo (R.ending reader.old)) }
{
    let code = take_code(reader, bytes, inherited)?;
    open(reader, bytes, code)
}

/// Takes the constructor of the next form, if it has one of its own.
#[tactic(auto, using(crate::proofs::Entered::entering))]
fn take_code<R: Read>(
    reader: &mut R,
    bytes: &mut Vec<u8>,
    inherited: Option<u8>,
) -> Result<EncodingCodes, Error>
    ensures ok { IfOk result (λ code. Headed inherited
        (place_of R.rest R.consumed R.ending R.ahead reader.old bytes.old.items)
        (place_of R.rest R.consumed R.ending R.ahead reader.new bytes.new.items) code) }
    ensures refused { Unless R.faulty result (NoForm inherited (R.rest reader.old)) }
    ensures named { IfErr result (NamedIfIo (R.ending reader.old)) }
{
    let byte = match inherited {
        Some(byte) => byte,
        None => take_byte(reader, bytes)?,
    };
    match code_of(byte) {
        Some(code) => Ok(code),
        None => Err(Error::InvalidFormatCode),
    }
}

/// Takes what stands behind a constructor, but for the forms that it holds.
#[tactic(auto, using(crate::proofs::Opened::opening))]
fn open<R: Read>(reader: &mut R, bytes: &mut Vec<u8>, code: EncodingCodes) -> Result<Frame, Error>
    ensures ok { IfOk result (λ f. Opens (row_at (Some code))
        (place_of R.rest R.consumed R.ending R.ahead reader.old bytes.old.items)
        (place_of R.rest R.consumed R.ending R.ahead reader.new bytes.new.items) f) }
    ensures refused { Unless R.faulty result (NoRow (row_at (Some code)) (R.rest reader.old)) }
    ensures named { IfErr result (NamedIfIo (R.ending reader.old)) }
{
    match Category::try_from(code) {
        Err(_) => Ok(Frame {
            left: 2,
            inherited: None,
            end: None,
        }),
        Ok(Category::Fixed(width)) => {
            take_content(reader, bytes, code, width)?;
            Ok(CLOSED)
        }
        Ok(Category::Variable(width)) => {
            let size = take_number(reader, bytes, width)?;
            take_content(reader, bytes, code, size)?;
            Ok(CLOSED)
        }
        Ok(Category::Compound(width)) => open_items(reader, bytes, code, width),
        Ok(Category::Array(width)) => open_array(reader, bytes, code, width),
    }
}

/// A form that holds no others.
const CLOSED: Frame = Frame {
    left: 0,
    inherited: None,
    end: None,
};

/// Takes the size and the count of a list or a map (part 1, section 1.2.3).
#[tactic(auto, using(crate::proofs::Opened::opening))]
fn open_items<R: Read>(
    reader: &mut R,
    bytes: &mut Vec<u8>,
    code: EncodingCodes,
    width: usize,
) -> Result<Frame, Error>
    requires { category_of (row_at (Some code)) ≡ Some (Compound width) }
    ensures ok { IfOk result (λ f. Opens (row_at (Some code))
        (place_of R.rest R.consumed R.ending R.ahead reader.old bytes.old.items)
        (place_of R.rest R.consumed R.ending R.ahead reader.new bytes.new.items) f) }
    ensures refused { Unless R.faulty result (NoRow (row_at (Some code)) (R.rest reader.old)) }
    ensures named { IfErr result (NamedIfIo (R.ending reader.old)) }
{
    let size = take_number(reader, bytes, width)?;
    let Some(end) = bytes.len().checked_add(size) else {
        return Err(Error::Memory);
    };
    let count = take_number(reader, bytes, width)?;
    if !is_admitted(code, count) {
        return Err(Error::InvalidLength);
    }
    Ok(Frame {
        left: count,
        inherited: None,
        end: Some(end),
    })
}

/// Takes the size, the count and the constructor of an array (part 1, section 1.2.4).
fn open_array<R: Read>(
    reader: &mut R,
    bytes: &mut Vec<u8>,
    code: EncodingCodes,
    width: usize,
) -> Result<Frame, Error>
    requires { category_of (row_at (Some code)) ≡ Some (Array width) }
    ensures ok { IfOk result (λ f. Opens (row_at (Some code))
        (place_of R.rest R.consumed R.ending R.ahead reader.old bytes.old.items)
        (place_of R.rest R.consumed R.ending R.ahead reader.new bytes.new.items) f) }
    ensures refused { Unless R.faulty result (NoRow (row_at (Some code)) (R.rest reader.old)) }
    ensures named { IfErr result (NamedIfIo (R.ending reader.old)) }
{
    let size = take_number(reader, bytes, width)?;
    let Some(end) = bytes.len().checked_add(size) else {
        return Err(Error::Memory);
    };
    let count = take_number(reader, bytes, width)?;
    if is_bare(width, size, count) {
        return Ok(CLOSED);
    }
    let element = take_byte(reader, bytes)?;
    if !is_element_code(element, count) {
        return Err(Error::InvalidFormatCode);
    }
    Ok(Frame {
        left: count,
        inherited: Some(element),
        end: Some(end),
    })
}

/// Is it an empty array without a constructor?
fn is_bare(width: usize, size: usize, count: usize) -> bool
    ensures bare { result ≡ true → Bare width size count }
    ensures filled { result ≡ false → Bare width size count → ⊥ }
{
    width == 1 && size == 1 && count == 0
}

/// May so many elements have this constructor?
fn is_element_code(byte: u8, count: usize) -> bool
    ensures { result ≡ is_element (code_of byte) count }
{
    let Some(code) = code_of(byte) else {
        return false;
    };
    match code {
        EncodingCodes::Null | EncodingCodes::DescribedType => count == 0,
        _ => true,
    }
}

/// May a form with this constructor hold so many forms? A map holds keys and values in turn.
fn is_admitted(code: EncodingCodes, count: usize) -> bool
    ensures { result ≡ admits (row_at (Some code)) count }
{
    match code {
        EncodingCodes::Map8 | EncodingCodes::Map32 => count % 2 == 0,
        _ => true,
    }
}

/// Do the bytes mean a value behind this constructor?
#[tactic(auto, using(crate::proofs::Numbers::validating))]
fn is_valid(code: EncodingCodes, content: &[u8]) -> bool
    requires { (n : ℕ) → category_of (row_at (Some code)) ≡ Some (Fixed n) →
        length content.now ≡ n }
    ensures { result ≡ is_read (row_at (Some code)) content.now }
{
    match code {
        EncodingCodes::Boolean => is_boolean(content),
        EncodingCodes::Char => is_char(content),
        EncodingCodes::Str8 | EncodingCodes::Str32 | EncodingCodes::Sym8 | EncodingCodes::Sym32 => {
            is_text(content)
        }
        _ => true,
    }
}

/// Is it UTF-8 (part 1, sections 1.6.20 and 1.6.21)?
#[tactic(auto, using(crate::proofs::Fronts::texts))]
fn is_text(content: &[u8]) -> bool
    ensures { result ≡ is_utf8 content.now }
{
    match str::from_utf8(content) {
        Ok(_) => true,
        Err(_) => false,
    }
}

/// Is it a boolean in one byte (part 1, section 1.6.2)?
fn is_boolean(content: &[u8]) -> bool
    ensures { result ≡ is_some (boolean_at content.now) }
{
    match content {
        [byte] => *byte <= 1,
        _ => false,
    }
}

/// Is it a Unicode scalar value (part 1, section 1.6.16)?
fn is_char(content: &[u8]) -> bool
    requires { length content.now ≡ 4 }
    ensures { result ≡ is_some (char_of (from_be_bytes w32 content.now)) }
{
    match content {
        [a, b, c, d] => char::from_u32(u32::from_be_bytes([*a, *b, *c, *d])).is_some(),
        _ => false,
    }
}

/// Takes so many bytes that mean a value behind this constructor.
#[tactic(auto, using(crate::proofs::Numbers::numbering))]
fn take_content<R: Read>(
    reader: &mut R,
    bytes: &mut Vec<u8>,
    code: EncodingCodes,
    count: usize,
) -> Result<(), Error>
    requires { (n : ℕ) → category_of (row_at (Some code)) ≡ Some (Fixed n) → count ≡ n }
    ensures ok { OnOk result (TookContent (row_at (Some code)) count
        (place_of R.rest R.consumed R.ending R.ahead reader.old bytes.old.items)
        (place_of R.rest R.consumed R.ending R.ahead reader.new bytes.new.items)) }
    ensures refused { Unless R.faulty result
        (NoContent (row_at (Some code)) count (R.rest reader.old)) }
    ensures named { IfErr result (NamedIfIo (R.ending reader.old)) }
{
    let start = bytes.len();
    take_bytes(reader, bytes, count)?;
    if is_valid(code, &bytes[start..]) {
        return Ok(());
    }
    Err(match code {
        EncodingCodes::Boolean | EncodingCodes::Char => Error::InvalidValue,
        _ => Error::InvalidUtf8Encoding,
    })
}

/// Takes a number field of one or of four bytes.
#[tactic(auto, using(crate::proofs::Numbers::numbering))]
fn take_number<R: Read>(reader: &mut R, bytes: &mut Vec<u8>, width: usize) -> Result<usize, Error>
    ensures ok { IfOk result (λ n. (w : Width) → field_width w ≡ width →
        TookField w (place_of R.rest R.consumed R.ending R.ahead reader.old bytes.old.items)
        (place_of R.rest R.consumed R.ending R.ahead reader.new bytes.new.items) n) }
    ensures refused { Unless R.faulty result
        ((w : Width) → field_width w ≡ width → length (R.rest reader.old) < field_width w) }
    ensures lasting { OnOk result (R.ending reader.new ≡ R.ending reader.old) }
    ensures named { IfErr result (NamedIfIo (R.ending reader.old)) }
{
    if width == 1 {
        let byte = take_byte(reader, bytes)?;
        return Ok(byte as usize);
    }
    let number = take_u32(reader, bytes)?;
    Ok(number as usize)
}

/// Takes a number of four bytes.
fn take_u32<R: Read>(reader: &mut R, bytes: &mut Vec<u8>) -> Result<u32, Error>
    ensures ok { IfOk result
        (λ n. Moves (place_of R.rest R.consumed R.ending R.ahead reader.old bytes.old.items)
        (place_of R.rest R.consumed R.ending R.ahead reader.new bytes.new.items)
        (to_be_bytes w32 n)) }
    ensures end { Unless R.faulty result (length (R.rest reader.old) < 4) }
    ensures named { IfErr result (NamedIfIo (R.ending reader.old)) }
{
    let number = reader.read_const_bytes::<4>()?;
    bytes.extend_from_slice(&number)?;
    Ok(u32::from_be_bytes(number))
}

/// Takes the next byte.
fn take_byte<R: Read>(reader: &mut R, bytes: &mut Vec<u8>) -> Result<u8, Error>
    ensures ok { IfOk result
        (λ b. Moves (place_of R.rest R.consumed R.ending R.ahead reader.old bytes.old.items)
        (place_of R.rest R.consumed R.ending R.ahead reader.new bytes.new.items) (b ∷ [])) }
    ensures end { Unless R.faulty result (R.rest reader.old ≡ []) }
    ensures named { IfErr result (NamedIfIo (R.ending reader.old)) }
{
    let byte = reader.next()?;
    bytes.push(byte)?;
    Ok(byte)
}

/// Takes so many bytes.
#[tactic(auto, using(crate::proofs::Numbers::numbering))]
fn take_bytes<R: Read>(reader: &mut R, bytes: &mut Vec<u8>, count: usize) -> Result<(), Error>
    ensures ok { OnOk result (Taken count
        (place_of R.rest R.consumed R.ending R.ahead reader.old bytes.old.items)
        (place_of R.rest R.consumed R.ending R.ahead reader.new bytes.new.items)) }
    ensures end { Unless R.faulty result (length (R.rest reader.old) < count) }
    ensures named { IfErr result (NamedIfIo (R.ending reader.old)) }
{
    reader.append_bytes(count, bytes)?;
    Ok(())
}

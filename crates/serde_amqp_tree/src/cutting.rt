//! What is cut off the bytes in front of what is finished.
ghost use Rattle.std.specs.Prelude.{◌≡◌, ◌++◌, Option, Some, IfOk, OnOk};
ghost use Rattle.serde_amqp_item.specs.Wire.{field_width, row_at, four_bytes};
ghost use Rattle.serde_amqp_tree.specs.Tree.{CutsNumber, CutsHead, CutsElement, CutsSize, HasWidth, width_of};

use serde_amqp_item::{Category, EncodingCodes, Error, code_of};

/// Cuts off these last bytes.
#[tactic(auto, using(crate::proofs::Cuts::cutting))]
pub(crate) fn cut<'a>(front: &'a [u8], last: &[u8]) -> Result<&'a [u8], Error>
    ensures { IfOk result (λ r. front.now ≡ r.now ++ last.now) }
{
    let Some(at) = front.len().checked_sub(last.len()) else {
        return Err(Error::InvalidLength);
    };
    let (rest, tail) = front.split_at(at);
    if tail == last {
        return Ok(rest);
    }
    Err(Error::InvalidLength)
}

/// Cuts off a number field of one or of four bytes.
#[tactic(auto, using(crate::proofs::Cuts::cutting))]
pub(crate) fn cut_number(front: &[u8], wide: bool, number: usize) -> Result<&[u8], Error>
    ensures { IfOk result (λ r. CutsNumber (width_of wide) number front.now r.now) }
{
    if wide {
        return cut_word(front, number);
    }
    let Ok(byte) = u8::try_from(number) else {
        return Err(Error::InvalidLength);
    };
    cut(front, &[byte])
}

/// Cuts off a number field of four bytes.
#[tactic(auto, using(crate::proofs::Cuts::cutting))]
fn cut_word(front: &[u8], number: usize) -> Result<&[u8], Error>
    ensures { IfOk result (λ r. CutsNumber four_bytes number front.now r.now) }
{
    let Ok(word) = u32::try_from(number) else {
        return Err(Error::InvalidLength);
    };
    cut(front, &word.to_be_bytes())
}

/// The bytes of a number field.
fn width_of(wide: bool) -> usize
    ensures { result ≡ field_width (width_of wide) }
{
    if wide { 4 } else { 1 }
}

/// Cuts off the size and the count of a value that holds so many others, in so many bytes.
#[tactic(auto, using(crate::proofs::Cuts::cutting))]
pub(crate) fn cut_head(
    front: &[u8],
    wide: bool,
    count: usize,
    length: usize,
) -> Result<&[u8], Error>
    ensures { IfOk result (λ r. CutsHead (width_of wide) count length front.now r.now) }
{
    let Some(size) = length.checked_add(width_of(wide)) else {
        return Err(Error::InvalidLength);
    };
    let front = cut_number(front, wide, count)?;
    cut_number(front, wide, size)
}

/// Cuts off the constructor of so many elements.
#[tactic(auto, using(crate::proofs::Cuts::cutting))]
pub(crate) fn cut_element(front: &[u8], count: usize) -> Result<(EncodingCodes, &[u8]), Error>
    ensures { IfOk result (λ r. CutsElement count r.0 front.now r.1.now) }
{
    let Some(last) = front.last() else {
        return Err(Error::InvalidLength);
    };
    let byte = *last;
    let rest = cut(front, &[byte])?;
    let Some(element) = code_of(byte) else {
        return Err(Error::InvalidFormatCode);
    };
    if count == 0 {
        return Ok((element, rest));
    }
    if byte == 0x40 {
        return Err(Error::InvalidFormatCode);
    }
    if byte == 0x00 {
        return Err(Error::InvalidFormatCode);
    }
    Ok((element, rest))
}

/// Cuts off the size of so many bytes of content, if the constructor has one.
#[tactic(auto, using(crate::proofs::Cuts::cutting))]
pub(crate) fn cut_size(front: &[u8], code: EncodingCodes, length: usize) -> Result<&[u8], Error>
    ensures { IfOk result (λ r. CutsSize (row_at (Some code)) length front.now r.now) }
{
    match code {
        EncodingCodes::Vbin8 | EncodingCodes::Str8 | EncodingCodes::Sym8 => {
            cut_number(front, false, length)
        }
        EncodingCodes::Vbin32 | EncodingCodes::Str32 | EncodingCodes::Sym32 => {
            cut_number(front, true, length)
        }
        code => {
            check_width(code, length)?;
            Ok(front)
        }
    }
}

/// Refuses content of another width than that of the constructor.
#[tactic(auto, using(crate::proofs::Cuts::cutting))]
fn check_width(code: EncodingCodes, length: usize) -> Result<(), Error>
    ensures { OnOk result (HasWidth (row_at (Some code)) length) }
{
    match Category::try_from(code) {
        Ok(Category::Fixed(width)) => {
            if width == length {
                return Ok(());
            }
            Err(Error::InvalidLength)
        }
        _ => Err(Error::InvalidLength),
    }
}

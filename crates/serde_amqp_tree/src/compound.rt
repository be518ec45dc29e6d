//! The texts of values that hold others, whose texts stand there already.
ghost use Rattle.std.specs.Prelude.{◌≡◌, ◌+◌, ◌<◌, ◌∷◌, List, reverse, true, false, IfOk, OnOk};
ghost use Rattle.serde_amqp_item.specs.Wire.{one_byte, list_of, map_of, array_of, described_by, empty_list};
ghost use Rattle.serde_amqp_tree.specs.declared.finished.Finished.{Finished};
ghost use Rattle.serde_amqp_tree.specs.Tree.{Puts, PutsWide, Closes, counted_of, list_of_text, element_byte, wide_code};
ghost use Rattle.serde_amqp_tree.specs.Tree.{width_of};

use crate::backwards::Backwards;
use crate::cutting::{cut, cut_element, cut_head};
use crate::finished::{Finished, Lengths, join};
use serde_amqp_item::{EncodingCodes, Error, MAX_ARRAY_COUNT};

/// What holds nothing.
pub(crate) const NOTHING: Lengths = Lengths { bytes: 0, text: 0 };

/// Puts the size and the count in four bytes each.
#[tactic(auto, using(crate::proofs::Puttings::putting))]
fn put_wide_head(text: &mut Backwards, count: usize, length: usize) -> Result<(), Error>
    ensures { OnOk result (PutsWide count length text.old text.new) }
{
    let Some(size) = length.checked_add(4) else {
        return Err(Error::InvalidLength);
    };
    let Ok(size) = u32::try_from(size) else {
        return Err(Error::InvalidLength);
    };
    let Ok(count) = u32::try_from(count) else {
        return Err(Error::InvalidLength);
    };
    text.put(&count.to_be_bytes())?;
    text.put(&size.to_be_bytes())
}

/// Puts the constructor, the size and the count in one byte each.
fn put_narrow_head(
    text: &mut Backwards,
    narrow: u8,
    count: usize,
    length: usize,
) -> Result<(), Error>
    requires { length < 255 }
    ensures { OnOk result (text.new ≡ narrow ∷ (length + 1) ∷ count ∷ text.old) }
{
    let Ok(count) = u8::try_from(count) else {
        return Err(Error::InvalidLength);
    };
    text.put(&[narrow, length as u8 + 1, count])
}

/// Puts the size and the count in front of so many bytes of content, and the constructor unless it is
/// inherited: the narrow one up to 254 bytes.
#[tactic(auto, using(crate::proofs::Puttings::putting))]
fn put_head(
    text: &mut Backwards,
    inherited: bool,
    narrow: u8,
    wide: u8,
    count: usize,
    length: usize,
) -> Result<(), Error>
    ensures { OnOk result (Puts (counted_of inherited narrow wide count) length text.old text.new) }
{
    if inherited {
        return put_wide_head(text, count, length);
    }
    if length < 255 {
        return put_narrow_head(text, narrow, count, length);
    }
    put_wide_head(text, count, length)?;
    text.put(&[wide])?;
    Ok(())
}

/// The same for a list, which is one byte where it has no content.
#[tactic(auto, using(crate::proofs::Puttings::putting))]
fn put_list_head(
    text: &mut Backwards,
    inherited: bool,
    count: usize,
    length: usize,
) -> Result<(), Error>
    ensures { OnOk result (Puts (list_of_text inherited count) length text.old text.new) }
{
    if inherited {
        return put_head(text, inherited, 0xc0, 0xd0, count, length);
    }
    if length == 0 {
        text.put(&[0x45])?;
        return Ok(());
    }
    put_head(text, inherited, 0xc0, 0xd0, count, length)
}

/// Finishes a list with no bytes behind its constructor.
#[tactic(auto, using(crate::proofs::Closings::closing))]
pub(crate) fn finish_empty_list<'a>(
    front: &'a [u8],
    text: &mut Backwards,
    inherited: bool,
) -> Result<(&'a [u8], Lengths), Error>
    ensures { IfOk result (λ r. (fs : List Finished) →
        Closes inherited empty_list 0xd0 r.1 front.now r.0.now fs fs text.old text.new) }
{
    put_list_head(text, inherited, 0, 0)?;
    Ok((front, NOTHING))
}

/// Finishes a list of the first so many values.
#[tactic(auto, using(crate::proofs::Closings::closing))]
pub(crate) fn finish_list<'a>(
    front: &'a [u8],
    stack: &mut Vec<Finished>,
    text: &mut Backwards,
    inherited: bool,
    wide: bool,
    count: usize,
) -> Result<(&'a [u8], Lengths), Error>
    ensures { IfOk result (λ r. Closes inherited (list_of (width_of wide)) 0xd0 r.1 front.now
        r.0.now (reverse stack.old.items) (reverse stack.new.items) text.old text.new) }
{
    if count > MAX_ARRAY_COUNT {
        return Err(Error::InvalidLength);
    }
    let parts = join(stack, count, None)?;
    let rest = cut_head(front, wide, count, parts.bytes)?;
    put_list_head(text, inherited, count, parts.text)?;
    Ok((rest, parts))
}

/// Finishes a map of the first so many values, keys and values in turn.
#[tactic(auto, using(crate::proofs::Closings::closing))]
pub(crate) fn finish_map<'a>(
    front: &'a [u8],
    stack: &mut Vec<Finished>,
    text: &mut Backwards,
    inherited: bool,
    wide: bool,
    count: usize,
) -> Result<(&'a [u8], Lengths), Error>
    ensures { IfOk result (λ r. Closes inherited (map_of (width_of wide)) 0xd1 r.1 front.now r.0.now
        (reverse stack.old.items) (reverse stack.new.items) text.old text.new) }
{
    if count > MAX_ARRAY_COUNT {
        return Err(Error::InvalidLength);
    }
    if count % 2 != 0 {
        return Err(Error::InvalidLength);
    }
    let parts = join(stack, count, None)?;
    let rest = cut_head(front, wide, count, parts.bytes)?;
    put_head(text, inherited, 0xc1, 0xd1, count, parts.text)?;
    Ok((rest, parts))
}

/// Finishes a described value: a descriptor and a value, the first two. It is no element of an array.
#[tactic(auto, using(crate::proofs::Closings::closing))]
pub(crate) fn finish_described<'a>(
    front: &'a [u8],
    stack: &mut Vec<Finished>,
    text: &mut Backwards,
    inherited: bool,
) -> Result<(&'a [u8], Lengths), Error>
    ensures { IfOk result (λ r. Closes inherited described_by 0x00 r.1 front.now r.0.now
        (reverse stack.old.items) (reverse stack.new.items) text.old text.new) }
{
    if inherited {
        return Err(Error::InvalidFormatCode);
    }
    let parts = join(stack, 2, None)?;
    text.put(&[0x00])?;
    Ok((front, parts))
}

/// Finishes an array of the first so many values.
#[tactic(auto, using(crate::proofs::Closings::closing))]
pub(crate) fn finish_array<'a>(
    front: &'a [u8],
    stack: &mut Vec<Finished>,
    text: &mut Backwards,
    inherited: bool,
    wide: bool,
    count: usize,
) -> Result<(&'a [u8], Lengths), Error>
    ensures { IfOk result (λ r. Closes inherited (array_of (width_of wide)) 0xf0 r.1 front.now
        r.0.now (reverse stack.old.items) (reverse stack.new.items) text.old text.new) }
{
    if is_bare(front, wide, count) {
        return finish_bare_array(front, text, inherited);
    }
    finish_elements(front, stack, text, inherited, wide, count)
}

/// Is it an empty array without a constructor, of which the size is 1?
fn is_bare(front: &[u8], wide: bool, count: usize) -> bool
    ensures { result ≡ true → wide ≡ false }
{
    if wide {
        return false;
    }
    count == 0 && front.ends_with(&[1, 0])
}

/// Finishes an empty array without a constructor.
#[tactic(auto, using(crate::proofs::Closings::closing))]
fn finish_bare_array<'a>(
    front: &'a [u8],
    text: &mut Backwards,
    inherited: bool,
) -> Result<(&'a [u8], Lengths), Error>
    ensures { IfOk result (λ r. (fs : List Finished) →
        Closes inherited (array_of one_byte) 0xf0 r.1 front.now r.0.now fs fs text.old text.new) }
{
    let rest = cut(front, &[1, 0])?;
    text.put(&[0x40])?;
    put_head(text, inherited, 0xe0, 0xf0, 0, 1)?;
    Ok((rest, NOTHING))
}

/// Finishes an array that has a constructor for its elements.
#[tactic(auto, using(crate::proofs::Closings::closing))]
fn finish_elements<'a>(
    front: &'a [u8],
    stack: &mut Vec<Finished>,
    text: &mut Backwards,
    inherited: bool,
    wide: bool,
    count: usize,
) -> Result<(&'a [u8], Lengths), Error>
    ensures { IfOk result (λ r. Closes inherited (array_of (width_of wide)) 0xf0 r.1 front.now
        r.0.now (reverse stack.old.items) (reverse stack.new.items) text.old text.new) }
{
    if count > MAX_ARRAY_COUNT {
        return Err(Error::InvalidLength);
    }
    let (element, before) = cut_element(front, count)?;
    let parts = join(stack, count, Some(element))?;
    let rest = cut_head(before, wide, count, one_more(parts.bytes)?)?;
    put_element(text, element, count)?;
    put_head(text, inherited, 0xe0, 0xf0, count, one_more(parts.text)?)?;
    Ok((rest, parts))
}

fn one_more(length: usize) -> Result<usize, Error>
    ensures { IfOk result (λ n. n ≡ length + 1) }
{
    match length.checked_add(1) {
        Some(more) => Ok(more),
        None => Err(Error::InvalidLength),
    }
}

/// Puts the constructor of so many elements that have this one.
fn put_element(text: &mut Backwards, element: EncodingCodes, count: usize) -> Result<(), Error>
    ensures { OnOk result (text.new ≡ element_byte count element ∷ text.old) }
{
    if count == 0 {
        return text.put(&[0x40]);
    }
    text.put(&[wide_code(element).byte()])
}

/// The constructor of the wide form of a value with this one, null and described ones aside.
fn wide_code(code: EncodingCodes) -> EncodingCodes
    ensures { result ≡ wide_code code }
{
    match code {
        EncodingCodes::BooleanTrue | EncodingCodes::BooleanFalse => EncodingCodes::Boolean,
        EncodingCodes::SmallUInt | EncodingCodes::UInt0 => EncodingCodes::UInt,
        EncodingCodes::SmallULong | EncodingCodes::ULong0 => EncodingCodes::ULong,
        EncodingCodes::SmallInt => EncodingCodes::Int,
        EncodingCodes::SmallLong => EncodingCodes::Long,
        EncodingCodes::Vbin8 => EncodingCodes::Vbin32,
        EncodingCodes::Str8 => EncodingCodes::Str32,
        EncodingCodes::Sym8 => EncodingCodes::Sym32,
        EncodingCodes::List0 | EncodingCodes::List8 => EncodingCodes::List32,
        EncodingCodes::Map8 => EncodingCodes::Map32,
        EncodingCodes::Array8 => EncodingCodes::Array32,
        code => code,
    }
}

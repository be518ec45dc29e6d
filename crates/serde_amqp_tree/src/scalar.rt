//! The texts of scalars, from the bytes behind their constructors.
ghost use Rattle.std.specs.Prelude.{◌≡◌, ◌∷◌, ◌++◌, [], IfOk, OnOk, Some, true};
ghost use Rattle.std.specs.Str.{is_utf8};
ghost use Rattle.serde_amqp_item.specs.Item.{null, boolean, ubyte, ushort, uint, ulong, byte, short, int, long, float};
ghost use Rattle.serde_amqp_item.specs.Item.{double, char, timestamp};
ghost use Rattle.serde_amqp_item.specs.Wire.{row_at, boolean_at};
ghost use Rattle.serde_amqp_item.specs.declared.codes.EncodingCodes.TheVariants.{Null, BooleanTrue, BooleanFalse};
ghost use Rattle.serde_amqp_item.specs.declared.codes.EncodingCodes.TheVariants.{Boolean, UByte, UShort, UInt};
ghost use Rattle.serde_amqp_item.specs.declared.codes.EncodingCodes.TheVariants.{SmallUInt, UInt0, ULong, SmallULong};
ghost use Rattle.serde_amqp_item.specs.declared.codes.EncodingCodes.TheVariants.{ULong0, Byte, Short, Int, SmallInt};
ghost use Rattle.serde_amqp_item.specs.declared.codes.EncodingCodes.TheVariants.{Long, SmallLong, Float, Double};
ghost use Rattle.serde_amqp_item.specs.declared.codes.EncodingCodes.TheVariants.{Decimal32, Decimal64, Decimal128};
ghost use Rattle.serde_amqp_item.specs.declared.codes.EncodingCodes.TheVariants.{Char, Timestamp, Uuid, Vbin8, Str8};
ghost use Rattle.serde_amqp_item.specs.declared.codes.EncodingCodes.TheVariants.{Sym8};
ghost use Rattle.serde_amqp_tree.specs.Tree.{PutsScalar, reading, wide_byte, led, PutsSized, PutsWideSized};
ghost use Rattle.serde_amqp_tree.specs.Tree.{boolean_byte};

use crate::backwards::Backwards;
use serde_amqp_item::{EncodingCodes, Error};

/// Puts the text of the scalar that these bytes mean behind this constructor: its canonical text, or as an
/// element of an array its wide form without the constructor.
pub(crate) fn put_scalar(
    text: &mut Backwards,
    inherited: bool,
    code: EncodingCodes,
    content: &[u8],
) -> Result<(), Error>
    ensures { OnOk result (PutsScalar inherited (wide_byte code)
        (reading (row_at (Some code)) content.now) text.old text.new) }
{
    match code {
        EncodingCodes::Null => put_null(text, inherited),
        EncodingCodes::BooleanTrue => put_boolean(text, inherited, true),
        EncodingCodes::BooleanFalse => put_boolean(text, inherited, false),
        EncodingCodes::Boolean => put_boolean_byte(text, inherited, content),
        EncodingCodes::UInt => put_uint_word(text, inherited, content),
        EncodingCodes::SmallUInt => put_uint_byte(text, inherited, content),
        EncodingCodes::UInt0 => put_uint(text, inherited, 0),
        EncodingCodes::ULong => put_ulong_word(text, inherited, content),
        EncodingCodes::SmallULong => put_ulong_byte(text, inherited, content),
        EncodingCodes::ULong0 => put_ulong(text, inherited, 0),
        EncodingCodes::Int => put_int_word(text, inherited, content),
        EncodingCodes::SmallInt => put_int_byte(text, inherited, content),
        EncodingCodes::Long => put_long_word(text, inherited, content),
        EncodingCodes::SmallLong => put_long_byte(text, inherited, content),
        EncodingCodes::Vbin8 | EncodingCodes::Vbin32 => put_binary(text, inherited, content),
        EncodingCodes::Str8 | EncodingCodes::Str32 => put_string(text, inherited, content),
        EncodingCodes::Sym8 | EncodingCodes::Sym32 => put_symbol(text, inherited, content),
        _ => put_plain(text, inherited, code, content),
    }
}

/// Puts the text of a scalar of which the canonical text is the wide form.
fn put_plain(
    text: &mut Backwards,
    inherited: bool,
    code: EncodingCodes,
    content: &[u8],
) -> Result<(), Error>
    ensures { OnOk result (PutsScalar inherited (wide_byte code)
        (reading (row_at (Some code)) content.now) text.old text.new) }
{
    match code {
        EncodingCodes::UByte => put_ubyte_byte(text, inherited, content),
        EncodingCodes::UShort => put_ushort_word(text, inherited, content),
        EncodingCodes::Byte => put_byte_byte(text, inherited, content),
        EncodingCodes::Short => put_short_word(text, inherited, content),
        EncodingCodes::Float => put_float_word(text, inherited, content),
        EncodingCodes::Double => put_double_word(text, inherited, content),
        EncodingCodes::Char => put_char_word(text, inherited, content),
        EncodingCodes::Timestamp => put_timestamp_word(text, inherited, content),
        EncodingCodes::Decimal32 => put_decimal32(text, inherited, content),
        EncodingCodes::Decimal64 => put_decimal64(text, inherited, content),
        EncodingCodes::Decimal128 => put_decimal128(text, inherited, content),
        EncodingCodes::Uuid => put_uuid(text, inherited, content),
        _ => Err(Error::InvalidFormatCode),
    }
}

/// Puts a constructor, unless it is inherited, and this behind it.
fn put_behind(
    text: &mut Backwards,
    inherited: bool,
    constructor: u8,
    content: &[u8],
) -> Result<(), Error>
    ensures { OnOk result (text.new ≡ led inherited constructor (content.now ++ text.old)) }
{
    text.put(content)?;
    if inherited {
        return Ok(());
    }
    text.put(&[constructor])?;
    Ok(())
}

/// So many bytes, all of them.
fn bytes_of<const N: usize>(content: &[u8]) -> Result<[u8; N], Error>
    ensures { IfOk result (λ bytes. bytes ≡ content.now) }
{
    match <[u8; N]>::try_from(content) {
        Ok(bytes) => Ok(bytes),
        Err(_) => Err(Error::InvalidLength),
    }
}

/// The one byte that there is.
fn byte_of(content: &[u8]) -> Result<u8, Error>
    ensures { IfOk result (λ b. content.now ≡ b ∷ []) }
{
    match content {
        [byte] => Ok(*byte),
        _ => Err(Error::InvalidLength),
    }
}

/// Puts null, which is no element of an array (part 1, section 1.6.1).
#[tactic(auto, using(crate::proofs::Scalars::scalars))]
fn put_null(text: &mut Backwards, inherited: bool) -> Result<(), Error>
    ensures { OnOk result (PutsScalar inherited 0x40 (Some null) text.old text.new) }
{
    if inherited {
        return Err(Error::InvalidFormatCode);
    }
    text.put(&[0x40])?;
    Ok(())
}

/// Puts a boolean: by its constructor, or in an array in one byte (section 1.6.2).
#[tactic(auto, using(crate::proofs::Scalars::scalars))]
fn put_boolean(text: &mut Backwards, inherited: bool, value: bool) -> Result<(), Error>
    ensures { OnOk result (PutsScalar inherited 0x56 (Some (boolean value)) text.old text.new) }
{
    text.put(&[boolean_byte(inherited, value)])?;
    Ok(())
}

/// The byte that a boolean is written as.
fn boolean_byte(inherited: bool, value: bool) -> u8
    ensures { result ≡ boolean_byte inherited value }
{
    if inherited {
        if value { 1 } else { 0 }
    } else if value {
        0x41
    } else {
        0x42
    }
}

fn put_boolean_byte(text: &mut Backwards, inherited: bool, content: &[u8]) -> Result<(), Error>
    ensures { OnOk result (PutsScalar inherited 0x56 (boolean_at content.now) text.old text.new) }
{
    let byte = byte_of(content)?;
    if byte > 1 {
        return Err(Error::InvalidValue);
    }
    put_boolean(text, inherited, byte == 1)?;
    Ok(())
}

/// Puts a number: in no byte, in one byte where it fits, in an array always in 4 (section 1.6.5).
#[tactic(auto, using(crate::proofs::Scalars::scalars))]
fn put_uint(text: &mut Backwards, inherited: bool, value: u32) -> Result<(), Error>
    ensures { OnOk result (PutsScalar inherited 0x70 (Some (uint value)) text.old text.new) }
{
    if inherited {
        text.put(&value.to_be_bytes())?;
        return Ok(());
    }
    if value == 0 {
        text.put(&[0x43])?;
        return Ok(());
    }
    if value < 256 {
        text.put(&[0x52, value as u8])?;
        return Ok(());
    }
    put_behind(text, false, 0x70, &value.to_be_bytes())?;
    Ok(())
}

fn put_uint_word(text: &mut Backwards, inherited: bool, content: &[u8]) -> Result<(), Error>
    ensures { OnOk result (PutsScalar inherited 0x70 (reading (row_at (Some UInt)) content.now)
        text.old text.new) }
{
    let value = u32::from_be_bytes(bytes_of::<4>(content)?);
    put_uint(text, inherited, value)?;
    Ok(())
}

fn put_uint_byte(text: &mut Backwards, inherited: bool, content: &[u8]) -> Result<(), Error>
    ensures { OnOk result (PutsScalar inherited 0x70 (reading (row_at (Some SmallUInt)) content.now)
        text.old text.new) }
{
    let value = u32::from(byte_of(content)?);
    put_uint(text, inherited, value)?;
    Ok(())
}

/// Puts a number: in no byte, in one byte where it fits, in an array always in 8 (section 1.6.6).
#[tactic(auto, using(crate::proofs::Scalars::scalars))]
fn put_ulong(text: &mut Backwards, inherited: bool, value: u64) -> Result<(), Error>
    ensures { OnOk result (PutsScalar inherited 0x80 (Some (ulong value)) text.old text.new) }
{
    if inherited {
        text.put(&value.to_be_bytes())?;
        return Ok(());
    }
    if value == 0 {
        text.put(&[0x44])?;
        return Ok(());
    }
    if value < 256 {
        text.put(&[0x53, value as u8])?;
        return Ok(());
    }
    put_behind(text, false, 0x80, &value.to_be_bytes())?;
    Ok(())
}

fn put_ulong_word(text: &mut Backwards, inherited: bool, content: &[u8]) -> Result<(), Error>
    ensures { OnOk result (PutsScalar inherited 0x80 (reading (row_at (Some ULong)) content.now)
        text.old text.new) }
{
    let value = u64::from_be_bytes(bytes_of::<8>(content)?);
    put_ulong(text, inherited, value)?;
    Ok(())
}

fn put_ulong_byte(text: &mut Backwards, inherited: bool, content: &[u8]) -> Result<(), Error>
    ensures { OnOk result (PutsScalar inherited 0x80
        (reading (row_at (Some SmallULong)) content.now) text.old text.new) }
{
    let value = u64::from(byte_of(content)?);
    put_ulong(text, inherited, value)?;
    Ok(())
}

/// Puts a number: in one byte where it fits, in an array always in 4 (section 1.6.9).
#[tactic(auto, using(crate::proofs::Scalars::scalars))]
fn put_int(text: &mut Backwards, inherited: bool, value: i32) -> Result<(), Error>
    ensures { OnOk result (PutsScalar inherited 0x71 (Some (int value)) text.old text.new) }
{
    if inherited {
        text.put(&value.to_be_bytes())?;
        return Ok(());
    }
    if let Ok(byte) = i8::try_from(value) {
        text.put(&[0x54, byte.cast_unsigned()])?;
        return Ok(());
    }
    put_behind(text, false, 0x71, &value.to_be_bytes())?;
    Ok(())
}

fn put_int_word(text: &mut Backwards, inherited: bool, content: &[u8]) -> Result<(), Error>
    ensures { OnOk result (PutsScalar inherited 0x71 (reading (row_at (Some Int)) content.now)
        text.old text.new) }
{
    let value = i32::from_be_bytes(bytes_of::<4>(content)?);
    put_int(text, inherited, value)?;
    Ok(())
}

fn put_int_byte(text: &mut Backwards, inherited: bool, content: &[u8]) -> Result<(), Error>
    ensures { OnOk result (PutsScalar inherited 0x71 (reading (row_at (Some SmallInt)) content.now)
        text.old text.new) }
{
    let value = i32::from(byte_of(content)?.cast_signed());
    put_int(text, inherited, value)?;
    Ok(())
}

/// Puts a number: in one byte where it fits, in an array always in 8 (section 1.6.10).
#[tactic(auto, using(crate::proofs::Scalars::scalars))]
fn put_long(text: &mut Backwards, inherited: bool, value: i64) -> Result<(), Error>
    ensures { OnOk result (PutsScalar inherited 0x81 (Some (long value)) text.old text.new) }
{
    if inherited {
        text.put(&value.to_be_bytes())?;
        return Ok(());
    }
    if let Ok(byte) = i8::try_from(value) {
        text.put(&[0x55, byte.cast_unsigned()])?;
        return Ok(());
    }
    put_behind(text, false, 0x81, &value.to_be_bytes())?;
    Ok(())
}

fn put_long_word(text: &mut Backwards, inherited: bool, content: &[u8]) -> Result<(), Error>
    ensures { OnOk result (PutsScalar inherited 0x81 (reading (row_at (Some Long)) content.now)
        text.old text.new) }
{
    let value = i64::from_be_bytes(bytes_of::<8>(content)?);
    put_long(text, inherited, value)?;
    Ok(())
}

fn put_long_byte(text: &mut Backwards, inherited: bool, content: &[u8]) -> Result<(), Error>
    ensures { OnOk result (PutsScalar inherited 0x81 (reading (row_at (Some SmallLong)) content.now)
        text.old text.new) }
{
    let value = i64::from(byte_of(content)?.cast_signed());
    put_long(text, inherited, value)?;
    Ok(())
}

/// Puts a number of 8 bits (section 1.6.3).
#[tactic(auto, using(crate::proofs::Scalars::scalars))]
fn put_ubyte(text: &mut Backwards, inherited: bool, value: u8) -> Result<(), Error>
    ensures { OnOk result (PutsScalar inherited 0x50 (Some (ubyte value)) text.old text.new) }
{
    put_behind(text, inherited, 0x50, &[value])?;
    Ok(())
}

fn put_ubyte_byte(text: &mut Backwards, inherited: bool, content: &[u8]) -> Result<(), Error>
    ensures { OnOk result (PutsScalar inherited 0x50 (reading (row_at (Some UByte)) content.now)
        text.old text.new) }
{
    let value = byte_of(content)?;
    put_ubyte(text, inherited, value)?;
    Ok(())
}

/// Puts a signed number of 8 bits (section 1.6.7).
#[tactic(auto, using(crate::proofs::Scalars::scalars))]
fn put_byte(text: &mut Backwards, inherited: bool, value: i8) -> Result<(), Error>
    ensures { OnOk result (PutsScalar inherited 0x51 (Some (byte value)) text.old text.new) }
{
    put_behind(text, inherited, 0x51, &[value.cast_unsigned()])?;
    Ok(())
}

fn put_byte_byte(text: &mut Backwards, inherited: bool, content: &[u8]) -> Result<(), Error>
    ensures { OnOk result (PutsScalar inherited 0x51 (reading (row_at (Some Byte)) content.now)
        text.old text.new) }
{
    let value = byte_of(content)?.cast_signed();
    put_byte(text, inherited, value)?;
    Ok(())
}

/// Puts a number of 16 bits (section 1.6.4).
#[tactic(auto, using(crate::proofs::Scalars::scalars))]
fn put_ushort(text: &mut Backwards, inherited: bool, value: u16) -> Result<(), Error>
    ensures { OnOk result (PutsScalar inherited 0x60 (Some (ushort value)) text.old text.new) }
{
    put_behind(text, inherited, 0x60, &value.to_be_bytes())?;
    Ok(())
}

fn put_ushort_word(text: &mut Backwards, inherited: bool, content: &[u8]) -> Result<(), Error>
    ensures { OnOk result (PutsScalar inherited 0x60 (reading (row_at (Some UShort)) content.now)
        text.old text.new) }
{
    let value = u16::from_be_bytes(bytes_of::<2>(content)?);
    put_ushort(text, inherited, value)?;
    Ok(())
}

/// Puts a signed number of 16 bits (section 1.6.8).
#[tactic(auto, using(crate::proofs::Scalars::scalars))]
fn put_short(text: &mut Backwards, inherited: bool, value: i16) -> Result<(), Error>
    ensures { OnOk result (PutsScalar inherited 0x61 (Some (short value)) text.old text.new) }
{
    put_behind(text, inherited, 0x61, &value.to_be_bytes())?;
    Ok(())
}

fn put_short_word(text: &mut Backwards, inherited: bool, content: &[u8]) -> Result<(), Error>
    ensures { OnOk result (PutsScalar inherited 0x61 (reading (row_at (Some Short)) content.now)
        text.old text.new) }
{
    let value = i16::from_be_bytes(bytes_of::<2>(content)?);
    put_short(text, inherited, value)?;
    Ok(())
}

/// Puts the bits of a binary32 (section 1.6.11).
#[tactic(auto, using(crate::proofs::Scalars::scalars))]
fn put_float(text: &mut Backwards, inherited: bool, value: u32) -> Result<(), Error>
    ensures { OnOk result (PutsScalar inherited 0x72 (Some (float value)) text.old text.new) }
{
    put_behind(text, inherited, 0x72, &value.to_be_bytes())?;
    Ok(())
}

fn put_float_word(text: &mut Backwards, inherited: bool, content: &[u8]) -> Result<(), Error>
    ensures { OnOk result (PutsScalar inherited 0x72 (reading (row_at (Some Float)) content.now)
        text.old text.new) }
{
    let value = u32::from_be_bytes(bytes_of::<4>(content)?);
    put_float(text, inherited, value)?;
    Ok(())
}

/// Puts the bits of a binary64 (section 1.6.12).
#[tactic(auto, using(crate::proofs::Scalars::scalars))]
fn put_double(text: &mut Backwards, inherited: bool, value: u64) -> Result<(), Error>
    ensures { OnOk result (PutsScalar inherited 0x82 (Some (double value)) text.old text.new) }
{
    put_behind(text, inherited, 0x82, &value.to_be_bytes())?;
    Ok(())
}

fn put_double_word(text: &mut Backwards, inherited: bool, content: &[u8]) -> Result<(), Error>
    ensures { OnOk result (PutsScalar inherited 0x82 (reading (row_at (Some Double)) content.now)
        text.old text.new) }
{
    let value = u64::from_be_bytes(bytes_of::<8>(content)?);
    put_double(text, inherited, value)?;
    Ok(())
}

/// Puts a timestamp (section 1.6.17).
#[tactic(auto, using(crate::proofs::Scalars::scalars))]
fn put_timestamp(text: &mut Backwards, inherited: bool, value: i64) -> Result<(), Error>
    ensures { OnOk result (PutsScalar inherited 0x83 (Some (timestamp value)) text.old text.new) }
{
    put_behind(text, inherited, 0x83, &value.to_be_bytes())?;
    Ok(())
}

fn put_timestamp_word(text: &mut Backwards, inherited: bool, content: &[u8]) -> Result<(), Error>
    ensures { OnOk result (PutsScalar inherited 0x83 (reading (row_at (Some Timestamp)) content.now)
        text.old text.new) }
{
    let value = i64::from_be_bytes(bytes_of::<8>(content)?);
    put_timestamp(text, inherited, value)?;
    Ok(())
}

/// Puts a char: its code in four bytes (section 1.6.16).
#[tactic(auto, using(crate::proofs::Scalars::scalars))]
fn put_char(text: &mut Backwards, inherited: bool, value: char) -> Result<(), Error>
    ensures { OnOk result (PutsScalar inherited 0x73 (Some (char value)) text.old text.new) }
{
    put_behind(text, inherited, 0x73, &(value as u32).to_be_bytes())?;
    Ok(())
}

fn put_char_word(text: &mut Backwards, inherited: bool, content: &[u8]) -> Result<(), Error>
    ensures { OnOk result (PutsScalar inherited 0x73 (reading (row_at (Some Char)) content.now)
        text.old text.new) }
{
    let Some(value) = char::from_u32(u32::from_be_bytes(bytes_of::<4>(content)?)) else {
        return Err(Error::InvalidValue);
    };
    put_char(text, inherited, value)?;
    Ok(())
}

/// Puts a decimal32 (section 1.6.13).
#[tactic(auto, using(crate::proofs::Scalars::scalars))]
fn put_decimal32(text: &mut Backwards, inherited: bool, content: &[u8]) -> Result<(), Error>
    ensures { OnOk result (PutsScalar inherited 0x74 (reading (row_at (Some Decimal32)) content.now)
        text.old text.new) }
{
    if content.len() != 4 {
        return Err(Error::InvalidLength);
    }
    put_behind(text, inherited, 0x74, content)?;
    Ok(())
}

/// Puts a decimal64 (section 1.6.14).
#[tactic(auto, using(crate::proofs::Scalars::scalars))]
fn put_decimal64(text: &mut Backwards, inherited: bool, content: &[u8]) -> Result<(), Error>
    ensures { OnOk result (PutsScalar inherited 0x84 (reading (row_at (Some Decimal64)) content.now)
        text.old text.new) }
{
    if content.len() != 8 {
        return Err(Error::InvalidLength);
    }
    put_behind(text, inherited, 0x84, content)?;
    Ok(())
}

/// Puts a decimal128 (section 1.6.15).
#[tactic(auto, using(crate::proofs::Scalars::scalars))]
fn put_decimal128(text: &mut Backwards, inherited: bool, content: &[u8]) -> Result<(), Error>
    ensures { OnOk result (PutsScalar inherited 0x94
        (reading (row_at (Some Decimal128)) content.now) text.old text.new) }
{
    if content.len() != 16 {
        return Err(Error::InvalidLength);
    }
    put_behind(text, inherited, 0x94, content)?;
    Ok(())
}

/// Puts a uuid (section 1.6.18).
#[tactic(auto, using(crate::proofs::Scalars::scalars))]
fn put_uuid(text: &mut Backwards, inherited: bool, content: &[u8]) -> Result<(), Error>
    ensures { OnOk result (PutsScalar inherited 0x98 (reading (row_at (Some Uuid)) content.now)
        text.old text.new) }
{
    if content.len() != 16 {
        return Err(Error::InvalidLength);
    }
    put_behind(text, inherited, 0x98, content)?;
    Ok(())
}

/// Puts bytes (section 1.6.19).
#[tactic(auto, using(crate::proofs::Scalars::sized))]
fn put_binary(text: &mut Backwards, inherited: bool, content: &[u8]) -> Result<(), Error>
    ensures { OnOk result (PutsScalar inherited 0xb0 (reading (row_at (Some Vbin8)) content.now)
        text.old text.new) }
{
    put_sized(text, inherited, 0xa0, 0xb0, content)?;
    Ok(())
}

/// Puts a string (section 1.6.20).
#[tactic(auto, using(crate::proofs::Scalars::sized))]
fn put_string(text: &mut Backwards, inherited: bool, content: &[u8]) -> Result<(), Error>
    ensures { OnOk result (PutsScalar inherited 0xb1 (reading (row_at (Some Str8)) content.now)
        text.old text.new) }
{
    check_text(content)?;
    put_sized(text, inherited, 0xa1, 0xb1, content)?;
    Ok(())
}

/// Puts a symbol (section 1.6.21).
#[tactic(auto, using(crate::proofs::Scalars::sized))]
fn put_symbol(text: &mut Backwards, inherited: bool, content: &[u8]) -> Result<(), Error>
    ensures { OnOk result (PutsScalar inherited 0xb3 (reading (row_at (Some Sym8)) content.now)
        text.old text.new) }
{
    check_text(content)?;
    put_sized(text, inherited, 0xa3, 0xb3, content)?;
    Ok(())
}

/// Refuses what is not UTF-8.
#[tactic(auto, using(crate::proofs::Scalars::texts))]
fn check_text(content: &[u8]) -> Result<(), Error>
    ensures { OnOk result (is_utf8 content.now ≡ true) }
{
    match str::from_utf8(content) {
        Ok(_) => Ok(()),
        Err(_) => Err(Error::InvalidUtf8Encoding),
    }
}

/// Puts content with its size: in one byte up to 254 bytes, in an array always in four.
#[tactic(auto, using(crate::proofs::Scalars::sized))]
fn put_sized(
    text: &mut Backwards,
    inherited: bool,
    narrow: u8,
    wide: u8,
    content: &[u8],
) -> Result<(), Error>
    ensures { OnOk result (PutsSized inherited narrow wide content.now text.old text.new) }
{
    if inherited {
        put_wide(text, inherited, wide, content)?;
        return Ok(());
    }
    if content.len() < 255 {
        text.put(content)?;
        text.put(&[narrow, content.len() as u8])?;
        return Ok(());
    }
    put_wide(text, inherited, wide, content)?;
    Ok(())
}

/// Puts content with its size in four bytes.
#[tactic(auto, using(crate::proofs::Scalars::sized))]
fn put_wide(text: &mut Backwards, inherited: bool, wide: u8, content: &[u8]) -> Result<(), Error>
    ensures { OnOk result (PutsWideSized inherited wide content.now text.old text.new) }
{
    let Ok(size) = u32::try_from(content.len()) else {
        return Err(Error::InvalidLength);
    };
    text.put(content)?;
    put_behind(text, inherited, wide, &size.to_be_bytes())?;
    Ok(())
}

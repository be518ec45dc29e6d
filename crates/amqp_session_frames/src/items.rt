//! Items of the common forms of performatives, read of bytes by hand, beside `Deserialize`, and written by hand, beside
//! `Serialize` (part 1, 1.6).
ghost use Rattle.std.specs.Prelude.{◌+◌, ◌<◌, ◌≡◌, ◌≤◌, ◌^◌, IfSome, IsTrue, [], drop, length, slice_range};
ghost use Rattle.serde_amqp_item.specs.Item.{scalar, boolean, null, ubyte, uint, ulong, binary, string};
ghost use Rattle.serde_amqp_item.specs.Record.{option_item};
ghost use Rattle.amqp_session_types.specs.Modes.{role_item};
ghost use Rattle.amqp_session_frames.specs.Items.{Counted, EightFront, FourFront, Front, Puts, RecordFront};
ghost use Rattle.amqp_session_frames.specs.Items.{binary_text, boolean_text, flag_item, short_record, uint_text};

use crate::header::HEADER_SIZE;
use amqp_session_types::Role;

/// How many fields the record has that stands in front with this descriptor as a list of one byte's size and count, and
/// their bytes (part 1, 1.4 and 1.6.22). None where it is in another form, or where there is none.
#[inline(always)]
#[tactic(auto, using(crate::proofs::Fronts::record_found))]
pub(crate) fn read_record(content: &[u8], code: u8) -> Option<(u8, &[u8])>
    ensures { IfSome result (λ p. RecordFront code content.now p.0 p.1.now) }
{
    if content.len() < 6 {
        return None;
    }
    if content[0] != 0 {
        return None;
    }
    if content[1] != 0x53 {
        return None;
    }
    if content[2] != code {
        return None;
    }
    if content[3] != 0xc0 {
        return None;
    }
    let size = content[4] as usize;
    if size == 0 {
        return None;
    }
    let end = 5 + size;
    if content.len() < end {
        return None;
    }
    Some((content[5], &content[6..end]))
}

/// The uint that stands in front (part 1, 1.6.6), and what stands behind it.
#[inline(always)]
#[tactic(auto, using(crate::proofs::Fronts::uint_forms))]
pub(crate) fn read_uint(bytes: &[u8]) -> Option<(u32, &[u8])>
    ensures { IfSome result (λ p. Front (scalar (uint p.0)) bytes.now p.1.now) }
{
    let Some((code, rest)) = bytes.split_first() else {
        return None;
    };
    let code = *code;
    if code == 0x43 {
        return Some((0, rest));
    }
    if code == 0x52 {
        let Some((number, rest)) = rest.split_first() else {
            return None;
        };
        return Some((*number as u32, rest));
    }
    if code != 0x70 {
        return None;
    }
    let Some((number, rest)) = read_four(rest) else {
        return None;
    };
    Some((number, rest))
}

/// The number of four bytes that stands in front, and what stands behind it.
#[inline(always)]
#[tactic(auto, using(crate::proofs::Fronts::four_found))]
fn read_four(bytes: &[u8]) -> Option<(u32, &[u8])>
    ensures { IfSome result (λ p. FourFront p.0 bytes.now p.1.now) }
{
    if bytes.len() < 4 {
        return None;
    }
    let number = u32::from_be_bytes([bytes[0], bytes[1], bytes[2], bytes[3]]);
    Some((number, &bytes[4..]))
}

/// The uint that stands in front, or null, and what stands behind it.
#[inline(always)]
#[tactic(auto, using(crate::proofs::Fronts::null_forms))]
pub(crate) fn read_uint_or_null(bytes: &[u8]) -> Option<(Option<u32>, &[u8])>
    ensures { IfSome result (λ p.
        Front (option_item (λ n. scalar (uint n)) p.0) bytes.now p.1.now) }
{
    let Some((code, rest)) = bytes.split_first() else {
        return None;
    };
    if *code == 0x40 {
        return Some((None, rest));
    }
    let Some((number, rest)) = read_uint(bytes) else {
        return None;
    };
    Some((Some(number), rest))
}

/// The ulong that stands in front (part 1, 1.6.6), and what stands behind it.
#[inline(always)]
#[tactic(auto, using(crate::proofs::Fronts::ulong_forms))]
fn read_ulong(bytes: &[u8]) -> Option<(u64, &[u8])>
    ensures { IfSome result (λ p. Front (scalar (ulong p.0)) bytes.now p.1.now) }
{
    let Some((code, rest)) = bytes.split_first() else {
        return None;
    };
    let code = *code;
    if code == 0x44 {
        return Some((0, rest));
    }
    if code == 0x53 {
        let Some((number, rest)) = rest.split_first() else {
            return None;
        };
        return Some((*number as u64, rest));
    }
    if code != 0x80 {
        return None;
    }
    let Some((number, rest)) = read_eight(rest) else {
        return None;
    };
    Some((number, rest))
}

/// The number of eight bytes that stands in front, and what stands behind it.
#[inline(always)]
#[tactic(auto, using(crate::proofs::Fronts::eight_found))]
fn read_eight(bytes: &[u8]) -> Option<(u64, &[u8])>
    ensures { IfSome result (λ p. EightFront p.0 bytes.now p.1.now) }
{
    if bytes.len() < 8 {
        return None;
    }
    let number = u64::from_be_bytes([
        bytes[0], bytes[1], bytes[2], bytes[3], bytes[4], bytes[5], bytes[6], bytes[7],
    ]);
    Some((number, &bytes[8..]))
}

/// The ulong that stands in front, or null, and what stands behind it.
#[inline(always)]
#[tactic(auto, using(crate::proofs::Fronts::null_forms))]
pub(crate) fn read_ulong_or_null(bytes: &[u8]) -> Option<(Option<u64>, &[u8])>
    ensures { IfSome result (λ p.
        Front (option_item (λ n. scalar (ulong n)) p.0) bytes.now p.1.now) }
{
    let Some((code, rest)) = bytes.split_first() else {
        return None;
    };
    if *code == 0x40 {
        return Some((None, rest));
    }
    let Some((number, rest)) = read_ulong(bytes) else {
        return None;
    };
    Some((Some(number), rest))
}

/// The ubyte that stands in front (part 1, 1.6.4), or null, and what stands behind it.
#[inline(always)]
#[tactic(auto, using(crate::proofs::Fronts::ubyte_forms))]
pub(crate) fn read_ubyte_or_null(bytes: &[u8]) -> Option<(Option<u8>, &[u8])>
    ensures { IfSome result (λ p.
        Front (option_item (λ n. scalar (ubyte n)) p.0) bytes.now p.1.now) }
{
    let Some((code, rest)) = bytes.split_first() else {
        return None;
    };
    let code = *code;
    if code == 0x40 {
        return Some((None, rest));
    }
    if code != 0x50 {
        return None;
    }
    let Some((number, rest)) = rest.split_first() else {
        return None;
    };
    Some((Some(*number), rest))
}

/// What stands behind the null that stands in front (part 1, 1.6.1).
#[inline(always)]
#[tactic(auto, using(crate::proofs::Fronts::null_forms))]
pub(crate) fn read_null(bytes: &[u8]) -> Option<&[u8]>
    ensures { IfSome result (λ rest. Front (scalar null) bytes.now rest.now) }
{
    let Some((code, rest)) = bytes.split_first() else {
        return None;
    };
    if *code != 0x40 {
        return None;
    }
    Some(rest)
}

/// The string of one byte's size that stands in front (part 1, 1.6.20), and what stands behind it.
#[inline(always)]
#[tactic(auto, using(crate::proofs::Fronts::string_form))]
pub(crate) fn read_text(bytes: &[u8]) -> Option<(&str, &[u8])>
    ensures { IfSome result (λ p. Front (scalar (string p.0.now)) bytes.now p.1.now) }
{
    let Some((code, rest)) = bytes.split_first() else {
        return None;
    };
    if *code != 0xa1 {
        return None;
    }
    let Some((content, rest)) = read_counted(rest) else {
        return None;
    };
    let Ok(text) = str::from_utf8(content) else {
        return None;
    };
    Some((text, rest))
}

/// The binary of one byte's size that stands in front (part 1, 1.6.19), and what stands behind it.
#[inline(always)]
#[tactic(auto, using(crate::proofs::Fronts::binary_form))]
pub(crate) fn read_binary(bytes: &[u8]) -> Option<(&[u8], &[u8])>
    ensures { IfSome result (λ p. Front (scalar (binary p.0.now)) bytes.now p.1.now) }
{
    let Some((code, rest)) = bytes.split_first() else {
        return None;
    };
    if *code != 0xa0 {
        return None;
    }
    let Some((content, rest)) = read_counted(rest) else {
        return None;
    };
    Some((content, rest))
}

/// The bytes that the byte in front counts, and what stands behind them.
#[inline(always)]
#[tactic(auto, using(crate::proofs::Fronts::counted_found))]
fn read_counted(bytes: &[u8]) -> Option<(&[u8], &[u8])>
    ensures { IfSome result (λ p. Counted p.0.now bytes.now p.1.now) }
{
    let Some((size, rest)) = bytes.split_first() else {
        return None;
    };
    let size = *size as usize;
    if rest.len() < size {
        return None;
    }
    Some((&rest[..size], &rest[size..]))
}

/// The boolean of one byte that stands in front (part 1, 1.6.2), and what stands behind it.
#[inline(always)]
#[tactic(auto, using(crate::proofs::Fronts::boolean_forms))]
pub(crate) fn read_boolean(bytes: &[u8]) -> Option<(bool, &[u8])>
    ensures { IfSome result (λ p. Front (scalar (boolean p.0)) bytes.now p.1.now) }
{
    let Some((code, rest)) = bytes.split_first() else {
        return None;
    };
    let code = *code;
    if code == 0x41 {
        return Some((true, rest));
    }
    if code != 0x42 {
        return None;
    }
    Some((false, rest))
}

/// The boolean of one byte that stands in front, or null, and what stands behind it.
#[inline(always)]
#[tactic(auto, using(crate::proofs::Fronts::null_forms))]
pub(crate) fn read_flag(bytes: &[u8]) -> Option<(Option<bool>, &[u8])>
    ensures { IfSome result (λ p. Front (flag_item p.0) bytes.now p.1.now) }
{
    let Some((code, rest)) = bytes.split_first() else {
        return None;
    };
    if *code == 0x40 {
        return Some((None, rest));
    }
    let Some((flag, rest)) = read_boolean(bytes) else {
        return None;
    };
    Some((Some(flag), rest))
}

/// The role that a boolean says (part 2, 2.8.1).
#[inline(always)]
pub(crate) fn role_of(receives: bool) -> Role
    ensures { role_item result ≡ scalar (boolean receives) }
{
    if receives {
        return Role::Receiver;
    }
    Role::Sender
}

/// Whether no bytes are left.
#[inline(always)]
#[tactic(auto, using(crate::proofs::Fronts::is_nothing))]
pub(crate) fn is_end(bytes: &[u8]) -> bool
    ensures { IsTrue result → bytes.now ≡ [] }
{
    bytes.is_empty()
}

/// The room in which a frame's head and a performative in its common form are put together: they have 65 bytes at most.
pub(crate) const ROOM: usize = 72;

/// Where the fields of the performative are put: behind a frame's head, and behind what `put_record` puts.
pub(crate) const FIELDS: usize = 14;

/// Puts bytes at a place, and answers the place behind them.
#[inline(always)]
#[tactic(auto, using(crate::proofs::Puts::putting))]
pub(crate) fn put(to: &mut [u8; ROOM], at: usize, bytes: &[u8]) -> usize
    requires { at + length bytes.now ≤ 72 }
    ensures puts { Puts bytes.now at result to.old to.new }
    ensures behind { drop result to.new ≡ drop result to.old }
{
    let end = at + bytes.len();
    to[at..end].copy_from_slice(bytes);
    end
}

/// Puts a uint (part 1, 1.6.6).
#[inline(always)]
pub(crate) fn put_uint(to: &mut [u8; ROOM], at: usize, number: u32) -> usize
    requires { at + 5 ≤ 72 }
    ensures puts { Puts (uint_text number) at result to.old to.new }
    ensures small { result ≤ at + 5 }
    ensures fits { number < 2 ^ 32 }
{
    if number == 0 {
        return put(to, at, &[0x43]);
    }
    if number < 256 {
        return put(to, at, &[0x52, number as u8]);
    }
    let [a, b, c, d] = number.to_be_bytes();
    put(to, at, &[0x70, a, b, c, d])
}

/// Puts a binary of one byte's size (part 1, 1.6.19).
#[inline(always)]
#[tactic(auto, using(crate::proofs::Puts::both_put))]
pub(crate) fn put_binary(to: &mut [u8; ROOM], at: usize, bytes: &[u8]) -> usize
    requires { at + 2 + length bytes.now ≤ 72 }
    ensures puts { Puts (binary_text bytes.now) at result to.old to.new }
    ensures small { result ≡ at + 2 + length bytes.now }
{
    let at = put(to, at, &[0xa0, bytes.len() as u8]);
    put(to, at, bytes)
}

/// Puts a boolean of one byte (part 1, 1.6.2).
#[inline(always)]
pub(crate) fn put_boolean(to: &mut [u8; ROOM], at: usize, boolean: bool) -> usize
    requires { at + 1 ≤ 72 }
    ensures puts { Puts (boolean_text boolean) at result to.old to.new }
    ensures small { result ≡ at + 1 }
{
    if boolean {
        return put(to, at, &[0x41]);
    }
    put(to, at, &[0x42])
}

/// Puts at 8 what stands in front of the fields of a record with this descriptor, so many of which stand from 14 on and
/// end there: a list of one byte's size and count (part 1, 1.4 and 1.6.22).
#[inline(always)]
#[tactic(auto, using(crate::proofs::Puts::record_put))]
pub(crate) fn put_record(to: &mut [u8; ROOM], end: usize, code: u8, count: u8)
    requires { (14 ≤ end) × (end ≤ 72) }
    ensures { Puts (short_record code count (slice_range to.old 14 end)) 8 end to.old to.new }
{
    let size = (end - FIELDS + 1) as u8;
    put(to, HEADER_SIZE, &[0x00, 0x53, code, 0xc0, size, count]);
}

//! A Transfer in its common form, read of bytes by hand, beside `Performative::read`, and written by hand, beside
//! `Transfer::serialize` (part 2, 2.7.5).
ghost use Rattle.std.specs.Prelude.{◌+◌, ◌≡◌, ◌≤◌, IfSome, false, length};
ghost use Rattle.amqp_session_performatives.specs.declared.performative.Performative.TheVariants as performing;
ghost use Rattle.amqp_session_frames.specs.Body.{Performed};
ghost use Rattle.amqp_session_frames.specs.CommonTransfer.{EndsWithMore, HaveRange, IsCommon, LastFields, field_count};
ghost use Rattle.amqp_session_frames.specs.CommonTransfer.{fields_of, fields_text, last_text, saying_only};
ghost use Rattle.amqp_session_frames.specs.Items.{Holds, Puts};
ghost use Rattle.amqp_session_frames.specs.Sizes.{transfer_text};

use crate::items::{
    FIELDS, ROOM, is_end, put, put_binary, put_record, put_uint, read_binary, read_flag,
    read_record, read_uint,
};
use amqp_session_performatives::Transfer;
use amqp_session_types::{DeliveryTag, Handle};
use std::alloc::Global;

/// The descriptor's code.
pub(crate) const CODE: u8 = 0x14;

/// How many bytes a delivery's tag has at most (part 2, 2.8.7).
const LONGEST_TAG: usize = 32;

/// The fields of a Transfer in its common form. It has no others.
#[derive(Clone, Copy)]
struct TransferFields<'a> {
    handle: u32,
    number: u32,
    tag: &'a [u8],
    format: u32,
    settled: Option<bool>,
    more: bool,
}

/// The Transfer that stands in front of these bytes, and how many bytes it has, where it is in its common form: a list
/// of one byte's size and count, of a handle, a number, a tag of at most 32 bytes, a format, and maybe whether it is
/// settled and whether more follow. None where it is in another form, or where there is none.
#[inline(never)]
pub(crate) fn read_transfer(alloc: Global, content: &[u8]) -> Option<(Transfer, usize)>
    ensures { IfSome result (λ p. Performed content.now (performing.Transfer p.0) p.1) }
{
    let Some((fields, size)) = read_fields(content) else {
        return None;
    };
    let Some(transfer) = transfer_of(alloc, &fields) else {
        return None;
    };
    Some((transfer, size))
}

/// The fields of the Transfer that stands in front in its common form, and how many bytes it has.
#[inline(always)]
#[tactic(auto, using(crate::proofs::TransferRead::performed_transfer))]
fn read_fields(content: &[u8]) -> Option<(TransferFields<'_>, usize)>
    ensures { IfSome result (λ p.
        Performed content.now (performing.Transfer (saying_only (fields_of p.0))) p.1) }
{
    let Some((count, fields)) = read_record(content, CODE) else {
        return None;
    };
    let Some((handle, rest)) = read_uint(fields) else {
        return None;
    };
    let Some((number, rest)) = read_uint(rest) else {
        return None;
    };
    let Some((tag, rest)) = read_binary(rest) else {
        return None;
    };
    let Some((format, rest)) = read_uint(rest) else {
        return None;
    };
    let Some((settled, more)) = read_last(count, rest) else {
        return None;
    };
    let size = 6 + fields.len();
    let fields = TransferFields {
        handle,
        number,
        tag,
        format,
        settled,
        more,
    };
    Some((fields, size))
}

/// Whether a delivery is settled and whether more of it follow, as the fields behind the format say it, which are all
/// these bytes.
#[inline(always)]
#[tactic(auto, using(crate::proofs::TransferRead::last_forms))]
fn read_last(count: u8, bytes: &[u8]) -> Option<(Option<bool>, bool)>
    ensures { IfSome result (λ p. LastFields count bytes.now p.0 p.1) }
{
    if count == 4 {
        if !is_end(bytes) {
            return None;
        }
        return Some((None, false));
    }
    let Some((settled, rest)) = read_flag(bytes) else {
        return None;
    };
    if count == 5 {
        if !is_end(rest) {
            return None;
        }
        return Some((settled, false));
    }
    if count != 6 {
        return None;
    }
    let Some((more, rest)) = read_flag(rest) else {
        return None;
    };
    if !is_end(rest) {
        return None;
    }
    Some((settled, more.unwrap_or(false)))
}

/// The Transfer that says only these fields. None where its tag has more than 32 bytes, for which memory might be
/// refused.
#[inline(always)]
fn transfer_of(alloc: Global, fields: &TransferFields<'_>) -> Option<Transfer>
    ensures { IfSome result (λ t. t ≡ saying_only (fields_of fields.now)) }
{
    if fields.tag.len() > LONGEST_TAG {
        return None;
    }
    let Ok(tag) = DeliveryTag::from_slice(alloc, fields.tag) else {
        return None;
    };
    Some(Transfer {
        handle: Handle(fields.handle),
        delivery_id: Some(fields.number),
        delivery_tag: Some(tag),
        message_format: Some(fields.format),
        settled: fields.settled,
        more: fields.more,
        rcv_settle_mode: None,
        state: None,
        resume: false,
        aborted: false,
        batchable: false,
    })
}

/// Writes the transfer at 8, where it has the common form, with a tag of at most 32 bytes, and answers where it ends.
#[inline(always)]
#[tactic(auto, using(crate::proofs::TransferWritten::written_common))]
pub(crate) fn write_transfer(transfer: &Transfer, to: &mut [u8; ROOM]) -> Option<usize>
    ensures { IfSome result (λ end. Holds (transfer_text transfer.now) end to.new) }
{
    let Some(fields) = fields_in(transfer) else {
        return None;
    };
    let end = put_transfer(&fields, to);
    Some(end)
}

/// The fields of a transfer that has no others, and a tag of at most 32 bytes.
#[inline(always)]
#[tactic(auto, using(crate::proofs::TransferWritten::says_only))]
fn fields_in(transfer: &Transfer) -> Option<TransferFields<'_>>
    ensures { IfSome result (λ f. IsCommon transfer.now (fields_of f)) }
{
    if has_more_fields(transfer) {
        return None;
    }
    let Some(number) = transfer.delivery_id else {
        return None;
    };
    let Some(format) = transfer.message_format else {
        return None;
    };
    let Some(tag) = &transfer.delivery_tag else {
        return None;
    };
    let tag = tag.as_slice();
    if tag.len() > LONGEST_TAG {
        return None;
    }
    Some(TransferFields {
        handle: transfer.handle.0,
        number,
        tag,
        format,
        settled: transfer.settled,
        more: transfer.more,
    })
}

/// Whether a transfer says something behind `more`.
#[inline(always)]
fn has_more_fields(transfer: &Transfer) -> bool
    ensures { result ≡ false → EndsWithMore transfer.now }
{
    if transfer.resume {
        return true;
    }
    if transfer.aborted {
        return true;
    }
    if transfer.batchable {
        return true;
    }
    if transfer.rcv_settle_mode.is_some() {
        return true;
    }
    transfer.state.is_some()
}

/// Puts the transfer that says only these fields at 8.
#[inline(always)]
#[tactic(auto, using(crate::proofs::TransferWritten::transfer_put))]
fn put_transfer(fields: &TransferFields<'_>, to: &mut [u8; ROOM]) -> usize
    requires { length fields.now.tag.now ≤ 32 }
    ensures { Holds (transfer_text (saying_only (fields_of fields.now))) result to.new }
{
    let end = put_fields(fields, to);
    put_record(to, end, CODE, field_count(fields.settled, fields.more));
    end
}

/// Puts the fields at 14.
#[inline(always)]
#[tactic(auto, using(crate::proofs::TransferWritten::fields_put))]
fn put_fields(fields: &TransferFields<'_>, to: &mut [u8; ROOM]) -> usize
    requires { length fields.now.tag.now ≤ 32 }
    ensures puts { Puts (fields_text (fields_of fields.now)) 14 result to.old to.new }
    ensures small { result ≤ 65 }
    ensures fits { HaveRange (fields_of fields.now) }
{
    let at = put_uint(to, FIELDS, fields.handle);
    let at = put_uint(to, at, fields.number);
    let at = put_binary(to, at, fields.tag);
    let at = put_uint(to, at, fields.format);
    put_last(to, at, fields.settled, fields.more)
}

/// Puts what stands behind the format.
#[inline(always)]
fn put_last(to: &mut [u8; ROOM], at: usize, settled: Option<bool>, more: bool) -> usize
    requires { at + 2 ≤ 72 }
    ensures puts { Puts (last_text settled more) at result to.old to.new }
    ensures small { result ≤ at + 2 }
{
    match (settled, more) {
        (None, false) => put(to, at, &[]),
        (None, true) => put(to, at, &[0x40, 0x41]),
        (Some(true), false) => put(to, at, &[0x41]),
        (Some(false), false) => put(to, at, &[0x42]),
        (Some(true), true) => put(to, at, &[0x41, 0x41]),
        (Some(false), true) => put(to, at, &[0x42, 0x41]),
    }
}

/// How many fields there are.
#[inline(always)]
fn field_count(settled: Option<bool>, more: bool) -> u8
    ensures { result ≡ field_count settled more }
{
    match (settled, more) {
        (_, true) => 6,
        (Some(_), false) => 5,
        (None, false) => 4,
    }
}

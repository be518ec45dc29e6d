//! A Disposition in its common form, read of bytes by hand, beside `Performative::read`, and written by hand, beside
//! `Disposition::serialize` (part 2, 2.7.6).
ghost use Rattle.std.specs.Prelude.{◌+◌, ◌<◌, ◌≡◌, ◌≤◌, ◌^◌, IfSome, [], false};
ghost use Rattle.serde_amqp_item.specs.Item.{scalar, boolean};
ghost use Rattle.amqp_session_types.specs.Modes.{role_item};
ghost use Rattle.amqp_session_frames.specs.CommonDisposition.{HaveRange, IsBare, bare_item, disposition_text};
ghost use Rattle.amqp_session_frames.specs.CommonDisposition.{fields_text, last_text, outcome_code, saying_only};
ghost use Rattle.amqp_session_frames.specs.CommonDisposition.{settled_text, state_of};
ghost use Rattle.amqp_session_frames.specs.Items.{Front, Holds, Puts};
ghost use Rattle.amqp_session_frames.specs.Text.{BodyText};
ghost use Rattle.amqp_session_frames.specs.declared.frame.FrameBody.TheVariants as bodies;

use crate::items::{
    FIELDS, ROOM, put, put_boolean, put_record, put_uint, read_boolean, read_flag, read_record,
    read_uint, read_uint_or_null, role_of,
};
use amqp_session_performatives::Disposition;
use amqp_session_states::{Accepted, DeliveryState, Modified, Rejected, Released};
use amqp_session_types::Role;

/// The descriptor's code.
pub(crate) const CODE: u8 = 0x15;

/// An outcome without fields (part 3, 3.4).
#[derive(Clone, Copy)]
enum BareOutcome {
    Accepted,
    Rejected,
    Released,
    Modified,
}

/// The fields of a Disposition in its common form. It has no others.
#[derive(Clone, Copy)]
struct DispositionFields {
    role: Role,
    first: u32,
    last: Option<u32>,
    settled: bool,
    outcome: BareOutcome,
}

/// The Disposition that stands in front of these bytes, where it is in its common form: a list of one byte's size and
/// count, of a role, a first number, a last one or null, whether the deliveries are settled or null, and an outcome
/// without fields. None where it is in another form, or where there is none.
#[inline(never)]
pub(crate) fn read_disposition(content: &[u8]) -> Option<Disposition>
    ensures { IfSome result (λ d. BodyText content.now (bodies.Disposition d)) }
{
    let Some(fields) = read_fields(content) else {
        return None;
    };
    Some(disposition_of(fields))
}

/// The fields of the Disposition that stands in front in its common form.
#[inline(always)]
#[tactic(auto, using(crate::proofs::DispositionRead::performed_disposition))]
fn read_fields(content: &[u8]) -> Option<DispositionFields>
    ensures { IfSome result (λ f. BodyText content.now (bodies.Disposition (saying_only f))) }
{
    let Some((count, fields)) = read_record(content, CODE) else {
        return None;
    };
    if count != 5 {
        return None;
    }
    let Some((receives, rest)) = read_boolean(fields) else {
        return None;
    };
    let Some((first, rest)) = read_uint(rest) else {
        return None;
    };
    let Some((last, rest)) = read_uint_or_null(rest) else {
        return None;
    };
    let Some((settled, rest)) = read_flag(rest) else {
        return None;
    };
    let Some(outcome) = read_outcome(rest) else {
        return None;
    };
    Some(DispositionFields {
        role: role_of(receives),
        first,
        last,
        settled: settled.unwrap_or(false),
        outcome,
    })
}

/// The outcome without fields that all these bytes are: a descriptor of one byte's code and an empty list.
#[inline(always)]
#[tactic(auto, using(crate::proofs::DispositionRead::outcome_found))]
fn read_outcome(bytes: &[u8]) -> Option<BareOutcome>
    ensures { IfSome result (λ o. Front (bare_item o) bytes.now []) }
{
    if bytes.len() != 4 {
        return None;
    }
    if bytes[0] != 0 {
        return None;
    }
    if bytes[1] != 0x53 {
        return None;
    }
    if bytes[3] != 0x45 {
        return None;
    }
    let Some(outcome) = outcome_coded(bytes[2]) else {
        return None;
    };
    Some(outcome)
}

/// The outcome whose descriptor has this code.
#[inline(always)]
fn outcome_coded(code: u8) -> Option<BareOutcome>
    ensures { IfSome result (λ o. outcome_code o ≡ code) }
{
    if code == 0x24 {
        return Some(BareOutcome::Accepted);
    }
    if code == 0x25 {
        return Some(BareOutcome::Rejected);
    }
    if code == 0x26 {
        return Some(BareOutcome::Released);
    }
    if code != 0x27 {
        return None;
    }
    Some(BareOutcome::Modified)
}

/// The Disposition that says only these fields.
#[inline(always)]
fn disposition_of(fields: DispositionFields) -> Disposition
    ensures { result ≡ saying_only fields }
{
    Disposition {
        role: fields.role,
        first: fields.first,
        last: fields.last,
        settled: fields.settled,
        state: Some(state_of(fields.outcome)),
        batchable: false,
    }
}

/// The state that this outcome is.
#[inline(always)]
fn state_of(outcome: BareOutcome) -> DeliveryState
    ensures { result ≡ state_of outcome }
{
    match outcome {
        BareOutcome::Accepted => DeliveryState::Accepted(Accepted {}),
        BareOutcome::Rejected => DeliveryState::Rejected(Rejected { error: None }),
        BareOutcome::Released => DeliveryState::Released(Released {}),
        BareOutcome::Modified => DeliveryState::Modified(Modified {
            delivery_failed: None,
            undeliverable_here: None,
            message_annotations: None,
        }),
    }
}

/// Writes the disposition at 8, where it has the common form, and answers where it ends.
#[inline(always)]
#[tactic(auto, using(crate::proofs::DispositionWritten::written_only))]
pub(crate) fn write_disposition(disposition: &Disposition, to: &mut [u8; ROOM]) -> Option<usize>
    ensures { IfSome result (λ end. Holds (disposition_text disposition.now) end to.new) }
{
    let Some(fields) = fields_in(disposition) else {
        return None;
    };
    let end = put_disposition(fields, to);
    Some(end)
}

/// The fields of a disposition that has no others.
#[inline(always)]
#[tactic(auto, using(crate::proofs::DispositionWritten::says_only))]
fn fields_in(disposition: &Disposition) -> Option<DispositionFields>
    ensures { IfSome result (λ f. disposition.now ≡ saying_only f) }
{
    if disposition.batchable {
        return None;
    }
    let Some(state) = &disposition.state else {
        return None;
    };
    let Some(outcome) = outcome_of(state) else {
        return None;
    };
    Some(DispositionFields {
        role: disposition.role,
        first: disposition.first,
        last: disposition.last,
        settled: disposition.settled,
        outcome,
    })
}

/// The outcome without fields that a state is.
#[inline(always)]
fn outcome_of(state: &DeliveryState) -> Option<BareOutcome>
    ensures { IfSome result (λ o. state.now ≡ state_of o) }
{
    match state {
        DeliveryState::Accepted(_) => Some(BareOutcome::Accepted),
        DeliveryState::Rejected(rejected) => {
            if rejected.error.is_some() {
                return None;
            }
            Some(BareOutcome::Rejected)
        }
        DeliveryState::Released(_) => Some(BareOutcome::Released),
        DeliveryState::Modified(modified) => {
            if has_fields(modified) {
                return None;
            }
            Some(BareOutcome::Modified)
        }
        DeliveryState::Received(_) => None,
    }
}

/// Whether a modified outcome has fields.
#[inline(always)]
fn has_fields(modified: &Modified) -> bool
    ensures { result ≡ false → IsBare modified.now }
{
    if modified.delivery_failed.is_some() {
        return true;
    }
    if modified.undeliverable_here.is_some() {
        return true;
    }
    modified.message_annotations.is_some()
}

/// Puts the disposition that says only these fields at 8.
#[inline(always)]
#[tactic(auto, using(crate::proofs::DispositionWritten::disposition_put))]
fn put_disposition(fields: DispositionFields, to: &mut [u8; ROOM]) -> usize
    ensures { Holds (disposition_text (saying_only fields)) result to.new }
{
    let end = put_fields(fields, to);
    put_record(to, end, CODE, 5);
    end
}

/// Puts the fields at 14.
#[inline(always)]
#[tactic(auto, using(crate::proofs::DispositionWritten::fields_put))]
fn put_fields(fields: DispositionFields, to: &mut [u8; ROOM]) -> usize
    ensures puts { Puts (fields_text fields) 14 result to.old to.new }
    ensures small { result ≤ 30 }
    ensures fits { HaveRange fields }
{
    let at = put_boolean(to, FIELDS, receives(fields.role));
    let at = put_uint(to, at, fields.first);
    let at = put_last(to, at, fields.last);
    let at = put_settled(to, at, fields.settled);
    put(to, at, &[0x00, 0x53, code_of(fields.outcome), 0x45])
}

/// The boolean that a role is (part 2, 2.8.1).
#[inline(always)]
fn receives(role: Role) -> bool
    ensures { role_item role ≡ scalar (boolean result) }
{
    match role {
        Role::Receiver => true,
        Role::Sender => false,
    }
}

/// Puts the last number, or null.
#[inline(always)]
fn put_last(to: &mut [u8; ROOM], at: usize, last: Option<u32>) -> usize
    requires { at + 5 ≤ 72 }
    ensures puts { Puts (last_text last) at result to.old to.new }
    ensures small { result ≤ at + 5 }
    ensures fits { IfSome last (λ n. n < 2 ^ 32) }
{
    let Some(last) = last else {
        return put(to, at, &[0x40]);
    };
    put_uint(to, at, last)
}

/// Puts whether the deliveries are settled, or null where they aren't.
#[inline(always)]
fn put_settled(to: &mut [u8; ROOM], at: usize, settled: bool) -> usize
    requires { at + 1 ≤ 72 }
    ensures puts { Puts (settled_text settled) at result to.old to.new }
    ensures small { result ≡ at + 1 }
{
    if settled {
        return put(to, at, &[0x41]);
    }
    put(to, at, &[0x40])
}

/// The code of the outcome's descriptor.
#[inline(always)]
fn code_of(outcome: BareOutcome) -> u8
    ensures { result ≡ outcome_code outcome }
{
    match outcome {
        BareOutcome::Accepted => 0x24,
        BareOutcome::Rejected => 0x25,
        BareOutcome::Released => 0x26,
        BareOutcome::Modified => 0x27,
    }
}

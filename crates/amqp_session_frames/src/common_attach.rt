//! An Attach in its common form, read of bytes by hand, beside `Performative::read` (part 2, 2.7.3).
ghost use Rattle.std.specs.Prelude.{◌≡◌, IfOk, IfSome, Some};
ghost use Rattle.serde_amqp_item.specs.Item.{scalar, ubyte};
ghost use Rattle.serde_amqp_item.specs.Record.{option_item};
ghost use Rattle.amqp_session_frames.specs.CommonAttach.{IsLink, IsModes, IsTermini, incomplete_items};
ghost use Rattle.amqp_session_frames.specs.CommonAttach.{incomplete_takes, initial_items, initial_takes, last_items};
ghost use Rattle.amqp_session_frames.specs.CommonAttach.{last_takes, most_items, most_takes, nothing_last};
ghost use Rattle.amqp_session_frames.specs.CommonAttach.{receiver_mode_item, receiver_mode_takes, saying_only};
ghost use Rattle.amqp_session_frames.specs.CommonAttach.{sender_mode_item, sender_mode_takes};
ghost use Rattle.amqp_session_frames.specs.Items.{Fields};
ghost use Rattle.amqp_session_frames.specs.Text.{BodyText};
ghost use Rattle.amqp_session_frames.specs.declared.frame.FrameBody.TheVariants as bodies;

use crate::common_terminus::{SOURCE, TARGET, Terminus, read_terminus, source_of, target_of};
use crate::items::{
    is_end, read_boolean, read_flag, read_null, read_record, read_text, read_ubyte_or_null,
    read_uint, read_uint_or_null, read_ulong_or_null, role_of,
};
use amqp_session_performatives::Attach;
use amqp_session_types::{Boxed, Handle, ReceiverSettleMode, Role, SenderSettleMode};
use serde_amqp_types::{Array, Text};
use std::alloc::{AllocError, Global};

/// The descriptor's code.
pub(crate) const CODE: u8 = 0x12;

/// The fewest fields of the common form: those up to the target.
const FEWEST: u8 = 7;

/// The fields of an Attach in its common form. It has no others.
#[derive(Clone, Copy)]
struct AttachFields<'a> {
    link: LinkFields<'a>,
    modes: ModeFields,
    termini: TerminusFields<'a>,
    last: LastFields,
}

/// Which link it is.
#[derive(Clone, Copy)]
struct LinkFields<'a> {
    name: &'a str,
    handle: u32,
    role: Role,
}

/// How its ends settle deliveries.
#[derive(Clone, Copy)]
struct ModeFields {
    sender: SenderSettleMode,
    receiver: ReceiverSettleMode,
}

/// Where its messages come from, and where they go.
#[derive(Clone, Copy)]
struct TerminusFields<'a> {
    source: Terminus<'a>,
    target: Terminus<'a>,
}

/// The fields behind the target.
#[derive(Clone, Copy)]
struct LastFields {
    incomplete_unsettled: bool,
    initial_delivery_count: Option<u32>,
    max_message_size: Option<u64>,
}

/// The Attach that stands in front of these bytes, where it is in its common form: a list of one byte's size and count,
/// of a name of one byte's size, a handle, a role, settle modes or null, a source and a target in their common form or
/// null, and maybe null for the unsettled deliveries, whether they are incomplete, a first count of deliveries and the
/// size of the largest message. None where it is in another form, where there is none, and where memory is refused.
#[inline(never)]
pub(crate) fn read_attach(alloc: Global, content: &[u8]) -> Option<Boxed<Attach>>
    ensures { IfSome result (λ a. BodyText content.now (bodies.Attach a)) }
{
    let Some(fields) = read_fields(content) else {
        return None;
    };
    let Ok(attach) = attach_of(alloc, &fields) else {
        return None;
    };
    Some(attach)
}

/// The fields of the Attach that stands in front in its common form.
#[inline(always)]
#[tactic(auto, using(crate::proofs::AttachRead::performed_attach))]
fn read_fields(content: &[u8]) -> Option<AttachFields<'_>>
    ensures { IfSome result (λ f. BodyText content.now (bodies.Attach (saying_only f))) }
{
    let Some((count, fields)) = read_record(content, CODE) else {
        return None;
    };
    if count < FEWEST {
        return None;
    }
    let Some((link, rest)) = read_link(fields) else {
        return None;
    };
    let Some((modes, rest)) = read_modes(rest) else {
        return None;
    };
    let Some((termini, rest)) = read_termini(rest) else {
        return None;
    };
    let Some(last) = read_last(count - FEWEST, rest) else {
        return None;
    };
    Some(AttachFields {
        link,
        modes,
        termini,
        last,
    })
}

/// Which link the fields in front say, and what stands behind them.
#[inline(always)]
#[tactic(auto, using(crate::proofs::AttachRead::link_found))]
fn read_link(bytes: &[u8]) -> Option<(LinkFields<'_>, &[u8])>
    ensures { IfSome result (λ p. IsLink p.0 bytes.now p.1.now) }
{
    let Some((name, rest)) = read_text(bytes) else {
        return None;
    };
    let Some((handle, rest)) = read_uint(rest) else {
        return None;
    };
    let Some((receives, rest)) = read_boolean(rest) else {
        return None;
    };
    let role = role_of(receives);
    Some((LinkFields { name, handle, role }, rest))
}

/// The settle modes that stand in front, and what stands behind them.
#[inline(always)]
#[tactic(auto, using(crate::proofs::AttachRead::modes_found))]
fn read_modes(bytes: &[u8]) -> Option<(ModeFields, &[u8])>
    ensures { IfSome result (λ p. IsModes p.0 bytes.now p.1.now) }
{
    let Some((sender, rest)) = read_ubyte_or_null(bytes) else {
        return None;
    };
    let Some(sender) = sender_mode(sender) else {
        return None;
    };
    let Some((receiver, rest)) = read_ubyte_or_null(rest) else {
        return None;
    };
    let Some(receiver) = receiver_mode(receiver) else {
        return None;
    };
    Some((ModeFields { sender, receiver }, rest))
}

/// The mode of a sender that a number is (part 2, 2.8.2), mixed where there is none.
#[inline(always)]
#[tactic(auto, using(crate::proofs::AttachRead::sender_modes))]
fn sender_mode(number: Option<u8>) -> Option<SenderSettleMode>
    ensures { IfSome result (λ m.
        sender_mode_takes (option_item (λ n. scalar (ubyte n)) number) ≡ Some (sender_mode_item m)) }
{
    let Some(number) = number else {
        return Some(SenderSettleMode::Mixed);
    };
    if number == 0 {
        return Some(SenderSettleMode::Unsettled);
    }
    if number == 1 {
        return Some(SenderSettleMode::Settled);
    }
    if number != 2 {
        return None;
    }
    Some(SenderSettleMode::Mixed)
}

/// The mode of a receiver that a number is (part 2, 2.8.3), the first where there is none.
#[inline(always)]
#[tactic(auto, using(crate::proofs::AttachRead::receiver_modes))]
fn receiver_mode(number: Option<u8>) -> Option<ReceiverSettleMode>
    ensures { IfSome result (λ m.
        receiver_mode_takes (option_item (λ n. scalar (ubyte n)) number) ≡ Some (receiver_mode_item m)) }
{
    let Some(number) = number else {
        return Some(ReceiverSettleMode::First);
    };
    if number == 0 {
        return Some(ReceiverSettleMode::First);
    }
    if number != 1 {
        return None;
    }
    Some(ReceiverSettleMode::Second)
}

/// The source and the target that stand in front, and what stands behind them.
#[inline(always)]
#[tactic(auto, using(crate::proofs::AttachRead::termini_found))]
fn read_termini(bytes: &[u8]) -> Option<(TerminusFields<'_>, &[u8])>
    ensures { IfSome result (λ p. IsTermini p.0 bytes.now p.1.now) }
{
    let Some((source, rest)) = read_terminus(bytes, SOURCE) else {
        return None;
    };
    let Some((target, rest)) = read_terminus(rest, TARGET) else {
        return None;
    };
    Some((TerminusFields { source, target }, rest))
}

/// The fields behind the target, of which so many are left, and which all these bytes are: first null for the unsettled
/// deliveries.
#[inline(always)]
#[tactic(auto, using(crate::proofs::AttachRead::last_forms))]
fn read_last(left: u8, bytes: &[u8]) -> Option<LastFields>
    ensures { IfSome result (λ f. Fields last_takes (last_items f) left bytes.now) }
{
    if left == 0 {
        if !is_end(bytes) {
            return None;
        }
        return Some(saying_nothing());
    }
    let Some(rest) = read_null(bytes) else {
        return None;
    };
    let Some(last) = read_incomplete(left - 1, rest) else {
        return None;
    };
    Some(last)
}

/// The fields from `incomplete_unsettled` on, of which so many are left, and which all these bytes are.
#[inline(always)]
#[tactic(auto, using(crate::proofs::AttachRead::incomplete_forms))]
fn read_incomplete(left: u8, bytes: &[u8]) -> Option<LastFields>
    ensures { IfSome result (λ f. Fields incomplete_takes (incomplete_items f) left bytes.now) }
{
    if left == 0 {
        if !is_end(bytes) {
            return None;
        }
        return Some(saying_nothing());
    }
    let Some((incomplete, rest)) = read_flag(bytes) else {
        return None;
    };
    let Some((initial, most)) = read_initial(left - 1, rest) else {
        return None;
    };
    Some(LastFields {
        incomplete_unsettled: incomplete.unwrap_or(false),
        initial_delivery_count: initial,
        max_message_size: most,
    })
}

/// What the fields behind the target say where none is left.
#[inline(always)]
fn saying_nothing() -> LastFields
    ensures { result ≡ nothing_last }
{
    LastFields {
        incomplete_unsettled: false,
        initial_delivery_count: None,
        max_message_size: None,
    }
}

/// The first count of deliveries and the size of the largest message, of which so many are left, and which all these
/// bytes are.
#[inline(always)]
#[tactic(auto, using(crate::proofs::AttachRead::initial_forms))]
fn read_initial(left: u8, bytes: &[u8]) -> Option<(Option<u32>, Option<u64>)>
    ensures { IfSome result (λ p. Fields initial_takes (initial_items p.0 p.1) left bytes.now) }
{
    if left == 0 {
        if !is_end(bytes) {
            return None;
        }
        return Some((None, None));
    }
    let Some((initial, rest)) = read_uint_or_null(bytes) else {
        return None;
    };
    let Some(most) = read_most(left - 1, rest) else {
        return None;
    };
    Some((initial, most))
}

/// The size of the largest message, where one field is left, or none. All these bytes are it.
#[inline(always)]
#[tactic(auto, using(crate::proofs::AttachRead::most_forms))]
fn read_most(left: u8, bytes: &[u8]) -> Option<Option<u64>>
    ensures { IfSome result (λ m. Fields most_takes (most_items m) left bytes.now) }
{
    if left == 0 {
        if !is_end(bytes) {
            return None;
        }
        return Some(None);
    }
    if left != 1 {
        return None;
    }
    let Some((most, rest)) = read_ulong_or_null(bytes) else {
        return None;
    };
    if !is_end(rest) {
        return None;
    }
    Some(most)
}

/// The Attach that says only these fields, behind a pointer.
#[inline(always)]
fn attach_of(alloc: Global, fields: &AttachFields<'_>) -> Result<Boxed<Attach>, AllocError>
    ensures { IfOk result (λ a. a ≡ saying_only fields.now) }
{
    let name = Text::from_str(alloc, fields.link.name)?;
    let source = source_of(alloc, fields.termini.source)?;
    let target = target_of(alloc, fields.termini.target)?;
    Boxed::new(
        alloc,
        Attach {
            name,
            handle: Handle(fields.link.handle),
            role: fields.link.role,
            snd_settle_mode: fields.modes.sender,
            rcv_settle_mode: fields.modes.receiver,
            source,
            target,
            unsettled: None,
            incomplete_unsettled: fields.last.incomplete_unsettled,
            initial_delivery_count: fields.last.initial_delivery_count,
            max_message_size: fields.last.max_message_size,
            offered_capabilities: Array::new(alloc),
            desired_capabilities: Array::new(alloc),
            properties: None,
        },
    )
}

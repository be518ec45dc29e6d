//! A source and a target in their common form, read of bytes by hand, beside `Source::read` and `TargetArchetype::read`
//! (part 3, 3.5.3 and 3.5.4).
ghost use Rattle.std.specs.Prelude.{◌≡◌, IfOk, IfSome};
ghost use Rattle.amqp_session_frames.specs.CommonTerminus.{IsAddress, TerminusFront, bare_item, source_said};
ghost use Rattle.amqp_session_frames.specs.CommonTerminus.{source_with, target_said, target_with};
ghost use Rattle.amqp_session_frames.specs.Items.{Front};

use crate::items::{is_end, read_null, read_record, read_text};
use amqp_session_states::{
    Source, Target, TargetArchetype, TerminusDurability, TerminusExpiryPolicy,
};
use serde_amqp_types::{Array, Text};
use std::alloc::{AllocError, Global};

/// The code of a source's descriptor.
pub(crate) const SOURCE: u8 = 0x28;

/// The code of a target's descriptor.
pub(crate) const TARGET: u8 = 0x29;

/// A source or a target in its common form: it says an address alone, or nothing.
#[derive(Clone, Copy)]
pub(crate) enum Terminus<'a> {
    /// There is none.
    Absent,
    /// One without an address.
    Unaddressed,
    /// One with this address.
    At(&'a str),
}

/// The terminus with this descriptor that stands in front, or null, and what stands behind it. None where it is in
/// another form, or where there is none.
#[inline(always)]
#[tactic(auto, using(crate::proofs::TerminusRead::terminus_forms))]
pub(crate) fn read_terminus(bytes: &[u8], code: u8) -> Option<(Terminus<'_>, &[u8])>
    ensures { IfSome result (λ p. TerminusFront code p.0 bytes.now p.1.now) }
{
    let Some((first, rest)) = bytes.split_first() else {
        return None;
    };
    if *first == 0x40 {
        return Some((Terminus::Absent, rest));
    }
    if let Some(rest) = read_bare(bytes, code) {
        return Some((Terminus::Unaddressed, rest));
    }
    let Some((terminus, rest)) = read_addressed(bytes, code) else {
        return None;
    };
    Some((terminus, rest))
}

/// What stands behind the record without fields that stands in front with this descriptor.
#[inline(always)]
#[tactic(auto, using(crate::proofs::TerminusRead::bare_found))]
fn read_bare(bytes: &[u8], code: u8) -> Option<&[u8]>
    ensures { IfSome result (λ rest. Front (bare_item code) bytes.now rest.now) }
{
    if bytes.len() < 4 {
        return None;
    }
    if bytes[0] != 0 {
        return None;
    }
    if bytes[1] != 0x53 {
        return None;
    }
    if bytes[2] != code {
        return None;
    }
    if bytes[3] != 0x45 {
        return None;
    }
    Some(&bytes[4..])
}

/// The terminus that stands in front with this descriptor as a list of one byte's size and count, of an address or
/// null, and what stands behind it.
#[inline(always)]
#[tactic(auto, using(crate::proofs::TerminusRead::addressed_found))]
fn read_addressed(bytes: &[u8], code: u8) -> Option<(Terminus<'_>, &[u8])>
    ensures { IfSome result (λ p. TerminusFront code p.0 bytes.now p.1.now) }
{
    let Some((count, fields)) = read_record(bytes, code) else {
        return None;
    };
    if count != 1 {
        return None;
    }
    let Some(terminus) = read_address(fields) else {
        return None;
    };
    Some((terminus, &bytes[6 + fields.len()..]))
}

/// The terminus whose only field all these bytes are.
#[inline(always)]
#[tactic(auto, using(crate::proofs::TerminusRead::address_forms))]
fn read_address(bytes: &[u8]) -> Option<Terminus<'_>>
    ensures { IfSome result (λ t. IsAddress t bytes.now) }
{
    if let Some(rest) = read_null(bytes) {
        if !is_end(rest) {
            return None;
        }
        return Some(Terminus::Unaddressed);
    }
    let Some((address, rest)) = read_text(bytes) else {
        return None;
    };
    if !is_end(rest) {
        return None;
    }
    Some(Terminus::At(address))
}

/// The source that a terminus is.
#[inline(always)]
pub(crate) fn source_of(alloc: Global, terminus: Terminus<'_>) -> Result<Option<Source>, AllocError>
    ensures { IfOk result (λ s. s ≡ source_said terminus.entry) }
{
    match terminus {
        Terminus::Absent => Ok(None),
        Terminus::Unaddressed => Ok(Some(source_with(alloc, None))),
        Terminus::At(address) => {
            let address = Text::from_str(alloc, address)?;
            Ok(Some(source_with(alloc, Some(address))))
        }
    }
}

/// The source with this address, all of whose other fields are absent.
#[inline(always)]
fn source_with(alloc: Global, address: Option<Text>) -> Source
    ensures { result ≡ source_with address }
{
    Source {
        address,
        durable: TerminusDurability::None,
        expiry_policy: TerminusExpiryPolicy::SessionEnd,
        timeout: 0,
        dynamic: false,
        dynamic_node_properties: None,
        distribution_mode: None,
        filter: None,
        default_outcome: None,
        outcomes: Array::new(alloc),
        capabilities: Array::new(alloc),
    }
}

/// The target that a terminus is.
#[inline(always)]
pub(crate) fn target_of(
    alloc: Global,
    terminus: Terminus<'_>,
) -> Result<Option<TargetArchetype>, AllocError>
    ensures { IfOk result (λ t. t ≡ target_said terminus.entry) }
{
    match terminus {
        Terminus::Absent => Ok(None),
        Terminus::Unaddressed => Ok(Some(target_with(alloc, None))),
        Terminus::At(address) => {
            let address = Text::from_str(alloc, address)?;
            Ok(Some(target_with(alloc, Some(address))))
        }
    }
}

/// The target with this address, all of whose other fields are absent.
#[inline(always)]
fn target_with(alloc: Global, address: Option<Text>) -> TargetArchetype
    ensures { result ≡ target_with address }
{
    TargetArchetype::Target(Target {
        address,
        durable: TerminusDurability::None,
        expiry_policy: TerminusExpiryPolicy::SessionEnd,
        timeout: 0,
        dynamic: false,
        dynamic_node_properties: None,
        capabilities: Array::new(alloc),
    })
}

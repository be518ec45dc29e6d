//! Where a payload stops to be a message (part 3, 3.2).
use crate::messages::last_bytes;
use crate::reading::{Rewritten, reread};
use amqp_link_sections::{
    AmqpSequence, AmqpValue, ApplicationProperties, Data, DeliveryAnnotations, Footer, Header,
    MessageAnnotations, Properties, Section,
};
use serde_amqp_item::Error;
use serde_amqp_values::RawValue;
use std::alloc::{AllocError, Global};

/// The sections, in the order in which they are looked for.
const SECTIONS: [Section; 9] = [
    Section::Header,
    Section::DeliveryAnnotations,
    Section::MessageAnnotations,
    Section::Properties,
    Section::ApplicationProperties,
    Section::Data,
    Section::AmqpSequence,
    Section::AmqpValue,
    Section::Footer,
];

/// How many bytes stand before the first that are no section, or none that may follow on those before.
pub(crate) fn fault_offset(alloc: Global, bytes: &[u8]) -> Result<usize, AllocError> {
    let mut last = None;
    let mut rest = bytes;
    for _ in 0..bytes.len() {
        let Some((section, left)) = section_at(alloc, rest)? else {
            break;
        };
        if !may_follow(last, section) {
            break;
        }
        last = Some(section);
        rest = last_bytes(rest, left);
    }
    Ok(bytes.len().saturating_sub(rest.len()))
}

/// The section in front, if one stands there, and how many bytes stand behind it.
fn section_at(alloc: Global, bytes: &[u8]) -> Result<Option<(Section, usize)>, AllocError> {
    for section in SECTIONS {
        match reread_section(alloc, section, bytes) {
            Ok(rewritten) => return Ok(Some((section, rewritten.left))),
            Err(Error::Memory) => return Err(AllocError),
            Err(_) => {}
        }
    }
    Ok(None)
}

/// Reads such a section from the front of the bytes.
fn reread_section(alloc: Global, section: Section, bytes: &[u8]) -> Result<Rewritten, Error> {
    match section {
        Section::Header => reread::<Header>(alloc, bytes),
        Section::DeliveryAnnotations => reread::<DeliveryAnnotations>(alloc, bytes),
        Section::MessageAnnotations => reread::<MessageAnnotations>(alloc, bytes),
        Section::Properties => reread::<Properties>(alloc, bytes),
        Section::ApplicationProperties => reread::<ApplicationProperties>(alloc, bytes),
        Section::Data => reread::<Data>(alloc, bytes),
        Section::AmqpSequence => reread::<AmqpSequence<RawValue>>(alloc, bytes),
        Section::AmqpValue => reread::<AmqpValue<RawValue>>(alloc, bytes),
        Section::Footer => reread::<Footer>(alloc, bytes),
    }
}

/// Whether a section may stand behind the last one, or in front of all: in their order, and one of each but for data
/// and sequences. There is one kind of body, and a footer stands behind one.
fn may_follow(last: Option<Section>, section: Section) -> bool {
    let Some(last) = last else {
        return section != Section::Footer;
    };
    match last {
        Section::Data | Section::AmqpSequence => section == last || section == Section::Footer,
        Section::AmqpValue => section == Section::Footer,
        _ => section > last && section != Section::Footer,
    }
}

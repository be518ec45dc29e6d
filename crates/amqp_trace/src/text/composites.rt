//! The composites that are known by name, and their fields (parts 2, 3 and 5).

/// What is expected in a field, and written shorter there. What else stands in it is written as it is anywhere.
#[derive(Clone, Copy, PartialEq, Eq)]
pub(crate) enum Expected {
    /// Nothing that could be shorter.
    Any,
    /// An unsigned number of 8 bits.
    UByte,
    /// An unsigned number of 16 bits.
    UShort,
    /// An unsigned number of 32 bits.
    UInt,
    /// An unsigned number of 64 bits.
    ULong,
    /// A role, which is a boolean (part 2, 2.8.1).
    Role,
    /// A settlement policy of a sender (part 2, 2.8.2).
    SenderSettleMode,
    /// A settlement policy of a receiver (part 2, 2.8.3).
    ReceiverSettleMode,
    /// What a terminus keeps (part 3, 3.5.5).
    Durability,
}

/// A field's name, and what is expected in it.
pub(crate) type Field = (&'static str, Expected);

/// A composite that is known: a list of fields behind a descriptor.
#[derive(Clone, Copy)]
pub(crate) struct Composite {
    /// The name.
    pub(crate) name: &'static str,
    /// The fields, in order.
    pub(crate) fields: &'static [Field],
}

/// The composite with this code as its descriptor, if it is known.
pub(crate) fn composite_of(code: u64) -> Option<Composite> {
    match code {
        0x10..=0x18 => performative_of(code),
        0x1d..=0x29 => state_of(code),
        0x40..=0x44 => security_of(code),
        0x70 | 0x73 => section_of(code),
        _ => None,
    }
}

/// The performatives (part 2, 2.7).
fn performative_of(code: u64) -> Option<Composite> {
    match code {
        0x10 => named("open", OPEN),
        0x11 => named("begin", BEGIN),
        0x12 => named("attach", ATTACH),
        0x13 => named("flow", FLOW),
        0x14 => named("transfer", TRANSFER),
        0x15 => named("disposition", DISPOSITION),
        0x16 => named("detach", DETACH),
        0x17 => named("end", ERROR_ALONE),
        0x18 => named("close", ERROR_ALONE),
        _ => None,
    }
}

/// The error (part 2, 2.8.14), and states and ends of links (part 3, 3.4 and 3.5).
fn state_of(code: u64) -> Option<Composite> {
    match code {
        0x1d => named("error", ERROR),
        0x23 => named("received", RECEIVED),
        0x24 => named("accepted", &[]),
        0x25 => named("rejected", ERROR_ALONE),
        0x26 => named("released", &[]),
        0x27 => named("modified", MODIFIED),
        0x28 => named("source", SOURCE),
        0x29 => named("target", TARGET),
        _ => None,
    }
}

/// What the peers say of security before they open (part 5, 5.3.3).
fn security_of(code: u64) -> Option<Composite> {
    match code {
        0x40 => named("sasl-mechanisms", SASL_MECHANISMS),
        0x41 => named("sasl-init", SASL_INIT),
        0x42 => named("sasl-challenge", SASL_CHALLENGE),
        0x43 => named("sasl-response", SASL_RESPONSE),
        0x44 => named("sasl-outcome", SASL_OUTCOME),
        _ => None,
    }
}

/// The sections of messages that are composites (part 3, 3.2).
fn section_of(code: u64) -> Option<Composite> {
    match code {
        0x70 => named("header", HEADER),
        0x73 => named("properties", PROPERTIES),
        _ => None,
    }
}

/// The composite with this name and these fields.
fn named(name: &'static str, fields: &'static [Field]) -> Option<Composite> {
    Some(Composite { name, fields })
}

const OPEN: &[Field] = &[
    ("container-id", Expected::Any),
    ("hostname", Expected::Any),
    ("max-frame-size", Expected::UInt),
    ("channel-max", Expected::UShort),
    ("idle-time-out", Expected::UInt),
    ("outgoing-locales", Expected::Any),
    ("incoming-locales", Expected::Any),
    ("offered-capabilities", Expected::Any),
    ("desired-capabilities", Expected::Any),
    ("properties", Expected::Any),
];

const BEGIN: &[Field] = &[
    ("remote-channel", Expected::UShort),
    ("next-outgoing-id", Expected::UInt),
    ("incoming-window", Expected::UInt),
    ("outgoing-window", Expected::UInt),
    ("handle-max", Expected::UInt),
    ("offered-capabilities", Expected::Any),
    ("desired-capabilities", Expected::Any),
    ("properties", Expected::Any),
];

const ATTACH: &[Field] = &[
    ("name", Expected::Any),
    ("handle", Expected::UInt),
    ("role", Expected::Role),
    ("snd-settle-mode", Expected::SenderSettleMode),
    ("rcv-settle-mode", Expected::ReceiverSettleMode),
    ("source", Expected::Any),
    ("target", Expected::Any),
    ("unsettled", Expected::Any),
    ("incomplete-unsettled", Expected::Any),
    ("initial-delivery-count", Expected::UInt),
    ("max-message-size", Expected::ULong),
    ("offered-capabilities", Expected::Any),
    ("desired-capabilities", Expected::Any),
    ("properties", Expected::Any),
];

const FLOW: &[Field] = &[
    ("next-incoming-id", Expected::UInt),
    ("incoming-window", Expected::UInt),
    ("next-outgoing-id", Expected::UInt),
    ("outgoing-window", Expected::UInt),
    ("handle", Expected::UInt),
    ("delivery-count", Expected::UInt),
    ("link-credit", Expected::UInt),
    ("available", Expected::UInt),
    ("drain", Expected::Any),
    ("echo", Expected::Any),
    ("properties", Expected::Any),
];

const TRANSFER: &[Field] = &[
    ("handle", Expected::UInt),
    ("delivery-id", Expected::UInt),
    ("delivery-tag", Expected::Any),
    ("message-format", Expected::UInt),
    ("settled", Expected::Any),
    ("more", Expected::Any),
    ("rcv-settle-mode", Expected::ReceiverSettleMode),
    ("state", Expected::Any),
    ("resume", Expected::Any),
    ("aborted", Expected::Any),
    ("batchable", Expected::Any),
];

const DISPOSITION: &[Field] = &[
    ("role", Expected::Role),
    ("first", Expected::UInt),
    ("last", Expected::UInt),
    ("settled", Expected::Any),
    ("state", Expected::Any),
    ("batchable", Expected::Any),
];

const DETACH: &[Field] = &[
    ("handle", Expected::UInt),
    ("closed", Expected::Any),
    ("error", Expected::Any),
];

/// The one field of an End, a Close and a rejection.
const ERROR_ALONE: &[Field] = &[("error", Expected::Any)];

const ERROR: &[Field] = &[
    ("condition", Expected::Any),
    ("description", Expected::Any),
    ("info", Expected::Any),
];

const RECEIVED: &[Field] = &[
    ("section-number", Expected::UInt),
    ("section-offset", Expected::ULong),
];

const MODIFIED: &[Field] = &[
    ("delivery-failed", Expected::Any),
    ("undeliverable-here", Expected::Any),
    ("message-annotations", Expected::Any),
];

const SOURCE: &[Field] = &[
    ("address", Expected::Any),
    ("durable", Expected::Durability),
    ("expiry-policy", Expected::Any),
    ("timeout", Expected::UInt),
    ("dynamic", Expected::Any),
    ("dynamic-node-properties", Expected::Any),
    ("distribution-mode", Expected::Any),
    ("filter", Expected::Any),
    ("default-outcome", Expected::Any),
    ("outcomes", Expected::Any),
    ("capabilities", Expected::Any),
];

const TARGET: &[Field] = &[
    ("address", Expected::Any),
    ("durable", Expected::Durability),
    ("expiry-policy", Expected::Any),
    ("timeout", Expected::UInt),
    ("dynamic", Expected::Any),
    ("dynamic-node-properties", Expected::Any),
    ("capabilities", Expected::Any),
];

const SASL_MECHANISMS: &[Field] = &[("sasl-server-mechanisms", Expected::Any)];

const SASL_INIT: &[Field] = &[
    ("mechanism", Expected::Any),
    ("initial-response", Expected::Any),
    ("hostname", Expected::Any),
];

const SASL_CHALLENGE: &[Field] = &[("challenge", Expected::Any)];

const SASL_RESPONSE: &[Field] = &[("response", Expected::Any)];

const SASL_OUTCOME: &[Field] = &[
    ("code", Expected::UByte),
    ("additional-data", Expected::Any),
];

const HEADER: &[Field] = &[
    ("durable", Expected::Any),
    ("priority", Expected::UByte),
    ("ttl", Expected::UInt),
    ("first-acquirer", Expected::Any),
    ("delivery-count", Expected::UInt),
];

const PROPERTIES: &[Field] = &[
    ("message-id", Expected::Any),
    ("user-id", Expected::Any),
    ("to", Expected::Any),
    ("subject", Expected::Any),
    ("reply-to", Expected::Any),
    ("correlation-id", Expected::Any),
    ("content-type", Expected::Any),
    ("content-encoding", Expected::Any),
    ("absolute-expiry-time", Expected::Any),
    ("creation-time", Expected::Any),
    ("group-id", Expected::Any),
    ("group-sequence", Expected::UInt),
    ("reply-to-group-id", Expected::Any),
];

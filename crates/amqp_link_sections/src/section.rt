//! Which sections there are (part 3, 3.2).
ghost use Rattle.std.specs.Prelude.{◌≡◌};
ghost use Rattle.amqp_link_sections.specs.Section.{section_code, section_of};

use crate::{
    application_properties, body, delivery_annotations, footer, header, message_annotations,
    properties,
};

/// The sections of a message, in the order in which they stand in it (part 3, 3.2).
#[derive(Debug, Clone, Copy, PartialEq, Eq, PartialOrd, Ord)]
pub enum Section {
    /// How the message is to be delivered (3.2.1). At most one.
    Header,
    /// Annotations for the next hop (3.2.2). At most one.
    DeliveryAnnotations,
    /// Annotations of the message (3.2.3). At most one.
    MessageAnnotations,
    /// The properties (3.2.4). At most one.
    Properties,
    /// The application's properties (3.2.5). At most one.
    ApplicationProperties,
    /// Bytes of the body (3.2.6). One or more where the body is bytes.
    Data,
    /// Values of the body (3.2.7). One or more where the body is sequences.
    AmqpSequence,
    /// The value that the body is (3.2.8). One where the body is a value.
    AmqpValue,
    /// The footer (3.2.9). At most one.
    Footer,
}

impl Section {
    /// The code of the section's descriptor: 70 to 78, in hexadecimal, in the order of the sections (part 3, 3.2.1 to
    /// 3.2.9).
    pub fn code(self) -> u64
        ensures { result ≡ section_code self }
    {
        match self {
            Section::Header => header::CODE,
            Section::DeliveryAnnotations => delivery_annotations::CODE,
            Section::MessageAnnotations => message_annotations::CODE,
            Section::Properties => properties::CODE,
            Section::ApplicationProperties => application_properties::CODE,
            Section::Data => body::DATA_CODE,
            Section::AmqpSequence => body::AMQP_SEQUENCE_CODE,
            Section::AmqpValue => body::AMQP_VALUE_CODE,
            Section::Footer => footer::CODE,
        }
    }

    /// The section whose descriptor has this code; none where it is no section's.
    pub fn from_code(code: u64) -> Option<Section>
        ensures { result ≡ section_of code }
    {
        match code {
            header::CODE => Some(Section::Header),
            delivery_annotations::CODE => Some(Section::DeliveryAnnotations),
            message_annotations::CODE => Some(Section::MessageAnnotations),
            properties::CODE => Some(Section::Properties),
            application_properties::CODE => Some(Section::ApplicationProperties),
            body::DATA_CODE => Some(Section::Data),
            body::AMQP_SEQUENCE_CODE => Some(Section::AmqpSequence),
            body::AMQP_VALUE_CODE => Some(Section::AmqpValue),
            footer::CODE => Some(Section::Footer),
            _ => None,
        }
    }
}

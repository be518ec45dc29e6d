//! The sections of a message of AMQP 1.0 (part 3, 3.2): their fields, and how they are written and read.
#![tactic(auto)]

mod annotations;
mod application_properties;
mod body;
mod both;
mod delivery_annotations;
mod described;
mod footer;
mod header;
pub mod laws;
mod message_annotations;
mod message_id;
mod properties;
mod section;

pub use annotations::Annotations;
pub use application_properties::ApplicationProperties;
pub use body::{AmqpSequence, AmqpValue, Data};
pub use delivery_annotations::DeliveryAnnotations;
pub use footer::Footer;
pub use header::Header;
pub use message_annotations::MessageAnnotations;
pub use message_id::MessageId;
pub use properties::Properties;
pub use section::Section;

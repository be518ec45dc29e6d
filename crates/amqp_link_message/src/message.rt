//! A message: its sections in order (part 3, 3.2).
use amqp_link_sections::{
    ApplicationProperties, DeliveryAnnotations, Footer, Header, MessageAnnotations, Properties,
};

/// A message (part 3, 3.2). Its sections stand in a payload in this order, and those that are absent are left out.
#[derive(Debug, Drop)]
pub struct Message<B> {
    /// How the message is to be delivered (part 3, 3.2.1).
    pub header: Option<Header>,
    /// What is meant for the next node alone (part 3, 3.2.2).
    pub delivery_annotations: Option<DeliveryAnnotations>,
    /// What is meant for the nodes on the way (part 3, 3.2.3).
    pub message_annotations: Option<MessageAnnotations>,
    /// What the standard names of a message (part 3, 3.2.4).
    pub properties: Option<Properties>,
    /// What the application names of the message (part 3, 3.2.5).
    pub application_properties: Option<ApplicationProperties>,
    /// The sections of the body (part 3, 3.2.6 to 3.2.8).
    pub body: B,
    /// What is known of the message only behind its body (part 3, 3.2.9).
    pub footer: Option<Footer>,
}

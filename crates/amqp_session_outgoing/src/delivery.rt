//! A delivery that isn't settled yet.
use amqp_session_types::{DeliveryTag, OutputHandle};

/// A delivery that isn't settled yet (part 2, 2.6.12).
#[derive(Debug, Drop)]
pub struct Delivery {
    /// The own handle of its link.
    pub handle: OutputHandle,
    /// What the link calls it.
    pub tag: DeliveryTag,
}

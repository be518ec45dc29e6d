//! The flow state of one end of a link, and how a Flow shows it (part 2, 2.6.7).
ghost use Rattle.std.specs.Prelude.{◌≡◌, IsOk, IfOk, false};
ghost use Rattle.amqp_link_base.specs.Flows.{attached, shown, told};

use amqp_session_performatives::LinkFlow;
use amqp_session_types::{Boxed, Fields, Handle, OutputHandle};
use std::alloc::AllocError;

/// The flow state of one end of a link (part 2, 2.6.7). Counts wrap at 2^32.
#[derive(Debug, PartialEq, Drop)]
pub struct LinkFlowStateInner {
    /// The sender's count as the link was attached.
    pub initial_delivery_count: u32,
    /// How many deliveries were sent, counted from where the sender began: at a receiver, as far as it knows.
    pub delivery_count: u32,
    /// How many more deliveries may be sent.
    pub link_credit: u32,
    /// How many deliveries the sender has, as it said last.
    pub available: u32,
    /// Whether the receiver wants the credit used up.
    pub drain: bool,
    /// More about the link's state, by names.
    pub properties: Option<Boxed<Fields>>,
}

impl Clone for LinkFlowStateInner {
    ghost is_clone = { λ x y. y ≡ x };

    fn clone(&self) -> Result<Self, AllocError> {
        Ok(LinkFlowStateInner {
            initial_delivery_count: self.initial_delivery_count,
            delivery_count: self.delivery_count,
            link_credit: self.link_credit,
            available: self.available,
            drain: self.drain,
            properties: self.properties.clone()?,
        })
    }
}

impl LinkFlowStateInner {
    /// Begins an attachment with this count of the sender: there is no credit, and no drain is wanted.
    pub(crate) fn begin(&mut self, delivery_count: u32)
        ensures { self.new ≡ attached self.old delivery_count }
    {
        self.initial_delivery_count = delivery_count;
        self.delivery_count = delivery_count;
        self.link_credit = 0;
        self.drain = false;
    }

    /// A Flow that shows count, credit and drain, and no properties. No Flow shows how many deliveries are available
    /// (part 2, 2.7.4). It takes no memory.
    pub fn shown(&self, output_handle: OutputHandle, echo: bool) -> LinkFlow
        ensures { result ≡ shown output_handle echo self.now }
    {
        LinkFlow {
            handle: Handle(output_handle.0),
            delivery_count: Some(self.delivery_count),
            link_credit: Some(self.link_credit),
            available: None,
            drain: self.drain,
            echo,
            properties: None,
        }
    }

    /// A Flow that shows count, credit and drain, and where they are asked for the properties (part 2, 2.7.4).
    ///
    /// It is refused only where there is no memory for properties that are asked for.
    pub fn as_link_flow(
        &self,
        output_handle: OutputHandle,
        echo: bool,
        include_properties: bool,
    ) -> Result<LinkFlow, AllocError>
        ensures flow { IfOk result (λ flow.
            flow ≡ told output_handle echo include_properties self.now) }
        ensures not_asked { include_properties ≡ false → IsOk result }
        ensures none { self.now.properties ≡ None → IsOk result }
    {
        if !include_properties {
            return Ok(self.shown(output_handle, echo));
        }
        let properties = match &self.properties {
            Some(properties) => Some(properties.clone()?),
            None => None,
        };
        Ok(LinkFlow {
            properties,
            ..self.shown(output_handle, echo)
        })
    }
}

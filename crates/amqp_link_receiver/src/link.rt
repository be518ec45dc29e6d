//! A receiving link (part 2, 2.6).
ghost use Rattle.std.specs.Prelude.{◌≡◌, length, option_copied, Some};
ghost use Rattle.amqp_link_base.specs.Own.{bound};
ghost use Rattle.amqp_link_receiver.specs.Deliveries.{found};
ghost use Rattle.amqp_link_receiver.specs.State.{attachment_of, unattached};

use crate::{Attachment, Entry, ReceivingEnd};
use amqp_link_base::{LinkBase, LinkFlowStateInner, LinkState};
use amqp_session_types::{Boxed, DeliveryTag, Fields, OutputHandle, ReceiverSettleMode};
use serde_amqp_types::Text;
use std::alloc::Global;
use std::marker::Model;

/// The receiving end of a link (part 2, 2.6).
pub struct ReceiverLink {
    pub(crate) base: LinkBase,
    pub(crate) end: ReceivingEnd,
    /// How many attachments of the link ended. It tells the numbers of deliveries in one from those in another.
    pub(crate) attachment: u64,
    /// The properties of the link, with those that the peer gave it.
    pub(crate) properties: Option<Boxed<Fields>>,
}

impl Drop for ReceiverLink {
    fn drop(self) {
        let ReceiverLink {
            base: _,
            end: _,
            attachment: _,
            properties: _,
        } = self;
    }
}

impl Model for ReceiverLink {
    ghost use Rattle.amqp_link_receiver.specs.State.{ReceiverState};

    ghost Value = { ReceiverState };

    ghost view = { λ s. record { base = s.base; end = s.end; attachment = s.attachment; properties = s.properties } };
}

impl ReceiverLink {
    /// A link that was never attached, of which the count of deliveries begins here. It takes no memory.
    pub fn new(
        alloc: Global,
        base: LinkBase,
        initial_delivery_count: u32,
        properties: Option<Boxed<Fields>>,
    ) -> Self
        ensures { result ≡ unattached base initial_delivery_count properties }
    {
        let flow = LinkFlowStateInner {
            initial_delivery_count,
            delivery_count: initial_delivery_count,
            link_credit: 0,
            available: 0,
            drain: false,
            properties: None,
        };
        ReceiverLink {
            base,
            end: ReceivingEnd::new(alloc, flow),
            attachment: 0,
            properties,
        }
    }

    /// Where the link stands between its Attach and its Detach frames (part 2, 2.6.3 to 2.6.6).
    pub fn local_state(&self) -> LinkState
        ensures { result ≡ self.now.base.local_state }
    {
        self.base.local_state
    }

    /// What both ends of a link keep of it.
    pub fn base(&self) -> &LinkBase
        ensures { result.now ≡ self.now.base }
    {
        &self.base
    }

    /// The link's name (part 2, 2.6.1).
    pub fn name(&self) -> &Text
        ensures { result.now ≡ self.now.base.name }
    {
        &self.base.name
    }

    /// How the link settles deliveries of which their transfers don't say it (part 2, 2.8.3).
    pub fn rcv_settle_mode(&self) -> ReceiverSettleMode
        ensures { result ≡ self.now.base.terms.rcv_settle_mode }
    {
        self.base.terms.rcv_settle_mode
    }

    /// The size of the largest message that both ends take, in bytes; None where there is no bound (part 2, 2.7.3).
    pub fn max_message_size(&self) -> Option<u64>
        ensures { result ≡ bound self.now.base.terms.max_message_size }
    {
        self.base.max_message_size()
    }

    /// The credit and the counts (part 2, 2.6.7). The link's properties stand apart (`properties`).
    pub fn flow_state(&self) -> &LinkFlowStateInner
        ensures { result.now ≡ self.now.end.flow }
    {
        self.end.flow()
    }

    /// The properties of the link: those that it was made with, and those that the peer gave it (part 2, 2.7.3).
    pub fn properties(&self) -> &Option<Boxed<Fields>>
        ensures { result.now ≡ self.now.properties }
    {
        &self.properties
    }

    /// The present attachment, as the messages see it that come in by it.
    pub fn attachment(&self) -> Attachment
        ensures { result ≡ attachment_of self.now }
    {
        Attachment {
            count: self.attachment,
            max_message_size: self.base.terms.max_message_size,
            rcv_settle_mode: self.base.terms.rcv_settle_mode,
        }
    }

    /// How many deliveries are unsettled.
    pub fn unsettled_len(&self) -> usize
        ensures { result ≡ length self.now.end.unsettled }
    {
        self.end.unsettled().len()
    }

    /// What is kept of the unsettled delivery with this tag, if there is one.
    pub fn unsettled(&self, tag: &DeliveryTag) -> Option<&Entry>
        ensures { option_copied result ≡ found self.now.end.unsettled tag.now }
    {
        self.end.unsettled().get(tag)
    }

    /// The own handle is this from now on.
    pub fn set_output_handle(&mut self, handle: OutputHandle)
        ensures { self.new ≡ record self.old
            { base = record self.old.base { output_handle = Some handle } } }
    {
        self.base.output_handle = Some(handle);
    }
}

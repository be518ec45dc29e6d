//! A sending link, and its credit (part 2, 2.6.7).
ghost use Rattle.std.specs.Prelude.{◌≡◌, length, option_copied, false, None, Some};
ghost use Rattle.std.specs.Borrow.{sem};
ghost use Rattle.amqp_link_base.specs.Own.{bound};
ghost use Rattle.amqp_link_sender.specs.Lends.{lends_handle, lends_properties};
ghost use Rattle.amqp_link_sender.specs.Sending.{counts_of, flowed, flow_answer, recounted};
ghost use Rattle.amqp_link_unsettled.specs.Messages.{no_messages, open_at, first_of};

use amqp_link_base::{LinkBase, LinkFlowState, LinkFlowStateInner, LinkState, SenderMarker};
use amqp_link_unsettled::{Messages, Open, Waiting};
use amqp_session_performatives::LinkFlow;
use amqp_session_types::{
    Boxed, DeliveryTag, Fields, OutputHandle, ReceiverSettleMode, SessionStopReason, definitions,
};
use serde_amqp_types::Text;
use std::alloc::Global;
use std::marker::Model;

/// What a Flow of the receiver changes of a sending link (part 2, 2.6.7).
#[derive(Debug, Clone, Copy, PartialEq, Eq)]
pub struct Counts {
    /// How many deliveries were sent. It wraps at 2^32.
    pub delivery_count: u32,
    /// How many more may be sent.
    pub link_credit: u32,
    /// Whether the receiver wants the credit used up.
    pub drain: bool,
}

/// The sending end of a link (part 2, 2.6).
pub struct SenderLink {
    pub(crate) base: LinkBase,
    pub(crate) flow: LinkFlowState<SenderMarker>,
    pub(crate) messages: Messages,
    pub(crate) remote_error: Option<Boxed<definitions::Error>>,
}

impl Drop for SenderLink {
    fn drop(self) {
        let SenderLink {
            base: _,
            flow: _,
            messages: _,
            remote_error: _,
        } = self;
    }
}

impl Model for SenderLink {
    ghost use Rattle.amqp_link_sender.specs.Sending.{Sending};

    ghost Value = { Sending };

    ghost view = { λ s. record { base = s.base; flow = s.flow; messages = s.messages; remote_error = s.remote_error } };
}

impl SenderLink {
    /// A link that was never attached, of which the count of deliveries begins here. It takes no memory.
    pub fn new(
        alloc: Global,
        base: LinkBase,
        initial_delivery_count: u32,
        properties: Option<Boxed<Fields>>,
    ) -> Self
        ensures { result ≡ record {
          base = base;
          flow = record {
            initial_delivery_count = initial_delivery_count;
            delivery_count = initial_delivery_count;
            link_credit = 0;
            available = 0;
            drain = false;
            properties = properties;
          };
          messages = no_messages;
          remote_error = None;
        } }
    {
        SenderLink {
            base,
            flow: LinkFlowState::new(LinkFlowStateInner {
                initial_delivery_count,
                delivery_count: initial_delivery_count,
                link_credit: 0,
                available: 0,
                drain: false,
                properties,
            }),
            messages: Messages::new(alloc),
            remote_error: None,
        }
    }

    /// Where the link stands between its Attach and its Detach frames (part 2, 2.6.3 to 2.6.6).
    pub fn local_state(&self) -> LinkState
        ensures { result ≡ self.now.base.local_state }
    {
        self.base.local_state
    }

    /// What both ends of a link keep of it.
    pub fn base(&self) -> &LinkBase
        ensures { result.now ≡ self.now.base }
    {
        &self.base
    }

    /// The link's name (part 2, 2.6.1).
    pub fn name(&self) -> &Text
        ensures { result.now ≡ self.now.base.name }
    {
        &self.base.name
    }

    /// Why the link's session stopped, once it did.
    pub fn session_stop_reason(&self) -> &Option<Boxed<SessionStopReason>>
        ensures { result.now ≡ self.now.base.session_stop_reason }
    {
        &self.base.session_stop_reason
    }

    /// How the receiver settles deliveries (part 2, 2.8.3).
    pub fn rcv_settle_mode(&self) -> ReceiverSettleMode
        ensures { result ≡ self.now.base.terms.rcv_settle_mode }
    {
        self.base.terms.rcv_settle_mode
    }

    /// The size of the largest message, in bytes; None for no bound (part 2, 2.7.3).
    pub fn max_message_size(&self) -> Option<u64>
        ensures { result ≡ bound self.now.base.terms.max_message_size }
    {
        self.base.max_message_size()
    }

    /// The link's properties: the own ones, into which the peer's were merged (part 2, 2.7.3).
    pub fn properties(&self) -> &Option<Boxed<Fields>>
        ensures { result.now ≡ self.now.flow.properties }
    {
        self.flow.properties()
    }

    /// The link's properties, to be changed. All else stays.
    pub fn properties_mut(&mut self) -> &mut Option<Boxed<Fields>>
        ensures* writes_back { sem 𝓛 (lends_properties self.entry result) }
        ensures value { result.now ≡ self.old.flow.properties }
    {
        self.flow.properties_mut()
    }

    /// The own handle, which the link has while it is attached, to be changed. All else stays (part 2, 2.6.2).
    pub fn output_handle_mut(&mut self) -> &mut Option<OutputHandle>
        ensures* writes_back { sem 𝓛 (lends_handle self.entry result) }
        ensures value { result.now ≡ self.old.base.output_handle }
    {
        &mut self.base.output_handle
    }

    /// The state of the credit.
    pub fn flow_state(&self) -> &LinkFlowState<SenderMarker>
        ensures { result.now ≡ self.now.flow }
    {
        &self.flow
    }

    /// How many messages are open.
    pub fn unsettled_len(&self) -> usize
        ensures { result ≡ length self.now.messages.unsettled }
    {
        self.messages.len()
    }

    /// The open message with this tag, if there is one.
    pub fn unsettled(&self, tag: &DeliveryTag) -> Option<&Open>
        ensures { option_copied result ≡ open_at self.now.messages tag.now }
    {
        self.messages.get(tag)
    }

    /// The first message that waits to be sent on, if there is one.
    pub fn first_waiting(&self) -> Option<&Waiting>
        ensures { option_copied result ≡ first_of self.now.messages.waiting }
    {
        self.messages.first_waiting()
    }

    /// The own handle is this from now on.
    pub fn set_output_handle(&mut self, handle: OutputHandle)
        ensures { self.new ≡ record self.old
            { base = record self.old.base { output_handle = Some handle } } }
    {
        self.base.output_handle = Some(handle);
    }

    /// Takes a Flow of the receiver, which changes the credit while the link is attached, and answers the Flow that is to
    /// be sent: where the receiver wants the credit used up, or asks for an echo (part 2, 2.6.7). It takes no memory.
    pub fn on_incoming_flow(&mut self, flow: LinkFlow) -> Option<LinkFlow>
        ensures state { self.new ≡ flowed self.old flow }
        ensures answer { result ≡ flow_answer self.old flow }
    {
        if !self.base.is_attached() {
            return None;
        }
        let handle = self.base.own_handle();
        self.flow.on_incoming_flow(flow, handle)
    }
    /// What a Flow of the receiver changes of the link, as it stands.
    pub fn counts(&self) -> Counts
        ensures { result ≡ counts_of self.now }
    {
        Counts {
            delivery_count: self.flow.delivery_count(),
            link_credit: self.flow.link_credit(),
            drain: self.flow.drain(),
        }
    }

    /// The link's counts are these from now on, as they were before a Flow or a message of which nothing is to be left
    /// (part 2, 2.6.7). No Flow shows them, and what waits to be sent on stays as it is. It takes no memory.
    pub fn set_counts(&mut self, counts: Counts)
        ensures { self.new ≡ recounted self.old counts }
    {
        self.flow
            .set_counts(counts.delivery_count, counts.link_credit, counts.drain);
    }
}

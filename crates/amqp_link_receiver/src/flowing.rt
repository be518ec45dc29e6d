//! The credit that a receiving link gives, and its Flows (part 2, 2.6.7 and 2.7.4).
ghost use Rattle.std.specs.Prelude.{◌≡◌};
ghost use Rattle.amqp_link_base.specs.Own.{handle_of};
ghost use Rattle.amqp_link_base.specs.Flows.{shown};
ghost use Rattle.amqp_link_receiver.specs.Flowing.{Drains, Grants, Shows, drained, flow_answer, flowed, grant_refusal};
ghost use Rattle.amqp_link_receiver.specs.Flowing.{link_recounted};
ghost use Rattle.amqp_link_receiver.specs.Flowing.{own_flow, told_flow};

use crate::link::ReceiverLink;
use amqp_link_base::IllegalState;
use amqp_session_performatives::LinkFlow;
use std::alloc::AllocError;

/// The largest credit that is given: what reaches further can't be told from what lies behind (part 2, 2.6.7).
const LARGEST_CREDIT: u32 = (1 << 31) - 1;

/// Credit that was given.
#[derive(Debug, Drop)]
pub struct Granted {
    /// The credit that was left before.
    pub left: u32,
    /// The Flow that shows the credit, and is to be sent.
    pub flow: LinkFlow,
}

/// Why credit isn't given. The link is as before.
#[derive(Debug, Clone, Copy, PartialEq, Eq)]
pub enum GrantRefusal {
    /// The link isn't attached.
    IllegalState,
    /// It is more than 2^31 - 1.
    CreditOutOfRange,
}

/// Why a Flow isn't shown.
#[derive(Debug, Clone, Copy, PartialEq, Eq)]
pub enum FlowRefusal {
    /// The link isn't attached.
    IllegalState,
    /// There was no memory.
    Memory,
}

impl From<AllocError> for FlowRefusal {
    ghost use Rattle.amqp_link_receiver.specs.declared.flowing.FlowRefusal.TheVariants.{Memory};

    ghost from_gives = { λ _ e. e ≡ Memory };

    fn from(_error: AllocError) -> Self {
        FlowRefusal::Memory
    }
}

impl ReceiverLink {
    /// Gives this credit, in place of what was left of the credit given before, and wants no drain any more (part 2,
    /// 2.6.7). The answer is the credit that was left, and the Flow that is to be sent. It takes no memory.
    ///
    /// Errors, tested in this order: `IllegalState` where the link isn't attached; `CreditOutOfRange` where the
    /// credit is more than 2^31 - 1. Nothing changes then.
    pub fn grant(&mut self, credit: u32) -> Result<Granted, GrantRefusal>
        ensures { Grants (grant_refusal self.old credit) self.old credit result self.new }
    {
        if !self.base.is_attached() {
            return Err(GrantRefusal::IllegalState);
        }
        if credit > LARGEST_CREDIT {
            return Err(GrantRefusal::CreditOutOfRange);
        }
        let left = self.end.grant(credit);
        Ok(Granted {
            left,
            flow: self.own_flow(),
        })
    }

    /// The count of deliveries and the credit are these from now on, as they were before a transfer of which nothing is
    /// to be left (part 2, 2.6.7). No Flow shows them. It takes no memory.
    pub fn set_counts(&mut self, delivery_count: u32, link_credit: u32)
        ensures { self.new ≡ link_recounted self.old delivery_count link_credit }
    {
        self.end.set_counts(delivery_count, link_credit);
    }

    /// Wants the credit used up (part 2, 2.6.7). The answer is the Flow that is to be sent. It takes no memory.
    ///
    /// Errors: `IllegalState` exactly where the link isn't attached. Nothing changes then.
    pub fn drain(&mut self) -> Result<LinkFlow, IllegalState>
        ensures { Drains (drained self.old) self.old result self.new }
    {
        if !self.base.is_attached() {
            return Err(IllegalState);
        }
        self.end.drain();
        Ok(self.own_flow())
    }

    /// A Flow that shows count, credit and drain, and where they are asked for the link's properties, and that asks
    /// for an echo or doesn't (part 2, 2.7.4). It changes nothing.
    ///
    /// Errors: `IllegalState` exactly where the link isn't attached; `Memory` only where there is none for properties
    /// that are asked for.
    pub fn send_flow(&self, echo: bool, include_properties: bool) -> Result<LinkFlow, FlowRefusal>
        ensures { Shows include_properties (told_flow self.now echo include_properties) result }
    {
        if !self.base.is_attached() {
            return Err(FlowRefusal::IllegalState);
        }
        if !include_properties {
            return Ok(self.shown(echo));
        }
        let properties = self.properties.clone()?;
        Ok(LinkFlow {
            properties,
            ..self.shown(echo)
        })
    }

    /// Takes a Flow of the sender, which moves count and credit while the link is attached, and answers the Flow that
    /// is to be sent where it asks for an echo (part 2, 2.6.7). It takes no memory.
    pub fn on_incoming_flow(&mut self, flow: LinkFlow) -> Option<LinkFlow>
        ensures state { self.new ≡ flowed self.old flow }
        ensures answer { result ≡ flow_answer self.old flow }
    {
        if !self.base.is_attached() {
            return None;
        }
        let handle = self.base.own_handle();
        self.end.on_incoming_flow(flow, handle)
    }

    /// The Flow that shows count, credit and drain.
    fn own_flow(&self) -> LinkFlow
        ensures { result ≡ own_flow self.now }
    {
        self.shown(false)
    }

    /// The Flow that shows count, credit and drain, and that asks for an echo or doesn't.
    fn shown(&self, echo: bool) -> LinkFlow
        ensures { result ≡ shown (handle_of self.now.base.output_handle) echo self.now.end.flow }
    {
        self.end.flow().shown(self.base.own_handle(), echo)
    }
}

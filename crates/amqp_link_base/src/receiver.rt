//! The flow state of a link's receiving end (part 2, 2.6.7).
ghost use Rattle.std.specs.Prelude.{◌≡◌, ◌≤◌, ◌↔◌, IsOk, OnOk, IfErr};
ghost use Rattle.amqp_link_types.specs.declared.refusals.ReceiverTransferError.TheVariants.{TransferLimitExceeded};
ghost use Rattle.amqp_link_base.specs.Flows.{receiver_flowed, receiver_answer};
ghost use Rattle.amqp_link_base.specs.Flows.{attached, consumed, granted, draining, with_counts};

use crate::flow_state::LinkFlowState;
use crate::inner::LinkFlowStateInner;
use amqp_link_types::{ReceiverMarker, ReceiverTransferError};
use amqp_session_performatives::LinkFlow;
use amqp_session_types::OutputHandle;
use std::mem;

impl LinkFlowState<ReceiverMarker> {
    /// A receiving end in this state.
    pub fn receiver(inner: LinkFlowStateInner) -> Self
        ensures { result ≡ inner }
    {
        LinkFlowState::new(inner)
    }

    /// Begins an attachment: there is no credit, no drain is wanted, and both counts are the one that the sender's
    /// Attach tells (part 2, 2.6.3 and 2.6.7).
    pub fn attach(&mut self, initial_delivery_count: u32)
        ensures { self.new ≡ attached self.old initial_delivery_count }
    {
        self.inner.begin(initial_delivery_count);
    }

    /// Takes a Flow of the sender: the count becomes the sender's, and the credit shrinks by what the count moves on
    /// (part 2, 2.6.7).
    ///
    /// A Flow that asks for an echo is answered by the Flow that is to be sent on `output_handle`. It takes no
    /// memory.
    pub fn on_incoming_flow(
        &mut self,
        flow: LinkFlow,
        output_handle: OutputHandle,
    ) -> Option<LinkFlow>
        ensures state { self.new ≡ receiver_flowed self.old flow }
        ensures answer { result ≡ receiver_answer flow output_handle self.new }
    {
        if let Some(count) = flow.delivery_count {
            let ahead = count.wrapping_sub(self.inner.delivery_count);
            if ahead < 1 << 31 {
                self.inner.link_credit = self.inner.link_credit.saturating_sub(ahead);
            }
            self.inner.delivery_count = count;
        }
        if let Some(available) = flow.available {
            self.inner.available = available;
        }
        if flow.echo {
            Some(self.inner.shown(output_handle, false))
        } else {
            None
        }
    }

    /// Uses credit: as many deliveries are counted as received (part 2, 2.6.7).
    ///
    /// Errors: `TransferLimitExceeded` exactly where there is less credit. Nothing changes then.
    pub fn consume(&mut self, count: u32) -> Result<(), ReceiverTransferError>
        ensures enough { IsOk result ↔ (count ≤ self.old.link_credit) }
        ensures ok { OnOk result (self.new ≡ consumed self.old count) }
        ensures err { IfErr result (λ e. (e ≡ TransferLimitExceeded) × (self.new ≡ self.old)) }
    {
        if self.inner.link_credit < count {
            return Err(ReceiverTransferError::TransferLimitExceeded);
        }
        self.inner.delivery_count = self.inner.delivery_count.wrapping_add(count);
        self.inner.link_credit -= count;
        Ok(())
    }

    /// Gives this credit, in place of what was left of the credit given before, and wants no drain any more
    /// (part 2, 2.6.7). The answer is the credit that was left.
    pub fn grant(&mut self, credit: u32) -> u32
        ensures state { self.new ≡ granted self.old credit }
        ensures left { result ≡ self.old.link_credit }
    {
        self.inner.drain = false;
        mem::replace(&mut self.inner.link_credit, credit)
    }

    /// The count of deliveries and the credit are these from now on (part 2, 2.6.7).
    pub fn set_counts(&mut self, delivery_count: u32, link_credit: u32)
        ensures { self.new ≡ with_counts self.old delivery_count link_credit }
    {
        self.inner.delivery_count = delivery_count;
        self.inner.link_credit = link_credit;
    }

    /// Wants the credit used up (part 2, 2.6.7).
    pub fn set_drain(&mut self)
        ensures { self.new ≡ draining self.old }
    {
        self.inner.drain = true;
    }
}

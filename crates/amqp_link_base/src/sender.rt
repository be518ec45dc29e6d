//! The flow state of a link's sending end (part 2, 2.6.7).
ghost use Rattle.std.specs.Prelude.{◌≡◌, ◌≤◌, ◌↔◌, IsOk, OnOk, OnErr};
ghost use Rattle.amqp_link_base.specs.Flows.{credit_after, sender_flowed, sender_answer, attached, consumed, with_counts};

use crate::flow_state::LinkFlowState;
use crate::inner::LinkFlowStateInner;
use amqp_link_types::{InsufficientCredit, SenderMarker};
use amqp_session_performatives::LinkFlow;
use amqp_session_types::OutputHandle;
use std::mem;

impl LinkFlowState<SenderMarker> {
    /// A sending end in this state.
    pub fn sender(inner: LinkFlowStateInner) -> Self
        ensures { result ≡ inner }
    {
        LinkFlowState::new(inner)
    }

    /// Begins an attachment: there is no credit, no drain is wanted, and the count from which the link starts is the
    /// count of now (part 2, 2.6.3 and 2.6.7).
    pub fn attach(&mut self)
        ensures { self.new ≡ attached self.old self.old.delivery_count }
    {
        let count = self.inner.delivery_count;
        self.inner.begin(count);
    }

    /// Takes a Flow of the receiver: the credit comes to reach as far as the receiver's, and where the receiver wants
    /// it used up, the count moves past all of it (part 2, 2.6.7).
    ///
    /// A Flow that wants the credit used up or that asks for an echo is answered by the Flow that is to be sent on
    /// `output_handle`. It takes no memory.
    pub fn on_incoming_flow(
        &mut self,
        flow: LinkFlow,
        output_handle: OutputHandle,
    ) -> Option<LinkFlow>
        ensures state { self.new ≡ sender_flowed self.old flow }
        ensures answer { result ≡ sender_answer flow output_handle self.new }
    {
        let theirs = flow
            .delivery_count
            .unwrap_or(self.inner.initial_delivery_count);
        if let Some(credit) = flow.link_credit {
            self.inner.link_credit = credit_after(self.inner.delivery_count, theirs, credit);
        }
        self.inner.drain = flow.drain;
        if flow.drain {
            let left = mem::replace(&mut self.inner.link_credit, 0);
            self.inner.delivery_count = self.inner.delivery_count.wrapping_add(left);
            return Some(self.inner.shown(output_handle, false));
        }
        if flow.echo {
            Some(self.inner.shown(output_handle, false))
        } else {
            None
        }
    }

    /// The credit that there is once this Flow of the receiver is taken: none where it wants the credit used up (part 2,
    /// 2.6.7). Nothing changes.
    pub fn credit_by(&self, flow: &LinkFlow) -> u32
        ensures { result ≡ (sender_flowed self.now flow.now).link_credit }
    {
        if flow.drain {
            return 0;
        }
        let Some(credit) = flow.link_credit else {
            return self.inner.link_credit;
        };
        let initial = self.inner.initial_delivery_count;
        let theirs = flow.delivery_count.unwrap_or(initial);
        credit_after(self.inner.delivery_count, theirs, credit)
    }

    /// The credit that there is once an attachment began and this Flow of the receiver is taken in it: what was given in
    /// the one before is gone, and the count is that of now (part 2, 2.6.3 and 2.6.7). Nothing changes.
    pub fn credit_by_anew(&self, flow: &LinkFlow) -> u32
        ensures { result ≡ (sender_flowed (attached self.now self.now.delivery_count) flow.now).link_credit }
    {
        if flow.drain {
            return 0;
        }
        let Some(credit) = flow.link_credit else {
            return 0;
        };
        let own = self.inner.delivery_count;
        credit_after(own, flow.delivery_count.unwrap_or(own), credit)
    }

    /// The count of deliveries, the credit, and whether the receiver wants it used up are these from now on (part 2,
    /// 2.6.7).
    pub fn set_counts(&mut self, delivery_count: u32, link_credit: u32, drain: bool)
        ensures { self.new ≡ record (with_counts self.old delivery_count link_credit) { drain = drain } }
    {
        self.inner.delivery_count = delivery_count;
        self.inner.link_credit = link_credit;
        self.inner.drain = drain;
    }

    /// Uses credit: as many deliveries are counted as sent (part 2, 2.6.7).
    ///
    /// Errors: `InsufficientCredit` exactly where there is less credit. Nothing changes then.
    pub fn try_consume(&mut self, count: u32) -> Result<(), InsufficientCredit>
        ensures enough { IsOk result ↔ (count ≤ self.old.link_credit) }
        ensures ok { OnOk result (self.new ≡ consumed self.old count) }
        ensures err { OnErr result (self.new ≡ self.old) }
    {
        if self.inner.link_credit < count {
            return Err(InsufficientCredit);
        }
        self.inner.delivery_count = self.inner.delivery_count.wrapping_add(count);
        self.inner.link_credit -= count;
        Ok(())
    }
}

/// The credit of a sender with the count `own`, by a Flow of a receiver that knows the count `theirs`.
fn credit_after(own: u32, theirs: u32, credit: u32) -> u32
    ensures { result ≡ credit_after own theirs credit }
{
    let ahead = own.wrapping_sub(theirs);
    if ahead < 1 << 31 {
        credit.saturating_sub(ahead)
    } else {
        credit.saturating_add(theirs.wrapping_sub(own))
    }
}

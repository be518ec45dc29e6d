//! What goes on of the messages that wait, once a Flow of the receiver is taken (part 2, 2.6.7 and 2.6.13).
ghost use Rattle.std.specs.Prelude.{◌≡◌, ◌++◌, [], ◌∷◌, IfOk, OnOk};
ghost use Rattle.std.specs.VecDeque.Iter.{deque_iter_rest};
ghost use Rattle.amqp_link_sender.specs.Sending.{flowed};
ghost use Rattle.amqp_link_sender.specs.SendsOn.{all_on, all_on_behind, going_on};

use crate::attaching::PreparedAttach;
use crate::link::SenderLink;
use crate::sending_on::{PreparedSendOn, prepared_waiting};
use amqp_link_unsettled::{Messages, Waiting};
use amqp_session_performatives::LinkFlow;
use std::alloc::{AllocError, Global};
use std::collections::vec_deque;

impl SenderLink {
    /// What is sent on once this Flow of the receiver is taken: as many of the messages that wait as it leaves credit
    /// for, in the order in which they go, and none unless the link is attached (part 2, 2.6.7 and 2.6.13). Nothing
    /// changes yet.
    ///
    /// Errors: want of memory alone. It takes time by the messages that go on, and not by the credit.
    #[tactic(auto, using(crate::proofs::GoingOn::rules))]
    pub fn prepare_sends_on(
        &self,
        alloc: Global,
        flow: &LinkFlow,
    ) -> Result<Vec<PreparedSendOn>, AllocError>
        ensures { IfOk result (λ ready. ready.items ≡ all_on (flowed self.now flow.now)) }
    {
        if !self.base.is_attached() {
            return Ok(Vec::new(alloc));
        }
        let credit = self.flow.credit_by(flow);
        all_ready(alloc, &self.messages, self.messages.waiting(), credit)
    }

    /// What is sent on once the peer's Attach is taken as it was made ready, the own one is sent, and this Flow of the
    /// receiver, which was kept, is taken then: as many of the messages that are to wait as the Flow gives credit for,
    /// in the order in which they go (part 2, 2.6.7 and 2.6.13). Nothing changes yet.
    ///
    /// Errors: want of memory alone. It takes time by the messages that go on, and not by the credit.
    pub fn prepare_sends_on_behind(
        &self,
        alloc: Global,
        prepared: &PreparedAttach,
        flow: &LinkFlow,
    ) -> Result<Vec<PreparedSendOn>, AllocError>
        ensures { IfOk result (λ ready. ready.items ≡ all_on_behind self.now prepared.now flow.now) }
    {
        let credit = self.flow.credit_by_anew(flow);
        all_ready(alloc, &self.messages, prepared.waiting(), credit)
    }
}

/// As many of the messages that wait as there is credit for.
fn all_ready(
    alloc: Global,
    messages: &Messages,
    waiting: vec_deque::Iter<'_, Waiting>,
    credit: u32,
) -> Result<Vec<PreparedSendOn>, AllocError>
    ensures { IfOk result (λ ready. ready.items
        ≡ going_on messages.now (deque_iter_rest waiting.entry) credit) }
{
    let mut ready = Vec::new(alloc);
    gather(messages, waiting, credit, &mut ready)?;
    Ok(ready)
}

/// As many of the messages that wait as there is credit for, behind those that are ready already.
fn gather(
    messages: &Messages,
    waiting: vec_deque::Iter<'_, Waiting>,
    credit: u32,
    ready: &mut Vec<PreparedSendOn>,
) -> Result<(), AllocError>
    ensures { OnOk result (ready.new.items ≡ ready.old.items
        ++ going_on messages.now (deque_iter_rest waiting.entry) credit) }
{
    let (mut rest, mut left) = (waiting, credit);
    while let Some(waiting) = rest.next() {
        if left == 0 {
            return Ok(());
        }
        let Some(prepared) = prepared_waiting(messages, waiting)? else {
            return Ok(());
        };
        push(ready, prepared)?;
        left -= 1;
    }
    Ok(())
}

/// A value behind the others.
fn push<T: Drop>(list: &mut Vec<T>, value: T) -> Result<(), AllocError>
    ensures { OnOk result (list.new.items ≡ list.old.items ++ value ∷ []) }
{
    list.push(value)?;
    Ok(())
}

//! What comes of an end of a link, made ready before anything changes: the messages that go on once a Flow is taken,
//! and what an Attach gives up and ends (part 2, 2.6.7 and 2.6.13).
ghost use Rattle.std.specs.Prelude.{◌≡◌, IfOk};
ghost use Rattle.amqp_link.specs.Preparing.{IsFor};
ghost use Rattle.amqp_link.specs.GoingOn.{HasCreditFor, aborts_of, ended_of, sends_on_behind, sends_on_by, sent_on};

use crate::end::{End, LinkEnd};
use crate::preparing::PreparedAttach;
use amqp_link_sender::PreparedSendOn;
use amqp_link_unsettled::Abort;
use amqp_session_performatives::LinkFlow;
use std::alloc::{AllocError, Global};

impl LinkEnd {
    /// What is sent on once this Flow of the peer is taken, in the order in which it goes: of a link that sends as many
    /// of the messages that wait as there is credit for then, none unless it is attached, and nothing of one that
    /// receives (part 2, 2.6.7 and 2.6.13). Nothing changes yet.
    ///
    /// Errors: want of memory alone.
    pub fn prepare_sends_on(
        &self,
        alloc: Global,
        flow: &LinkFlow,
    ) -> Result<Vec<PreparedSendOn>, AllocError>
        ensures { IfOk result (λ ready. ready.items ≡ sends_on_by self.now flow.now) }
    {
        match &self.end {
            End::Sender(link) => link.prepare_sends_on(alloc, flow),
            End::Receiver(_) => Ok(Vec::new(alloc)),
        }
    }

    /// What is sent on once the peer's Attach is taken as it was made ready for the link, the own one is sent, and this
    /// Flow of the peer, which was kept, is taken then, in the order in which it goes; nothing of a link that receives
    /// (part 2, 2.6.7 and 2.6.13). Nothing changes yet.
    ///
    /// Errors: want of memory alone.
    pub fn prepare_sends_on_behind(
        &self,
        alloc: Global,
        prepared: &PreparedAttach,
        flow: &LinkFlow,
    ) -> Result<Vec<PreparedSendOn>, AllocError>
        requires { IsFor self.now prepared.now }
        ensures { IfOk result (λ ready. ready.items ≡ sends_on_behind self.now prepared.now flow.now) }
    {
        match (&self.end, prepared) {
            (End::Sender(link), PreparedAttach::Sender(prepared)) => {
                link.prepare_sends_on_behind(alloc, prepared, flow)
            }
            (End::Sender(_), PreparedAttach::Receiver(_)) => Ok(Vec::new(alloc)),
            (End::Receiver(_), _) => Ok(Vec::new(alloc)),
        }
    }

    /// The message that goes on first is sent on: a link that sends takes one credit, and the message waits no more (part
    /// 2, 2.6.7 and 2.6.13). Nothing is done of one that receives. It takes no memory.
    pub fn commit_send_on(&mut self)
        requires { HasCreditFor 1 self.old }
        ensures { self.new ≡ sent_on self.old }
    {
        match &mut self.end {
            End::Sender(link) => link.commit_send_on(),
            End::Receiver(_) => {}
        }
    }
}

impl PreparedAttach {
    /// The deliveries that are given up as the Attach is taken, in the order in which their transfers go; none of a
    /// link that receives (part 2, 2.6.13).
    pub fn aborts(&self) -> &[Abort]
        ensures { result.now ≡ aborts_of self.now }
    {
        match self {
            PreparedAttach::Sender(prepared) => prepared.aborts(),
            PreparedAttach::Receiver(_) => &[],
        }
    }

    /// How many messages end as the Attach is taken; none of a link that receives (part 2, 2.6.13).
    pub fn ended_len(&self) -> usize
        ensures { result ≡ ended_of self.now }
    {
        match self {
            PreparedAttach::Sender(prepared) => prepared.ended_len(),
            PreparedAttach::Receiver(_) => 0,
        }
    }
}

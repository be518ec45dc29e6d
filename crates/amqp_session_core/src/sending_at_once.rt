//! A message that leaves as one transfer, at once: beside the general way of `on_outgoing_transfer`, which takes
//! batches (part 2, 2.5.6 and 2.7.5).
ghost use Rattle.std.specs.Prelude.{◌≡◌, ◌≤◌, ◌↔◌, [], IfOk, IsTrue, Some};
ghost use Rattle.std.specs.VecDeque.{deque_capacity};
ghost use Rattle.amqp_session_outgoing.specs.State.{window_left};
ghost use Rattle.amqp_session_core.specs.SendsAtOnce.{SendsAtOnce, kept_tag, whole_transfer};

use crate::relay::LinkRelay;
use crate::session::Session;
use amqp_session_performatives::{SessionFrame, SessionFrameBody, Transfer};
use amqp_session_types::{DeliveryTag, Handle, OutputHandle};
use bytes::Bytes;
use std::alloc::AllocError;
use std::collections::VecDeque;

impl<R: LinkRelay> Session<R> {
    /// Whether nothing waits, and the peer's window takes another transfer.
    pub fn lets_one_pass(&self) -> bool
        ensures { IsTrue result ↔
            ((self.now.outgoing.queues ≡ []) × (1 ≤ window_left self.now.outgoing)) }
    {
        self.outgoing.lets_one_pass()
    }

    /// Sends a message of a link as one transfer at once, settled or unsettled, as `on_outgoing_transfer` does with a
    /// batch of this one: its frame is handed out, and it takes of the room that was made (part 2, 2.5.6, 2.6.12). The
    /// message's bytes are shared, not copied.
    ///
    /// The answer is whether it is sent. It isn't where no link has the handle, where something waits or the peer's
    /// window is closed, where its delivery's number is in use, and where there is no memory. Nothing changes then: it
    /// is to be sent in the general way.
    pub fn sends_at_once(
        &mut self,
        out: &mut VecDeque<SessionFrame>,
        handle: OutputHandle,
        tag: &DeliveryTag,
        message_format: u32,
        settled: bool,
        payload: &Bytes,
    ) -> bool
        ensures step { SendsAtOnce R.gives self.old out.old.items handle
            (whole_transfer handle tag.now message_format settled) payload.now result self.new
            out.new.items }
        ensures capacity { deque_capacity out.old ≤ deque_capacity out.new }
    {
        if !self.links.contains(handle.0 as usize) {
            return false;
        }
        if out.reserve(1).is_err() {
            return false;
        }
        let Ok(payload) = payload.clone() else {
            return false;
        };
        let Ok(told) = tag.clone() else {
            return false;
        };
        let Ok(kept) = kept_tag(settled, tag) else {
            return false;
        };
        let Some(number) = self.outgoing.passes_at_once(handle, kept) else {
            return false;
        };
        let performative = whole_transfer(handle, number, told, message_format, settled);
        let body = SessionFrameBody::Transfer {
            performative,
            payload,
        };
        out.push_back_reserved(self.fields.frame(body));
        true
    }
}

/// What the one transfer of a message says, with the number of its delivery.
#[inline(always)]
fn whole_transfer(
    handle: OutputHandle,
    number: u32,
    tag: DeliveryTag,
    message_format: u32,
    settled: bool,
) -> Transfer
    ensures { result ≡ record (whole_transfer handle tag message_format settled)
        { delivery_id = Some number } }
{
    Transfer {
        handle: Handle(handle.0),
        delivery_id: Some(number),
        delivery_tag: Some(tag),
        message_format: Some(message_format),
        settled: Some(settled),
        more: false,
        rcv_settle_mode: None,
        state: None,
        resume: false,
        aborted: false,
        batchable: false,
    }
}

/// The tag that is kept of a delivery, unless it goes settled.
fn kept_tag(settled: bool, tag: &DeliveryTag) -> Result<Option<DeliveryTag>, AllocError>
    ensures { IfOk result (λ kept. kept ≡ kept_tag settled tag.now) }
{
    if settled {
        return Ok(None);
    }
    Ok(Some(tag.clone()?))
}

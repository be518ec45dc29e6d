//! How what leaves the sending side becomes frames of the session.
ghost use Rattle.std.specs.Prelude.{◌≡◌, ◌+◌, ◌<◌, ◌≤◌, ◌⊎◌, [], ◌∷◌, ◌++◌, length, vec_len, vec_capacity, OnOk, OnErr};
ghost use Rattle.std.specs.VecDeque.{deque_len, deque_capacity};
ghost use Rattle.amqp_session_outgoing.specs.Frames.{sent_count};
ghost use Rattle.amqp_session_outgoing.specs.Queues.{held_in, frames_in};
ghost use Rattle.amqp_session_core.specs.Frames.{transfer_frame, behind_frame, frames_behind, frames_sent, frames_left};
ghost use Rattle.amqp_session_core.specs.Frames.{has_flow};
ghost use Rattle.amqp_session_core.specs.Flowing.{OpensWindow, OpensByBegin};

use crate::batch::{BehindFrame, TransferFrame};
use crate::fields::SessionFields;
use amqp_session_outgoing::{Behind, Outgoing, Sent};
use amqp_session_performatives::{SessionFrame, SessionFrameBody};
use amqp_session_types::Handle;
use std::alloc::AllocError;
use std::collections::VecDeque;

/// The peer's window as a Flow tells it (part 2, 2.5.6).
#[derive(Clone, Copy)]
pub(crate) struct Window {
    /// The number of the next transfer that the peer awaits, if it knows one.
    pub(crate) base: Option<u32>,
    /// How many transfers it takes.
    pub(crate) width: u32,
}

/// Makes room for all that waits to leave, and for so many more frames.
#[inline(always)]
pub(crate) fn make_room(
    outgoing: &Outgoing<TransferFrame, BehindFrame>,
    sent: &mut Vec<Sent<TransferFrame, BehindFrame>>,
    out: &mut VecDeque<SessionFrame>,
    more: usize,
) -> Result<(), AllocError>
    ensures sent { sent.new.items ≡ sent.old.items }
    ensures out { out.new.items ≡ out.old.items }
    ensures capacity { vec_capacity sent.old ≤ vec_capacity sent.new }
    ensures out_capacity { deque_capacity out.old ≤ deque_capacity out.new }
    ensures out_len { deque_len out.new ≡ deque_len out.old }
    ensures sent_len { vec_len sent.new ≡ vec_len sent.old }
    ensures sent_room { OnOk result (vec_len sent.new + (held_in outgoing.now.queues + more)
        ≤ vec_capacity sent.new) }
    ensures out_room { OnOk result (deque_len out.new + (frames_in outgoing.now.queues + more)
        ≤ deque_capacity out.new) }
    ensures refused { OnErr result
        ((vec_capacity sent.old < vec_len sent.old + (held_in outgoing.now.queues + more))
        ⊎ (deque_capacity out.old < deque_len out.old + (frames_in outgoing.now.queues + more))) }
{
    let Ok(waiting) = usize::try_from(outgoing.frames()) else {
        return Err(AllocError);
    };
    let frames = waiting.checked_add(more).ok_or(AllocError)?;
    let held = outgoing.held_back().checked_add(more).ok_or(AllocError)?;
    out.reserve(frames)?;
    sent.reserve(held)
}

/// Takes the peer's window, and hands out what leaves. There is room for it. Answers whether a Flow left.
pub(crate) fn take_window(
    fields: SessionFields,
    outgoing: &mut Outgoing<TransferFrame, BehindFrame>,
    sent: &mut Vec<Sent<TransferFrame, BehindFrame>>,
    out: &mut VecDeque<SessionFrame>,
    window: Window,
) -> bool
    requires empty { sent.old.items ≡ [] }
    requires sent_room { vec_len sent.old + held_in outgoing.old.queues ≤ vec_capacity sent.old }
    requires out_room { deque_len out.old + frames_in outgoing.old.queues ≤ deque_capacity out.old }
    ensures opens { OpensWindow fields outgoing.old out.old.items window.base window.width result
        outgoing.new out.new.items }
    ensures empty { sent.new.items ≡ [] }
    ensures capacity { vec_capacity sent.old ≤ vec_capacity sent.new }
    ensures frames { deque_len out.new + frames_in outgoing.new.queues ≡
        deque_len out.old + frames_in outgoing.old.queues }
    ensures out_capacity { deque_capacity out.new ≡ deque_capacity out.old }
    ensures held { held_in outgoing.new.queues ≤ held_in outgoing.old.queues }
    ensures room { outgoing.new.room ≡ outgoing.old.room }
{
    let _ = outgoing.on_incoming_flow(sent, window.base, window.width);
    fields.hand_out(sent, out)
}

/// Takes the window of the peer's Begin, and hands out what leaves. There is room for it. Answers whether a Flow left.
pub(crate) fn take_begin(
    fields: SessionFields,
    outgoing: &mut Outgoing<TransferFrame, BehindFrame>,
    sent: &mut Vec<Sent<TransferFrame, BehindFrame>>,
    out: &mut VecDeque<SessionFrame>,
    width: u32,
) -> bool
    requires empty { sent.old.items ≡ [] }
    requires sent_room { vec_len sent.old + held_in outgoing.old.queues ≤ vec_capacity sent.old }
    requires out_room { deque_len out.old + frames_in outgoing.old.queues ≤ deque_capacity out.old }
    ensures begins { OpensByBegin fields outgoing.old out.old.items width result outgoing.new
        out.new.items }
    ensures empty { sent.new.items ≡ [] }
    ensures capacity { vec_capacity sent.old ≤ vec_capacity sent.new }
    ensures frames { deque_len out.new + frames_in outgoing.new.queues ≡
        deque_len out.old + frames_in outgoing.old.queues }
    ensures out_capacity { deque_capacity out.new ≡ deque_capacity out.old }
    ensures held { held_in outgoing.new.queues ≤ held_in outgoing.old.queues }
    ensures room { outgoing.new.room ≡ outgoing.old.room }
{
    let _ = outgoing.on_incoming_begin(sent, width);
    fields.hand_out(sent, out)
}

impl SessionFields {
    /// The frames of what left, in order. There is room for them. Answers whether a Flow is among them.
    #[inline(always)]
    pub(crate) fn hand_out(
        self,
        sent: &mut Vec<Sent<TransferFrame, BehindFrame>>,
        out: &mut VecDeque<SessionFrame>,
    ) -> bool
        requires { deque_len out.old + sent_count sent.old.items ≤ deque_capacity out.old }
        ensures frames { out.new.items ≡ out.old.items ++ frames_left self sent.old.items }
        ensures empty { sent.new.items ≡ [] }
        ensures capacity { vec_capacity sent.new ≡ vec_capacity sent.old }
        ensures count { deque_len out.new ≡ deque_len out.old + sent_count sent.old.items }
        ensures out_capacity { deque_capacity out.new ≡ deque_capacity out.old }
        ensures flows { result ≡ has_flow (frames_left self sent.old.items) }
    {
        let mut flows = false;
        sent.reverse();
        while let Some(one) = sent.pop() {
            flows |= self.hand_out_one(one, out);
        }
        flows
    }

    /// The frames of a transfer that left.
    #[inline(always)]
    fn hand_out_one(
        self,
        sent: Sent<TransferFrame, BehindFrame>,
        out: &mut VecDeque<SessionFrame>,
    ) -> bool
        requires { deque_len out.old + (1 + length sent.behind) ≤ deque_capacity out.old }
        ensures frames { out.new.items ≡ out.old.items ++ frames_sent self sent }
        ensures room { deque_capacity out.new ≡ deque_capacity out.old }
        ensures flows { result ≡ has_flow (frames_sent self sent) }
    {
        let next_outgoing_id = sent.next_outgoing_id();
        let behind = self.hand_out_transfer(sent, out);
        self.hand_out_behind(next_outgoing_id, behind, out)
    }

    /// The frame of a transfer that left: it has the handle of its link and the number of its delivery. Answers what
    /// stood behind it.
    #[inline(always)]
    fn hand_out_transfer(
        self,
        sent: Sent<TransferFrame, BehindFrame>,
        out: &mut VecDeque<SessionFrame>,
    ) -> Behind<BehindFrame>
        requires { deque_len out.old + 1 ≤ deque_capacity out.old }
        ensures frame { out.new.items ≡ out.old.items ++ transfer_frame self sent ∷ [] }
        ensures room { deque_capacity out.new ≡ deque_capacity out.old }
        ensures behind { result ≡ sent.behind }
    {
        let TransferFrame {
            mut performative,
            payload,
        } = sent.transfer;
        performative.handle = Handle(sent.handle.0);
        performative.delivery_id = sent.delivery;
        out.push_back_reserved(self.frame(SessionFrameBody::Transfer {
            performative,
            payload,
        }));
        sent.behind
    }

    /// The frames that stood behind a transfer, where this is the number of the session's next one.
    #[inline(always)]
    fn hand_out_behind(
        self,
        next_outgoing_id: u32,
        behind: Behind<BehindFrame>,
        out: &mut VecDeque<SessionFrame>,
    ) -> bool
        requires { deque_len out.old + length behind ≤ deque_capacity out.old }
        ensures frames { out.new.items ≡ out.old.items
            ++ frames_behind self next_outgoing_id behind }
        ensures room { deque_capacity out.new ≡ deque_capacity out.old }
        ensures flows { result ≡ has_flow (frames_behind self next_outgoing_id behind) }
    {
        let mut flows = false;
        let mut frames = behind.into_frames();
        frames.reverse();
        while let Some(frame) = frames.pop() {
            flows |= frame.is_flow();
            out.push_back_reserved(self.behind_frame(next_outgoing_id, frame));
        }
        flows
    }

    /// A frame of a link as it leaves, where this is the number of the session's next transfer.
    pub(crate) fn behind_frame(self, next_outgoing_id: u32, frame: BehindFrame) -> SessionFrame
        ensures { result ≡ behind_frame self next_outgoing_id frame }
    {
        match frame {
            BehindFrame::Flow(flow) => self.link_flow(next_outgoing_id, flow),
            BehindFrame::Detach(detach) => self.frame(SessionFrameBody::Detach(detach)),
        }
    }
}

//! What a session's links send: Attach, Flow, transfers and Detach.
ghost use Rattle.std.specs.Prelude.{◌≡◌, ◌≢◌, ℕ, ◌+◌, ◌-◌, ◌*◌, ◌≤◌, ◌<◌, [], Err, IfOk, IfErr, IfSome, IfNone, OnOk};
ghost use Rattle.std.specs.Prelude.{OnErr, length, min};
ghost use Rattle.std.specs.VecDeque.{deque_len, deque_capacity};
ghost use Rattle.amqp_session_performatives.specs.declared.session_frame.SessionFrameBody.TheVariants as body;
ghost use Rattle.amqp_session_outgoing.specs.Queues.{frames_in, room_behind};
ghost use Rattle.amqp_session_core.specs.declared.batch.BehindFrame.TheVariants as behind;
ghost use Rattle.amqp_session_core.specs.Frames.{frame_of};
ghost use Rattle.amqp_session_core.specs.Refusals.{RefusesReach, RefusesTransfers, refusal};
ghost use Rattle.amqp_session_core.specs.State.{link_at};
ghost use Rattle.amqp_session_core.specs.Steps.{Step, Reserves, TellsFlow};
ghost use Rattle.amqp_session_core.specs.Told.{BehindSent, TransfersSent};

use crate::batch::{Batch, BehindFrame};
use crate::flows::own;
use crate::leaving::make_room;
use crate::relay::LinkRelay;
use crate::session::Session;
use amqp_session_outgoing::{Place, TransferError};
use amqp_session_performatives::{Attach, Detach, LinkFlow, SessionFrame, SessionFrameBody};
use amqp_session_types::{Boxed, Handle, OutputHandle, SessionError};
use std::alloc::Global;
use std::collections::VecDeque;

impl<R: LinkRelay> Session<R> {
    /// The frame of a link's Attach, with the link's own handle (part 2, 2.7.3). An Attach waits for nothing. It is refused
    /// with `Memory` alone; nothing changes in any case.
    pub fn on_outgoing_attach(
        &self,
        alloc: Global,
        handle: OutputHandle,
        attach: Attach,
    ) -> Result<SessionFrame, SessionError>
        ensures ok { IfOk result (λ frame. frame
            ≡ frame_of self.now.fields (body.Attach
            (record attach { handle = record { 0 = handle.0 } }))) }
        ensures err { IfErr result (λ e. e ≡ SessionError.Memory) }
    {
        match Boxed::new(alloc, own_attach(handle, attach)) {
            Ok(attach) => Ok(self.fields.frame(SessionFrameBody::Attach(attach))),
            Err(_) => Err(SessionError::Memory),
        }
    }

    /// Sends a Flow of a link (part 2, 2.7.4). Where transfers of the link wait it goes behind them; else it is answered,
    /// to be sent at once. The session's own state is written into it as it leaves.
    ///
    /// It is refused with `UnattachedHandle` exactly where no link has the handle, and with `Memory`. Nothing changes
    /// then.
    pub fn on_outgoing_flow(
        &mut self,
        handle: OutputHandle,
        flow: LinkFlow,
    ) -> Result<Option<SessionFrame>, SessionError>
        ensures ok { IfOk result (λ answer.
            BehindSent R.gives self.old handle
            (behind.Flow (record flow { handle = record { 0 = handle.0 } })) answer self.new) }
        ensures err { IfErr result (λ e. RefusesReach (link_at self.old handle.0) e) }
        ensures kept { OnErr result (self.new ≡ self.old) }
    {
        self.send_behind(handle, BehindFrame::Flow(own(handle, flow)))
    }

    /// Sends a Detach of a link (part 2, 2.7.7), and is refused, as `on_outgoing_flow` does.
    pub fn on_outgoing_detach(
        &mut self,
        handle: OutputHandle,
        detach: Detach,
    ) -> Result<Option<SessionFrame>, SessionError>
        ensures ok { IfOk result (λ answer.
            BehindSent R.gives self.old handle
            (behind.Detach (record detach { handle = record { 0 = handle.0 } })) answer self.new) }
        ensures err { IfErr result (λ e. RefusesReach (link_at self.old handle.0) e) }
        ensures kept { OnErr result (self.new ≡ self.old) }
    {
        let mut detach = detach;
        detach.handle = Handle(handle.0);
        self.send_behind(handle, BehindFrame::Detach(detach))
    }

    /// Room for so many Flows and Detaches behind the transfers that a link has waiting, for frames that must not be refused
    /// later on: it serves as long as fewer than so many more wait there. It is refused with `Memory` alone.
    pub fn place_behind(
        &self,
        alloc: Global,
        handle: OutputHandle,
        count: usize,
    ) -> Result<Place<BehindFrame>, SessionError>
        ensures ok { IfOk result (λ place.
            room_behind handle.0 count (self.now.outgoing).queues ≤ place) }
        ensures err { IfErr result (λ e. e ≡ SessionError.Memory) }
    {
        match self.outgoing.place_behind(alloc, handle, count) {
            Ok(place) => Ok(place),
            Err(_) => Err(SessionError::Memory),
        }
    }

    /// Room for so many Flows and Detaches of a link, as `place_behind` answers it, which serves also behind transfers
    /// that come to wait later: it has room for so many by themselves, also where the link has nothing waiting now. It
    /// is refused with `Memory` alone.
    pub fn place_behind_more(
        &self,
        alloc: Global,
        handle: OutputHandle,
        count: usize,
    ) -> Result<Place<BehindFrame>, SessionError>
        ensures room { IfOk result (λ place.
            room_behind handle.0 count self.now.outgoing.queues ≤ place) }
        ensures more { IfOk result (λ place. count ≤ place) }
        ensures err { IfErr result (λ e. e ≡ SessionError.Memory) }
    {
        match self.outgoing.place_behind_more(alloc, handle, count) {
            Ok(place) => Ok(place),
            Err(_) => Err(SessionError::Memory),
        }
    }

    /// Sends a Detach of a link for which there is room (part 2, 2.7.7), as `on_outgoing_detach` does. It takes no
    /// memory. It is refused with `UnattachedHandle` alone, exactly where no link has the handle, and nothing changes then.
    pub fn on_outgoing_detach_in(
        &mut self,
        handle: OutputHandle,
        place: Place<BehindFrame>,
        detach: Detach,
    ) -> Result<Option<SessionFrame>, SessionError>
        requires { room_behind handle.0 1 (self.old.outgoing).queues ≤ place }
        ensures ok { IfOk result (λ answer.
            BehindSent R.gives self.old handle
            (behind.Detach (record detach { handle = record { 0 = handle.0 } })) answer self.new) }
        ensures err { IfErr result (λ e. (e ≡ SessionError.UnattachedHandle)
            × (link_at self.old handle.0 ≡ None)) }
        ensures kept { OnErr result (self.new ≡ self.old) }
    {
        let mut detach = detach;
        detach.handle = Handle(handle.0);
        self.send_behind_in(handle, place, BehindFrame::Detach(detach))
    }

    /// Sends a Flow of a link for which there is room (part 2, 2.7.4), as `on_outgoing_flow` does. It takes no memory.
    /// It is refused with `UnattachedHandle` alone, exactly where no link has the handle, and nothing changes then.
    pub fn on_outgoing_flow_in(
        &mut self,
        handle: OutputHandle,
        place: Place<BehindFrame>,
        flow: LinkFlow,
    ) -> Result<Option<SessionFrame>, SessionError>
        requires { room_behind handle.0 1 (self.old.outgoing).queues ≤ place }
        ensures ok { IfOk result (λ answer.
            BehindSent R.gives self.old handle
            (behind.Flow (record flow { handle = record { 0 = handle.0 } })) answer self.new) }
        ensures err { IfErr result (λ e. (e ≡ SessionError.UnattachedHandle)
            × (link_at self.old handle.0 ≡ None)) }
        ensures kept { OnErr result (self.new ≡ self.old) }
    {
        self.send_behind_in(handle, place, BehindFrame::Flow(own(handle, flow)))
    }

    /// Accepts transfers of a link, whole or not at all (part 2, 2.5.6, 2.6.12). They wait behind what the link has
    /// waiting, and what the peer's window allows is handed out, links in turn; the batch is empty then. A delivery gets
    /// its number as its first transfer leaves.
    ///
    /// A place that served behind what the link had waiting, and that has room for so many frames by themselves, serves
    /// behind what the link has waiting then.
    ///
    /// It is refused with `UnattachedHandle` exactly where no link has the handle, else
    /// with `IllegalState` where a delivery begins without a tag, with `NumberInUse` where the number that
    /// a delivery would get is that of an unsettled one or of one that waits (part 2, 2.8.6), and with `Memory` where
    /// there is none and no room was made for it. Nothing changes then.
    pub fn on_outgoing_transfer(
        &mut self,
        alloc: Global,
        out: &mut VecDeque<SessionFrame>,
        handle: OutputHandle,
        batch: &mut Batch,
    ) -> Result<(), SessionError>
        ensures ok { OnOk result (TransfersSent R.gives self.old out.old.items handle batch.old
            self.new out.new.items) }
        ensures emptied { OnOk result (batch.new ≡ []) }
        ensures err { IfErr result (λ e. RefusesTransfers self.old handle.0 batch.old e) }
        ensures kept { OnErr result ((self.new ≡ self.old) × (out.new.items ≡ out.old.items)
            × (batch.new ≡ batch.old)) }
        ensures frames { OnOk result (deque_len out.new + frames_in self.new.outgoing.queues ≡
            deque_len out.old + frames_in self.old.outgoing.queues + length batch.old) }
        ensures capacity { deque_capacity out.old ≤ deque_capacity out.new }
        ensures used_room { OnOk result (self.new.outgoing.room ≡
            self.old.outgoing.room - length batch.old) }
        ensures behind { OnOk result ((count most : ℕ) →
            room_behind handle.0 count self.old.outgoing.queues ≤ most → count ≤ most →
            room_behind handle.0 count self.new.outgoing.queues ≤ most) }
        ensures room { length batch.old ≤ (self.old.outgoing).room →
            deque_len out.old + (frames_in (self.old.outgoing).queues + length batch.old)
            ≤ deque_capacity out.old → result ≢ Err SessionError.Memory }
    {
        if !self.links.contains(handle.0 as usize) {
            return Err(SessionError::UnattachedHandle);
        }
        let firsts = match self.outgoing.admits(&batch.transfers) {
            Ok(firsts) => firsts,
            Err(error) => return Err(refusal(error)),
        };
        make_room(&self.outgoing, &mut self.sent, out, batch.len())?;
        let transfers = &mut batch.transfers;
        self.outgoing
            .accept(alloc, &mut self.sent, handle, transfers, firsts)?;
        if self.fields.hand_out(&mut self.sent, out) {
            self.taken = 0;
        }
        Ok(())
    }

    /// Makes room for so many transfers: batches of so many in all, of one link or of several, aren't refused for want
    /// of memory, where `out` is the same and at most so many frames of others are put into it. Behind all transfers and
    /// all frames that wait, `out` has room for these others. Each accepted batch takes of the room as many as it has.
    /// It is refused with `Memory` alone, and nothing changes then.
    pub fn reserve_transfers(
        &mut self,
        out: &mut VecDeque<SessionFrame>,
        count: usize,
        others: usize,
    ) -> Result<(), SessionError>
        ensures ok { OnOk result (Step R.gives self.old (Reserves count) self.new) }
        ensures room { OnOk result (deque_len out.new +
            (frames_in self.new.outgoing.queues + self.new.outgoing.room) + others ≤ deque_capacity out.new) }
        ensures err { IfErr result (λ e. e ≡ SessionError.Memory) }
        ensures kept { OnErr result (self.new ≡ self.old) }
        ensures out { out.new.items ≡ out.old.items }
        ensures capacity { deque_capacity out.old ≤ deque_capacity out.new }
    {
        let room = self.outgoing.room().max(count);
        let Some(all) = room.checked_add(others) else {
            return Err(SessionError::Memory);
        };
        make_room(&self.outgoing, &mut self.sent, out, all)?;
        self.outgoing.reserve_transfers(&mut self.sent, count)?;
        Ok(())
    }

    /// Gives up room that `reserve_transfers` made: at most so many transfers more are sure to find room then. With the
    /// room of before, where something else is refused, all is as before. Nothing else changes, and it takes no memory.
    pub fn lower_transfers(&mut self, room: usize)
        ensures { self.new ≡ record self.old {
          outgoing = record self.old.outgoing { room = min self.old.outgoing.room room };
        } }
    {
        self.outgoing.lower_room(room);
    }

    /// A Flow of the session that is due: where half of the own window or more is used up since a Flow left (part 2,
    /// 2.5.6). There is none where the session has told each transfer by itself.
    pub fn maybe_outgoing_session_flow(&mut self) -> Option<SessionFrame>
        ensures some { IfSome result (λ frame.
            ((self.old.fields).incoming_window ≤ 2 * self.old.taken)
            × Step R.gives self.old (TellsFlow frame) self.new) }
        ensures none { IfNone result ((2 * self.old.taken < (self.old.fields).incoming_window)
            × (self.new ≡ self.old)) }
    {
        if 2 * u64::from(self.taken) < u64::from(self.fields.incoming_window) {
            return None;
        }
        self.taken = 0;
        let number = self.outgoing.next_outgoing_id();
        Some(self.fields.session_flow(number))
    }

    /// A frame of a link leaves, or waits behind the link's transfers.
    fn send_behind(
        &mut self,
        handle: OutputHandle,
        frame: BehindFrame,
    ) -> Result<Option<SessionFrame>, SessionError>
        ensures ok { IfOk result (λ answer.
            BehindSent R.gives self.old handle (frame) answer self.new) }
        ensures err { IfErr result (λ e. RefusesReach (link_at self.old handle.0) e) }
        ensures kept { OnErr result (self.new ≡ self.old) }
    {
        if !self.links.contains(handle.0 as usize) {
            return Err(SessionError::UnattachedHandle);
        }
        let number = self.outgoing.next_outgoing_id();
        let Some(frame) = self.outgoing.on_outgoing_frame(handle, frame)? else {
            return Ok(None);
        };
        if frame.is_flow() {
            self.taken = 0;
        }
        Ok(Some(self.fields.behind_frame(number, frame)))
    }

    /// A frame of a link for which there is room leaves, or waits behind the link's transfers.
    fn send_behind_in(
        &mut self,
        handle: OutputHandle,
        place: Place<BehindFrame>,
        frame: BehindFrame,
    ) -> Result<Option<SessionFrame>, SessionError>
        requires { room_behind handle.0 1 (self.old.outgoing).queues ≤ place }
        ensures ok { IfOk result (λ answer.
            BehindSent R.gives self.old handle frame answer self.new) }
        ensures err { IfErr result (λ e. (e ≡ SessionError.UnattachedHandle)
            × (link_at self.old handle.0 ≡ None)) }
        ensures kept { OnErr result (self.new ≡ self.old) }
    {
        if !self.links.contains(handle.0 as usize) {
            return Err(SessionError::UnattachedHandle);
        }
        let number = self.outgoing.next_outgoing_id();
        let Some(frame) = self.outgoing.on_outgoing_frame_in(handle, place, frame) else {
            return Ok(None);
        };
        if frame.is_flow() {
            self.taken = 0;
        }
        Ok(Some(self.fields.behind_frame(number, frame)))
    }
}

/// An Attach of the link with this handle.
fn own_attach(handle: OutputHandle, attach: Attach) -> Attach
    ensures { result ≡ record attach { handle = record { 0 = handle.0 } } }
{
    Attach {
        handle: Handle(handle.0),
        ..attach
    }
}

/// The session's refusal of transfers.
fn refusal(error: TransferError) -> SessionError
    ensures { result ≡ refusal error }
{
    match error {
        TransferError::IllegalState => SessionError::IllegalState,
        TransferError::NumberInUse => SessionError::NumberInUse,
        TransferError::Memory => SessionError::Memory,
    }
}

//! The sending side of a session.
ghost use Rattle.std.specs.Prelude.{◌≡◌, ◌≢◌, ℕ, ◌+◌, ◌-◌, ◌<◌, ◌≤◌, ◌%◌, ◌^◌, ◌⊎◌, ◌↔◌, [], ◌++◌, length};
ghost use Rattle.std.specs.Prelude.{if◌then◌else◌, IsTrue, IsOk, IfOk, IfErr, OnOk, OnErr, Err, option_copied, vec_len};
ghost use Rattle.std.specs.Prelude.{vec_capacity, min, All};
ghost use Rattle.amqp_session_outgoing.specs.Frames.{is_first, firsts_of, frames_count, sent_count, HaveTags};
ghost use Rattle.amqp_session_outgoing.specs.Queues.{held_in, firsts_in, frames_in, units_of, room_behind, turn_of};
ghost use Rattle.amqp_session_outgoing.specs.Queues.{Distinct};
ghost use Rattle.amqp_session_outgoing.specs.Touched.{Touches};
ghost use Rattle.std.specs.FinMap as map;
ghost use Rattle.amqp_session_outgoing.specs.State.{State, InWindow, Sends, Leaving, IsHeld, base_of, registered};
ghost use Rattle.amqp_session_outgoing.specs.State.{window_left, with_alone, with_batch, with_window};
ghost use Rattle.amqp_session_outgoing.specs.Range.{ahead};
ghost use Rattle.amqp_session_outgoing.specs.History.{Step, Takes, TakesWindow, Accepts, Refuses, Follows, Reserves};
ghost use Rattle.amqp_session_outgoing.specs.History.{Settles, SettlesRange, Forgets, Fails, HasFreeNumbers, IsFree};
ghost use Rattle.amqp_session_outgoing.specs.History.{RefusesBatch, fresh};

use crate::error::TransferError;
use crate::frames::{Outbound, Part, Sent};
use crate::place::Place;
use crate::turns::Turns;
use crate::{Delivery, DeliveryRange, Unsettled};
use amqp_session_types::OutputHandle;
use std::alloc::{AllocError, Global};
use std::collections::VecDeque;
use std::marker::Model;

/// The sending side of a session (part 2, 2.5.6): the peer's window, the numbers of what leaves, what waits for the
/// window, and the deliveries that left and aren't settled.
///
/// Links that wait stand in a turn. Where the window allows a transfer, the first link of the turn sends one, and then
/// stands last if a transfer of it still waits. A delivery gets its number as its first transfer leaves.
pub struct Outgoing<T, F> {
    initial_outgoing_id: u32,
    pub(crate) next_outgoing_id: u32,
    pub(crate) next_delivery_number: u32,
    window_base: u32,
    window_width: u32,
    firsts: usize,
    pub(crate) turns: Turns<T, F>,
    pub(crate) unsettled: Unsettled,
}

impl<T: Drop, F: Drop> Drop for Outgoing<T, F> {
    fn drop(self) {
        let Outgoing {
            initial_outgoing_id: _,
            next_outgoing_id: _,
            next_delivery_number: _,
            window_base: _,
            window_width: _,
            firsts: _,
            turns: _,
            unsettled: _,
        } = self;
    }
}

impl<T, F> Model for Outgoing<T, F> {
    ghost use Rattle.std.specs.Coded.{codes};
    ghost use Rattle.amqp_session_outgoing.specs.Table.{table_code};
    ghost use Rattle.amqp_session_outgoing.specs.State.{State};

    ghost Value = { State T F };

    ghost coded = { Prim.hlevel (codes, table_code) };

    ghost use Rattle.amqp_session_outgoing.specs.Fields.{state_of, IsSound};

    ghost view = { state_of };

    ghost invariant = { IsSound };
}

impl<T: Drop, F: Drop> Outgoing<T, F> {
    /// A session as it begins, with the number of its first transfer. It takes no memory.
    pub fn new(alloc: Global, first_transfer_number: u32) -> Self
        ensures { result ≡ fresh first_transfer_number }
    {
        Outgoing {
            initial_outgoing_id: first_transfer_number,
            next_outgoing_id: first_transfer_number,
            next_delivery_number: 0,
            window_base: first_transfer_number,
            window_width: 0,
            firsts: 0,
            turns: Turns::new(alloc),
            unsettled: Unsettled::new(alloc),
        }
    }

    /// The number of the next transfer to leave (part 2, 2.5.6).
    pub fn next_outgoing_id(&self) -> u32
        ensures { result ≡ self.now.next_outgoing_id }
    {
        self.next_outgoing_id
    }

    /// How many transfers wait.
    pub fn held_back(&self) -> usize
        ensures { result ≡ held_in self.now.queues }
    {
        self.turns.held()
    }

    /// How many transfers more are sure to find room, as `reserve_transfers` made it.
    pub fn room(&self) -> usize
        ensures { result ≡ self.now.room }
    {
        self.turns.room()
    }

    /// How many frames wait: transfers, and the Flows and Detaches behind them.
    pub fn frames(&self) -> u128
        ensures { result ≡ frames_in self.now.queues }
    {
        self.turns.frames()
    }

    /// Whether a transfer of a link waits.
    pub fn is_waiting(&self, handle: OutputHandle) -> bool
        ensures { IsTrue result ↔ (0 < length (units_of handle.0 self.now.queues)) }
    {
        self.turns.is_waiting(handle)
    }

    /// The links that wait, in turn, each with how many of its transfers wait. It is refused where there is no memory
    /// for the answer.
    pub fn waiting(&self, alloc: Global) -> Result<Vec<(OutputHandle, usize)>, AllocError>
        ensures { IfOk result (λ turn. turn.items ≡ turn_of self.now.queues) }
    {
        self.turns.counts(alloc)
    }

    /// The delivery of this number, if it left and isn't settled.
    pub fn unsettled(&self, number: u32) -> Option<&Delivery>
        ensures { option_copied result ≡ map.get self.now.unsettled number }
    {
        self.unsettled.get(number)
    }

    /// The deliveries that left and aren't settled.
    pub fn deliveries(&self) -> &Unsettled
        ensures { result.now.table ≡ self.now.unsettled }
    {
        &self.unsettled
    }

    /// The numbers of a range that are of unsettled deliveries, each once, in order from the first (part 2, 2.7.6). It
    /// takes time by the range or by the deliveries that there are, whichever are fewer. It is refused where there is
    /// no memory for the answer.
    pub fn touched(&self, alloc: Global, range: DeliveryRange) -> Result<Vec<u32>, AllocError>
        ensures { IfOk result (λ numbers. Touches range self.now.unsettled numbers.items) }
    {
        self.unsettled.touched(alloc, range)
    }

    /// Whether the number that the next delivery to begin would get is free (part 2, 2.8.6): it is no unsettled
    /// delivery's, and none of those of the deliveries that wait.
    pub fn has_free_number(&self) -> bool
        ensures { IsTrue result ↔ IsFree self.now (firsts_in self.now.queues) }
    {
        self.is_free(self.firsts)
    }

    /// Takes the window of the peer's Begin (part 2, 2.7.2): it begins with the next number. What waits and lies in it
    /// leaves. It is refused where there is no memory for what may leave, and nothing changes then.
    pub fn on_incoming_begin(
        &mut self,
        out: &mut Vec<Sent<T, F>>,
        incoming_window: u32,
    ) -> Result<(), AllocError>
        ensures ok { OnOk result (Takes (TakesWindow self.old.next_outgoing_id incoming_window)
            self.old out.old.items self.new out.new.items) }
        ensures frames { OnOk result (sent_count out.new.items + frames_in self.new.queues
            ≡ sent_count out.old.items + frames_in self.old.queues) }
        ensures held { OnOk result (vec_len out.new + held_in self.new.queues ≡ vec_len out.old
            + held_in self.old.queues) }
        ensures capacity { vec_capacity out.old ≤ vec_capacity out.new }
        ensures kept_room { self.new.room ≡ self.old.room }
        ensures err { OnErr result (Step self.old Fails self.new
            × (out.new.items ≡ out.old.items)) }
        ensures room { vec_len out.old + held_in self.old.queues ≤ vec_capacity out.old →
            IsOk result }
    {
        out.reserve(self.held_back())?;
        let base = self.next_outgoing_id;
        self.take_window(out, base, incoming_window);
        Ok(())
    }

    /// Takes the window of a Flow (part 2, 2.5.6 and 2.7.4): it begins with the Flow's next-incoming-id, or where the
    /// Flow has none, with the number of the session's first transfer. What waits and lies in it leaves, links in
    /// turn. It is refused where there is no memory for what may leave, and nothing changes then.
    pub fn on_incoming_flow(
        &mut self,
        out: &mut Vec<Sent<T, F>>,
        next_incoming_id: Option<u32>,
        incoming_window: u32,
    ) -> Result<(), AllocError>
        ensures ok { OnOk result
            (Takes (TakesWindow (base_of self.old next_incoming_id) incoming_window) self.old
            out.old.items self.new out.new.items) }
        ensures frames { OnOk result (sent_count out.new.items + frames_in self.new.queues
            ≡ sent_count out.old.items + frames_in self.old.queues) }
        ensures held { OnOk result (vec_len out.new + held_in self.new.queues ≡ vec_len out.old
            + held_in self.old.queues) }
        ensures capacity { vec_capacity out.old ≤ vec_capacity out.new }
        ensures kept_room { self.new.room ≡ self.old.room }
        ensures err { OnErr result (Step self.old Fails self.new
            × (out.new.items ≡ out.old.items)) }
        ensures room { vec_len out.old + held_in self.old.queues ≤ vec_capacity out.old →
            IsOk result }
    {
        out.reserve(self.held_back())?;
        let base = next_incoming_id.unwrap_or(self.initial_outgoing_id);
        self.take_window(out, base, incoming_window);
        Ok(())
    }

    /// Sets the window as a Flow tells it (part 2, 2.5.6 and 2.7.4), as `on_incoming_flow` does, and nothing else: what
    /// waits leaves no sooner than with the next window that is taken, or with the next batch that is accepted. It takes
    /// no memory.
    pub fn set_window(&mut self, next_incoming_id: Option<u32>, incoming_window: u32)
        ensures { self.new ≡ with_window self.old (base_of self.old next_incoming_id)
            incoming_window }
    {
        self.window_base = next_incoming_id.unwrap_or(self.initial_outgoing_id);
        self.window_width = incoming_window;
    }

    /// Whether a batch of transfers is accepted now, and how many transfers that begin a delivery wait once it is: those
    /// that waited, and those of the batch. It takes no memory and changes nothing.
    ///
    /// It is refused with `IllegalState` where a delivery begins without a tag (part 2, 2.7.5), and with `NumberInUse`
    /// where the number of a delivery that begins would be that of an unsettled one or of one that waits (part 2,
    /// 2.8.6).
    pub fn admits(&self, batch: &VecDeque<Outbound<T, F>>) -> Result<usize, TransferError>
        ensures ok { IfOk result (λ firsts.
            (firsts ≡ firsts_in self.now.queues + firsts_of batch.now.items)
            × HaveTags batch.now.items × HasFreeNumbers self.now batch.now.items) }
        ensures err { IfErr result (λ error. RefusesBatch self.now batch.now.items error) }
        ensures told { result ≢ Err TransferError.Memory }
    {
        let begun = count_firsts(batch)?;
        let all = self
            .firsts
            .checked_add(begun)
            .ok_or(TransferError::NumberInUse)?;
        for others in self.firsts..all {
            if !self.is_free(others) {
                return Err(TransferError::NumberInUse);
            }
        }
        Ok(all)
    }

    /// Accepts a batch of transfers of one link that `admits` lets in, and takes what that answered. The batch waits
    /// behind what the link has waiting, and what the window allows leaves, links in turn; the batch is empty then.
    /// Where nothing waits and the window takes the whole batch, it leaves without waiting.
    ///
    /// Where nothing stands behind the transfers of the batch, a place that served behind what the link had waiting, and
    /// that has room for so many frames by themselves, serves behind what the link has waiting now.
    ///
    /// It is refused where there is no memory and no room was made for it, and nothing changes then.
    pub fn accept(
        &mut self,
        alloc: Global,
        out: &mut Vec<Sent<T, F>>,
        handle: OutputHandle,
        batch: &mut VecDeque<Outbound<T, F>>,
        firsts: usize,
    ) -> Result<(), AllocError>
        requires firsts { firsts ≡ firsts_in self.old.queues + firsts_of batch.old.items }
        requires tags { HaveTags batch.old.items }
        requires free { HasFreeNumbers self.old batch.old.items }
        ensures ok { OnOk result (Takes (Accepts handle batch.old.items) self.old out.old.items
            self.new out.new.items) }
        ensures frames { OnOk result (sent_count out.new.items + frames_in self.new.queues
            ≡ sent_count out.old.items + frames_in self.old.queues + frames_count batch.old.items) }
        ensures held { OnOk result (vec_len out.new + held_in self.new.queues ≡ vec_len out.old
            + held_in self.old.queues + length batch.old.items) }
        ensures capacity { vec_capacity out.old ≤ vec_capacity out.new }
        ensures used_room { OnOk result (self.new.room ≡ self.old.room - length batch.old.items) }
        ensures behind { OnOk result ((count most : ℕ) → All (λ u. u.behind ≡ []) batch.old.items →
            room_behind handle.0 count self.old.queues ≤ most → count ≤ most →
            room_behind handle.0 count self.new.queues ≤ most) }
        ensures err { OnErr result (Step self.old Fails self.new) }
        ensures out { OnErr result (out.new.items ≡ out.old.items) }
        ensures emptied { OnOk result (batch.new.items ≡ []) }
        ensures batch { OnErr result (batch.new.items ≡ batch.old.items) }
        ensures room { length batch.old.items ≤ self.old.room →
            vec_len out.old + held_in self.old.queues + length batch.old.items
            ≤ vec_capacity out.old → IsOk result }
    {
        if batch.is_empty() {
            return Ok(());
        }
        if self.lets_through(batch.len()) {
            self.pass_on(out, handle, batch)?;
            return Ok(());
        }
        self.line_up(alloc, out, handle, batch, firsts)?;
        self.leave(out);
        Ok(())
    }

    /// Accepts a batch of transfers of one link, whole or not at all: `admits` and `accept`, one after the other. They
    /// wait behind what the link has waiting, and what the window allows leaves, links in turn; the batch is empty then.
    /// A place behind them serves as `accept` says.
    ///
    /// It is refused with `IllegalState` where a delivery begins without a tag, with `NumberInUse` where the number of
    /// a delivery that begins would be that of an unsettled one or of one that waits, and with `Memory` where there is
    /// none and no room was made for it. Nothing changes then.
    pub fn on_outgoing_transfer(
        &mut self,
        alloc: Global,
        out: &mut Vec<Sent<T, F>>,
        handle: OutputHandle,
        batch: &mut VecDeque<Outbound<T, F>>,
    ) -> Result<(), TransferError>
        ensures ok { OnOk result (Takes (Accepts handle batch.old.items) self.old out.old.items
            self.new out.new.items) }
        ensures frames { OnOk result (sent_count out.new.items + frames_in self.new.queues
            ≡ sent_count out.old.items + frames_in self.old.queues + frames_count batch.old.items) }
        ensures held { OnOk result (vec_len out.new + held_in self.new.queues ≡ vec_len out.old
            + held_in self.old.queues + length batch.old.items) }
        ensures capacity { vec_capacity out.old ≤ vec_capacity out.new }
        ensures used_room { OnOk result (self.new.room ≡ self.old.room - length batch.old.items) }
        ensures behind { OnOk result ((count most : ℕ) → All (λ u. u.behind ≡ []) batch.old.items →
            room_behind handle.0 count self.old.queues ≤ most → count ≤ most →
            room_behind handle.0 count self.new.queues ≤ most) }
        ensures err { IfErr result (λ error.
            Step self.old (Refuses batch.old.items error) self.new) }
        ensures out { OnErr result (out.new.items ≡ out.old.items) }
        ensures emptied { OnOk result (batch.new.items ≡ []) }
        ensures batch { OnErr result (batch.new.items ≡ batch.old.items) }
        ensures room { length batch.old.items ≤ self.old.room →
            vec_len out.old + held_in self.old.queues + length batch.old.items
            ≤ vec_capacity out.old → result ≢ Err TransferError.Memory }
    {
        let firsts = self.admits(batch)?;
        self.accept(alloc, out, handle, batch, firsts)?;
        Ok(())
    }

    /// Accepts a Flow or a Detach of a link. Where transfers of the link wait it goes behind them and leaves right
    /// behind the last of them; else it is given back, to leave at once. It is refused where there is no memory, and
    /// nothing changes then.
    pub fn on_outgoing_frame(
        &mut self,
        handle: OutputHandle,
        frame: F,
    ) -> Result<Option<F>, AllocError>
        ensures ok { IfOk result (λ left. Step self.old (Follows handle frame left) self.new) }
        ensures err { OnErr result (Step self.old Fails self.new) }
        ensures at_once { units_of handle.0 self.old.queues ≡ [] → IsOk result }
    {
        let mut place = Place::none();
        self.turns.follow(handle, &mut place, frame)
    }

    /// A place for so many Flows and Detaches of a link behind the transfers that it has waiting: it serves as long as
    /// fewer than so many more stand behind the last of them than now. Where the link has nothing waiting it takes no
    /// memory, and serves as long as that stays so. It is refused where there is no memory.
    pub fn place_behind(
        &self,
        alloc: Global,
        handle: OutputHandle,
        count: usize,
    ) -> Result<Place<F>, AllocError>
        ensures room { IfOk result (λ place. room_behind handle.0 count self.now.queues ≤ place) }
        ensures at_once { units_of handle.0 self.now.queues ≡ [] → IsOk result }
    {
        let mut place = Place::none();
        self.turns.widen_place(alloc, handle, count, &mut place)?;
        Ok(place)
    }

    /// A place for so many Flows and Detaches of a link behind the transfers that it has waiting, as `place_behind`
    /// answers it, with room for so many by themselves also where the link has nothing waiting: so it serves behind
    /// transfers that come to wait later, where nothing stands behind the last of them. It is refused where there is no
    /// memory.
    pub fn place_behind_more(
        &self,
        alloc: Global,
        handle: OutputHandle,
        count: usize,
    ) -> Result<Place<F>, AllocError>
        ensures room { IfOk result (λ place. room_behind handle.0 count self.now.queues ≤ place) }
        ensures more { IfOk result (λ place. count ≤ place) }
    {
        let mut place = Place::none();
        self.turns.widen_place(alloc, handle, count, &mut place)?;
        place.widen(alloc, 0, count)?;
        Ok(place)
    }

    /// Makes a place serve for so many Flows and Detaches of a link, as one that `place_behind` answers. Where it does
    /// it stays as it is, and takes no memory; else it grows. It is refused where there is no memory, and nothing
    /// changes then.
    pub fn widen_place(
        &self,
        alloc: Global,
        handle: OutputHandle,
        count: usize,
        place: &mut Place<F>,
    ) -> Result<(), AllocError>
        ensures ok { OnOk result (room_behind handle.0 count self.now.queues ≤ place.new) }
        ensures grown { place.old ≤ place.new }
        ensures err { OnErr result (place.new ≡ place.old) }
        ensures enough { room_behind handle.0 count self.now.queues ≤ place.old → IsOk result }
        ensures kept { room_behind handle.0 count self.now.queues ≤ place.old →
            place.new ≡ place.old }
    {
        self.turns.widen_place(alloc, handle, count, place)
    }

    /// Accepts a Flow or a Detach of a link, for which there is a place: as `on_outgoing_frame` does, and without fail.
    /// The place is to be used again. It stays as it is where the link has nothing waiting.
    pub fn on_outgoing_frame_at(
        &mut self,
        handle: OutputHandle,
        place: &mut Place<F>,
        frame: F,
    ) -> Option<F>
        requires { room_behind handle.0 1 self.old.queues ≤ place.old }
        ensures step { Step self.old (Follows handle frame result) self.new }
        ensures at_once { units_of handle.0 self.old.queues ≡ [] → place.new ≡ place.old }
    {
        self.turns.follow(handle, place, frame).unwrap()
    }

    /// Accepts a Flow or a Detach of a link, as `on_outgoing_frame_at` does, with a place that is used up.
    pub fn on_outgoing_frame_in(
        &mut self,
        handle: OutputHandle,
        place: Place<F>,
        frame: F,
    ) -> Option<F>
        requires { room_behind handle.0 1 self.old.queues ≤ place }
        ensures { Step self.old (Follows handle frame result) self.new }
    {
        let mut place = place;
        self.on_outgoing_frame_at(handle, &mut place, frame)
    }

    /// Makes room for so many transfers: batches of so many in all, of one link or of several, aren't refused for want
    /// of memory, where `out` is the same. Each accepted batch takes of the room as many as it has. It is refused where
    /// there is no memory, and nothing changes then.
    pub fn reserve_transfers(
        &mut self,
        out: &mut Vec<Sent<T, F>>,
        count: usize,
    ) -> Result<(), AllocError>
        ensures ok { OnOk result (Step self.old (Reserves count) self.new) }
        ensures room { OnOk result (vec_len out.new + held_in self.new.queues + self.new.room ≤
            vec_capacity out.new) }
        ensures err { OnErr result (Step self.old Fails self.new) }
        ensures out { out.new.items ≡ out.old.items }
        ensures capacity { vec_capacity out.old ≤ vec_capacity out.new }
    {
        let room = self.room().max(count);
        make_room(&mut self.unsettled, out, self.turns.held(), room)?;
        self.turns.reserve(room)
    }

    /// Gives up room that `reserve_transfers` made: at most so many transfers more are sure to find room then. Nothing
    /// else changes, and it takes no memory.
    pub fn lower_room(&mut self, room: usize)
        ensures { self.new ≡ record self.old { room = min self.old.room room } }
    {
        self.turns.lower_room(room);
    }

    /// Settles a delivery that left, if one of this number is unsettled (part 2, 2.6.12).
    pub fn settle(&mut self, number: u32)
        ensures { Step self.old (Settles number) self.new }
    {
        self.unsettled.settle(number);
    }

    /// Settles a delivery that left, if one of this number is unsettled, and hands it out (part 2, 2.6.12).
    pub fn take_settled(&mut self, number: u32) -> Option<Delivery>
        ensures delivery { result ≡ map.get self.old.unsettled number }
        ensures settled { Step self.old (Settles number) self.new }
    {
        self.unsettled.take(number)
    }

    /// Settles the deliveries that left and that a disposition names (part 2, 2.6.12 and 2.7.6). It takes no memory, and
    /// time by the range or by the deliveries that there are, whichever are fewer.
    pub fn settle_range(&mut self, range: DeliveryRange)
        ensures { Step self.old (SettlesRange range) self.new }
    {
        self.unsettled.settle_range(range);
    }

    /// Forgets the unsettled deliveries of a link, whose handle is given back (part 2, 2.6.2).
    pub fn forget_link(&mut self, handle: OutputHandle)
        ensures { Step self.old (Forgets handle) self.new }
    {
        self.unsettled.forget(handle);
    }

    /// The next number lies in the peer's window.
    #[inline(always)]
    fn is_open(&self) -> bool
        ensures { IsTrue result ↔ InWindow self.now }
    {
        self.next_outgoing_id.wrapping_sub(self.window_base) < self.window_width
    }

    /// Nothing waits, and the peer's window takes so many transfers more.
    #[inline(always)]
    pub(crate) fn lets_through(&self, count: usize) -> bool
        ensures { IsTrue result ↔ ((self.now.queues ≡ []) × (count ≤ window_left self.now)) }
    {
        let used = self.next_outgoing_id.wrapping_sub(self.window_base);
        let left = self.window_width.saturating_sub(used) as usize;
        if !self.turns.is_empty() {
            return false;
        }
        count <= left
    }

    /// The number of the delivery that begins behind so many others is no other's.
    #[inline(always)]
    pub(crate) fn is_free(&self, others: usize) -> bool
        ensures { IsTrue result ↔ IsFree self.now others }
    {
        match u32::try_from(others) {
            Ok(others) => !self
                .unsettled
                .contains(self.next_delivery_number.wrapping_add(others)),
            Err(_) => false,
        }
    }

    /// A batch waits behind what its link has waiting, and this many first transfers wait with it. Room is made for all
    /// to leave. Each link that waits then stands in the turn once.
    #[tactic(auto, using(crate::proofs::Joining::rules, crate::proofs::Numbering::rules))]
    fn line_up(
        &mut self,
        alloc: Global,
        out: &mut Vec<Sent<T, F>>,
        handle: OutputHandle,
        batch: &mut VecDeque<Outbound<T, F>>,
        firsts: usize,
    ) -> Result<(), AllocError>
        requires some { 0 < length batch.old.items }
        requires firsts { firsts ≡ firsts_in self.old.queues + firsts_of batch.old.items }
        ensures ok { OnOk result (self.new ≡ with_batch self.old handle.0 batch.old.items) }
        ensures apart { OnOk result (Distinct self.new.queues) }
        ensures room { OnOk result (vec_len out.new + held_in self.new.queues
            ≤ vec_capacity out.new) }
        ensures err { OnErr result (self.new ≡ self.old) }
        ensures out { out.new.items ≡ out.old.items }
        ensures emptied { OnOk result (batch.new.items ≡ []) }
        ensures batch { OnErr result (batch.new.items ≡ batch.old.items) }
        ensures refused { OnErr result ((self.old.room < length batch.old.items)
            ⊎ (vec_capacity out.old < vec_len out.old + held_in self.old.queues
            + length batch.old.items)) }
        ensures held { OnOk result (held_in self.new.queues ≡ held_in self.old.queues
            + length batch.old.items) }
        ensures capacity { vec_capacity out.old ≤ vec_capacity out.new }
    {
        make_room(&mut self.unsettled, out, self.turns.held(), batch.len())?;
        self.turns.join(alloc, handle, batch)?;
        self.firsts = firsts;
        Ok(())
    }

    /// A batch leaves without waiting, and takes of the room that was made.
    fn pass_on(
        &mut self,
        out: &mut Vec<Sent<T, F>>,
        handle: OutputHandle,
        batch: &mut VecDeque<Outbound<T, F>>,
    ) -> Result<(), AllocError>
        requires some { 0 < length batch.old.items }
        requires empty { self.old.queues ≡ [] }
        requires window { length batch.old.items ≤ window_left self.old }
        ensures run { OnOk result (Leaving (with_batch self.old handle.0 batch.old.items)
            out.old.items self.new out.new.items) }
        ensures used_room { OnOk result (self.new.room ≡ self.old.room - length batch.old.items) }
        ensures held { OnOk result (IsHeld self.new) }
        ensures total { OnOk result (vec_len out.new + held_in self.new.queues ≡ vec_len out.old
            + held_in self.old.queues + length batch.old.items) }
        ensures err { OnErr result (self.new ≡ self.old) }
        ensures out { OnErr result (out.new.items ≡ out.old.items) }
        ensures emptied { OnOk result (batch.new.items ≡ []) }
        ensures batch { OnErr result (batch.new.items ≡ batch.old.items) }
        ensures refused { OnErr result ((self.old.room < length batch.old.items)
            ⊎ (vec_capacity out.old < vec_len out.old + held_in self.old.queues
            + length batch.old.items)) }
        ensures capacity { vec_capacity out.old ≤ vec_capacity out.new }
    {
        let count = batch.len();
        make_room(&mut self.unsettled, out, 0, count)?;
        send_all(
            &mut self.next_outgoing_id,
            &mut self.next_delivery_number,
            &mut self.unsettled,
            out,
            handle,
            batch,
        );
        self.turns.use_room(count);
        Ok(())
    }

    /// Takes a window, where there is room for all that waits.
    fn take_window(&mut self, out: &mut Vec<Sent<T, F>>, base: u32, width: u32)
        requires room { vec_len out.old + held_in self.old.queues ≤ vec_capacity out.old }
        ensures takes { Takes (TakesWindow base width) self.old out.old.items self.new
            out.new.items }
        ensures kept_room { self.new.room ≡ self.old.room }
        ensures total { vec_len out.new + held_in self.new.queues ≡ vec_len out.old
            + held_in self.old.queues }
        ensures capacity { vec_capacity out.new ≡ vec_capacity out.old }
    {
        self.window_base = base;
        self.window_width = width;
        self.leave(out);
    }

    /// Transfers leave, links in turn, while the window allows it.
    fn leave(&mut self, out: &mut Vec<Sent<T, F>>)
        requires room { vec_len out.old + held_in self.old.queues ≤ vec_capacity out.old }
        ensures run { Leaving self.old out.old.items self.new out.new.items }
        ensures kept_room { self.new.room ≡ self.old.room }
        ensures held { IsHeld self.new }
        ensures total { vec_len out.new + held_in self.new.queues ≡ vec_len out.old
            + held_in self.old.queues }
        ensures capacity { vec_capacity out.new ≡ vec_capacity out.old }
    {
        while self.held_back() > 0 && self.is_open() {
            out.push_reserved(self.send_one());
        }
    }

    /// The first link of the turn sends one.
    fn send_one(&mut self) -> Sent<T, F>
        requires window { InWindow self.old }
        requires waiting { 0 < held_in self.old.queues }
        ensures sent { Sends self.old result self.new }
        ensures kept_room { self.new.room ≡ self.old.room }
        ensures held { held_in self.new.queues + 1 ≡ held_in self.old.queues }
    {
        let (handle, unit) = self.turns.take_turn();
        let number = self.next_outgoing_id;
        self.next_outgoing_id = number.wrapping_add(1);
        self.firsts -= unit.part.first_count();
        let delivery = give_number(
            &mut self.next_delivery_number,
            &mut self.unsettled,
            handle,
            unit.part,
        );
        Sent {
            handle,
            number,
            delivery,
            transfer: unit.transfer,
            behind: unit.behind,
        }
    }
}

/// How many of these begin a delivery. It is refused where one of them has no tag.
fn count_firsts<T, F>(batch: &VecDeque<Outbound<T, F>>) -> Result<usize, TransferError>
    ensures ok { IfOk result (λ count. (count ≡ firsts_of batch.now.items)
        × HaveTags batch.now.items) }
    ensures err { IfErr result (λ error. (error ≡ TransferError.IllegalState)
        × (HaveTags batch.now.items → ⊥)) }
{
    let mut count = 0;
    for i in 0..batch.len() {
        let Some(begun) = batch[i].part.tagged_count() else {
            return Err(TransferError::IllegalState);
        };
        count += begun;
    }
    Ok(count)
}

/// Makes room for all that waits and so many more transfers, as they leave and are registered.
#[inline(always)]
fn make_room<T, F>(
    unsettled: &mut Unsettled,
    out: &mut Vec<Sent<T, F>>,
    held: usize,
    count: usize,
) -> Result<(), AllocError>
    ensures out { out.new.items ≡ out.old.items }
    ensures capacity { vec_capacity out.old ≤ vec_capacity out.new }
    ensures table { unsettled.new.table ≡ unsettled.old.table }
    ensures grown { unsettled.old.room ≤ unsettled.new.room }
    ensures out_room { OnOk result (vec_len out.new + (held + count) ≤ vec_capacity out.new) }
    ensures room { OnOk result (held + count ≤ unsettled.new.room) }
    ensures refused { OnErr result ((vec_capacity out.old < vec_len out.old + (held + count))
        ⊎ (unsettled.old.room < held + count)) }
{
    let all = held.checked_add(count).ok_or(AllocError)?;
    out.reserve(all)?;
    unsettled.reserve(all)
}

/// The transfers of a batch leave, one after another.
fn send_all<T: Drop, F: Drop>(
    next: &mut u32,
    next_delivery: &mut u32,
    unsettled: &mut Unsettled,
    out: &mut Vec<Sent<T, F>>,
    handle: OutputHandle,
    batch: &mut VecDeque<Outbound<T, F>>,
)
    requires room { length batch.old.items ≤ unsettled.old.room }
    requires out_room { vec_len out.old + length batch.old.items ≤ vec_capacity out.old }
    ensures run { (s : State T F) → s.window_width < 2 ^ 32 →
        ahead next.old s.window_base + length batch.old.items ≤ s.window_width →
        Leaving (with_alone s next.old next_delivery.old unsettled.old.table handle.0
        batch.old.items) out.old.items (with_alone s next.new next_delivery.new unsettled.new.table
        handle.0 []) out.new.items }
    ensures len { vec_len out.new ≡ vec_len out.old + length batch.old.items }
    ensures emptied { batch.new.items ≡ [] }
    ensures capacity { vec_capacity out.new ≡ vec_capacity out.old }
    ensures used { unsettled.old.room ≤ unsettled.new.room + length batch.old.items }
{
    while let Some(unit) = batch.pop_front() {
        let number = *next;
        *next = number.wrapping_add(1);
        let delivery = give_number(next_delivery, unsettled, handle, unit.part);
        out.push_reserved(Sent {
            handle,
            number,
            delivery,
            transfer: unit.transfer,
            behind: unit.behind,
        });
    }
}

/// A delivery that begins gets the next number, and is registered under it where it leaves unsettled.
#[inline(always)]
fn give_number(
    next: &mut u32,
    unsettled: &mut Unsettled,
    handle: OutputHandle,
    part: Part,
) -> Option<u32>
    requires { 0 < unsettled.old.room }
    ensures number { result ≡ (if is_first part then Some next.old else None) }
    ensures next { next.new ≡ (if is_first part then (next.old + 1) % 2 ^ 32 else next.old) }
    ensures registered { unsettled.new.table ≡ registered unsettled.old.table next.old handle part }
    ensures room { unsettled.old.room ≤ unsettled.new.room + 1 }
{
    if !part.is_first() {
        return None;
    }
    let number = *next;
    *next = number.wrapping_add(1);
    if let Part::Unsettled(tag) = part {
        unsettled.register_reserved(number, Delivery { handle, tag });
    }
    Some(number)
}

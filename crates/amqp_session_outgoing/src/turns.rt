//! The links that wait, in turn.
ghost use Rattle.std.specs.Prelude.{◌≡◌, ℕ, ◌+◌, ◌-◌, ◌^◌, ◌<◌, ◌≤◌, ◌↔◌, ◌==◌, [], ◌∷◌, ◌++◌, length, IsTrue, IsOk};
ghost use Rattle.std.specs.Prelude.{◌⊎◌, OnOk, OnErr, IfOk, Some, cond, nat_eq, max, min, All};
ghost use Rattle.std.specs.VecDeque.{deque_len, deque_capacity};
ghost use Rattle.slab.specs.Slab.{get, slab_len, ContainsKey, HasRoomFor, Updates};
ghost use Rattle.amqp_session_outgoing.specs.Frames.{first_count, frames_count, last_room};
ghost use Rattle.amqp_session_outgoing.specs.Queues.{held_in, firsts_in, frames_in, units_of, room_behind, TakesTurn};
ghost use Rattle.amqp_session_outgoing.specs.Queues.{joined, trailed, turn_of, Distinct, FollowsIn};
ghost use Rattle.amqp_session_outgoing.specs.Fields.{waiting_at, handle_at, AllWait, AllShort, HasFewAt};
ghost use Rattle.amqp_session_outgoing.specs.Fields.{ChangesQueue, TakesFirst, Joins};
ghost use Rattle.amqp_session_outgoing.specs.Spots.{spot_of, notes_left, AreNoted};
ghost use Rattle.amqp_session_outgoing.specs.declared.turns.Queue.{Queue};

use crate::frames::Outbound;
use crate::nodes::{LIMIT, Row, Store};
use crate::place::Place;
use crate::spots::Spots;
use amqp_session_types::OutputHandle;
use slab::Slab;
use std::alloc::{AllocError, Global};
use std::collections::VecDeque;
use std::marker::Model;

/// The waiting transfers of one link.
struct Queue<T, F> {
    handle: OutputHandle,
    units: Row<Outbound<T, F>>,
}

impl<T: Drop, F: Drop> Drop for Queue<T, F> {
    fn drop(self) {
        let Queue {
            handle: _,
            units: _,
        } = self;
    }
}

/// The links that wait, in turn, each with its waiting transfers.
pub(crate) struct Turns<T, F> {
    /// The queue of each link stands at one spot as long as the link waits.
    queues: Slab<Queue<T, F>>,
    /// The spots of the queues, in turn.
    turn: VecDeque<usize>,
    /// The spot of each link that waits.
    spots: Spots,
    /// The nodes in which more transfers may wait.
    store: Store<Outbound<T, F>>,
    held: usize,
    frames: u128,
    room: usize,
}

impl<T: Drop, F: Drop> Drop for Turns<T, F> {
    fn drop(self) {
        let Turns {
            queues: _,
            turn: _,
            spots: _,
            store: _,
            held: _,
            frames: _,
            room: _,
        } = self;
    }
}

impl<T, F> Model for Turns<T, F> {
    ghost use Rattle.amqp_session_outgoing.specs.Queues.{Lists};

    ghost Value = { Lists T F };

    ghost use Rattle.amqp_session_outgoing.specs.Fields.{lists_of, IsSoundTurn};

    ghost view = { lists_of };

    ghost invariant = { IsSoundTurn };
}

impl<T: Drop, F: Drop> Turns<T, F> {
    /// Nothing waits. It takes no memory.
    #[tactic(auto, using(crate::proofs::Standing::rules))]
    pub(crate) fn new(alloc: Global) -> Self
        ensures { result ≡ record { queues = []; room = 0 } }
    {
        Turns {
            queues: Slab::new(alloc),
            turn: VecDeque::new(alloc),
            spots: Spots::new(alloc),
            store: Store::new(alloc),
            held: 0,
            frames: 0,
            room: 0,
        }
    }

    /// How many transfers wait.
    pub(crate) fn held(&self) -> usize
        ensures { result ≡ held_in self.now.queues }
    {
        self.held
    }

    /// How many transfers more are sure to find room.
    pub(crate) fn room(&self) -> usize
        ensures { result ≡ self.now.room }
    {
        self.room
    }

    /// Nothing waits.
    #[inline(always)]
    pub(crate) fn is_empty(&self) -> bool
        ensures { IsTrue result ↔ (self.now.queues ≡ []) }
    {
        self.turn.is_empty()
    }

    /// How many frames wait: transfers, and the frames behind them.
    pub(crate) fn frames(&self) -> u128
        ensures { result ≡ frames_in self.now.queues }
    {
        self.frames
    }

    /// Whether a transfer of a link waits.
    pub(crate) fn is_waiting(&self, handle: OutputHandle) -> bool
        ensures { IsTrue result ↔ (0 < length (units_of handle.0 self.now.queues)) }
    {
        self.spots.get(handle).is_some()
    }

    /// The links that wait, in turn, each with how many of its transfers wait.
    pub(crate) fn counts(&self, alloc: Global) -> Result<Vec<(OutputHandle, usize)>, AllocError>
        ensures { IfOk result (λ counts. counts.items ≡ turn_of self.now.queues) }
    {
        counts(&self.turn, &self.queues, alloc)
    }

    /// The first link of the turn gives up its first transfer.
    #[inline(always)]
    pub(crate) fn take_turn(&mut self) -> (OutputHandle, Outbound<T, F>)
        requires { 0 < held_in self.old.queues }
        ensures taken { TakesTurn self.old.queues (result.0).0 result.1 self.new.queues }
        ensures room { self.new.room ≡ self.old.room }
        ensures held { held_in self.new.queues + 1 ≡ held_in self.old.queues }
        ensures firsts { firsts_in self.new.queues + first_count result.1.part
            ≡ firsts_in self.old.queues }
    {
        let (handle, unit) = take_turn(
            &mut self.turn,
            &mut self.queues,
            &mut self.spots,
            &mut self.store,
        );
        self.held -= 1;
        self.frames -= 1 + unit.behind.len() as u128;
        (handle, unit)
    }

    /// A batch of a link waits behind what the link has waiting. Each link that waits then stands in the turn once.
    pub(crate) fn join(
        &mut self,
        alloc: Global,
        handle: OutputHandle,
        batch: &mut VecDeque<Outbound<T, F>>,
    ) -> Result<(), AllocError>
        requires { 0 < length batch.old.items }
        ensures ok { OnOk result (self.new ≡ record {
          queues = joined handle.0 batch.old.items self.old.queues;
          room = self.old.room - length batch.old.items;
        }) }
        ensures apart { OnOk result (Distinct self.new.queues) }
        ensures err { OnErr result (self.new ≡ self.old) }
        ensures emptied { OnOk result (batch.new.items ≡ []) }
        ensures batch { OnErr result (batch.new.items ≡ batch.old.items) }
        ensures room { OnErr result (self.old.room < length batch.old.items) }
    {
        let count = batch.len();
        let held = sum_in_limit(self.held, count)?;
        let frames = self.frames + count_frames(batch);
        join(
            &mut self.turn,
            &mut self.queues,
            &mut self.spots,
            &mut self.store,
            alloc,
            handle,
            batch,
        )?;
        self.held = held;
        self.frames = frames;
        self.room = self.room.saturating_sub(count);
        Ok(())
    }

    /// Makes room for so many transfers, in one batch or in several, of one link or of several.
    #[tactic(auto, using(crate::proofs::Standing::rules))]
    pub(crate) fn reserve(&mut self, count: usize) -> Result<(), AllocError>
        ensures ok { OnOk result (self.new ≡ record self.old { room = max self.old.room count }) }
        ensures err { OnErr result (self.new ≡ self.old) }
    {
        let room = self.room.max(count);
        let _ = sum_in_limit(self.held, room)?;
        self.turn.reserve(room)?;
        self.queues.reserve(room)?;
        self.spots.reserve(room)?;
        self.store.reserve(room)?;
        self.room = room;
        Ok(())
    }

    /// So many transfers take of the room that was made.
    #[inline(always)]
    pub(crate) fn use_room(&mut self, count: usize)
        ensures { self.new ≡ record self.old { room = self.old.room - count } }
    {
        self.room = self.room.saturating_sub(count);
    }

    /// Gives up room that was made: at most so many transfers more are sure to find room then.
    #[inline(always)]
    pub(crate) fn lower_room(&mut self, room: usize)
        ensures { self.new ≡ record self.old { room = min self.old.room room } }
    {
        self.room = self.room.min(room);
    }

    /// Gets room for so many more frames of a link behind the transfers that the link has waiting.
    pub(crate) fn widen_place(
        &self,
        alloc: Global,
        handle: OutputHandle,
        count: usize,
        place: &mut Place<F>,
    ) -> Result<(), AllocError>
        ensures ok { OnOk result (room_behind handle.0 count self.now.queues ≤ place.new) }
        ensures grown { place.old ≤ place.new }
        ensures err { OnErr result (place.new ≡ place.old) }
        ensures enough { room_behind handle.0 count self.now.queues ≤ place.old → IsOk result }
        ensures kept { room_behind handle.0 count self.now.queues ≤ place.old →
            place.new ≡ place.old }
    {
        match self.spots.get(handle) {
            Some(spot) => widen_behind(&self.queues[spot].units, alloc, count, place),
            None => Ok(()),
        }
    }

    /// A frame of a link goes behind the transfers that the link has waiting. It is given back where there are none.
    /// It is refused where there is no memory and the place has no room.
    pub(crate) fn follow(
        &mut self,
        handle: OutputHandle,
        place: &mut Place<F>,
        frame: F,
    ) -> Result<Option<F>, AllocError>
        ensures ok { IfOk result (λ left. FollowsIn handle.0 frame left self.old.queues
            self.new.queues) }
        ensures room { self.new.room ≡ self.old.room }
        ensures held { held_in self.new.queues ≡ held_in self.old.queues }
        ensures firsts { firsts_in self.new.queues ≡ firsts_in self.old.queues }
        ensures err { OnErr result (self.new ≡ self.old) }
        ensures fits { room_behind handle.0 1 self.old.queues ≤ place.old → IsOk result }
        ensures at_once { units_of handle.0 self.old.queues ≡ [] → place.new ≡ place.old }
    {
        let Some(spot) = self.spots.get(handle) else {
            return Ok(Some(frame));
        };
        follow(&mut self.queues, spot, place, frame)?;
        self.frames += 1;
        Ok(None)
    }
}

/// Two counts together, where a list takes so many nodes.
fn sum_in_limit(held: usize, count: usize) -> Result<usize, AllocError>
    ensures ok { IfOk result (λ sum. (sum ≡ held + count) × (sum < 2 ^ 63)) }
    ensures err { OnErr result (2 ^ 63 ≤ held + count) }
{
    match held.checked_add(count) {
        Some(sum) if sum < LIMIT => Ok(sum),
        _ => Err(AllocError),
    }
}

/// The first link of the turn gives up its first transfer, and stands last if another of it waits. The node goes to the
/// store.
#[inline(always)]
fn take_turn<T: Drop, F: Drop>(
    turn: &mut VecDeque<usize>,
    queues: &mut Slab<Queue<T, F>>,
    spots: &mut Spots,
    store: &mut Store<Outbound<T, F>>,
) -> (OutputHandle, Outbound<T, F>)
    requires some { 0 < length turn.old.items }
    requires waits { AllWait queues.old }
    requires short { store.old + 1 < 2 ^ 63 }
    requires noted { AreNoted (handle_at queues.old) turn.old.items (spot_of spots.old) }
    ensures taken { TakesTurn (waiting_at queues.old turn.old.items) (result.0).0 result.1
        (waiting_at queues.new turn.new.items) }
    ensures waits { AllWait queues.new }
    ensures noted { AreNoted (handle_at queues.new) turn.new.items (spot_of spots.new) }
    ensures notes { notes_left spots.old ≤ notes_left spots.new }
    ensures store { store.new ≡ store.old + 1 }
    ensures capacity { deque_capacity turn.new ≡ deque_capacity turn.old }
    ensures len { deque_len turn.new ≤ deque_len turn.old }
    ensures room { queues.new.capacity ≡ queues.old.capacity }
    ensures stands { slab_len queues.new ≤ slab_len queues.old }
{
    let first = take_spot(turn);
    let (handle, unit, is_last) = take_first(queues, first, store);
    if !is_last {
        turn.push_back_reserved(first);
        return (handle, unit);
    }
    let _ = queues.remove(first);
    spots.remove(handle);
    (handle, unit)
}

/// The first spot of the turn.
#[inline(always)]
fn take_spot(turn: &mut VecDeque<usize>) -> usize
    requires { 0 < length turn.old.items }
    ensures items { turn.old.items ≡ result ∷ turn.new.items }
    ensures len { deque_len turn.new + 1 ≡ deque_len turn.old }
    ensures capacity { deque_capacity turn.new ≡ deque_capacity turn.old }
{
    turn.pop_front().unwrap()
}

/// The queue at a spot gives up its first transfer: the link's handle, the transfer, and whether no other waits.
#[inline(always)]
fn take_first<T: Drop, F: Drop>(
    queues: &mut Slab<Queue<T, F>>,
    spot: usize,
    store: &mut Store<Outbound<T, F>>,
) -> (OutputHandle, Outbound<T, F>, bool)
    requires spot { ContainsKey queues.old spot }
    requires waits { AllWait queues.old }
    requires short { store.old + 1 < 2 ^ 63 }
    ensures taken { TakesFirst queues.old spot result.0 result.1 result.2 queues.new }
    ensures store { store.new ≡ store.old + 1 }
{
    let queue = &mut queues[spot];
    let unit = queue.units.take_first(store);
    (queue.handle, unit, queue.units.is_empty())
}

/// Gets room for so many more frames behind the last of these transfers.
fn widen_behind<T, F: Drop>(
    units: &Row<Outbound<T, F>>,
    alloc: Global,
    count: usize,
    place: &mut Place<F>,
) -> Result<(), AllocError>
    ensures ok { OnOk result (last_room count units.now ≤ place.new) }
    ensures grown { place.old ≤ place.new }
    ensures err { OnErr result (place.new ≡ place.old) }
    ensures enough { last_room count units.now ≤ place.old → IsOk result }
    ensures kept { last_room count units.now ≤ place.old → place.new ≡ place.old }
{
    match units.last() {
        Some(last) => place.widen(alloc, last.behind.len(), count),
        None => Ok(()),
    }
}

/// How many frames these are: the transfers, and the frames behind them.
fn count_frames<T, F: Drop>(batch: &VecDeque<Outbound<T, F>>) -> u128
    ensures count { result ≡ frames_count batch.now.items }
    ensures short { AllShort batch.now.items }
{
    let mut count = 0;
    for i in 0..batch.len() {
        count += 1 + batch[i].behind.len() as u128;
    }
    count
}

/// A batch waits behind what its link has waiting, and a link that had nothing joins the turn.
fn join<T: Drop, F: Drop>(
    turn: &mut VecDeque<usize>,
    queues: &mut Slab<Queue<T, F>>,
    spots: &mut Spots,
    store: &mut Store<Outbound<T, F>>,
    alloc: Global,
    handle: OutputHandle,
    batch: &mut VecDeque<Outbound<T, F>>,
) -> Result<(), AllocError>
    requires some { 0 < length batch.old.items }
    requires waits { AllWait queues.old }
    requires short { held_in (waiting_at queues.old turn.old.items) + store.old < 2 ^ 63 }
    requires fits { held_in (waiting_at queues.old turn.old.items) + length batch.old.items
        < 2 ^ 63 }
    requires noted { AreNoted (handle_at queues.old) turn.old.items (spot_of spots.old) }
    requires stands { slab_len queues.old ≤ queues.old.capacity }
    ensures ok { OnOk result (waiting_at queues.new turn.new.items
        ≡ joined handle.0 batch.old.items (waiting_at queues.old turn.old.items)) }
    ensures err { OnErr result (waiting_at queues.new turn.new.items
        ≡ waiting_at queues.old turn.old.items) }
    ensures emptied { OnOk result (batch.new.items ≡ []) }
    ensures batch { OnErr result (batch.new.items ≡ batch.old.items) }
    ensures waits { AllWait queues.new }
    ensures noted { AreNoted (handle_at queues.new) turn.new.items (spot_of spots.new) }
    ensures taken { OnOk result (notes_left spots.old ≤ notes_left spots.new + 1) }
    ensures notes { OnErr result (notes_left spots.old ≤ notes_left spots.new) }
    ensures store { OnOk result (store.new + length batch.old.items
        ≡ max store.old (length batch.old.items)) }
    ensures kept { OnErr result (store.old ≤ store.new) }
    ensures bound { OnErr result (store.new ≤ max store.old (length batch.old.items)) }
    ensures places { OnErr result (deque_len turn.new ≡ deque_len turn.old) }
    ensures joins { OnOk result (deque_len turn.new ≤ deque_len turn.old + 1) }
    ensures within { deque_len turn.new ≤ deque_capacity turn.new }
    ensures capacity { deque_capacity turn.old ≤ deque_capacity turn.new }
    ensures stands { OnErr result (slab_len queues.new ≡ slab_len queues.old) }
    ensures stands_too { OnOk result (slab_len queues.new ≤ slab_len queues.old + 1) }
    ensures stands_within { slab_len queues.new ≤ queues.new.capacity }
    ensures room { queues.old.capacity ≤ queues.new.capacity }
    ensures refused { OnErr result ((deque_capacity turn.old ≤ deque_len turn.old)
        ⊎ ((queues.old.capacity ≤ slab_len queues.old) ⊎ ((notes_left spots.old ≡ 0)
        ⊎ (store.old < length batch.old.items)))) }
{
    store.reserve(batch.len())?;
    match spots.get(handle) {
        Some(spot) => {
            join_at(queues, store, spot, batch);
            Ok(())
        }
        None => join_last(turn, queues, spots, store, alloc, handle, batch),
    }
}

/// A batch waits behind what the queue at this spot has waiting.
fn join_at<T: Drop, F: Drop>(
    queues: &mut Slab<Queue<T, F>>,
    store: &mut Store<Outbound<T, F>>,
    spot: usize,
    batch: &mut VecDeque<Outbound<T, F>>,
)
    requires spot { ContainsKey queues.old spot }
    requires nodes { length batch.old.items ≤ store.old }
    requires short { HasFewAt queues.old spot store.old }
    ensures changed { ChangesQueue queues.old spot (λ units. units ++ batch.old.items) queues.new }
    ensures emptied { batch.new.items ≡ [] }
    ensures store { store.new + length batch.old.items ≡ store.old }
{
    let queue = &mut queues[spot];
    queue.units.append(store, batch);
}

/// A batch of a link that has nothing waiting joins the turn at its end.
fn join_last<T: Drop, F: Drop>(
    turn: &mut VecDeque<usize>,
    queues: &mut Slab<Queue<T, F>>,
    spots: &mut Spots,
    store: &mut Store<Outbound<T, F>>,
    alloc: Global,
    handle: OutputHandle,
    batch: &mut VecDeque<Outbound<T, F>>,
) -> Result<(), AllocError>
    requires nodes { length batch.old.items ≤ store.old }
    requires short { store.old < 2 ^ 63 }
    requires stands { slab_len queues.old ≤ queues.old.capacity }
    ensures ok { OnOk result (Joins turn.old.items queues.old (spot_of spots.old) handle
        batch.old.items turn.new.items queues.new (spot_of spots.new)) }
    ensures err { OnErr result (queues.new.slots ≡ queues.old.slots) }
    ensures turn { OnErr result (turn.new.items ≡ turn.old.items) }
    ensures noted { OnErr result ((other : ℕ) →
        spot_of spots.new other ≡ spot_of spots.old other) }
    ensures taken { OnOk result (notes_left spots.old ≤ notes_left spots.new + 1) }
    ensures notes { OnErr result (notes_left spots.old ≤ notes_left spots.new) }
    ensures emptied { OnOk result (batch.new.items ≡ []) }
    ensures batch { OnErr result (batch.new.items ≡ batch.old.items) }
    ensures store { OnOk result (store.new + length batch.old.items ≡ store.old) }
    ensures kept { OnErr result (store.new ≡ store.old) }
    ensures joins { OnOk result (deque_len turn.new ≡ deque_len turn.old + 1) }
    ensures within { deque_len turn.new ≤ deque_capacity turn.new }
    ensures capacity { deque_capacity turn.old ≤ deque_capacity turn.new }
    ensures stands { OnOk result (slab_len queues.new ≡ slab_len queues.old + 1) }
    ensures stands_within { slab_len queues.new ≤ queues.new.capacity }
    ensures room { queues.old.capacity ≤ queues.new.capacity }
    ensures refused { OnErr result ((deque_capacity turn.old ≤ deque_len turn.old)
        ⊎ ((queues.old.capacity ≤ slab_len queues.old) ⊎ (notes_left spots.old ≡ 0))) }
{
    turn.reserve(1)?;
    queues.reserve(1)?;
    spots.reserve(1)?;
    let mut units = Row::new(alloc);
    units.append(store, batch);
    let spot = queues.insert_reserved(Queue { handle, units });
    spots.insert_reserved(handle, spot);
    turn.push_back_reserved(spot);
    Ok(())
}

/// A frame goes behind the last transfer that the queue at this spot has waiting.
fn follow<T: Drop, F: Drop>(
    queues: &mut Slab<Queue<T, F>>,
    spot: usize,
    place: &mut Place<F>,
    frame: F,
) -> Result<(), AllocError>
    requires spot { ContainsKey queues.old spot }
    requires waits { AllWait queues.old }
    ensures ok { OnOk result (ChangesQueue queues.old spot (trailed frame) queues.new) }
    ensures err { OnErr result (queues.new ≡ queues.old) }
    ensures short { OnOk result ((q : Queue T F) → get queues.old spot ≡ Some q →
        last_room 1 q.units < 2 ^ 64) }
    ensures refused { OnErr result ((q : Queue T F) → get queues.old spot ≡ Some q →
        place.old < last_room 1 q.units) }
{
    let queue = &mut queues[spot];
    queue.units.trail(place, frame)
}

/// The links of the turn, each with how many of its transfers wait.
fn counts<T, F>(
    turn: &VecDeque<usize>,
    queues: &Slab<Queue<T, F>>,
    alloc: Global,
) -> Result<Vec<(OutputHandle, usize)>, AllocError>
    requires { All (λ spot. ContainsKey queues.now spot) turn.now.items }
    ensures { IfOk result (λ counts.
        counts.items ≡ turn_of (waiting_at queues.now turn.now.items)) }
{
    let mut counts = Vec::with_capacity(alloc, turn.len())?;
    for i in 0..turn.len() {
        let queue = &queues[turn[i]];
        counts.push_reserved((queue.handle, queue.units.len()));
    }
    Ok(counts)
}

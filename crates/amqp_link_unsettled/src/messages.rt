//! The messages of a sending link (part 2, 2.6.12 and 2.6.13).
ghost use Rattle.std.specs.Prelude.{◌≡◌, ℕ, List, ◌+◌, ◌-◌, ◌<◌, ◌≤◌, [], ◌∷◌, ◌++◌, length, drop, map, max, min, not};
ghost use Rattle.std.specs.Prelude.{filter, is_some, None, Some, IsSome, IfNone, IfOk, OnOk, OnErr, option_copied};
ghost use Rattle.std.specs.List.{IsDistinct};
ghost use Rattle.std.specs.Map.{keys_of, lookup, remove_entry, set_value};
ghost use Rattle.std.specs.Option.{option_to_list};
ghost use Rattle.std.specs.Str.{bytes_eq};
ghost use Rattle.std.specs.VecDeque.{deque_len, deque_capacity};
ghost use Rattle.std.specs.VecDeque.Iter.{deque_iter_rest};
ghost use Rattle.std.specs.Map.Iter.{ShowsInOrder, deref_pair};
ghost use Rattle.amqp_link_unsettled.specs.Listing.{entries_listed};
ghost use Rattle.amqp_link_unsettled.specs.Exchanging.{ended_at};
ghost use Rattle.amqp_link_unsettled.specs.Messages.{no_messages, first_ended, first_of, open_at, opened, waiting_but};
ghost use Rattle.amqp_link_unsettled.specs.Messages.{resolved_as, told_at, disposed, failed, interrupted};
ghost use Rattle.amqp_link_unsettled.specs.Tagged.{AreTagged};
ghost use Rattle.amqp_link_unsettled.specs.declared.resolution.Resolution.TheVariants.{Failed};

use crate::entry::Entry;
use crate::open::{Open, Waiting};
use crate::resolution::{Failure, Resolution, ends};
use crate::{Iter, UnsettledList, UnsettledMap};
use amqp_session_states::DeliveryState;
use amqp_session_types::DeliveryTag;
use std::alloc::{AllocError, Global};
use std::collections::{VecDeque, vec_deque};
use std::marker::Model;

/// The messages of a sending link: those that are open, those that came to an end until their owner takes them, and
/// those that wait to be sent on (part 2, 2.6.12 and 2.6.13).
///
/// Whatever ends a message takes no memory: as a message is entered, there is room for what becomes of it.
pub struct Messages {
    unsettled: UnsettledMap<Open>,
    resolved: VecDeque<(DeliveryTag, Resolution)>,
    waiting: VecDeque<Waiting>,
}

impl Drop for Messages {
    fn drop(self) {
        let Messages {
            unsettled: _,
            resolved: _,
            waiting: _,
        } = self;
    }
}

impl Model for Messages {
    ghost use Rattle.std.specs.Prelude.{◌+◌, ◌≤◌, length};
    ghost use Rattle.std.specs.VecDeque.{deque_len, deque_capacity};
    ghost use Rattle.amqp_link_unsettled.specs.Messages.{MessageLists};
    ghost use Rattle.amqp_link_unsettled.specs.Tagged.{AreTagged};

    ghost Value = { MessageLists };

    ghost view = { λ m. record {
      unsettled = m.unsettled.entries;
      resolved = m.resolved.items;
      waiting = m.waiting.items;
      room = m.unsettled.room;
    } };

    ghost invariant = { λ m. (m.unsettled.room + length m.unsettled.entries + deque_len m.resolved ≤ deque_capacity m.resolved)
        × AreTagged m.unsettled.entries };
}

impl Messages {
    /// No messages. It takes no memory.
    pub fn new(alloc: Global) -> Self
        ensures { result ≡ no_messages }
    {
        Messages {
            unsettled: UnsettledMap::new(alloc),
            resolved: VecDeque::new(alloc),
            waiting: VecDeque::new(alloc),
        }
    }

    /// How many messages are open. No two of them have one tag.
    pub fn len(&self) -> usize
        ensures len { result ≡ length self.now.unsettled }
        ensures apart { IsDistinct bytes_eq (keys_of self.now.unsettled) }
    {
        self.unsettled.len()
    }

    /// The open message with this tag, if there is one.
    pub fn get(&self, tag: &DeliveryTag) -> Option<&Open>
        ensures { option_copied result ≡ open_at self.now tag.now }
    {
        self.unsettled.get(tag)
    }

    /// Whether a message with this tag is open.
    pub fn is_open(&self, tag: &DeliveryTag) -> bool
        ensures { result ≡ is_some (open_at self.now tag.now) }
    {
        self.unsettled.contains(tag)
    }

    /// The first message that waits to be sent on, if there is one.
    pub fn first_waiting(&self) -> Option<&Waiting>
        ensures { option_copied result ≡ first_of self.now.waiting }
    {
        self.waiting.front()
    }

    /// The messages that wait to be sent on, in the order in which they go.
    pub fn waiting(&self) -> vec_deque::Iter<'_, Waiting>
        ensures { deque_iter_rest result ≡ self.now.waiting }
    {
        self.waiting.iter()
    }

    /// The open messages as an Attach lists them: in order, with the states that the peer told of them (part 2, 2.7.3). It
    /// is refused where there is no memory for them.
    pub fn list(&self, alloc: Global) -> Result<UnsettledList, AllocError>
        ensures { IfOk result (λ l. l ≡ entries_listed (λ m. m.state) self.now.unsettled) }
    {
        self.unsettled.list(alloc)
    }

    /// Makes room, so that so many more messages are entered without memory. Where there is none nothing changes.
    pub fn reserve(&mut self, count: usize) -> Result<(), AllocError>
        ensures ok { OnOk result (self.new ≡ record self.old { room = max self.old.room count }) }
        ensures err { OnErr result (self.new ≡ self.old) }
    {
        reserve_both(&mut self.unsettled, &mut self.resolved, count)
    }

    /// For how many more messages there is room.
    pub fn room(&self) -> usize
        ensures { result ≡ self.now.room }
    {
        self.unsettled.room()
    }

    /// Gives up room that was made: so many more messages at most are sure to find room then. It takes no memory.
    pub fn lower_room(&mut self, room: usize)
        ensures { self.new ≡ record self.old { room = min self.old.room room } }
    {
        self.unsettled.lower_room(room);
    }

    /// Enters a message that is open from now on, behind the others. There must be room for it, and no other open
    /// message with its tag.
    pub fn open_reserved(&mut self, entry: Entry)
        requires room { 0 < self.old.room }
        requires absent { open_at self.old entry.tag ≡ None }
        ensures { self.new ≡ opened self.old entry }
    {
        let Entry { key, message } = entry;
        self.unsettled.insert_reserved(key, message);
    }

    /// Takes a disposition of the message with this tag (part 2, 2.7.6): it ends where it is settled or the state is
    /// terminal, else the state is noted. It takes no memory.
    ///
    /// Where no message with this tag is open nothing changes. It answers whether there was one.
    pub fn on_disposition(
        &mut self,
        tag: &DeliveryTag,
        settled: bool,
        state: Option<DeliveryState>,
    ) -> bool
        ensures state { self.new ≡ disposed self.old tag.now settled state }
        ensures known { result ≡ is_some (open_at self.old tag.now) }
    {
        if !self.unsettled.contains(tag) {
            return false;
        }
        if ends(settled, &state) {
            self.resolve(tag, Resolution::of_state(state));
        } else {
            self.note(tag, state);
        }
        true
    }

    /// All open messages end without an outcome, in order, and none waits any more. It takes no memory.
    pub fn fail(&mut self, failure: Failure)
        ensures { self.new ≡ failed self.old failure }
    {
        self.waiting.clear();
        fail_all(&mut self.unsettled, &mut self.resolved, failure);
    }

    /// No message waits any more to be sent on. It takes no memory.
    pub fn interrupt(&mut self)
        ensures { self.new ≡ interrupted self.old }
    {
        self.waiting.clear();
    }

    /// The first message that waits was sent on: it waits no more. It takes no memory.
    pub fn sent_on(&mut self)
        ensures { self.new ≡ record self.old { waiting = drop 1 self.old.waiting } }
    {
        let _ = self.waiting.pop_front();
    }

    /// The message that ended first of those that weren't taken out yet, with what became of it, if there is one.
    pub fn first_resolved(&self) -> Option<&(DeliveryTag, Resolution)>
        ensures { option_copied result ≡ first_ended self.now.resolved }
    {
        self.resolved.front()
    }

    /// Takes the message out that ended first of those that weren't taken out yet, with what became of it. It takes no
    /// memory.
    pub fn take_resolved(&mut self) -> Option<(DeliveryTag, Resolution)>
        ensures first { self.old ≡ record self.new
            { resolved = option_to_list result ++ self.new.resolved } }
        ensures none { IfNone result (self.new.resolved ≡ []) }
    {
        self.resolved.pop_front()
    }
}

impl Messages {
    /// The open messages by their tags, in the order in which they were accepted.
    pub(crate) fn iter(&self) -> Iter<'_, Open>
        ensures rest { result ≡ self.now.unsettled }
        ensures runs { ShowsInOrder (deref_pair {K = List ℕ} {X = Open}) }
    {
        self.unsettled.iter()
    }

    /// The message with this tag ends, if it is open.
    pub(crate) fn end(&mut self, tag: &DeliveryTag, resolution: Resolution)
        ensures { self.new ≡ ended_at self.old tag.now resolution (open_at self.old tag.now) }
    {
        if self.unsettled.contains(tag) {
            self.resolve(tag, resolution);
        }
    }

    /// These messages wait to be sent on, and no others.
    pub(crate) fn set_waiting(&mut self, waiting: VecDeque<Waiting>)
        ensures { self.new ≡ record self.old { waiting = waiting.items } }
    {
        self.waiting = waiting;
    }

    /// The message with this tag, which is open, comes to its end.
    fn resolve(&mut self, tag: &DeliveryTag, resolution: Resolution)
        requires { IsSome (open_at self.old tag.now) }
        ensures { self.new ≡ resolved_as self.old tag.now resolution }
    {
        stop_waiting(&mut self.waiting, tag);
        settle(&mut self.unsettled, &mut self.resolved, tag, resolution);
    }

    /// Notes the state that the peer told of the message with this tag, which is open.
    fn note(&mut self, tag: &DeliveryTag, state: Option<DeliveryState>)
        requires { IsSome (open_at self.old tag.now) }
        ensures { self.new ≡ record self.old {
          unsettled
              = told_at self.old.unsettled tag.now (open_at self.old tag.now) state;
        } }
    {
        note_in(&mut self.unsettled, tag, state);
    }
}

/// Makes room for so many more open messages, and for what becomes of them.
fn reserve_both(
    unsettled: &mut UnsettledMap<Open>,
    resolved: &mut VecDeque<(DeliveryTag, Resolution)>,
    count: usize,
) -> Result<(), AllocError>
    requires { unsettled.old.room + length unsettled.old.entries + deque_len resolved.old
        ≤ deque_capacity resolved.old }
    ensures ok { OnOk result (unsettled.new
        ≡ record unsettled.old { room = max unsettled.old.room count }) }
    ensures err { OnErr result (unsettled.new ≡ unsettled.old) }
    ensures resolved { resolved.new.items ≡ resolved.old.items }
    ensures room { unsettled.new.room + length unsettled.new.entries + deque_len resolved.new
        ≤ deque_capacity resolved.new }
{
    let room = unsettled.room().max(count);
    let Some(places) = room.checked_add(unsettled.len()) else {
        return Err(AllocError);
    };
    resolved.reserve(places)?;
    unsettled.reserve(count)
}

/// Takes the message with this tag from those that wait.
fn stop_waiting(waiting: &mut VecDeque<Waiting>, tag: &DeliveryTag)
    ensures { waiting.new.items ≡ waiting_but tag.now waiting.old.items }
{
    waiting.retain(
        |w: &Waiting| -> bool
            ensures { result ≡ not (bytes_eq tag.entry.now w.now.tag) }
        { *tag != w.tag },
    );
}

/// Takes the message with this tag, which is open, out of those that are, and puts what became of it behind the others.
fn settle(
    unsettled: &mut UnsettledMap<Open>,
    resolved: &mut VecDeque<(DeliveryTag, Resolution)>,
    tag: &DeliveryTag,
    resolution: Resolution,
)
    requires open { IsSome (lookup (bytes_eq tag.now) unsettled.old.entries) }
    requires tagged { AreTagged unsettled.old.entries }
    requires room { length unsettled.old.entries + deque_len resolved.old
        ≤ deque_capacity resolved.old }
    ensures unsettled { unsettled.new ≡ record unsettled.old
        { entries = remove_entry (bytes_eq tag.now) unsettled.old.entries } }
    ensures resolved { resolved.new.items ≡ resolved.old.items ++ (tag.now, resolution) ∷ [] }
    ensures len { length unsettled.new.entries + deque_len resolved.new
        ≡ length unsettled.old.entries + deque_len resolved.old }
    ensures capacity { deque_capacity resolved.new ≡ deque_capacity resolved.old }
{
    let tag = unsettled.remove(tag).unwrap().into_tag();
    resolved.push_back_reserved((tag, resolution));
}

/// Notes the state that the peer told of the message with this tag, which is open.
#[tactic(auto, using(crate::proofs::NotedMessages::is_told))]
fn note_in(unsettled: &mut UnsettledMap<Open>, tag: &DeliveryTag, state: Option<DeliveryState>)
    requires { IsSome (lookup (bytes_eq tag.now) unsettled.old.entries) }
    ensures { unsettled.new ≡ record unsettled.old {
      entries
          = told_at unsettled.old.entries tag.now (lookup (bytes_eq tag.now) unsettled.old.entries) state;
    } }
{
    unsettled.note(tag, state);
}

/// All open messages end without an outcome, in order.
fn fail_all(
    unsettled: &mut UnsettledMap<Open>,
    resolved: &mut VecDeque<(DeliveryTag, Resolution)>,
    failure: Failure,
)
    requires { length unsettled.old.entries + deque_len resolved.old ≤ deque_capacity resolved.old }
    ensures unsettled { unsettled.new ≡ record unsettled.old { entries = [] } }
    ensures resolved { resolved.new.items ≡ resolved.old.items
        ++ map (λ tag. (tag, Failed failure)) (keys_of unsettled.old.entries) }
    ensures len { deque_len resolved.new ≡ length unsettled.old.entries + deque_len resolved.old }
    ensures capacity { deque_capacity resolved.new ≡ deque_capacity resolved.old }
{
    unsettled.reverse();
    while let Some(tag) = pop_tag(unsettled) {
        resolved.push_back_reserved((tag, Resolution::Failed(failure)));
    }
}

/// Takes the last open message out, and answers its tag.
fn pop_tag(unsettled: &mut UnsettledMap<Open>) -> Option<DeliveryTag>
    ensures tags { keys_of unsettled.old.entries ≡ keys_of unsettled.new.entries
        ++ option_to_list result }
    ensures room { unsettled.new.room ≡ unsettled.old.room }
    ensures none { IfNone result (unsettled.new.entries ≡ []) }
    ensures len { length unsettled.new.entries + length (option_to_list result)
        ≡ length unsettled.old.entries }
{
    let (tag, _) = unsettled.pop_last()?;
    Some(tag)
}

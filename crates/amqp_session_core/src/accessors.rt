//! What a session tells of itself, and the links that it lends.
ghost use Rattle.std.specs.Prelude.{◌≡◌, ℕ, IsTrue, ◌↔◌, ◌<◌, length, option_copied, option_map, IfOk};
ghost use Rattle.std.specs.Option.{option_copied_mut};
ghost use types.Logic.{sem};
ghost use Rattle.amqp_session_core.specs.Lends.{lends_link};
ghost use Rattle.std.specs.FinMap as map;
ghost use Rattle.amqp_session_outgoing.specs.Queues.{held_in, firsts_in, frames_in, turn_of, units_of};
ghost use Rattle.amqp_session_outgoing.specs.History.{IsFree};
ghost use Rattle.amqp_session_core.specs.State.{link_at, offered_handle, reached};

use crate::links::reach;
use crate::session::Session;
use crate::state::SessionState;
use amqp_session_types::{
    IncomingChannel, InputHandle, OutgoingChannel, OutputHandle, SessionError,
};
use std::alloc::{AllocError, Global};

impl<R: Drop> Session<R> {
    /// The state (part 2, 2.5.5).
    pub fn local_state(&self) -> SessionState
        ensures { result ≡ self.now.local_state }
    {
        self.local_state
    }

    /// The channel that the session sends on (part 2, 2.5.1).
    pub fn outgoing_channel(&self) -> OutgoingChannel
        ensures { result ≡ self.now.fields.channel }
    {
        self.fields.channel
    }

    /// The channel of the peer's Begin, once it came.
    pub fn incoming_channel(&self) -> Option<IncomingChannel>
        ensures { result ≡ self.now.incoming_channel }
    {
        self.incoming_channel
    }

    /// The number of the peer's next transfer, once its Begin came (part 2, 2.5.6).
    pub fn next_incoming_id(&self) -> Option<u32>
        ensures { result ≡ self.now.fields.next_incoming_id }
    {
        self.fields.next_incoming_id
    }

    /// The number of the next transfer to leave (part 2, 2.5.6).
    pub fn next_outgoing_id(&self) -> u32
        ensures { result ≡ self.now.outgoing.next_outgoing_id }
    {
        self.outgoing.next_outgoing_id()
    }

    /// How many transfers wait for the peer's window.
    pub fn held_back(&self) -> usize
        ensures { result ≡ held_in self.now.outgoing.queues }
    {
        self.outgoing.held_back()
    }

    /// How many frames wait: transfers, and the Flows and Detaches behind them.
    pub fn frames(&self) -> u128
        ensures { result ≡ frames_in self.now.outgoing.queues }
    {
        self.outgoing.frames()
    }

    /// How many transfers more are sure to find room, as `reserve_transfers` made it.
    pub fn transfers_room(&self) -> usize
        ensures { result ≡ self.now.outgoing.room }
    {
        self.outgoing.room()
    }

    /// Whether the number that the next delivery to begin would get is free (part 2, 2.8.6): it is no unsettled
    /// delivery's, and none of those of the deliveries that wait.
    pub fn has_free_number(&self) -> bool
        ensures { IsTrue result ↔ IsFree self.now.outgoing (firsts_in self.now.outgoing.queues) }
    {
        self.outgoing.has_free_number()
    }

    /// Whether a frame of the link waits.
    pub fn is_waiting(&self, handle: OutputHandle) -> bool
        ensures { IsTrue result ↔ (0 < length (units_of handle.0 self.now.outgoing.queues)) }
    {
        self.outgoing.is_waiting(handle)
    }

    /// The links that wait, in turn, each with how many of its transfers wait. It is refused where there is no memory
    /// for the answer.
    pub fn waiting(&self, alloc: Global) -> Result<Vec<(OutputHandle, usize)>, AllocError>
        ensures { IfOk result (λ turn. turn.items ≡ turn_of self.now.outgoing.queues) }
    {
        self.outgoing.waiting(alloc)
    }

    /// The own handle that the next link gets, which no link has (part 2, 2.6.2).
    ///
    /// It is refused with `HandleMaxReached` alone, exactly where that is above the peer's handle-max (part 2, 2.7.2).
    pub fn offered_handle(&self) -> Result<OutputHandle, SessionError>
        ensures { result ≡ offered_handle self.now }
    {
        let offered = self.links.vacant_key();
        if offered > self.handle_max as usize {
            return Err(SessionError::HandleMaxReached);
        }
        Ok(OutputHandle(offered as u32))
    }

    /// The link with this own handle, if there is one.
    pub fn link(&self, handle: OutputHandle) -> Option<&R>
        ensures { option_copied result ≡ link_at self.now handle.0 }
    {
        self.links.get(handle.0 as usize)
    }

    /// The link with this own handle, if there is one, to be changed by its owner.
    pub fn link_mut(&mut self, handle: OutputHandle) -> Option<&mut R>
        ensures* writes_back { sem 𝓛 (lends_link R.row self.entry handle.0 result) }
        ensures value { option_copied_mut result ≡ link_at self.old handle.0 }
    {
        self.links.get_mut(handle.0 as usize)
    }

    /// The own handle of the link that the peer's frames with this handle reach, if there is one (part 2, 2.6.2).
    pub fn link_by_input_handle(&self, handle: InputHandle) -> Option<OutputHandle>
        ensures { option_map (λ h. h.0) result ≡ reached self.now handle.0 }
    {
        reach(&self.routes, &self.links, handle.0)
    }
}

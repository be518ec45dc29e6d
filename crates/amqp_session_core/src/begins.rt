//! A session begins and ends.
ghost use Rattle.std.specs.Prelude.{◌≡◌, ◌+◌, ◌≤◌, None, IfOk, IfErr, OnOk, OnErr};
ghost use Rattle.std.specs.VecDeque.{deque_len, deque_capacity};
ghost use Rattle.amqp_session_outgoing.specs.Queues.{frames_in};
ghost use Rattle.amqp_session_core.specs.Refusals.{RefusesBegin};
ghost use Rattle.amqp_session_core.specs.Steps.{Step, SendsBegin, SendsEnd, TakesEnd, own_begin};
ghost use Rattle.amqp_session_core.specs.Table.{after_send_begin, after_incoming_begin, after_send_end};
ghost use Rattle.amqp_session_core.specs.Table.{after_incoming_end};
ghost use Rattle.amqp_session_core.specs.Told.{BeginTaken};

use crate::fields::OUTGOING_WINDOW;
use crate::leaving::{make_room, take_begin};
use crate::relay::LinkRelay;
use crate::session::Session;
use amqp_session_performatives::{Begin, End, SessionFrame, SessionFrameBody};
use amqp_session_types::{BeginError, IncomingChannel, SessionError, definitions};
use serde_amqp_types::Array;
use std::alloc::Global;
use std::collections::VecDeque;

impl<R: LinkRelay> Session<R> {
    /// Hands out the own Begin and moves the state on (part 2, 2.5.1, 2.7.2). Where the peer's Begin came before, it
    /// names the peer's channel. It takes no memory. It is refused with `IllegalState` where the state allows none,
    /// and nothing changes then.
    pub fn send_begin(&mut self, alloc: Global) -> Result<SessionFrame, BeginError>
        ensures ok { IfOk result (λ frame. Step R.gives self.old (SendsBegin frame) self.new) }
        ensures err { IfErr result (λ e. (e ≡ BeginError.IllegalState)
            × (after_send_begin self.old.local_state ≡ None)) }
        ensures kept { OnErr result (self.new ≡ self.old) }
    {
        let Some(next) = self.local_state.after_send_begin() else {
            return Err(BeginError::IllegalState);
        };
        self.local_state = next;
        Ok(
            self.fields
                .frame(SessionFrameBody::Begin(self.begin(alloc))),
        )
    }

    /// The own Begin.
    fn begin(&self, alloc: Global) -> Begin
        ensures { result ≡ own_begin self.now }
    {
        let remote_channel = self.incoming_channel.map(|channel| channel.0);
        Begin {
            remote_channel,
            next_outgoing_id: self.outgoing.next_outgoing_id(),
            incoming_window: self.fields.incoming_window,
            outgoing_window: OUTGOING_WINDOW,
            handle_max: u32::MAX,
            offered_capabilities: Array::new(alloc),
            desired_capabilities: Array::new(alloc),
            properties: None,
        }
    }

    /// Takes the peer's Begin: its channel, its handle-max, the number of its next transfer, and its window, which
    /// begins with the number of the next transfer here. What waits and lies in the window leaves (part 2, 2.5.6,
    /// 2.7.2).
    ///
    /// It is refused with `IllegalState` where the state allows none, and with `Memory` where there is none for what
    /// may leave. Nothing changes then.
    pub fn on_incoming_begin(
        &mut self,
        out: &mut VecDeque<SessionFrame>,
        channel: IncomingChannel,
        begin: &Begin,
    ) -> Result<(), BeginError>
        ensures ok { OnOk result (BeginTaken R.gives self.old out.old.items channel begin.now
            self.new out.new.items) }
        ensures err { IfErr result (λ e. RefusesBegin (after_incoming_begin self.old.local_state)
            e) }
        ensures kept { OnErr result ((self.new ≡ self.old) × (out.new.items ≡ out.old.items)) }
        ensures frames { OnOk result (deque_len out.new + frames_in self.new.outgoing.queues ≡
            deque_len out.old + frames_in self.old.outgoing.queues) }
        ensures capacity { deque_capacity out.old ≤ deque_capacity out.new }
        ensures kept_room { self.new.outgoing.room ≡ self.old.outgoing.room }
    {
        let Some(next) = self.local_state.after_incoming_begin() else {
            return Err(BeginError::IllegalState);
        };
        make_room(&self.outgoing, &mut self.sent, out, 0)?;
        self.local_state = next;
        self.incoming_channel = Some(channel);
        self.handle_max = begin.handle_max;
        self.fields.next_incoming_id = Some(begin.next_outgoing_id);
        let window = begin.incoming_window;
        if take_begin(self.fields, &mut self.outgoing, &mut self.sent, out, window) {
            self.taken = 0;
        }
        Ok(())
    }

    /// Hands out an End with this error, and moves the state on (part 2, 2.5.2, 2.7.8). It is refused with
    /// `IllegalState` where the state allows none, and nothing changes then.
    pub fn send_end(
        &mut self,
        error: Option<definitions::Error>,
    ) -> Result<SessionFrame, SessionError>
        ensures ok { IfOk result (λ frame. Step R.gives self.old (SendsEnd error frame) self.new) }
        ensures err { IfErr result (λ e. (e ≡ SessionError.IllegalState)
            × (after_send_end self.old.local_state ≡ None)) }
        ensures kept { OnErr result (self.new ≡ self.old) }
    {
        let Some(next) = self.local_state.after_send_end() else {
            return Err(SessionError::IllegalState);
        };
        self.local_state = next;
        Ok(self.fields.frame(SessionFrameBody::End(End { error })))
    }

    /// Takes the peer's End, and moves the state on (part 2, 2.5.2). It is refused with `IllegalState` where the state
    /// allows none, and nothing changes then.
    pub fn on_incoming_end(&mut self) -> Result<(), SessionError>
        ensures ok { OnOk result (Step R.gives self.old TakesEnd self.new) }
        ensures err { IfErr result (λ e. (e ≡ SessionError.IllegalState)
            × (after_incoming_end self.old.local_state ≡ None)) }
        ensures kept { OnErr result (self.new ≡ self.old) }
    {
        let Some(next) = self.local_state.after_incoming_end() else {
            return Err(SessionError::IllegalState);
        };
        self.local_state = next;
        Ok(())
    }
}

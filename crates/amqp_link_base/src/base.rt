//! A link as both of its ends keep it.
ghost use Rattle.std.specs.Prelude.{◌≡◌, None, Some, IfOk};
ghost use Rattle.amqp_link_base.specs.declared.state.LinkState.TheVariants.{Unattached};
ghost use Rattle.amqp_link_base.specs.State.{is_attached};
ghost use Rattle.amqp_link_base.specs.Moves.{Moves, broken_off, is_closed, sent_attach, sent_detach, took_attach};
ghost use Rattle.amqp_link_base.specs.Moves.{took_detach};
ghost use Rattle.amqp_link_base.specs.Own.{bound, handle_of, own_attach};

use crate::values::{both, put};
use crate::{LinkState, Terms};
use amqp_session_performatives::Attach;
use amqp_session_states::{Source, TargetArchetype};
use amqp_session_types::{
    Boxed, Fields, Handle, InputHandle, OutputHandle, Role, SessionStopReason,
};
use serde_amqp_types::{Array, Text};
use std::alloc::{AllocError, Global};
use thiserror::Error;

/// What both ends of a link keep of it (part 2, 2.6).
#[derive(Debug)]
pub struct LinkBase {
    /// The link's name (part 2, 2.6.1).
    pub name: Text,
    /// Where the link stands between its Attach and its Detach frames (part 2, 2.6.3 to 2.6.6).
    pub local_state: LinkState,
    /// The handle that the peer gave it, while it is attached.
    pub input_handle: Option<InputHandle>,
    /// The handle that was given here, while it is attached.
    pub output_handle: Option<OutputHandle>,
    /// Its termini, its settle modes and the largest message.
    pub terms: Boxed<Terms>,
    /// The properties that the link was made with: they stand in each own Attach.
    pub given_properties: Option<Boxed<Fields>>,
    /// Why the link's session stopped, once it did.
    pub session_stop_reason: Option<Boxed<SessionStopReason>>,
}

impl Drop for LinkBase {
    fn drop(self) {
        let LinkBase {
            name: _,
            local_state: _,
            input_handle: _,
            output_handle: _,
            terms: _,
            given_properties: _,
            session_stop_reason: _,
        } = self;
    }
}

/// The state of a link doesn't allow a frame.
#[derive(Debug, Clone, Copy, PartialEq, Eq, Error)]
#[error("illegal state of the link")]
pub struct IllegalState;

/// A name, properties, and the termini of a link.
type Parts = (
    (Text, Option<Boxed<Fields>>),
    (Option<Source>, Option<TargetArchetype>),
);

impl LinkBase {
    /// A link that was never attached.
    pub fn new(name: Text, terms: Boxed<Terms>, given_properties: Option<Boxed<Fields>>) -> Self
        ensures { result ≡ record {
          name = name;
          local_state = Unattached;
          input_handle = None;
          output_handle = None;
          terms = terms;
          given_properties = given_properties;
          session_stop_reason = None;
        } }
    {
        LinkBase {
            name,
            local_state: LinkState::Unattached,
            input_handle: None,
            output_handle: None,
            terms,
            given_properties,
            session_stop_reason: None,
        }
    }

    /// The own Attach under this own handle, without its list of unsettled deliveries (part 2, 2.7.3). It is refused
    /// where there is no memory for it.
    pub fn attach_frame(
        &self,
        alloc: Global,
        handle: OutputHandle,
        role: Role,
        initial_delivery_count: u32,
    ) -> Result<Attach, AllocError>
        ensures { IfOk result (λ a. a ≡ own_attach self.now handle role initial_delivery_count) }
    {
        let ((name, properties), (source, target)) = self.clone_parts()?;
        Ok(Attach {
            name,
            handle: Handle(handle.0),
            role,
            snd_settle_mode: self.terms.snd_settle_mode,
            rcv_settle_mode: self.terms.rcv_settle_mode,
            source,
            target,
            unsettled: None,
            incomplete_unsettled: false,
            initial_delivery_count: Some(initial_delivery_count),
            max_message_size: self.max_message_size(),
            offered_capabilities: Array::new(alloc),
            desired_capabilities: Array::new(alloc),
            properties,
        })
    }

    /// Whether both Attach were exchanged, and neither Detach was.
    pub fn is_attached(&self) -> bool
        ensures { result ≡ is_attached self.now.local_state }
    {
        self.local_state.is_attached()
    }

    /// Whether the link is closed (part 2, 2.6.6).
    pub fn is_closed(&self) -> bool
        ensures { result ≡ is_closed self.now.local_state }
    {
        matches!(self.local_state, LinkState::Closed)
    }

    /// The own handle, which a link has while it is attached, and else 0.
    pub fn own_handle(&self) -> OutputHandle
        ensures { result ≡ handle_of self.now.output_handle }
    {
        match self.output_handle {
            Some(handle) => handle,
            None => OutputHandle(0),
        }
    }

    /// The size of the largest message, in bytes; None for no bound (part 2, 2.7.3).
    pub fn max_message_size(&self) -> Option<u64>
        ensures { result ≡ bound self.now.terms.max_message_size }
    {
        bound(self.terms.max_message_size)
    }

    /// The own Attach is sent, which lists all unsettled deliveries or only a part of them (part 2, 2.6.3).
    ///
    /// Errors: `IllegalState` exactly where the state doesn't allow it. Nothing changes then.
    pub fn send_attach(&mut self, incomplete: bool) -> Result<(), IllegalState>
        ensures { Moves (sent_attach self.old incomplete) self.old result self.new }
    {
        let Some(state) = self.local_state.send_attach(incomplete) else {
            return Err(IllegalState);
        };
        self.local_state = state;
        Ok(())
    }

    /// The peer's Attach comes: its handle stands for the link in the peer's frames from now on (part 2, 2.6.3).
    ///
    /// Errors: `IllegalState` exactly where the state doesn't allow it. Nothing changes then.
    pub fn on_incoming_attach(&mut self, attach: &Attach) -> Result<(), IllegalState>
        ensures { Moves (took_attach self.old attach.now) self.old result self.new }
    {
        let incomplete = attach.incomplete_unsettled;
        let Some(state) = self.local_state.on_incoming_attach(incomplete) else {
            return Err(IllegalState);
        };
        self.local_state = state;
        self.input_handle = Some(InputHandle(attach.handle.0));
        Ok(())
    }

    /// The link is in this state from now on, this handle of the peer's stands for it, and its terms are these.
    pub fn adopt(&mut self, handle: InputHandle, state: LinkState, terms: Boxed<Terms>)
        ensures { self.new ≡ record self.old {
          local_state = state;
          input_handle = Some handle;
          terms = terms;
        } }
    {
        self.local_state = state;
        self.input_handle = Some(handle);
        put(&mut self.terms, terms);
    }

    /// The own Detach is sent, which closes the link or doesn't (part 2, 2.6.5 and 2.6.6).
    ///
    /// Errors: `IllegalState` exactly where the state doesn't allow it. Nothing changes then.
    pub fn send_detach(&mut self, closed: bool) -> Result<(), IllegalState>
        ensures { Moves (sent_detach self.old closed) self.old result self.new }
    {
        let Some(state) = self.local_state.send_detach(closed) else {
            return Err(IllegalState);
        };
        self.local_state = state;
        Ok(())
    }

    /// The peer's Detach comes, which closes the link or doesn't, by itself or across the own one: its handle stands for
    /// the link no longer (part 2, 2.6.5 and 2.6.6).
    ///
    /// Errors: `IllegalState` exactly where the state doesn't allow it. Nothing changes then.
    pub fn on_incoming_detach(&mut self, closed: bool) -> Result<(), IllegalState>
        ensures { Moves (took_detach self.old closed) self.old result self.new }
    {
        let Some(state) = self.local_state.apply_remote_detach(closed) else {
            return Err(IllegalState);
        };
        self.local_state = state;
        self.input_handle = None;
        Ok(())
    }

    /// The connection or the session is over: no handle stands for the link any more, and it is detached, or closed where
    /// its closing Detach was sent (part 2, 2.6.5).
    pub fn break_off(&mut self)
        ensures { self.new ≡ broken_off self.old }
    {
        self.local_state = self.local_state.after_break();
        self.input_handle = None;
        self.output_handle = None;
    }

    /// Clones of what isn't copied.
    fn clone_parts(&self) -> Result<Parts, AllocError>
        ensures { IfOk result (λ c. ((c.0.0 ≡ self.now.name) × (c.0.1 ≡ self.now.given_properties))
            × ((c.1.0 ≡ self.now.terms.source) × (c.1.1 ≡ self.now.terms.target))) }
    {
        both(self.clone_name(), self.clone_termini())
    }

    /// Clones of the name and the properties.
    fn clone_name(&self) -> Result<(Text, Option<Boxed<Fields>>), AllocError>
        ensures { IfOk result (λ c. (c.0 ≡ self.now.name) × (c.1 ≡ self.now.given_properties)) }
    {
        Ok((self.name.clone()?, self.given_properties.clone()?))
    }

    /// Clones of the termini.
    fn clone_termini(&self) -> Result<(Option<Source>, Option<TargetArchetype>), AllocError>
        ensures { IfOk result (λ c. (c.0 ≡ self.now.terms.source) × (c.1 ≡ self.now.terms.target)) }
    {
        let target = self.terms.target.clone()?;
        Ok((self.terms.source.clone()?, target))
    }
}

/// A largest message as an Attach tells it, 0 being no bound.
fn bound(max_message_size: u64) -> Option<u64>
    ensures { result ≡ bound max_message_size }
{
    if max_message_size == 0 {
        return None;
    }
    Some(max_message_size)
}

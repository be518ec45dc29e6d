//! A session that the peer asks for.
ghost use Rattle.std.specs.Prelude.{◌≡◌, None};
ghost use Rattle.amqp_endpoint_links.specs.AskedSession.{session_told, flow_of, asked_by, is_for_asked, AttachAnswered};
ghost use Rattle.amqp_endpoint_links.specs.AskedSession.{FlowAnswered, DetachAnswered};

use crate::links::{AskRefusal, AskedLinks};
use amqp_session_performatives::{Attach, Begin, Detach, Flow};
use amqp_session_types::{Boxed, Handle, InputHandle, SessionError};
use std::alloc::Global;

/// What a Flow tells of its session (part 2, 2.5.6).
#[derive(Debug, Clone, Copy, PartialEq, Eq)]
pub struct SessionFlow {
    /// The number of the next transfer that the peer awaits. It is absent before the own Begin came there.
    pub next_incoming_id: Option<u32>,
    /// How many transfers the peer takes now.
    pub incoming_window: u32,
    /// The number of the next transfer that the peer will send.
    pub next_outgoing_id: u32,
    /// How many transfers the peer may send.
    pub outgoing_window: u32,
}

impl SessionFlow {
    /// What this Flow tells of its session.
    pub fn told_by(flow: &Flow) -> Self
        ensures { result ≡ session_told flow.now }
    {
        SessionFlow {
            next_incoming_id: flow.next_incoming_id,
            incoming_window: flow.incoming_window,
            next_outgoing_id: flow.next_outgoing_id,
            outgoing_window: flow.outgoing_window,
        }
    }

    /// The Flow that tells this alone: nothing of a link, and without an echo.
    pub fn into_flow(self) -> Flow
        ensures { result ≡ flow_of self }
    {
        Flow {
            next_incoming_id: self.next_incoming_id,
            incoming_window: self.incoming_window,
            next_outgoing_id: self.next_outgoing_id,
            outgoing_window: self.outgoing_window,
            handle: None,
            delivery_count: None,
            link_credit: None,
            available: None,
            drain: false,
            echo: false,
            properties: None,
        }
    }
}

/// A session that the peer asks for: its Begin without a remote channel came, and no session here accepts it yet (part
/// 2, 2.5.1).
#[derive(Debug, Drop)]
pub struct AskedSession {
    /// The peer's Begin.
    pub begin: Begin,
    /// What the latest Flow told of the session, if one came.
    pub flow: Option<SessionFlow>,
    /// The links that the peer asks for in the session.
    pub links: AskedLinks,
}

impl AskedSession {
    /// A session that the peer asks for with this Begin. It takes no memory.
    pub fn new(alloc: Global, begin: Begin) -> Self
        ensures { result ≡ asked_by begin }
    {
        AskedSession {
            begin,
            flow: None,
            links: AskedLinks::new(alloc),
        }
    }

    /// Takes the peer's Attach (part 2, 2.6.3): it asks for a link.
    ///
    /// It is refused with `HandleInUse` where an asked link has the handle (part 2, 2.8.17), with `NameInUse` where
    /// one has the name, and with `Memory`. Nothing changes then.
    pub fn on_incoming_attach(&mut self, attach: Boxed<Attach>) -> Result<(), AskRefusal>
        ensures { AttachAnswered self.old attach result self.new }
    {
        self.links.ask(attach)
    }

    /// Takes a Flow (part 2, 2.7.4) without a handle, or with that of an asked link: what it tells of the session is
    /// kept in place of what an earlier one told, and so is what it tells of the link. It takes no memory.
    ///
    /// It is refused with `UnattachedHandle` alone, exactly where its handle is that of no asked link (part 2, 2.8.17),
    /// and nothing changes then.
    pub fn on_incoming_flow(&mut self, flow: Flow) -> Result<(), SessionError>
        ensures { FlowAnswered self.old flow result self.new }
    {
        if !self.is_for_asked(flow.handle) {
            return Err(SessionError::UnattachedHandle);
        }
        self.flow = Some(SessionFlow::told_by(&flow));
        self.links.keep(flow);
        Ok(())
    }

    /// Takes a Detach (part 2, 2.6.5): the peer asks for the link with its handle no longer. It takes no memory.
    ///
    /// It is refused with `UnattachedHandle` alone, exactly where its handle is that of no asked link (part 2, 2.8.17),
    /// and nothing changes then.
    pub fn on_incoming_detach(&mut self, detach: &Detach) -> Result<(), SessionError>
        ensures { DetachAnswered self.old detach.now result self.new }
    {
        let input = InputHandle(detach.handle.0);
        if self.links.get(input).is_none() {
            return Err(SessionError::UnattachedHandle);
        }
        let _ = self.links.withdraw(input);
        Ok(())
    }

    /// Whether a Flow with this handle is for the session or an asked link.
    fn is_for_asked(&self, handle: Option<Handle>) -> bool
        ensures { result ≡ is_for_asked self.now.links handle }
    {
        handle.is_none() | self.links.is_asked(handle)
    }
}

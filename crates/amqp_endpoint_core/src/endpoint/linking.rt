//! The calls of links.
ghost use Rattle.std.specs.Prelude.{◌≡◌, IfErr, IfOk, OnOk};
ghost use Rattle.amqp_endpoint_model.specs.Said.{attaching, credit_is, done, link_closed};
ghost use Rattle.amqp_endpoint_model.specs.Step.{IsRefused, SessionsDo};
ghost use Rattle.amqp_endpoint_model.specs.declared.call.Call.{Call};

use super::Endpoint;
use amqp_endpoint_model::{Attaching, EndpointError, Event, LinkSettings, SessionRelay};

impl<S: SessionRelay> Endpoint<S> {
    /// Attaches a link as its sending end in the session with this number: its Attach is queued (part 2, 2.6.3, 2.7.3).
    /// Answers the number that the link has from now on, and what comes of it at once: Attached where the peer asked
    /// for the link before.
    ///
    /// `UnknownSession` where no session has the number, then `IllegalState` where it isn't mapped, then
    /// `DuplicatedLinkName` where a link here has the name, then `HandleMaxReached` where no handle is left that the
    /// peer takes (part 2, 2.7.2), then `Link` where the peer's Attach can't be answered, then `FrameTooLarge` where the
    /// Attach is longer than the peer takes. `Memory` where there is no memory, in place of none of these but
    /// `FrameTooLarge`, and `Link` where that lists filters. A refusal changes nothing. Exactly when each comes say the
    /// sessions (`bars` of their relations): those that attach no link answer `IllegalState` in every session that
    /// there is, and `UnknownLink` of every link.
    pub fn attach_sender(
        &mut self,
        session: u64,
        settings: &LinkSettings,
    ) -> Result<Attaching, EndpointError>
        ensures ok { IfOk result (λ a. SessionsDo S.does self.old (Call.AttachSender session settings.now)
            (attaching a.link a.events.items) self.new) }
        ensures err { IfErr result (λ e.
            IsRefused S.does self.old (Call.AttachSender session settings.now) e × (self.new ≡ self.old)) }
    {
        let limit = self.limit();
        let attaching = self
            .sessions
            .attach_sender(self.alloc, limit, session, settings, &mut self.out)?;
        Ok(attaching)
    }

    /// Attaches a link as its receiving end in the session with this number, as `attach_sender` does as its sending end
    /// (part 2, 2.6.3, 2.7.3). It is refused for the same.
    pub fn attach_receiver(
        &mut self,
        session: u64,
        settings: &LinkSettings,
    ) -> Result<Attaching, EndpointError>
        ensures ok { IfOk result (λ a. SessionsDo S.does self.old (Call.AttachReceiver session settings.now)
            (attaching a.link a.events.items) self.new) }
        ensures err { IfErr result (λ e.
            IsRefused S.does self.old (Call.AttachReceiver session settings.now) e × (self.new ≡ self.old)) }
    {
        let limit = self.limit();
        let attaching = self
            .sessions
            .attach_receiver(self.alloc, limit, session, settings, &mut self.out)?;
        Ok(attaching)
    }

    /// Attaches the link with this number again, which is at rest, in the session with that number: its Attach is
    /// queued, and lists what it kept unsettled (part 2, 2.6.3, 2.6.13, 2.7.3). Answers the link's number, and what
    /// comes of it at once, as `attach_sender` does.
    ///
    /// `UnknownLink` where no link has the number, then `UnknownSession` where no session has that number, then
    /// `IllegalState` where it isn't mapped or the link isn't at rest, then `HandleMaxReached` where no handle is
    /// left that the peer takes (part 2, 2.7.2), then `Link` where the peer's Attach can't be answered, then
    /// `FrameTooLarge` where the Attach is longer than the peer takes. `Memory` where there is no memory, in place of
    /// none of these but `FrameTooLarge`, and `Link` where that lists filters. A refusal changes nothing: the link is
    /// at rest, as it was.
    pub fn resume(&mut self, link: u64, session: u64) -> Result<Attaching, EndpointError>
        ensures ok { IfOk result (λ a. SessionsDo S.does self.old (Call.Resume link session)
            (attaching a.link a.events.items) self.new) }
        ensures err { IfErr result (λ e.
            IsRefused S.does self.old (Call.Resume link session) e × (self.new ≡ self.old)) }
    {
        let limit = self.limit();
        let attaching = self
            .sessions
            .resume(self.alloc, limit, link, session, &mut self.out)?;
        Ok(attaching)
    }

    /// Detaches the link with this number, which keeps what is unsettled and can be resumed: its Detach is queued, or
    /// waits behind the link's transfers (part 2, 2.6.5, 2.7.7).
    ///
    /// `UnknownLink` where no link has the number, then `IllegalState` where it isn't attached. `Memory` where there is
    /// no memory. A refusal changes nothing.
    pub fn detach(&mut self, link: u64) -> Result<(), EndpointError>
        ensures ok { OnOk result (SessionsDo S.does self.old (Call.Detach link) done self.new) }
        ensures err { IfErr result (λ e. IsRefused S.does self.old (Call.Detach link) e
            × (self.new ≡ self.old)) }
    {
        let limit = self.limit();
        self.sessions
            .detach(self.alloc, limit, link, &mut self.out)?;
        Ok(())
    }

    /// Closes the link with this number: its closing Detach is queued, or waits behind the link's transfers; where it
    /// is detached at both ends none is sent, and no link has the number any more (part 2, 2.6.6, 2.7.7). Answers the
    /// outcomes that this fails.
    ///
    /// `UnknownLink` where no link has the number, then `IllegalState` where it is neither attached nor detached.
    /// `Memory` where there is no memory. A refusal changes nothing.
    pub fn close_link(&mut self, link: u64) -> Result<Vec<Event>, EndpointError>
        ensures ok { IfOk result (λ events.
            SessionsDo S.does self.old (Call.CloseLink link) (link_closed events.items) self.new) }
        ensures err { IfErr result (λ e. IsRefused S.does self.old (Call.CloseLink link) e
            × (self.new ≡ self.old)) }
    {
        let limit = self.limit();
        let events = self
            .sessions
            .close_link(self.alloc, limit, link, &mut self.out)?;
        Ok(events)
    }

    /// Grants the sender of the link with this number so many messages from now on: a Flow is queued (part 2, 2.6.7,
    /// 2.7.4). Answers the credit that was left before.
    ///
    /// `UnknownLink` where no link has the number, then `IllegalState` where it sends or isn't attached, then
    /// `CreditOutOfRange` above 2,147,483,647. `Memory` where there is no memory. A refusal changes nothing.
    pub fn grant(&mut self, link: u64, credit: u32) -> Result<u32, EndpointError>
        ensures ok { IfOk result (λ left.
            SessionsDo S.does self.old (Call.Grant link credit) (credit_is left) self.new) }
        ensures err { IfErr result (λ e.
            IsRefused S.does self.old (Call.Grant link credit) e × (self.new ≡ self.old)) }
    {
        let limit = self.limit();
        let left = self
            .sessions
            .grant(self.alloc, limit, link, credit, &mut self.out)?;
        Ok(left)
    }

    /// Asks the sender of the link with this number to use its credit up now: a Flow is queued (part 2, 2.6.7, 2.7.4).
    ///
    /// `UnknownLink` where no link has the number, then `IllegalState` where it sends or isn't attached. `Memory` where
    /// there is no memory. A refusal changes nothing.
    pub fn drain(&mut self, link: u64) -> Result<(), EndpointError>
        ensures ok { OnOk result (SessionsDo S.does self.old (Call.Drain link) done self.new) }
        ensures err { IfErr result (λ e. IsRefused S.does self.old (Call.Drain link) e
            × (self.new ≡ self.old)) }
    {
        let limit = self.limit();
        self.sessions.drain(self.alloc, limit, link, &mut self.out)?;
        Ok(())
    }
}

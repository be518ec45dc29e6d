//! The calls of sessions.
ghost use Rattle.std.specs.Prelude.{◌≡◌, IfErr, IfOk, OnErr, OnOk};
ghost use Rattle.amqp_endpoint_model.specs.Said.{done, refusal_in, session_begun, tried_end};
ghost use Rattle.amqp_endpoint_model.specs.Step.{IsRefused, SessionsDo};
ghost use Rattle.amqp_endpoint_model.specs.declared.call.Call.{Call};

use super::Endpoint;
use amqp_endpoint_model::{EndpointError, SessionRelay};
use amqp_session_types::{IncomingChannel, TryEndError};

impl<S: SessionRelay> Endpoint<S> {
    /// Begins a session: its Begin is queued (part 2, 2.5.1, 2.7.2). Answers the number that it has from now on.
    ///
    /// `NotConnected` unless both Open were exchanged and no Close of either end went, then `LocalChannelMaxReached` where
    /// no channel is left that the peer takes (part 2, 2.7.1). `Memory` where there is no memory. A refusal changes
    /// nothing.
    pub fn begin(&mut self) -> Result<u64, EndpointError>
        ensures ok { IfOk result (λ number.
            SessionsDo S.does self.old Call.Begin (session_begun number) self.new) }
        ensures err { IfErr result (λ e. IsRefused S.does self.old Call.Begin e
            × (self.new ≡ self.old)) }
    {
        if !self.goes_on() {
            return Err(EndpointError::NotConnected);
        }
        let limit = self.limit();
        let number = self.sessions.begin(self.alloc, limit, &mut self.out)?;
        Ok(number)
    }

    /// Accepts the session that the peer asks for on this channel of its: the Begin that answers is queued (part 2,
    /// 2.5.1, 2.7.2). Answers the session's number.
    ///
    /// `NotConnected` unless both Open were exchanged and no Close of either end went, then `NotAsked` where no session
    /// is asked for on the channel, then `LocalChannelMaxReached` where no channel is left that the peer takes (part 2,
    /// 2.7.1). `Memory` where there is no memory. A refusal changes nothing.
    pub fn accept_begin(&mut self, channel: IncomingChannel) -> Result<u64, EndpointError>
        ensures ok { IfOk result (λ number.
            SessionsDo S.does self.old (Call.AcceptBegin channel) (session_begun number) self.new) }
        ensures err { IfErr result (λ e.
            IsRefused S.does self.old (Call.AcceptBegin channel) e × (self.new ≡ self.old)) }
    {
        if !self.goes_on() {
            return Err(EndpointError::NotConnected);
        }
        let limit = self.limit();
        let number = self
            .sessions
            .accept_begin(self.alloc, limit, channel, &mut self.out)?;
        Ok(number)
    }

    /// Ends the session with this number: its End is queued, without an error (part 2, 2.5.2, 2.7.8).
    ///
    /// `UnknownSession` where no session has the number, then `IllegalState` where it isn't mapped. `Memory` where
    /// there is no memory. A refusal changes nothing.
    pub fn end(&mut self, session: u64) -> Result<(), EndpointError>
        ensures ok { OnOk result (SessionsDo S.does self.old (Call.End session) done self.new) }
        ensures err { IfErr result (λ e. IsRefused S.does self.old (Call.End session) e
            × (self.new ≡ self.old)) }
    {
        let limit = self.limit();
        self.sessions.end(limit, session, &mut self.out)?;
        Ok(())
    }

    /// Ok once, after the peer's End of the session with this number came (part 2, 2.5.2).
    ///
    /// `RemoteEndNotReceived` where it hasn't come, or no session has the number, `AlreadyEnded` where an Ok told of it
    /// before. A refusal changes nothing.
    pub fn try_end(&mut self, session: u64) -> Result<(), TryEndError>
        ensures done { SessionsDo S.does self.old (Call.TryEnd session)
            (tried_end (refusal_in result)) self.new }
        ensures kept { OnErr result (self.new ≡ self.old) }
    {
        self.sessions.try_end(session)
    }
}

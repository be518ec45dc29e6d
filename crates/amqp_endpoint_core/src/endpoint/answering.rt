//! The calls that only ask.
ghost use Rattle.std.specs.Prelude.{◌≡◌, IfErr, IfOk};
ghost use Rattle.amqp_endpoint_model.specs.Said.{count, credit_is, truth, waiting};
ghost use Rattle.amqp_endpoint_model.specs.Step.{IsRefused, SessionsAnswer};
ghost use Rattle.amqp_endpoint_model.specs.declared.call.Call.{Call};

use super::Endpoint;
use amqp_endpoint_model::{EndpointError, SessionRelay};

impl<S: SessionRelay> Endpoint<S> {
    /// Whether both End of the session with this number went, or its connection is over. False where no session has the
    /// number (part 2, 2.5.2).
    pub fn is_ended(&self, session: u64) -> bool
        ensures { SessionsAnswer S.does self.now (Call.IsEnded session) (truth result) self.now }
    {
        self.sessions.is_ended(session)
    }

    /// How many messages may still go on the link with this number (part 2, 2.6.7).
    ///
    /// `UnknownLink` where no link has the number.
    pub fn credit(&self, link: u64) -> Result<u32, EndpointError>
        ensures ok { IfOk result (λ left. SessionsAnswer S.does self.now (Call.Credit link)
            (credit_is left) self.now) }
        ensures err { IfErr result (λ e. IsRefused S.does self.now (Call.Credit link) e) }
    {
        self.sessions.credit(link)
    }

    /// How many transfers wait in the session with this number for the peer's window (part 2, 2.5.6).
    ///
    /// `UnknownSession` where no session has the number.
    pub fn held_back(&self, session: u64) -> Result<usize, EndpointError>
        ensures ok { IfOk result (λ n. SessionsAnswer S.does self.now (Call.HeldBack session)
            (count n) self.now) }
        ensures err { IfErr result (λ e. IsRefused S.does self.now (Call.HeldBack session) e) }
    {
        self.sessions.held_back(session)
    }

    /// The links of which transfers wait in the session with this number, in turn, each with how many. Their sum is
    /// what `held_back` answers.
    ///
    /// `UnknownSession` where no session has the number. `Memory` where there is no memory for the answer.
    pub fn waiting(&self, session: u64) -> Result<Vec<(u64, u64)>, EndpointError>
        ensures ok { IfOk result (λ turn.
            SessionsAnswer S.does self.now (Call.Waiting session) (waiting turn.items) self.now) }
        ensures err { IfErr result (λ e. IsRefused S.does self.now (Call.Waiting session) e) }
    {
        self.sessions.waiting(self.alloc, session)
    }
}

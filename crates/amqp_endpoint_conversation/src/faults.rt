//! How sessions end by their faults (part 2, 2.5.2).
ghost use Rattle.std.specs.Prelude.{◌≡◌, IfOk, IfErr, OnErr, Some};
ghost use Rattle.amqp_endpoint_conversation.specs.Ending.{EndsHere};
ghost use Rattle.amqp_endpoint_conversation.specs.Faults.{RefusesFail, condition_of, fault_error};

use crate::conversation::Conversation;
use amqp_endpoint_links::AskingSession;
use amqp_session_core::LinkRelay;
use amqp_session_performatives::SessionFrame;
use amqp_session_types::{SessionError, definitions};
use serde_amqp_types::Symbol;
use std::alloc::{AllocError, Global};
use std::collections::VecDeque;

impl<R: LinkRelay> Conversation<R> {
    /// Ends the session with this number by its fault, whatever its state: hands out its End, whose error says the
    /// fault's condition (part 2, 2.8.15, 2.8.17), and the session itself, whose links are the caller's. It is ending
    /// then, as behind `end`.
    ///
    /// It is refused with `IllegalState` where no session with this number has begun, or it is ending or over, and with
    /// `Memory`. Nothing changes then.
    pub fn fail(
        &mut self,
        alloc: Global,
        out: &mut VecDeque<SessionFrame>,
        number: u64,
        fault: &SessionError,
    ) -> Result<Box<AskingSession<R>>, SessionError>
        ensures ok { IfOk result (λ session.
            EndsHere self.old out.old.items number (Some (fault_error fault.now)) session self.new out.new.items) }
        ensures err { IfErr result (RefusesFail self.old number) }
        ensures kept { OnErr result ((self.new ≡ self.old) × (out.new.items ≡ out.old.items)) }
    {
        if self.sessions.live(number).is_none() {
            return Err(SessionError::IllegalState);
        }
        let Ok(error) = fault_error(alloc, fault) else {
            return Err(SessionError::Memory);
        };
        match self.end_live(out, number, Some(error)) {
            Ok(session) => Ok(session),
            Err(_) => Err(SessionError::Memory),
        }
    }
}

/// The error of an End by this fault (part 2, 2.8.14).
fn fault_error(alloc: Global, fault: &SessionError) -> Result<definitions::Error, AllocError>
    ensures { IfOk result (λ e. e ≡ fault_error fault.now) }
{
    Ok(definitions::Error {
        condition: Symbol::new(String::from_str(alloc, condition_of(fault))?),
        description: None,
        info: None,
    })
}

/// What an End by this fault says (part 2, 2.8.15, 2.8.17).
fn condition_of(fault: &SessionError) -> &'static str
    ensures { result.now ≡ condition_of fault.now }
{
    match fault {
        SessionError::UnattachedHandle => "amqp:session:unattached-handle",
        SessionError::HandleInUse => "amqp:session:handle-in-use",
        _ => "amqp:not-allowed",
    }
}

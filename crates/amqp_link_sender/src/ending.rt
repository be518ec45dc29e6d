//! How an attachment of a sending link ends (part 2, 2.6.4 to 2.6.6).
ghost use Rattle.std.specs.Prelude.{◌≡◌, OnOk, OnErr};
ghost use Rattle.amqp_link_sender.specs.Sending.{MovesLink};
ghost use Rattle.amqp_link_sender.specs.Ending.{broken, closed_at_rest, TakesDetach, detach_sent, detach_taken, ended};
ghost use Rattle.amqp_link_sender.specs.Ending.{why_closed, given_error, error_kept};

use crate::link::SenderLink;
use amqp_link_base::{Detached, IllegalState};
use amqp_link_unsettled::{Failure, Messages};
use amqp_session_types::{Boxed, definitions};
use std::alloc::{AllocError, Global};

/// Why the peer's Detach isn't taken. The link is as before.
#[derive(Debug, Clone, Copy, PartialEq, Eq)]
pub enum DetachRefusal {
    /// The link's state does not allow it.
    IllegalState,
    /// There was no memory for the peer's error.
    Memory,
}

impl From<IllegalState> for DetachRefusal {
    ghost use Rattle.amqp_link_sender.specs.declared.ending.DetachRefusal.TheVariants.{IllegalState};

    ghost from_gives = { λ _ e. e ≡ IllegalState };

    fn from(_error: IllegalState) -> Self {
        DetachRefusal::IllegalState
    }
}

impl From<AllocError> for DetachRefusal {
    ghost use Rattle.amqp_link_sender.specs.declared.ending.DetachRefusal.TheVariants.{Memory};

    ghost from_gives = { λ _ e. e ≡ Memory };

    fn from(_error: AllocError) -> Self {
        DetachRefusal::Memory
    }
}

impl SenderLink {
    /// The own Detach is sent, which closes the link or doesn't: where it closes it, the open messages end without an
    /// outcome (part 2, 2.6.5 and 2.6.6). It takes no memory.
    ///
    /// Errors: `IllegalState` exactly where the state doesn't allow it. Nothing changes then.
    pub fn send_detach(&mut self, closed: bool) -> Result<(), IllegalState>
        ensures { MovesLink (detach_sent self.old closed) self.old result self.new }
    {
        self.base.send_detach(closed)?;
        end(&mut self.messages, closed, Failure::Closed);
        Ok(())
    }

    /// Takes the peer's Detach, which closes the link or doesn't, by itself or across the own one: where it closes it, the
    /// open messages end without an outcome, and its error is kept (part 2, 2.6.4 to 2.6.6).
    ///
    /// Errors: `IllegalState` exactly where the state doesn't allow it; `Memory` where there is none for the error. Nothing
    /// changes then.
    pub fn on_incoming_detach(
        &mut self,
        alloc: Global,
        closed: bool,
        error: &Option<definitions::Error>,
    ) -> Result<Detached, DetachRefusal>
        ensures { TakesDetach (detach_taken self.old closed error.now) self.old result self.new }
    {
        if self.base.local_state.apply_remote_detach(closed).is_none() {
            return Err(DetachRefusal::IllegalState);
        }
        let answer = self.base.is_attached();
        keep(alloc, &mut self.remote_error, closed, error)?;
        self.base.on_incoming_detach(closed)?;
        end(&mut self.messages, closed, why_closed(error));
        Ok(Detached {
            closed: self.base.is_closed(),
            answer,
        })
    }

    /// The connection or the session is over: the link is detached, or closed where its closing Detach was sent, and nothing
    /// is sent on any more. The messages stay open, unless the link is closed. It takes no memory.
    pub fn on_break(&mut self)
        ensures { self.new ≡ broken self.old }
    {
        self.base.break_off();
        let closed = self.base.is_closed();
        end(&mut self.messages, closed, Failure::Closed);
    }

    /// The link is closed while it is at rest, without a frame: its open messages end without an outcome (part 2,
    /// 2.6.6). It takes no memory.
    pub fn close_at_rest(&mut self)
        ensures { self.new ≡ closed_at_rest self.old }
    {
        self.messages.fail(Failure::Closed);
    }
}

/// Nothing is sent on any more; where the link is gone, its messages end without an outcome.
fn end(messages: &mut Messages, gone: bool, why: Failure)
    ensures { messages.new ≡ ended messages.old gone why }
{
    if gone {
        messages.fail(why);
    } else {
        messages.interrupt();
    }
}

/// Why the messages of a link that the peer closes have no outcome.
fn why_closed(error: &Option<definitions::Error>) -> Failure
    ensures { result ≡ why_closed error.now }
{
    match error {
        None => Failure::RemoteClosed,
        Some(_) => Failure::RemoteClosedWithError,
    }
}

/// Keeps the error of a Detach that closes the link, if it has one. Where there is no memory for it nothing changes.
fn keep(
    alloc: Global,
    kept: &mut Option<Boxed<definitions::Error>>,
    closed: bool,
    error: &Option<definitions::Error>,
) -> Result<(), AllocError>
    ensures ok { OnOk result (kept.new ≡ error_kept (given_error closed error.now) kept.old) }
    ensures err { OnErr result (kept.new ≡ kept.old) }
{
    if !closed {
        return Ok(());
    }
    let Some(error) = error else {
        return Ok(());
    };
    let error = Boxed::new(alloc, error.clone()?)?;
    *kept = Some(error);
    Ok(())
}

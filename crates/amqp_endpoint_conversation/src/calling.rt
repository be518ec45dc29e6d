//! How sessions begin and end here (part 2, 2.5.1, 2.5.2).
ghost use Rattle.std.specs.Prelude.{◌≡◌, ℕ, Some, IfErr, IfOk, OnErr};
ghost use Rattle.amqp_session_frames.specs.Steps.{RefusesSession};
ghost use Rattle.amqp_endpoint_conversation.specs.Beginning.{AcceptsHere, BeginsHere, RefusesAccept};
ghost use Rattle.amqp_endpoint_conversation.specs.Ending.{EndsHere, RefusesEnd};
ghost use Rattle.amqp_endpoint_conversation.specs.Faults.{RefusesFail, fault_error};
ghost use Rattle.amqp_endpoint_fitting.specs.Plain.{IsPlainEnd};
ghost use Rattle.amqp_endpoint_conversation.specs.Going.{Goes, Rests};

use crate::{AcceptRefusal, Conversation};
use amqp_endpoint_fitting::frames_are_read;
use amqp_endpoint_links::AskingSession;
use amqp_session_core::LinkRelay;
use amqp_session_performatives::SessionFrame;
use amqp_session_types::{BeginError, IncomingChannel, SessionError, definitions};
use std::alloc::Global;
use std::collections::VecDeque;

/// Begins a session, as `Conversation::begin` does, and answers its number. Its Begin is handed out, and fits each
/// limit that a peer may set (part 2, 2.4.1, 2.5.1, 2.7.2). Nothing waits in it.
///
/// It is refused with `ConnectionNotOpened`, with `ConnectionStopped`, with `LocalChannelMaxReached`, and with `Memory`
/// as that is. Nothing changes then.
pub fn begin<R: LinkRelay>(
    talk: &mut Conversation<R>,
    alloc: Global,
    out: &mut VecDeque<SessionFrame>,
) -> Result<u64, BeginError>
    ensures ok { IfOk result (λ number. BeginsHere R.gives talk.old out.old.items number talk.new
        out.new.items) }
    ensures err { IfErr result (RefusesSession talk.old.sessions.connection) }
    ensures kept { OnErr result ((talk.new ≡ talk.old) × (out.new.items ≡ out.old.items)) }
    ensures goes { (limit : ℕ) → Goes limit talk.old talk.new out.old.items out.new.items }
{
    let from = out.len();
    let begun = talk.begin(alloc, out);
    frames_are_read(out, from);
    begun
}

/// Accepts the session that the peer asks for on this channel of its, as `Conversation::accept` does, and answers its
/// number. Its Begin is handed out, and fits each limit that a peer may set (part 2, 2.4.1, 2.5.1, 2.7.2). Nothing
/// waits in it.
///
/// It is refused, as `begin` is, where the connection isn't open, then with `NotAsked` where the peer asks for no
/// session on the channel, and then as `begin` is. Nothing changes then.
pub fn accept<R: LinkRelay>(
    talk: &mut Conversation<R>,
    alloc: Global,
    out: &mut VecDeque<SessionFrame>,
    channel: IncomingChannel,
) -> Result<u64, AcceptRefusal>
    ensures ok { IfOk result
        (λ number. AcceptsHere R.gives talk.old out.old.items channel number talk.new out.new.items) }
    ensures err { IfErr result (RefusesAccept talk.old channel) }
    ensures kept { OnErr result ((talk.new ≡ talk.old) × (out.new.items ≡ out.old.items)) }
    ensures goes { (limit : ℕ) → Goes limit talk.old talk.new out.old.items out.new.items }
{
    let from = out.len();
    let accepted = talk.accept(alloc, out, channel);
    frames_are_read(out, from);
    accepted
}

/// Ends the session with this number, as `Conversation::end` does: hands out its End with this error, and the session
/// itself, whose links are the caller's (part 2, 2.5.2, 2.7.8). The End fits each limit that a peer may set where its
/// error says its condition alone (part 2, 2.4.1, 2.8.14).
///
/// It is refused with `IllegalState` where there is no such session that has begun at both ends and ended at neither
/// (part 2, 2.5.5), and with `Memory`. Nothing changes then.
pub fn end<R: LinkRelay>(
    talk: &mut Conversation<R>,
    out: &mut VecDeque<SessionFrame>,
    number: u64,
    error: Option<definitions::Error>,
) -> Result<Box<AskingSession<R>>, SessionError>
    ensures ok { IfOk result
        (λ session. EndsHere talk.old out.old.items number error session talk.new out.new.items) }
    ensures err { IfErr result (RefusesEnd talk.old number) }
    ensures kept { OnErr result ((talk.new ≡ talk.old) × (out.new.items ≡ out.old.items)) }
    ensures goes { (limit : ℕ) → IsPlainEnd (record { error = error }) →
        Goes limit talk.old talk.new out.old.items out.new.items }
    ensures rests { Rests talk.old talk.new out.old.items out.new.items }
{
    let from = out.len();
    let ended = talk.end(out, number, error);
    frames_are_read(out, from);
    ended
}

/// Ends the session with this number by its fault, as `Conversation::fail` does: hands out its End, whose error says
/// the fault's condition, and the session itself, whose links are the caller's (part 2, 2.5.2, 2.8.15, 2.8.17). The End
/// fits each limit that a peer may set (part 2, 2.4.1).
///
/// It is refused with `IllegalState` where no session with this number has begun, or it is ending or over, and with
/// `Memory`. Nothing changes then.
pub fn fail<R: LinkRelay>(
    talk: &mut Conversation<R>,
    alloc: Global,
    out: &mut VecDeque<SessionFrame>,
    number: u64,
    fault: &SessionError,
) -> Result<Box<AskingSession<R>>, SessionError>
    ensures ok { IfOk result (λ session.
        EndsHere talk.old out.old.items number (Some (fault_error fault.now)) session talk.new out.new.items) }
    ensures err { IfErr result (RefusesFail talk.old number) }
    ensures kept { OnErr result ((talk.new ≡ talk.old) × (out.new.items ≡ out.old.items)) }
    ensures goes { (limit : ℕ) → Goes limit talk.old talk.new out.old.items out.new.items }
    ensures rests { Rests talk.old talk.new out.old.items out.new.items }
{
    let from = out.len();
    let ended = talk.fail(alloc, out, number, fault);
    frames_are_read(out, from);
    ended
}

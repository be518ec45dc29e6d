//! What the peer says to the sessions (part 2, 2.5).
ghost use Rattle.std.specs.Prelude.{◌≡◌, ◌≤◌, ◌<◌, ℕ, false, IfOk, OnOk};
ghost use Rattle.std.specs.VecDeque.{deque_len, deque_capacity};
ghost use Rattle.amqp_endpoint_conversation.specs.Beginning.{BeginAnswered};
ghost use Rattle.amqp_endpoint_conversation.specs.Ending.{EndAnswered};
ghost use Rattle.amqp_endpoint_conversation.specs.Hearing.{Answered, FlowTold, KeepsRoom};
ghost use Rattle.amqp_endpoint_links.specs.Hearing.{says_flow};
ghost use Rattle.amqp_endpoint_conversation.specs.Going.{AnswersPlain, Goes, Rests};

use crate::{BeginHeard, BeginRefusal, Conversation, EndHeard, HearRefusal, Heard};
use amqp_endpoint_fitting::frames_are_read;
use amqp_endpoint_links::LinkPerformative;
use amqp_session_core::LinkRelay;
use amqp_session_performatives::{Begin, End, SessionFrame};
use amqp_session_types::{ConnectionError, IncomingChannel};
use std::alloc::Global;
use std::collections::VecDeque;

/// Takes the peer's Begin, as `Conversation::on_incoming_begin` does (part 2, 2.5.1, 2.7.2): the peer asks for a
/// session, or the one whose channel it names takes it, and what waits there and lies in the peer's window is handed
/// out.
///
/// It is refused by the connection with `NotAllowed` where it asks for a session on a channel that reaches one, with
/// `NotFound` where no session has the channel that it names, and with `Memory`; and by the session with `IllegalState`
/// where it was answered before: the channel leads to it all the same. Else nothing changes then, but that where there
/// is no memory the channel may lead to the session already.
pub fn hear_begin<R: LinkRelay>(
    talk: &mut Conversation<R>,
    alloc: Global,
    out: &mut VecDeque<SessionFrame>,
    channel: IncomingChannel,
    begin: Begin,
) -> Result<BeginHeard, BeginRefusal>
    ensures step { BeginAnswered R.gives talk.old out.old.items channel begin result talk.new
        out.new.items }
    ensures goes { (limit : ℕ) → Goes limit talk.old talk.new out.old.items out.new.items }
    ensures rests { Rests talk.old talk.new out.old.items out.new.items }
{
    let from = out.len();
    let answer = talk.on_incoming_begin(alloc, out, channel, begin);
    frames_are_read(out, from);
    answer
}

/// Takes the peer's End, as `Conversation::on_incoming_end` does (part 2, 2.5.2): the session that its channel reaches
/// is over. Where its own End hadn't gone that is handed out, without an error.
///
/// It is refused with `NotFound` where the channel reaches no session, and with `Memory`. Nothing changes then.
pub fn hear_end<R: LinkRelay>(
    talk: &mut Conversation<R>,
    out: &mut VecDeque<SessionFrame>,
    channel: IncomingChannel,
    end: &End,
) -> Result<EndHeard<R>, ConnectionError>
    ensures step { EndAnswered talk.old out.old.items channel end.now result talk.new
        out.new.items }
    ensures goes { (limit : ℕ) → Goes limit talk.old talk.new out.old.items out.new.items }
    ensures rests { Rests talk.old talk.new out.old.items out.new.items }
{
    let from = out.len();
    let answer = talk.on_incoming_end(out, channel, end);
    frames_are_read(out, from);
    answer
}

/// Takes what the peer says in the session that its channel reaches, as `Conversation::on_incoming` does (part 2, 2.5).
/// What it hands out fits where all that waits does, and no link answers a Flow with properties (part 2, 2.7.4). Where
/// it is no Flow and isn't refused, `out` isn't touched. What the session hands out, and what waits there then, is what
/// waited before and at most one frame more, and its room for transfers stays.
///
/// It is refused with `NotFound` where the channel reaches no session, and with `Asked` where one refuses it that the
/// peer asks for; nothing changes then. It is refused with `Session` where one refuses it that has begun: its End, with
/// the fault's condition, is handed out behind all that it had leave, and it is ending. With `Memory` nothing changes,
/// or a session that has begun has refused it, and there was no memory for its End.
pub fn hear<R: LinkRelay>(
    talk: &mut Conversation<R>,
    alloc: Global,
    out: &mut VecDeque<SessionFrame>,
    channel: IncomingChannel,
    said: LinkPerformative,
) -> Result<Heard<R::Attached, R::Transferred, R::Detached>, HearRefusal<R>>
    ensures step { Answered R.gives talk.old out.old.items channel said result talk.new
        out.new.items }
    ensures untouched { says_flow said ≡ false → OnOk result (out.new ≡ out.old) }
    ensures room { IfOk result (λ heard.
        KeepsRoom talk.old.sessions (deque_len out.old) heard talk.new.sessions (deque_len out.new)) }
    ensures capacity { OnOk result (deque_capacity out.old ≤ deque_capacity out.new) }
    ensures goes { (limit : ℕ) → AnswersPlain R.gives →
        Goes limit talk.old talk.new out.old.items out.new.items }
    ensures rests { Rests talk.old talk.new out.old.items out.new.items }
{
    let from = out.len();
    let answer = talk.on_incoming(alloc, out, channel, said);
    frames_are_read(out, from);
    answer
}

/// The session's own Flow is handed out where it is due, as `Conversation::tell_flow` does (part 2, 2.5.6). There must
/// be a spare place in `out`, and it takes no memory. Where no session with this number has begun, nothing is handed
/// out.
pub fn tell_flow<R: LinkRelay>(
    talk: &mut Conversation<R>,
    out: &mut VecDeque<SessionFrame>,
    number: u64,
)
    requires { deque_len out.old < deque_capacity out.old }
    ensures told { FlowTold R.gives talk.old out.old.items number talk.new out.new.items }
    ensures capacity { deque_capacity out.new ≡ deque_capacity out.old }
    ensures goes { (limit : ℕ) → Goes limit talk.old talk.new out.old.items out.new.items }
    ensures rests { Rests talk.old talk.new out.old.items out.new.items }
{
    let from = out.len();
    talk.tell_flow(out, number);
    frames_are_read(out, from);
}

//! A link is closed here, for its peer's fault (part 2, 2.6.6).
ghost use Rattle.std.specs.Prelude.{◌≡◌, ◌≤◌, ◌<◌, ◌+◌, ℕ, IfOk, IsSome, Some, true};
ghost use Rattle.std.specs.VecDeque.{deque_capacity, deque_len};
ghost use Rattle.amqp_session_outgoing.specs.Queues.{room_behind};
ghost use Rattle.amqp_endpoint_model.specs.State.{error_of};
ghost use Rattle.amqp_endpoint_tables.specs.State.{live_at};
ghost use Rattle.amqp_endpoint_attached.specs.Detaching.{is_there};
ghost use Rattle.amqp_endpoint_attached.specs.Linked.{end_at};
ghost use Rattle.amqp_endpoint_conversation.specs.Going.{Goes, Rests};
ghost use Rattle.amqp_endpoint_linking.specs.Handed.{Hands};
ghost use Rattle.amqp_endpoint_linking.specs.Linking.{Session};
ghost use Rattle.amqp_endpoint_link_hearing.specs.InSession.{Closes, GoesOn, name_of};
ghost use Rattle.amqp_endpoint_link_hearing.specs.Leaving.{HasPlace};
ghost use Rattle.amqp_endpoint_link_hearing.specs.Naming.{link_of};

use crate::leaving::{Answer, handle_is_read};
use amqp_endpoint_attached::{LinkSession, detach_placed};
use amqp_endpoint_conversation::Conversation;
use amqp_endpoint_fitting::frames_are_read;
use amqp_endpoint_links::Numbered;
use amqp_link::LinkEnd;
use amqp_session_performatives::SessionFrame;
use amqp_session_types::{OutputHandle, definitions};
use serde_amqp_types::Symbol;
use std::alloc::{AllocError, Global};
use std::collections::VecDeque;

/// Why a link is closed here, as its Detach says it (part 2, 2.8.15, 2.8.18).
#[derive(Clone, Copy, Drop)]
pub(crate) enum Condition {
    /// Its state, or what both ends agreed on, doesn't allow what the peer said.
    NotAllowed,
    /// The peer sent more messages than it had credit for (part 2, 2.6.7).
    TransferLimitExceeded,
    /// The peer sent a message that is larger than the link takes (part 2, 2.7.3).
    MessageSizeExceeded,
}

/// Makes ready to close a link: its own closing Detach says the condition, and there is room for it behind what the
/// link has waiting. It is refused where there is no memory.
pub(crate) fn make_closing(
    session: &LinkSession,
    alloc: Global,
    handle: OutputHandle,
    condition: Condition,
) -> Result<Answer, AllocError>
    ensures { IfOk result (λ it. (it.closed ≡ true) × (it.error ≡ Some (error_of (name_of condition)))
        × HasPlace session.now handle true it.error it.place) }
{
    handle_is_read(handle);
    let Ok(place) = session.session.place_behind(alloc, handle, 1) else {
        return Err(AllocError);
    };
    let error = definitions::Error {
        condition: name_of(alloc, condition)?,
        description: None,
        info: None,
    };
    Ok(Answer {
        closed: true,
        error: Some(error),
        place,
    })
}

/// The condition's name.
fn name_of(alloc: Global, condition: Condition) -> Result<Symbol, AllocError>
    ensures { IfOk result (λ name. name ≡ name_of condition) }
{
    let name = match condition {
        Condition::NotAllowed => "amqp:not-allowed",
        Condition::TransferLimitExceeded => "amqp:link:transfer-limit-exceeded",
        Condition::MessageSizeExceeded => "amqp:link:message-size-exceeded",
    };
    Ok(Symbol::new(String::from_str(alloc, name)?))
}

/// The link with this own handle is closed, where it is attached: its own closing Detach is handed out, or waits
/// behind what the link has waiting, and says why. There is room for it, and it takes no memory.
pub(crate) fn close(
    talk: &mut Conversation<Numbered<LinkEnd>>,
    session: u64,
    handle: OutputHandle,
    closing: Answer,
    out: &mut VecDeque<SessionFrame>,
)
    requires there { IsSome (link_of talk.old session handle) }
    requires place { (s : Session) → live_at talk.old.sessions session ≡ Some s →
        HasPlace s.value handle true closing.error closing.place }
    requires spare { deque_len out.old < deque_capacity out.old }
    ensures closed { Hands (λ frames. GoesOn (Closes closing.error handle frames) talk.old session talk.new)
        out.old.items out.new.items }
    ensures goes { (limit : ℕ) → 512 ≤ limit →
        Goes limit talk.old talk.new out.old.items out.new.items }
    ensures rests { Rests talk.old talk.new out.old.items out.new.items }
    ensures added { deque_len out.new ≤ deque_len out.old + 1 }
    ensures capacity { deque_capacity out.new ≡ deque_capacity out.old }
{
    let from = out.len();
    let Some(session) = talk.sessions.live_mut(session) else {
        unreachable!()
    };
    close_in(session, handle, closing, out);
    frames_are_read(out, from);
}

/// The same in its session.
fn close_in(
    session: &mut LinkSession,
    handle: OutputHandle,
    closing: Answer,
    out: &mut VecDeque<SessionFrame>,
)
    requires place { room_behind handle.0 1 session.old.session.outgoing.queues ≤ closing.place }
    requires spare { deque_len out.old < deque_capacity out.old }
    ensures closed { Hands (λ frames. Closes closing.error handle frames session.old session.new)
        out.old.items out.new.items }
    ensures added { deque_len out.new ≤ deque_len out.old + 1 }
    ensures capacity { deque_capacity out.new ≡ deque_capacity out.old }
{
    if !is_attached(session, handle) {
        return;
    }
    let Answer {
        closed: _,
        error,
        place,
    } = closing;
    detach_placed(session, handle, place, true, error, out);
}

/// Whether an attached link has this own handle.
fn is_attached(session: &LinkSession, handle: OutputHandle) -> bool
    ensures { result ≡ is_there (end_at session.now handle) }
{
    let Some(link) = session.session.link(handle) else {
        return false;
    };
    link.link.local_state().is_attached()
}

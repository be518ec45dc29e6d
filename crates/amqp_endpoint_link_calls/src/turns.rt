//! The transfers that wait in a session for the peer's window (part 2, 2.5.6).
ghost use Rattle.std.specs.Prelude.{◌≡◌, ◌+◌, ◌≤◌, ◌<◌, ◌++◌, IfErr, IfOk};
ghost use Rattle.std.specs.Vec.{vec_len, vec_capacity};
ghost use Rattle.amqp_session_outgoing.specs.Queues.{turn_of};
ghost use Rattle.amqp_session_core.specs.State.{link_at};
ghost use Rattle.amqp_endpoint_tables.specs.State.{place_at};
ghost use Rattle.amqp_endpoint_link_calls.specs.Waiting.{BarsWaiting, TurnTold, by_number, counted, held_at, held_told};

use crate::holding::LinkTalk;
use amqp_endpoint_attached::LinkSession;
use amqp_endpoint_links::{AskedSession, Numbered};
use amqp_endpoint_model::EndpointError;
use amqp_endpoint_tables::Place;
use amqp_link::LinkEnd;
use amqp_session_core::Session;
use amqp_session_types::OutputHandle;
use std::alloc::{AllocError, Global};

/// How many transfers wait in the session with this number: none where it hasn't begun, is ending, or is over.
///
/// It is refused with `UnknownSession` alone, exactly where no session has the number.
pub fn held_back(talk: &LinkTalk, session: u64) -> Result<usize, EndpointError>
    ensures { result ≡ held_told (place_at talk.now.sessions session) }
{
    match talk.sessions.place(session) {
        Some(place) => Ok(held_at(place)),
        None => Err(EndpointError::UnknownSession),
    }
}

/// The links of which transfers wait in the session with this number, in turn, each by its number with how many: none
/// where the session hasn't begun, is ending, or is over. A handle that no link has is left out.
///
/// It is refused with `UnknownSession` exactly where no session has the number, and with `Memory` only where one has it
/// that has begun.
pub fn waiting(
    talk: &LinkTalk,
    alloc: Global,
    session: u64,
) -> Result<Vec<(u64, u64)>, EndpointError>
    ensures ok { IfOk result (λ turn. TurnTold (place_at talk.now.sessions session) turn.items) }
    ensures err { IfErr result (BarsWaiting (place_at talk.now.sessions session)) }
{
    let Some(place) = talk.sessions.place(session) else {
        return Err(EndpointError::UnknownSession);
    };
    match place {
        Place::Live(_, session) => turn_in(&session.session, alloc),
        _ => Ok(Vec::new(alloc)),
    }
}

/// How many transfers wait in a session.
fn held_at(place: &Place<Box<AskedSession>, Box<LinkSession>>) -> usize
    ensures { result ≡ held_at place.now }
{
    match place {
        Place::Live(_, session) => session.session.held_back(),
        _ => 0,
    }
}

/// The links that wait in a session, in turn. It is refused where there is no memory.
fn turn_in(
    session: &Session<Numbered<LinkEnd>>,
    alloc: Global,
) -> Result<Vec<(u64, u64)>, EndpointError>
    ensures ok { IfOk result (λ turn. turn.items
        ≡ by_number session.now (turn_of session.now.outgoing.queues)) }
    ensures err { IfErr result (λ e. e ≡ EndpointError.Memory) }
{
    let Ok(turn) = session.waiting(alloc) else {
        return Err(EndpointError::Memory);
    };
    match by_number(session, alloc, turn) {
        Ok(numbers) => Ok(numbers),
        Err(_) => Err(EndpointError::Memory),
    }
}

/// Links by their numbers, in this order, each with how many of its transfers wait. It is refused where there is no
/// memory.
fn by_number(
    session: &Session<Numbered<LinkEnd>>,
    alloc: Global,
    turn: Vec<(OutputHandle, usize)>,
) -> Result<Vec<(u64, u64)>, AllocError>
    ensures { IfOk result (λ numbers. numbers.items ≡ by_number session.now turn.items) }
{
    let mut turn = turn;
    let mut numbers = Vec::with_capacity(alloc, turn.len())?;
    count_each(session, &mut turn, &mut numbers);
    Ok(numbers)
}

/// Links by their numbers, in this order, behind those that are listed. There is room for them.
fn count_each(
    session: &Session<Numbered<LinkEnd>>,
    turn: &mut Vec<(OutputHandle, usize)>,
    numbers: &mut Vec<(u64, u64)>,
)
    requires { vec_len numbers.old + vec_len turn.old ≤ vec_capacity numbers.old }
    ensures numbers { numbers.new.items ≡ numbers.old.items
        ++ by_number session.now turn.old.items }
    ensures capacity { vec_capacity numbers.new ≡ vec_capacity numbers.old }
{
    turn.reverse();
    while let Some(one) = turn.pop() {
        count_one(session, one, numbers);
    }
}

/// A link by its number, where it is there, behind those that are listed. There is room for it.
fn count_one(
    session: &Session<Numbered<LinkEnd>>,
    one: (OutputHandle, usize),
    numbers: &mut Vec<(u64, u64)>,
)
    requires { vec_len numbers.old < vec_capacity numbers.old }
    ensures numbers { numbers.new.items ≡ numbers.old.items
        ++ counted (link_at session.now (one.0).0) one.1 }
    ensures len { vec_len numbers.new ≤ vec_len numbers.old + 1 }
    ensures capacity { vec_capacity numbers.new ≡ vec_capacity numbers.old }
{
    let (handle, count) = one;
    if let Some(link) = session.link(handle) {
        numbers.push_reserved((link.number, count as u64));
    }
}

//! Meant for runs in which one request for memory is refused, too (`rt try --test --fail-alloc N`): a call that answers want
//! of memory changes nothing, and the same call goes on once there is memory.
use super::{CHANNEL, begin, connection_in, either, on, opened};
use amqp_session_frames::{Connection, ConnectionState};
use amqp_session_types::{BeginError, ConnectionError, IncomingChannel, OpenError};
use std::alloc::{AllocError, Global};
use std::test::Fail;

/// A connection that has the peer's Open. Of two that are made one at most is refused memory.
fn open_received(alloc: Global) -> Result<Connection, AllocError> {
    either(
        connection_in(alloc, ConnectionState::OpenReceived, 7),
        connection_in(alloc, ConnectionState::OpenReceived, 7),
    )
}

/// A connection behind both Open. Of two that are made one at most is refused memory.
fn opened_at_last(alloc: Global) -> Result<Connection, OpenError> {
    either(opened(alloc, 255, 255), opened(alloc, 255, 255))
}

/// What the own Open is refused with, if it is.
fn refusal_of_open(connection: &mut Connection) -> Option<OpenError> {
    connection.send_open().err()
}

/// Whether the own Open is handed out, or refused for want of memory alone, with the state as before, and then handed out.
fn sends_open(connection: &mut Connection) -> bool {
    let is_right = match refusal_of_open(connection) {
        None => true,
        Some(refusal) => {
            refusal == OpenError::Memory
                && connection.local_state() == ConnectionState::OpenReceived
                && refusal_of_open(connection).is_none()
        }
    };
    is_right && connection.local_state() == ConnectionState::Opened
}

#[test]
fn own_open_wants_memory(rt: HostRuntime) -> Result<(), Fail> {
    let alloc = rt.alloc();
    assert!(rt; on(open_received(alloc), sends_open)?);
    Ok(())
}

/// Whether a session gets a channel, or is refused for want of memory alone and then gets one.
fn allocates(connection: &mut Connection, number: u64) -> bool {
    match connection.allocate_session(number).err() {
        None => true,
        Some(refusal) => {
            refusal == BeginError::Memory && connection.allocate_session(number).is_ok()
        }
    }
}

/// Whether twenty sessions get channels.
fn allocates_twenty(connection: &mut Connection) -> bool {
    for number in 0..20u64 {
        if !allocates(connection, number) {
            return false;
        }
    }
    true
}

#[test]
fn sessions_want_memory(rt: HostRuntime) -> Result<(), Fail> {
    let alloc = rt.alloc();
    assert!(rt; on(opened_at_last(alloc), allocates_twenty)?);
    Ok(())
}

/// Whether the peer's Begin for the last of twenty sessions is taken, or refused for want of memory alone and then taken.
fn begins(connection: &mut Connection, alloc: Global) -> bool {
    let begin = begin(alloc, Some(19));
    let is_allocated = allocates_twenty(connection);
    let is_right = match connection.on_incoming_begin(CHANNEL, &begin) {
        Ok(session) => session == 19,
        Err(refusal) => {
            refusal == ConnectionError::Memory
                && connection.session_tx_by_incoming_channel(CHANNEL).is_none()
                && connection.on_incoming_begin(CHANNEL, &begin).is_ok()
        }
    };
    is_allocated && is_right
}

/// Whether the peer's Begin for no session is refused as ever.
fn refuses(connection: &mut Connection, alloc: Global) -> bool {
    let begin = begin(alloc, Some(20));
    let answer = connection.on_incoming_begin(CHANNEL, &begin);
    matches!(answer, Err(ConnectionError::NotFound))
}

#[test]
fn begins_want_memory(rt: HostRuntime) -> Result<(), Fail> {
    let alloc = rt.alloc();
    assert!(rt;
        on(
            opened_at_last(alloc),
            |connection| begins(connection, alloc) && refuses(connection, alloc)
        )?
    );
    Ok(())
}

/// Whether the route is made, or refused for want of memory and then isn't there, and can be made.
fn routes(connection: &mut Connection, channel: IncomingChannel) -> bool {
    if connection.route_accepted(channel, 11).is_err() {
        let is_none = connection.session_tx_by_incoming_channel(channel).is_none();
        if !is_none || connection.route_accepted(channel, 11).is_err() {
            return false;
        }
    }
    connection.session_tx_by_incoming_channel(channel) == Some(11)
}

/// Whether twenty routes are made.
fn routes_twenty(connection: &mut Connection) -> bool {
    for number in 0..20u16 {
        if !routes(connection, IncomingChannel(number)) {
            return false;
        }
    }
    true
}

#[test]
fn routes_want_memory(rt: HostRuntime) -> Result<(), Fail> {
    let alloc = rt.alloc();
    assert!(rt; on(opened_at_last(alloc), routes_twenty)?);
    Ok(())
}

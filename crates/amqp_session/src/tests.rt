//! What no row of a table can say: the texts of errors, and what follows where a request for memory is refused.
mod memory;
mod messages;

use amqp_session_frames::{Connection, ConnectionState};
use amqp_session_performatives::{Begin, Open};
use amqp_session_types::{IncomingChannel, OpenError};
use serde_amqp::{Array, Text};
use std::alloc::{AllocError, Global};

// What holds a value of a type with many fields takes long to prove, and what is generic over the type doesn't. So the next
// functions hold such values for the tests.

/// What the call answers on the value.
fn on<T, A, E, F>(made: Result<T, E>, call: F) -> Result<A, E>
where
    T: Drop,
    A: Drop,
    E: Drop,
    F: FnOnce(&mut T) -> A,
    requires { F.IsAlwaysCallable call }
{
    let mut value = made?;
    Ok(call(&mut value))
}

/// The first value, or the second where the first could not be made.
fn either<T: Drop, E: Drop>(first: Result<T, E>, second: Result<T, E>) -> Result<T, E> {
    match first {
        Ok(made) => Ok(made),
        Err(_) => second,
    }
}

/// The value behind the call, with what it is given, where the call goes through.
fn changed<T, U, E, F>(
    made: Result<T, AllocError>,
    given: Result<U, AllocError>,
    change: F,
) -> Result<T, E>
where
    T: Drop,
    U: Drop,
    E: From<AllocError> + Drop,
    F: FnOnce(&mut T, U) -> Result<(), E>,
    requires { F.IsAlwaysCallable change }
{
    let mut value = made?;
    let given = given?;
    change(&mut value, given)?;
    Ok(value)
}

/// The channel on which the peer sends.
const CHANNEL: IncomingChannel = IncomingChannel(5);

/// An Open of the container "a".
fn own_open(alloc: Global, channel_max: u16) -> Result<Open, AllocError> {
    Text::from_str(alloc, "a").map(|container_id| Open {
        container_id,
        hostname: None,
        max_frame_size: 512,
        channel_max,
        idle_time_out: None,
        outgoing_locales: Array::new(alloc),
        incoming_locales: Array::new(alloc),
        offered_capabilities: Array::new(alloc),
        desired_capabilities: Array::new(alloc),
        properties: None,
    })
}

/// A Begin that answers the one on this channel, if any.
fn begin(alloc: Global, remote_channel: Option<u16>) -> Begin {
    Begin {
        remote_channel,
        next_outgoing_id: 0,
        incoming_window: 2048,
        outgoing_window: 2048,
        handle_max: 4294967295,
        offered_capabilities: Array::new(alloc),
        desired_capabilities: Array::new(alloc),
        properties: None,
    }
}

/// A connection in this state, with this channel-max in its own Open.
fn connection_in(
    alloc: Global,
    state: ConnectionState,
    own_max: u16,
) -> Result<Connection, AllocError> {
    own_open(alloc, own_max).map(|local_open| Connection::new(alloc, state, local_open))
}

/// A connection behind both Open, with these channel-max.
fn opened(alloc: Global, own_max: u16, peer_max: u16) -> Result<Connection, OpenError> {
    changed(
        connection_in(alloc, ConnectionState::OpenSent, own_max),
        own_open(alloc, peer_max),
        |connection, remote_open| connection.on_incoming_open(CHANNEL, &remote_open),
    )
}

//! Scripts of calls on a connection.
use crate::calls::{Call, StopWord, call_of, state_of};
use crate::division::frame_words;
use crate::refusal::Refusal;
use amqp_session_frames::{Connection, Frame};
use amqp_session_performatives::{Begin, Close, End, Open};
use amqp_session_types::{ConnectionError, IncomingChannel, OutgoingChannel, definitions};
use serde_amqp_types::{Array, Symbol, Text};
use std::alloc::{AllocError, Global};
use std::fmt::Debug;

/// The answers to the calls of a script, and the state behind them. The script is `<state> <channel-max>` for the
/// connection that it begins with, and calls, all of them parted by ` ; `.
pub(crate) fn connection_line(alloc: Global, script: &str) -> Result<String, Refusal> {
    let (first, calls) = match script.split_once(" ; ") {
        Some((first, calls)) => (first, Some(calls)),
        None => (script, None),
    };
    let mut connection = connection_of(alloc, first)?;
    answers(alloc, &mut connection, calls)
}

/// The connection that a script begins with.
fn connection_of(alloc: Global, words: &str) -> Result<Connection, Refusal> {
    let Some((state, channel_max)) = words.split_once(' ') else {
        return Err(Refusal::Unreadable);
    };
    let Some(state) = state_of(state) else {
        return Err(Refusal::Unreadable);
    };
    let Ok(channel_max) = channel_max.parse::<u16>() else {
        return Err(Refusal::Unreadable);
    };
    let container_id = container(alloc)?;
    Ok(Connection::new(alloc, state, open(alloc, container_id, channel_max)))
}

/// The answers to these calls, and the state behind them.
fn answers(
    alloc: Global,
    connection: &mut Connection,
    calls: Option<&str>,
) -> Result<String, Refusal> {
    let mut line = String::new(alloc);
    if let Some(calls) = calls {
        for words in calls.split(" ; ") {
            let answer = answer_to(alloc, connection, words)?;
            line.push_str(answer.as_str())?;
            line.push_str(" ; ")?;
        }
    }
    let state = connection.local_state();
    write!(&mut line, "{state:?}")?;
    Ok(line)
}

/// The answer to the call that these words say.
fn answer_to(alloc: Global, connection: &mut Connection, words: &str) -> Result<String, Refusal> {
    let words: Vec<&str> = words.split(' ').collect(alloc)?;
    let Some(call) = call_of(words.as_slice()) else {
        return Err(Refusal::Unreadable);
    };
    perform(alloc, connection, call)
}

/// What the connection answers to the call.
fn perform(alloc: Global, connection: &mut Connection, call: Call<'_>) -> Result<String, Refusal> {
    match call {
        Call::SendHeader => taken(alloc, connection.send_header()),
        Call::TakeHeader => taken(alloc, connection.on_incoming_header()),
        Call::BeginAnew => begin_anew(alloc, connection),
        Call::SendOpen => sent(alloc, connection.send_open()),
        Call::TakeOpen(channel_max) => take_open(alloc, connection, channel_max),
        Call::SendClose(condition) => send_close(alloc, connection, condition),
        Call::TakeClose => taken(alloc, take_close(connection)),
        Call::Allocate(session) => allocate(alloc, connection, session),
        Call::Deallocate(channel) => deallocate(alloc, connection, channel),
        Call::TakeBegin(channel, answered) => {
            routed(alloc, take_begin(alloc, connection, channel, answered))
        }
        Call::Route(channel, session) => route(alloc, connection, channel, session),
        Call::TakeEnd(channel) => routed(alloc, take_end(connection, channel)),
        Call::Find(channel) => find(alloc, connection, channel),
        Call::SendBegin(channel, answered) => send_begin(alloc, connection, channel, answered),
        Call::SendEnd(channel) => send_end(alloc, connection, channel),
        Call::Stop(reason) => stop(alloc, connection, reason),
        Call::Reason => reason_word(alloc, connection),
        Call::ChannelMax => channel_max_word(alloc, connection),
    }
}

/// A word.
fn said(alloc: Global, word: &str) -> Result<String, Refusal> {
    Ok(String::from_str(alloc, word)?)
}

/// A refusal with its name.
fn refused<E: Debug + Drop>(alloc: Global, error: E) -> Result<String, Refusal> {
    Ok(format!(in alloc; "refused {error:?}")?)
}

/// The frame that is handed out, or why none is.
fn sent<E: Debug + Drop>(alloc: Global, answer: Result<Frame, E>) -> Result<String, Refusal> {
    match answer {
        Ok(frame) => frame_words(alloc, MOST, &frame),
        Err(error) => refused(alloc, error),
    }
}

/// That it is taken, or why not.
fn taken<E: Debug + Drop>(alloc: Global, answer: Result<(), E>) -> Result<String, Refusal> {
    match answer {
        Ok(()) => said(alloc, "ok"),
        Err(error) => refused(alloc, error),
    }
}

/// The session, or why there is none.
fn routed<E: Debug + Drop>(alloc: Global, answer: Result<u64, E>) -> Result<String, Refusal> {
    match answer {
        Ok(session) => Ok(format!(in alloc; "session {session}")?),
        Err(error) => refused(alloc, error),
    }
}

fn begin_anew(alloc: Global, connection: &mut Connection) -> Result<String, Refusal> {
    connection.begin_anew(alloc);
    said(alloc, "ok")
}

fn take_open(
    alloc: Global,
    connection: &mut Connection,
    channel_max: u16,
) -> Result<String, Refusal> {
    let container_id = container(alloc)?;
    let remote_open = open(alloc, container_id, channel_max);
    taken(
        alloc,
        connection.on_incoming_open(ANY_CHANNEL, &remote_open),
    )
}

fn send_close(
    alloc: Global,
    connection: &mut Connection,
    condition: Option<&str>,
) -> Result<String, Refusal> {
    let Some(condition) = condition else {
        return sent(alloc, connection.send_close(None));
    };
    let condition = Symbol::from_str(alloc, condition)?;
    sent(alloc, connection.send_close(Some(error_of(condition))))
}

/// An error with this condition alone.
fn error_of(condition: Symbol) -> definitions::Error {
    definitions::Error {
        condition,
        description: None,
        info: None,
    }
}

fn take_close(connection: &mut Connection) -> Result<(), ConnectionError> {
    connection.on_incoming_close(ANY_CHANNEL, &Close { error: None })
}

fn allocate(alloc: Global, connection: &mut Connection, session: u64) -> Result<String, Refusal> {
    match connection.allocate_session(session) {
        Ok(OutgoingChannel(channel)) => Ok(format!(in alloc; "channel {channel}")?),
        Err(error) => refused(alloc, error),
    }
}

fn deallocate(alloc: Global, connection: &mut Connection, channel: u16) -> Result<String, Refusal> {
    connection.deallocate_session(OutgoingChannel(channel));
    said(alloc, "ok")
}

fn take_begin(
    alloc: Global,
    connection: &mut Connection,
    channel: u16,
    answered: Option<u16>,
) -> Result<u64, ConnectionError> {
    connection.on_incoming_begin(IncomingChannel(channel), &begin(alloc, answered))
}

fn route(
    alloc: Global,
    connection: &mut Connection,
    channel: u16,
    session: u64,
) -> Result<String, Refusal> {
    connection.route_accepted(IncomingChannel(channel), session)?;
    said(alloc, "ok")
}

fn take_end(connection: &mut Connection, channel: u16) -> Result<u64, ConnectionError> {
    connection.on_incoming_end(IncomingChannel(channel), &End { error: None })
}

fn find(alloc: Global, connection: &Connection, channel: u16) -> Result<String, Refusal> {
    match connection.session_tx_by_incoming_channel(IncomingChannel(channel)) {
        Some(session) => Ok(format!(in alloc; "session {session}")?),
        None => said(alloc, "none"),
    }
}

fn send_begin(
    alloc: Global,
    connection: &Connection,
    channel: u16,
    answered: Option<u16>,
) -> Result<String, Refusal> {
    let frame = connection.on_outgoing_begin(OutgoingChannel(channel), begin(alloc, answered));
    frame_words(alloc, MOST, &frame)
}

fn send_end(alloc: Global, connection: &Connection, channel: u16) -> Result<String, Refusal> {
    let frame = connection.on_outgoing_end(OutgoingChannel(channel), End { error: None });
    frame_words(alloc, MOST, &frame)
}

fn stop(alloc: Global, connection: &mut Connection, reason: StopWord) -> Result<String, Refusal> {
    connection.set_connection_stop_reason(reason.stop_reason());
    said(alloc, "ok")
}

fn reason_word(alloc: Global, connection: &Connection) -> Result<String, Refusal> {
    match connection.connection_stop_reason() {
        Some(reason) => Ok(format!(in alloc; "{reason:?}")?),
        None => said(alloc, "none"),
    }
}

fn channel_max_word(alloc: Global, connection: &Connection) -> Result<String, Refusal> {
    let channel_max = connection.local_open().channel_max;
    Ok(format!(in alloc; "{channel_max}")?)
}

/// The most bytes of a frame that is handed out, without its size.
const MOST: usize = 508;

/// A channel of the peer, for what may come on any.
const ANY_CHANNEL: IncomingChannel = IncomingChannel(5);

/// The name of both containers.
fn container(alloc: Global) -> Result<Text, AllocError> {
    Text::from_str(alloc, "a")
}

/// An Open of this container, with a max-frame-size of 512.
fn open(alloc: Global, container_id: Text, channel_max: u16) -> Open {
    Open {
        container_id,
        hostname: None,
        max_frame_size: 512,
        channel_max,
        idle_time_out: None,
        outgoing_locales: Array::new(alloc),
        incoming_locales: Array::new(alloc),
        offered_capabilities: Array::new(alloc),
        desired_capabilities: Array::new(alloc),
        properties: None,
    }
}

/// A Begin that answers the one on this channel, if any, with windows of 2048.
fn begin(alloc: Global, remote_channel: Option<u16>) -> Begin {
    Begin {
        remote_channel,
        next_outgoing_id: 0,
        incoming_window: 2048,
        outgoing_window: 2048,
        handle_max: u32::MAX,
        offered_capabilities: Array::new(alloc),
        desired_capabilities: Array::new(alloc),
        properties: None,
    }
}

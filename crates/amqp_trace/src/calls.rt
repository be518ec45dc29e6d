//! Calls of a connection, as words.
use amqp_session_frames::ConnectionState;
use amqp_session_types::ConnectionStopReason;

/// A call of a connection.
#[derive(Clone, Copy, PartialEq, Eq)]
pub(crate) enum Call<'a> {
    /// `send-header`
    SendHeader,
    /// `take-header`
    TakeHeader,
    /// `begin-anew`
    BeginAnew,
    /// `send-open`
    SendOpen,
    /// `take-open`, with the peer's channel-max.
    TakeOpen(u16),
    /// `send-close`, with the condition of its error, if any.
    SendClose(Option<&'a str>),
    /// `take-close`
    TakeClose,
    /// `allocate`, with the session.
    Allocate(u64),
    /// `deallocate`, with the own channel.
    Deallocate(u16),
    /// `take-begin`, with the peer's channel, and the own one that it answers, if any.
    TakeBegin(u16, Option<u16>),
    /// `route`, with the peer's channel, and the session.
    Route(u16, u64),
    /// `take-end`, with the peer's channel.
    TakeEnd(u16),
    /// `find`, with the peer's channel.
    Find(u16),
    /// `send-begin`, with the own channel, and the peer's one that it answers, if any.
    SendBegin(u16, Option<u16>),
    /// `send-end`, with the own channel.
    SendEnd(u16),
    /// `stop`, with the reason.
    Stop(StopWord),
    /// `reason`
    Reason,
    /// `channel-max`
    ChannelMax,
}

/// Why a connection stopped.
#[derive(Clone, Copy, PartialEq, Eq)]
pub(crate) enum StopWord {
    /// `Closed`
    Closed,
    /// `RemoteClosed`
    RemoteClosed,
}

impl StopWord {
    /// The reason as the connection knows it.
    pub(crate) fn stop_reason(self) -> ConnectionStopReason {
        match self {
            StopWord::Closed => ConnectionStopReason::Closed,
            StopWord::RemoteClosed => ConnectionStopReason::RemoteClosed,
        }
    }
}

/// The call that these words say.
pub(crate) fn call_of<'a>(words: &[&'a str]) -> Option<Call<'a>> {
    match words {
        [verb] => alone(verb),
        [verb, first] => with_one(verb, first),
        [verb, first, second] => with_two(verb, first, second),
        _ => None,
    }
}

/// The call that this word alone says.
fn alone(verb: &str) -> Option<Call<'static>> {
    match verb {
        "send-header" => Some(Call::SendHeader),
        "take-header" => Some(Call::TakeHeader),
        "begin-anew" => Some(Call::BeginAnew),
        "send-open" => Some(Call::SendOpen),
        "send-close" => Some(Call::SendClose(None)),
        "take-close" => Some(Call::TakeClose),
        "reason" => Some(Call::Reason),
        "channel-max" => Some(Call::ChannelMax),
        _ => None,
    }
}

/// The call that this word says with another one.
fn with_one<'a>(verb: &str, word: &'a str) -> Option<Call<'a>> {
    match verb {
        "send-close" => Some(Call::SendClose(Some(word))),
        "allocate" => Some(Call::Allocate(word.parse().ok()?)),
        "stop" => Some(Call::Stop(reason_of(word)?)),
        _ => on_channel(verb, word.parse().ok()?),
    }
}

/// The call that this word says with a channel or a channel-max.
fn on_channel(verb: &str, number: u16) -> Option<Call<'static>> {
    match verb {
        "take-open" => Some(Call::TakeOpen(number)),
        "deallocate" => Some(Call::Deallocate(number)),
        "take-begin" => Some(Call::TakeBegin(number, None)),
        "take-end" => Some(Call::TakeEnd(number)),
        "find" => Some(Call::Find(number)),
        "send-begin" => Some(Call::SendBegin(number, None)),
        "send-end" => Some(Call::SendEnd(number)),
        _ => None,
    }
}

/// The call that this word says with two others.
fn with_two(verb: &str, first: &str, second: &str) -> Option<Call<'static>> {
    let channel = first.parse().ok()?;
    match verb {
        "take-begin" => Some(Call::TakeBegin(channel, Some(second.parse().ok()?))),
        "route" => Some(Call::Route(channel, second.parse().ok()?)),
        "send-begin" => Some(Call::SendBegin(channel, Some(second.parse().ok()?))),
        _ => None,
    }
}

/// The reason with this name.
fn reason_of(word: &str) -> Option<StopWord> {
    match word {
        "Closed" => Some(StopWord::Closed),
        "RemoteClosed" => Some(StopWord::RemoteClosed),
        _ => None,
    }
}

/// The state with this name (part 2, 2.4.6).
pub(crate) fn state_of(word: &str) -> Option<ConnectionState> {
    match word {
        "Start" => Some(ConnectionState::Start),
        "HeaderReceived" => Some(ConnectionState::HeaderReceived),
        "HeaderSent" => Some(ConnectionState::HeaderSent),
        "HeaderExchange" => Some(ConnectionState::HeaderExchange),
        "OpenPipe" => Some(ConnectionState::OpenPipe),
        "OpenClosePipe" => Some(ConnectionState::OpenClosePipe),
        "OpenReceived" => Some(ConnectionState::OpenReceived),
        "OpenSent" => Some(ConnectionState::OpenSent),
        "ClosePipe" => Some(ConnectionState::ClosePipe),
        "Opened" => Some(ConnectionState::Opened),
        "CloseReceived" => Some(ConnectionState::CloseReceived),
        "CloseSent" => Some(ConnectionState::CloseSent),
        "Discarding" => Some(ConnectionState::Discarding),
        "End" => Some(ConnectionState::End),
        _ => None,
    }
}

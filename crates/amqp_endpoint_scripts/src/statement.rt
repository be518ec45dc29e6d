//! What one line of a script says.
ghost use Rattle.std.specs.Prelude.{◌≡◌, ◌==◌, ◌^◌, length, map, IfOk};
ghost use Rattle.std.specs.List.{list_any};
ghost use Rattle.amqp_endpoint_scripts.specs.Digits.{number_under};
ghost use Rattle.amqp_endpoint_scripts.specs.Script.{bytes_of, call_at, call_of, call_with, call_with_three, count_of};
ghost use Rattle.amqp_endpoint_scripts.specs.Script.{call_with_two, disposal_of, end_of, grant_of, move_from, parts_at};
ghost use Rattle.amqp_endpoint_scripts.specs.Script.{receiver_at, resume_of, send_of, sender_at, settings_at};
ghost use Rattle.amqp_endpoint_scripts.specs.Script.{settings_of, statement};
ghost use Rattle.amqp_endpoint_scripts.specs.Script.{three_said, word_said, words_said};
ghost use Rattle.amqp_endpoint_scripts.specs.Terms.{sender_settings};

use crate::messages::{read_settled, read_settling, read_state};
use crate::terms::{read_receiver_settings, read_sender_settings};
use amqp_endpoint_core::End;
use amqp_endpoint_model::{Call, Disposal, LinkSettings, Sending, Settings};
use amqp_link_message::MESSAGE_FORMAT;
use amqp_session_types::{Boxed, IncomingChannel};
use bytes::Bytes;
use hex::FromHexError;
use serde_amqp_types::Text;
use std::alloc::{AllocError, Global};

/// What a line with words says.
#[derive(Debug, Drop)]
pub enum Statement {
    /// `one`: the script is of one endpoint.
    One,
    /// `two`: the script is of two endpoints, which are joined by two streams of bytes.
    Two,
    /// `settings`: what an end is made with.
    Settings(End, Settings),
    /// A call of an end.
    Call(End, Call),
    /// `move`: so many bytes are moved from an end to the other one.
    Move(End, u64),
    /// `break`: both ends break off.
    Break,
}

/// What this line says: `None` where it can't be read.
pub fn read_line(alloc: Global, line: &[u8]) -> Result<Option<Statement>, AllocError>
    ensures { IfOk result (λ s. s ≡ statement line.now) }
{
    let Ok(line) = str::from_utf8(line) else {
        return Ok(None);
    };
    let words = words_of(alloc, line)?;
    if has_empty(words.as_slice()) {
        return Ok(None);
    }
    read_words(alloc, words.as_slice())
}

fn words_of(alloc: Global, line: &str) -> Result<Vec<&str>, AllocError>
    ensures { IfOk result (λ words. map (λ w. w.now) words.items ≡ parts_at 32 line.now) }
{
    line.split(' ').collect(alloc)
}

fn has_empty(words: &[&str]) -> bool
    ensures { result ≡ list_any (λ w. length w == 0) (map (λ w. w.now) words.now) }
{
    words.iter().any(|word| word.is_empty())
}

fn read_words(alloc: Global, words: &[&str]) -> Result<Option<Statement>, AllocError>
    ensures { IfOk result (λ s. s ≡ words_said (map (λ w. w.now) words.now)) }
{
    match words {
        [word] => Ok(read_word(word)),
        [end, verb] => Ok(call_at(read_end(end), call_named(verb))),
        [first, second, third] => read_three(alloc, first, second, third),
        [end, verb, link, second] => Ok(call_at(read_end(end), read_with_two(verb, link, second))),
        [end, verb, number, second, third] => read_five(alloc, end, verb, number, second, third),
        [end, verb, link, message, state, settled] => {
            Ok(call_at(
                read_end(end),
                read_disposal(verb, link, message, state, settled),
            ))
        }
        [verb, end, container, limit, channels, window, first] if *verb == "settings" => {
            read_settings_line(alloc, end, container, limit, channels, window, first)
        }
        [end, verb, session, name, count, sending, receiving] => {
            read_sender(alloc, end, verb, session, name, count, sending, receiving)
        }
        _ => Ok(None),
    }
}

/// A line of one word: the first line of a script, or a break of both ends.
fn read_word(word: &str) -> Option<Statement>
    ensures { result ≡ word_said word.now }
{
    match word {
        "one" => Some(Statement::One),
        "two" => Some(Statement::Two),
        "break" => Some(Statement::Break),
        _ => None,
    }
}

/// Bytes are moved from an end, or an end is called.
fn read_three(
    alloc: Global,
    first: &str,
    second: &str,
    third: &str,
) -> Result<Option<Statement>, AllocError>
    ensures { IfOk result (λ s. s ≡ three_said first.now second.now third.now) }
{
    if first == "move" {
        return Ok(move_from(read_end(second), read_count(third)));
    }
    let call = read_call(alloc, second, third)?;
    Ok(call_at(read_end(first), call))
}

/// A call of an end that a word names with three behind it.
fn read_five(
    alloc: Global,
    end: &str,
    verb: &str,
    number: &str,
    second: &str,
    third: &str,
) -> Result<Option<Statement>, AllocError>
    ensures { IfOk result (λ s. s
        ≡ call_at (end_of end.now) (call_with_three verb.now number.now second.now third.now)) }
{
    let call = read_with_three(alloc, verb, number, second, third)?;
    Ok(call_at(read_end(end), call))
}

/// What an end is made with.
fn read_settings_line(
    alloc: Global,
    end: &str,
    container: &str,
    limit: &str,
    channels: &str,
    window: &str,
    first: &str,
) -> Result<Option<Statement>, AllocError>
    ensures { IfOk result (λ s. s ≡ settings_at (end_of end.now)
        (settings_of container.now limit.now channels.now window.now first.now)) }
{
    let settings = read_settings(alloc, container, limit, channels, window, first)?;
    Ok(settings_at(read_end(end), settings))
}

/// A link attaches as a sender at an end: its session and its settings.
fn read_sender(
    alloc: Global,
    end: &str,
    verb: &str,
    session: &str,
    name: &str,
    count: &str,
    sending: &str,
    receiving: &str,
) -> Result<Option<Statement>, AllocError>
    ensures { IfOk result (λ s. s ≡ call_at (end_of end.now)
        (sender_at verb.now (number_under (2 ^ 64) session.now)
        (sender_settings name.now count.now sending.now receiving.now))) }
{
    let settings = read_sender_settings(alloc, name, count, sending, receiving)?;
    let call = sender_at(verb, read_u64(session), settings);
    Ok(call_at(read_end(end), call))
}

/// The end that a word names.
fn read_end(word: &str) -> Option<End>
    ensures { result ≡ end_of word.now }
{
    match word {
        "a" => Some(End::A),
        "b" => Some(End::B),
        _ => None,
    }
}

fn call_at(end: Option<End>, call: Option<Call>) -> Option<Statement>
    ensures { result ≡ call_at end call }
{
    let end = end?;
    let call = call?;
    Some(Statement::Call(end, call))
}

fn move_from(end: Option<End>, count: Option<u64>) -> Option<Statement>
    ensures { result ≡ move_from end count }
{
    let end = end?;
    let count = count?;
    Some(Statement::Move(end, count))
}

fn settings_at(end: Option<End>, settings: Option<Settings>) -> Option<Statement>
    ensures { result ≡ settings_at end settings }
{
    let end = end?;
    let settings = settings?;
    Some(Statement::Settings(end, settings))
}

/// The call that this word alone names.
fn call_named(verb: &str) -> Option<Call>
    ensures { result ≡ call_of verb.now }
{
    match verb {
        "connect" => Some(Call::Connect),
        "close" => Some(Call::Close),
        "heartbeat" => Some(Call::Heartbeat),
        "begin" => Some(Call::Begin),
        "pull" => Some(Call::Pull),
        "break" => Some(Call::BreakOff),
        _ => None,
    }
}

/// The call that a word names with what stands behind it: bytes, a channel of the peer's, a session, or a link.
fn read_call(alloc: Global, verb: &str, word: &str) -> Result<Option<Call>, AllocError>
    ensures { IfOk result (λ c. c ≡ call_with verb.now word.now) }
{
    match verb {
        "feed" => {
            let bytes = read_bytes(alloc, word)?;
            Ok(bytes.map(Call::Feed))
        }
        "accept" => Ok(read_u16(word).map(|channel| Call::AcceptBegin(IncomingChannel(channel)))),
        "end" => Ok(read_u64(word).map(Call::End)),
        "detach" => Ok(read_u64(word).map(Call::Detach)),
        "closelink" => Ok(read_u64(word).map(Call::CloseLink)),
        "drain" => Ok(read_u64(word).map(Call::Drain)),
        "waiting" => Ok(read_u64(word).map(Call::Waiting)),
        _ => Ok(None),
    }
}

/// The call that a word names with two behind it: a grant to a link, or a link that attaches again.
fn read_with_two(verb: &str, link: &str, second: &str) -> Option<Call>
    ensures { result ≡ call_with_two verb.now link.now second.now }
{
    if verb == "grant" {
        return read_grant(verb, link, second);
    }
    read_resume(verb, link, second)
}

/// A link that attaches again: the link, and the session.
fn read_resume(verb: &str, link: &str, session: &str) -> Option<Call>
    ensures { result ≡ resume_of verb.now link.now session.now }
{
    if verb != "resume" {
        return None;
    }
    let link = read_u64(link)?;
    let session = read_u64(session)?;
    Some(Call::Resume(link, session))
}

/// A grant to a link: the link, and how many messages.
fn read_grant(verb: &str, link: &str, credit: &str) -> Option<Call>
    ensures { result ≡ grant_of verb.now link.now credit.now }
{
    if verb != "grant" {
        return None;
    }
    let link = read_u64(link)?;
    let credit = read_u32(credit)?;
    Some(Call::Grant(link, credit))
}

/// The call that a word names with three behind it: a link sends a message, or attaches as a receiver in a session.
fn read_with_three(
    alloc: Global,
    verb: &str,
    number: &str,
    second: &str,
    third: &str,
) -> Result<Option<Call>, AllocError>
    ensures { IfOk result (λ c. c ≡ call_with_three verb.now number.now second.now third.now) }
{
    if verb == "send" {
        return read_sending(alloc, number, second, third);
    }
    let settings = read_receiver_settings(alloc, second, third)?;
    Ok(receiver_at(verb, read_u64(number), settings))
}

/// A link sends a message of the standard's format: whether it goes settled, and its bytes.
fn read_sending(
    alloc: Global,
    link: &str,
    settled: &str,
    payload: &str,
) -> Result<Option<Call>, AllocError>
    ensures { IfOk result (λ c. c ≡ send_of link.now settled.now payload.now) }
{
    let Some(link) = read_u64(link) else {
        return Ok(None);
    };
    let Some(settled) = read_settled(settled) else {
        return Ok(None);
    };
    let Some(payload) = read_bytes(alloc, payload)? else {
        return Ok(None);
    };
    Ok(Some(Call::Send(
        link,
        Sending {
            payload,
            message_format: MESSAGE_FORMAT,
            settled: Some(settled),
        },
    )))
}

/// A message is disposed of: the link by which it came, its number, its outcome, and whether it is settled.
fn read_disposal(verb: &str, link: &str, message: &str, state: &str, settled: &str) -> Option<Call>
    ensures { result ≡ disposal_of verb.now link.now message.now state.now settled.now }
{
    if verb != "dispose" {
        return None;
    }
    let link = read_u64(link)?;
    let message = read_u64(message)?;
    let settled = read_settling(settled)?;
    let state = read_state(state)?;
    Some(Call::Dispose(link, message, Disposal { state, settled }))
}

/// A link that attaches as a receiver, in this session and with these settings.
fn receiver_at(
    verb: &str,
    session: Option<u64>,
    settings: Option<Boxed<LinkSettings>>,
) -> Option<Call>
    ensures { result ≡ receiver_at verb.now session settings }
{
    if verb != "receiver" {
        return None;
    }
    let session = session?;
    let settings = settings?;
    Some(Call::AttachReceiver(session, settings))
}

/// A link that attaches as a sender, in this session and with these settings.
fn sender_at(
    verb: &str,
    session: Option<u64>,
    settings: Option<Boxed<LinkSettings>>,
) -> Option<Call>
    ensures { result ≡ sender_at verb.now session settings }
{
    if verb != "sender" {
        return None;
    }
    let session = session?;
    let settings = settings?;
    Some(Call::AttachSender(session, settings))
}

/// How many bytes are moved: so many, or `all` that there are.
fn read_count(word: &str) -> Option<u64>
    ensures { result ≡ count_of word.now }
{
    if word == "all" {
        return Some(u64::MAX);
    }
    read_u64(word)
}

/// Bytes in hex digits of either case, two for each. None at all are written `-`.
fn read_bytes(alloc: Global, word: &str) -> Result<Option<Bytes>, AllocError>
    ensures { IfOk result (λ b. b ≡ bytes_of word.now) }
{
    if word == "-" {
        return Ok(Some(Bytes::new()));
    }
    match hex::decode(alloc, word) {
        Ok(bytes) => Ok(Some(Bytes::from_vec(bytes)?)),
        Err(FromHexError::OutOfMemory) => Err(AllocError),
        Err(_) => Ok(None),
    }
}

fn read_settings(
    alloc: Global,
    container: &str,
    limit: &str,
    channels: &str,
    window: &str,
    first: &str,
) -> Result<Option<Settings>, AllocError>
    ensures { IfOk result (λ s. s ≡ settings_of container.now limit.now channels.now window.now first.now) }
{
    let Some(max_frame_size) = read_u32(limit) else {
        return Ok(None);
    };
    let Some(channel_max) = read_u16(channels) else {
        return Ok(None);
    };
    let Some(incoming_window) = read_u32(window) else {
        return Ok(None);
    };
    let Some(first_transfer_number) = read_u32(first) else {
        return Ok(None);
    };
    Ok(Some(Settings {
        container_id: Text::new(String::from_str(alloc, container)?),
        max_frame_size,
        channel_max,
        incoming_window,
        idle_time_out: None,
        first_transfer_number,
    }))
}

/// A number in decimal digits alone: a sign is none.
pub(crate) fn read_u32(word: &str) -> Option<u32>
    ensures { result ≡ number_under (2 ^ 32) word.now }
{
    if word.starts_with('+') {
        return None;
    }
    word.parse().ok()
}

/// A number in decimal digits alone: a sign is none.
fn read_u16(word: &str) -> Option<u16>
    ensures { result ≡ number_under (2 ^ 16) word.now }
{
    if word.starts_with('+') {
        return None;
    }
    word.parse().ok()
}

/// A number in decimal digits alone: a sign is none.
fn read_u64(word: &str) -> Option<u64>
    ensures { result ≡ number_under (2 ^ 64) word.now }
{
    if word.starts_with('+') {
        return None;
    }
    word.parse().ok()
}

//! The peer's Begin and End (part 2, 2.5.1, 2.5.2).
ghost use Rattle.std.specs.Prelude.{◌≡◌, ◌<◌, ◌++◌, ℕ, Some, IfErr, OnErr, OnOk};
ghost use Rattle.std.specs.Vec.{vec_capacity, vec_len};
ghost use Rattle.amqp_endpoint_model.specs.Relay.{IsSessionFault};
ghost use Rattle.amqp_endpoint_tables.specs.State.{place_at, reached};
ghost use Rattle.amqp_endpoint_conversation.specs.Going.{Goes, Rests};
ghost use Rattle.amqp_endpoint_linking.specs.Handed.{Tells};
ghost use Rattle.amqp_endpoint_linking.specs.Hearing.{HearsBegin, RefusesBegin, RefusesEnd, TakesEnd, begin_told};
ghost use Rattle.amqp_endpoint_linking.specs.Hearing.{end_told, is_closing, is_told};
ghost use Rattle.amqp_endpoint_linking.specs.Linking.{Stood};

use crate::back::give_back_if;
use crate::calling::fail;
use amqp_endpoint_conversation::{BeginHeard, BeginRefusal, Conversation, EndHeard};
use amqp_endpoint_links::Numbered;
use amqp_endpoint_model::{Begun, Ended, EndpointError, Event, SessionAsked};
use amqp_endpoint_tables::Links;
use amqp_link::LinkEnd;
use amqp_session_frames::{Connection, ConnectionState};
use amqp_session_performatives::{Begin, End, SessionFrame};
use amqp_session_types::{IncomingChannel, definitions};
use std::alloc::Global;
use std::collections::VecDeque;

/// Takes the peer's Begin (part 2, 2.5.1, 2.7.2): the peer asks for a session, and `SessionAsked` is told; or the
/// session takes it whose channel it names, what waits there and lies in the peer's window is handed out, and `Begun`
/// is told. Where that was answered before it ends by this fault, as `fail` ends it. Where it is ending nothing is
/// told.
///
/// It ends the connection with `Connection` of `NotAllowed` where it asks for a session on a channel that reaches one,
/// with `Connection` of `NotFound` where no session has the channel that it names, and with `Memory`. Nothing is handed
/// out or told then, and no link changes; nor does a session, but that where there is no memory the peer's channel may
/// lead to the one named already.
pub fn hear_begin(
    talk: &mut Conversation<Numbered<LinkEnd>>,
    links: &mut Links<LinkEnd>,
    alloc: Global,
    channel: IncomingChannel,
    begin: Begin,
    out: &mut VecDeque<SessionFrame>,
    events: &mut Vec<Event>,
) -> Result<(), EndpointError>
    ensures ok { OnOk result
        (Tells (λ frames told. HearsBegin talk.old links.old channel begin frames told talk.new links.new)
        out.old.items events.old.items out.new.items events.new.items) }
    ensures err { IfErr result (λ e. IsSessionFault e
        × RefusesBegin talk.old channel begin e talk.new) }
    ensures kept { OnErr result ((links.new ≡ links.old) × (out.new.items ≡ out.old.items)
        × (events.new.items ≡ events.old.items)) }
    ensures goes { (limit : ℕ) → Goes limit talk.old talk.new out.old.items out.new.items }
    ensures rests { Rests talk.old talk.new out.old.items out.new.items }
{
    events.reserve(1)?;
    take_begin(talk, links, alloc, channel, begin, out, events)?;
    Ok(())
}

/// Takes it. There is room for what it tells.
#[inline(never)]
fn take_begin(
    talk: &mut Conversation<Numbered<LinkEnd>>,
    links: &mut Links<LinkEnd>,
    alloc: Global,
    channel: IncomingChannel,
    begin: Begin,
    out: &mut VecDeque<SessionFrame>,
    events: &mut Vec<Event>,
) -> Result<(), EndpointError>
    requires room { vec_len events.old < vec_capacity events.old }
    ensures ok { OnOk result
        (Tells (λ frames told. HearsBegin talk.old links.old channel begin frames told talk.new links.new)
        out.old.items events.old.items out.new.items events.new.items) }
    ensures err { IfErr result (λ e. IsSessionFault e
        × RefusesBegin talk.old channel begin e talk.new) }
    ensures kept { OnErr result ((links.new ≡ links.old) × (out.new.items ≡ out.old.items)
        × (events.new.items ≡ events.old.items)) }
    ensures goes { (limit : ℕ) → Goes limit talk.old talk.new out.old.items out.new.items }
    ensures rests { Rests talk.old talk.new out.old.items out.new.items }
{
    match amqp_endpoint_conversation::hear_begin(talk, alloc, out, channel, begin) {
        Ok(heard) => {
            tell_begin(heard, channel, events);
            Ok(())
        }
        Err(refusal) => match refusal {
            BeginRefusal::Connection(error) => Err(EndpointError::from(error)),
            BeginRefusal::Session(number, fault) => {
                match fail(talk, links, alloc, number, fault, out, events) {
                    Ok(()) => Ok(()),
                    Err(error) => Err(error),
                }
            }
        },
    }
}

/// Tells what came of the peer's Begin on this channel. There is room for it.
fn tell_begin(heard: BeginHeard, channel: IncomingChannel, events: &mut Vec<Event>)
    requires { vec_len events.old < vec_capacity events.old }
    ensures { events.new.items ≡ events.old.items ++ begin_told heard channel }
{
    match heard {
        BeginHeard::Asked(session) => {
            events.push_reserved(Event::SessionAsked(SessionAsked { session, channel }));
        }
        BeginHeard::Begun(session) => {
            events.push_reserved(Event::Begun(Begun { session, channel }));
        }
        BeginHeard::Dropped => {}
    }
}

/// Takes the peer's End (part 2, 2.5.2, 2.7.8): the session that its channel reaches is over, and `Ended` is told.
/// Where its own End hadn't gone that is handed out, without an error, and its links are given back, as `give_back`
/// does. Behind the own Close nothing is told of a session that had begun, as it ended with that (part 2, 2.4.3).
///
/// It ends the connection with `Connection` of `NotFound` where the channel reaches no session, and with `Memory`.
/// Nothing changes then.
pub fn hear_end(
    talk: &mut Conversation<Numbered<LinkEnd>>,
    links: &mut Links<LinkEnd>,
    channel: IncomingChannel,
    end: End,
    out: &mut VecDeque<SessionFrame>,
    events: &mut Vec<Event>,
) -> Result<(), EndpointError>
    ensures ok { OnOk result
        (Tells (λ frames told. TakesEnd talk.old links.old channel end frames told talk.new links.new)
        out.old.items events.old.items out.new.items events.new.items) }
    ensures err { IfErr result (λ e. IsSessionFault e
        × RefusesEnd talk.old channel end e talk.new) }
    ensures kept { OnErr result ((talk.new ≡ talk.old) × (links.new ≡ links.old)
        × (out.new.items ≡ out.old.items) × (events.new.items ≡ events.old.items)) }
    ensures goes { (limit : ℕ) → Goes limit talk.old talk.new out.old.items out.new.items }
    ensures rests { Rests talk.old talk.new out.old.items out.new.items }
{
    events.reserve(1)?;
    take_end(talk, links, channel, end, out, events)?;
    Ok(())
}

/// Takes it. There is room for what it tells.
#[inline(never)]
fn take_end(
    talk: &mut Conversation<Numbered<LinkEnd>>,
    links: &mut Links<LinkEnd>,
    channel: IncomingChannel,
    end: End,
    out: &mut VecDeque<SessionFrame>,
    events: &mut Vec<Event>,
) -> Result<(), EndpointError>
    requires room { vec_len events.old < vec_capacity events.old }
    ensures ok { OnOk result
        (Tells (λ frames told. TakesEnd talk.old links.old channel end frames told talk.new links.new)
        out.old.items events.old.items out.new.items events.new.items) }
    ensures err { IfErr result (λ e. IsSessionFault e
        × RefusesEnd talk.old channel end e talk.new) }
    ensures kept { OnErr result ((talk.new ≡ talk.old) × (links.new ≡ links.old)
        × (out.new.items ≡ out.old.items) × (events.new.items ≡ events.old.items)) }
    ensures goes { (limit : ℕ) → Goes limit talk.old talk.new out.old.items out.new.items }
    ensures rests { Rests talk.old talk.new out.old.items out.new.items }
{
    let told = is_told(talk, channel);
    match amqp_endpoint_conversation::hear_end(talk, out, channel, &end) {
        Ok(heard) => {
            let EndHeard { number, ended } = heard;
            give_back_if(links, ended);
            tell_end(told, number, end.error, events);
            Ok(())
        }
        Err(error) => Err(EndpointError::from(error)),
    }
}

/// Whether the peer's End on this channel is told of: behind the own Close only that of a session that is asked for, as
/// the others ended with the Close (part 2, 2.4.3).
fn is_told(talk: &Conversation<Numbered<LinkEnd>>, channel: IncomingChannel) -> bool
    ensures { (number : ℕ) (stood : Stood) → reached talk.now.sessions channel.0 ≡ Some number →
        place_at talk.now.sessions number ≡ Some stood →
        result ≡ is_told (is_closing talk.now.sessions.connection.local_state) stood }
{
    if !is_closing(talk.sessions.connection()) {
        return true;
    }
    match talk.sessions.reached(channel) {
        Some(number) => talk.sessions.asked(number).is_some(),
        None => true,
    }
}

/// Whether the own Close was sent.
fn is_closing(connection: &Connection) -> bool
    ensures { result ≡ is_closing connection.now.local_state }
{
    match connection.local_state() {
        ConnectionState::OpenClosePipe
        | ConnectionState::ClosePipe
        | ConnectionState::CloseSent
        | ConnectionState::Discarding
        | ConnectionState::End => true,
        _ => false,
    }
}

/// Tells of the peer's End where it is to be told of. There is room for it.
fn tell_end(told: bool, session: u64, error: Option<definitions::Error>, events: &mut Vec<Event>)
    requires { vec_len events.old < vec_capacity events.old }
    ensures { events.new.items ≡ events.old.items ++ end_told told session error }
{
    if told {
        events.push_reserved(Event::Ended(Ended { session, error }));
    }
}

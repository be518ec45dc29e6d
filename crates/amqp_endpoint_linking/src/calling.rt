//! How sessions begin and end here, by a call or by their fault (part 2, 2.5.1, 2.5.2).
ghost use Rattle.std.specs.Prelude.{◌≡◌, ◌<◌, ◌++◌, ℕ, IfErr, IfOk, OnErr, OnOk};
ghost use Rattle.std.specs.Vec.{vec_capacity, vec_len};
ghost use Rattle.amqp_endpoint_conversation.specs.Going.{Goes, Rests};
ghost use Rattle.amqp_endpoint_linking.specs.Calling.{Accepts, BarsAccepting, BarsBeginning, BarsEnding, BarsFailing};
ghost use Rattle.amqp_endpoint_linking.specs.Calling.{Begins, EndsOwn, Fails, fault_told, of_begin};
ghost use Rattle.amqp_endpoint_linking.specs.Handed.{Hands, Tells};

use crate::back::give_back;
use amqp_endpoint_conversation::{AcceptRefusal, Conversation};
use amqp_endpoint_links::Numbered;
use amqp_endpoint_model::{EndpointError, Event, Refused};
use amqp_endpoint_tables::Links;
use amqp_link::LinkEnd;
use amqp_session_performatives::SessionFrame;
use amqp_session_types::{BeginError, IncomingChannel, SessionError};
use std::alloc::Global;
use std::collections::VecDeque;

/// Begins a session, and answers its number. Its Begin is handed out, and fits each limit that a peer may set (part 2,
/// 2.4.1, 2.5.1, 2.7.2). No link is in it, and nothing waits.
///
/// It is refused with `NotConnected` where the connection isn't open, or a Close was sent or came, with
/// `LocalChannelMaxReached` where no channel is left (part 2, 2.7.1), and with `Memory`. Nothing changes then.
pub fn begin(
    talk: &mut Conversation<Numbered<LinkEnd>>,
    alloc: Global,
    out: &mut VecDeque<SessionFrame>,
) -> Result<u64, EndpointError>
    ensures ok { IfOk result (λ number.
        Hands (λ frames. Begins talk.old number frames talk.new) out.old.items out.new.items) }
    ensures err { IfErr result (BarsBeginning talk.old) }
    ensures kept { OnErr result ((talk.new ≡ talk.old) × (out.new.items ≡ out.old.items)) }
    ensures goes { (limit : ℕ) → Goes limit talk.old talk.new out.old.items out.new.items }
{
    match amqp_endpoint_conversation::begin(talk, alloc, out) {
        Ok(number) => Ok(number),
        Err(error) => Err(of_begin(&error)),
    }
}

/// Accepts the session that the peer asks for on this channel of its, and answers its number. Its Begin is handed out,
/// and fits each limit that a peer may set (part 2, 2.4.1, 2.5.1, 2.7.2). No link is in it, and nothing waits; what the
/// peer asked for in it goes on to be asked for.
///
/// It is refused with `NotConnected` where the connection isn't open, or a Close was sent or came, then with `NotAsked`
/// where the peer asks for no session on the channel, with `LocalChannelMaxReached` where no channel is left (part 2,
/// 2.7.1), and with `Memory`. Nothing changes then.
pub fn accept_begin(
    talk: &mut Conversation<Numbered<LinkEnd>>,
    alloc: Global,
    channel: IncomingChannel,
    out: &mut VecDeque<SessionFrame>,
) -> Result<u64, EndpointError>
    ensures ok { IfOk result (λ number.
        Hands (λ frames. Accepts talk.old channel number frames talk.new) out.old.items out.new.items) }
    ensures err { IfErr result (BarsAccepting talk.old channel) }
    ensures kept { OnErr result ((talk.new ≡ talk.old) × (out.new.items ≡ out.old.items)) }
    ensures goes { (limit : ℕ) → Goes limit talk.old talk.new out.old.items out.new.items }
{
    match amqp_endpoint_conversation::accept(talk, alloc, out, channel) {
        Ok(number) => Ok(number),
        Err(AcceptRefusal::NotAsked) => Err(EndpointError::NotAsked),
        Err(AcceptRefusal::Unbegun(error)) => Err(of_begin(&error)),
    }
}

/// Ends the session with this number: its End is handed out, without an error, and fits each limit that a peer may set
/// (part 2, 2.4.1, 2.5.2, 2.7.8). Its links are given back, as `give_back` does.
///
/// It is refused with `UnknownSession` where no session has the number, with `IllegalState` where it hasn't begun at
/// both ends, or ended at one (part 2, 2.5.5), and with `Memory`. Nothing changes then.
pub fn end(
    talk: &mut Conversation<Numbered<LinkEnd>>,
    links: &mut Links<LinkEnd>,
    number: u64,
    out: &mut VecDeque<SessionFrame>,
) -> Result<(), EndpointError>
    ensures ok { OnOk result
        (Hands (λ frames. EndsOwn talk.old links.old number frames talk.new links.new) out.old.items out.new.items) }
    ensures err { IfErr result (BarsEnding talk.old number) }
    ensures kept { OnErr result
        ((talk.new ≡ talk.old) × (links.new ≡ links.old) × (out.new.items ≡ out.old.items)) }
    ensures goes { (limit : ℕ) → Goes limit talk.old talk.new out.old.items out.new.items }
    ensures rests { Rests talk.old talk.new out.old.items out.new.items }
{
    if talk.sessions.place(number).is_none() {
        return Err(EndpointError::UnknownSession);
    }
    if !talk.is_mapped(number) {
        return Err(EndpointError::IllegalState);
    }
    match amqp_endpoint_conversation::end(talk, out, number, None) {
        Ok(session) => {
            give_back(links, session);
            Ok(())
        }
        Err(_) => Err(EndpointError::Memory),
    }
}

/// Ends the session with this number by its fault, whatever its state: its End is handed out, whose error says the
/// fault's condition, and fits each limit that a peer may set (part 2, 2.4.1, 2.5.2, 2.8.15, 2.8.17). Its links are
/// given back, as `give_back` does, and `Refused` is told.
///
/// It is refused with `IllegalState` where no session with this number has begun, or it is ending or over, and with
/// `Memory`. Nothing changes then.
pub fn fail(
    talk: &mut Conversation<Numbered<LinkEnd>>,
    links: &mut Links<LinkEnd>,
    alloc: Global,
    number: u64,
    fault: SessionError,
    out: &mut VecDeque<SessionFrame>,
    events: &mut Vec<Event>,
) -> Result<(), EndpointError>
    ensures ok { OnOk result
        (Tells (λ frames told. Fails talk.old links.old number fault frames told talk.new links.new)
        out.old.items events.old.items out.new.items events.new.items) }
    ensures err { IfErr result (BarsFailing talk.old number) }
    ensures kept { OnErr result ((talk.new ≡ talk.old) × (links.new ≡ links.old)
        × (out.new.items ≡ out.old.items) × (events.new.items ≡ events.old.items)) }
    ensures goes { (limit : ℕ) → Goes limit talk.old talk.new out.old.items out.new.items }
    ensures rests { Rests talk.old talk.new out.old.items out.new.items }
{
    if talk.sessions.live(number).is_none() {
        return Err(EndpointError::IllegalState);
    }
    if events.reserve(1).is_err() {
        return Err(EndpointError::Memory);
    }
    match amqp_endpoint_conversation::fail(talk, alloc, out, number, &fault) {
        Ok(failed) => {
            give_back(links, failed);
            tell_fault(number, fault, events);
            Ok(())
        }
        Err(_) => Err(EndpointError::Memory),
    }
}

/// Tells of a session that ended by its fault. There is room for it.
fn tell_fault(session: u64, fault: SessionError, events: &mut Vec<Event>)
    requires { vec_len events.old < vec_capacity events.old }
    ensures { events.new.items ≡ events.old.items ++ fault_told session fault }
{
    events.push_reserved(Event::Refused(Refused {
        session,
        link: None,
        error: EndpointError::Session(fault),
    }));
}

/// The endpoint's name for why no session begins.
fn of_begin(error: &BeginError) -> EndpointError
    ensures { result ≡ of_begin error.now }
{
    match error {
        BeginError::ConnectionNotOpened | BeginError::ConnectionStopped => {
            EndpointError::NotConnected
        }
        BeginError::LocalChannelMaxReached => EndpointError::LocalChannelMaxReached,
        BeginError::Memory => EndpointError::Memory,
        _ => EndpointError::IllegalState,
    }
}

//! The peer's Attach (part 2, 2.6.3, 2.7.3).
ghost use Rattle.std.specs.Prelude.{◌≡◌, ◌+◌, ◌<◌, ◌≤◌, ◌++◌, ℕ, IfErr, IfOk, List, [], None, OnErr, OnOk};
ghost use Rattle.std.specs.Vec.{vec_capacity, vec_len};
ghost use Rattle.std.specs.VecDeque.{deque_capacity, deque_len};
ghost use Rattle.amqp_link_unsettled.specs.declared.exchanging.Abort.{Abort};
ghost use Rattle.amqp_endpoint_links.specs.declared.asking.NamedLink.TheVariants.{Waiting};
ghost use Rattle.amqp_endpoint_model.specs.declared.error.EndpointError.TheVariants.{Link as LinkFault};
ghost use Rattle.amqp_endpoint_model.specs.Relay.{IsSessionFault};
ghost use Rattle.amqp_endpoint_model.specs.State.{error_of};
ghost use Rattle.amqp_endpoint_model.specs.Step.{not_allowed};
ghost use Rattle.amqp_endpoint_conversation.specs.Going.{Goes, Rests};
ghost use Rattle.amqp_endpoint_messages.specs.GivingUp.{ClosedFor, attached_told};
ghost use Rattle.amqp_endpoint_messages.specs.GoingOn.{AttachedAt};
ghost use Rattle.amqp_endpoint_messages.specs.MadeReady.{HasRoomToTell, IsMadeReady};
ghost use Rattle.amqp_endpoint_linking.specs.Handed.{Tells};
ghost use Rattle.amqp_endpoint_link_hearing.specs.Attaching.{BecomesBy, ByLink, HearsAttach, MakesRoom, RefusesAttach};
ghost use Rattle.amqp_endpoint_link_hearing.specs.Attaching.{asked_told, of_receiver, of_sender, outcome_of};
ghost use Rattle.amqp_endpoint_link_hearing.specs.InSession.{GoesOn};
ghost use Rattle.amqp_endpoint_link_hearing.specs.Readied.{ClosesIn, ClosesOn, HasItsPlace, IsToBeDone};
ghost use Rattle.amqp_endpoint_link_hearing.specs.Readied.{IsToBeDoneBy, Readies, Serves, ServesItsOwn, count_in};
ghost use Rattle.amqp_endpoint_link_hearing.specs.Readied.{count_of};

use crate::hearing::{Took, attach_of};
use crate::leaving::handle_is_read;
use crate::naming::{named_on, number_of};
use crate::refusing::refuse;
use amqp_endpoint_conversation::Conversation;
use amqp_endpoint_fitting::frames_are_read;
use amqp_endpoint_links::{LinkPerformative, NamedLink, Numbered};
use amqp_endpoint_messages::{
    AttachReady, Closing, close_for, go_on_attached, make_attach_ready, make_closing,
    make_room_to_tell, open_in,
};
use amqp_endpoint_model::{Attached as AttachedEvent, EndpointError, Event, LinkAsked};
use amqp_endpoint_tables::Links;
use amqp_link::{AttachTold, LinkEnd};
use amqp_link_base::AttachExchange;
use amqp_link_receiver::Attached;
use amqp_link_sender::{AttachAnswer, Attaching};
use amqp_link_types::LinkError;
use amqp_session_performatives::{Attach, SessionFrame};
use amqp_session_types::{Boxed, IncomingChannel, OutputHandle};
use serde_amqp_types::Array;
use std::alloc::{AllocError, Global};
use std::collections::VecDeque;

/// Takes the peer's Attach in the session that its channel reaches (part 2, 2.6.3). The link with its name and the
/// other role takes it that waits for it in that session: `Attached` is told, and behind that the outcomes of its
/// messages that the peer's list decides; and the deliveries that are to be given up are, in their order, each by a
/// transfer of its own (part 2, 2.6.13). Where the peer takes no frame of at most `limit` bytes for one of them, or its
/// number is in use, the link is closed: its own closing Detach is handed out behind what it has waiting, `Refused` is
/// told with `FrameTooLarge` or `NumberInUse`, and behind that the outcomes of its messages that end by it. Likewise
/// where the link refuses the Attach, with why. The Detach says no condition of a link's own (part 2, 2.8.15). Where
/// there is no such link, the peer asks for one, and `LinkAsked` is told. In a session that is ending nothing comes of
/// it. A session that refuses it ends by its fault: its End is handed out, its links are given back, and `Refused` is
/// told.
///
/// It ends the connection with `Connection` of `NotFound` where the channel reaches no session, with `Session` where
/// one refuses it that the peer asks for, and with `Memory`. Nothing is handed out or told then, and no link is given
/// back; nor does a session change, but for its room for transfers, and that where there is no memory one that has
/// begun may have refused it.
pub fn hear_attach(
    talk: &mut Conversation<Numbered<LinkEnd>>,
    links: &mut Links<LinkEnd>,
    alloc: Global,
    limit: u32,
    channel: IncomingChannel,
    attach: Boxed<Attach>,
    out: &mut VecDeque<SessionFrame>,
    events: &mut Vec<Event>,
) -> Result<(), EndpointError>
    ensures ok { OnOk result
        (Tells (λ frames told. HearsAttach talk.old links.old limit channel attach frames told talk.new links.new)
        out.old.items events.old.items out.new.items events.new.items) }
    ensures err { IfErr result (λ e.
        IsSessionFault e × RefusesAttach talk.old links.old channel attach e talk.new) }
    ensures kept { OnErr result ((links.new ≡ links.old) × (out.new.items ≡ out.old.items)
        × (events.new.items ≡ events.old.items)) }
    ensures goes { 512 ≤ limit → Goes limit talk.old talk.new out.old.items out.new.items }
    ensures rests { Rests talk.old talk.new out.old.items out.new.items }
{
    let asked = attach.clone()?;
    let named = named_on(talk, links, channel, &attach);
    let closing = closing_on(talk, alloc, channel, named)?;
    make_room_to_tell(events, count_in(&closing))?;
    let ready = make_ready(talk, alloc, limit, closing, &attach, out)?;
    let said = LinkPerformative::Attach(attach, named);
    match amqp_endpoint_conversation::hear(talk, alloc, out, channel, said) {
        Ok(heard) => {
            let took = attach_of(heard);
            let awaited = Awaited {
                named,
                ready,
                asked,
            };
            attach_heard(talk, alloc, took, awaited, out, events);
            Ok(())
        }
        Err(refusal) => match refuse(links, refusal, events) {
            Ok(()) => Ok(()),
            Err(error) => Err(error),
        },
    }
}

/// What an Attach of the peer finds once the session takes it.
#[derive(Drop)]
struct Awaited {
    /// What the endpoint has of the link that it names.
    named: NamedLink,
    /// What is made ready for that link, where it waits for the Attach in a session that has begun.
    ready: Option<AttachReady>,
    /// The Attach, to be told where the peer asks for a link by it.
    asked: Boxed<Attach>,
}

/// What the link that waits for the Attach is closed with where it can't take it, if one waits in the session that the
/// channel reaches, and that has begun. It is refused where there is no memory.
fn closing_on(
    talk: &Conversation<Numbered<LinkEnd>>,
    alloc: Global,
    channel: IncomingChannel,
    named: NamedLink,
) -> Result<Option<Closing>, AllocError>
    ensures { IfOk result (ClosesOn talk.now channel named) }
{
    match named {
        NamedLink::Waiting(handle) => closing_in(talk, alloc, channel, handle),
        NamedLink::Absent => Ok(None),
        NamedLink::Attached => Ok(None),
    }
}

/// The same of the link with this own handle in that session.
fn closing_in(
    talk: &Conversation<Numbered<LinkEnd>>,
    alloc: Global,
    channel: IncomingChannel,
    handle: OutputHandle,
) -> Result<Option<Closing>, AllocError>
    ensures { IfOk result (ClosesOn talk.now channel (Waiting handle)) }
{
    let Some(number) = talk.sessions.reached(channel) else {
        return Ok(None);
    };
    let Some(session) = talk.sessions.live(number) else {
        return Ok(None);
    };
    let count = open_in(session, handle);
    match make_closing(session, alloc, number, handle, count) {
        Ok(closing) => Ok(Some(closing)),
        Err(error) => Err(error),
    }
}

/// How many messages of that link are open.
fn count_in(closing: &Option<Closing>) -> usize
    ensures { result ≡ count_in closing.now }
{
    match closing {
        Some(closing) => closing.count,
        None => 0,
    }
}

/// Makes ready what the Attach leaves to be done for the link that waits for it, with what that is closed with, if one
/// waits. It is refused where there is no memory, and nothing changes then.
fn make_ready(
    talk: &mut Conversation<Numbered<LinkEnd>>,
    alloc: Global,
    limit: u32,
    closing: Option<Closing>,
    attach: &Attach,
    out: &mut VecDeque<SessionFrame>,
) -> Result<Option<AttachReady>, AllocError>
    requires { HasItsPlace talk.old closing }
    ensures ready { (channel : IncomingChannel) (named : NamedLink) → ClosesOn talk.old channel named closing →
        IfOk result (Readies limit talk.new channel named attach.now (deque_len out.new) (deque_capacity out.new)) }
    ensures counts { IfOk result (λ ready. count_of ready ≡ count_in closing) }
    ensures made { (channel : IncomingChannel) (named : NamedLink) → ClosesOn talk.old channel named closing →
        OnOk result (MakesRoom named talk.old channel talk.new) }
    ensures kept { OnErr result (talk.new ≡ talk.old) }
    ensures out { out.new.items ≡ out.old.items }
{
    let Some(closing) = closing else {
        return Ok(None);
    };
    let Some(session) = talk.sessions.live_mut(closing.session) else {
        unreachable!()
    };
    match make_attach_ready(session, alloc, limit, closing, attach, out) {
        Ok(ready) => Ok(Some(ready)),
        Err(error) => Err(error),
    }
}

/// The Attach was heard. There is room for what is told, and what was made ready serves the link that waited for it.
fn attach_heard(
    talk: &mut Conversation<Numbered<LinkEnd>>,
    alloc: Global,
    took: Took,
    awaited: Awaited,
    out: &mut VecDeque<SessionFrame>,
    events: &mut Vec<Event>,
)
    requires serves { Serves talk.old took awaited.named (deque_len out.old) (deque_capacity out.old) awaited.ready }
    requires tells { HasRoomToTell (count_of awaited.ready) (vec_len events.old + 1) (vec_capacity events.old) }
    ensures becomes { (limit : ℕ) → IsToBeDoneBy limit took awaited.named awaited.ready →
        Tells (λ frames told. BecomesBy limit (count_of awaited.ready) took awaited.named talk.old awaited.asked frames
        told talk.new)
        out.old.items events.old.items out.new.items events.new.items }
    ensures goes { (limit : ℕ) → IsToBeDoneBy limit took awaited.named awaited.ready → 512 ≤ limit →
        Goes limit talk.old talk.new out.old.items out.new.items }
    ensures rests { (limit : ℕ) → IsToBeDoneBy limit took awaited.named awaited.ready →
        Rests talk.old talk.new out.old.items out.new.items }
{
    let Awaited {
        named,
        ready,
        asked,
    } = awaited;
    match took {
        Took::Asked(session) => tell_asked(session, asked, events),
        Took::ByLink(_session, told) => match named {
            NamedLink::Waiting(_handle) => match ready {
                Some(ready) => take_by_link(talk, alloc, told, ready, out, events),
                None => unreachable!(),
            },
            NamedLink::Absent => {}
            NamedLink::Attached => {}
        },
        Took::Nothing => {}
    }
}

/// The link for which this was made ready took the Attach, and what that leaves to be done is done; or it refuses it,
/// and is closed.
fn take_by_link(
    talk: &mut Conversation<Numbered<LinkEnd>>,
    alloc: Global,
    told: AttachTold,
    ready: AttachReady,
    out: &mut VecDeque<SessionFrame>,
    events: &mut Vec<Event>,
)
    requires serves { ServesItsOwn talk.old (deque_len out.old) (deque_capacity out.old) ready }
    requires tells { HasRoomToTell ready.closing.count (vec_len events.old + 1) (vec_capacity events.old) }
    ensures takes { (limit : ℕ) → IsToBeDone limit told ready →
        Tells (λ frames told_now. ByLink limit ready.closing.count talk.old ready.closing.session ready.closing.handle
        told frames told_now talk.new)
        out.old.items events.old.items out.new.items events.new.items }
    ensures goes { (limit : ℕ) → IsToBeDone limit told ready → 512 ≤ limit →
        Goes limit talk.old talk.new out.old.items out.new.items }
    ensures rests { (limit : ℕ) → IsToBeDone limit told ready → Rests talk.old talk.new out.old.items out.new.items }
{
    let link = number_of(talk, ready.closing.session, ready.closing.handle);
    match outcome_of(alloc, told) {
        Ok(attaching) => {
            let Attaching {
                exchange,
                aborts: _,
            } = attaching;
            tell_attached(link, exchange, events);
            go_on(talk, alloc, ready, out, events);
        }
        Err(error) => close(talk, alloc, ready.closing, error, out, events),
    }
}

/// What the Attach leaves to be done for the link for which this was made ready is done.
fn go_on(
    talk: &mut Conversation<Numbered<LinkEnd>>,
    alloc: Global,
    ready: AttachReady,
    out: &mut VecDeque<SessionFrame>,
    events: &mut Vec<Event>,
)
    requires serves { ServesItsOwn talk.old (deque_len out.old) (deque_capacity out.old) ready }
    requires tells { HasRoomToTell ready.closing.count (vec_len events.old) (vec_capacity events.old) }
    ensures does { (limit : ℕ) (aborts : List Abort) → IsMadeReady limit ready.closing.handle aborts ready.giving →
        Tells (λ frames told. GoesOn (AttachedAt limit ready.closing.session ready.closing.count ready.closing.handle
        (error_of not_allowed) aborts None [] frames told) talk.old ready.closing.session talk.new)
        out.old.items events.old.items out.new.items events.new.items }
    ensures goes { (limit : ℕ) (aborts : List Abort) → IsMadeReady limit ready.closing.handle aborts ready.giving →
        512 ≤ limit → Goes limit talk.old talk.new out.old.items out.new.items }
    ensures rests { (limit : ℕ) (aborts : List Abort) → IsMadeReady limit ready.closing.handle aborts ready.giving →
        Rests talk.old talk.new out.old.items out.new.items }
{
    handle_is_read(ready.closing.handle);
    let from = out.len();
    let Some(live) = talk.sessions.live_mut(ready.closing.session) else {
        unreachable!()
    };
    go_on_attached(live, alloc, ready, None, out, events);
    frames_are_read(out, from);
}

/// The link for which this was made ready, which refuses the Attach for this, is closed.
fn close(
    talk: &mut Conversation<Numbered<LinkEnd>>,
    alloc: Global,
    closing: Closing,
    error: LinkError,
    out: &mut VecDeque<SessionFrame>,
    events: &mut Vec<Event>,
)
    requires closes { ClosesIn talk.old (deque_len out.old) (deque_capacity out.old) closing }
    requires tells { vec_len events.old + (closing.count + 1) ≤ vec_capacity events.old }
    ensures does { Tells (λ frames told. GoesOn (ClosedFor closing.session (LinkFault error) closing.count
        closing.handle (error_of not_allowed) frames told) talk.old closing.session talk.new)
        out.old.items events.old.items out.new.items events.new.items }
    ensures goes { (limit : ℕ) → 512 ≤ limit → Goes limit talk.old talk.new out.old.items out.new.items }
    ensures rests { Rests talk.old talk.new out.old.items out.new.items }
{
    handle_is_read(closing.handle);
    let from = out.len();
    let Some(live) = talk.sessions.live_mut(closing.session) else {
        unreachable!()
    };
    close_for(
        live,
        alloc,
        closing,
        EndpointError::Link(error),
        out,
        events,
    );
    frames_are_read(out, from);
}

/// What a link makes of the peer's Attach: what is left to be done, or why it refuses it.
fn outcome_of(alloc: Global, told: AttachTold) -> Result<Attaching, LinkError>
    ensures { result ≡ outcome_of told }
{
    match told {
        AttachTold::Sender(answer) => of_sender(answer),
        AttachTold::Receiver(answer) => of_receiver(alloc, answer),
    }
}

/// What a sending link makes of it.
fn of_sender(answer: AttachAnswer) -> Result<Attaching, LinkError>
    ensures { result ≡ of_sender answer }
{
    match answer {
        AttachAnswer::Refused(error) => Err(LinkError::SenderAttach(error)),
        AttachAnswer::Attached(attaching) => Ok(attaching),
    }
}

/// What a receiving link makes of it.
fn of_receiver(alloc: Global, answer: Attached) -> Result<Attaching, LinkError>
    ensures { result ≡ of_receiver answer }
{
    match answer {
        Attached::Refused(error) => Err(LinkError::ReceiverAttach(error)),
        Attached::Attached { exchange } => Ok(Attaching {
            exchange,
            aborts: Array::new(alloc),
        }),
    }
}

/// Tells that the peer asks for a link by this Attach. There is room for it.
fn tell_asked(session: u64, attach: Boxed<Attach>, events: &mut Vec<Event>)
    requires { vec_len events.old < vec_capacity events.old }
    ensures { events.new.items ≡ events.old.items ++ asked_told session attach }
{
    events.push_reserved(Event::LinkAsked(LinkAsked { session, attach }));
}

/// Tells that a link is attached at both ends. There is room for it.
fn tell_attached(link: u64, exchange: AttachExchange, events: &mut Vec<Event>)
    requires { vec_len events.old < vec_capacity events.old }
    ensures told { events.new.items ≡ events.old.items ++ attached_told link exchange }
    ensures len { vec_len events.new ≡ vec_len events.old + 1 }
    ensures capacity { vec_capacity events.new ≡ vec_capacity events.old }
{
    events.push_reserved(Event::Attached(AttachedEvent { link, exchange }));
}

//! The peer's Transfer (part 2, 2.5.6, 2.6.12, 2.7.5).
ghost use Rattle.std.specs.Prelude.{◌≡◌, ◌≤◌, ◌<◌, ◌+◌, ◌-◌, ◌^◌, ◌++◌, ℕ, IfErr, IfOk, IfSome, IsSome, OnErr, OnOk};
ghost use Rattle.std.specs.Prelude.{option_to_list, true};
ghost use Rattle.std.specs.Vec.{vec_capacity, vec_len};
ghost use Rattle.std.specs.VecDeque.{deque_capacity, deque_len};
ghost use Rattle.amqp_endpoint_fitting.specs.Read.{IsRead};
ghost use Rattle.amqp_endpoint_model.specs.Relay.{IsSessionFault};
ghost use Rattle.amqp_endpoint_model.specs.declared.error.EndpointError.TheVariants.{Memory};
ghost use Rattle.amqp_endpoint_tables.specs.State.{live_at};
ghost use Rattle.amqp_endpoint_conversation.specs.Going.{Goes, Rests};
ghost use Rattle.amqp_endpoint_linking.specs.Handed.{Tells};
ghost use Rattle.amqp_endpoint_linking.specs.Linking.{Session};
ghost use Rattle.amqp_endpoint_link_hearing.specs.Leaving.{HasPlace};
ghost use Rattle.amqp_endpoint_link_hearing.specs.Naming.{link_of};
ghost use Rattle.amqp_endpoint_link_hearing.specs.Reached.{counts_of, link_on};
ghost use Rattle.amqp_endpoint_link_hearing.specs.Taking.{ClosesBy, DoneFor, FailsFor, FailsIn, FlowFits, HasBack};
ghost use Rattle.amqp_endpoint_link_hearing.specs.Taking.{HasNumber, HasNumberIn, IsClosedFor, IsClosing};
ghost use Rattle.amqp_endpoint_link_hearing.specs.Taking.{MayBeNumbered, StandsIn, TakenBy, TakenIn};
ghost use Rattle.amqp_endpoint_link_hearing.specs.Taking.{fault_told, reached_of};
ghost use Rattle.amqp_endpoint_link_hearing.specs.Transferring.{HearsTransfer, IsUnnumbered, RefusesTransfer};
ghost use Rattle.amqp_endpoint_link_hearing.specs.Transferring.{condition_of, transfer_of};

use crate::closing::{Condition, close, make_closing};
use crate::handing::{hand_over, own_handle};
use crate::leaving::Answer;
use crate::naming::number_of;
use crate::reaching::{Counts, completes_of, counts_of, link_on, set_counts};
use crate::refusing::refuse;
use amqp_endpoint_conversation::{Conversation, Heard};
use amqp_endpoint_fitting::frames_are_read;
use amqp_endpoint_links::{LinkPerformative, Numbered, PerformativeTaken};
use amqp_endpoint_model::{EndpointError, Event, Refused};
use amqp_endpoint_tables::Links;
use amqp_link::{AttachTold, LinkEnd};
use amqp_link_base::Detached;
use amqp_link_receiver::Told;
use amqp_link_types::{LinkError, ReceiverTransferError};
use amqp_session_core::TransferTaken;
use amqp_session_performatives::{SessionFrame, Transfer};
use amqp_session_types::{Handle, IncomingChannel, OutputHandle};
use bytes::Bytes;
use std::alloc::{AllocError, Global};
use std::collections::VecDeque;

/// Takes the peer's Transfer, with its payload, in the session that its channel reaches (part 2, 2.5.6, 2.6.12, 2.7.5):
/// the link that the peer's handle reaches takes it. A message that it completes is handed out: `Message` is told, with
/// the number that `given` is, which is one more from then on; with the link's number; with the message's delivery, as
/// its transfers said it, and its bytes as they came; and settled as its sender settled it. Where it isn't settled the
/// link remembers the number. A link that refuses the transfer is closed, and `Refused` is told, with
/// amqp:link:transfer-limit-exceeded, amqp:link:message-size-exceeded or amqp:not-allowed (part 2, 2.8.15, 2.8.18): its
/// own closing Detach is handed out, or waits behind what the link has waiting. Nothing is told of a transfer behind
/// which more are to come, of a delivery whose message was handed out in an earlier attachment, and of one that the
/// peer gives up. Behind all that the Flow of the session is handed out that the transfer makes due. In a session that
/// is ending nothing comes of it. A session that refuses it ends by its fault: its End is handed out, its links are
/// given back, and `Refused` is told.
///
/// It ends the connection with `NumbersUsedUp` exactly where the link that it reaches would hand out a message for it,
/// if there is memory, and `given` is 2^64 - 1, which is no message's number: it isn't heard then, and nothing changes.
/// It ends it with `Connection` of `NotFound` where the channel reaches no session, with `Session` where one refuses it
/// that the peer asks for, and with `Memory`. Nothing is handed out or told then, no message gets a number, and no link
/// is given back; nor does a session change, but that where there is no memory one that has begun may have refused it,
/// or taken it for a link that is to be closed for it. That link stands as before then, with its credit.
pub fn hear_transfer(
    talk: &mut Conversation<Numbered<LinkEnd>>,
    links: &mut Links<LinkEnd>,
    given: &mut u64,
    alloc: Global,
    channel: IncomingChannel,
    transfer: Transfer,
    payload: Bytes,
    out: &mut VecDeque<SessionFrame>,
    events: &mut Vec<Event>,
) -> Result<(), EndpointError>
    ensures ok { OnOk result
        (Tells (λ frames told. HearsTransfer talk.old links.old given.old channel transfer payload frames told
        talk.new links.new given.new)
        out.old.items events.old.items out.new.items events.new.items) }
    ensures err { IfErr result (λ e.
        IsSessionFault e × RefusesTransfer talk.old given.old channel transfer payload e talk.new) }
    ensures kept { OnErr result ((links.new ≡ links.old) × (given.new ≡ given.old)
        × (out.new.items ≡ out.old.items) × (events.new.items ≡ events.old.items)) }
    ensures goes { (limit : ℕ) → 512 ≤ limit →
        Goes limit talk.old talk.new out.old.items out.new.items }
    ensures rests { Rests talk.old talk.new out.old.items out.new.items }
{
    let counts = foresee(talk, *given, channel, &transfer, &payload)?;
    make_room(out, events)?;
    take_transfer(
        talk, links, given, alloc, channel, counts, transfer, payload, out, events,
    )?;
    Ok(())
}

/// The counts of the link that it reaches, once a number is left for the message that it would complete.
fn foresee(
    talk: &Conversation<Numbered<LinkEnd>>,
    given: u64,
    channel: IncomingChannel,
    transfer: &Transfer,
    payload: &Bytes,
) -> Result<Counts, EndpointError>
    ensures counts { IfOk result (λ counts. counts ≡ counts_of (link_on talk.now channel transfer.now.handle.0)) }
    ensures left { OnOk result (MayBeNumbered talk.now given channel transfer.now payload.now) }
    ensures err { IfErr result (λ e.
        IsUnnumbered talk.now given channel transfer.now payload.now e talk.now) }
{
    let link = link_on(talk, channel, transfer.handle);
    if given < u64::MAX {
        return Ok(counts_of(link));
    }
    if completes_of(link, transfer, payload) {
        return Err(EndpointError::NumbersUsedUp);
    }
    Ok(counts_of(link))
}

/// There is room for what is told, for a Detach and for the session's Flow.
fn make_room(out: &mut VecDeque<SessionFrame>, events: &mut Vec<Event>) -> Result<(), EndpointError>
    ensures ok { OnOk result ((deque_len out.new + 1 < deque_capacity out.new)
        × (vec_len events.new < vec_capacity events.new)) }
    ensures err { IfErr result (λ e. e ≡ Memory) }
    ensures out { out.new.items ≡ out.old.items }
    ensures events { events.new.items ≡ events.old.items }
{
    events.reserve(1)?;
    out.reserve(2)?;
    Ok(())
}

/// Takes it. The counts are those of the link that it reaches, a number is left for the message that it would complete,
/// and there is room for what it tells, for a Detach and for the session's Flow.
#[inline(never)]
fn take_transfer(
    talk: &mut Conversation<Numbered<LinkEnd>>,
    links: &mut Links<LinkEnd>,
    given: &mut u64,
    alloc: Global,
    channel: IncomingChannel,
    counts: Counts,
    transfer: Transfer,
    payload: Bytes,
    out: &mut VecDeque<SessionFrame>,
    events: &mut Vec<Event>,
) -> Result<(), EndpointError>
    requires counts { counts ≡ counts_of (link_on talk.old channel transfer.handle.0) }
    requires left { MayBeNumbered talk.old given.old channel transfer payload }
    requires spare { deque_len out.old + 1 < deque_capacity out.old }
    requires room { vec_len events.old < vec_capacity events.old }
    ensures ok { OnOk result
        (Tells (λ frames told. HearsTransfer talk.old links.old given.old channel transfer payload frames told
        talk.new links.new given.new)
        out.old.items events.old.items out.new.items events.new.items) }
    ensures err { IfErr result (λ e.
        IsSessionFault e × RefusesTransfer talk.old given.old channel transfer payload e talk.new) }
    ensures kept { OnErr result ((links.new ≡ links.old) × (given.new ≡ given.old)
        × (out.new.items ≡ out.old.items) × (events.new.items ≡ events.old.items)) }
    ensures goes { (limit : ℕ) → 512 ≤ limit →
        Goes limit talk.old talk.new out.old.items out.new.items }
    ensures rests { Rests talk.old talk.new out.old.items out.new.items }
{
    let handle = transfer.handle;
    let said = LinkPerformative::Transfer(transfer, payload);
    match amqp_endpoint_conversation::hear(talk, alloc, out, channel, said) {
        Ok(heard) => {
            let took = transfer_of(heard);
            match transfer_heard(talk, given, alloc, handle, counts, took, out, events) {
                Ok(()) => Ok(()),
                Err(error) => Err(error),
            }
        }
        Err(refusal) => match refuse(links, refusal, events) {
            Ok(()) => Ok(()),
            Err(error) => Err(error),
        },
    }
}

/// The session of the link that took a Transfer that was heard, what the link tells, and the Flow of the session that
/// it makes due, if one took it.
fn transfer_of(heard: Heard<AttachTold, Told, Detached>) -> Option<(u64, TransferTaken<Told>)>
    ensures { result ≡ transfer_of heard }
{
    match heard {
        Heard::Live(session, taken) => match taken {
            PerformativeTaken::Transfer(taken) => Some((session, taken)),
            _ => None,
        },
        Heard::Asked(_) | Heard::Dropped(_) => None,
    }
}

/// The Transfer was heard, and the link that the peer's handle reaches took it, if one did, and had these counts
/// before. A number is left for its message, and there is room for what is told, for a Detach and for the session's Flow.
fn transfer_heard(
    talk: &mut Conversation<Numbered<LinkEnd>>,
    given: &mut u64,
    alloc: Global,
    handle: Handle,
    counts: Counts,
    took: Option<(u64, TransferTaken<Told>)>,
    out: &mut VecDeque<SessionFrame>,
    events: &mut Vec<Event>,
) -> Result<(), EndpointError>
    requires stands { StandsIn talk.old handle.0 took }
    requires left { HasNumberIn took given.old }
    requires spare { deque_len out.old + 1 < deque_capacity out.old }
    requires room { vec_len events.old < vec_capacity events.old }
    ensures ok { OnOk result
        (Tells (λ frames told. TakenIn took given.old talk.old handle.0 frames told talk.new given.new)
        out.old.items events.old.items out.new.items events.new.items) }
    ensures err { IfErr result (λ e. FailsIn took counts talk.old handle.0 e talk.new) }
    ensures kept { OnErr result ((given.new ≡ given.old) × (out.new.items ≡ out.old.items)
        × (events.new.items ≡ events.old.items)) }
    ensures goes { (limit : ℕ) → 512 ≤ limit →
        Goes limit talk.old talk.new out.old.items out.new.items }
    ensures rests { Rests talk.old talk.new out.old.items out.new.items }
{
    let Some(it) = took else {
        return Ok(());
    };
    let (session, taken) = it;
    taken_by_link(
        talk, given, alloc, session, handle, counts, taken, out, events,
    )
}

/// The link that the peer's handle reaches took it, and had these counts before: what is to be done for what it tells
/// is done, and the session's Flow goes behind. A number is left for its message, and there is room for all that.
fn taken_by_link(
    talk: &mut Conversation<Numbered<LinkEnd>>,
    given: &mut u64,
    alloc: Global,
    session: u64,
    handle: Handle,
    counts: Counts,
    taken: TransferTaken<Told>,
    out: &mut VecDeque<SessionFrame>,
    events: &mut Vec<Event>,
) -> Result<(), EndpointError>
    requires there { IsSome (reached_of talk.old session handle.0) }
    requires flow { FlowFits taken.flow }
    requires left { HasNumber taken.told given.old }
    requires spare { deque_len out.old + 1 < deque_capacity out.old }
    requires room { vec_len events.old < vec_capacity events.old }
    ensures ok { OnOk result
        (Tells (λ frames told. TakenBy taken given.old talk.old session handle.0 frames told talk.new given.new)
        out.old.items events.old.items out.new.items events.new.items) }
    ensures err { IfErr result (λ e. FailsFor taken.told counts talk.old session handle.0 e talk.new) }
    ensures kept { OnErr result ((given.new ≡ given.old) × (out.new.items ≡ out.old.items)
        × (events.new.items ≡ events.old.items)) }
    ensures goes { (limit : ℕ) → 512 ≤ limit →
        Goes limit talk.old talk.new out.old.items out.new.items }
    ensures rests { Rests talk.old talk.new out.old.items out.new.items }
{
    let TransferTaken { told, flow } = taken;
    match do_for(
        talk, given, alloc, session, handle, counts, told, out, events,
    ) {
        Ok(()) => {
            hand_out(flow, out);
            Ok(())
        }
        Err(error) => {
            drop(flow);
            Err(error)
        }
    }
}

/// What is to be done for what the link tells that the peer's handle reaches: its message is handed out, or it is
/// closed for its fault. It had these counts before, a number is left for its message, and there is room for all that.
fn do_for(
    talk: &mut Conversation<Numbered<LinkEnd>>,
    given: &mut u64,
    alloc: Global,
    session: u64,
    handle: Handle,
    counts: Counts,
    told: Told,
    out: &mut VecDeque<SessionFrame>,
    events: &mut Vec<Event>,
) -> Result<(), EndpointError>
    requires there { IsSome (reached_of talk.old session handle.0) }
    requires left { HasNumber told given.old }
    requires spare { deque_len out.old + 1 < deque_capacity out.old }
    requires room { vec_len events.old < vec_capacity events.old }
    ensures ok { OnOk result
        (Tells (λ frames said. DoneFor told given.old talk.old session handle.0 frames said talk.new given.new)
        out.old.items events.old.items out.new.items events.new.items) }
    ensures err { IfErr result (λ e. FailsFor told counts talk.old session handle.0 e talk.new) }
    ensures kept { OnErr result ((given.new ≡ given.old) × (out.new.items ≡ out.old.items)
        × (events.new.items ≡ events.old.items)) }
    ensures spare { deque_len out.new < deque_capacity out.new }
    ensures goes { (limit : ℕ) → 512 ≤ limit →
        Goes limit talk.old talk.new out.old.items out.new.items }
    ensures rests { Rests talk.old talk.new out.old.items out.new.items }
{
    match told {
        Told::Message(message) => {
            let handle = own_handle(talk, session, handle);
            hand_over(talk, given, alloc, session, handle, message, events);
            Ok(())
        }
        Told::Refused(error) => close_for(talk, alloc, session, handle, counts, error, out, events),
        Told::Nothing => Ok(()),
        Told::Joined { number: _, tag: _ } => Ok(()),
        Told::Dropped => Ok(()),
    }
}

/// What the Detach of a link says that is closed for this fault (part 2, 2.8.15, 2.8.18).
fn condition_of(error: ReceiverTransferError) -> Condition
    ensures { result ≡ condition_of error }
{
    match error {
        ReceiverTransferError::TransferLimitExceeded => Condition::TransferLimitExceeded,
        ReceiverTransferError::MessageSizeExceeded => Condition::MessageSizeExceeded,
        _ => Condition::NotAllowed,
    }
}

/// The session's Flow is handed out, where one is due. There is room for it.
pub(crate) fn hand_out(flow: Option<SessionFrame>, out: &mut VecDeque<SessionFrame>)
    requires spare { deque_len out.old < deque_capacity out.old }
    ensures handed { out.new.items ≡ out.old.items ++ option_to_list flow }
    ensures read { IfSome flow IsRead }
{
    let Some(frame) = flow else {
        return;
    };
    let from = out.len();
    out.push_back_reserved(frame);
    frames_are_read(out, from);
}

/// The link that the peer's handle reaches is closed for this fault. There is room for it. Where there is no memory it
/// has the counts again that it had before.
fn close_for(
    talk: &mut Conversation<Numbered<LinkEnd>>,
    alloc: Global,
    session: u64,
    handle: Handle,
    counts: Counts,
    error: ReceiverTransferError,
    out: &mut VecDeque<SessionFrame>,
    events: &mut Vec<Event>,
) -> Result<(), EndpointError>
    requires there { IsSome (reached_of talk.old session handle.0) }
    requires spare { deque_len out.old + 1 < deque_capacity out.old }
    requires room { vec_len events.old < vec_capacity events.old }
    ensures ok { OnOk result (Tells (λ frames told. ClosesBy error talk.old session handle.0 frames told talk.new)
        out.old.items events.old.items out.new.items events.new.items) }
    ensures err { IfErr result (λ e. (e ≡ Memory) × HasBack counts talk.old session handle.0 talk.new) }
    ensures kept { OnErr result ((out.new.items ≡ out.old.items)
        × (events.new.items ≡ events.old.items)) }
    ensures spare { deque_len out.new < deque_capacity out.new }
    ensures goes { (limit : ℕ) → 512 ≤ limit →
        Goes limit talk.old talk.new out.old.items out.new.items }
    ensures rests { Rests talk.old talk.new out.old.items out.new.items }
{
    let handle = own_handle(talk, session, handle);
    let Ok(answer) = closing_of(talk, alloc, session, handle, error) else {
        set_counts(talk, session, handle, counts);
        return Err(EndpointError::Memory);
    };
    close_by_link(talk, session, handle, answer, error, out, events);
    Ok(())
}

/// Makes ready to close the link with this own handle by its Detach. It is refused where there is no memory.
fn closing_of(
    talk: &Conversation<Numbered<LinkEnd>>,
    alloc: Global,
    session: u64,
    handle: OutputHandle,
    error: ReceiverTransferError,
) -> Result<Answer, AllocError>
    requires { IsSome (link_of talk.now session handle) }
    ensures { IfOk result (IsClosing talk.now session handle error) }
{
    let Some(session) = talk.sessions.live(session) else {
        unreachable!()
    };
    make_closing(session, alloc, handle, condition_of(error))
}

/// The link is closed for this fault by what was made ready. There is room for it.
fn close_by_link(
    talk: &mut Conversation<Numbered<LinkEnd>>,
    session: u64,
    handle: OutputHandle,
    answer: Answer,
    error: ReceiverTransferError,
    out: &mut VecDeque<SessionFrame>,
    events: &mut Vec<Event>,
)
    requires there { IsSome (link_of talk.old session handle) }
    requires place { (s : Session) → live_at talk.old.sessions session ≡ Some s →
        HasPlace s.value handle true answer.error answer.place }
    requires spare { deque_len out.old < deque_capacity out.old }
    requires room { vec_len events.old < vec_capacity events.old }
    ensures closed { Tells (λ frames told. IsClosedFor talk.old session handle answer.error error frames told talk.new)
        out.old.items events.old.items out.new.items events.new.items }
    ensures added { deque_len out.new ≤ deque_len out.old + 1 }
    ensures capacity { deque_capacity out.new ≡ deque_capacity out.old }
    ensures goes { (limit : ℕ) → 512 ≤ limit →
        Goes limit talk.old talk.new out.old.items out.new.items }
    ensures rests { Rests talk.old talk.new out.old.items out.new.items }
{
    let link = number_of(talk, session, handle);
    close(talk, session, handle, answer, out);
    tell_fault(session, link, error, events);
}

/// Tells that a link is closed here, for this fault of its peer. There is room for it.
fn tell_fault(session: u64, link: u64, error: ReceiverTransferError, events: &mut Vec<Event>)
    requires { vec_len events.old < vec_capacity events.old }
    ensures { events.new.items ≡ events.old.items ++ fault_told session link error }
{
    events.push_reserved(Event::Refused(Refused {
        session,
        link: Some(link),
        error: EndpointError::Link(LinkError::ReceiverTransfer(error)),
    }));
}

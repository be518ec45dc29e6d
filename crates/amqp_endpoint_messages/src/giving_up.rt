//! How a link gives deliveries up once it is attached at both ends, and is closed where it can't (part 2, 2.6.6, 2.6.13,
//! 2.7.5).
ghost use Rattle.std.specs.Prelude.{◌≡◌, ◌+◌, ◌≤◌, ◌<◌, ℕ, [], ◌∷◌, All, IfOk, IsSome, None, OnErr, OnOk, length};
ghost use Rattle.std.specs.Vec.{vec_capacity, vec_len};
ghost use Rattle.std.specs.VecDeque.{deque_capacity, deque_len};
ghost use Rattle.amqp_session_types.specs.declared.handles.OutputHandle.{OutputHandle};
ghost use Rattle.amqp_session_outgoing.specs.Queues.{frames_in, room_behind};
ghost use Rattle.amqp_session_core.specs.Batch.{first_of};
ghost use Rattle.amqp_session_core.specs.State.{link_at};
ghost use Rattle.amqp_link_unsettled.specs.declared.exchanging.Abort.{Abort};
ghost use Rattle.amqp_endpoint_model.specs.State.{error_of};
ghost use Rattle.amqp_endpoint_model.specs.Step.{not_allowed as condition};
ghost use Rattle.amqp_endpoint_attached.specs.Detaching.{is_there};
ghost use Rattle.amqp_endpoint_attached.specs.Linked.{end_at, end_in};
ghost use Rattle.amqp_endpoint_messages.specs.GivingUp.{DoesClosedFor, HandsEach, IsBare};
ghost use Rattle.amqp_endpoint_messages.specs.GivingUp.{abort_on, given_up_by, planned_at, stuck_by};
ghost use Rattle.amqp_endpoint_messages.specs.GivingUp.{transfer_fits};
ghost use Rattle.amqp_endpoint_messages.specs.MadeReady.{ClosesOut, HasRoomToTell, IsClosing, IsMadeReady, IsPlanned};
ghost use Rattle.amqp_endpoint_messages.specs.MadeReady.{MadeRoomIn};

use crate::cutting::on_handle;
use crate::ending::tell_first;
use crate::taking::hand_over;
use amqp_endpoint_attached::{LinkSession, detach_placed};
use amqp_endpoint_links::Numbered;
use amqp_endpoint_model::{EndpointError, Event, Refused};
use amqp_link::{LinkEnd, PreparedAttach};
use amqp_link_sender::SenderLink;
use amqp_link_types::LinkError;
use amqp_link_unsettled::{Abort, fits_text};
use amqp_session_core::{Batch, BehindFrame, Session};
use amqp_session_outgoing::Place;
use amqp_session_performatives::{Attach, SessionFrame, Transfer};
use amqp_session_types::{OutputHandle, definitions};
use bytes::Bytes;
use serde_amqp_types::Symbol;
use std::alloc::{AllocError, Global};
use std::collections::VecDeque;

/// The deliveries that a link gives up, made ready to be handed to its session.
#[derive(Drop)]
pub struct GivingUp {
    /// A batch for each before the first of which the peer takes no frame, in their order.
    pub batches: VecDeque<Batch>,
    /// Whether it takes one for each.
    pub all_fit: bool,
}

/// What a link is closed with where it can't stay attached, made ready while it can.
#[derive(Drop)]
pub struct Closing {
    /// The number of its session.
    pub session: u64,
    /// Its own handle there.
    pub handle: OutputHandle,
    /// How many of its messages are open.
    pub count: usize,
    /// What its Detach says (part 2, 2.8.15).
    pub why: definitions::Error,
    /// Room for that Detach behind what the link has waiting then.
    pub place: Place<BehindFrame>,
}

/// What the link is closed with that has this own handle in the session with this number, or is to get it, and of whose
/// messages so many are open. It is refused where there is no memory.
pub fn make_closing(
    session: &LinkSession,
    alloc: Global,
    number: u64,
    handle: OutputHandle,
    count: usize,
) -> Result<Closing, AllocError>
    ensures { IfOk result (IsClosing session.now number handle count) }
{
    let why = not_allowed(alloc)?;
    match session.session.place_behind_more(alloc, handle, 1) {
        Ok(place) => Ok(Closing {
            session: number,
            handle,
            count,
            why,
            place,
        }),
        Err(_) => Err(AllocError),
    }
}

/// Room for two events, and for twice so many more.
pub fn make_room_to_tell(events: &mut Vec<Event>, count: usize) -> Result<(), AllocError>
    ensures room { OnOk result (HasRoomToTell count (vec_len events.new + 1) (vec_capacity events.new)) }
    ensures same { events.new.items ≡ events.old.items }
{
    let failed = count.checked_add(2).ok_or(AllocError)?;
    events.reserve(count.checked_add(failed).ok_or(AllocError)?)
}

/// The deliveries that the link with this own handle gives up by the peer's Attach, made ready. It is refused where
/// there is no memory.
pub(crate) fn giving_up_in(
    session: &Session<Numbered<LinkEnd>>,
    alloc: Global,
    limit: u32,
    handle: OutputHandle,
    attach: &Attach,
) -> Result<GivingUp, AllocError>
    ensures { IfOk result (IsMadeReady limit handle (planned_at (end_in session.now handle) attach.now)) }
{
    let Some(link) = session.link(handle) else {
        return Ok(none(alloc));
    };
    let decided = link.link.prepare_attach(alloc, attach)?;
    giving_up_by(alloc, limit, handle, &decided)
}

/// The deliveries that are given up as the link takes the Attach that was made ready for it, or none where it refuses
/// it. It is refused where there is no memory.
fn giving_up_by(
    alloc: Global,
    limit: u32,
    handle: OutputHandle,
    decided: &Result<PreparedAttach, LinkError>,
) -> Result<GivingUp, AllocError>
    ensures { IfOk result (IsMadeReady limit handle (given_up_by decided.now)) }
{
    match decided {
        Ok(prepared) => make_giving_up(alloc, limit, handle, prepared.aborts()),
        Err(_) => Ok(none(alloc)),
    }
}

/// No deliveries. It takes no memory.
fn none(alloc: Global) -> GivingUp
    ensures { (limit : ℕ) (handle : OutputHandle) → IsMadeReady limit handle [] result }
{
    GivingUp {
        batches: VecDeque::new(alloc),
        all_fit: true,
    }
}

/// These deliveries, made ready to be given up by the link with this own handle. It is refused where there is no
/// memory.
pub fn make_giving_up(
    alloc: Global,
    limit: u32,
    handle: OutputHandle,
    aborts: &[Abort],
) -> Result<GivingUp, AllocError>
    ensures { IfOk result (IsMadeReady limit handle aborts.now) }
{
    let mut batches = VecDeque::new(alloc);
    let mut rest = aborts;
    while let Some((abort, others)) = rest.split_first() {
        let planned = batch_for(alloc, limit, handle, abort)?;
        let Some(batch) = planned else {
            return Ok(GivingUp {
                batches,
                all_fit: false,
            });
        };
        batches.push_back(batch)?;
        rest = others;
    }
    Ok(GivingUp {
        batches,
        all_fit: true,
    })
}

/// The transfer that gives a delivery up, as a batch, where the peer takes a frame for it, whatever number the delivery
/// gets (part 2, 2.4.1). It is refused where there is no memory.
fn batch_for(
    alloc: Global,
    limit: u32,
    handle: OutputHandle,
    abort: &Abort,
) -> Result<Option<Batch>, AllocError>
    ensures { IfOk result (IsPlanned limit handle abort.now) }
{
    let mut first = first_transfer(handle, abort)?;
    if !fits_numbered(&mut first, limit) {
        return Ok(None);
    }
    let batch = alone(alloc, first)?;
    Ok(Some(batch))
}

/// The transfer that gives a delivery up, on the own handle of its link. It is refused where there is no memory.
fn first_transfer(handle: OutputHandle, abort: &Abort) -> Result<Transfer, AllocError>
    ensures { IfOk result (λ first. first ≡ abort_on handle abort.now) }
{
    let tag = abort.tag.clone()?;
    let message_format = abort.message_format;
    Ok(on_handle(
        handle,
        SenderLink::abort_transfer(Abort {
            tag,
            message_format,
        }),
    ))
}

/// A transfer without a payload that begins a delivery, as a batch. It is refused where there is no memory.
fn alone(alloc: Global, first: Transfer) -> Result<Batch, AllocError>
    ensures { IfOk result (λ batch. batch ≡ first_of first [] ∷ []) }
{
    let mut batch = Batch::new(alloc);
    batch.push_first(alloc, first, Bytes::new())?;
    Ok(batch)
}

/// Whether a transfer without a payload fits a frame of at most so many bytes, whatever its channel and whatever number
/// its delivery gets (part 1, 1.6.5). It stays as it is.
fn fits_numbered(transfer: &mut Transfer, limit: u32) -> bool
    requires { transfer.old.delivery_id ≡ None }
    ensures same { transfer.new ≡ transfer.old }
    ensures fits { result ≡ transfer_fits limit transfer.old }
{
    transfer.delivery_id = Some(u32::MAX);
    let fits = fits_text(transfer, limit);
    transfer.delivery_id = None;
    fits
}

/// What a Detach says of a link that is closed for what isn't allowed (part 2, 2.8.15).
fn not_allowed(alloc: Global) -> Result<definitions::Error, AllocError>
    ensures { IfOk result (λ why. why ≡ error_of condition) }
{
    Ok(definitions::Error {
        condition: Symbol::new(String::from_str(alloc, "amqp:not-allowed")?),
        description: None,
        info: None,
    })
}

/// Room for so many transfers in the session, and for three frames beside them.
pub(crate) fn make_room_to_send(
    session: &mut Session<Numbered<LinkEnd>>,
    out: &mut VecDeque<SessionFrame>,
    count: usize,
) -> Result<(), AllocError>
    ensures room { OnOk result (count ≤ session.new.outgoing.room) }
    ensures spare { OnOk result (deque_len out.new + (frames_in session.new.outgoing.queues
        + session.new.outgoing.room) + 3 ≤ deque_capacity out.new) }
    ensures made { OnOk result (MadeRoomIn session.old session.new) }
    ensures kept { OnErr result (session.new ≡ session.old) }
    ensures out { out.new.items ≡ out.old.items }
{
    match session.reserve_transfers(out, count, 3) {
        Ok(()) => Ok(()),
        Err(_) => Err(AllocError),
    }
}

/// A session takes the transfers of the link with this own handle that give deliveries up, in their order. It stops at
/// one whose number is in use, and answers whether it did. There is room for all of them, and it takes no memory.
pub(crate) fn give_up(
    session: &mut Session<Numbered<LinkEnd>>,
    alloc: Global,
    handle: OutputHandle,
    batches: VecDeque<Batch>,
    out: &mut VecDeque<SessionFrame>,
) -> bool
    requires there { IsSome (link_at session.old handle.0) }
    requires bare { All IsBare batches.items }
    requires room { length batches.items ≤ session.old.outgoing.room }
    requires spare { deque_len out.old + (frames_in session.old.outgoing.queues + session.old.outgoing.room) + 1
        ≤ deque_capacity out.old }
    ensures hands { HandsEach handle batches.items session.old out.old.items result session.new out.new.items }
    ensures room { session.old.outgoing.room ≤ session.new.outgoing.room + length batches.items }
    ensures spare { deque_len out.new + (frames_in session.new.outgoing.queues + session.new.outgoing.room) + deque_capacity out.old
        ≤ deque_len out.old + (frames_in session.old.outgoing.queues + session.old.outgoing.room)
        + deque_capacity out.new }
    ensures place { (most : ℕ) → 1 ≤ most → room_behind handle.0 1 session.old.outgoing.queues ≤ most →
        room_behind handle.0 1 session.new.outgoing.queues ≤ most }
    ensures links { session.new.links ≡ session.old.links }
    ensures fields { session.new.fields ≡ session.old.fields }
{
    let mut batches = batches;
    while let Some(mut batch) = batches.pop_front() {
        if !hand_over(session, alloc, handle, &mut batch, out) {
            return true;
        }
    }
    false
}

/// Why not all deliveries are given up, by whether the session stopped, and whether the peer takes a frame for each.
pub(crate) fn stuck_by(stopped: bool, all_fit: bool) -> Option<EndpointError>
    ensures { result ≡ stuck_by stopped all_fit }
{
    if stopped {
        return Some(EndpointError::NumberInUse);
    }
    if all_fit {
        return None;
    }
    Some(EndpointError::FrameTooLarge)
}

/// The link for which this was made ready is closed for this, where it is attached; `Refused` is told, and behind that the
/// outcomes of so many of its messages that end by it, if as many do (part 2, 2.6.6). It takes no memory.
pub fn close_for(
    session: &mut LinkSession,
    alloc: Global,
    closing: Closing,
    error: EndpointError,
    out: &mut VecDeque<SessionFrame>,
    events: &mut Vec<Event>,
)
    requires there { IsSome (end_at session.old closing.handle) }
    requires place { room_behind closing.handle.0 1 session.old.session.outgoing.queues ≤ closing.place }
    requires spare { deque_len out.old < deque_capacity out.old }
    requires tells { vec_len events.old + (closing.count + 1) ≤ vec_capacity events.old }
    ensures { DoesClosedFor closing.session error closing.count closing.handle closing.why session.old out.old.items
        events.old.items session.new out.new.items events.new.items }
{
    let Closing {
        session: number,
        handle,
        count,
        why,
        place,
    } = closing;
    let Some(there) = session.session.link(handle) else {
        unreachable!()
    };
    let link = there.number;
    close_where(session, handle, (place, why), out);
    events.push_reserved(Event::Refused(Refused {
        session: number,
        link: Some(link),
        error,
    }));
    tell_first(session, handle, count, Vec::new(alloc), events);
}

/// The link with this own handle is closed, where it is attached, with what its Detach says and room for it. It takes
/// no memory.
fn close_where(
    session: &mut LinkSession,
    handle: OutputHandle,
    detach: (Place<BehindFrame>, definitions::Error),
    out: &mut VecDeque<SessionFrame>,
)
    requires place { room_behind handle.0 1 session.old.session.outgoing.queues ≤ detach.0 }
    requires spare { deque_len out.old < deque_capacity out.old }
    ensures { ClosesOut handle detach.1 session.old out.old.items session.new out.new.items }
{
    if !is_attached(session, handle) {
        return;
    }
    let (place, why) = detach;
    detach_placed(session, handle, place, true, Some(why), out);
}

/// Whether an attached link has this own handle.
fn is_attached(session: &LinkSession, handle: OutputHandle) -> bool
    ensures { result ≡ is_there (end_at session.now handle) }
{
    match session.session.link(handle) {
        Some(link) => link.link.local_state().is_attached(),
        None => false,
    }
}

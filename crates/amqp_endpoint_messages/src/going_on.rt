//! What a link does once it is attached at both ends (part 2, 2.6.3, 2.6.7, 2.6.13, 2.7.4, 2.7.5).
ghost use Rattle.std.specs.Prelude.{◌≡◌, ◌+◌, ℕ, List, None, [], All, IfOk, IsSome, OnErr, OnOk};
ghost use Rattle.std.specs.Vec.{vec_capacity, vec_len};
ghost use Rattle.std.specs.VecDeque.{deque_capacity, deque_len};
ghost use Rattle.amqp_link_sender.specs.declared.sending_on.PreparedSendOn.{PreparedSendOn};
ghost use Rattle.amqp_link_unsettled.specs.declared.exchanging.Abort.{Abort};
ghost use Rattle.amqp_endpoint_attached.specs.Linked.{end_at};
ghost use Rattle.amqp_endpoint_messages.specs.GivingUp.{IsBare, planned_at};
ghost use Rattle.amqp_endpoint_messages.specs.GoingOn.{AreOnReady, AreTagged, DoesAttached, HasCreditThen};
ghost use Rattle.amqp_endpoint_messages.specs.GoingOn.{HasPlaceBehind, HasRoomToSend, IsCounted, IsReadyWith, count_on};
ghost use Rattle.amqp_endpoint_messages.specs.GoingOn.{flow_ready};
ghost use Rattle.amqp_endpoint_messages.specs.MadeReady.{HasPlaceToClose, HasRoomToTell, MadeRoom};
ghost use Rattle.amqp_endpoint_messages.specs.SendingOn.{IsOn};

use crate::ending::tell_first;
use crate::giving_up::{
    Closing, GivingUp, close_for, give_up, giving_up_in, make_room_to_send, stuck_by,
};
use crate::sending_on::{FlowReady, SendingOn, make_sending_on, send_on};
use amqp_endpoint_attached::{LinkSession, take_kept};
use amqp_endpoint_model::Event;
use amqp_link_sender::PreparedSendOn;
use amqp_session_core::BehindFrame;
use amqp_session_outgoing::Place;
use amqp_session_performatives::{Attach, LinkFlow, SessionFrame};
use amqp_session_types::OutputHandle;
use std::alloc::{AllocError, Global};
use std::collections::VecDeque;

/// The messages that a link sends on by what was kept of a Flow, made ready.
#[derive(Drop)]
pub struct OnReady {
    /// Their transfers.
    pub sending: SendingOn,
    /// Room for the link's closing Detach behind its reply to the Flow.
    pub place: Place<BehindFrame>,
}

/// What is made ready for a link before it takes the peer's Attach.
#[derive(Drop)]
pub struct AttachReady {
    /// The deliveries that it gives up.
    pub giving: GivingUp,
    /// The messages that it sends on behind that, if any go on.
    pub on: Option<OnReady>,
    /// What it is closed with where it refuses the Attach, or can't do all of that.
    pub closing: Closing,
}

/// The messages that a link with this own handle sends on by what was kept of a Flow, made ready in frames of at most
/// `limit` bytes, if any go on. It is refused where there is no memory.
pub fn make_on_ready(
    session: &LinkSession,
    alloc: Global,
    limit: u32,
    handle: OutputHandle,
    ons: Vec<PreparedSendOn>,
) -> Result<Option<OnReady>, AllocError>
    requires { All IsOn ons.items }
    ensures ready { IfOk result (AreOnReady limit handle ons.items) }
    ensures counted { IfOk result IsCounted }
    ensures tagged { IfOk result AreTagged }
    ensures behind { IfOk result (HasPlaceBehind session.now handle) }
{
    if ons.is_empty() {
        return Ok(None);
    }
    let sending = make_sending_on(alloc, limit, handle, ons)?;
    match session.session.place_behind_more(alloc, handle, 2) {
        Ok(place) => Ok(Some(OnReady { sending, place })),
        Err(_) => Err(AllocError),
    }
}

/// What the peer's Attach leaves to be done for the link that waits for it is made ready, before the link takes it, with
/// what it is closed with: the transfers that give deliveries up, and room for them and for its Detach. Of the session
/// nothing changes but the room for transfers.
///
/// It is refused where there is no memory, and nothing changes then.
pub fn make_attach_ready(
    session: &mut LinkSession,
    alloc: Global,
    limit: u32,
    closing: Closing,
    attach: &Attach,
    out: &mut VecDeque<SessionFrame>,
) -> Result<AttachReady, AllocError>
    requires { HasPlaceToClose session.old closing }
    ensures ready { IfOk result
        (IsReadyWith limit (planned_at (end_at session.old closing.handle) attach.now) [] closing) }
    ensures sends { IfOk result (λ ready.
        HasRoomToSend ready session.new (deque_len out.new) (deque_capacity out.new)) }
    ensures bare { IfOk result (λ ready. All IsBare ready.giving.batches.items) }
    ensures none { IfOk result (λ ready. ready.on ≡ None) }
    ensures made { OnOk result (MadeRoom session.old session.new) }
    ensures kept { OnErr result (session.new ≡ session.old) }
    ensures out { out.new.items ≡ out.old.items }
{
    let giving = giving_up_in(&session.session, alloc, limit, closing.handle, attach)?;
    let ready = AttachReady {
        giving,
        on: None,
        closing,
    };
    make_room_for(session, &ready, out)?;
    Ok(ready)
}

/// Room for the transfers of a link for which this was made ready, with one frame before them, for its reply to a Flow,
/// and for the Detach with which it is closed. Of the session nothing changes but the room for transfers.
///
/// It is refused where there is no memory, and nothing changes then.
pub fn make_room_for(
    session: &mut LinkSession,
    ready: &AttachReady,
    out: &mut VecDeque<SessionFrame>,
) -> Result<(), AllocError>
    requires place { HasPlaceToClose session.old ready.now.closing }
    requires counted { IsCounted ready.now.on }
    requires behind { HasPlaceBehind session.old ready.now.closing.handle ready.now.on }
    ensures sends { OnOk result
        (HasRoomToSend ready.now session.new (deque_len out.new + 1) (deque_capacity out.new)) }
    ensures made { OnOk result (MadeRoom session.old session.new) }
    ensures kept { OnErr result (session.new ≡ session.old) }
    ensures out { out.new.items ≡ out.old.items }
{
    let count = ready.giving.batches.len();
    let all = count.checked_add(count_on(&ready.on)).ok_or(AllocError)?;
    make_room_to_send(&mut session.session, out, all)?;
    Ok(())
}

/// How many transfers are sent on.
fn count_on(on: &Option<OnReady>) -> usize
    requires { IsCounted on.now }
    ensures { result ≡ count_on on.now }
{
    match on {
        Some(on) => on.sending.transfers,
        None => 0,
    }
}

/// Room for a link's reply to a Flow, and what it sends on behind that, if anything, with what it is closed with then.
fn parted(on: Option<OnReady>, closing: Closing) -> (Place<BehindFrame>, Option<FlowReady>)
    ensures place { result.0 ≡ closing.place }
    ensures ready { result.1 ≡ flow_ready closing on }
{
    let Closing {
        session,
        handle,
        count,
        why,
        place,
    } = closing;
    let Some(on) = on else {
        return (place, None);
    };
    let OnReady {
        sending,
        place: behind,
    } = on;
    let closing = Closing {
        session,
        handle,
        count,
        why,
        place: behind,
    };
    (place, Some(FlowReady { sending, closing }))
}

/// The link for which this was made ready took the peer's Attach: it tells the outcomes of its messages that end by what
/// the peer lists, and then it gives up the deliveries that are to be given up, in their order. Where the peer takes no
/// frame for one of them, or its number is in use, the link is closed, as `close_for` does, with `FrameTooLarge` or
/// `NumberInUse` (part 2, 2.6.12, 2.6.13). Else it takes what was kept of a Flow, where the link answers one that the
/// peer asked for, and replies to it where that wants it (part 2, 2.7.4); and behind that it sends on what goes on with
/// the credit that it has then, as `send_on` does. It takes no memory.
pub fn go_on_attached(
    session: &mut LinkSession,
    alloc: Global,
    ready: AttachReady,
    kept: Option<LinkFlow>,
    out: &mut VecDeque<SessionFrame>,
    events: &mut Vec<Event>,
)
    requires there { IsSome (end_at session.old ready.closing.handle) }
    requires sends { HasRoomToSend ready session.old (deque_len out.old) (deque_capacity out.old) }
    requires tells { HasRoomToTell ready.closing.count (vec_len events.old) (vec_capacity events.old) }
    requires bare { All IsBare ready.giving.batches.items }
    requires credit { HasCreditThen kept ready.closing.handle ready.on session.old }
    requires tagged { AreTagged ready.on }
    ensures { (limit : ℕ) (aborts : List Abort) (ons : List PreparedSendOn) →
        IsReadyWith limit aborts ons ready.closing ready →
        DoesAttached limit ready.closing.session ready.closing.count ready.closing.handle ready.closing.why aborts kept
        ons session.old out.old.items events.old.items session.new out.new.items events.new.items }
{
    let AttachReady {
        giving,
        on,
        closing,
    } = ready;
    let GivingUp { batches, all_fit } = giving;
    let handle = closing.handle;
    tell_first(session, handle, closing.count, Vec::new(alloc), events);
    let stopped = give_up(&mut session.session, alloc, handle, batches, out);
    match stuck_by(stopped, all_fit) {
        Some(error) => close_for(session, alloc, closing, error, out, events),
        None => {
            let parts = parted(on, closing);
            let (place, flow) = parts;
            take_kept(session, handle, kept, place, out);
            match flow {
                Some(ready) => send_on(session, alloc, ready, out, events),
                None => {}
            }
        }
    }
}

//! How a link attaches in its session (part 2, 2.6.3).
ghost use Rattle.std.specs.Prelude.{◌≡◌, ◌<◌, ◌≤◌, ◌+◌, ◌^◌, ◌++◌, ℕ, All, List, None, Ok, Some, true, IfErr, IfOk};
ghost use Rattle.std.specs.Prelude.{IsSome, OnErr, OnOk};
ghost use Rattle.std.specs.FinMap as map;
ghost use Rattle.std.specs.Vec.{vec_capacity, vec_len};
ghost use Rattle.std.specs.VecDeque.{deque_capacity, deque_len};
ghost use Rattle.amqp_link.specs.Ends.{state_of};
ghost use Rattle.amqp_link.specs.GoingOn.{aborts_of};
ghost use Rattle.amqp_link.specs.Preparing.{IsFor};
ghost use Rattle.amqp_link_unsettled.specs.declared.exchanging.Abort.{Abort};
ghost use Rattle.amqp_endpoint_attached.specs.Answering.{RefusesAnswer};
ghost use Rattle.amqp_endpoint_attached.specs.Attaching.{RefusesAttach};
ghost use Rattle.amqp_endpoint_attached.specs.Linked.{end_at};
ghost use Rattle.amqp_endpoint_attached.specs.Links.{is_at_rest};
ghost use Rattle.amqp_endpoint_conversation.specs.Ending.{IsMapped};
ghost use Rattle.amqp_endpoint_conversation.specs.Going.{Goes, Rests};
ghost use Rattle.amqp_endpoint_messages.specs.GivingUp.{IsBare, attached_told};
ghost use Rattle.amqp_endpoint_messages.specs.GoingOn.{AreTagged, DoesAttached, HasCreditThen, HasPlaceBehind};
ghost use Rattle.amqp_endpoint_messages.specs.GoingOn.{HasRoomToSend, IsCounted, IsReadyWith, on_planned};
ghost use Rattle.amqp_endpoint_messages.specs.MadeReady.{HasPlaceToClose, HasRoomToTell, MadeRoom};
ghost use Rattle.amqp_endpoint_link_calls.specs.Answering.{HasRoomBehind, IsAnswerReady};
ghost use Rattle.amqp_endpoint_link_calls.specs.Attaching.{AttachedBy, AttachesIn, AttachesOne};
ghost use Rattle.amqp_endpoint_link_calls.specs.Refusals.{BarsIn, RefusesIn, RefusesOne, of_refusal};

use crate::LinkTalk;
use crate::detaching::handle_is_short;
use crate::meeting::met;
use crate::placed::Placed;
use amqp_endpoint_attached::{
    Answered, AttachRefusal, LinkSession, PreparedAnswer, Unattached, answer, attach, offered,
    prepare_answer,
};
use amqp_endpoint_fitting::frames_are_read;
use amqp_endpoint_messages::{
    AttachReady, Closing, go_on_attached, make_closing, make_giving_up, make_on_ready,
    make_room_for, make_room_to_tell, open_count,
};
use amqp_endpoint_model::{Attached, EndpointError, Event};
use amqp_link::LinkEnd;
use amqp_link_sender::PreparedSendOn;
use amqp_session_performatives::SessionFrame;
use amqp_session_types::{InputHandle, SessionError};
use std::alloc::{AllocError, Global};
use std::collections::VecDeque;

/// A link that attaches, and where.
#[derive(Drop)]
pub(crate) struct Coming {
    /// The number that it is to have of its own.
    pub number: u64,
    /// The number of its session.
    pub session: u64,
    /// The link.
    pub link: LinkEnd,
}

/// A link that is new attaches in its session, which is mapped. Where it is refused it is given up.
pub(crate) fn attach_new(
    talk: &mut LinkTalk,
    alloc: Global,
    limit: u32,
    coming: Coming,
    out: &mut VecDeque<SessionFrame>,
) -> Result<Placed, EndpointError>
    requires mapped { IsMapped talk.old coming.session }
    requires at_rest { is_at_rest (state_of coming.link) ≡ true }
    ensures ok { IfOk result (λ placed.
        AttachesIn talk.old out.old.items limit coming.session coming.link placed talk.new out.new.items) }
    ensures numbered { IfOk result (λ placed. placed.link ≡ coming.number) }
    ensures err { IfErr result (BarsIn limit talk.old coming.session coming.link) }
    ensures kept { OnErr result ((talk.new ≡ talk.old) × (out.new.items ≡ out.old.items)) }
    ensures goes { 512 ≤ limit → Goes limit talk.old talk.new out.old.items out.new.items }
    ensures rests { Rests talk.old talk.new out.old.items out.new.items }
{
    match attach_live(talk, alloc, limit, coming, out) {
        Ok(placed) => Ok(placed),
        Err(refused) => Err(given_up(refused)),
    }
}

/// The endpoint's name for why a link doesn't attach, which is given up.
fn given_up(refused: Unattached) -> EndpointError
    ensures { result ≡ of_refusal refused.refusal }
{
    let Unattached { refusal, link: _ } = refused;
    of_refusal(refusal)
}

/// A link, which is at rest, attaches in its session, which is mapped. Where it is refused it comes back, as it was.
pub(crate) fn attach_live(
    talk: &mut LinkTalk,
    alloc: Global,
    limit: u32,
    coming: Coming,
    out: &mut VecDeque<SessionFrame>,
) -> Result<Placed, Unattached>
    requires mapped { IsMapped talk.old coming.session }
    requires at_rest { is_at_rest (state_of coming.link) ≡ true }
    ensures ok { IfOk result (λ placed.
        AttachesIn talk.old out.old.items limit coming.session coming.link placed talk.new out.new.items) }
    ensures numbered { IfOk result (λ placed. placed.link ≡ coming.number) }
    ensures err { IfErr result (λ refused.
        RefusesIn limit talk.old coming.session coming.link refused.refusal × (refused.link ≡ coming.link)) }
    ensures kept { OnErr result ((talk.new ≡ talk.old) × (out.new.items ≡ out.old.items)) }
    ensures goes { 512 ≤ limit → Goes limit talk.old talk.new out.old.items out.new.items }
    ensures rests { Rests talk.old talk.new out.old.items out.new.items }
{
    let from = out.len();
    let placed = attach_lent(talk, alloc, limit, coming, out);
    frames_are_read(out, from);
    placed
}

/// It does so in the session, which is lent for it.
fn attach_lent(
    talk: &mut LinkTalk,
    alloc: Global,
    limit: u32,
    coming: Coming,
    out: &mut VecDeque<SessionFrame>,
) -> Result<Placed, Unattached>
    requires mapped { IsMapped talk.old coming.session }
    requires at_rest { is_at_rest (state_of coming.link) ≡ true }
    ensures ok { IfOk result (λ placed.
        AttachesIn talk.old out.old.items limit coming.session coming.link placed talk.new out.new.items) }
    ensures numbered { IfOk result (λ placed. placed.link ≡ coming.number) }
    ensures short { IfOk result (λ placed. placed.handle.0 < 2 ^ 32) }
    ensures err { IfErr result (λ refused.
        RefusesIn limit talk.old coming.session coming.link refused.refusal × (refused.link ≡ coming.link)) }
    ensures kept { OnErr result ((talk.new ≡ talk.old) × (out.new.items ≡ out.old.items)) }
{
    let Some(live) = talk.sessions.live_mut(coming.session) else {
        unreachable!()
    };
    attach_in(live, alloc, limit, coming, out)
}

/// A link, which is at rest, attaches in this session: of itself, or in answer to the one that the peer asks for.
fn attach_in(
    live: &mut LinkSession,
    alloc: Global,
    limit: u32,
    coming: Coming,
    out: &mut VecDeque<SessionFrame>,
) -> Result<Placed, Unattached>
    requires at_rest { is_at_rest (state_of coming.link) ≡ true }
    ensures ok { IfOk result (λ placed.
        AttachesOne live.old out.old.items limit coming.link placed live.new out.new.items) }
    ensures placed { IfOk result (λ placed. (placed.session ≡ coming.session) × (placed.link ≡ coming.number)) }
    ensures short { IfOk result (λ placed. placed.handle.0 < 2 ^ 32) }
    ensures err { IfErr result (λ refused.
        RefusesOne limit live.old coming.link refused.refusal × (refused.link ≡ coming.link)) }
    ensures kept { OnErr result ((live.new ≡ live.old) × (out.new.items ≡ out.old.items)) }
{
    match met(&live.asked, &coming.link) {
        Some(input) => answer_asked(live, alloc, limit, coming, input, out),
        None => attach_own(live, alloc, limit, coming, out),
    }
}

/// It answers the one that the peer asks for with this handle. All that this takes is made ready before it changes.
fn answer_asked(
    live: &mut LinkSession,
    alloc: Global,
    limit: u32,
    coming: Coming,
    input: InputHandle,
    out: &mut VecDeque<SessionFrame>,
) -> Result<Placed, Unattached>
    requires asked { IsSome (map.get live.old.asked input.0) }
    requires at_rest { is_at_rest (state_of coming.link) ≡ true }
    ensures ok { IfOk result (λ placed. AttachedBy (Some input) live.old out.old.items limit coming.link placed
        live.new out.new.items) }
    ensures placed { IfOk result (λ placed. (placed.session ≡ coming.session) × (placed.link ≡ coming.number)) }
    ensures short { IfOk result (λ placed. placed.handle.0 < 2 ^ 32) }
    ensures err { IfErr result (λ refused.
        RefusesAnswer limit live.old coming.link input refused.refusal × (refused.link ≡ coming.link)) }
    ensures kept { OnErr result ((live.new ≡ live.old) × (out.new.items ≡ out.old.items)) }
{
    let room = live.session.transfers_room();
    let AnswerReady { prepared, behind } = match make_answer(
        live, alloc, limit, &coming, input, out,
    ) {
        Ok(ready) => ready,
        Err(refusal) => return Err(unattached(coming, refusal)),
    };
    let Coming { number, link, .. } = coming;
    match answer(live, alloc, number, link, input, prepared, out) {
        Ok(answered) => Ok(go_on(live, alloc, number, answered, behind, out)),
        Err(refused) => {
            live.session.lower_transfers(room);
            Err(refused)
        }
    }
}

/// A link that is refused so comes back.
fn unattached(coming: Coming, refusal: AttachRefusal) -> Unattached
    ensures { (result.refusal ≡ refusal) × (result.link ≡ coming.link) }
{
    let Coming { link, .. } = coming;
    Unattached { refusal, link }
}

/// What a link goes by that answers an asked one, made ready before it does.
#[derive(Drop)]
struct AnswerReady {
    /// What it says.
    prepared: PreparedAnswer,
    /// What is left to be done behind that.
    behind: Behind,
}

/// What this link goes by that answers the one which the peer asks for with this handle in its session, and room for
/// all of it. Of the session nothing changes but the room for transfers.
fn make_answer(
    live: &mut LinkSession,
    alloc: Global,
    limit: u32,
    coming: &Coming,
    input: InputHandle,
    out: &mut VecDeque<SessionFrame>,
) -> Result<AnswerReady, AttachRefusal>
    requires asked { IsSome (map.get live.old.asked input.0) }
    requires at_rest { is_at_rest (state_of coming.now.link) ≡ true }
    ensures ok { IfOk result (λ ready. IsAnswerReady limit live.old live.new coming.now.link input
        coming.now.session ready (deque_len out.new + 1) (deque_capacity out.new)) }
    ensures err { IfErr result (RefusesAnswer limit live.old coming.now.link input) }
    ensures kept { OnErr result (live.new ≡ live.old) }
    ensures out { out.new.items ≡ out.old.items }
{
    let link = &coming.link;
    let prepared = prepare_answer(live, alloc, limit, link, input)?;
    let handle = offered(&live.session)?;
    handle_is_short(handle);
    let closing = make_closing(live, alloc, coming.session, handle, open_count(link))?;
    let ready = make_ready(live, alloc, limit, link, &prepared, closing)?;
    let behind = make_behind(live, alloc, ready, out)?;
    Ok(AnswerReady { prepared, behind })
}

/// What this link has to do behind its Attach, by which it answers as it was made ready: the deliveries that it gives
/// up, and the messages that what was kept of a Flow lets it send on; with what it is closed with. It is refused where
/// there is no memory.
fn make_ready(
    live: &LinkSession,
    alloc: Global,
    limit: u32,
    link: &LinkEnd,
    prepared: &PreparedAnswer,
    closing: Closing,
) -> Result<AttachReady, AllocError>
    requires { IsFor link.now prepared.now.taken }
    ensures ready { IfOk result (IsReadyWith limit (aborts_of prepared.now.taken)
        (on_planned link.now (Ok prepared.now.taken) prepared.now.kept) closing) }
    ensures counted { IfOk result (λ ready. IsCounted ready.on) }
    ensures tagged { IfOk result (λ ready. AreTagged ready.on) }
    ensures behind { IfOk result (λ ready. HasPlaceBehind live.now closing.handle ready.on) }
{
    let giving = make_giving_up(alloc, limit, closing.handle, prepared.taken.aborts())?;
    let ons = ons_behind(alloc, link, prepared)?;
    let on = make_on_ready(live, alloc, limit, closing.handle, ons)?;
    Ok(AttachReady {
        giving,
        on,
        closing,
    })
}

/// The messages that what was kept of a Flow lets this link send on, once it answers as it was made ready. It is refused
/// where there is no memory.
fn ons_behind(
    alloc: Global,
    link: &LinkEnd,
    prepared: &PreparedAnswer,
) -> Result<Vec<PreparedSendOn>, AllocError>
    requires { IsFor link.now prepared.now.taken }
    ensures { IfOk result (λ ons. ons.items ≡ on_planned link.now (Ok prepared.now.taken) prepared.now.kept) }
{
    match &prepared.kept {
        Some(flow) => link.prepare_sends_on_behind(alloc, &prepared.taken, flow),
        None => Ok(Vec::new(alloc)),
    }
}

/// What is left to be done behind the Attach of a link that answers an asked one, made ready before it does.
#[derive(Drop)]
struct Behind {
    /// What its Attach leaves to be done.
    ready: AttachReady,
    /// No event yet, with room for all that are told.
    events: Vec<Event>,
}

/// Room for all that this link has to do behind its Attach, for its own Attach before that, and for all that is told.
/// Of the session nothing changes but the room for transfers. It is refused where there is no memory, and nothing
/// changes then.
fn make_behind(
    live: &mut LinkSession,
    alloc: Global,
    ready: AttachReady,
    out: &mut VecDeque<SessionFrame>,
) -> Result<Behind, AllocError>
    requires place { HasPlaceToClose live.old ready.closing }
    requires counted { IsCounted ready.on }
    requires behind { HasPlaceBehind live.old ready.closing.handle ready.on }
    ensures room { IfOk result (λ behind. HasRoomBehind ready live.new behind (deque_len out.new + 1)
        (deque_capacity out.new)) }
    ensures made { OnOk result (MadeRoom live.old live.new) }
    ensures kept { OnErr result (live.new ≡ live.old) }
    ensures out { out.new.items ≡ out.old.items }
{
    let mut events = Vec::new(alloc);
    make_room_to_tell(&mut events, ready.closing.count)?;
    make_room_for(live, &ready, out)?;
    Ok(Behind { ready, events })
}

/// A link that answered an asked one goes on under this number: it is told that it is attached, and what its Attach
/// and what was kept of a Flow leave to be done is done, as it was made ready.
fn go_on(
    live: &mut LinkSession,
    alloc: Global,
    number: u64,
    answered: Answered,
    behind: Behind,
    out: &mut VecDeque<SessionFrame>,
) -> Placed
    requires there { IsSome (end_at live.old behind.ready.closing.handle) }
    requires sends { HasRoomToSend behind.ready live.old (deque_len out.old) (deque_capacity out.old) }
    requires tells { HasRoomToTell behind.ready.closing.count (vec_len behind.events + 1) (vec_capacity behind.events) }
    requires bare { All IsBare behind.ready.giving.batches.items }
    requires credit { HasCreditThen answered.kept behind.ready.closing.handle behind.ready.on live.old }
    requires tagged { AreTagged behind.ready.on }
    ensures placed { (result.link ≡ number) × (result.session ≡ behind.ready.closing.session)
        × (result.handle ≡ answered.handle) }
    ensures does { (limit : ℕ) (aborts : List Abort) (ons : List PreparedSendOn) →
        IsReadyWith limit aborts ons behind.ready.closing behind.ready →
        DoesAttached limit behind.ready.closing.session behind.ready.closing.count behind.ready.closing.handle
        behind.ready.closing.why aborts answered.kept ons live.old out.old.items
        (behind.events.items ++ attached_told number answered.exchange) live.new out.new.items result.events.items }
{
    let Answered {
        handle,
        exchange,
        aborts: _,
        kept,
    } = answered;
    let Behind { ready, events } = behind;
    let session = ready.closing.session;
    let mut events = events;
    events.push_reserved(Event::Attached(Attached {
        link: number,
        exchange,
    }));
    go_on_attached(live, alloc, ready, kept, out, &mut events);
    Placed {
        link: number,
        session,
        handle,
        events,
    }
}

/// It attaches of itself, and waits for the peer's Attach.
fn attach_own(
    live: &mut LinkSession,
    alloc: Global,
    limit: u32,
    coming: Coming,
    out: &mut VecDeque<SessionFrame>,
) -> Result<Placed, Unattached>
    requires at_rest { is_at_rest (state_of coming.link) ≡ true }
    ensures ok { IfOk result (λ placed. AttachedBy None live.old out.old.items limit coming.link placed live.new
        out.new.items) }
    ensures placed { IfOk result (λ placed. (placed.session ≡ coming.session) × (placed.link ≡ coming.number)) }
    ensures short { IfOk result (λ placed. placed.handle.0 < 2 ^ 32) }
    ensures err { IfErr result (λ refused.
        RefusesAttach limit live.old.session coming.link refused.refusal × (refused.link ≡ coming.link)) }
    ensures kept { OnErr result ((live.new ≡ live.old) × (out.new.items ≡ out.old.items)) }
{
    let Coming {
        number,
        session,
        link,
    } = coming;
    match attach(live, alloc, limit, number, link, out) {
        Ok(handle) => {
            handle_is_short(handle);
            Ok(Placed {
                link: number,
                session,
                handle,
                events: Vec::new(alloc),
            })
        }
        Err(refused) => Err(refused),
    }
}

/// The endpoint's name for what a session refuses.
pub(crate) fn of_refusal(refusal: AttachRefusal) -> EndpointError
    ensures { result ≡ of_refusal refusal }
{
    match refusal {
        AttachRefusal::HandleMaxReached => EndpointError::HandleMaxReached,
        AttachRefusal::HandleInUse => EndpointError::Session(SessionError::HandleInUse),
        AttachRefusal::Link(error) => EndpointError::Link(error),
        AttachRefusal::FrameTooLarge => EndpointError::FrameTooLarge,
        AttachRefusal::Memory => EndpointError::Memory,
    }
}

//! Laws of histories: of a link with its number, and of a session with the links that its peer asks for.
ghost use Rattle.std.specs.Prelude.{◌≡◌, ℕ, List, ◌∷◌, ◌++◌, IsSome, None, Some, Result, false};
ghost use Rattle.std.specs.FinMap as map;
ghost use Rattle.amqp_session_types.specs.declared.channels.IncomingChannel.{IncomingChannel};
ghost use Rattle.amqp_session_types.specs.declared.channels.OutgoingChannel.{OutgoingChannel};
ghost use Rattle.amqp_session_types.specs.declared.refusals.SessionError.{SessionError};
ghost use Rattle.amqp_session_performatives.specs.declared.session_frame.SessionFrame.{SessionFrame};
ghost use Rattle.amqp_session_core.specs.History.{History, OwnersKeep, is_freed, own_of};
ghost use Rattle.amqp_session_core.specs.Relay.{LinkHistory, LinkAct, OwnerKeeps};
ghost use Rattle.amqp_session_core.specs.State.{fresh, link_at, reached};
ghost use Rattle.amqp_session_core.specs.Steps.{Act, SendsBegin};
ghost use Rattle.amqp_endpoint_links.specs.declared.session.AskedSession.{AskedSession};
ghost use Rattle.amqp_endpoint_links.specs.Beginning.{Begun, Accepted, accept_steps, begin_frame, begun_state};
ghost use Rattle.amqp_endpoint_links.specs.Beginning.{accepted_with};
ghost use Rattle.amqp_endpoint_links.specs.Hearing.{Hears};
ghost use Rattle.amqp_endpoint_links.specs.History.{AskingAct, AskingHistory, AreDoneBy, AreHearing, AllKeep};
ghost use Rattle.amqp_endpoint_links.specs.History.{RouteNone, is_handle_freed};
ghost use Rattle.amqp_endpoint_links.specs.Numbering.{keeping, numbered, without_numbers};
ghost use Rattle.amqp_endpoint_links.specs.declared.asking.AskingSession.{AskingSession};
ghost use Rattle.amqp_endpoint_links.specs.declared.hearing.LinkPerformative.{LinkPerformative};
ghost use Rattle.amqp_endpoint_links.specs.declared.hearing.PerformativeTaken.{PerformativeTaken};
ghost use Rattle.amqp_endpoint_links.specs.declared.numbered.Numbered.{Numbered};

use amqp_session_core::{LinkOwner, LinkRelay};

/// A link with its number has the history of the link, and its number stays, where its owner's changes keep what they
/// keep of the link, and the number. So what a link layer says of its links holds of those that bear a number.
pub fn a_link_keeps_its_number<R: LinkRelay, O: LinkOwner<R>>()
    ensures { (start end : Numbered R)
        (steps : List (LinkAct (Numbered R) R.Attached R.Transferred R.Detached)) →
        LinkHistory (numbered R.gives) start steps end → OwnerKeeps (keeping O.keeps) steps →
        (end.number ≡ start.number)
        × LinkHistory R.gives start.link (without_numbers steps) end.link
        × OwnerKeeps O.keeps (without_numbers steps) }
{}

/// Inside the history of a session with its asked links the session has a history of its own, of what each call does in
/// it: so what `amqp_session_core::laws` says of sessions holds of it.
pub fn the_session_has_its_own_history<R: LinkRelay>()
    ensures { (start end : AskingSession R)
        (steps : List (AskingAct R R.Attached R.Transferred R.Detached)) →
        AskingHistory R.gives start steps end →
        (done : List (Act R R.Attached R.Transferred R.Detached)) × AreDoneBy steps done
        × History R.gives start.session done end.session }
{}

/// The history of a session that begins, or that accepts one of the peer's, goes on from that of its beginning: so what
/// the laws of sessions say of one that was fresh holds of it.
pub fn a_new_session_goes_on<R: LinkRelay>()
    ensures begun { (channel : OutgoingChannel) (first window : ℕ) (frame : SessionFrame) (start end : AskingSession R)
        (steps : List (AskingAct R R.Attached R.Transferred R.Detached)) →
        Begun R.gives channel first window frame start → AskingHistory R.gives start steps end →
        (done : List (Act R R.Attached R.Transferred R.Detached)) × AreDoneBy steps done
        × History R.gives (fresh channel first window) (SendsBegin frame ∷ done) end.session }
    ensures accepted { (wanted : AskedSession) (channel : OutgoingChannel) (incoming : IncomingChannel)
        (first window : ℕ) (frame : SessionFrame) (start end : AskingSession R)
        (steps : List (AskingAct R R.Attached R.Transferred R.Detached)) →
        Accepted R.gives wanted channel incoming first window frame start → AskingHistory R.gives start steps end →
        (done : List (Act R R.Attached R.Transferred R.Detached)) × AreDoneBy steps done
        × History R.gives (fresh channel first window)
        (accept_steps first incoming wanted.begin wanted.flow frame ++ done) end.session }
{}

/// What the calls do in the session takes an own handle back where one of the session's own calls among them does, and
/// each change of a link by its owner is one of these. So what a law of sessions asks of a history is asked of the
/// calls.
pub fn what_is_done_is_told_by_the_calls<R: LinkRelay, O: LinkOwner<R>>()
    ensures freed { (steps : List (AskingAct R R.Attached R.Transferred R.Detached))
        (done : List (Act R R.Attached R.Transferred R.Detached)) → AreDoneBy steps done →
        (link : ℕ) → is_freed link done ≡ is_handle_freed link steps }
    ensures kept { (steps : List (AskingAct R R.Attached R.Transferred R.Detached))
        (done : List (Act R R.Attached R.Transferred R.Detached)) → AreDoneBy steps done →
        AllKeep O.keeps steps → OwnersKeep O.keeps done }
{}

/// So each link has a history of its own, until a call of the session takes its own handle back, and the changes in it
/// keep what each change by the links' owner keeps: a law of a link layer holds in sessions with asked links.
pub fn each_link_has_its_own_history<R: LinkRelay, O: LinkOwner<R>>()
    ensures { (start end : AskingSession R)
        (steps : List (AskingAct R R.Attached R.Transferred R.Detached)) →
        AskingHistory R.gives start steps end → AllKeep O.keeps steps →
        (link : ℕ) (old : R) → link_at start.session link ≡ Some old → is_handle_freed link steps ≡ false →
        (done : List (Act R R.Attached R.Transferred R.Detached)) × AreDoneBy steps done
        × ((new : R) × (link_at end.session link ≡ Some new)
        × LinkHistory R.gives old (own_of link done) new × OwnerKeeps O.keeps (own_of link done)) }
{}

/// A session that begins, or that accepts one of the peer's, stands just so, and its Begin is this (part 2, 2.5.1,
/// 2.7.2): it names the peer's channel where it answers the peer's Begin. The peer's window is that of the latest
/// frame.
pub fn a_new_session_stands_so<R: LinkRelay>()
    ensures begun { (channel : OutgoingChannel) (first window : ℕ) (frame : SessionFrame) (new : AskingSession R) →
        Begun R.gives channel first window frame new →
        (new.session ≡ begun_state channel first window) × (frame ≡ begin_frame channel None first window) }
    ensures accepted { (wanted : AskedSession) (channel : OutgoingChannel) (incoming : IncomingChannel)
        (first window : ℕ) (frame : SessionFrame) (new : AskingSession R) →
        Accepted R.gives wanted channel incoming first window frame new →
        (new.session ≡ accepted_with channel incoming wanted.begin wanted.flow first window)
        × (frame ≡ begin_frame channel (Some incoming.0) first window) }
{}

/// A session that begins, or that accepts one of the peer's, has no handle of the peer's that leads to a link.
pub fn a_new_session_has_no_routes<R: LinkRelay>()
    ensures begun { (channel : OutgoingChannel) (first window : ℕ) (frame : SessionFrame) (new : AskingSession R) →
        Begun R.gives channel first window frame new → new.session.routes ≡ map.empty }
    ensures accepted { (wanted : AskedSession) (channel : OutgoingChannel) (incoming : IncomingChannel)
        (first window : ℕ) (frame : SessionFrame) (new : AskingSession R) →
        Accepted R.gives wanted channel incoming first window frame new → new.session.routes ≡ map.empty }
{}

/// Each handle of the peer's that leads anywhere leads to a link that is there (part 2, 2.6.2): an own handle that is
/// taken back takes its routes along. So a handle by which no link is reached isn't in use in the session either.
pub fn each_route_leads_to_a_link<R: LinkRelay>()
    ensures { (start end : AskingSession R)
        (steps : List (AskingAct R R.Attached R.Transferred R.Detached)) →
        start.session.routes ≡ map.empty → AskingHistory R.gives start steps end →
        (handle : ℕ) → reached end.session handle ≡ map.get end.session.routes handle }
{}

/// A handle of the peer's that is asked for leads to no link, where handles of the peer's come to lead to links by the
/// calls alone that take an Attach, or have a link answer (part 2, 2.6.2, 2.8.17). So a link that answers an asked one
/// isn't refused for the peer's handle.
pub fn an_asked_handle_leads_to_no_link<R: LinkRelay>()
    ensures { (start end : AskingSession R)
        (steps : List (AskingAct R R.Attached R.Transferred R.Detached)) →
        start.session.routes ≡ map.empty → AskingHistory R.gives start steps end → RouteNone steps →
        (handle : ℕ) → IsSome (map.get end.asked handle) →
        (map.get end.session.routes handle ≡ None) × (reached end.session handle ≡ None) }
{}

/// What a session hears of its peer is one of its calls at most, and nothing where nothing changed. It takes no own
/// handle back, no owner changes a link by it, and no handle of the peer's comes to lead to a link by it but where an
/// Attach is taken: so the laws above hold of a session that is told all by `AskingSession::on_incoming`.
pub fn what_is_heard_is_a_call<R: LinkRelay, O: LinkOwner<R>>()
    ensures call { (old new : AskingSession R) (out out_new : List SessionFrame) (said : LinkPerformative)
        (told : Result (PerformativeTaken R.Attached R.Transferred R.Detached) SessionError) →
        Hears R.gives old out said told new out_new →
        (steps : List (AskingAct R R.Attached R.Transferred R.Detached)) × AreHearing said steps
        × AskingHistory R.gives old steps new }
    ensures plain { (said : LinkPerformative)
        (steps : List (AskingAct R R.Attached R.Transferred R.Detached)) →
        AreHearing said steps →
        ((link : ℕ) → is_handle_freed link steps ≡ false) × AllKeep O.keeps steps × RouteNone steps }
{}

//! Laws of what waits in a session, and of what leaves it. A function here does nothing: its contract is the law.
ghost use Rattle.std.specs.Prelude.{◌≡◌, ◌≤◌, ◌++◌, ℕ, List, All, Some, Result, Ok};
ghost use Rattle.amqp_session_types.specs.declared.channels.IncomingChannel.{IncomingChannel};
ghost use Rattle.amqp_session_types.specs.declared.channels.OutgoingChannel.{OutgoingChannel};
ghost use Rattle.amqp_session_types.specs.declared.refusals.SessionError.{SessionError};
ghost use Rattle.amqp_session_performatives.specs.declared.session_frame.SessionFrame.{SessionFrame};
ghost use Rattle.amqp_session_outgoing.specs.Queues.{Queues};
ghost use Rattle.amqp_session_core.specs.declared.batch.BehindFrame.{BehindFrame};
ghost use Rattle.amqp_session_core.specs.declared.batch.TransferFrame.{TransferFrame};
ghost use Rattle.amqp_session_core.specs.declared.incoming.TransferTaken.{TransferTaken};
ghost use Rattle.amqp_session_core.specs.History.{History, frames_in};
ghost use Rattle.amqp_session_core.specs.State.{State, fresh};
ghost use Rattle.amqp_session_core.specs.Steps.{Act, Step};
ghost use Rattle.amqp_endpoint_links.specs.declared.session.AskedSession.{AskedSession};
ghost use Rattle.amqp_endpoint_links.specs.Beginning.{Accepted, Begun};
ghost use Rattle.amqp_endpoint_links.specs.Hearing.{Hears};
ghost use Rattle.amqp_endpoint_links.specs.Numbering.{numbered};
ghost use Rattle.amqp_endpoint_links.specs.History.{AskingHistory, AskingAct, AskingStep};
ghost use Rattle.amqp_endpoint_links.specs.declared.asking.AskingSession.{AskingSession};
ghost use Rattle.amqp_endpoint_links.specs.declared.hearing.LinkPerformative.{LinkPerformative};
ghost use Rattle.amqp_endpoint_links.specs.declared.hearing.PerformativeTaken.{PerformativeTaken};
ghost use Rattle.amqp_endpoint_links.specs.declared.hearing.PerformativeTaken.TheVariants as taken;
ghost use Rattle.amqp_endpoint_fitting.specs.Fits.{FrameFits, QueuesFit};
ghost use Rattle.amqp_endpoint_fitting.specs.Handed.{AllAskingEndFit, AllAskingHand, AllAskingSendFit, AllEndFit};
ghost use Rattle.amqp_endpoint_fitting.specs.Handed.{AllSendFit, AskingEndFits, AskingHands, AskingSendsFit, EndFits};
ghost use Rattle.amqp_endpoint_fitting.specs.Handed.{RepliesFit, SendsFit, handed, handed_of};
ghost use Rattle.amqp_endpoint_fitting.specs.Read.{IsRead};

use amqp_session_core::LinkRelay;

/// What waits in a session goes on fitting the limit by each of its steps, where what the step brings fits, and the
/// session's channel stays (part 2, 2.4.1, 2.5.6).
pub fn what_waits_keeps_fitting<R: LinkRelay>()
    ensures fits { (limit : ℕ) (old new : State R)
        (step : Act R R.Attached R.Transferred R.Detached) →
        Step R.gives old step new → SendsFit old.fields.channel.0 limit step →
        QueuesFit old.fields.channel.0 limit old.outgoing.queues →
        QueuesFit old.fields.channel.0 limit new.outgoing.queues }
    ensures channel { (old new : State R) (step : Act R R.Attached R.Transferred R.Detached) →
        Step R.gives old step new → new.fields.channel ≡ old.fields.channel }
{}

/// What a step hands out fits the limit, where what waited fits it, and what the step brings: an own Begin, too, and an
/// own End where it does by itself (part 2, 2.4.1, 2.7). The numbers of the frames are such as are read of them.
pub fn what_leaves_fits<R: LinkRelay>()
    ensures within { (limit : ℕ) (old new : State R)
        (step : Act R R.Attached R.Transferred R.Detached) →
        Step R.gives old step new → SendsFit old.fields.channel.0 limit step →
        QueuesFit old.fields.channel.0 limit old.outgoing.queues → 512 ≤ limit →
        All IsRead (frames_in step) → All (FrameFits limit) (frames_in step) }
    ensures whole { (limit : ℕ) (old new : State R)
        (step : Act R R.Attached R.Transferred R.Detached) →
        Step R.gives old step new → SendsFit old.fields.channel.0 limit step → EndFits limit step →
        QueuesFit old.fields.channel.0 limit old.outgoing.queues → 512 ≤ limit →
        All IsRead (handed step) → All (FrameFits limit) (handed step) }
{}

/// So it is by all steps of a history.
pub fn what_waits_keeps_fitting_throughout<R: LinkRelay>()
    ensures fits { (limit : ℕ) (start end : State R)
        (steps : List (Act R R.Attached R.Transferred R.Detached)) →
        History R.gives start steps end → AllSendFit start.fields.channel.0 limit steps →
        QueuesFit start.fields.channel.0 limit start.outgoing.queues →
        QueuesFit start.fields.channel.0 limit end.outgoing.queues }
    ensures channel { (start end : State R)
        (steps : List (Act R R.Attached R.Transferred R.Detached)) →
        History R.gives start steps end → end.fields.channel ≡ start.fields.channel }
{}

/// So does what is handed out by all steps of a history.
pub fn what_leaves_fits_throughout<R: LinkRelay>()
    ensures { (limit : ℕ) (start end : State R)
        (steps : List (Act R R.Attached R.Transferred R.Detached)) →
        History R.gives start steps end → AllSendFit start.fields.channel.0 limit steps → AllEndFit limit steps →
        QueuesFit start.fields.channel.0 limit start.outgoing.queues → 512 ≤ limit →
        All IsRead (handed_of steps) → All (FrameFits limit) (handed_of steps) }
{}

/// So it is in a session with its asked links, where no link answers a Flow with properties (part 2, 2.6.3, 2.7.4).
pub fn what_waits_with_asked_links_keeps_fitting<R: LinkRelay>()
    ensures fits { (limit : ℕ) (start end : AskingSession R)
        (steps : List (AskingAct R R.Attached R.Transferred R.Detached)) →
        AskingHistory R.gives start steps end → RepliesFit R.gives →
        AllAskingSendFit start.session.fields.channel.0 limit steps →
        QueuesFit start.session.fields.channel.0 limit start.session.outgoing.queues →
        QueuesFit start.session.fields.channel.0 limit end.session.outgoing.queues }
    ensures channel { (start end : AskingSession R)
        (steps : List (AskingAct R R.Attached R.Transferred R.Detached)) →
        AskingHistory R.gives start steps end → end.session.fields.channel ≡ start.session.fields.channel }
{}

/// So does what such a session hands out.
pub fn what_leaves_with_asked_links_fits<R: LinkRelay>()
    ensures { (limit : ℕ) (start end : AskingSession R)
        (steps : List (AskingAct R R.Attached R.Transferred R.Detached))
        (frames : List SessionFrame) →
        AskingHistory R.gives start steps end → RepliesFit R.gives →
        AllAskingSendFit start.session.fields.channel.0 limit steps → AllAskingEndFit limit steps →
        QueuesFit start.session.fields.channel.0 limit start.session.outgoing.queues → 512 ≤ limit →
        AllAskingHand steps frames → All IsRead frames → All (FrameFits limit) frames }
{}

/// What the peer says leaves what waits fitting the limit, and what is handed out by it fits; so does the Flow that a
/// transfer makes due, which is told with the transfer (part 2, 2.5.6).
pub fn what_is_heard_keeps_fitting<R: LinkRelay>()
    ensures waits { (limit : ℕ) (old new : AskingSession R) (out out_new : List SessionFrame) (said : LinkPerformative)
        (told : Result (PerformativeTaken R.Attached R.Transferred R.Detached) SessionError) →
        Hears R.gives old out said told new out_new → RepliesFit R.gives →
        QueuesFit old.session.fields.channel.0 limit old.session.outgoing.queues →
        (new.session.fields.channel ≡ old.session.fields.channel)
        × QueuesFit old.session.fields.channel.0 limit new.session.outgoing.queues }
    ensures leaves { (limit : ℕ) (old new : AskingSession R) (out out_new frames : List SessionFrame)
        (said : LinkPerformative)
        (told : Result (PerformativeTaken R.Attached R.Transferred R.Detached) SessionError) →
        Hears R.gives old out said told new out_new → RepliesFit R.gives →
        QueuesFit old.session.fields.channel.0 limit old.session.outgoing.queues → 512 ≤ limit →
        out_new ≡ out ++ frames → All IsRead frames → All (FrameFits limit) frames }
    ensures due { (limit : ℕ) (old new : AskingSession R) (out out_new : List SessionFrame) (said : LinkPerformative)
        (told : TransferTaken R.Transferred) (flow : SessionFrame) →
        Hears R.gives old out said (Ok (taken.Transfer told)) new out_new → 512 ≤ limit →
        told.flow ≡ Some flow → IsRead flow → FrameFits limit flow }
{}

/// What fits a limit fits a wider one (part 2, 2.7.1).
pub fn a_wider_limit_fits_too()
    ensures queues { (channel limit wider : ℕ) (queues : Queues TransferFrame BehindFrame) →
        QueuesFit channel limit queues → limit ≤ wider → QueuesFit channel wider queues }
    ensures frames { (limit wider : ℕ) (frames : List SessionFrame) →
        All (FrameFits limit) frames → limit ≤ wider → All (FrameFits wider) frames }
{}

/// Nothing waits in a session that is new (part 2, 2.5.1).
pub fn a_fresh_session_holds_nothing<R: LinkRelay>()
    ensures { (channel : OutgoingChannel) (first window limit : ℕ) →
        QueuesFit channel.0 limit (fresh {R = R} channel first window).outgoing.queues }
{}

/// Nor in one that begins, or that accepts one of the peer's, on a channel (part 2, 2.5.1).
pub fn a_new_session_holds_nothing<R: LinkRelay>()
    ensures begun { (channel : OutgoingChannel) (first window limit : ℕ) (frame : SessionFrame)
        (new : AskingSession R) → Begun R.gives channel first window frame new →
        (new.session.fields.channel ≡ channel) × QueuesFit channel.0 limit new.session.outgoing.queues }
    ensures accepted { (wanted : AskedSession) (channel : OutgoingChannel) (incoming : IncomingChannel)
        (first window limit : ℕ) (frame : SessionFrame) (new : AskingSession R) →
        Accepted R.gives wanted channel incoming first window frame new →
        (new.session.fields.channel ≡ channel) × QueuesFit channel.0 limit new.session.outgoing.queues }
{}

/// A link with its number answers Flows as the link does: where that says no properties, neither does this (part 2,
/// 2.7.4).
pub fn a_number_adds_no_properties<R: LinkRelay>()
    ensures { RepliesFit R.gives → RepliesFit (numbered R.gives) }
{}

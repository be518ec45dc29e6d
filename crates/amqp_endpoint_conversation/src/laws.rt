//! Laws of a conversation's calls. A function here does nothing: its contract is the law.
ghost use Rattle.std.specs.Prelude.{◌≡◌, ◌≢◌, ◌≤◌, ◌∷◌, ◌++◌, [], ℕ, suc, zero, length, List, All, None, Option};
ghost use Rattle.std.specs.Prelude.{Result, Err, false, ⊤};
ghost use Rattle.std.specs.Global.{Box};
ghost use Rattle.amqp_session_types.specs.declared.channels.OutgoingChannel.{OutgoingChannel};
ghost use Rattle.amqp_session_types.specs.declared.refusals.TryEndError.{TryEndError};
ghost use Rattle.amqp_session_core.specs.declared.relay.RelayError.{RelayError};
ghost use Rattle.amqp_session_core.specs.Frames.{Left};
ghost use Rattle.amqp_session_core.specs.State.{State};
ghost use Rattle.amqp_session_core.specs.Steps as session;
ghost use Rattle.amqp_session_frames.specs.declared.frame.FrameBody.TheVariants as body;
ghost use Rattle.amqp_session_performatives.specs.declared.flow.Flow.{Flow};
ghost use Rattle.amqp_session_performatives.specs.declared.link_flow.LinkFlow.{LinkFlow};
ghost use Rattle.amqp_endpoint_links.specs.declared.session.AskedSession.{AskedSession};
ghost use Rattle.amqp_endpoint_links.specs.History.{AskingHistory, AskingAct};
ghost use Rattle.amqp_endpoint_links.specs.declared.asking.AskingSession.{AskingSession};
ghost use Rattle.amqp_endpoint_tables.specs.declared.place.Place.{Place};
ghost use Rattle.amqp_endpoint_tables.specs.State.{live_at};
ghost use Rattle.amqp_endpoint_tables.specs.Steps.{ChangesLive, EndSent, EndTold, Finished, Step};
ghost use Rattle.amqp_session_performatives.specs.declared.session_frame.SessionFrame.{SessionFrame};
ghost use Rattle.amqp_endpoint_conversation.specs.declared.conversation.Conversation.{Conversation};
ghost use Rattle.amqp_endpoint_conversation.specs.Beginning.{AcceptsHere, BeginAnswered, BeginsHere, Sessions};
ghost use Rattle.amqp_session_types.specs.declared.channels.IncomingChannel.{IncomingChannel};
ghost use Rattle.amqp_session_types.specs.declared.error.Error.{Error};
ghost use Rattle.amqp_session_types.specs.declared.refusals.ConnectionError.{ConnectionError};
ghost use Rattle.amqp_session_types.specs.declared.refusals.SessionError.{SessionError};
ghost use Rattle.amqp_session_types.specs.declared.refusals.SessionError.TheVariants.{Memory};
ghost use Rattle.amqp_session_performatives.specs.declared.begin.Begin.{Begin};
ghost use Rattle.amqp_session_performatives.specs.declared.end.End.{End};
ghost use Rattle.amqp_endpoint_links.specs.declared.hearing.LinkPerformative.{LinkPerformative};
ghost use Rattle.amqp_endpoint_links.specs.declared.hearing.PerformativeTaken.{PerformativeTaken};
ghost use Rattle.amqp_endpoint_links.specs.Hearing.{Hears};
ghost use Rattle.amqp_endpoint_conversation.specs.declared.beginning.BeginHeard.{BeginHeard};
ghost use Rattle.amqp_endpoint_conversation.specs.declared.beginning.BeginRefusal.{BeginRefusal};
ghost use Rattle.amqp_endpoint_conversation.specs.declared.ending.EndHeard.{EndHeard};
ghost use Rattle.amqp_endpoint_conversation.specs.declared.hearing.Heard.{Heard};
ghost use Rattle.amqp_endpoint_conversation.specs.declared.hearing.HearRefusal.{HearRefusal};
ghost use Rattle.amqp_endpoint_conversation.specs.Ending.{EndAnswered, EndsHere};
ghost use Rattle.amqp_endpoint_conversation.specs.Hearing.{Answered, FlowTold};
ghost use Rattle.amqp_endpoint_fitting.specs.Handed.{AllAskingEndFit, AllAskingHand, AllAskingSendFit};
ghost use Rattle.amqp_endpoint_fitting.specs.Read.{IsRead};
ghost use Rattle.amqp_endpoint_conversation.specs.Clearing.{Clears, ClearsFirst};
ghost use Rattle.amqp_endpoint_conversation.specs.Going.{AnswersPlain, Goes, NoneLive, Rests, Within};
ghost use Rattle.amqp_endpoint_conversation.specs.Inside.{AcceptsInside, Batches};
ghost use Rattle.amqp_endpoint_conversation.specs.Windows.{Came, Keeps, body_said, counted, went};

use amqp_session_core::LinkRelay;

/// One call goes on from another.
pub fn calls_go_on<R: LinkRelay>()
    ensures goes { (limit : ℕ) (old mid new : Conversation R) (out out_mid out_new : List SessionFrame) →
        Goes limit old mid out out_mid → Goes limit mid new out_mid out_new → Goes limit old new out out_new }
    ensures rests { (old mid new : Conversation R) (out out_mid out_new : List SessionFrame) →
        Rests old mid out out_mid → Rests mid new out_mid out_new → Rests old new out out_new }
{}

/// What an owner does in one session that has begun, by whatever calls of that, hands out frames that fit where all
/// that waits does, and what the calls bring (part 2, 2.4.1, 2.5.6). The numbers of the frames are such as are read of
/// them.
pub fn a_session_changed_goes_on<R: LinkRelay>()
    ensures goes { (limit number : ℕ) (old new : Conversation R) (before after : Box (AskingSession R))
        (steps : List (AskingAct R R.Attached R.Transferred R.Detached))
        (frames out : List SessionFrame) →
        Step old.sessions (ChangesLive number before after) new.sessions →
        AskingHistory R.gives before.value steps after.value → AnswersPlain R.gives →
        AllAskingSendFit before.value.session.fields.channel.0 limit steps → AllAskingEndFit limit steps →
        AllAskingHand steps frames → All IsRead frames → Goes limit old new out (out ++ frames) }
    ensures rests { (number : ℕ) (old new : Conversation R) (before after : Box (AskingSession R))
        (out out_new : List SessionFrame) →
        Step old.sessions (ChangesLive number before after) new.sessions → Rests old new out out_new }
{}

/// What a call does is the same whatever was handed out before: its relation holds of its own frames where nothing was.
pub fn a_call_adds_its_own_frames<R: LinkRelay>()
    ensures begun { (old new : Conversation R) (number : ℕ) (out out_new frames : List SessionFrame) →
        out_new ≡ out ++ frames → BeginsHere R.gives old out number new out_new →
        BeginsHere R.gives old [] number new frames }
    ensures accepted { (old new : Conversation R) (channel : IncomingChannel) (number : ℕ)
        (out out_new frames : List SessionFrame) → out_new ≡ out ++ frames →
        AcceptsHere R.gives old out channel number new out_new →
        AcceptsHere R.gives old [] channel number new frames }
    ensures ended { (old new : Conversation R) (number : ℕ) (error : Option Error) (session : Box (AskingSession R))
        (out out_new frames : List SessionFrame) → out_new ≡ out ++ frames →
        EndsHere old out number error session new out_new → EndsHere old [] number error session new frames }
    ensures begin_heard { (old new : Conversation R) (channel : IncomingChannel) (begin : Begin)
        (result : Result BeginHeard BeginRefusal) (out out_new frames : List SessionFrame) →
        out_new ≡ out ++ frames → BeginAnswered R.gives old out channel begin result new out_new →
        BeginAnswered R.gives old [] channel begin result new frames }
    ensures end_heard { (old new : Conversation R) (channel : IncomingChannel) (end : End)
        (result : Result (EndHeard R) ConnectionError) (out out_new frames : List SessionFrame) →
        out_new ≡ out ++ frames → EndAnswered old out channel end result new out_new →
        EndAnswered old [] channel end result new frames }
    ensures heard { (old new : Conversation R) (channel : IncomingChannel) (said : LinkPerformative)
        (result : Result (Heard R.Attached R.Transferred R.Detached) (HearRefusal R))
        (out out_new frames : List SessionFrame) → out_new ≡ out ++ frames →
        Answered R.gives old out channel said result new out_new →
        Answered R.gives old [] channel said result new frames }
    ensures told { (old new : Conversation R) (number : ℕ) (out out_new frames : List SessionFrame) →
        out_new ≡ out ++ frames → FlowTold R.gives old out number new out_new →
        FlowTold R.gives old [] number new frames }
{}

/// That the caller is told of a peer's End changes nothing else (part 2, 2.5.2).
pub fn an_end_told_goes_on<R: LinkRelay>()
    ensures goes { (limit number : ℕ) (old new : Conversation R) (told : Result ⊤ TryEndError)
        (out : List SessionFrame) → EndTold old.sessions number told new.sessions → Goes limit old new out out }
    ensures rests { (number : ℕ) (old new : Conversation R) (told : Result ⊤ TryEndError) (out : List SessionFrame) →
        EndTold old.sessions number told new.sessions → Rests old new out out }
{}

/// What fits a limit fits a wider one (part 2, 2.7.1), and where no session goes on nothing waits.
pub fn what_waits_fits<R: LinkRelay>()
    ensures wider { (limit wider : ℕ) (talk : Conversation R) → Within limit talk → limit ≤ wider →
        Within wider talk }
    ensures none { (limit : ℕ) (talk : Conversation R) → NoneLive talk → Within limit talk }
{}

/// A session's own side is over, or its connection: no session goes on with its number then, all others stand where
/// they stood, and the connection stands still. Once it was so of each number, no session goes on (part 2, 2.4.3,
/// 2.5.2).
pub fn sessions_end_with_their_connection<R: LinkRelay>()
    ensures left { (old new : Sessions R) (number : ℕ) (left : Option (OutgoingChannel × Box (AskingSession R))) →
        EndSent false old number left new → Clears old number new }
    ensures finished { (old new : Sessions R) (number : ℕ)
        (stood : Option (Place (Box AskedSession) (Box (AskingSession R)))) →
        Finished old number stood new → Clears old number new }
    ensures first { (old new : Sessions R) → new ≡ old → ClearsFirst zero old new }
    ensures next { (number : ℕ) (old mid new : Sessions R) → ClearsFirst number old mid → Clears mid number new →
        ClearsFirst (suc number) old new }
    ensures all { (old new : Sessions R) → ClearsFirst (length old.places) old new →
        (number : ℕ) → live_at new number ≡ None }
{}

/// What a session does keeps each of its transfers in the peer's window, and the session counts as a judge of the wire
/// does (part 2, 2.5.6): by steps of its own by which the window stays, as the peer's Begin opens it, as a Flow of the
/// peer's tells it anew, and so by all that the session hears of its peer, where there is memory for that.
pub fn transfers_keep_to_the_window<R: LinkRelay>()
    ensures inside { (accepted : Batches) (frames : List SessionFrame) (old new : State R) →
        AcceptsInside R.gives accepted old frames new →
        Keeps (counted old.outgoing) (went frames) (counted new.outgoing) }
    ensures opened { (channel : IncomingChannel) (begin : Begin) (base : ℕ) (left : Left) (frames : List SessionFrame)
        (old new : State R) → session.Step R.gives old
        (session.TakesBegin channel begin base left frames) new →
        Keeps (counted old.outgoing) (Came (body.Begin begin) ∷ went frames) (counted new.outgoing) }
    ensures told { (flow : Flow) (link : Option (ℕ × Result (Option LinkFlow) RelayError)) (reply : session.Reply)
        (base : ℕ) (left : Left) (frames : List SessionFrame) (old new : State R) →
        session.Step R.gives old (session.TakesFlow flow link reply base left frames) new →
        Keeps (counted old.outgoing) (Came (body.Flow flow) ∷ went frames) (counted new.outgoing) }
    ensures set { (flow : Flow) (base : ℕ) (old new : State R) →
        session.Step R.gives old (session.SetsWindow flow base) new →
        Keeps (counted old.outgoing) (Came (body.Flow flow) ∷ []) (counted new.outgoing) }
    ensures heard { (it : LinkPerformative)
        (told : Result (PerformativeTaken R.Attached R.Transferred R.Detached) SessionError)
        (frames : List SessionFrame) (old new : AskingSession R) → told ≢ Err Memory →
        Hears R.gives old [] it told new frames →
        Keeps (counted old.session.outgoing) (Came (body_said it) ∷ went frames) (counted new.session.outgoing) }
{}

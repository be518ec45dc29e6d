//! What one who reads the frames that pass on a connection finds of its sessions, by channels alone, beside what the
//! sessions are (part 2, 2.5.1, 2.5.2). A function here does nothing: its contract is the law.
//!
//! `read_of` in specs/Reading.antt says which frames are a session's.
ghost use Rattle.std.specs.Prelude.{◌≡◌, ◌∷◌, ◌++◌, [], ℕ, List, false, length, Option, Result, Some, Ok, Err};
ghost use Rattle.std.specs.FinMap as map;
ghost use Rattle.std.specs.Global.{Box};
ghost use Rattle.amqp_session_types.specs.declared.channels.IncomingChannel.{IncomingChannel};
ghost use Rattle.amqp_session_types.specs.declared.error.Error.{Error};
ghost use Rattle.amqp_session_types.specs.declared.refusals.SessionError.{SessionError};
ghost use Rattle.amqp_session_performatives.specs.declared.begin.Begin.{Begin};
ghost use Rattle.amqp_session_performatives.specs.declared.end.End.{End};
ghost use Rattle.amqp_session_performatives.specs.declared.session_frame.SessionFrame.{SessionFrame};
ghost use Rattle.amqp_session_performatives.specs.declared.session_frame.SessionFrameBody.TheVariants as sent;
ghost use Rattle.amqp_session_frames.specs.declared.frame.Frame.{Frame};
ghost use Rattle.amqp_session_frames.specs.declared.frame.FrameBody.{FrameBody};
ghost use Rattle.amqp_session_frames.specs.declared.frame.FrameBody.TheVariants as body;
ghost use Rattle.amqp_session_core.specs.History.{frames_in};
ghost use Rattle.amqp_session_core.specs.State.{State as SessionState};
ghost use Rattle.amqp_session_core.specs.Steps as session;
ghost use Rattle.amqp_endpoint_links.specs.Hearing.{Hears};
ghost use Rattle.amqp_endpoint_links.specs.declared.asking.AskingSession.{AskingSession};
ghost use Rattle.amqp_endpoint_links.specs.declared.hearing.LinkPerformative.{LinkPerformative};
ghost use Rattle.amqp_endpoint_links.specs.declared.hearing.PerformativeTaken.{PerformativeTaken};
ghost use Rattle.amqp_endpoint_tables.specs.State.{State, reached};
ghost use Rattle.amqp_endpoint_tables.specs.Steps.{ChangesLive, History, Act, Step};
ghost use Rattle.amqp_endpoint_conversation.specs.declared.beginning.BeginHeard.{BeginHeard};
ghost use Rattle.amqp_endpoint_conversation.specs.declared.beginning.BeginHeard.TheVariants as begin_heard;
ghost use Rattle.amqp_endpoint_conversation.specs.declared.beginning.BeginRefusal.TheVariants.{Session};
ghost use Rattle.amqp_endpoint_conversation.specs.declared.conversation.Conversation.{Conversation};
ghost use Rattle.amqp_endpoint_conversation.specs.declared.ending.EndHeard.{EndHeard};
ghost use Rattle.amqp_endpoint_conversation.specs.declared.hearing.Heard.{Heard};
ghost use Rattle.amqp_endpoint_conversation.specs.declared.hearing.HearRefusal.{HearRefusal};
ghost use Rattle.amqp_endpoint_conversation.specs.Beginning.{AcceptsHere, BeginAnswered, BeginsHere};
ghost use Rattle.amqp_endpoint_conversation.specs.Ending.{EndAnswered, EndsHere};
ghost use Rattle.amqp_endpoint_conversation.specs.Hearing.{Answered, FlowTold};
ghost use Rattle.amqp_endpoint_laws.specs.Beside.{Agrees, InTables, IsOff, Known, OnConnection, behind_steps};
ghost use Rattle.amqp_endpoint_laws.specs.Beside.{from, role_at};
ghost use Rattle.amqp_endpoint_laws.specs.Channel.{AllAnswer, Awaits, ByTurns, NoneBegins, begins_come, begins_sent};
ghost use Rattle.amqp_endpoint_laws.specs.Channel.{come_on, comings, goings, sent_on};
ghost use Rattle.amqp_endpoint_laws.specs.Following.{AreFor, AreOf, Follows, IsForReached, IsWithin, NoBegins};
ghost use Rattle.amqp_endpoint_laws.specs.Following.{comes, goes};
ghost use Rattle.amqp_endpoint_laws.specs.Reading.{Comes, Goes, Reader, Speaks, Wired, begun_here, begun_there};
ghost use Rattle.amqp_endpoint_laws.specs.Reading.{behind, behind_all, comes_for, nothing_read, reaches, read_of};

use amqp_session_core::LinkRelay;

/// As long as a connection goes on, the sessions on its channels are those that one reads who sees of each step the
/// Begin that is sent in it, or the Begin or End of the peer's that is taken, and nothing else: which session has which
/// own channel, and which one the peer's frames on a channel reach (part 2, 2.5.1, 2.5.2).
pub fn channels_tell_the_sessions<A: Drop, S: Drop>()
    ensures goes_on { (base : ℕ) (r : Reader) (start end : State A S) (steps : List (Act A S)) →
        History start steps end → OnConnection steps → InTables start → Agrees base r start →
        InTables end × Agrees base (behind_steps r steps) end }
    ensures reached { (base : ℕ) (r : Reader) (s : State A S) (channel : ℕ) → Agrees base r s →
        reached s channel ≡ from base (reaches r channel) }
{}

/// What a conversation does is read off the frames that pass by it: behind them one who reads along has the sessions on
/// the channels on which they are (part 2, 2.5.1, 2.5.2). So it is as a session begins or ends, here or by the peer's
/// frame, as anything else is heard on a channel, and as a session goes on by itself, which sends no Begin.
pub fn what_is_done_is_read<R: LinkRelay>()
    ensures begins { (old new : Conversation R) (number : ℕ) (frames : List SessionFrame) →
        BeginsHere R.gives old [] number new frames → Follows (goes frames) old.sessions new.sessions }
    ensures accepts { (old new : Conversation R) (channel : IncomingChannel) (number : ℕ)
        (frames : List SessionFrame) → AcceptsHere R.gives old [] channel number new frames →
        InTables old.sessions → Follows (goes frames) old.sessions new.sessions }
    ensures ends { (old new : Conversation R) (number : ℕ) (error : Option Error) (session : Box (AskingSession R))
        (frames : List SessionFrame) → EndsHere old [] number error session new frames →
        Follows (goes frames) old.sessions new.sessions }
    ensures takes_begin { (old new : Conversation R) (channel : IncomingChannel) (begin : Begin) (heard : BeginHeard)
        (frames : List SessionFrame) → BeginAnswered R.gives old [] channel begin (Ok heard) new frames →
        Follows (comes channel.0 (body.Begin begin) ∷ goes frames) old.sessions new.sessions }
    ensures bars_begin { (old new : Conversation R) (channel : IncomingChannel) (begin : Begin) (number : ℕ)
        (fault : SessionError) (frames : List SessionFrame) →
        BeginAnswered R.gives old [] channel begin (Err (Session number fault)) new frames →
        Follows (comes channel.0 (body.Begin begin) ∷ goes frames) old.sessions new.sessions }
    ensures takes_end { (old new : Conversation R) (channel : IncomingChannel) (end : End) (heard : EndHeard R)
        (frames : List SessionFrame) → EndAnswered old [] channel end (Ok heard) new frames →
        Follows (comes channel.0 (body.End end) ∷ goes frames) old.sessions new.sessions }
    ensures hears { (old new : Conversation R) (channel : IncomingChannel) (it : FrameBody) (said : LinkPerformative)
        (result : Result (Heard R.Attached R.Transferred R.Detached) (HearRefusal R)) (frames : List SessionFrame) →
        IsWithin it → Answered R.gives old [] channel said result new frames →
        Follows (comes channel.0 it ∷ goes frames) old.sessions new.sessions }
    ensures tells { (old new : Conversation R) (number : ℕ) (frames : List SessionFrame) →
        FlowTold R.gives old [] number new frames → Follows (goes frames) old.sessions new.sessions }
    ensures within { (old new : Conversation R) (number : ℕ) (before after : Box (AskingSession R))
        (frames : List SessionFrame) → Step old.sessions (ChangesLive number before after)
        new.sessions →
        NoBegins frames → Follows (goes frames) old.sessions new.sessions }
{}

/// One thing is done behind another, and by both the sessions on the channels are those that are read. A session that
/// has a channel is the one whose frames are read on it.
pub fn what_is_read_is_kept<A: Drop, S: Drop>()
    ensures further { (old mid new : State A S) (frames more : List Wired) →
        Follows frames old mid → Follows more mid new → Follows (frames ++ more) old new }
    ensures kept { (base : ℕ) (r : Reader) (old new : State A S) (frames : List Wired) →
        Follows frames old new → InTables old → Agrees base r old →
        InTables new × Agrees base (behind_all r frames) new }
    ensures speaks { (frames : List Wired) → Speaks (behind_all nothing_read frames) }
{}

/// Where a connection begins anew behind one that is over, nothing is read of it yet, and it agrees with that: the
/// sessions that are asked for on it get the numbers behind those that there were (part 2, 2.4.1, 2.5.1).
pub fn a_new_connection_is_read_from_nothing<A: Drop, S: Drop>()
    ensures known { (start end : State A S) (steps : List (Act A S)) →
        History start steps end → Known start → Known end }
    ensures anew { (s : State A S) → Known s → ((number : ℕ) → IsOff (role_at s number)) →
        s.connection.live ≡ map.empty → s.connection.routes ≡ map.empty →
        InTables s × Agrees (length s.places) nothing_read s }
{}

/// What a session that has begun hands out by itself is on its own channel, and no Begin is among it (part 2, 2.5.1).
pub fn what_a_session_hands_out_is_on_its_channel<R: LinkRelay>()
    ensures steps { (old new : SessionState R)
        (step : session.Act R R.Attached R.Transferred R.Detached) →
        session.Step R.gives old step new → AreOf old.fields.channel.0 (frames_in step) }
    ensures hears { (old new : AskingSession R) (said : LinkPerformative)
        (told : Result (PerformativeTaken R.Attached R.Transferred R.Detached) SessionError)
        (frames : List SessionFrame) → Hears R.gives old [] said told new frames →
        AreOf old.session.fields.channel.0 frames }
    ensures plain { (channel : ℕ) (frames : List SessionFrame) → AreOf channel frames →
        NoBegins frames }
{}

/// Each frame by which a session begins or ends is read as the frame of that session, and whatever else comes as that
/// of the session which its channel reaches: one who reads along finds the frames' sessions by channels alone (part 2,
/// 2.5.1, 2.5.2).
pub fn each_frame_is_read_as_its_sessions<R: LinkRelay>()
    ensures begins { (base : ℕ) (r : Reader) (old new : Conversation R) (number : ℕ) (frames : List SessionFrame) →
        BeginsHere R.gives old [] number new frames → Agrees base r old.sessions →
        AreFor base number r (goes frames) }
    ensures accepts { (base : ℕ) (r : Reader) (old new : Conversation R) (channel : IncomingChannel) (number : ℕ)
        (frames : List SessionFrame) → AcceptsHere R.gives old [] channel number new frames →
        Agrees base r old.sessions → AreFor base number r (goes frames) }
    ensures ends { (base : ℕ) (r : Reader) (old new : Conversation R) (number : ℕ) (error : Option Error)
        (session : Box (AskingSession R)) (frames : List SessionFrame) →
        EndsHere old [] number error session new frames → InTables old.sessions → Agrees base r old.sessions →
        Speaks r → AreFor base number r (goes frames) }
    ensures asked { (base : ℕ) (r : Reader) (old new : Conversation R) (channel : IncomingChannel) (begin : Begin)
        (number : ℕ) (frames : List SessionFrame) →
        BeginAnswered R.gives old [] channel begin (Ok (begin_heard.Asked number)) new frames →
        Agrees base r old.sessions → AreFor base number r (comes channel.0 (body.Begin begin) ∷ []) }
    ensures begun { (base : ℕ) (r : Reader) (old new : Conversation R) (channel : IncomingChannel) (begin : Begin)
        (number : ℕ) (frames : List SessionFrame) →
        BeginAnswered R.gives old [] channel begin (Ok (begin_heard.Begun number)) new frames →
        Agrees base r old.sessions → AreFor base number r (comes channel.0 (body.Begin begin) ∷ []) }
    ensures ended { (base : ℕ) (r : Reader) (old new : Conversation R) (channel : IncomingChannel) (end : End)
        (heard : EndHeard R) (frames : List SessionFrame) → EndAnswered old [] channel end (Ok heard) new frames →
        Agrees base r old.sessions → AreFor base heard.number r (comes channel.0 (body.End end) ∷ []) }
    ensures heard { (base : ℕ) (r : Reader) (talk : Conversation R) (channel : ℕ) (it : FrameBody) →
        IsForReached it → Agrees base r talk.sessions →
        from base (comes_for r channel it) ≡ reached talk.sessions channel }
{}

/// The frames that go in one session are read off the channel on which its own Begin goes, and a count: how many Begins
/// went there before. They are those on the channel from that Begin on, up to the next (part 2, 2.5.1).
pub fn what_goes_in_a_session_is_read_off_its_channel()
    ensures { (number channel : ℕ) (first later : List Wired) (frame : SessionFrame) (begin : Begin) →
        frame.channel ≡ channel → frame.body ≡ sent.Begin begin →
        begun_here (behind_all nothing_read first) begin.remote_channel ≡ Some number →
        let all = first ++ Goes frame ∷ later in
        goings (read_of number all) ≡ sent_on channel (Awaits (begins_sent channel (goings first))) (goings all) }
{}

/// The frames that come in one session are read off the channel on which the peer's Begin comes, and a count: how many
/// Begins came there before. They are those on the channel from that Begin on, up to its End or the next Begin. So it is
/// where the peer begins no session twice, begins none on a channel on which one goes on, and the own Begins that name a
/// channel answer a session for which the peer asks there (part 2, 2.5.1, 2.5.2).
pub fn what_comes_in_a_session_is_read_off_its_channel()
    ensures { (number channel : ℕ) (first later : List Wired) (frame : Frame) (begin : Begin) →
        frame.channel ≡ channel → frame.body ≡ body.Begin begin →
        begun_there (behind_all nothing_read first) begin.remote_channel ≡ Some number →
        NoneBegins number nothing_read first →
        NoneBegins number (behind (behind_all nothing_read first) (Comes frame)) later →
        let all = first ++ Comes frame ∷ later in
        ByTurns channel false (comings all) → AllAnswer nothing_read all →
        comings (read_of number all) ≡ come_on channel (Awaits (begins_come channel (comings first))) (comings all) }
{}

//! Laws of a connection's histories. A function here does nothing: its contract is the law.
ghost use Rattle.std.specs.Prelude.{◌≡◌, ◌≤◌, ◌↔◌, ◌++◌, ℕ, List, [], ◌∷◌, Option, Some, None, Result, Ok, Err, All};
ghost use Rattle.std.specs.Prelude.{IsTrue, length, min, nat_eq};
ghost use Rattle.std.specs.List.{IsDistinct};
ghost use Rattle.std.specs.Map.{keys_of, lookup};
ghost use Rattle.amqp_session_frames.specs.State.{State, fresh, highest_channel};
ghost use Rattle.amqp_session_frames.specs.Steps.{Act, History, FindsSession, TakesBegin, TakesEnd};
ghost use Rattle.amqp_session_frames.specs.Told.{row, is_illegal, state_after, routed, live_after};
ghost use Rattle.amqp_session_frames.specs.Told.{peer_channel_max, first_given, opens_out, closes_out};
ghost use Rattle.amqp_session_frames.specs.declared.state.ConnectionState.{ConnectionState};
ghost use Rattle.amqp_session_performatives.specs.declared.open.Open.{Open};
ghost use Rattle.amqp_session_performatives.specs.declared.begin.Begin.{Begin};
ghost use Rattle.amqp_session_performatives.specs.declared.end.End.{End};
ghost use Rattle.amqp_session_types.specs.declared.channels.IncomingChannel.{IncomingChannel};
ghost use Rattle.amqp_session_types.specs.declared.refusals.ConnectionError.{ConnectionError};
ghost use Rattle.amqp_session_types.specs.declared.refusals.ConnectionError.TheVariants.{NotFound};
ghost use Rattle.amqp_session_types.specs.declared.refusals.ConnectionStopReason.{ConnectionStopReason};

/// The state is the one that the table has behind the accepted calls, and a call is refused IllegalState exactly where
/// the table has no state behind it (part 2, 2.4.6).
pub fn states_follow_the_table()
    ensures followed { (start end : State) (steps : List Act) → History start steps end →
        state_after (Some start.local_state) steps ≡ Some end.local_state }
    ensures refused { (start end : State) (steps : List Act) (step : Act) (state : ConnectionState)
        → History start (steps ++ step ∷ []) end
        → state_after (Some start.local_state) steps ≡ Some state → IsTrue (is_illegal step) ↔ (row step state ≡ None) }
{}

/// The peer's frames on a channel go to the session of the last Begin (or route) that was accepted on it, if no End was
/// accepted on it since; an End is refused NotFound exactly where there is none (part 2, 2.5.1, 2.5.2).
pub fn routes_last_from_begin_to_end()
    ensures found { (state : ConnectionState) (opening : Open) (end : State) (steps : List Act)
        (channel : IncomingChannel) (answer : Option ℕ) →
        History (fresh state opening) (steps ++ FindsSession channel answer ∷ []) end → answer ≡ routed channel.0 None steps }
    ensures ended { (state : ConnectionState) (opening : Open) (end : State) (steps : List Act)
        (channel : IncomingChannel) (ending : End) (session : ℕ) →
        History (fresh state opening) (steps ++ TakesEnd channel ending (Ok session) ∷ []) end → routed channel.0 None steps ≡ Some session }
    ensures not_found { (state : ConnectionState) (opening : Open) (end : State) (steps : List Act)
        (channel : IncomingChannel) (ending : End) (e : ConnectionError) →
        History (fresh state opening) (steps ++ TakesEnd channel ending (Err e) ∷ []) end → (e ≡ NotFound) × (routed channel.0 None steps ≡ None) }
{}

/// No two live sessions have one outgoing channel, and none has one above the smaller of both channel-max (part 2,
/// 2.7.1): a session is live from where a channel was given to it until that is taken back. Once the peer's Open was
/// taken, the smaller is that of both numbers; before, where a connection is made behind it, the own one stands alone.
pub fn live_channels_are_apart()
    ensures apart { (state : ConnectionState) (opening : Open) (end : State) (steps : List Act) →
        History (fresh state opening) steps end →
        IsDistinct nat_eq (keys_of (live_after [] steps)) }
    ensures within { (state : ConnectionState) (opening : Open) (end : State) (steps : List Act)
        → History (fresh state opening) steps end
        → All (λ s. s.0 ≤ highest_channel opening.channel_max (peer_channel_max None steps)) (live_after [] steps) }
    ensures allowed { (state : ConnectionState) (opening : Open) (end : State) (steps : List Act)
        (peer : ℕ)
        → History (fresh state opening) steps end → peer_channel_max None steps ≡ Some peer
        → All (λ s. s.0 ≤ min opening.channel_max peer) (live_after [] steps) }
{}

/// A Begin of the peer that names a channel goes to the live session that has it, and is refused NotFound only where
/// none has it (part 2, 2.5.1).
pub fn begins_reach_live_sessions()
    ensures reached { (state : ConnectionState) (opening : Open) (end : State) (steps : List Act)
        (channel : IncomingChannel) (beginning : Begin) (named session : ℕ) →
        History (fresh state opening) (steps ++ TakesBegin channel beginning (Ok session) ∷ []) end → beginning.remote_channel ≡ Some named → lookup (nat_eq named) (live_after [] steps) ≡ Some session }
    ensures not_found { (state : ConnectionState) (opening : Open) (end : State) (steps : List Act)
        (channel : IncomingChannel) (beginning : Begin) (named : ℕ) →
        History (fresh state opening) (steps ++ TakesBegin channel beginning (Err NotFound) ∷ []) end → beginning.remote_channel ≡ Some named → lookup (nat_eq named) (live_after [] steps) ≡ None }
{}

/// The first stop reason that was given stays.
pub fn first_stop_reason_stays()
    ensures given { (state : ConnectionState) (opening : Open) (end : State) (steps : List Act) →
        History (fresh state opening) steps end → end.stop_reason ≡ first_given None steps }
    ensures stays { (start end : State) (steps : List Act) (reason : ConnectionStopReason) →
        start.stop_reason ≡ Some reason → History start steps end → end.stop_reason ≡ Some reason }
{}

/// At most one Open and at most one Close are handed out, from whichever state on (part 2, 2.4.1, 2.4.3).
pub fn one_open_and_one_close()
    ensures opens { (start end : State) (steps : List Act) → History start steps end →
        length (opens_out steps) ≤ 1 }
    ensures closes { (start end : State) (steps : List Act) → History start steps end →
        length (closes_out steps) ≤ 1 }
{}

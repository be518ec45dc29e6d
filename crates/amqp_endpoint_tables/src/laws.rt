//! Laws of histories of an endpoint's sessions.
ghost use Rattle.std.specs.Prelude.{◌≡◌, ℕ, List, Some};
ghost use Rattle.amqp_session_types.specs.declared.channels.OutgoingChannel.{OutgoingChannel};
ghost use Rattle.amqp_session_frames.specs.State as channels;
ghost use Rattle.amqp_endpoint_tables.specs.State.{State, channel_at, fresh, is_complete, place_at};
ghost use Rattle.amqp_endpoint_tables.specs.Steps.{History, Act};
ghost use Rattle.amqp_endpoint_tables.specs.Own.{KeepsChannels, PlaceHistory, has_ended, steps_of};

/// Each session has a history of its own: where it stands behind all steps comes from where it stood and the steps
/// that are about it, in their order. So no step but its own touches a session, its number is given once, and one that
/// is over stays over.
pub fn each_session_has_its_own_history<A: Drop, S: Drop>()
    ensures { (n : ℕ) (start end : State A S) (steps : List (Act A S)) → History start steps end →
        PlaceHistory (place_at start n) (steps_of n steps) (place_at end n) }
{}

/// `is_ended` says of a session exactly whether both End passed, of which the own one may be the answer to the peer's, or
/// its connection is over: an own Close is no End, so that of a session that it ends nothing says so behind the peer's
/// End alone (part 2, 2.4.3, 2.5.2). It says so of none that never began.
pub fn a_session_has_ended_once_both_end_passed<A: Drop, S: Drop>()
    ensures { (n : ℕ) (connection : channels.State) (end : State A S) (steps : List (Act A S)) →
        History (fresh connection) steps end → is_complete (place_at end n) ≡ has_ended (steps_of n steps) }
{}

/// No two sessions that have an outgoing channel have one: it is given anew only once it came back, which it does with
/// the peer's End or with the connection's end (part 2, 2.5.1, 2.5.2).
pub fn sessions_have_channels_of_their_own<A: Drop, S: Drop>()
    ensures { (connection : channels.State) (end : State A S) (steps : List (Act A S)) →
        KeepsChannels steps → History (fresh connection) steps end →
        (m n : ℕ) (channel : OutgoingChannel) →
        channel_at end m ≡ Some channel → channel_at end n ≡ Some channel → m ≡ n }
{}

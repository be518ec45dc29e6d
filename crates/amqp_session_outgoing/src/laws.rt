//! Laws of histories of the sending side of a session: each says what holds of every list of calls from a new one on,
//! whatever the transfers and the other frames are.
ghost use Rattle.std.specs.Prelude.{◌≡◌, ◌≢◌, ℕ, ◌+◌, ◌<◌, ◌≤◌, ◌%◌, ◌^◌, [], ◌∷◌, List, ◌++◌, length};
ghost use Rattle.amqp_session_outgoing.specs.Range.{ahead};
ghost use Rattle.amqp_session_outgoing.specs.Queues.{held_in, units_of, waiting_of};
ghost use Rattle.amqp_session_outgoing.specs.State.{State};
ghost use Rattle.amqp_session_outgoing.specs.History.{Act, Step, History, fresh};
ghost use Rattle.amqp_session_outgoing.specs.Told.{out_of, accepted_of, transfers_out, InLatestWindow, latest_base};
ghost use Rattle.amqp_session_outgoing.specs.Told.{latest_width, HasCaughtUp, IsNumbered, LeavesIn, GivesFree};
ghost use Rattle.amqp_session_outgoing.specs.Turns.{Event, Out, events_of, Successive, WaitsThroughout, turns_of};
ghost use Rattle.amqp_session_outgoing.specs.declared.frames.Sent.{Sent};

/// For each link, the frames that left and then those that wait are those that were accepted, in order: its transfers,
/// each with a delivery number exactly where it begins a delivery, and its Flows and Detaches in their places among
/// them.
pub fn each_link_in_order<T, F>()
    ensures { (first : ℕ) (steps : List (Act T F)) (end : State T F)
        → History (fresh first) steps end
        → (link : ℕ) → out_of link steps ++ waiting_of link end.queues ≡ accepted_of link steps }
{}

/// A link of which nothing waits sends nothing, and nothing of it waits, until a frame of it is accepted: so nothing of
/// a handle that was given back leaves before it is given anew.
pub fn silent_link_stays_silent<T, F>()
    ensures { (first : ℕ) (before after : List (Act T F)) (mid end : State T F)
        → History (fresh first) before mid → History mid after end
        → (link : ℕ) → units_of link mid.queues ≡ [] → accepted_of link after ≡ []
        → (out_of link after ≡ []) × (units_of link end.queues ≡ []) }
{}

/// Between two successive transfers of a link that waits from the one to the other, each other link that waits
/// throughout sends exactly one.
pub fn links_take_turns<T, F>()
    ensures { (first : ℕ) (steps : List (Act T F)) (end : State T F)
        → History (fresh first) steps end
        → (link other : ℕ) (before between : List (Event T F))
        → (pair : Successive link (events_of steps) before between) → link ≢ other
        → WaitsThroughout other (before ++ Out pair.one ∷ []) between → turns_of other between ≡ 1 }
{}

/// Each transfer that leaves lies in the latest window that was taken (part 2, 2.5.6). Before the first there is none.
pub fn each_in_window<T, F>()
    ensures { (first : ℕ) (steps : List (Act T F)) (end : State T F)
        → History (fresh first) steps end → InLatestWindow first 0 steps }
{}

/// After each call something waits only while the number of the next transfer lies outside the latest window; but for
/// a window that was set alone, until the next is taken or the next batch accepted.
pub fn waits_outside<T, F>()
    ensures { (first : ℕ) (steps : List (Act T F)) (end : State T F)
        → first < 2 ^ 32 → History (fresh first) steps end
        → HasCaughtUp steps → 0 < held_in end.queues
        → latest_width 0 steps
        ≤ ahead ((first + length (transfers_out steps)) % 2 ^ 32) (latest_base first steps) }
{}

/// The n-th transfer to leave has the session's first number plus n, and the n-th delivery to leave has n, modulo 2^32.
pub fn each_numbered<T, F>()
    ensures { (first : ℕ) (steps : List (Act T F)) (end : State T F)
        → first < 2 ^ 32 → History (fresh first) steps end
        → IsNumbered first 0 (transfers_out steps) }
{}

/// The number that a delivery gets as it leaves is no unsettled delivery's (part 2, 2.8.6).
pub fn each_number_free<T, F>()
    ensures { (first : ℕ) (steps : List (Act T F)) (step : Act T F) (old new : State T F)
        → History (fresh first) steps old → Step old step new
        → (sent : Sent T F) (here : State T F) → LeavesIn old step sent here
        → GivesFree here sent.delivery }
{}

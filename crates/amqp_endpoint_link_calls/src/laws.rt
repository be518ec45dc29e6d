//! Laws of what waits in an endpoint's sessions. A function here does nothing: its contract is the law.
ghost use Rattle.std.specs.Prelude.{◌≡◌, ◌≤◌};
ghost use Rattle.amqp_endpoint_link_calls.specs.Waiting.{AllAreThereAt, SessionPlace, held_at, total, turn_at};

/// The transfers that wait in a session are those of its links: all of them, where each link of which one waits is
/// there (part 2, 2.5.6). Of a handle that was taken back nothing waits, as
/// `amqp_session_core::laws::freed_handles_have_no_deliveries` says.
pub fn what_waits_is_held_back()
    ensures all { (place : SessionPlace) → AllAreThereAt place →
        total (turn_at place) ≡ held_at place }
    ensures most { (place : SessionPlace) → total (turn_at place) ≤ held_at place }
{}

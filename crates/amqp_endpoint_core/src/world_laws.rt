//! Laws of the runs of a world. A function here does nothing: its contract is the law, of every kind of sessions.
ghost use Rattle.std.specs.Prelude.{◌≡◌, ◌++◌, [], List};
ghost use Rattle.amqp_endpoint_model.specs.History.{Run, nothing, summary};
ghost use Rattle.amqp_endpoint_model.specs.State.{is_unconnected};
ghost use Rattle.amqp_endpoint_model.specs.declared.settings.Settings.{Settings};
ghost use Rattle.amqp_endpoint_core.specs.EndHistory.{OfItsConnection, calls_at, fed_since_break, pulled_since_break};
ghost use Rattle.amqp_endpoint_core.specs.EndHistory.{told_at};
ghost use Rattle.amqp_endpoint_core.specs.WorldSaid.{WorldTold};
ghost use Rattle.amqp_endpoint_core.specs.WorldState.{IsNewWorld, WorldState, other, state_at, stream_to};
ghost use Rattle.amqp_endpoint_core.specs.WorldStep.{WorldRun};
ghost use Rattle.amqp_endpoint_core.specs.declared.step.End.{End};
ghost use Rattle.amqp_endpoint_core.specs.declared.step.Step.{Step};

use amqp_endpoint_model::SessionRelay;

/// Each end has a run of its own: its calls, with what they told, are those of an endpoint that is stepped alone. Of a
/// `Move` the sending end has the pulls, and the other one a feed of the bytes that are next on their way to it; a
/// break is a `break_off` of both. So what is proved of every endpoint's run holds at both ends.
pub fn each_end_has_its_own_run<S: SessionRelay>()
    ensures { (end : End) (old new : WorldState S) (steps : List Step) (told : List WorldTold) →
        WorldRun S.does old steps told new →
        Run S.does (state_at end old) (calls_at end (stream_to end old) steps told) (told_at end steps told)
        (state_at end new) }
{}

/// In each direction the bytes that were pulled of one end since the latest break are those that were fed to the other
/// end since then, and then those that are on their way: none is lost, doubled, changed or overtaken, and none is of an
/// older connection.
pub fn what_is_on_its_way<S: SessionRelay>()
    ensures { (end : End) (settings_a settings_b : Settings) (start new : WorldState S) (steps : List Step)
        (told : List WorldTold) → IsNewWorld S.does settings_a settings_b start → WorldRun S.does start steps told new →
        pulled_since_break [] (calls_at end [] steps told) (told_at end steps told)
        ≡ fed_since_break [] (calls_at (other end) [] steps told) (told_at (other end) steps told)
        ++ stream_to (other end) new }
{}

/// What was fed to an end since the latest break is what was fed to its connection, that is since the latest `connect`.
/// An end that has no connection was fed nothing since the latest break, and nothing was pulled of it.
pub fn what_its_connection_was_fed<S: SessionRelay>()
    ensures { (end : End) (settings_a settings_b : Settings) (start new : WorldState S) (steps : List Step)
        (told : List WorldTold) → IsNewWorld S.does settings_a settings_b start → WorldRun S.does start steps told new →
        OfItsConnection (is_unconnected (state_at end new).phase)
        (pulled_since_break [] (calls_at end [] steps told) (told_at end steps told))
        (fed_since_break [] (calls_at end [] steps told) (told_at end steps told))
        (summary nothing (calls_at end [] steps told) (told_at end steps told)).fed }
{}

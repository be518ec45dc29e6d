//! What passes between the two ends of a world, whatever their sessions do: of the frames that one end sent on its
//! connection those that the other one took are a beginning (part 2, 2.2, 2.3). The function here does nothing: its
//! contract is the law.
//!
//! `Between` in specs/Between.antt says it of the deeds of both ends.
ghost use Rattle.std.specs.Prelude.{◌≡◌, List, None};
ghost use Rattle.amqp_endpoint_model.specs.Step.{refusal_of_settings};
ghost use Rattle.amqp_endpoint_model.specs.declared.settings.Settings.{Settings};
ghost use Rattle.amqp_endpoint_core.specs.WorldSaid.{WorldTold};
ghost use Rattle.amqp_endpoint_core.specs.WorldState.{IsNewWorld, WorldState};
ghost use Rattle.amqp_endpoint_core.specs.WorldStep.{WorldRun};
ghost use Rattle.amqp_endpoint_core.specs.declared.step.Step.{Step};
ghost use Rattle.amqp_endpoint_laws.specs.Between.{Between};

use amqp_endpoint_model::SessionRelay;

/// In a run of a world, each end does deeds of its own, and in each direction the frames that the receiving end took
/// since its latest connect are a beginning of those that the sending end queued since its own, one for one and in
/// order. The sending end queued its header first and once, and behind it these frames alone. The others of them are
/// those whose texts are what the receiving end holds of an unfinished frame, then what is on its way, and then what
/// the sending end has queued still; where the header is awaited it stands in front of them, and where the receiving
/// end's connection is over nothing is said of what it holds. There are no others where the receiving end reads on,
/// nothing is on its way and nothing is queued. So no frame is lost, doubled, changed, overtaken or of an older
/// connection (part 2, 2.2, 2.3, 2.4).
///
/// Where the sending end has no connection, the receiving end took nothing, and nothing is on its way; where the
/// receiving end has none, nothing is said. The order is said where each frame that the sending end queued is one that
/// may be read: its channel has two bytes, no list or array in it has more than 65,536 elements and no map more than
/// 32,768 pairs, and what it keeps as bytes are wire forms. The settings are those that an endpoint accepts.
pub fn what_an_end_takes_was_sent<S: SessionRelay>()
    ensures { (settings_a settings_b : Settings) (start new : WorldState S) (steps : List Step)
        (told : List WorldTold) → refusal_of_settings settings_a ≡ None →
        refusal_of_settings settings_b ≡ None → IsNewWorld S.does settings_a settings_b start →
        WorldRun S.does start steps told new → Between S.does start steps told new }
{}

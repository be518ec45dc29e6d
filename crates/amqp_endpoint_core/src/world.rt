//! Runs of two endpoints that are joined by two streams of bytes.
ghost use Rattle.std.specs.Prelude.{◌≡◌, ◌⊎◌, map, Some, None, IfErr, IfOk, OnOk};
ghost use Rattle.amqp_endpoint_model.specs.Step.{refusal_of_settings};
ghost use Rattle.amqp_endpoint_model.specs.declared.error.EndpointError.TheVariants.{Memory};
ghost use Rattle.amqp_endpoint_core.specs.WorldSaid.{world_told};
ghost use Rattle.amqp_endpoint_core.specs.WorldState.{IsNewWorld, WorldState};
ghost use Rattle.amqp_endpoint_core.specs.WorldStep.{WorldRun, refusal_of_either};

use crate::ends::World;
use crate::reply::WorldReply;
use crate::step::Step;
use amqp_endpoint_model::{EndpointError, SessionRelay, Settings};
use std::alloc::Global;

/// Steps two new endpoints, which are joined by two streams of bytes, and gives what each step did.
///
/// The replies are what the steps may do one after the other, from a new world of these settings. By the laws of this
/// crate each end has a run of its own then, and what was pulled of one end since the latest break is what was fed to
/// the other and then what is on its way.
///
/// The errors are those of `Endpoint::new` with the first settings, then with the second ones. `Memory` also where
/// there is no memory for the replies.
pub fn run<S: SessionRelay>(
    alloc: Global,
    settings_a: Settings,
    settings_b: Settings,
    steps: &[Step],
) -> Result<Vec<WorldReply>, EndpointError>
    ensures accepted { OnOk result ((refusal_of_settings settings_a ≡ None)
        × (refusal_of_settings settings_b ≡ None)) }
    ensures run { IfOk result (λ replies. (start : WorldState S) × (end : WorldState S)
        × IsNewWorld S.does settings_a settings_b start
        × WorldRun S.does start steps.now (map world_told replies.items) end) }
    ensures err { IfErr result (λ e. (e ≡ Memory)
        ⊎ (refusal_of_either settings_a settings_b ≡ Some e)) }
{
    let mut world = World::<S>::new(alloc, settings_a, settings_b)?;
    let mut replies = Vec::with_capacity(alloc, steps.len())?;
    for step in steps {
        let did = world.step(step);
        let queued_a = world.queued_a();
        let queued_b = world.queued_b();
        replies.push_reserved(WorldReply {
            did,
            queued_a,
            queued_b,
        });
    }
    Ok(replies)
}

//! An endpoint and a list of calls.
ghost use Rattle.std.specs.Prelude.{◌≡◌, ◌⊎◌, map, Some, None, IfOk, IfErr};
ghost use Rattle.amqp_endpoint_model.specs.Relay.{IsNew};
ghost use Rattle.amqp_endpoint_model.specs.State.{State, fresh};
ghost use Rattle.amqp_endpoint_model.specs.Said.{told};
ghost use Rattle.amqp_endpoint_model.specs.Step.{refusal_of_settings};
ghost use Rattle.amqp_endpoint_model.specs.History.{KeepsLimit, Pieces, Run, nothing, summary};
ghost use Rattle.amqp_endpoint_model.specs.declared.error.EndpointError.TheVariants.{Memory};

use crate::endpoint::Endpoint;
use amqp_endpoint_model::{Call, EndpointError, Reply, SessionRelay, Settings};
use std::alloc::Global;

/// Steps one endpoint by these calls, whatever its peer sends, and gives what each answered.
///
/// The replies are answers that the calls may have one after the other. The frames that were read since the
/// latest `connect` are the pieces of all bytes fed since then (part 2, 2.3), and each answer of bytes is
/// within the peer's limit as it was given (part 2, 2.4.1, 2.7.1).
///
/// The errors are those of `Endpoint::new`. `Memory` also where there is no memory for the replies.
pub fn play<S: SessionRelay>(
    alloc: Global,
    settings: Settings,
    calls: &[Call],
) -> Result<Vec<Reply>, EndpointError>
    ensures accepted { IfOk result (λ replies. refusal_of_settings settings ≡ None) }
    ensures run { IfOk result (λ replies. (sessions : S) × (end : State S) × IsNew S.does settings sessions
        × Run S.does (fresh settings sessions) calls.now (map told replies.items) end) }
    ensures pieces { IfOk result (λ replies. Pieces S.does settings.max_frame_size
        (summary nothing calls.now (map told replies.items))) }
    ensures limit { IfOk result (λ replies. KeepsLimit nothing calls.now (map told replies.items)) }
    ensures err { IfErr result (λ e. (e ≡ Memory) ⊎ (refusal_of_settings settings ≡ Some e)) }
{
    let mut endpoint = Endpoint::<S>::new(alloc, settings)?;
    let mut replies = Vec::with_capacity(alloc, calls.len())?;
    for call in calls {
        let answer = endpoint.call(call);
        let queued = endpoint.queued();
        replies.push_reserved(Reply { answer, queued });
    }
    Ok(replies)
}

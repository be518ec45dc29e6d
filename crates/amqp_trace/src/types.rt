//! The types that a value may be read as, by name.
use crate::reading::{Rewritten, reread};
use crate::refusal::Refusal;
use amqp_session_performatives::{
    Attach, Begin, Close, Detach, Disposition, End, Flow, Open, Performative, Transfer,
    clear_continuation_fields,
};
use amqp_session_states::{
    Accepted, DeliveryState, DistributionMode, Modified, Outcome, Received, Rejected, Released,
    Source, Target, TargetArchetype, TerminusDurability, TerminusExpiryPolicy,
};
use amqp_session_types::definitions::Error as Details;
use amqp_session_types::{Handle, OrDefault, ReceiverSettleMode, Role, SenderSettleMode};
use serde_amqp_de::from_slice;
use serde_amqp_item::Error;
use serde_amqp_ser::to_vec;
use serde_amqp_values::RawValue;
use std::alloc::Global;

/// Reads a value of the type with this name from the front of the bytes, and says what it is written as.
pub(crate) fn rewritten_as(alloc: Global, name: &str, bytes: &[u8]) -> Result<Rewritten, Refusal> {
    if let Some(result) = performative_as(alloc, name, bytes) {
        return Ok(result?);
    }
    if let Some(result) = state_as(alloc, name, bytes) {
        return Ok(result?);
    }
    match field_as(alloc, name, bytes) {
        Some(result) => Ok(result?),
        None => Err(Refusal::Unreadable),
    }
}

/// What a value of a type may come to.
type Outcomes = Option<Result<Rewritten, Error>>;

/// The performatives (part 2, 2.7).
fn performative_as(alloc: Global, name: &str, bytes: &[u8]) -> Outcomes {
    match name {
        "performative" => Some(reread::<Performative>(alloc, bytes)),
        "open" => Some(reread::<Open>(alloc, bytes)),
        "begin" => Some(reread::<Begin>(alloc, bytes)),
        "attach" => Some(reread::<Attach>(alloc, bytes)),
        "flow" => Some(reread::<Flow>(alloc, bytes)),
        "transfer" => Some(reread::<Transfer>(alloc, bytes)),
        "continuation" => Some(continued(alloc, bytes)),
        "disposition" => Some(reread::<Disposition>(alloc, bytes)),
        "detach" => Some(reread::<Detach>(alloc, bytes)),
        "end" => Some(reread::<End>(alloc, bytes)),
        "close" => Some(reread::<Close>(alloc, bytes)),
        _ => None,
    }
}

/// States of deliveries, and the ends of links (part 3, 3.4 and 3.5).
fn state_as(alloc: Global, name: &str, bytes: &[u8]) -> Outcomes {
    match name {
        "delivery-state" => Some(reread::<DeliveryState>(alloc, bytes)),
        "outcome" => Some(reread::<Outcome>(alloc, bytes)),
        "received" => Some(reread::<Received>(alloc, bytes)),
        "accepted" => Some(reread::<Accepted>(alloc, bytes)),
        "rejected" => Some(reread::<Rejected>(alloc, bytes)),
        "released" => Some(reread::<Released>(alloc, bytes)),
        "modified" => Some(reread::<Modified>(alloc, bytes)),
        "source" => Some(reread::<Source>(alloc, bytes)),
        "target" => Some(reread::<Target>(alloc, bytes)),
        "any-target" => Some(reread::<TargetArchetype>(alloc, bytes)),
        "other-target" => Some(other_target(alloc, bytes)),
        _ => None,
    }
}

/// Types of fields (part 2, 2.8, and part 3, 3.5).
fn field_as(alloc: Global, name: &str, bytes: &[u8]) -> Outcomes {
    match name {
        "error" => Some(reread::<Details>(alloc, bytes)),
        "handle" => Some(reread::<Handle>(alloc, bytes)),
        "role" => Some(reread::<Role>(alloc, bytes)),
        "snd-settle-mode" => Some(reread::<SenderSettleMode>(alloc, bytes)),
        "rcv-settle-mode" => Some(reread::<ReceiverSettleMode>(alloc, bytes)),
        "snd-settle-mode-field" => Some(reread::<OrDefault<SenderSettleMode>>(alloc, bytes)),
        "rcv-settle-mode-field" => Some(reread::<OrDefault<ReceiverSettleMode>>(alloc, bytes)),
        "durability" => Some(reread::<TerminusDurability>(alloc, bytes)),
        "expiry-policy" => Some(reread::<TerminusExpiryPolicy>(alloc, bytes)),
        "distribution-mode" => Some(reread::<DistributionMode>(alloc, bytes)),
        _ => None,
    }
}

/// A transfer without the fields that only the first frame of a delivery has (part 2, 2.7.5).
fn continued(alloc: Global, bytes: &[u8]) -> Result<Rewritten, Error> {
    let mut transfer: Transfer = from_slice(alloc, bytes)?;
    clear_continuation_fields(&mut transfer);
    written(alloc, &transfer)
}

/// What is written.
fn written<T: serde_amqp_ser::Serialize>(alloc: Global, value: &T) -> Result<Rewritten, Error> {
    Ok(Rewritten {
        text: to_vec(alloc, value)?,
        left: 0,
    })
}

/// A described value that is kept as it is, and may be no target (part 3, 3.5.4).
fn other_target(alloc: Global, bytes: &[u8]) -> Result<Rewritten, Error> {
    let kept = RawValue::from_bytes(alloc, bytes)?;
    written(alloc, &TargetArchetype::Other(kept))
}

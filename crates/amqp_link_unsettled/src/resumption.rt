//! What becomes of a delivery that was interrupted (part 2, 2.6.13; part 3, 3.4.6).
ghost use Rattle.std.specs.Prelude.{◌≡◌, true, option_copied};
ghost use Rattle.amqp_link_unsettled.specs.Resumption.{decision, resumption, unless_past, told_or_restated, is_past};
ghost use Rattle.amqp_link_unsettled.specs.Resumption.{is_same_kind};
ghost use Rattle.amqp_link_unsettled.specs.declared.resumption.ResumingDelivery.TheVariants as resuming;

use crate::message::UnsettledMessage;
use amqp_session_states::{DeliveryState, Received};

/// How an interrupted delivery goes on, with what is needed for it (part 2, 2.6.13).
#[derive(Debug, Drop)]
pub enum ResumingDelivery {
    /// The peer is told that the delivery is aborted.
    Abort {
        /// The format of the message, or 0 where the sender doesn't know the delivery.
        message_format: u32,
        /// Whether the sender knows the delivery.
        own: bool,
    },
    /// The message is sent anew, from its first byte.
    Resend(UnsettledMessage),
    /// The message is sent on from this place.
    Resume(UnsettledMessage, Received),
    /// The outcome that the sender knows is told once more.
    RestateOutcome(UnsettledMessage),
}

/// What becomes of an interrupted delivery, told without the message itself.
#[derive(Debug, Clone, Copy, PartialEq, Eq)]
pub enum Decision {
    /// The message is sent anew, from its first byte.
    Resend,
    /// The message is sent on from this place.
    ResumeFrom(Received),
    /// The peer is told that the delivery is aborted.
    Abort,
    /// The outcome that the sender knows is told once more.
    Restate,
    /// The delivery has come to its end, with the state that the sender knows.
    ResolveAsTold,
    /// The delivery has come to its end, with the state that the peer lists.
    ResolveAsListed,
}

/// The place at which a message starts. A peer that lists a delivery without a state has received nothing of it.
const START: Received = Received {
    section_number: 0,
    section_offset: 0,
};

/// What becomes of a delivery by the state that was told of it last, and by what the peer's list of unsettled
/// deliveries says of it: nothing where it isn't in that list, or else a state or null.
pub fn decide(told: &Option<DeliveryState>, listed: Option<&Option<DeliveryState>>) -> Decision
    ensures { result ≡ decision told.now (option_copied listed.entry) }
{
    match (told, listed) {
        (None, None) => Decision::Resend,
        (None, Some(None)) => Decision::ResumeFrom(START),
        (None, Some(Some(DeliveryState::Received(place)))) => Decision::ResumeFrom(*place),
        (None, Some(Some(_))) => Decision::ResolveAsListed,
        (Some(DeliveryState::Received(_)), None) => Decision::Resend,
        (Some(DeliveryState::Received(own)), Some(None)) => unless_past(*own, START),
        (Some(DeliveryState::Received(own)), Some(Some(DeliveryState::Received(place)))) => {
            unless_past(*own, *place)
        }
        (Some(DeliveryState::Received(_)), Some(Some(_))) => Decision::ResolveAsListed,
        (Some(_), None) => Decision::ResolveAsTold,
        (Some(_), Some(None)) => Decision::Abort,
        (Some(_), Some(Some(DeliveryState::Received(_)))) => Decision::Abort,
        (Some(own), Some(Some(state))) => told_or_restated(own, state),
    }
}

/// What becomes of a delivery of which both ends know an outcome.
fn told_or_restated(own: &DeliveryState, listed: &DeliveryState) -> Decision
    ensures { result ≡ told_or_restated own.now listed.now }
{
    if is_same_kind(own, listed) {
        return Decision::ResolveAsTold;
    }
    Decision::Restate
}

/// The delivery goes on from the place that the peer lists, unless it was told to be past it.
fn unless_past(own: Received, place: Received) -> Decision
    ensures { result ≡ unless_past own place }
{
    if is_past(own, place) {
        return Decision::Abort;
    }
    Decision::ResumeFrom(place)
}

/// Whether the first place lies behind the second: by the section, and in one section by the offset.
pub fn is_past(a: Received, b: Received) -> bool
    ensures { result ≡ is_past a b }
{
    a.section_number > b.section_number
        || a.section_number == b.section_number && a.section_offset > b.section_offset
}

/// Whether both are states of one kind, whatever they say more.
fn is_same_kind(a: &DeliveryState, b: &DeliveryState) -> bool
    ensures { result ≡ is_same_kind a.now b.now }
{
    match (a, b) {
        (DeliveryState::Accepted(_), DeliveryState::Accepted(_)) => true,
        (DeliveryState::Rejected(_), DeliveryState::Rejected(_)) => true,
        (DeliveryState::Released(_), DeliveryState::Released(_)) => true,
        (DeliveryState::Modified(_), DeliveryState::Modified(_)) => true,
        (DeliveryState::Received(_), DeliveryState::Received(_)) => true,
        _ => false,
    }
}

/// How a message goes on of which the peer's list of unsettled deliveries says this: nothing where it isn't in that
/// list, or else a state or null. Where it doesn't go on, the answer is the state that it ended with.
pub fn resume_delivery(
    local: UnsettledMessage,
    remote: Option<Option<DeliveryState>>,
) -> (Option<ResumingDelivery>, Option<DeliveryState>)
    ensures { result ≡ resumption local remote }
{
    match decide(&local.state, remote.as_ref()) {
        Decision::Resend => (Some(ResumingDelivery::Resend(local)), None),
        Decision::ResumeFrom(place) => (Some(ResumingDelivery::Resume(local, place)), None),
        Decision::Abort => (Some(aborted(local)), None),
        Decision::Restate => (Some(ResumingDelivery::RestateOutcome(local)), None),
        Decision::ResolveAsTold => (None, local.state),
        Decision::ResolveAsListed => (None, remote.flatten()),
    }
}

/// The abort of an own delivery.
fn aborted(local: UnsettledMessage) -> ResumingDelivery
    ensures { result ≡ resuming.Abort local.message_format true }
{
    ResumingDelivery::Abort {
        message_format: local.message_format,
        own: true,
    }
}

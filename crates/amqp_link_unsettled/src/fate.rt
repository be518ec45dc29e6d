//! What becomes of an open message by what its receiver lists of it (part 2, 2.6.13).
ghost use Rattle.std.specs.Prelude.{◌≡◌, IfOk, option_copied};
ghost use Rattle.amqp_link_unsettled.specs.Exchanging.{bytes_before, fate_of, goes_on, listed_of};
ghost use Rattle.amqp_link_unsettled.specs.Resolutions.{resolution_of};
ghost use Rattle.amqp_link_unsettled.specs.declared.fate.Fate.TheVariants.{End};

use crate::open::{Open, Resumption};
use crate::resolution::Resolution;
use crate::{Decision, UnsettledList, decide};
use amqp_link_base::read_place;
use amqp_session_states::{DeliveryState, Received};
use amqp_session_types::DeliveryTag;
use bytes::Bytes;
use std::alloc::AllocError;

/// What becomes of an open message once both Attach frames were exchanged.
#[derive(Debug, Drop)]
pub(crate) enum Fate {
    /// Nothing: the peer's list is incomplete, and doesn't have it.
    Undecided,
    /// It is sent on.
    SendOn(Resumption),
    /// It ends.
    End(Resolution),
    /// It is given up, and ends so.
    Abort,
}

/// What the peer lists of the message with a tag.
pub(crate) fn listed_of<'a>(
    listed: &'a Option<UnsettledList>,
    tag: &DeliveryTag,
) -> Option<&'a Option<DeliveryState>>
    ensures { option_copied result ≡ listed_of listed.now tag.now }
{
    match listed {
        Some(list) => list.get(tag),
        None => None,
    }
}

/// What becomes of an open message of which the peer lists this.
pub(crate) fn fate_of(
    incomplete: bool,
    message: &Open,
    listed: Option<&Option<DeliveryState>>,
) -> Result<Fate, AllocError>
    ensures { IfOk result (λ f. f ≡ fate_of incomplete message.now (option_copied listed.entry)) }
{
    if incomplete && listed.is_none() {
        return Ok(Fate::Undecided);
    }
    match decide(&message.state, listed) {
        Decision::Resend => Ok(Fate::SendOn(Resumption::Resend)),
        Decision::ResumeFrom(place) => Ok(Fate::SendOn(Resumption::Resume(place))),
        Decision::Abort => Ok(Fate::Abort),
        Decision::Restate | Decision::ResolveAsTold => end_with(&message.state),
        Decision::ResolveAsListed => match listed {
            Some(state) => end_with(state),
            None => Ok(Fate::End(Resolution::NoState)),
        },
    }
}

/// The message ends with this state.
fn end_with(state: &Option<DeliveryState>) -> Result<Fate, AllocError>
    ensures { IfOk result (λ f. f ≡ End (resolution_of state.now)) }
{
    let state = state.clone()?;
    Ok(Fate::End(Resolution::of_state(state)))
}

impl Open {
    /// How many bytes of the message stand before a place; None where there is no such place in it (part 3, 3.4.1).
    pub fn bytes_before(&self, place: Received) -> Option<usize>
        ensures { result ≡ bytes_before self.now.payload place }
    {
        bytes_before(&self.payload, place)
    }

    /// Whether the receiver has a part of the message, and bytes of it are left.
    pub(crate) fn goes_on(&self, resumption: Resumption) -> bool
        ensures { result ≡ goes_on self.now resumption }
    {
        match resumption {
            Resumption::Resend => false,
            Resumption::Resume(place) => match self.bytes_before(place) {
                None => self.payload.len() != 0,
                Some(n) => n < self.payload.len(),
            },
        }
    }
}

/// How many bytes of a message stand before a place; None where there is no such place in it.
fn bytes_before(payload: &Bytes, place: Received) -> Option<usize>
    ensures { result ≡ bytes_before payload.now place }
{
    if payload.len() >= 1 << 32 {
        return None;
    }
    read_place(payload, place)
}

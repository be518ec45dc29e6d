//! Transfers as a link hands them over, and as they leave.
ghost use Rattle.std.specs.Prelude.{◌≡◌, ◌+◌, ◌%◌, ◌^◌, IfSome, IfNone};
ghost use Rattle.amqp_session_outgoing.specs.Frames.{is_first, first_count, HasTag};

use crate::behind::Behind;
use amqp_session_types::{DeliveryTag, OutputHandle};

/// Which part of its delivery a transfer carries (part 2, 2.7.5).
#[derive(Debug, Drop)]
pub enum Part {
    /// The first transfer of a delivery that has no tag, which no session accepts.
    Untagged,
    /// The first one of a delivery that leaves settled, as one that is given up does: nothing is kept of it.
    Settled,
    /// The first one of a delivery that leaves unsettled, and what the link calls the delivery.
    Unsettled(DeliveryTag),
    /// A later one.
    Continuation,
}

impl Part {
    /// Whether it is the first of its delivery.
    pub fn is_first(&self) -> bool
        ensures { result ≡ is_first self.now }
    {
        match self {
            Part::Untagged => true,
            Part::Settled => true,
            Part::Unsettled(_) => true,
            Part::Continuation => false,
        }
    }

    /// How many deliveries it begins.
    pub(crate) fn first_count(&self) -> usize
        ensures { result ≡ first_count self.now }
    {
        match self {
            Part::Untagged => 1,
            Part::Settled => 1,
            Part::Unsettled(_) => 1,
            Part::Continuation => 0,
        }
    }

    /// How many deliveries it begins, or None where it begins one without a tag.
    pub(crate) fn tagged_count(&self) -> Option<usize>
        ensures some { IfSome result (λ count. (count ≡ first_count self.now) × HasTag self.now) }
        ensures none { IfNone result (HasTag self.now → ⊥) }
    {
        match self {
            Part::Untagged => None,
            Part::Settled => Some(1),
            Part::Unsettled(_) => Some(1),
            Part::Continuation => Some(0),
        }
    }
}

/// A transfer that a sending link hands to its session, and the frames of that link that leave right behind it.
///
/// A session doesn't look into transfers and frames: they are of any types.
#[derive(Drop)]
pub struct Outbound<T, F> {
    /// Which part of its delivery the transfer carries.
    pub part: Part,
    /// The transfer.
    pub transfer: T,
    /// The Flows and the Detach of the link that were made behind it.
    pub behind: Behind<F>,
}

/// A transfer that leaves the session, and the frames of its link that leave right behind it.
#[derive(Drop)]
pub struct Sent<T, F> {
    /// The handle of its link.
    pub handle: OutputHandle,
    /// The number of the transfer (part 2, 2.8.8).
    pub number: u32,
    /// The number of the delivery, where this is its first transfer (part 2, 2.8.6).
    pub delivery: Option<u32>,
    /// The transfer.
    pub transfer: T,
    /// The frames of its link that leave right behind it.
    pub behind: Behind<F>,
}

impl<T, F> Sent<T, F> {
    /// The session's next-outgoing-id as the frames behind the transfer leave (part 2, 2.5.6): the number after the
    /// transfer's.
    pub fn next_outgoing_id(&self) -> u32
        ensures { result ≡ (self.now.number + 1) % 2 ^ 32 }
    {
        self.number.wrapping_add(1)
    }
}

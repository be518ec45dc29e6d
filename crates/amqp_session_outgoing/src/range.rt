//! The numbers that a disposition names.
ghost use Rattle.std.specs.Prelude.{◌≡◌, ℕ, ◌+◌, ◌<◌, ◌≤◌, ◌^◌, ◌%◌, ◌↔◌, IsTrue};
ghost use Rattle.amqp_session_outgoing.specs.Range.{range_of, count_of, Names, ahead};

/// The delivery numbers that a disposition names (part 2, 2.7.6): those from its first to its last, over the wrap at
/// 2^32. Where 2^31 or more numbers lie between them the last comes before the first, and none is named.
#[derive(Debug, Clone, Copy, PartialEq, Eq)]
pub struct DeliveryRange {
    /// The first number.
    pub first: u32,
    /// How many numbers there are, at most 2^31.
    pub count: u32,
}

impl DeliveryRange {
    /// From the first number to the last. Where no last is given it is the first.
    pub fn new(first: u32, last: Option<u32>) -> Self
        ensures { result ≡ range_of first last }
    {
        let last = last.unwrap_or(first);
        let distance = last.wrapping_sub(first);
        if distance >= 1 << 31 {
            return DeliveryRange { first, count: 0 };
        }
        DeliveryRange {
            first,
            count: distance + 1,
        }
    }

    /// Whether a number lies in the range.
    pub fn contains(self, number: u32) -> bool
        ensures { IsTrue result ↔ Names self number }
    {
        number.wrapping_sub(self.first) < self.count
    }
}

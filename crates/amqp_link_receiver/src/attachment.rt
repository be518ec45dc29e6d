//! An attachment of a link, as the messages see it that come in by it (part 2, 2.7.3).
ghost use Rattle.std.specs.Prelude.{◌≡◌, ◌+◌, ◌<◌, ◌^◌, ◌&&◌, not, nat_lt};
ghost use Rattle.amqp_link_receiver.specs.Deliveries.{limit_of, is_second, is_first};

use amqp_session_types::ReceiverSettleMode;

/// An attachment of a link, as the messages see it that come in by it (part 2, 2.7.3).
#[derive(Debug, Clone, Copy, PartialEq, Eq)]
pub struct Attachment {
    /// Which attachment it is: each has another count. The numbers of deliveries are worth nothing in another one.
    pub count: u64,
    /// The size of the largest message, in bytes; 0 for no bound.
    pub max_message_size: u64,
    /// How the receiver settles deliveries.
    pub rcv_settle_mode: ReceiverSettleMode,
}

/// The largest message that is taken, in bytes.
pub(crate) fn limit_of(max_message_size: u64) -> u64
    ensures limit { result ≡ limit_of max_message_size }
    ensures small { result < 2 ^ 32 }
{
    if max_message_size == 0 {
        return u32::MAX as u64;
    }
    max_message_size.min(u32::MAX as u64)
}

impl Attachment {
    /// Whether a message of so many bytes, and so many more, is larger than what is taken.
    pub(crate) fn is_passed(self, size: u64, more: u64) -> bool
        ensures { result ≡ nat_lt (limit_of self.max_message_size) (size + more) }
    {
        size.saturating_add(more) > limit_of(self.max_message_size)
    }

    /// Whether a delivery is to be settled second on a link that settles first.
    pub(crate) fn is_other(self, settled: bool, rcv_settle_mode: Option<ReceiverSettleMode>) -> bool
        ensures { result ≡ (not settled && is_second rcv_settle_mode && is_first
            self.rcv_settle_mode) }
    {
        if settled {
            return false;
        }
        matches!(
            (rcv_settle_mode, self.rcv_settle_mode),
            (Some(ReceiverSettleMode::Second), ReceiverSettleMode::First)
        )
    }
}

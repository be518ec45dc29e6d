//! Deliveries of several transfers (part 2, 2.7.5).
ghost use Rattle.std.specs.Prelude.{◌≡◌};
ghost use Rattle.amqp_session_performatives.specs.Continuation.{continuation};

use crate::transfer::Transfer;

/// Clears what the first transfer of a delivery says and a continuation of it doesn't repeat. The link stays, and
/// whether more follow.
pub fn clear_continuation_fields(transfer: &mut Transfer)
    ensures { transfer.new ≡ continuation transfer.old }
{
    transfer.delivery_id = None;
    transfer.delivery_tag = None;
    transfer.message_format = None;
    transfer.settled = None;
    transfer.rcv_settle_mode = None;
    transfer.state = None;
    transfer.resume = false;
    transfer.aborted = false;
    transfer.batchable = false;
}

//! What a disposition makes of a sending link (part 2, 2.7.6).
ghost use Rattle.std.specs.Prelude.{◌≡◌, ◌++◌, [], IfNone, option_copied};
ghost use Rattle.std.specs.Option.{option_to_list};
ghost use Rattle.amqp_link_unsettled.specs.Messages.{first_ended};
ghost use Rattle.amqp_link_sender.specs.Dispositions.{disposed, is_echoed, is_echo_due};

use crate::link::SenderLink;
use amqp_link_unsettled::Resolution;
use amqp_session_states::DeliveryState;
use amqp_session_types::{DeliveryTag, ReceiverSettleMode};

impl SenderLink {
    /// Takes a disposition of the message with this tag, and answers whether it is echoed as settled (part 2, 2.7.6 and
    /// 2.8.3). It takes no memory.
    ///
    /// The message ends where it is settled or the state is terminal, else the state is noted. Where no message with this
    /// tag is open nothing changes.
    pub fn on_incoming_disposition(
        &mut self,
        tag: &DeliveryTag,
        settled: bool,
        state: Option<DeliveryState>,
    ) -> bool
        ensures state { self.new ≡ disposed self.old tag.now settled state }
        ensures echo { result ≡ is_echoed self.old tag.now settled state }
    {
        let wants_echo = is_echo_due(settled, &state, self.base.terms.rcv_settle_mode);
        let known = self.messages.on_disposition(tag, settled, state);
        known && wants_echo
    }

    /// The message that ended first of those that weren't taken out yet, with what became of it, if there is one.
    pub fn first_resolved(&self) -> Option<&(DeliveryTag, Resolution)>
        ensures { option_copied result ≡ first_ended self.now.messages.resolved }
    {
        self.messages.first_resolved()
    }

    /// Takes the message out that ended first of those that weren't taken out yet, with what became of it. It takes no
    /// memory.
    pub fn take_resolved(&mut self) -> Option<(DeliveryTag, Resolution)>
        ensures first { self.old ≡ record self.new {
          messages
              = record self.new.messages { resolved = option_to_list result ++ self.new.messages.resolved };
        } }
        ensures none { IfNone result (self.new.messages.resolved ≡ []) }
    {
        self.messages.take_resolved()
    }
}

/// Whether an open message's disposition is echoed: its receiver came to an outcome, and settles once the sender did.
fn is_echo_due(settled: bool, state: &Option<DeliveryState>, mode: ReceiverSettleMode) -> bool
    ensures { result ≡ is_echo_due settled state.now mode }
{
    if settled {
        return false;
    }
    let Some(state) = state else {
        return false;
    };
    if !state.is_terminal() {
        return false;
    }
    match mode {
        ReceiverSettleMode::First => false,
        ReceiverSettleMode::Second => true,
    }
}

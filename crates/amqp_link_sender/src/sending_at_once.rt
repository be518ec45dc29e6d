//! Room for a message that is to be sent as one transfer: beside the general way of `prepare_send`, whose message is
//! still to be cut (part 2, 2.6.7 and 2.6.12).
ghost use Rattle.std.specs.Prelude.{◌≡◌, IfNone, IfSome};
ghost use Rattle.amqp_link_sender.specs.ReadiesAtOnce.{Readies};

use crate::link::SenderLink;
use crate::sending::goes_settled;
use amqp_session_types::DeliveryTag;

/// What a link says of a message that may be sent as one transfer.
#[derive(Debug, Clone, Copy)]
pub struct ReadyAtOnce {
    /// Whether the message goes settled.
    pub settled: bool,
    /// For how many more messages there was room before.
    pub room: usize,
}

impl SenderLink {
    /// Makes room for a message with this tag and so many bytes, as `prepare_send` does. Nothing else changes until
    /// `commit_send`.
    ///
    /// It is None where something speaks against the message, as `refusal` says, and where there is no memory. Nothing
    /// changes then: the message is to be made ready in the general way.
    pub fn ready_at_once(
        &mut self,
        tag: &DeliveryTag,
        size: usize,
        settled: Option<bool>,
    ) -> Option<ReadyAtOnce>
        ensures some { IfSome result (λ ready. Readies self.old tag.now size settled ready self.new) }
        ensures none { IfNone result (self.new ≡ self.old) }
    {
        if let Some(_) = self.refusal(tag, size) {
            return None;
        }
        let room = self.messages.room();
        let settled = goes_settled(self.base.terms.snd_settle_mode, settled);
        let Ok(()) = self.messages.reserve(1) else {
            return None;
        };
        Some(ReadyAtOnce { settled, room })
    }
}

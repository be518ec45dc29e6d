//! The terms of a link, and what of them a peer's Attach changes (part 2, 2.6.3 and 2.7.3).
ghost use Rattle.std.specs.Prelude.{◌≡◌, OnOk, OnErr};
ghost use Rattle.amqp_link_base.specs.Terms.{adopted_by_sender, adopted_by_receiver};

use crate::size::get_max_message_size;
use amqp_session_performatives::Attach;
use amqp_session_states::{Source, TargetArchetype};
use amqp_session_types::{ReceiverSettleMode, SenderSettleMode};
use std::alloc::AllocError;

/// What the ends of a link agree on: what stands in the own Attach, and is taken over from the peer's where the peer's
/// word counts.
#[derive(Debug, PartialEq)]
pub struct Terms {
    /// Where messages come from.
    pub source: Option<Source>,
    /// Where messages go to.
    pub target: Option<TargetArchetype>,
    /// How the sending end settles its deliveries.
    pub snd_settle_mode: SenderSettleMode,
    /// How the receiving end settles its deliveries.
    pub rcv_settle_mode: ReceiverSettleMode,
    /// The size of the largest message, in bytes. 0 for no bound.
    pub max_message_size: u64,
}

impl Drop for Terms {
    fn drop(self) {
        let Terms {
            source: _,
            target: _,
            snd_settle_mode: _,
            rcv_settle_mode: _,
            max_message_size: _,
        } = self;
    }
}

impl Terms {
    /// Takes over what the receiver's Attach says at the sending end: the target and the receiver's settle mode, which are
    /// the receiver's to say, and the size of messages that both take (part 2, 2.6.3 and 2.8.3). It is refused where there
    /// is no memory for the target, and nothing changes then.
    pub fn adopt_as_sender(&mut self, attach: &Attach) -> Result<(), AllocError>
        ensures ok { OnOk result (self.new ≡ adopted_by_sender self.old attach.now) }
        ensures err { OnErr result (self.new ≡ self.old) }
    {
        let target = attach.target.clone()?;
        self.target = target;
        self.rcv_settle_mode = attach.rcv_settle_mode;
        self.max_message_size = get_max_message_size(
            self.max_message_size,
            attach.max_message_size,
        );
        Ok(())
    }

    /// Takes over what the sender's Attach says at the receiving end: the source and the sender's settle mode, which are
    /// the sender's to say, and the size of messages that both take (part 2, 2.6.3 and 2.8.2). It is refused where there is
    /// no memory for the source, and nothing changes then.
    pub fn adopt_as_receiver(&mut self, attach: &Attach) -> Result<(), AllocError>
        ensures ok { OnOk result (self.new ≡ adopted_by_receiver self.old attach.now) }
        ensures err { OnErr result (self.new ≡ self.old) }
    {
        let source = attach.source.clone()?;
        self.source = source;
        self.snd_settle_mode = attach.snd_settle_mode;
        self.max_message_size = get_max_message_size(
            self.max_message_size,
            attach.max_message_size,
        );
        Ok(())
    }
}

//! The settings of a link.
ghost use Rattle.std.specs.Prelude.{◌≡◌};
ghost use Rattle.amqp_endpoint_model.specs.Defaults.{link_of};

use amqp_session_states::{Source, Target, TargetArchetype};
use amqp_session_types::{ReceiverSettleMode, SenderSettleMode};
use serde_amqp_types::Text;

/// What a link's own Attach says of it before the peer's came (part 2, 2.7.3).
#[derive(Debug, Drop)]
pub struct LinkSettings {
    /// The link's name (part 2, 2.6.1).
    pub name: Text,
    /// Where messages come from.
    pub source: Option<Source>,
    /// Where messages go to.
    pub target: Option<TargetArchetype>,
    /// How the sending end settles its deliveries (part 2, 2.8.2).
    pub snd_settle_mode: SenderSettleMode,
    /// How the receiving end settles its deliveries (part 2, 2.8.3).
    pub rcv_settle_mode: ReceiverSettleMode,
    /// Where the count of deliveries begins (part 2, 2.6.7).
    pub initial_delivery_count: u32,
    /// The size of the largest message, in bytes. 0 for no bound.
    pub max_message_size: u64,
}

impl LinkSettings {
    /// A link that sends, with this name, from this source to this target. All else is as the standard has it where a
    /// field is absent (part 2, 2.7.3): each message may go settled or not, a receiver settles as it says an outcome, and
    /// messages have no largest size. Its count of deliveries begins at 0.
    pub fn sender(name: Text, source: Source, target: Target) -> Self
        ensures { result ≡ link_of name source target }
    {
        with_defaults(name, source, target)
    }

    /// A link that receives, with this name, from this source to this target: for the rest as `sender` has it. The count
    /// of deliveries is the sender's to say.
    pub fn receiver(name: Text, source: Source, target: Target) -> Self
        ensures { result ≡ link_of name source target }
    {
        with_defaults(name, source, target)
    }
}

/// A link at either end, with the standard's defaults.
fn with_defaults(name: Text, source: Source, target: Target) -> LinkSettings
    ensures { result ≡ link_of name source target }
{
    LinkSettings {
        name,
        source: Some(source),
        target: Some(TargetArchetype::Target(target)),
        snd_settle_mode: SenderSettleMode::Mixed,
        rcv_settle_mode: ReceiverSettleMode::First,
        initial_delivery_count: 0,
        max_message_size: 0,
    }
}

//! What was heard, without what doesn't concern a link that attaches or is detached.
ghost use Rattle.std.specs.Prelude.{◌≡◌};
ghost use Rattle.amqp_endpoint_link_hearing.specs.Heard.{attach_of, detach_of, session_of};

use amqp_endpoint_conversation::Heard;
use amqp_endpoint_links::{AttachTaken, DetachTaken, PerformativeTaken};
use amqp_link::AttachTold;
use amqp_link_base::Detached;
use amqp_link_receiver::Told;

/// What comes of a peer's Attach.
#[derive(Drop)]
pub(crate) enum Took {
    /// The peer asks for a link in the session with this number.
    Asked(u64),
    /// A link of the session with this number took it, and tells this.
    ByLink(u64, AttachTold),
    /// Nothing.
    Nothing,
}

/// What comes of an Attach that was heard.
pub(crate) fn attach_of(heard: Heard<AttachTold, Told, Detached>) -> Took
    ensures { result ≡ attach_of heard }
{
    match heard {
        Heard::Asked(session) => Took::Asked(session),
        Heard::Live(session, taken) => match taken {
            PerformativeTaken::Attach(taken) => match taken {
                AttachTaken::Asked => Took::Asked(session),
                AttachTaken::ByLink(told) => Took::ByLink(session, told),
            },
            _ => Took::Nothing,
        },
        Heard::Dropped(_) => Took::Nothing,
    }
}

/// The session of the link that took a Detach that was heard, and what the link tells, if one took it.
pub(crate) fn detach_of(heard: Heard<AttachTold, Told, Detached>) -> Option<(u64, Detached)>
    ensures { result ≡ detach_of heard }
{
    match heard {
        Heard::Live(session, taken) => match taken {
            PerformativeTaken::Detach(taken) => match taken {
                DetachTaken::ByLink(told) => Some((session, told)),
                DetachTaken::Withdrawn => None,
            },
            _ => None,
        },
        Heard::Asked(_) | Heard::Dropped(_) => None,
    }
}

/// The session that took what was heard, where one did that has begun.
pub(crate) fn session_of(heard: Heard<AttachTold, Told, Detached>) -> Option<u64>
    ensures { result ≡ session_of heard }
{
    match heard {
        Heard::Live(session, _) => Some(session),
        Heard::Asked(_) | Heard::Dropped(_) => None,
    }
}

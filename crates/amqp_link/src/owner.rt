//! Who owns links of a session (part 2, 2.6).
use crate::LinkEnd;
use amqp_session_core::LinkOwner;

/// Who makes, sends, gives credit, disposes, attaches and detaches by the calls of the two ends alone: each change that
/// it makes of a link is one of these.
#[derive(Debug, Clone, Copy, PartialEq, Eq)]
pub struct Owner;

impl LinkOwner<LinkEnd> for Owner {
    ghost use Rattle.amqp_link.specs.Owner.{Owns};

    ghost keeps = { Owns };
}

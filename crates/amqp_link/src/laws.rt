//! Laws of histories of a link.
ghost use Rattle.std.specs.Prelude.{◌≡◌, ℕ, ◌+◌, List};
ghost use Rattle.amqp_link_sender.specs.Sending.{Sending};
ghost use Rattle.amqp_link.specs.History.{SenderHistory, SenderAct, sent_in, taken_in};
ghost use Rattle.amqp_link.specs.declared.end.End.{End};
ghost use Rattle.amqp_link.specs.declared.end.End.TheVariants as variant;
ghost use Rattle.amqp_session_core.specs.Relay.{OwnerKeeps};
ghost use Rattle.amqp_link.specs.Owner.{EndHistory, EndAct, Owns, changes_of, owned};
ghost use Rattle.amqp_link.specs.Times.{times_in, times};

/// A message that was sent unsettled is resolved at most once (part 2, 2.6.12): as often as messages with a tag were
/// sent, so often one is open, or what became of one waits for the link's owner, or was taken by it, and never two of
/// these for one that was sent.
pub fn each_message_is_resolved_at_most_once()
    ensures { (start end : Sending) (steps : List SenderAct) (tag : List ℕ)
        → SenderHistory start steps end →
        times_in tag end.messages.unsettled + times_in tag end.messages.resolved + times tag (taken_in steps)
        ≡ times_in tag start.messages.unsettled + times_in tag start.messages.resolved + times tag (sent_in steps) }
{}

/// A link that sends has such a history inside each history of a link as its session sees it, where its owner changes
/// it by its calls alone, and what its owner does in it are just these changes, in order. So the law above holds of
/// links in sessions of such an owner; and such a link never becomes one that receives. An endpoint numbers messages and
/// takes several that ended at once, and so isn't such an owner yet.
pub fn a_sending_end_has_a_history_of_its_own()
    ensures { (start : Sending) (end : End) (steps : List EndAct) →
        EndHistory (variant.Sender start) steps end → (keeps : OwnerKeeps Owns steps) →
        (last : Sending) × (own : List SenderAct) × (end ≡ variant.Sender last)
        × SenderHistory start own last × (owned own ≡ changes_of steps keeps) }
{}

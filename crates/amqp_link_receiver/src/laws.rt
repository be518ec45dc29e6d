//! Laws of a receiving end.
ghost use Rattle.std.specs.Prelude.{◌≡◌, ◌++◌, ℕ, List, map};
ghost use Rattle.amqp_link_base.specs.Readings.{Reading, readings};
ghost use Rattle.amqp_session_performatives.specs.declared.transfer.Transfer.{Transfer};
ghost use Rattle.amqp_link_types.specs.declared.refusals.ReceiverTransferError.{ReceiverTransferError};
ghost use Rattle.amqp_link_receiver.specs.Receiving.{Receiving, received, recounted};
ghost use Rattle.amqp_link_receiver.specs.declared.answer.Told.TheVariants.{Refused};
ghost use Rattle.amqp_link_receiver.specs.Readings.{Taken, TakesAll, handed_out, held_said, message_said, pieces_of};
ghost use Rattle.amqp_link_receiver.specs.declared.attachment.Attachment.{Attachment};

/// A transfer that is refused changes nothing of a receiving end but its counts: with those of before it stands as before
/// (part 2, 2.6.7).
pub fn a_refused_transfer_changes_counts_alone()
    ensures { (attachment : Attachment) (s : Receiving) (t : Transfer) (payload : List ℕ) (error : ReceiverTransferError) →
        (received attachment s t payload).0.told ≡ Refused error →
        recounted (received attachment s t payload).1 s.flow.delivery_count s.flow.link_credit ≡ s }
{}

/// The messages that a receiving end hands out are those that the transfers say that it took, and the delivery that it
/// holds is what they leave open, where none of them resumes a delivery (part 2, 2.6.14).
pub fn hands_out_what_is_said()
    ensures { (attachment : Attachment) (start end : Receiving) (before : Reading) (steps : List Taken) → start.held ≡ held_said before.held → TakesAll attachment start steps end →
        let after = readings before (pieces_of steps) in
        (map message_said after.messages ≡ map message_said before.messages ++ handed_out steps) × (end.held ≡ held_said after.held) }
{}

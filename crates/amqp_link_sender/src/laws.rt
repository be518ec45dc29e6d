//! Laws of messages that are cut into transfers, of those that are sent on, and of the counts of a sending link.
ghost use Rattle.std.specs.Prelude.{◌≡◌, ◌<◌, ℕ, List, [], ◌∷◌, Some, None, Ok, false};
ghost use Rattle.amqp_session_performatives.specs.declared.transfer.Transfer.{Transfer};
ghost use Rattle.amqp_session_performatives.specs.declared.link_flow.LinkFlow.{LinkFlow};
ghost use Rattle.amqp_session_core.specs.Batch.{Transfers};
ghost use Rattle.amqp_link_base.specs.Said.{begun, whole};
ghost use Rattle.amqp_link_base.specs.Readings.{nothing, readings, taken};
ghost use Rattle.amqp_link_sender.specs.Sending.{Sending, counts_of, flowed, recounted};
ghost use Rattle.amqp_link_sender.specs.SendsOn.{all_on, next_on, sent_on};
ghost use Rattle.amqp_link_sender.specs.declared.sending_on.PreparedSendOn.{PreparedSendOn};
ghost use Rattle.amqp_link_sender.specs.Splitting.{Splits};
ghost use Rattle.amqp_link_sender.specs.Saying.{pieces_of, numbered};

/// The transfers of a message say that message, and nothing is left open behind them (part 2, 2.6.14).
pub fn split_says_one_message()
    ensures { (first : Transfer) (payload : List ℕ) (room : ℕ) (transfers : Transfers) →
        Splits first payload room transfers → first.aborted ≡ false →
        readings nothing (pieces_of transfers)
        ≡ record { messages = whole (begun first payload) ∷ []; held = None } }
{}

/// A receiver refuses none of the transfers of a message, once a session has written its number, and hands out the
/// message with all of its bytes (part 2, 2.6.14).
pub fn split_is_joined()
    ensures { (first : Transfer) (payload tag : List ℕ) (room number : ℕ) (transfers : Transfers) →
        Splits first payload room transfers → first.aborted ≡ false → first.delivery_tag ≡ Some tag →
        taken (Ok nothing) (numbered number (pieces_of transfers))
        ≡ Ok (record {
          messages = whole (begun (record first { delivery_id = Some number }) payload) ∷ [];
          held = None;
        }) }
{}

/// The first of all messages that go on is the one that is sent on next, there is credit for it, and the others are all
/// that go on once it is sent (part 2, 2.6.7 and 2.6.13).
pub fn what_goes_on_goes_one_by_one()
    ensures { (s : Sending) (p : PreparedSendOn) (ps : List PreparedSendOn) → all_on s ≡ p ∷ ps →
        (0 < s.flow.link_credit) × (next_on s ≡ Some p) × (all_on (sent_on s) ≡ ps) }
{}

/// A Flow changes nothing of a sending link but its counts: with those of before it stands as before (part 2, 2.6.7).
pub fn counts_are_put_back()
    ensures { (s : Sending) (flow : LinkFlow) → recounted (flowed s flow) (counts_of s) ≡ s }
{}

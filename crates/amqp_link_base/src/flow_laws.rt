//! Laws of flow states: what Flows and deliveries make of the credit limit, over counts that never wrap, and what
//! holds between the two ends of a link (part 2, 2.6.7).
ghost use Rattle.std.specs.Prelude.{◌≡◌, ℕ, ◌+◌, ◌%◌, ◌^◌, ◌<◌, ◌≤◌, List, ◌∷◌, Some, false, true};
ghost use Rattle.amqp_session_performatives.specs.declared.link_flow.LinkFlow.{LinkFlow};
ghost use Rattle.amqp_link_base.specs.declared.inner.LinkFlowStateInner.{LinkFlowStateInner};
ghost use Rattle.amqp_link_base.specs.Flows.{ahead, StandsAt, credit_limit, sender_flowed, receiver_flowed, consumed};
ghost use Rattle.amqp_link_base.specs.World.{World, Act, FromSender, Message, begun, Step, Runs};

/// By a Flow that reaches at least as far as the sender has come, the sender's limit becomes its receiver's: the Flow
/// is of a receiver that has counted `theirs` and gives `credit`.
pub fn sender_takes_the_limit()
    ensures { (old : LinkFlowStateInner) (flow : LinkFlow) (own theirs credit : ℕ) → StandsAt old own →
        flow.delivery_count ≡ Some (theirs % 2 ^ 32) → flow.link_credit ≡ Some credit →
        theirs ≤ own → own ≤ theirs + credit → credit < 2 ^ 31 → flow.drain ≡ false →
        StandsAt (sender_flowed old flow) own
        × (own + (sender_flowed old flow).link_credit ≡ theirs + credit) }
{}

/// Where such a Flow wants the credit used up, the sender's count moves to the limit.
pub fn drained_sender_reaches_the_limit()
    ensures { (old : LinkFlowStateInner) (flow : LinkFlow) (own theirs credit : ℕ) → StandsAt old own →
        flow.delivery_count ≡ Some (theirs % 2 ^ 32) → flow.link_credit ≡ Some credit →
        theirs ≤ own → own ≤ theirs + credit → credit < 2 ^ 31 → flow.drain ≡ true →
        StandsAt (sender_flowed old flow) (theirs + credit) × ((sender_flowed old flow).link_credit ≡ 0) }
{}

/// A Flow of a sender whose count is ahead by no more than the credit leaves the receiver's limit.
pub fn receiver_keeps_the_limit()
    ensures { (old : LinkFlowStateInner) (flow : LinkFlow) (own theirs : ℕ) → StandsAt old own →
        flow.delivery_count ≡ Some (theirs % 2 ^ 32) →
        own ≤ theirs → theirs ≤ own + old.link_credit → old.link_credit < 2 ^ 31 →
        StandsAt (receiver_flowed old flow) theirs
        × (theirs + (receiver_flowed old flow).link_credit ≡ own + old.link_credit) }
{}

/// A Flow of any sender whose count is ahead by less than 2^31 moves the receiver's limit on by less than 2^31, or
/// leaves it.
pub fn receiver_moves_on()
    ensures { (old : LinkFlowStateInner) (flow : LinkFlow) (count : ℕ) → old.delivery_count < 2 ^ 32 →
        flow.delivery_count ≡ Some count → count < 2 ^ 32 → ahead count old.delivery_count < 2 ^ 31 →
        ahead (credit_limit (receiver_flowed old flow)) (credit_limit old) < 2 ^ 31 }
{}

/// Using credit leaves the limit.
pub fn consuming_keeps_the_limit()
    ensures { (old : LinkFlowStateInner) (own count : ℕ) → StandsAt old own → count ≤ old.link_credit →
        StandsAt (consumed old count) (own + count)
        × ((own + count) + (consumed old count).link_credit ≡ own + old.link_credit) }
{}

/// No message is refused for credit: when it comes to its receiver, there is credit for it. So it is between two ends
/// however credit is given and used up, and whatever Flows they send, where no credit is taken back.
pub fn no_message_is_refused()
    ensures { (sender receiver : LinkFlowStateInner) (acts : List Act) (end : World) →
        sender.delivery_count < 2 ^ 32 → Runs (begun sender receiver) acts end →
        (later : List FromSender) → end.to_receiver ≡ Message ∷ later → 1 ≤ end.receiver.link_credit }
{}

/// Whatever happens between two ends where no credit is taken back, each end's limit moves on by less than 2^31, or
/// stays.
pub fn limits_move_on()
    ensures { (sender receiver : LinkFlowStateInner) (acts : List Act) (old new : World) (act : Act) →
        sender.delivery_count < 2 ^ 32 → Runs (begun sender receiver) acts old → Step old act new →
        (ahead (credit_limit new.receiver) (credit_limit old.receiver) < 2 ^ 31)
        × (ahead (credit_limit new.sender) (credit_limit old.sender) < 2 ^ 31) }
{}

//! Laws of payloads (part 3, 3.2).
// The functions do nothing: their contracts are the laws.
ghost use Rattle.std.specs.Prelude.{◌≡◌, ℕ, List, Some};
ghost use Rattle.serde_amqp_item.specs.Item.{Item};
ghost use Rattle.amqp_link_message.specs.declared.message.Message.{Message};
ghost use Rattle.amqp_link_message.specs.Message.{message_items, message_parts, message_takes};
ghost use Rattle.amqp_link_message.specs.Parts.{ReadsParts};
ghost use Rattle.amqp_link_message.specs.Payload.{Says, payload_text, IsWithinBounds, IsOfForms, EachWithoutRaw};

use crate::body::{ReadBody, RoundTripBody};

/// A payload says at most one list of items, where no kept items are meant.
pub fn one_list_of_items()
    ensures { (xs ys : List Item) (bytes : List ℕ) → EachWithoutRaw xs → EachWithoutRaw ys
        → Says bytes xs → Says bytes ys → xs ≡ ys }
{}

/// What is written of items says these items, where their counts are in their bounds and their kept items are wire forms.
pub fn written_is_said()
    ensures { (xs : List Item) (text : List ℕ) → IsWithinBounds xs → IsOfForms xs →
        payload_text xs ≡ Some text → Says text xs }
{}

/// A message that was written is read back: its payload says sections that are read as those of the message. The
/// premises say that the items' counts are in their bounds, and that kept items are wire forms.
pub fn written_is_read<B: RoundTripBody>()
    ensures { (m : Message B) (text : List ℕ) → IsWithinBounds (message_items B.ReadBody.items m)
        → IsOfForms (message_items B.ReadBody.items m) → payload_text (message_items B.ReadBody.items m) ≡ Some text
        → ReadsParts (message_takes B.takes) text (message_parts B.ReadBody.items m) }
{}

/// A payload is read in one way: what it is read as are one list of parts, also where its bytes are wire forms of
/// several items, as of kept ones and of what these keep.
pub fn payload_is_read_in_one_way<B: ReadBody>()
    ensures { (bytes : List ℕ) (p q : List (List Item)) → ReadsParts (message_takes B.takes) bytes p
        → ReadsParts (message_takes B.takes) bytes q → p ≡ q }
{}

/// What is read of the payload of a message that was written are the sections of that message, as they were. The
/// premises say that the items' counts are in their bounds, and that kept items are wire forms.
pub fn read_is_written<B: RoundTripBody>()
    ensures { (written read : Message B) (text : List ℕ) → IsWithinBounds (message_items B.WriteBody.items written)
        → IsOfForms (message_items B.WriteBody.items written)
        → payload_text (message_items B.WriteBody.items written) ≡ Some text
        → ReadsParts (message_takes B.takes) text (message_parts B.ReadBody.items read)
        → message_parts B.ReadBody.items read ≡ message_parts B.ReadBody.items written }
{}

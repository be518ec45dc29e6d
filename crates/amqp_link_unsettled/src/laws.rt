//! Laws of what becomes of an interrupted delivery (part 2, 2.6.13).
ghost use Rattle.std.specs.Prelude.{◌≡◌, false, IsTrue};
ghost use Rattle.amqp_link_unsettled.specs.Resumption.{is_past};

use amqp_session_states::Received;

/// Of two places in a message one is past the other or they are the same, never both, and what is past a place is past
/// all that this one is past.
pub fn places_are_ordered(first: Received, second: Received, third: Received)
    ensures same { is_past first second ≡ false → is_past second first ≡ false → first ≡ second }
    ensures one_way { IsTrue (is_past first second) → is_past second first ≡ false }
    ensures onward { IsTrue (is_past first second) → IsTrue (is_past second third) →
        IsTrue (is_past first third) }
{}

//! Laws of places and of what transfers say, over all messages.
ghost use Rattle.std.specs.Prelude.{◌≡◌, ℕ, ◌≤◌, List, length, Some, Ok};
ghost use Rattle.amqp_link_base.specs.Starts.{place_at, read_at};
ghost use Rattle.amqp_link_base.specs.Readings.{Piece, Reading, readings, taken};

/// A place is read back: the place to which the first `n` bytes reach stands behind `n` bytes of the whole message
/// (part 3, 3.4.1).
pub fn place_is_read_back()
    ensures { (payload : List ℕ) (n : ℕ) → n ≤ length payload →
        read_at payload (place_at payload n) ≡ Some n }
{}

/// A receiver that takes transfers hands out and holds what they say (part 2, 2.6.14).
pub fn taken_is_what_is_said()
    ensures { (before after : Reading) (pieces : List Piece) → taken (Ok before) pieces ≡ Ok after →
        readings before pieces ≡ after }
{}

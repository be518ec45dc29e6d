//! Laws of histories of an endpoint's links.
ghost use Rattle.std.specs.Prelude.{◌≡◌, ℕ, ◌<◌, ◌≤◌, List, Some, None, length};
ghost use Rattle.amqp_endpoint_tables.specs.LinkState.{State, AreApart, fresh};
ghost use Rattle.amqp_endpoint_tables.specs.LinkSteps.{History, Act};
ghost use Rattle.amqp_endpoint_tables.specs.OwnLinks.{SlotHistory, slot_at, steps_of, times_given};

/// Each link has a history of its own: where it is behind all steps comes from where it was and the steps that are
/// about it, in their order. So no step but its own touches a link, and it keeps its name.
pub fn each_link_has_its_own_history<L: Drop>()
    ensures { (n : ℕ) (start end : State L) (steps : List (Act L)) → History start steps end →
        SlotHistory (slot_at start n) (steps_of n steps) (slot_at end n) }
{}

/// A link that is closed stays closed (part 2, 2.6.6).
pub fn closed_links_stay_closed<L: Drop>()
    ensures { (n : ℕ) (start end : State L) (steps : List (Act L)) → History start steps end →
        slot_at start n ≡ Some None → slot_at end n ≡ Some None }
{}

/// No two links get one number, and none gets one that a link had before, be that closed.
pub fn numbers_are_given_once<L: Drop>()
    ensures once { (n : ℕ) (start end : State L) (steps : List (Act L)) → History start steps end →
        times_given n steps ≤ 1 }
    ensures used { (n : ℕ) (start end : State L) (steps : List (Act L)) → History start steps end →
        n < length start.links → times_given n steps ≡ 0 }
{}

/// No two links that aren't closed have one name, whatever comes (part 2, 2.6.1).
pub fn names_stay_apart<L: Drop>()
    ensures none { AreApart (fresh {L = L}).links }
    ensures kept { (start end : State L) (steps : List (Act L)) → AreApart start.links
        → History start steps end →
        AreApart end.links }
{}

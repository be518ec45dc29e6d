//! Laws of histories of a session: each says what holds of every list of calls, whatever the links are.
ghost use Rattle.std.specs.Prelude.{◌≡◌, ◌≢◌, ℕ, ◌*◌, ◌<◌, List, [], ◌∷◌, ◌++◌, Option, Some, None, IsTrue, false};
ghost use Rattle.std.specs.FinMap as map;
ghost use Rattle.amqp_session_types.specs.declared.channels.OutgoingChannel.{OutgoingChannel};
ghost use Rattle.amqp_session_types.specs.declared.handles.OutputHandle.{OutputHandle};
ghost use Rattle.amqp_session_performatives.specs.declared.disposition.Disposition.{Disposition};
ghost use Rattle.amqp_session_performatives.specs.declared.session_frame.SessionFrame.{SessionFrame};
ghost use Rattle.amqp_session_outgoing.specs.declared.delivery.Delivery.{Delivery};
ghost use Rattle.amqp_session_outgoing.specs.History as sending;
ghost use Rattle.amqp_session_core.specs.declared.batch.BehindFrame.{BehindFrame};
ghost use Rattle.amqp_session_core.specs.Batch.{Transfers};
ghost use Rattle.amqp_session_core.specs.Frames.{Left};
ghost use Rattle.amqp_session_core.specs.Relay.{LinkHistory, OwnerKeeps, SendsBatch, SendsFrame};
ghost use Rattle.amqp_session_core.specs.Relay.{SendsDisposition as SendsItsDisposition, Changes as ChangesIt};
ghost use Rattle.amqp_session_core.specs.State.{State, fresh, link_at};
ghost use Rattle.amqp_session_core.specs.Steps.{Act, SendsTransfers, SendsBehind, SendsDisposition, Allocates};
ghost use Rattle.amqp_session_core.specs.Steps.{Deallocates, Changes};
ghost use Rattle.amqp_session_core.specs.History.{History, sending_of, own_of, is_freed, OwnersKeep, taken_since};
ghost use Rattle.amqp_session_core.specs.History.{EachTellsNext};
ghost use Rattle.amqp_session_core.specs.Vacant.{IsVacant, is_given};

use crate::relay::{LinkOwner, LinkRelay};

/// Inside the history of a session its sending side has a history of its own: so what `amqp_session_outgoing::laws` says
/// of numbers, windows, turns and order holds of sessions.
pub fn the_sending_side_has_its_own_history<R: LinkRelay>()
    ensures { (start end : State R) (steps : List (Act R R.Attached R.Transferred R.Detached)) →
        History R.gives start steps end →
        sending.History start.outgoing (sending_of steps) end.outgoing }
{}

/// Inside the history of a session each link has a history of its own, of the frames that reached it, of what was sent
/// for it and of its owner's changes, until its own handle is taken back: so a law of a link layer holds in sessions.
pub fn each_link_has_its_own_history<R: LinkRelay>()
    ensures { (start end : State R) (steps : List (Act R R.Attached R.Transferred R.Detached)) →
        History R.gives start steps end →
        (link : ℕ) (old : R) → link_at start link ≡ Some old → is_freed link steps ≡ false →
        (new : R) × (link_at end link ≡ Some new) × LinkHistory R.gives old (own_of link steps) new }
{}

/// So it is with what is kept by each change that the owner of a link makes: the changes in a link's own history keep it,
/// where those of the session's history do. So a law of a link layer that depends on what its owner does holds in
/// sessions.
pub fn each_link_changes_as_its_owner_keeps<R: LinkRelay, O: LinkOwner<R>>()
    ensures { (start end : State R) (steps : List (Act R R.Attached R.Transferred R.Detached)) →
        History R.gives start steps end → OwnersKeep O.keeps steps →
        (link : ℕ) (old : R) → link_at start link ≡ Some old → is_freed link steps ≡ false →
        (new : R) × (link_at end link ≡ Some new)
        × LinkHistory R.gives old (own_of link steps) new × OwnerKeeps O.keeps (own_of link steps) }
{}

/// What an owner does for a link stands in the link's own history, in its place: the transfers that it sends, its Flows
/// and Detaches, its changes, and each disposition of the session.
pub fn what_its_owner_does_is_in_its_history<R: LinkRelay>()
    ensures transfers { (handle : OutputHandle) (batch : Transfers) (left : Left) (frames : List SessionFrame)
        (before later : List (Act R R.Attached R.Transferred R.Detached)) →
        own_of handle.0 (before ++ SendsTransfers handle batch left frames ∷ later)
        ≡ own_of handle.0 before ++ SendsBatch batch ∷ own_of handle.0 later }
    ensures behind { (handle : OutputHandle) (frame : BehindFrame)
        (left : Option BehindFrame) (answer : Option SessionFrame)
        (before later : List (Act R R.Attached R.Transferred R.Detached)) →
        own_of handle.0 (before ++ SendsBehind handle frame left answer ∷ later)
        ≡ own_of handle.0 before ++ SendsFrame frame ∷ own_of handle.0 later }
    ensures dispositions { (link : ℕ) (disposition : Disposition) (settled : List ℕ)
        (before later : List (Act R R.Attached R.Transferred R.Detached)) →
        own_of link (before ++ SendsDisposition disposition settled ∷ later)
        ≡ own_of link before ++ SendsItsDisposition disposition ∷ own_of link later }
    ensures changes { (link : ℕ) (old new : R)
        (before later : List (Act R R.Attached R.Transferred R.Detached)) →
        own_of link (before ++ Changes link old new ∷ later)
        ≡ own_of link before ++ ChangesIt old new ∷ own_of link later }
{}

/// Two live links never share an own handle: between two links that get the same one it was taken back (part 2, 2.6.2).
pub fn live_links_are_apart<R: LinkRelay>()
    ensures { (start end : State R) (one two : R) (input other : Option ℕ) (handle : ℕ)
        (between later : List (Act R R.Attached R.Transferred R.Detached)) →
        History R.gives start (Allocates handle one input ∷ (between ++ Allocates handle two other ∷ later)) end →
        IsTrue (is_freed handle between) }
{}

/// From the freeing of a handle until it is given anew no link has it, nothing of it waits, and no delivery of it is
/// unsettled (part 2, 2.6.2 and 2.6.12).
pub fn freed_handles_have_no_deliveries<R: LinkRelay>()
    ensures { (start end : State R) (handle : ℕ)
        (steps later : List (Act R R.Attached R.Transferred R.Detached)) →
        History R.gives start (steps ++ Deallocates handle ∷ later) end → is_given handle later ≡ false → IsVacant end handle }
{}

/// Since a Flow left last, or before any, since the session began, fewer transfers were taken than half of the own window
/// (part 2, 2.5.6).
pub fn half_of_the_window_stays_open<R: LinkRelay>()
    ensures { (channel : OutgoingChannel) (first window : ℕ) (end : State R)
        (steps : List (Act R R.Attached R.Transferred R.Detached)) →
        0 < window →
        History R.gives (fresh channel first window) steps end →
        2 * taken_since 0 steps < window }
{}

/// Each Flow that leaves tells the number of the peer's next transfer of then, and the own window (part 2, 2.7.4).
pub fn flows_tell_what_was_taken<R: LinkRelay>()
    ensures { (channel : OutgoingChannel) (first window : ℕ) (end : State R)
        (steps : List (Act R R.Attached R.Transferred R.Detached)) →
        History R.gives (fresh channel first window) steps end →
        EachTellsNext None window steps }
{}

//! Laws of what is told of a disposition of the peer, and of what goes back. A function here does nothing: its contract is the law.
ghost use Rattle.std.specs.Prelude.{◌≡◌, ◌≤◌, ◌<◌, ◌^◌, ℕ, List, All, Option, length, map};
ghost use Rattle.amqp_session_performatives.specs.declared.disposition.Disposition.{Disposition};
ghost use Rattle.amqp_session_states.specs.declared.delivery_state.DeliveryState.{DeliveryState};
ghost use Rattle.amqp_session_types.specs.declared.modes.Role.TheVariants.{Receiver};
ghost use Rattle.amqp_session_core.specs.Disposing.{AreTouched};
ghost use Rattle.amqp_session_core.specs.Echoes.{echo_of};
ghost use Rattle.amqp_session_core.specs.State.{State};
ghost use Rattle.amqp_session_core.specs.Steps.{table_of};
ghost use Rattle.amqp_session_core.specs.Told.{DispositionTaken};
ghost use Rattle.amqp_session_core.specs.declared.dispositions.Touched.{Touched};
ghost use Rattle.amqp_session_core.specs.declared.fields.SessionFields.{SessionFields};
ghost use Rattle.amqp_endpoint_attached.specs.Linked.{LinksIn, gives};
ghost use Rattle.amqp_endpoint_messages.specs.Dispositions.{frames_of};
ghost use Rattle.amqp_endpoint_fitting.specs.Fits.{FrameFits};
ghost use Rattle.amqp_endpoint_messages.specs.Echoing.{echo, echoes_of, going};
ghost use Rattle.amqp_endpoint_messages.specs.Outcomes.{NoneUntold, outcomes_told};
ghost use Rattle.amqp_endpoint_messages.specs.Reached.{behind_reached, reached_told};

use amqp_session_core::LinkRelay;

/// A disposition wants no more runs echoed than it reaches deliveries (part 2, 2.7.6).
pub fn no_more_runs_than_deliveries<R: LinkRelay>()
    ensures { (old new : State R) (it : Disposition) (runs : List (ℕ × ℕ)) (reached : List Touched) →
        DispositionTaken R.gives old it (map (echo_of it) runs) new → AreTouched it (table_of it.role old) reached →
        length runs ≤ length reached }
{}

/// What goes back fits the limit, whichever runs are to be settled (part 2, 2.4.1).
pub fn what_goes_back_fits()
    ensures { (limit : ℕ) (state : Option DeliveryState) (fields : SessionFields) (runs : List (ℕ × ℕ)) →
        limit < 2 ^ 32 → All (FrameFits limit) (frames_of fields (echoes_of state (going limit state runs))) }
{}

/// Of a receiver's disposition that goes back which its session wants echoed: settled, with the same state (part 2,
/// 2.7.6, 2.8.3).
pub fn what_goes_back_is_the_echo()
    ensures { (it : Disposition) (run : ℕ × ℕ) → it.role ≡ Receiver →
        echo it.state run ≡ echo_of it run }
{}

/// Where no link of a session has a message that ended and wasn't told, what its links tell behind a disposition of the
/// peer are the outcomes of the messages that it ends, in the order of the deliveries that it reaches (part 2, 2.6.12,
/// 2.7.6; part 3, 3.4).
pub fn outcomes_are_of_what_ends()
    ensures { (old new : LinksIn) (it : Disposition) (echoes : List Disposition) (reached : List Touched) →
        NoneUntold old → DispositionTaken gives old it echoes new → AreTouched it (table_of it.role old) reached →
        reached_told new reached ≡ outcomes_told it old reached }
{}

/// And no link has such a message behind that.
pub fn a_disposition_leaves_none_untold()
    ensures { (old new : LinksIn) (it : Disposition) (echoes : List Disposition) (reached : List Touched) →
        NoneUntold old → DispositionTaken gives old it echoes new → AreTouched it (table_of it.role old) reached →
        NoneUntold (behind_reached new reached) }
{}

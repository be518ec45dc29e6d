//! Laws of what states, sources and targets are written as and read as. A function here does nothing: its contract is
//! the law.
ghost use Rattle.std.specs.Prelude.{◌≡◌, ℕ, List, Some, None, false};
ghost use Rattle.serde_amqp_item.specs.Item.{Item};
ghost use Rattle.serde_amqp_item.specs.Wire.{Wire};
ghost use Rattle.amqp_session_states.specs.Received.{received_item, received_taken};
ghost use Rattle.amqp_session_states.specs.Accepted.{accepted_item, accepted_taken};
ghost use Rattle.amqp_session_states.specs.Rejected.{rejected_item, rejected_taken};
ghost use Rattle.amqp_session_states.specs.Released.{released_item, released_taken};
ghost use Rattle.amqp_session_states.specs.Modified.{modified_item, modified_taken};
ghost use Rattle.amqp_session_states.specs.Outcome.{outcome_item, outcome_taken};
ghost use Rattle.amqp_session_states.specs.DeliveryState.{delivery_state_item, delivery_state_taken};
ghost use Rattle.amqp_session_states.specs.Source.{source_item, source_taken};
ghost use Rattle.amqp_session_states.specs.Target.{target_item, target_taken};
ghost use Rattle.amqp_session_states.specs.TargetArchetype.{is_other, target_archetype_item, target_archetype_taken};
ghost use Rattle.amqp_session_states.specs.declared.received.Received.{Received};
ghost use Rattle.amqp_session_states.specs.declared.accepted.Accepted.{Accepted};
ghost use Rattle.amqp_session_states.specs.declared.rejected.Rejected.{Rejected};
ghost use Rattle.amqp_session_states.specs.declared.released.Released.{Released};
ghost use Rattle.amqp_session_states.specs.declared.modified.Modified.{Modified};
ghost use Rattle.amqp_session_states.specs.declared.outcome.Outcome.{Outcome};
ghost use Rattle.amqp_session_states.specs.declared.delivery_state.DeliveryState.{DeliveryState};
ghost use Rattle.amqp_session_states.specs.declared.source.Source.{Source};
ghost use Rattle.amqp_session_states.specs.declared.target.Target.{Target};
ghost use Rattle.amqp_session_states.specs.declared.target_archetype.TargetArchetype.{TargetArchetype};

/// What a received state is written as is read as it, and two received states are written as two items.
pub fn received_is_its_item()
    ensures read_back { (x : Received) → received_taken (received_item x) ≡ Some (received_item x) }
    ensures told_apart { (x y : Received) → received_item x ≡ received_item y → x ≡ y }
{}

/// What an accepted state is written as is read as it, and two accepted states are written as two items.
pub fn accepted_is_its_item()
    ensures read_back { (x : Accepted) → accepted_taken (accepted_item x) ≡ Some (accepted_item x) }
    ensures told_apart { (x y : Accepted) → accepted_item x ≡ accepted_item y → x ≡ y }
{}

/// What a rejected state is written as is read as it, and two rejected states are written as two items.
pub fn rejected_is_its_item()
    ensures read_back { (x : Rejected) → rejected_taken (rejected_item x) ≡ Some (rejected_item x) }
    ensures told_apart { (x y : Rejected) → rejected_item x ≡ rejected_item y → x ≡ y }
{}

/// What a released state is written as is read as it, and two released states are written as two items.
pub fn released_is_its_item()
    ensures read_back { (x : Released) → released_taken (released_item x) ≡ Some (released_item x) }
    ensures told_apart { (x y : Released) → released_item x ≡ released_item y → x ≡ y }
{}

/// What a modified state is written as is read as it, and two modified states are written as two items.
pub fn modified_is_its_item()
    ensures read_back { (x : Modified) → modified_taken (modified_item x) ≡ Some (modified_item x) }
    ensures told_apart { (x y : Modified) → modified_item x ≡ modified_item y → x ≡ y }
{}

/// What an outcome is written as is read as it, and two outcomes are written as two items.
pub fn outcome_is_its_item()
    ensures read_back { (x : Outcome) → outcome_taken (outcome_item x) ≡ Some (outcome_item x) }
    ensures told_apart { (x y : Outcome) → outcome_item x ≡ outcome_item y → x ≡ y }
{}

/// What a delivery state is written as is read as it, and two delivery states are written as two items.
pub fn delivery_state_is_its_item()
    ensures read_back { (x : DeliveryState) →
        delivery_state_taken (delivery_state_item x) ≡ Some (delivery_state_item x) }
    ensures told_apart { (x y : DeliveryState) → delivery_state_item x ≡ delivery_state_item y →
        x ≡ y }
{}

/// What a source is written as is read as it, and two sources are written as two items.
pub fn source_is_its_item()
    ensures read_back { (x : Source) → source_taken (source_item x) ≡ Some (source_item x) }
    ensures told_apart { (x y : Source) → source_item x ≡ source_item y → x ≡ y }
{}

/// What a target is written as is read as it, and two targets are written as two items.
pub fn target_is_its_item()
    ensures read_back { (x : Target) → target_taken (target_item x) ≡ Some (target_item x) }
    ensures told_apart { (x y : Target) → target_item x ≡ target_item y → x ≡ y }
{}

/// What an archetype of a target is written as is read as it, and two archetypes are written as two items.
pub fn target_archetype_is_its_item()
    ensures read_back { (x : TargetArchetype) →
        target_archetype_taken (target_archetype_item x) ≡ Some (target_archetype_item x) }
    ensures told_apart { (x y : TargetArchetype) →
        target_archetype_item x ≡ target_archetype_item y → x ≡ y }
{}

/// No form of a target is kept as another described value.
pub fn target_is_no_other()
    ensures { (x u : Item) (bytes : List ℕ) → target_taken x ≡ Some u → Wire x None bytes →
        is_other bytes ≡ false }
{}

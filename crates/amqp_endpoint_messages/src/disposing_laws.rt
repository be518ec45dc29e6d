//! Laws of deliveries that are disposed of in a session. A function here does nothing: its contract is the law.
ghost use Rattle.std.specs.Prelude.{◌≡◌, ℕ, Bool, List, [], Option};
ghost use Rattle.amqp_session_types.specs.declared.handles.OutputHandle.{OutputHandle};
ghost use Rattle.amqp_session_states.specs.declared.delivery_state.DeliveryState.{DeliveryState};
ghost use Rattle.amqp_session_performatives.specs.declared.session_frame.SessionFrame.{SessionFrame};
ghost use Rattle.amqp_endpoint_attached.specs.Linked.{Linked};
ghost use Rattle.amqp_endpoint_messages.specs.Disposing.{DisposesOfAll};
ghost use Rattle.amqp_endpoint_messages.specs.Dispositions.{IsDisposed};

/// Of no deliveries nothing is handed out, and nothing changes (part 2, 2.7.6).
pub fn of_none_nothing_changes()
    ensures { (limit : ℕ) (old new : Linked) (handle : OutputHandle) (state : DeliveryState) (asked : Option Bool)
        (out out_new : List SessionFrame) → IsDisposed (DisposesOfAll handle [] state asked) limit old out new out_new →
        (new ≡ old) × (out_new ≡ out) }
{}

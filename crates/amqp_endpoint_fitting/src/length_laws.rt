//! Laws of lengths. A function here does nothing: its contract is the law. The least limit that a peer may set is 512
//! bytes (part 2, 2.4.1).
ghost use Rattle.std.specs.Prelude.{◌≡◌, ◌≤◌, ℕ, true};
ghost use Rattle.amqp_session_performatives.specs.declared.begin.Begin.{Begin};
ghost use Rattle.amqp_session_performatives.specs.declared.detach.Detach.{Detach};
ghost use Rattle.amqp_session_performatives.specs.declared.disposition.Disposition.{Disposition};
ghost use Rattle.amqp_session_performatives.specs.declared.end.End.{End};
ghost use Rattle.amqp_session_performatives.specs.declared.flow.Flow.{Flow};
ghost use Rattle.amqp_session_performatives.specs.declared.session_frame.SessionFrameBody.TheVariants as body;
ghost use Rattle.amqp_session_frames.specs.declared.frame.Frame.{Frame};
ghost use Rattle.amqp_endpoint_model.specs.State.{error_of, fits, frame_of};
ghost use Rattle.amqp_endpoint_model.specs.Step.{not_allowed};
ghost use Rattle.amqp_endpoint_fitting.specs.Plain.{IsPlainBegin, IsPlainDetach, IsPlainDisposition, IsPlainEnd};
ghost use Rattle.amqp_endpoint_fitting.specs.Plain.{IsPlainFlow, SaysConditionAlone, handle_in_use};
ghost use Rattle.amqp_endpoint_fitting.specs.Plain.{message_size_exceeded, transfer_limit_exceeded, unattached_handle};

/// What fits the least limit fits every other one (part 2, 2.4.1).
pub fn a_larger_limit_fits_too()
    ensures { (limit : ℕ) (frame : Frame) → 512 ≤ limit → fits 512 frame ≡ true → fits limit frame ≡ true }
{}

/// A Begin without capabilities and properties fits the least limit (part 2, 2.7.2).
pub fn a_begin_fits()
    ensures { (channel : ℕ) (begin : Begin) → IsPlainBegin begin →
        fits 512 (frame_of (record { channel = channel; body = body.Begin begin })) ≡ true }
{}

/// A Flow without properties fits the least limit, that of a session and that of a link (part 2, 2.7.4).
pub fn a_flow_fits()
    ensures { (channel : ℕ) (flow : Flow) → IsPlainFlow flow →
        fits 512 (frame_of (record { channel = channel; body = body.Flow flow })) ≡ true }
{}

/// A Disposition whose state is absent, accepted or released fits the least limit (part 2, 2.7.6).
pub fn a_disposition_fits()
    ensures { (channel : ℕ) (disposition : Disposition) → IsPlainDisposition disposition →
        fits 512 (frame_of (record { channel = channel; body = body.Disposition disposition })) ≡ true }
{}

/// A Detach without an error, or with one that says its condition alone, fits the least limit (part 2, 2.7.7).
pub fn a_detach_fits()
    ensures { (channel : ℕ) (detach : Detach) → IsPlainDetach detach →
        fits 512 (frame_of (record { channel = channel; body = body.Detach detach })) ≡ true }
{}

/// An End without an error, or with one that says its condition alone, fits the least limit (part 2, 2.7.8).
pub fn an_end_fits()
    ensures { (channel : ℕ) (end : End) → IsPlainEnd end →
        fits 512 (frame_of (record { channel = channel; body = body.End end })) ≡ true }
{}

/// An error that says one of these conditions alone is as short as the laws of a Detach and of an End ask (part 2,
/// 2.8.15, 2.8.17, 2.8.18).
pub fn a_condition_is_short()
    ensures unattached_handle { SaysConditionAlone (error_of unattached_handle) }
    ensures handle_in_use { SaysConditionAlone (error_of handle_in_use) }
    ensures not_allowed { SaysConditionAlone (error_of not_allowed) }
    ensures transfer_limit_exceeded { SaysConditionAlone (error_of transfer_limit_exceeded) }
    ensures message_size_exceeded { SaysConditionAlone (error_of message_size_exceeded) }
{}

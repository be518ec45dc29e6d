//! A law of lengths. The function here does nothing: its contract is the law.
ghost use Rattle.std.specs.Prelude.{◌≡◌, ◌<◌, ◌^◌, ℕ, true};
ghost use Rattle.amqp_session_performatives.specs.declared.attach.Attach.{Attach};
ghost use Rattle.amqp_session_performatives.specs.declared.session_frame.SessionFrameBody.TheVariants as body;
ghost use Rattle.amqp_link_unsettled.specs.Listing.{FitsFrame};
ghost use Rattle.amqp_endpoint_model.specs.State.{fits, frame_of};

/// An Attach whose text and the 8 bytes before it are no more than a limit fits it as a frame of any channel, where the
/// limit is a number that a peer's Open may say (part 2, 2.3.1, 2.7.1, 2.7.3).
pub fn an_attach_fits()
    ensures { (limit channel : ℕ) (attach : Attach) → limit < 2 ^ 32 → FitsFrame limit attach →
        fits limit (frame_of (record { channel = channel; body = body.Attach attach })) ≡ true }
{}

//! The two ends of a link (part 2, 2.6).
ghost use Rattle.std.specs.Prelude.{◌≡◌};
ghost use Rattle.amqp_session_types.specs.declared.modes.Role.TheVariants.{Sender, Receiver};

use amqp_session_types::Role;

/// A credit that suits most receivers. Nothing here grants it by itself.
pub const DEFAULT_CREDIT: u32 = 200;

/// The end that sends.
#[derive(Debug, Clone, Copy, PartialEq, Eq)]
pub struct SenderMarker;

/// The end that receives.
#[derive(Debug, Clone, Copy, PartialEq, Eq)]
pub struct ReceiverMarker;

/// What marks an end of a link.
pub trait IntoRole {
    ghost use Rattle.amqp_session_types.specs.declared.modes.Role.{Role};

    /// Which end it is.
    ghost role: { Role };

    /// Which end it is (part 2, 2.8.1).
    fn into_role() -> Role
        ensures { result ≡ role };
}

impl IntoRole for SenderMarker {
    ghost role = { Sender };

    fn into_role() -> Role {
        Role::Sender
    }
}

impl IntoRole for ReceiverMarker {
    ghost role = { Receiver };

    fn into_role() -> Role {
        Role::Receiver
    }
}

//! The conditions that an endpoint closes its connection with.
ghost use Rattle.std.specs.Prelude.{◌≡◌};
ghost use Rattle.amqp_endpoint_model.specs.Step.{condition_of};
ghost use Rattle.amqp_endpoint_core.specs.Reading.{condition_text, told_by};

use amqp_endpoint_model::EndpointError;
use amqp_session_frames::Error as FrameError;
use amqp_session_types::ConnectionError;

/// Why this end closes a connection (part 2, 2.8.15, 2.8.16).
#[derive(Clone, Copy, Drop)]
pub(crate) enum Condition {
    FramingError,
    DecodeError,
    NotAllowed,
    NotFound,
}

impl Condition {
    /// What the own Close says of a fault. None where it is broken off without one.
    pub(crate) fn of(fault: &EndpointError) -> Option<Condition>
        ensures { told_by result ≡ condition_of fault.now }
    {
        match fault {
            EndpointError::SizeUnder8 => Some(Condition::FramingError),
            EndpointError::SizeOverLimit => Some(Condition::FramingError),
            EndpointError::PeerLimitUnder512 => Some(Condition::FramingError),
            EndpointError::Frame(FrameError::DecodeError) => Some(Condition::DecodeError),
            EndpointError::Frame(_) => Some(Condition::NotAllowed),
            EndpointError::Connection(ConnectionError::NotFound) => Some(Condition::NotFound),
            EndpointError::Connection(_) => Some(Condition::NotAllowed),
            EndpointError::Session(_) => Some(Condition::NotAllowed),
            _ => None,
        }
    }

    /// Its name on the wire.
    pub(crate) fn as_str(self) -> &'static str
        ensures { result.now ≡ condition_text self }
    {
        match self {
            Condition::FramingError => "amqp:connection:framing-error",
            Condition::DecodeError => "amqp:decode-error",
            Condition::NotAllowed => "amqp:not-allowed",
            Condition::NotFound => "amqp:not-found",
        }
    }
}

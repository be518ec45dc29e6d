//! Why a caller's loop stops before its end.
ghost use Rattle.std.specs.Prelude.{◌≡◌};
ghost use Rattle.amqp_endpoint_core.specs.declared.error.CallerError.TheVariants.{Endpoint, Stream};
ghost use Rattle.amqp_endpoint_model.specs.declared.error.EndpointError.TheVariants.{Memory};

use amqp_endpoint_model::EndpointError;
use std::alloc::{AllocError, AllocFailed};
use std::io;
use thiserror::Error;

/// Why a caller's loop stops before its end.
#[derive(Debug, Drop, Error)]
pub enum CallerError {
    /// The stream can't be read or written.
    #[error("stream: {0}")]
    Stream(io::Error),
    /// A call of the endpoint was refused.
    #[error("endpoint: {0}")]
    Endpoint(EndpointError),
}

impl From<io::Error> for CallerError {
    ghost from_gives = { λ refusal e. e ≡ Stream refusal };

    fn from(refusal: io::Error) -> CallerError {
        CallerError::Stream(refusal)
    }
}

impl From<EndpointError> for CallerError {
    ghost from_gives = { λ refusal e. e ≡ Endpoint refusal };

    fn from(refusal: EndpointError) -> CallerError {
        CallerError::Endpoint(refusal)
    }
}

/// Want of memory is the endpoint's own refusal.
impl From<AllocError> for CallerError {
    ghost from_gives = { λ _ e. e ≡ Endpoint Memory };

    fn from(_e: AllocError) -> CallerError {
        CallerError::Endpoint(EndpointError::Memory)
    }
}

/// Want of memory is the endpoint's own refusal.
impl<T: Drop> From<AllocFailed<T>> for CallerError {
    ghost from_gives = { λ _ e. e ≡ Endpoint Memory };

    fn from(_e: AllocFailed<T>) -> CallerError {
        EndpointError::Memory.into()
    }
}

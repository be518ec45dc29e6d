//! Texts of errors.
use amqp_endpoint_model::EndpointError;
use amqp_link_types::{LinkError, LinkStateError, ReceiverAttachError};
use amqp_session_frames::Error as FrameError;
use amqp_session_types::{ConnectionError, SessionError, definitions};
use serde_amqp_types::{Symbol, Text};
use std::alloc::{AllocError, Global};

/// The peer ended a session, since it has no such queue.
fn ended(alloc: Global) -> Result<EndpointError, AllocError> {
    let error = definitions::Error {
        condition: Symbol::from_str(alloc, "amqp:not-found")?,
        description: Some(Text::from_str(alloc, "no queue")?),
        info: None,
    };
    Ok(EndpointError::Session(SessionError::RemoteEndedWithError(error)))
}

#[test]
fn errors_say_the_reason_within(rt: HostRuntime) -> Result<(), AllocError> {
    let alloc = rt.alloc();
    for (error, text) in [
        (EndpointError::Memory, "out of memory"),
        (
            EndpointError::LimitUnder512,
            "the frame limit is under 512 bytes",
        ),
        (EndpointError::IllegalState, "illegal state"),
        (
            EndpointError::Frame(FrameError::DecodeError),
            "frame: the bytes are no frame",
        ),
        (
            EndpointError::Connection(ConnectionError::IllegalState),
            "connection: illegal state of the connection",
        ),
        (
            ended(alloc)?,
            "session: the peer ended the session with an error: amqp:not-found: no queue",
        ),
        (
            EndpointError::Link(LinkError::LinkState(LinkStateError::IllegalState)),
            "link: the state of the link does not allow it: illegal state of the link",
        ),
        (
            EndpointError::Link(LinkError::ReceiverAttach(
                ReceiverAttachError::IncomingSourceIsNone,
            )),
            "link: the receiver is not attached: the peer's attach has no source",
        ),
    ] {
        assert_eq!(rt; format!(in alloc; "{error}")?.as_str(), text);
    }
    Ok(())
}

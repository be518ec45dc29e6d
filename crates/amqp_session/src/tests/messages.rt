//! What refusals say.
use amqp_session_types::{
    BeginError, ConnectionError, ConnectionStopReason, OpenError, SessionError, SessionStopReason,
    TryCloseError, TryEndError,
};
use std::alloc::{AllocError, Global};
use std::fmt::Display;
use std::test::Fail;

/// Whether the value is printed so.
fn is_said<T: Display + Drop>(alloc: Global, value: T, text: &str) -> Result<bool, Fail> {
    Ok(format!(in alloc; "{value}")?.as_str() == text)
}

/// Whether want of memory is this error.
fn is_memory<E: From<AllocError> + Display + Drop>(alloc: Global) -> Result<bool, Fail> {
    is_said(alloc, E::from(AllocError), "out of memory")
}

#[test]
fn want_of_memory(rt: HostRuntime) -> Result<(), Fail> {
    let alloc = rt.alloc();
    assert!(rt; is_memory::<OpenError>(alloc)?);
    assert!(rt; is_memory::<ConnectionError>(alloc)?);
    assert!(rt; is_memory::<BeginError>(alloc)?);
    assert!(rt; is_memory::<SessionError>(alloc)?);
    Ok(())
}

#[test]
fn stop_reasons(rt: HostRuntime) -> Result<(), Fail> {
    let stopped = SessionStopReason::from(ConnectionStopReason::Closed);
    assert!(rt;
        is_said(
            rt.alloc(),
            stopped,
            "the connection has stopped: the connection was closed"
        )?
    );
    Ok(())
}

#[test]
fn not_ended_yet(rt: HostRuntime) -> Result<(), Fail> {
    let alloc = rt.alloc();
    let closed = TryCloseError::AlreadyClosed;
    assert!(rt; is_said(alloc, closed, "the connection is already closed")?);
    let ended = TryEndError::RemoteEndNotReceived;
    assert!(rt; is_said(alloc, ended, "the peer's end has not come")?);
    Ok(())
}

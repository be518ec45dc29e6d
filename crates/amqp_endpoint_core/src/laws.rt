//! Laws of an endpoint without sessions. A function here does nothing: its contract is the law.
ghost use Rattle.amqp_endpoint_model.specs.Relay.{Decides};
ghost use Rattle.amqp_endpoint_core.specs.NoSessions.{no_sessions};

/// Where there are no sessions, what they were decides what a frame and a call do. So it doesn't matter how the bytes
/// of an endpoint without sessions are cut: the law of recut histories holds of it.
pub fn no_sessions_decide()
    ensures { Decides no_sessions }
{}

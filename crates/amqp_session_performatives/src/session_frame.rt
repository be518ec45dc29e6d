//! What a session and its connection hand each other (part 2, 2.5).
ghost use Rattle.std.specs.Prelude.{◌≡◌};

use crate::{Attach, Begin, Detach, Disposition, End, Flow, Transfer};
use amqp_session_types::Boxed;
use bytes::Bytes;

/// What a frame of a session says.
#[derive(Debug, PartialEq, Drop)]
pub enum SessionFrameBody {
    /// The session begins.
    Begin(Begin),
    /// A link is attached.
    Attach(Boxed<Attach>),
    /// The state of the session, and of one of its links where there is a handle.
    Flow(Flow),
    /// A delivery or a part of it.
    Transfer {
        /// What is said of the delivery.
        performative: Transfer,
        /// The bytes of the message, or of the part of it.
        payload: Bytes,
    },
    /// The states of deliveries.
    Disposition(Disposition),
    /// A link is detached.
    Detach(Detach),
    /// The session ends.
    End(End),
}

/// A frame of a session, on its channel (part 2, 2.3.1).
#[derive(Debug, PartialEq, Drop)]
pub struct SessionFrame {
    /// The channel.
    pub channel: u16,
    /// What it says.
    pub body: SessionFrameBody,
}

impl SessionFrame {
    /// The frame on this channel that says this.
    pub fn new<C: Into<u16>>(channel: C, body: SessionFrameBody) -> SessionFrame
        ensures channel { C.converts channel result.channel }
        ensures body { result.body ≡ body }
    {
        SessionFrame {
            channel: channel.into(),
            body,
        }
    }
}

/// What a session sends in one step.
#[derive(Debug, PartialEq, Drop)]
pub enum SessionOutgoingItem {
    /// One frame.
    SingleFrame(SessionFrame),
    /// Frames, the first of them first.
    MultipleFrames(Vec<SessionFrame>),
}

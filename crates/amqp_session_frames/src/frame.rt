//! A frame and its body.
ghost use Rattle.std.specs.Prelude.{◌≡◌, Some};
ghost use Rattle.amqp_session_frames.specs.Text.{IsBehind, payload_of, performative_of};
ghost use Rattle.amqp_session_frames.specs.declared.frame.FrameBody.TheVariants.{Empty};

use amqp_session_performatives::{
    Attach, Begin, Close, Detach, Disposition, End, Flow, Open, Performative, Transfer,
};
use amqp_session_types::Boxed;
use bytes::Bytes;

/// A frame (part 2, 2.3).
#[derive(Debug, Drop)]
pub struct Frame {
    /// The channel that it is sent on. A frame of the connection may have any.
    pub channel: u16,
    /// What it says.
    pub body: FrameBody,
}

impl Frame {
    /// A frame that says this on the channel.
    pub fn new(channel: u16, body: FrameBody) -> Self
        ensures { result ≡ record { channel = channel; body = body } }
    {
        Frame { channel, body }
    }

    /// A frame that says nothing, on channel 0 (part 2, 2.4.5).
    pub fn empty() -> Self
        ensures { result ≡ record { channel = 0; body = Empty } }
    {
        Frame {
            channel: 0,
            body: FrameBody::Empty,
        }
    }

    /// The channel that it is sent on.
    pub fn channel(&self) -> u16
        ensures { result ≡ self.now.channel }
    {
        self.channel
    }

    /// What it says.
    pub fn body(&self) -> &FrameBody
        ensures { result.now ≡ self.now.body }
    {
        &self.body
    }
}

/// What a frame says: one performative, or nothing (part 2, 2.3.2, 2.4.5).
#[derive(Debug, Drop)]
pub enum FrameBody {
    /// Nothing. It shows that its sender is there.
    Empty,
    /// Begins the connection.
    Open(Open),
    /// Begins a session.
    Begin(Begin),
    /// Attaches a link to a session.
    Attach(Boxed<Attach>),
    /// Tells of the windows of a session, and of the credit of a link.
    Flow(Flow),
    /// Carries a message, or a part of one.
    Transfer {
        /// What it says of the message.
        performative: Transfer,
        /// The bytes that it carries, shared with those that they came in.
        payload: Bytes,
    },
    /// Tells what became of messages.
    Disposition(Disposition),
    /// Detaches a link.
    Detach(Detach),
    /// Ends a session.
    End(End),
    /// Ends the connection.
    Close(Close),
}

impl FrameBody {
    /// The body with this performative, and with these bytes behind it: the payload of a transfer.
    pub(crate) fn of(performative: Performative, payload: Bytes) -> Self
        ensures performative { performative_of result ≡ Some performative }
        ensures payload { IsBehind result payload }
    {
        match performative {
            Performative::Open(open) => FrameBody::Open(open),
            Performative::Begin(begin) => FrameBody::Begin(begin),
            Performative::Attach(attach) => FrameBody::Attach(attach),
            Performative::Flow(flow) => FrameBody::Flow(flow),
            Performative::Transfer(performative) => FrameBody::Transfer {
                performative,
                payload,
            },
            Performative::Disposition(disposition) => FrameBody::Disposition(disposition),
            Performative::Detach(detach) => FrameBody::Detach(detach),
            Performative::End(end) => FrameBody::End(end),
            Performative::Close(close) => FrameBody::Close(close),
        }
    }
}

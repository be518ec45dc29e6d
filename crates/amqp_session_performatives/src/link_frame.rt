//! What a session and its links hand each other (part 2, 2.6).
use crate::link_flow::LinkFlow;
use crate::{Attach, Detach, Disposition, Transfer};
use amqp_session_types::{Boxed, InputHandle};
use bytes::Bytes;

/// A transfer with its payload, on the link that the peer gave this handle (part 2, 2.7.5).
#[derive(Debug, PartialEq)]
pub struct LinkTransfer {
    /// The handle that the peer gave the link.
    pub input_handle: InputHandle,
    /// What is said of the delivery.
    pub performative: Transfer,
    /// The bytes of the message, or of the part of it.
    pub payload: Bytes,
}

impl Drop for LinkTransfer {
    fn drop(self) {
        let LinkTransfer {
            input_handle: _,
            performative: _,
            payload: _,
        } = self;
    }
}

/// A frame of a link (part 2, 2.6).
#[derive(Debug, PartialEq)]
pub enum LinkFrame {
    /// The link is attached.
    Attach(Boxed<Attach>),
    /// The state of the link.
    Flow(LinkFlow),
    /// A transfer that came from the peer. Whether it is the first of its delivery is not said here, since a
    /// continuation may repeat the delivery's number and tag.
    RemoteTransfer(LinkTransfer),
    /// The first transfer of a delivery that is sent. The session gives the delivery its number.
    FirstTransfer(LinkTransfer),
    /// A continuation of a delivery that is sent.
    TransferContinuation(LinkTransfer),
    /// The states of deliveries.
    Disposition(Disposition),
    /// The link is detached.
    Detach(Detach),
}

impl Drop for LinkFrame {
    fn drop(self) {
        match self {
            LinkFrame::Attach(_) => {}
            LinkFrame::Flow(_) => {}
            LinkFrame::RemoteTransfer(_) => {}
            LinkFrame::FirstTransfer(_) => {}
            LinkFrame::TransferContinuation(_) => {}
            LinkFrame::Disposition(_) => {}
            LinkFrame::Detach(_) => {}
        }
    }
}

//! The calls of an endpoint.
use crate::LinkSettings;
use amqp_session_states::DeliveryState;
use amqp_session_types::{Boxed, IncomingChannel};
use bytes::Bytes;
use serde_amqp_types::Array;

/// A message as it is sent: the bytes of its sections, which a link cuts into transfers (part 2, 2.6.14).
#[derive(Debug, Drop)]
pub struct Sending {
    /// Its bytes. They are shared with the transfers, not copied.
    pub payload: Bytes,
    /// How it is encoded (part 2, 2.8.11).
    pub message_format: u32,
    /// Whether it is sent settled, where its link leaves that open (part 2, 2.8.2). Unsettled where this is absent.
    pub settled: Option<bool>,
}

/// What messages are disposed of by (part 2, 2.7.6).
#[derive(Debug, Drop)]
pub struct Disposal {
    /// The state that their sender is told.
    pub state: DeliveryState,
    /// Whether they are settled with that; where this is absent as their transfers say, or else their link (part 2,
    /// 2.8.3).
    pub settled: Option<bool>,
}

/// A call of an endpoint.
#[derive(Debug)]
pub enum Call {
    /// `connect`
    Connect,
    /// `feed` with these bytes
    Feed(Bytes),
    /// `pull`
    Pull,
    /// `queued`
    Queued,
    /// `is_idle`
    IsIdle,
    /// `heartbeat`
    Heartbeat,
    /// `break_off`
    BreakOff,
    /// `close`
    Close,
    /// `is_closed`
    IsClosed,
    /// `try_close`
    TryClose,
    /// `begin`
    Begin,
    /// `accept_begin` on this channel of the peer
    AcceptBegin(IncomingChannel),
    /// `end` of the session with this number
    End(u64),
    /// `is_ended` of the session with this number
    IsEnded(u64),
    /// `try_end` of the session with this number
    TryEnd(u64),
    /// `attach_sender` in the session with this number
    AttachSender(u64, Boxed<LinkSettings>),
    /// `attach_receiver` in the session with this number
    AttachReceiver(u64, Boxed<LinkSettings>),
    /// `resume` of the link with the first number, in the session with the second
    Resume(u64, u64),
    /// `detach` of the link with this number
    Detach(u64),
    /// `close_link` of the link with this number
    CloseLink(u64),
    /// `grant` to the link with this number, so many messages
    Grant(u64, u32),
    /// `drain` of the link with this number
    Drain(u64),
    /// `credit` of the link with this number
    Credit(u64),
    /// `held_back` of the session with this number
    HeldBack(u64),
    /// `waiting` of the session with this number
    Waiting(u64),
    /// `send` by the link with this number
    Send(u64, Sending),
    /// `dispose` of the message with the second number, of the link with the first
    Dispose(u64, u64, Disposal),
    /// `dispose_all` of the messages with these numbers, of the link with the first
    DisposeAll(u64, Array<u64>, Disposal),
}

impl Drop for Call {
    fn drop(self) {
        match self {
            Call::Connect => {}
            Call::Feed(_) => {}
            Call::Pull => {}
            Call::Queued => {}
            Call::IsIdle => {}
            Call::Heartbeat => {}
            Call::BreakOff => {}
            Call::Close => {}
            Call::IsClosed => {}
            Call::TryClose => {}
            Call::Begin => {}
            Call::AcceptBegin(_) => {}
            Call::End(_) => {}
            Call::IsEnded(_) => {}
            Call::TryEnd(_) => {}
            Call::AttachSender(_, _) => {}
            Call::AttachReceiver(_, _) => {}
            Call::Resume(_, _) => {}
            Call::Detach(_) => {}
            Call::CloseLink(_) => {}
            Call::Grant(_, _) => {}
            Call::Drain(_) => {}
            Call::Credit(_) => {}
            Call::HeldBack(_) => {}
            Call::Waiting(_) => {}
            Call::Send(_, _) => {}
            Call::Dispose(_, _, _) => {}
            Call::DisposeAll(_, _, _) => {}
        }
    }
}

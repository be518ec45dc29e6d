//! What an endpoint tells of its peer.
use crate::error::EndpointError;
use amqp_link_base::AttachExchange;
use amqp_link_message::{Delivery, Raw};
use amqp_link_types::SendError;
use amqp_session_performatives::Attach;
use amqp_session_states::Outcome as DeliveryOutcome;
use amqp_session_types::{Boxed, DeliveryTag, IncomingChannel, definitions};
use serde_amqp_types::Text;

/// What the peer's Open says (part 2, 2.7.1).
#[derive(Debug, Drop)]
pub struct Opened {
    /// The peer's container-id.
    pub container_id: Text,
    /// The longest frame that the peer takes, in bytes.
    pub max_frame_size: u32,
    /// The highest channel number that the peer takes.
    pub channel_max: u16,
    /// The peer's idle-time-out, in milliseconds.
    pub idle_time_out: Option<u32>,
}

/// What the peer's Close says (part 2, 2.7.9).
#[derive(Debug, Drop)]
pub struct Closed {
    /// Why the peer closes, where it says so.
    pub error: Option<definitions::Error>,
}

/// A session that the peer asks for: its Begin names no channel (part 2, 2.5.1, 2.7.2).
#[derive(Debug, Drop)]
pub struct SessionAsked {
    /// The number that the session has from now on.
    pub session: u64,
    /// The peer's channel, on which `accept_begin` accepts it.
    pub channel: IncomingChannel,
}

/// A session that began here and that the peer's Begin answered (part 2, 2.5.1).
#[derive(Debug, Drop)]
pub struct Begun {
    /// The session's number.
    pub session: u64,
    /// The peer's channel.
    pub channel: IncomingChannel,
}

/// A link that the peer asks for: no link here waits for its Attach (part 2, 2.6.3).
#[derive(Debug, Drop)]
pub struct LinkAsked {
    /// The number of the session in which it is asked for.
    pub session: u64,
    /// The peer's Attach (part 2, 2.7.3).
    pub attach: Boxed<Attach>,
}

/// A link that both ends attached (part 2, 2.6.3).
#[derive(Debug, Drop)]
pub struct Attached {
    /// The link's number.
    pub link: u64,
    /// What is to be done for the deliveries that are unsettled (part 2, 2.6.13).
    pub exchange: AttachExchange,
}

/// A message that came whole (part 2, 2.6.12, 2.6.14).
#[derive(Debug, Drop)]
pub struct Message {
    /// The number of the link by which it came.
    pub link: u64,
    /// The number that the message has from now on, by which it is disposed of.
    pub message: u64,
    /// The message with its delivery. Its bytes are shared with the input where it came in one transfer.
    pub delivery: Delivery<Raw>,
    /// Whether its sender has settled it: it isn't to be disposed of then (part 2, 2.6.12).
    pub settled: bool,
}

/// What became of a message that was sent (part 2, 2.6.12; part 3, 3.4).
#[derive(Debug, Drop)]
pub struct Outcome {
    /// The number of the link by which it was sent.
    pub link: u64,
    /// The tag of its delivery, as `send` answered it.
    pub tag: DeliveryTag,
    /// Its outcome, or why it has none.
    pub result: Result<DeliveryOutcome, SendError>,
}

/// A link that the peer detached (part 2, 2.6.5, 2.6.6, 2.7.7). It is answered by the own Detach, where that hadn't
/// gone.
#[derive(Debug, Drop)]
pub struct Detached {
    /// The link's number.
    pub link: u64,
    /// Whether either end closed it: no link has the number any more then.
    pub closed: bool,
    /// Why the peer detaches it, where it says so.
    pub error: Option<definitions::Error>,
}

/// A session that the peer ended (part 2, 2.5.2, 2.7.8). It is answered by the own End, where that hadn't gone and the
/// session had begun.
#[derive(Debug, Drop)]
pub struct Ended {
    /// The session's number.
    pub session: u64,
    /// Why the peer ends it, where it says so.
    pub error: Option<definitions::Error>,
}

/// A session, or a link of it, that was ended here as the peer broke its rules (part 2, 2.5.2, 2.6.5).
#[derive(Debug, Drop)]
pub struct Refused {
    /// The session's number.
    pub session: u64,
    /// The link's number, where the link alone was ended.
    pub link: Option<u64>,
    /// What was refused.
    pub error: EndpointError,
}

/// What a feed found in the peer's frames.
#[derive(Debug, Drop)]
pub enum Event {
    /// The peer's Open came.
    Opened(Opened),
    /// The peer asks for a session.
    SessionAsked(SessionAsked),
    /// The peer answered a session that began here.
    Begun(Begun),
    /// The peer asks for a link.
    LinkAsked(LinkAsked),
    /// A link is attached at both ends.
    Attached(Attached),
    /// A message came whole.
    Message(Message),
    /// A message that was sent came to its end.
    Outcome(Outcome),
    /// The peer detached a link.
    Detached(Detached),
    /// The peer ended a session.
    Ended(Ended),
    /// The peer broke a rule of a session or a link, which ended here.
    Refused(Refused),
    /// The peer's Close came. It is answered by the own one, where that hadn't gone.
    Closed(Closed),
}

//! What a session tells of itself.
ghost use Rattle.std.specs.Prelude.{◌≡◌, Some, None};
ghost use Rattle.amqp_session_core.specs.Frames.{frame_of, session_flow, link_flow};

use amqp_session_performatives::{Flow, LinkFlow, SessionFrame, SessionFrameBody};
use amqp_session_types::OutgoingChannel;

/// The outgoing-window that a session tells of itself (part 2, 2.5.6).
pub const OUTGOING_WINDOW: u32 = 2048;

/// What a session tells of itself in its frames (part 2, 2.5.6), but for the number of its next transfer.
#[derive(Debug, Clone, Copy, PartialEq, Eq)]
pub struct SessionFields {
    /// The channel that it sends on.
    pub channel: OutgoingChannel,
    /// The number of the peer's next transfer, once its Begin came.
    pub next_incoming_id: Option<u32>,
    /// How many transfers it takes, as each of its Flows tells.
    pub incoming_window: u32,
}

impl SessionFields {
    /// A frame of the session.
    #[inline(always)]
    pub(crate) fn frame(self, body: SessionFrameBody) -> SessionFrame
        ensures { result ≡ frame_of self body }
    {
        SessionFrame {
            channel: self.channel.0,
            body,
        }
    }

    /// A Flow that tells the session's state, where this is the number of its next transfer (part 2, 2.7.4).
    pub(crate) fn session_flow(self, next_outgoing_id: u32) -> SessionFrame
        ensures { result ≡ session_flow self next_outgoing_id }
    {
        self.frame(SessionFrameBody::Flow(Flow {
            next_incoming_id: self.next_incoming_id,
            incoming_window: self.incoming_window,
            next_outgoing_id,
            outgoing_window: OUTGOING_WINDOW,
            handle: None,
            delivery_count: None,
            link_credit: None,
            available: None,
            drain: false,
            echo: false,
            properties: None,
        }))
    }

    /// A Flow that tells the session's state and a link's, where this is the number of the session's next transfer.
    pub(crate) fn link_flow(self, next_outgoing_id: u32, link: LinkFlow) -> SessionFrame
        ensures { result ≡ link_flow self next_outgoing_id link }
    {
        self.frame(SessionFrameBody::Flow(Flow {
            next_incoming_id: self.next_incoming_id,
            incoming_window: self.incoming_window,
            next_outgoing_id,
            outgoing_window: OUTGOING_WINDOW,
            handle: Some(link.handle),
            delivery_count: link.delivery_count,
            link_credit: link.link_credit,
            available: link.available,
            drain: link.drain,
            echo: link.echo,
            properties: link.properties,
        }))
    }
}

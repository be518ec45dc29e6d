//! The states of a link (part 2, 2.6.3 to 2.6.6).
ghost use Rattle.std.specs.Prelude.{◌≡◌};
ghost use Rattle.amqp_link_base.specs.State.{after_send_attach, after_incoming_attach, after_send_detach};
ghost use Rattle.amqp_link_base.specs.State.{after_detach_reply, after_remote_detach, after_break, is_attached};
ghost use Rattle.amqp_link_base.specs.State.{is_incomplete};

/// The states of a link's end.
#[derive(Debug, Clone, Copy, PartialEq, Eq)]
pub enum LinkState {
    /// Neither Attach was sent or received.
    Unattached,
    /// The own Attach was sent.
    AttachSent,
    /// The own Attach was sent, and lists only a part of the unsettled deliveries (part 2, 2.7.3).
    IncompleteAttachSent,
    /// The peer's Attach was received.
    AttachReceived,
    /// The peer's Attach was received, and lists only a part of the unsettled deliveries (part 2, 2.7.3).
    IncompleteAttachReceived,
    /// Both Attach were exchanged.
    Attached,
    /// Both Attach were exchanged, and one of them lists only a part of the unsettled deliveries (part 2, 2.7.3).
    IncompleteAttachExchanged,
    /// The own Detach was sent, which doesn't close the link.
    DetachSent,
    /// Both Detach were exchanged. The link may be attached again (part 2, 2.6.5).
    Detached,
    /// The own Detach was sent, which closes the link.
    CloseSent,
    /// The link is closed (part 2, 2.6.6).
    Closed,
}

impl LinkState {
    /// The state behind an Attach that is sent in this one, which lists all unsettled deliveries or only a part of them;
    /// None where none may be sent (part 2, 2.6.3).
    pub fn send_attach(self, incomplete: bool) -> Option<LinkState>
        ensures { result ≡ after_send_attach self incomplete }
    {
        match (self, incomplete) {
            (LinkState::Unattached | LinkState::Detached | LinkState::DetachSent, false) => {
                Some(LinkState::AttachSent)
            }
            (LinkState::Unattached | LinkState::Detached | LinkState::DetachSent, true) => {
                Some(LinkState::IncompleteAttachSent)
            }
            (LinkState::AttachReceived, false) => Some(LinkState::Attached),
            (LinkState::AttachReceived, true) => Some(LinkState::IncompleteAttachExchanged),
            (LinkState::IncompleteAttachReceived, _) => Some(LinkState::IncompleteAttachExchanged),
            _ => None,
        }
    }

    /// The state behind the peer's Attach that comes in this one, which lists all unsettled deliveries or only a part of
    /// them; None where none may come (part 2, 2.6.3).
    pub fn on_incoming_attach(self, incomplete: bool) -> Option<LinkState>
        ensures { result ≡ after_incoming_attach self incomplete }
    {
        match (self, incomplete) {
            (LinkState::AttachSent, false) => Some(LinkState::Attached),
            (LinkState::AttachSent, true) => Some(LinkState::IncompleteAttachExchanged),
            (LinkState::IncompleteAttachSent, _) => Some(LinkState::IncompleteAttachExchanged),
            (LinkState::Unattached | LinkState::Detached, false) => Some(LinkState::AttachReceived),
            (LinkState::Unattached | LinkState::Detached, true) => {
                Some(LinkState::IncompleteAttachReceived)
            }
            _ => None,
        }
    }

    /// The state behind a Detach that is sent in this one, which closes the link or doesn't; None where none may be sent
    /// (part 2, 2.6.5 and 2.6.6).
    pub fn send_detach(self, closed: bool) -> Option<LinkState>
        ensures { result ≡ after_send_detach self closed }
    {
        match (self, closed) {
            (LinkState::Attached | LinkState::IncompleteAttachExchanged, false) => {
                Some(LinkState::DetachSent)
            }
            (LinkState::Attached | LinkState::IncompleteAttachExchanged, true) => {
                Some(LinkState::CloseSent)
            }
            _ => None,
        }
    }

    /// The state behind the peer's Detach that answers the own one, and closes the link or doesn't as that did; None
    /// where it answers none (part 2, 2.6.5 and 2.6.6).
    pub fn on_detach_reply(self, closed: bool) -> Option<LinkState>
        ensures { result ≡ after_detach_reply self closed }
    {
        match (self, closed) {
            (LinkState::DetachSent, false) => Some(LinkState::Detached),
            (LinkState::CloseSent, true) => Some(LinkState::Closed),
            _ => None,
        }
    }

    /// The state in which the peer's Detach leaves the link, which closes the link or doesn't, also where it crosses the
    /// own one: closed where either closes it. None where the link is detached already (part 2, 2.6.5 and 2.6.6).
    pub fn apply_remote_detach(self, closed: bool) -> Option<LinkState>
        ensures { result ≡ after_remote_detach self closed }
    {
        match (self, closed) {
            (LinkState::Unattached | LinkState::Detached | LinkState::Closed, _) => None,
            (LinkState::CloseSent, _) | (_, true) => Some(LinkState::Closed),
            _ => Some(LinkState::Detached),
        }
    }

    /// The state in which a loss of the connection, or the end of the session, leaves the link: detached, and closed
    /// where it was about to be (part 2, 2.6.5).
    pub fn after_break(self) -> LinkState
        ensures { result ≡ after_break self }
    {
        match self {
            LinkState::Unattached => LinkState::Unattached,
            LinkState::CloseSent | LinkState::Closed => LinkState::Closed,
            _ => LinkState::Detached,
        }
    }

    /// Whether both Attach were exchanged and neither Detach was.
    pub fn is_attached(self) -> bool
        ensures { result ≡ is_attached self }
    {
        matches!(
            self,
            LinkState::Attached | LinkState::IncompleteAttachExchanged
        )
    }

    /// Whether an Attach was sent or received that lists only a part of the unsettled deliveries (part 2, 2.7.3).
    pub fn is_incomplete(self) -> bool
        ensures { result ≡ is_incomplete self }
    {
        matches!(
            self,
            LinkState::IncompleteAttachSent
                | LinkState::IncompleteAttachReceived
                | LinkState::IncompleteAttachExchanged
        )
    }
}

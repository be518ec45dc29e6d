//! Why a link of an endpoint doesn't attach.
ghost use Rattle.std.specs.Prelude.{◌≡◌};
ghost use Rattle.amqp_endpoint_attached.specs.Refusals.{refusal_of};
ghost use Rattle.amqp_endpoint_attached.specs.declared.refusal.AttachRefusal.TheVariants.{Memory};

use amqp_endpoint_links::Numbered;
use amqp_link::LinkEnd;
use amqp_link_types::LinkError;
use amqp_session_core::Unallocated;
use amqp_session_types::SessionError;
use std::alloc::AllocError;
use thiserror::Error;

/// Why a link doesn't attach in a session. The session is as before.
#[derive(Debug, Drop, Error)]
pub enum AttachRefusal {
    /// No handle is offered that the peer allows (part 2, 2.7.2).
    #[error("no handle is left")]
    HandleMaxReached,
    /// A link of the session has the handle of the asked link (part 2, 2.8.17). There is none in a session whose links
    /// came by frames and by calls of this crate.
    #[error("the handle is in use")]
    HandleInUse,
    /// A test of the link refuses the Attach of the asked link (part 2, 2.6.3).
    #[error("the link refuses the attach")]
    Link(LinkError),
    /// The own Attach fits no frame of the peer's limit, even without its unsettled deliveries.
    #[error("the frame is too large")]
    FrameTooLarge,
    /// There was no memory.
    #[error("out of memory")]
    Memory,
}

impl From<AllocError> for AttachRefusal {
    ghost from_gives = { λ _ e. e ≡ Memory };

    fn from(_error: AllocError) -> Self {
        AttachRefusal::Memory
    }
}

/// The session's refusal of a handle.
pub(crate) fn refusal_of(error: SessionError) -> AttachRefusal
    ensures { result ≡ refusal_of error }
{
    match error {
        SessionError::HandleMaxReached => AttachRefusal::HandleMaxReached,
        SessionError::HandleInUse => AttachRefusal::HandleInUse,
        _ => AttachRefusal::Memory,
    }
}

/// A link that doesn't attach, and why.
#[derive(Drop)]
pub struct Unattached {
    /// Why it doesn't.
    pub refusal: AttachRefusal,
    /// The link, as it was.
    pub link: LinkEnd,
}

/// A link that got no handle, and why.
pub(crate) fn handed_back(refused: Unallocated<Numbered<LinkEnd>>) -> Unattached
    ensures { result ≡ record { refusal = refusal_of refused.error; link = refused.link.link } }
{
    let Unallocated { error, link } = refused;
    let Numbered { number: _, link } = link;
    Unattached {
        refusal: refusal_of(error),
        link,
    }
}

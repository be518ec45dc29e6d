//! Links that were never attached.
ghost use Rattle.std.specs.Prelude.{◌≡◌, IfOk};
ghost use Rattle.amqp_endpoint_attached.specs.Links.{base_by, receiver_by, sender_by, terms_by};

use amqp_endpoint_model::LinkSettings;
use amqp_link::LinkEnd;
use amqp_link_base::{LinkBase, Terms, both};
use amqp_link_receiver::ReceiverLink;
use amqp_link_sender::SenderLink;
use amqp_session_types::Boxed;
use std::alloc::{AllocError, Global};

/// A sending link with these settings that was never attached. It is refused where there is no memory.
pub fn sender(alloc: Global, settings: &LinkSettings) -> Result<LinkEnd, AllocError>
    ensures { IfOk result (λ link. link ≡ sender_by settings.now) }
{
    let base = base(alloc, settings)?;
    let count = settings.initial_delivery_count;
    Ok(LinkEnd::new_sender(SenderLink::new(alloc, base, count, None)))
}

/// A receiving link with these settings that was never attached. It is refused where there is no memory.
pub fn receiver(alloc: Global, settings: &LinkSettings) -> Result<LinkEnd, AllocError>
    ensures { IfOk result (λ link. link ≡ receiver_by settings.now) }
{
    let base = base(alloc, settings)?;
    let count = settings.initial_delivery_count;
    Ok(LinkEnd::new_receiver(ReceiverLink::new(alloc, base, count, None)))
}

/// What both ends keep of a link with these settings.
fn base(alloc: Global, settings: &LinkSettings) -> Result<LinkBase, AllocError>
    ensures { IfOk result (λ base. base ≡ base_by settings.now) }
{
    let (name, terms) = both(settings.name.clone(), terms(alloc, settings))?;
    Ok(LinkBase::new(name, terms, None))
}

/// The terms of a link with these settings.
fn terms(alloc: Global, settings: &LinkSettings) -> Result<Boxed<Terms>, AllocError>
    ensures { IfOk result (λ terms. terms ≡ terms_by settings.now) }
{
    let (source, target) = both(settings.source.clone(), settings.target.clone())?;
    Boxed::new(
        alloc,
        Terms {
            source,
            target,
            snd_settle_mode: settings.snd_settle_mode,
            rcv_settle_mode: settings.rcv_settle_mode,
            max_message_size: settings.max_message_size,
        },
    )
}

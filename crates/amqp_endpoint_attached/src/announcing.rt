//! The own Attach of a link (part 2, 2.6.3, 2.7.3).
ghost use Rattle.std.specs.Prelude.{◌≡◌, ◌<◌, ◌+◌, ◌≤◌, false, Some, IsSome, Result, Ok, Err, IfOk, IfErr, OnOk, OnErr};
ghost use Rattle.std.specs.VecDeque.{deque_len, deque_capacity};
ghost use Rattle.amqp_session_core.specs.Frames.{frame_of};
ghost use Rattle.amqp_session_performatives.specs.declared.session_frame.SessionFrameBody.TheVariants as body;
ghost use Rattle.amqp_link_base.specs.State.{after_send_attach};
ghost use Rattle.amqp_link.specs.Ends.{state_of, with_handle};
ghost use Rattle.amqp_link_unsettled.specs.declared.listing.ListError.TheVariants.{TooLarge};
ghost use Rattle.amqp_endpoint_attached.specs.Links.{Announces, FitsNoFrame, attach_sent, attach_frame, offered};
ghost use Rattle.amqp_endpoint_attached.specs.Refusals.{IsOffered, RefusesOwn};
ghost use Rattle.amqp_endpoint_attached.specs.declared.refusal.AttachRefusal.TheVariants.{HandleMaxReached, Memory};

use crate::refusal::AttachRefusal;
use amqp_link::{End, LinkEnd};
use amqp_link_unsettled::ListError;
use amqp_session_core::Session;
use amqp_session_performatives::{Attach, SessionFrame, SessionFrameBody};
use amqp_session_types::{Boxed, OutputHandle};
use std::alloc::{AllocError, Global};
use std::collections::VecDeque;

/// The own handle that the next link gets. It is refused with `HandleMaxReached` exactly where the peer doesn't allow
/// it.
pub fn offered<R: Drop>(session: &Session<R>) -> Result<OutputHandle, AttachRefusal>
    ensures ok { IfOk result (λ handle. (handle ≡ offered session.now) × IsOffered session.now) }
    ensures err { IfErr result (λ e. (e ≡ HandleMaxReached)
        × (session.now.handle_max < session.now.offered)) }
{
    match session.offered_handle() {
        Ok(handle) => Ok(handle),
        Err(_) => Err(AttachRefusal::HandleMaxReached),
    }
}

/// The own Attach of a link under this handle, as a frame of at most so many bytes holds it.
///
/// It is refused with `FrameTooLarge` exactly where no such frame does, even without its unsettled deliveries, and with
/// `Memory`.
pub(crate) fn announce(
    link: &LinkEnd,
    alloc: Global,
    handle: OutputHandle,
    limit: u32,
) -> Result<Boxed<Attach>, AttachRefusal>
    ensures ok { IfOk result (λ attach. Announces limit link.now handle attach) }
    ensures err { IfErr result (RefusesOwn limit link.now handle) }
{
    match own_attach(link, alloc, handle, limit) {
        Ok(attach) => Ok(Boxed::new(alloc, attach)?),
        Err(ListError::TooLarge) => Err(AttachRefusal::FrameTooLarge),
        Err(ListError::Memory) => Err(AttachRefusal::Memory),
    }
}

/// The own Attach of a link under this handle.
fn own_attach(
    link: &LinkEnd,
    alloc: Global,
    handle: OutputHandle,
    limit: u32,
) -> Result<Attach, ListError>
    ensures ok { IfOk result (λ attach. Announces limit link.now handle attach) }
    ensures too_large { IfErr result (λ e. e ≡ TooLarge → FitsNoFrame limit link.now handle) }
{
    match link.end() {
        End::Sender(link) => link.attach_frame(alloc, handle, limit),
        End::Receiver(link) => link.attach_frame(alloc, handle, limit),
    }
}

/// The link has this own handle, and its Attach is sent, which lists only a part of its unsettled deliveries or all.
#[tactic(auto, using(crate::proofs::OwnAttach::rules))]
pub(crate) fn send_attach(link: &mut LinkEnd, handle: OutputHandle, incomplete: bool)
    requires { IsSome (after_send_attach (state_of link.old) false) }
    ensures { attach_sent (with_handle link.old handle) incomplete ≡ Some link.new }
{
    link.set_output_handle(handle);
    match link.end_mut() {
        End::Sender(link) => {
            let _ = link.send_attach(incomplete);
        }
        End::Receiver(link) => {
            let _ = link.send_attach(incomplete);
        }
    }
}

/// The frame of an Attach in a session.
pub(crate) fn attach_frame<R: Drop>(session: &Session<R>, attach: Boxed<Attach>) -> SessionFrame
    ensures { result ≡ attach_frame session.now attach }
{
    SessionFrame {
        channel: session.outgoing_channel().0,
        body: SessionFrameBody::Attach(attach),
    }
}

/// Makes room for so many frames. It is refused with `Memory` alone, and nothing but the room changes.
pub(crate) fn make_room(out: &mut VecDeque<SessionFrame>, count: usize) -> Result<(), AttachRefusal>
    ensures room { OnOk result (deque_len out.new + count ≤ deque_capacity out.new) }
    ensures err { IfErr result (λ e. e ≡ Memory) }
    ensures kept { out.new.items ≡ out.old.items }
{
    out.reserve(count)?;
    Ok(())
}

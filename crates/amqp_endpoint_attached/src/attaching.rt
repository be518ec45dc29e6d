//! A link attaches that the peer doesn't ask for (part 2, 2.6.3).
ghost use Rattle.std.specs.Prelude.{◌≡◌, ◌<◌, ◌⊎◌, false, None, Some, IsSome, IfSome, Err, IsOk, IfOk, IfErr, Ok, OnOk};
ghost use Rattle.std.specs.Prelude.{OnErr};
ghost use Rattle.std.specs.VecDeque.{deque_len, deque_capacity};
ghost use Rattle.amqp_link_base.specs.State.{after_send_attach};
ghost use Rattle.amqp_link.specs.Ends.{state_of};
ghost use Rattle.amqp_session_core.specs.State.{link_at};
ghost use Rattle.amqp_session_core.specs.Steps.{Step, Allocates};
ghost use Rattle.amqp_endpoint_attached.specs.Attaching.{Attaches, RefusesAttach, SendsIn};
ghost use Rattle.amqp_endpoint_attached.specs.Linked.{gives};
ghost use Rattle.amqp_endpoint_attached.specs.Links.{Announces, offered, with_number};
ghost use Rattle.amqp_endpoint_attached.specs.Refusals.{IsOffered, RefusesHandle};

use crate::announcing::{announce, attach_frame, make_room, offered, send_attach};
use crate::refusal::{AttachRefusal, Unattached, handed_back};
use amqp_endpoint_links::{AskingSession, Numbered};
use amqp_link::LinkEnd;
use amqp_session_core::Session;
use amqp_session_performatives::{Attach, SessionFrame};
use amqp_session_types::{Boxed, OutputHandle};
use std::alloc::Global;
use std::collections::VecDeque;

/// Attaches a link that the peer doesn't ask for, under this number (part 2, 2.6.3): it gets the handle that the
/// session offers, which is answered, and its Attach is put behind what is handed out. The Attach lists as many of
/// the link's unsettled deliveries as a frame of `limit` bytes holds, and the link is as it is told.
///
/// It is refused, tested in this order, with `HandleMaxReached` exactly where the handle that is offered is above the
/// peer's handle-max (part 2, 2.7.2); with `FrameTooLarge` exactly where its Attach fits no frame of `limit` bytes,
/// even without its unsettled deliveries; and with `Memory`. The session and what is handed out stay then, and the
/// link comes back as it was.
#[tactic(auto, using(crate::proofs::Refusing::attach_refused))]
pub fn attach(
    session: &mut AskingSession<Numbered<LinkEnd>>,
    alloc: Global,
    limit: u32,
    number: u64,
    link: LinkEnd,
    out: &mut VecDeque<SessionFrame>,
) -> Result<OutputHandle, Unattached>
    requires { IsSome (after_send_attach (state_of link) false) }
    ensures ok { IfOk result
        (λ handle. Attaches session.old out.old.items limit number link handle session.new out.new.items) }
    ensures err { IfErr result (λ refused.
        RefusesAttach limit session.old.session link refused.refusal × (refused.link ≡ link)) }
    ensures kept { OnErr result ((session.new ≡ session.old) × (out.new.items ≡ out.old.items)) }
{
    let made = prepare(&session.session, alloc, limit, &link, out);
    let (handle, attach) = allocate(&mut session.session, number, link, made)?;
    send_in(&mut session.session, handle, attach.incomplete_unsettled);
    out.push_back_reserved(attach_frame(&session.session, attach));
    Ok(handle)
}

/// The own Attach of a link under the handle that is offered, and room for it. Nothing else changes.
#[tactic(auto, using(crate::proofs::Refusing::own_refused))]
fn prepare<R: Drop>(
    session: &Session<R>,
    alloc: Global,
    limit: u32,
    link: &LinkEnd,
    out: &mut VecDeque<SessionFrame>,
) -> Result<Boxed<Attach>, AttachRefusal>
    ensures ok { IfOk result (λ attach. Announces limit link.now (offered session.now) attach) }
    ensures err { IfErr result (RefusesAttach limit session.now link.now) }
    ensures room { OnOk result (deque_len out.new < deque_capacity out.new) }
    ensures kept { out.new.items ≡ out.old.items }
{
    let handle = offered(session)?;
    make_room(out, 1)?;
    announce(link, alloc, handle, limit)
}

/// A link for which something was made gets the handle that is offered. It comes back, as it was, with what refuses it
/// already, or where it gets no handle. The session stays then.
#[tactic(auto, using(crate::proofs::Refusing::handle_refused))]
fn allocate<M: Drop>(
    session: &mut Session<Numbered<LinkEnd>>,
    number: u64,
    link: LinkEnd,
    made: Result<M, AttachRefusal>,
) -> Result<(OutputHandle, M), Unattached>
    ensures ok { IfOk result (λ r. (made ≡ Ok r.1)
        × Step gives session.old (Allocates (r.0).0 (with_number number link) None) session.new) }
    ensures err { IfErr result (λ refused. ((made ≡ Err refused.refusal)
        ⊎ (IsOk made × RefusesHandle session.old None refused.refusal)) × (refused.link ≡ link)) }
    ensures kept { OnErr result (session.new ≡ session.old) }
{
    let made = match made {
        Ok(made) => made,
        Err(refusal) => return Err(Unattached { refusal, link }),
    };
    match session.allocate_link(Numbered { number, link }) {
        Ok(handle) => Ok((handle, made)),
        Err(refused) => Err(handed_back(refused)),
    }
}

/// The link with this own handle sends its Attach, which lists only a part of its unsettled deliveries or all.
fn send_in(session: &mut Session<Numbered<LinkEnd>>, handle: OutputHandle, incomplete: bool)
    requires there { IsSome (link_at session.old handle.0) }
    requires allows { IfSome (link_at session.old handle.0) (λ link.
        IsSome (after_send_attach (state_of link.link) false)) }
    ensures { SendsIn session.old handle incomplete session.new }
{
    let Some(link) = session.link_mut(handle) else {
        unreachable!()
    };
    send_attach(&mut link.link, handle, incomplete);
}

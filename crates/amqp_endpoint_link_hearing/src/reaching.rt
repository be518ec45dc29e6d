//! The link that a Transfer reaches, as it stands before (part 2, 2.5.1, 2.6.2, 2.6.7).
ghost use Rattle.std.specs.Prelude.{◌≡◌, IsSome, option_copied};
ghost use Rattle.amqp_endpoint_attached.specs.Linked.{end_at};
ghost use Rattle.amqp_endpoint_link_hearing.specs.InSession.{ChangesEnd, GoesOn};
ghost use Rattle.amqp_endpoint_link_hearing.specs.Naming.{link_of};
ghost use Rattle.amqp_endpoint_link_hearing.specs.Reached.{completes_by, completes_of, counts_by, counts_of};
ghost use Rattle.amqp_endpoint_link_hearing.specs.Reached.{link_below, link_on, no_counts, recounted};

use amqp_endpoint_attached::LinkSession;
use amqp_endpoint_conversation::Conversation;
use amqp_endpoint_links::Numbered;
use amqp_link::{End, LinkEnd};
use amqp_link_receiver::ReceiverLink;
use amqp_session_performatives::Transfer;
use amqp_session_types::{Handle, IncomingChannel, InputHandle, OutputHandle};
use bytes::Bytes;

/// The count of deliveries and the credit of a receiving link (part 2, 2.6.7).
#[derive(Clone, Copy, Drop)]
pub(crate) struct Counts {
    /// The count of deliveries.
    pub(crate) delivery_count: u32,
    /// The credit.
    pub(crate) link_credit: u32,
}

/// The link that the peer's frames with a handle reach on a channel, if that is the channel of a session that has begun
/// (part 2, 2.5.1, 2.6.2).
pub(crate) fn link_on<'a>(
    talk: &'a Conversation<Numbered<LinkEnd>>,
    channel: IncomingChannel,
    handle: Handle,
) -> Option<&'a Numbered<LinkEnd>>
    ensures { option_copied result ≡ link_on talk.now channel handle.0 }
{
    let number = talk.sessions.reached(channel)?;
    let session = talk.sessions.live(number)?;
    link_under(session, handle)
}

/// The link that the peer's frames with a handle reach in a session.
fn link_under(session: &LinkSession, handle: Handle) -> Option<&Numbered<LinkEnd>>
    ensures { option_copied result ≡ link_below session.now handle.0 }
{
    let handle = session.session.link_by_input_handle(InputHandle(handle.0))?;
    session.session.link(handle)
}

/// The counts of the link; none where it isn't a receiving one.
pub(crate) fn counts_of(link: Option<&Numbered<LinkEnd>>) -> Counts
    ensures { result ≡ counts_of (option_copied link.entry) }
{
    match link {
        Some(link) => counts_by(&link.link),
        None => no_counts(),
    }
}

/// The counts of this end of a link.
fn counts_by(link: &LinkEnd) -> Counts
    ensures { result ≡ counts_by link.now }
{
    match link.end() {
        End::Receiver(receiver) => counts_in(receiver),
        End::Sender(_) => no_counts(),
    }
}

/// The counts of a receiving link.
fn counts_in(receiver: &ReceiverLink) -> Counts
    ensures { result ≡ record {
      delivery_count = receiver.now.end.flow.delivery_count;
      link_credit = receiver.now.end.flow.link_credit;
    } }
{
    let flow = receiver.flow_state();
    Counts {
        delivery_count: flow.delivery_count,
        link_credit: flow.link_credit,
    }
}

/// No counts.
fn no_counts() -> Counts
    ensures { result ≡ no_counts }
{
    Counts {
        delivery_count: 0,
        link_credit: 0,
    }
}

/// Whether the link would hand out a message for a Transfer with its payload, if there is memory (part 2, 2.7.5).
pub(crate) fn completes_of(
    link: Option<&Numbered<LinkEnd>>,
    transfer: &Transfer,
    payload: &Bytes,
) -> bool
    ensures { result ≡ completes_of (option_copied link.entry) transfer.now payload.now }
{
    match link {
        Some(link) => completes_by(&link.link, transfer, payload),
        None => false,
    }
}

/// Whether this end of a link would.
fn completes_by(link: &LinkEnd, transfer: &Transfer, payload: &Bytes) -> bool
    ensures { result ≡ completes_by link.now transfer.now payload.now }
{
    match link.end() {
        End::Receiver(receiver) => receiver.completes(transfer, payload),
        End::Sender(_) => false,
    }
}

/// The link with this own handle has these counts from now on, where it is a receiving one. It takes no memory.
pub(crate) fn set_counts(
    talk: &mut Conversation<Numbered<LinkEnd>>,
    session: u64,
    handle: OutputHandle,
    counts: Counts,
)
    requires { IsSome (link_of talk.old session handle) }
    ensures { GoesOn (ChangesEnd (recounted counts) handle) talk.old session talk.new }
{
    let Some(session) = talk.sessions.live_mut(session) else {
        unreachable!()
    };
    set_counts_in(session, handle, counts);
}

/// The same in its session.
fn set_counts_in(session: &mut LinkSession, handle: OutputHandle, counts: Counts)
    requires { IsSome (end_at session.old handle) }
    ensures { ChangesEnd (recounted counts) handle session.old session.new }
{
    let Some(link) = session.session.link_mut(handle) else {
        unreachable!()
    };
    set_counts_by(&mut link.link, counts);
}

/// The end of a link has these counts from now on.
fn set_counts_by(link: &mut LinkEnd, counts: Counts)
    ensures { link.new ≡ recounted counts link.old }
{
    match link.end_mut() {
        End::Receiver(receiver) => receiver.set_counts(counts.delivery_count, counts.link_credit),
        End::Sender(_) => {}
    }
}

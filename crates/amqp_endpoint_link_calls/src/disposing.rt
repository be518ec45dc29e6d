//! How messages that came are disposed of, by their numbers (part 2, 2.6.12, 2.7.6).
ghost use Rattle.std.specs.Prelude.{◌≡◌, ◌∷◌, [], ℕ, true, IfErr, IfOk, IsSome, None, OnErr, OnOk, Some};
ghost use Rattle.amqp_endpoint_tables.specs.LinkState.{place_at};
ghost use Rattle.amqp_endpoint_tables.specs.declared.link_place.LinkPlace.TheVariants.{Held};
ghost use Rattle.amqp_endpoint_model.specs.declared.error.EndpointError.TheVariants.{Memory};
ghost use Rattle.amqp_endpoint_tables.specs.State.{live_at};
ghost use Rattle.amqp_endpoint_attached.specs.Receiving.{is_receiving};
ghost use Rattle.amqp_endpoint_messages.specs.Refusals.{IsTooLong};
ghost use Rattle.amqp_endpoint_conversation.specs.Going.{Goes, Rests, Within};
ghost use Rattle.amqp_endpoint_link_calls.specs.Calling.{DoneIn};
ghost use Rattle.amqp_endpoint_link_calls.specs.Places.{end_live};
ghost use Rattle.amqp_endpoint_link_calls.specs.Keeping.{kept_tag};
ghost use Rattle.amqp_endpoint_link_calls.specs.Disposing.{DisposedAt, DisposedOneAt, disposes_of_all};
ghost use Rattle.amqp_endpoint_link_calls.specs.Disposing.{disposes_of_one};
ghost use Rattle.amqp_endpoint_link_calls.specs.Disposing.{disposes_of_tag, disposes_of_tags};
ghost use Rattle.amqp_endpoint_link_calls.specs.Refusing.{AreTooLong, BarsDisposing, BarsDisposingOne, BarsTelling};
ghost use Rattle.amqp_endpoint_link_calls.specs.Refusing.{BarsTellingOne, message_fits, refusal_of};

use crate::keeping::{tag_in, tags_in};
use crate::refusing::{fits_in, refusal_of, too_large_or_memory};
use crate::{LinkTalk, holder};
use amqp_endpoint_messages as disposing;
use amqp_endpoint_model::{Disposal, EndpointError};
use amqp_endpoint_tables::Links;
use amqp_link::LinkEnd;
use amqp_session_performatives::SessionFrame;
use amqp_session_states::DeliveryState;
use amqp_session_types::{DeliveryTag, OutputHandle};
use std::alloc::Global;
use std::collections::VecDeque;

/// Disposes of the messages with these numbers of the receiving link with this number, all of them or none (part 2,
/// 2.6.12, 2.7.6): one Disposition is handed out for each run of deliveries whose numbers follow each other and whose
/// transfers name the same settle mode; each fits the limit. Each message is settled as is asked; where that says
/// nothing, it is by the mode of its transfer, or else the link's (part 2, 2.8.3). Of no messages nothing is handed
/// out, and nothing changes, wherever the link is. So many numbers were given to messages before: 0 to `given` less 1.
///
/// It is refused, in this order, with `UnknownLink` exactly where no link has the number, and with `IllegalState`
/// exactly where it is a sending link; then, by the first of the messages that is refused, with `UnknownMessage`
/// exactly where the link doesn't keep it, and its number was never given or another link keeps it; with
/// `AlreadyDisposed` exactly where no link keeps it though its number was given, its outcome was told, or it was named
/// before; and with `NotAssociated` exactly where it has no number in the present attachment, as none has that a link
/// keeps which isn't attached. Then it is refused with `FrameTooLarge` exactly where one of those Dispositions doesn't
/// fit the limit, and with `Memory`, which may stand in place of `FrameTooLarge`. Nothing changes then.
pub fn dispose_all(
    talk: &mut LinkTalk,
    alloc: Global,
    links: &Links<LinkEnd>,
    given: u64,
    limit: u32,
    link: u64,
    messages: &[u64],
    disposal: &Disposal,
    out: &mut VecDeque<SessionFrame>,
) -> Result<(), EndpointError>
    ensures ok { OnOk result (DisposedAt limit (place_at links.now link) messages.now disposal.now talk.old
        out.old.items talk.new out.new.items) }
    ensures allowed { OnOk result
        (refusal_of talk.old links.now given link messages.now ≡ None) }
    ensures err { IfErr result (BarsDisposing limit talk.old links.now given link messages.now
        disposal.now) }
    ensures kept { OnErr result ((talk.new ≡ talk.old) × (out.new.items ≡ out.old.items)) }
    ensures goes { Goes limit talk.old talk.new out.old.items out.new.items }
    ensures waits { (most : ℕ) → Within most talk.old → Within most talk.new }
    ensures rests { Rests talk.old talk.new out.old.items out.new.items }
{
    if let Some(why) = refusal_of(talk, links, given, link, messages) {
        return Err(why);
    }
    let Some(_) = messages.split_first() else {
        return Ok(());
    };
    let Ok((session, handle)) = holder(links, link) else {
        unreachable!()
    };
    dispose_kept(talk, alloc, limit, session, handle, messages, disposal, out)
}

/// Disposes of the message with this number of the receiving link with this number (part 2, 2.6.12, 2.7.6): one
/// Disposition without `last` is handed out, which fits the limit. The message is settled as is asked; where that says
/// nothing, it is by the mode of its transfer, or else the link's (part 2, 2.8.3). So many numbers were given to
/// messages before: 0 to `given` less 1.
///
/// It is refused as `dispose_all` refuses this message alone, but with `FrameTooLarge` exactly where that Disposition
/// doesn't fit the limit, and with `Memory` only where nothing else refuses it. Nothing changes then.
pub fn dispose(
    talk: &mut LinkTalk,
    alloc: Global,
    links: &Links<LinkEnd>,
    given: u64,
    limit: u32,
    link: u64,
    message: u64,
    disposal: &Disposal,
    out: &mut VecDeque<SessionFrame>,
) -> Result<(), EndpointError>
    ensures ok { OnOk result (DisposedOneAt limit (place_at links.now link) message disposal.now talk.old
        out.old.items talk.new out.new.items) }
    ensures allowed { OnOk result
        (refusal_of talk.old links.now given link (message ∷ []) ≡ None) }
    ensures err { IfErr result (BarsDisposingOne limit talk.old links.now given link message
        disposal.now) }
    ensures kept { OnErr result ((talk.new ≡ talk.old) × (out.new.items ≡ out.old.items)) }
    ensures goes { Goes limit talk.old talk.new out.old.items out.new.items }
    ensures waits { (most : ℕ) → Within most talk.old → Within most talk.new }
    ensures rests { Rests talk.old talk.new out.old.items out.new.items }
{
    if let Some(why) = refusal_of(talk, links, given, link, &[message]) {
        return Err(why);
    }
    let Ok((session, handle)) = holder(links, link) else {
        unreachable!()
    };
    dispose_kept_one(talk, alloc, limit, session, handle, message, disposal, out)
}

/// The attached receiving link with this own handle in the session with this number disposes of those of the messages
/// that it keeps.
fn dispose_kept(
    talk: &mut LinkTalk,
    alloc: Global,
    limit: u32,
    session: u64,
    handle: OutputHandle,
    messages: &[u64],
    disposal: &Disposal,
    out: &mut VecDeque<SessionFrame>,
) -> Result<(), EndpointError>
    requires { is_receiving (end_live (live_at talk.old.sessions session) handle) ≡ true }
    ensures ok { OnOk result (DoneIn (disposes_of_all limit messages.now disposal.now) session handle talk.old
        out.old.items talk.new out.new.items) }
    ensures err { IfErr result (BarsTelling
        (AreTooLong limit (end_live (live_at talk.old.sessions session) handle) messages.now disposal.now)) }
    ensures kept { OnErr result ((talk.new ≡ talk.old) × (out.new.items ≡ out.old.items)) }
    ensures goes { Goes limit talk.old talk.new out.old.items out.new.items }
    ensures waits { (most : ℕ) → Within most talk.old → Within most talk.new }
{
    let tags = tags_in(talk, alloc, session, handle, messages)?;
    let state = disposal.state.clone()?;
    dispose_tags(
        talk,
        alloc,
        limit,
        session,
        handle,
        &tags,
        state,
        disposal.settled,
        out,
    )
}

/// The attached receiving link with this own handle in the session with this number disposes of the message with this
/// number, which it keeps.
fn dispose_kept_one(
    talk: &mut LinkTalk,
    alloc: Global,
    limit: u32,
    session: u64,
    handle: OutputHandle,
    message: u64,
    disposal: &Disposal,
    out: &mut VecDeque<SessionFrame>,
) -> Result<(), EndpointError>
    requires attached { is_receiving (end_live (live_at talk.old.sessions session) handle) ≡ true }
    requires keeps { IsSome (kept_tag (end_live (live_at talk.old.sessions session) handle)
        message) }
    ensures ok { OnOk result (DoneIn (disposes_of_one limit message disposal.now) session handle talk.old
        out.old.items talk.new out.new.items) }
    ensures err { IfErr result (BarsTellingOne
        (message_fits limit (end_live (live_at talk.old.sessions session) handle) message disposal.now)) }
    ensures kept { OnErr result ((talk.new ≡ talk.old) × (out.new.items ≡ out.old.items)) }
    ensures goes { Goes limit talk.old talk.new out.old.items out.new.items }
    ensures waits { (most : ℕ) → Within most talk.old → Within most talk.new }
{
    let fit = fits_in(talk, limit, session, handle, message, disposal);
    if !fit {
        return Err(EndpointError::FrameTooLarge);
    }
    let kept = tag_in(talk, session, handle, message)?;
    let Some(tag) = kept else { unreachable!() };
    let state = disposal.state.clone()?;
    dispose_tag(
        talk,
        alloc,
        limit,
        session,
        handle,
        &tag,
        state,
        disposal.settled,
        out,
    )
}

/// The attached receiving link with this own handle in the session with this number disposes of the deliveries with
/// these tags. It is refused where one of the Dispositions that tell it doesn't fit the limit, and what else is refused
/// is told as want of memory: nothing else is refused any more.
fn dispose_tags(
    talk: &mut LinkTalk,
    alloc: Global,
    limit: u32,
    session: u64,
    handle: OutputHandle,
    tags: &[DeliveryTag],
    state: DeliveryState,
    settled: Option<bool>,
    out: &mut VecDeque<SessionFrame>,
) -> Result<(), EndpointError>
    requires { is_receiving (end_live (live_at talk.old.sessions session) handle) ≡ true }
    ensures ok { OnOk result
        (DoneIn (disposes_of_tags limit tags.now (record { state = state; settled = settled })) session handle talk.old
        out.old.items talk.new out.new.items) }
    ensures err { IfErr result (BarsTelling
        (IsTooLong limit (end_live (live_at talk.old.sessions session) handle) tags.now state settled)) }
    ensures kept { OnErr result ((talk.new ≡ talk.old) × (out.new.items ≡ out.old.items)) }
    ensures goes { Goes limit talk.old talk.new out.old.items out.new.items }
    ensures waits { (most : ℕ) → Within most talk.old → Within most talk.new }
{
    let Some(session) = talk.sessions.live_mut(session) else {
        unreachable!()
    };
    match disposing::dispose_all(session, alloc, limit, handle, tags, state, settled, out) {
        Ok(()) => Ok(()),
        Err(error) => Err(too_large_or_memory(error)),
    }
}

/// Likewise of the delivery with this tag, whose Disposition fits the limit: what is refused is told as want of memory.
fn dispose_tag(
    talk: &mut LinkTalk,
    alloc: Global,
    limit: u32,
    session: u64,
    handle: OutputHandle,
    tag: &DeliveryTag,
    state: DeliveryState,
    settled: Option<bool>,
    out: &mut VecDeque<SessionFrame>,
) -> Result<(), EndpointError>
    requires { is_receiving (end_live (live_at talk.old.sessions session) handle) ≡ true }
    ensures ok { OnOk result
        (DoneIn (disposes_of_tag limit tag.now (record { state = state; settled = settled })) session handle talk.old
        out.old.items talk.new out.new.items) }
    ensures err { IfErr result (λ e. e ≡ Memory) }
    ensures kept { OnErr result ((talk.new ≡ talk.old) × (out.new.items ≡ out.old.items)) }
    ensures goes { Goes limit talk.old talk.new out.old.items out.new.items }
    ensures waits { (most : ℕ) → Within most talk.old → Within most talk.new }
{
    let Some(session) = talk.sessions.live_mut(session) else {
        unreachable!()
    };
    match disposing::dispose(session, alloc, limit, handle, tag, state, settled, out) {
        Ok(()) => Ok(()),
        Err(_) => Err(EndpointError::Memory),
    }
}

//! Bytes carried from one end to the other.
ghost use Rattle.std.specs.Prelude.{◌≡◌, ◌++◌, [], take, min, IfErr, IfOk, OnOk};
ghost use Rattle.amqp_session_frames.specs.Cutting.{joined};
ghost use Rattle.amqp_endpoint_model.specs.Step.{FeedsIn};
ghost use Rattle.amqp_endpoint_model.specs.declared.error.EndpointError.TheVariants.{Memory};
ghost use Rattle.amqp_endpoint_core.specs.WorldSaid.{feed_said, texts};
ghost use Rattle.amqp_endpoint_core.specs.WorldStep.{Carries, Drains, finds_none, left_by_fault};
ghost use Rattle.amqp_endpoint_core.specs.Pulling.{PullsNext, PullsNone};

use crate::Endpoint;
use crate::reply::Moved;
use amqp_endpoint_model::{EndpointError, Fed, SessionRelay};
use bytes::BytesMut;
use std::alloc::Global;

/// Pulls all that an end has queued into the stream, and then feeds the next bytes of the stream to the other end.
pub(crate) fn carry<S: SessionRelay>(
    alloc: Global,
    from: &mut Endpoint<S>,
    stream: &mut BytesMut,
    to: &mut Endpoint<S>,
    count: u64,
) -> Moved
    ensures { Carries S.does count (texts result.pulled.items) (feed_said result.answer)
        (record { from = from.old; stream = stream.old.items; to = to.old })
        (record { from = from.new; stream = stream.new.items; to = to.new }) }
{
    let mut pulled = Vec::new(alloc);
    let answer = match drain(from, stream, &mut pulled) {
        Ok(()) => Ok(feed_next(stream, to, count)),
        Err(error) => Err(error),
    };
    Moved { pulled, answer }
}

/// Pulls all that an end has queued into the stream. `Memory` where there is no memory: what was pulled until then is
/// in the stream, and the rest stays queued.
fn drain<S: SessionRelay>(
    from: &mut Endpoint<S>,
    stream: &mut BytesMut,
    pulled: &mut Vec<Vec<u8>>,
) -> Result<(), EndpointError>
    requires { pulled.old.items ≡ [] }
    ensures drains { Drains from.old (texts pulled.new.items) from.new }
    ensures stream { stream.new.items ≡ stream.old.items ++ joined (texts pulled.new.items) }
    ensures all { OnOk result (from.new.queue ≡ []) }
    ensures err { IfErr result (λ e. e ≡ Memory) }
{
    while pull_next(from, stream, pulled)? {}
    Ok(())
}

/// Pulls what an end has queued first into the stream, if there is something. `Memory` where there is no memory: then
/// nothing changes.
fn pull_next<S: SessionRelay>(
    from: &mut Endpoint<S>,
    stream: &mut BytesMut,
    pulled: &mut Vec<Vec<u8>>,
) -> Result<bool, EndpointError>
    ensures ok { IfOk result (λ some. PullsNext some from.old stream.old.items (texts pulled.old.items)
        from.new stream.new.items (texts pulled.new.items)) }
    ensures err { IfErr result (λ e. (e ≡ Memory) × PullsNone from.old stream.old.items (texts pulled.old.items)
        from.new stream.new.items (texts pulled.new.items)) }
{
    pulled.reserve(1)?;
    let Some(bytes) = from.peek()? else {
        return Ok(false);
    };
    stream.extend_from_slice(&bytes)?;
    from.take_first();
    pulled.push_reserved(bytes);
    Ok(true)
}

/// Feeds the next bytes of a stream to an end in one piece, so many or what there is. They stay in the stream where the
/// end has no connection.
fn feed_next<S: SessionRelay>(stream: &mut BytesMut, to: &mut Endpoint<S>, count: u64) -> Fed
    ensures feeds { FeedsIn S.does to.old.phase to.old (take count stream.old.items) (result.events.items) result.fault
        to.new }
    ensures stays { stream.new.items ≡ left_by_fault result.fault count stream.old.items }
{
    let count = at_most(count, stream.len());
    let fed = to.feed(&stream.as_slice()[..count]);
    if !finds_none(&fed.fault) {
        stream.advance(count);
    }
    fed
}

/// Whether a feed found no connection.
fn finds_none(fault: &Option<EndpointError>) -> bool
    ensures { result ≡ finds_none fault.now }
{
    matches!(fault, Some(EndpointError::NotConnected))
}

/// So many, or all that there are.
fn at_most(count: u64, all: usize) -> usize
    ensures { result ≡ min count all }
{
    if count < all as u64 {
        return count as usize;
    }
    all
}

//! Several of what waits are pulled at once.
ghost use Rattle.std.specs.Prelude.{◌≡◌, ◌+◌, ◌≤◌, ◌<◌, ◌++◌, drop, length, map, take, IfErr, IfOk};
ghost use Rattle.amqp_endpoint_model.specs.declared.error.EndpointError.TheVariants.{Memory};
ghost use Rattle.amqp_endpoint_core.specs.Queue.{AllWithin, Fills, FillsBoth, FillsUp, frames_waiting, texts_of};

use crate::queued::{Queued, Waits};
use amqp_endpoint_model::EndpointError;
use amqp_session_performatives::SessionFrame;
use std::alloc::Global;
use std::collections::VecDeque;

/// Takes out what waits first, as much as is at most `most` bytes, and appends it to `bytes`: how many that are.
/// Nothing changes where there is no memory.
#[tactic(auto, using(crate::proofs::BatchLaws::within_rest))]
pub(crate) fn pull_batch(
    alloc: Global,
    limit: u32,
    most: usize,
    queue: &mut VecDeque<Queued>,
    out: &mut VecDeque<SessionFrame>,
    bytes: &mut Vec<u8>,
) -> Result<usize, EndpointError>
    requires least { 512 ≤ limit }
    requires within { AllWithin limit (queue.old.items ++ frames_waiting out.old.items) }
    ensures fills { IfOk result (λ count.
        Fills most (queue.old.items ++ frames_waiting out.old.items) count) }
    ensures some { IfOk result (λ count. limit ≤ most
        → 0 < length (queue.old.items ++ frames_waiting out.old.items) → 0 < count) }
    ensures bytes { IfOk result (λ count. bytes.new.items
        ≡ bytes.old.items ++ texts_of (take count (queue.old.items ++ frames_waiting out.old.items))) }
    ensures rest { IfOk result (λ count. queue.new.items ++ frames_waiting out.new.items
        ≡ drop count (queue.old.items ++ frames_waiting out.old.items)) }
    ensures within { AllWithin limit (queue.new.items ++ frames_waiting out.new.items) }
    ensures err { IfErr result (λ e. (e ≡ Memory) × (bytes.new.items ≡ bytes.old.items)
        × (queue.new.items ++ frames_waiting out.new.items
        ≡ queue.old.items ++ frames_waiting out.old.items)) }
{
    let start = bytes.len();
    match append_all(alloc, limit, most, queue, out, bytes) {
        Ok((queued, sent)) => {
            drop_both(queue, out, queued, sent);
            Ok(queued + sent)
        }
        Err(error) => {
            bytes.truncate(start);
            Err(error)
        }
    }
}

/// Appends what waits first, as much as is at most `most` bytes: how many that are of what is queued, and behind it of
/// what sessions sent. Where there is no memory, a part of it may be appended.
#[tactic(auto, using(crate::proofs::BatchLaws::fills_front, crate::proofs::BatchLaws::err_behind))]
fn append_all(
    alloc: Global,
    limit: u32,
    most: usize,
    queue: &VecDeque<Queued>,
    out: &VecDeque<SessionFrame>,
    bytes: &mut Vec<u8>,
) -> Result<(usize, usize), EndpointError>
    requires least { 512 ≤ limit }
    requires within { AllWithin limit (queue.now.items ++ frames_waiting out.now.items) }
    ensures taken { IfOk result (λ n. FillsBoth most queue.now.items out.now.items n.0 n.1
        bytes.old.items bytes.new.items) }
    ensures err { IfErr result (λ e. (e ≡ Memory)
        × (take (length bytes.old.items) bytes.new.items ≡ bytes.old.items)) }
{
    let (queued, room) = append_first(alloc, limit, most, queue, bytes)?;
    if queued < queue.len() {
        return Ok((queued, 0));
    }
    let (sent, _) = append_first(alloc, limit, room, out, bytes)?;
    Ok((queued, sent))
}

/// Appends what waits first, as much as is at most `most` bytes: how many that are, and the room that is left. Where
/// there is no memory, a part of it may be appended.
#[tactic(auto, using(crate::proofs::BatchLaws::next_within, crate::proofs::BatchLaws::batch_all))]
fn append_first<W: Waits>(
    alloc: Global,
    limit: u32,
    most: usize,
    waiting: &VecDeque<W>,
    bytes: &mut Vec<u8>,
) -> Result<(usize, usize), EndpointError>
    requires least { 512 ≤ limit }
    requires within { AllWithin limit (map W.waits waiting.now.items) }
    ensures fills { IfOk result (λ n. FillsUp most (map W.waits waiting.now.items) n.0 n.1
        bytes.old.items bytes.new.items) }
    ensures err { IfErr result (λ e. (e ≡ Memory)
        × (take (length bytes.old.items) bytes.new.items ≡ bytes.old.items)) }
{
    let mut count = 0;
    let mut room = most;
    while let Some(next) = waiting.get(count) {
        let Some(left) = next.append_to(alloc, limit, room, bytes)? else {
            return Ok((count, room));
        };
        room = left;
        count += 1;
    }
    Ok((count, room))
}

/// Takes out so many of what is queued, and where that is all of it, so many of what sessions sent.
#[tactic(auto, using(crate::proofs::BatchLaws::dropped_both))]
fn drop_both(
    queue: &mut VecDeque<Queued>,
    out: &mut VecDeque<SessionFrame>,
    queued: usize,
    sent: usize,
)
    requires there { queued ≤ length queue.old.items }
    requires others { sent ≤ length out.old.items }
    requires behind { 0 < sent → queued ≡ length queue.old.items }
    ensures { queue.new.items ++ frames_waiting out.new.items
        ≡ drop (queued + sent) (queue.old.items ++ frames_waiting out.old.items) }
{
    drop_front(queue, queued);
    drop_front(out, sent);
}

/// Takes out so many of what waits first.
fn drop_front<W: Drop>(waiting: &mut VecDeque<W>, count: usize)
    requires { count ≤ length waiting.old.items }
    ensures { waiting.new.items ≡ drop count waiting.old.items }
{
    let _ = waiting.drain(..count);
}

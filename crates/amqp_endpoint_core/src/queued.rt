//! What an endpoint has queued, which is written as it is pulled.
ghost use Rattle.std.specs.Prelude.{◌≡◌, ◌+◌, ◌<◌, ◌≤◌, ◌++◌, [], true, drop, IfErr, IfOk, MatchOption};
ghost use Rattle.std.specs.Prelude.{OnErr, OnOk};
ghost use Rattle.amqp_endpoint_model.specs.State.{Waiting, body_of, fits, protocol_header, text_of, the_frame};
ghost use Rattle.amqp_endpoint_model.specs.State.{the_header, waiting_of, written};
ghost use Rattle.amqp_endpoint_model.specs.declared.error.EndpointError.TheVariants.{Memory};
ghost use Rattle.amqp_endpoint_core.specs.Queue.{AllWithin, AppendedIn, IsFirst, IsWithin, frames_waiting};
ghost use Rattle.std.specs.VecDeque.{deque_capacity, deque_len};

use crate::coding::{PROTOCOL_HEADER, SIZE_FIELD};
use amqp_endpoint_model::EndpointError;
use amqp_session_frames::{Error as FrameError, Frame, FrameBody, FrameEncoder};
use amqp_session_performatives::{SessionFrame, SessionFrameBody};
use std::alloc::{AllocError, Global};
use std::collections::VecDeque;
use std::marker::Model;

#[derive(Drop)]
pub(crate) enum Content {
    /// The protocol header.
    Header,
    /// A frame, which is written where it is pulled.
    Frame(Frame),
}

/// What one `pull` gives. A clause sees which it is, the protocol header or a frame.
#[derive(Drop)]
pub(crate) struct Queued {
    content: Content,
}

impl Model for Queued {
    ghost use Rattle.amqp_endpoint_model.specs.State.{Waiting};

    ghost Value = { Waiting };

    ghost use Rattle.amqp_endpoint_core.specs.Queue.{said_by};

    ghost view = { λ q. said_by q.content };
}

impl Queued {
    /// The protocol header.
    pub(crate) fn header() -> Self
        ensures { result ≡ the_header }
    {
        Queued {
            content: Content::Header,
        }
    }

    /// A frame.
    pub(crate) fn frame(frame: Frame) -> Self
        ensures { result ≡ the_frame frame }
    {
        Queued {
            content: Content::Frame(frame),
        }
    }

    /// A frame of a session.
    pub(crate) fn of_session(frame: SessionFrame) -> Self
        ensures { result ≡ waiting_of frame }
    {
        let SessionFrame { channel, body } = frame;
        Queued::frame(Frame::new(channel, body_of(body)))
    }
}

/// What waits to be pulled. It is written where it lies.
pub(crate) trait Waits: Sized {
    /// What it is that waits.
    ghost waits: { Self → Waiting };

    /// Appends the bytes to `bytes`, where they are at most `room`, and answers the room that is left then. None where
    /// they are more. Where it answers no room, `bytes` is as before, as it is where there is no memory for them. Those
    /// of a frame are at most `limit`.
    fn append_to(
        &self,
        alloc: Global,
        limit: u32,
        room: usize,
        bytes: &mut Vec<u8>,
    ) -> Result<Option<usize>, EndpointError>
        requires least { 512 ≤ limit }
        requires within { IsWithin limit (waits self.now) }
        ensures ok { IfOk result (λ left.
            AppendedIn room (text_of (waits self.now)) left (bytes.old.items) (bytes.new.items)) }
        ensures err { IfErr result (λ e. (e ≡ Memory) × (bytes.new.items ≡ bytes.old.items)) };
}

impl Waits for Queued {
    ghost waits = { λ q. q };

    fn append_to(
        &self,
        alloc: Global,
        limit: u32,
        room: usize,
        bytes: &mut Vec<u8>,
    ) -> Result<Option<usize>, EndpointError> {
        match &self.content {
            Content::Header => append_header(room, bytes),
            Content::Frame(frame) => append_frame(alloc, limit, room, frame, bytes),
        }
    }
}

impl Waits for SessionFrame {
    ghost waits = { λ frame. waiting_of frame };

    #[tactic(auto, using(crate::proofs::CodingLaws::appended_is, crate::proofs::CodingLaws::not_over))]
    fn append_to(
        &self,
        alloc: Global,
        limit: u32,
        room: usize,
        bytes: &mut Vec<u8>,
    ) -> Result<Option<usize>, EndpointError> {
        let encoder = FrameEncoder::new(limit as usize - SIZE_FIELD);
        match encoder.append_sent(alloc, self, room, bytes) {
            Ok(left) => Ok(left),
            Err(FrameError::TooLarge) => Err(EndpointError::FrameTooLarge),
            Err(_) => Err(EndpointError::Memory),
        }
    }
}

/// The bytes of what waits, at most `limit` of them. It is refused where there is no memory for them.
#[tactic(auto, using(crate::proofs::BatchLaws::all_taken))]
fn bytes_of<W: Waits>(alloc: Global, limit: u32, waiting: &W) -> Result<Vec<u8>, EndpointError>
    requires least { 512 ≤ limit }
    requires within { IsWithin limit (W.waits waiting.now) }
    ensures ok { IfOk result (λ v. v.items ≡ text_of (W.waits waiting.now)) }
    ensures err { IfErr result (λ e. e ≡ Memory) }
{
    let mut bytes = Vec::new(alloc);
    // the limit is room enough for what is within it
    let _ = waiting.append_to(alloc, limit, limit as usize, &mut bytes)?;
    Ok(bytes)
}

/// The bytes of what waits first, which stays there. None where nothing waits. It is refused where there is no memory.
pub(crate) fn first_bytes(
    alloc: Global,
    limit: u32,
    queue: &VecDeque<Queued>,
    out: &VecDeque<SessionFrame>,
) -> Result<Option<Vec<u8>>, EndpointError>
    requires least { 512 ≤ limit }
    requires within { AllWithin limit (queue.now.items ++ frames_waiting out.now.items) }
    ensures ok { IfOk result (λ seen. MatchOption seen ((queue.now.items ++ frames_waiting out.now.items) ≡ [])
        (λ bytes. (first : Waiting) × IsFirst (queue.now.items ++ frames_waiting out.now.items) first
        × (bytes.items ≡ text_of first))) }
    ensures err { IfErr result (λ e. e ≡ Memory) }
{
    if let Some(first) = queue.front() {
        return Ok(Some(bytes_of(alloc, limit, first)?));
    }
    let Some(first) = out.front() else {
        return Ok(None);
    };
    Ok(Some(bytes_of(alloc, limit, first)?))
}

/// Takes out what waits first, if something does.
pub(crate) fn drop_first(queue: &mut VecDeque<Queued>, out: &mut VecDeque<SessionFrame>)
    ensures { queue.new.items ++ frames_waiting out.new.items
        ≡ drop 1 (queue.old.items ++ frames_waiting out.old.items) }
{
    if queue.is_empty() {
        drop_sent(out);
        return;
    }
    drop_waiting(queue);
}

/// Takes out what waits first.
fn drop_waiting(queue: &mut VecDeque<Queued>)
    ensures { queue.new.items ≡ drop 1 queue.old.items }
{
    let _ = queue.pop_front();
}

/// Takes out what sessions sent first.
fn drop_sent(out: &mut VecDeque<SessionFrame>)
    ensures { out.new.items ≡ drop 1 out.old.items }
{
    let _ = out.pop_front();
}

/// Puts all frames that sessions sent behind what waits, and makes room for one more. Nothing changes where there is no
/// memory.
pub(crate) fn gather(
    queue: &mut VecDeque<Queued>,
    out: &mut VecDeque<SessionFrame>,
) -> Result<(), AllocError>
    ensures ok { OnOk result ((queue.new.items ≡ queue.old.items ++ frames_waiting out.old.items)
        × (out.new.items ≡ []) × (deque_len queue.new < deque_capacity queue.new)) }
    ensures err { OnErr result ((queue.new.items ≡ queue.old.items)
        × (out.new.items ≡ out.old.items)) }
{
    let Some(room) = out.len().checked_add(1) else {
        return Err(AllocError);
    };
    queue.reserve(room)?;
    while let Some(frame) = out.pop_front() {
        queue.push_back_reserved(Queued::of_session(frame));
    }
    Ok(())
}

/// What a frame says that says this of a session.
fn body_of(body: SessionFrameBody) -> FrameBody
    ensures { result ≡ body_of body }
{
    match body {
        SessionFrameBody::Begin(begin) => FrameBody::Begin(begin),
        SessionFrameBody::Attach(attach) => FrameBody::Attach(attach),
        SessionFrameBody::Flow(flow) => FrameBody::Flow(flow),
        SessionFrameBody::Transfer {
            performative,
            payload,
        } => FrameBody::Transfer {
            performative,
            payload,
        },
        SessionFrameBody::Disposition(disposition) => FrameBody::Disposition(disposition),
        SessionFrameBody::Detach(detach) => FrameBody::Detach(detach),
        SessionFrameBody::End(end) => FrameBody::End(end),
    }
}

/// Appends the protocol header, where it is at most `room` bytes: the room that is left.
fn append_header(room: usize, bytes: &mut Vec<u8>) -> Result<Option<usize>, EndpointError>
    ensures ok { IfOk result (λ left.
        AppendedIn room protocol_header left (bytes.old.items) (bytes.new.items)) }
    ensures err { IfErr result (λ e. (e ≡ Memory) × (bytes.new.items ≡ bytes.old.items)) }
{
    let Some(left) = room.checked_sub(PROTOCOL_HEADER.len()) else {
        return Ok(None);
    };
    bytes.extend_from_slice(PROTOCOL_HEADER)?;
    Ok(Some(left))
}

/// Appends what a frame that fits the limit is written as, where it is at most `room` bytes: the room that is left.
#[tactic(auto, using(crate::proofs::CodingLaws::appended_is, crate::proofs::CodingLaws::not_over))]
fn append_frame(
    alloc: Global,
    limit: u32,
    room: usize,
    frame: &Frame,
    bytes: &mut Vec<u8>,
) -> Result<Option<usize>, EndpointError>
    requires least { 512 ≤ limit }
    requires short { fits limit frame.now ≡ true }
    ensures ok { IfOk result (λ left.
        AppendedIn room (written frame.now) left (bytes.old.items) (bytes.new.items)) }
    ensures err { IfErr result (λ e. (e ≡ Memory) × (bytes.new.items ≡ bytes.old.items)) }
{
    let encoder = FrameEncoder::new(limit as usize - SIZE_FIELD);
    match encoder.append(alloc, frame, room, bytes) {
        Ok(left) => Ok(left),
        Err(FrameError::TooLarge) => Err(EndpointError::FrameTooLarge),
        Err(_) => Err(EndpointError::Memory),
    }
}

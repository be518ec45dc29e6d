//! What a frame says.
ghost use Rattle.std.specs.Prelude.{◌≡◌, IfOk, IfErr, Some};
ghost use Rattle.serde_amqp_item.specs.Canon.{canon};
ghost use Rattle.amqp_session_frames.specs.Text.{FrameText, NotRead, performative_of, performative_text};
ghost use Rattle.amqp_trace.specs.Seen.{IsSeen, NotSeen, NotWritten, Shows, effect_of, part_of, payload_of};

use crate::deliveries::{Deliveries, Effect, Part};
use crate::messages::push_message;
use crate::refusal::Refusal;
use crate::text::text_of;
use amqp_session_frames::{Error as FrameError, Frame, FrameBody, FrameDecoder};
use amqp_session_performatives::Transfer;
use bytes::Bytes;
use serde_amqp_item::Error;
use serde_amqp_ser::{Serialize, to_vec};
use std::alloc::Global;

/// A frame as it is shown.
#[derive(Debug, Drop)]
pub struct SeenFrame {
    /// The channel that it is sent on.
    pub channel: u16,
    /// What its performative is written as. An empty frame has none.
    pub performative: Vec<u8>,
    /// The bytes that a transfer carries.
    pub payload: Option<Bytes>,
    /// What it does to the deliveries of its channel that are under way.
    pub effect: Effect,
}

impl SeenFrame {
    /// The bytes that it carries behind its performative: none where it is no transfer.
    pub(crate) fn payload(&self) -> &[u8] {
        match &self.payload {
            Some(payload) => payload.as_slice(),
            None => &[],
        }
    }
}

/// The frame that these bytes are, with their size field (part 2, 2.3).
///
/// Errors: those of a decoder, exactly as it answers them; `TooLarge` for a frame whose performative can't be written;
/// `Memory` where there is no memory.
#[tactic(auto, using(crate::proofs::Seeing::seeing))]
pub fn seen_frame(alloc: Global, bytes: &[u8]) -> Result<SeenFrame, FrameError>
    ensures seen { IfOk result (λ s. IsSeen bytes.now s) }
    ensures refused { IfErr result (λ e. NotSeen bytes.now e) }
{
    let frame = decoded(alloc, bytes)?;
    shown(alloc, &frame)
}

/// The frame that these bytes are.
pub(crate) fn decoded(alloc: Global, bytes: &[u8]) -> Result<Frame, FrameError>
    ensures frame { IfOk result (λ f. FrameText bytes.now f) }
    ensures refused { IfErr result (λ e. NotRead bytes.now e) }
{
    match Bytes::copy_from_slice(alloc, bytes) {
        Ok(shared) => FrameDecoder::new().decode(alloc, shared),
        Err(_) => Err(FrameError::Memory),
    }
}

/// What is shown of the frame.
fn shown(alloc: Global, frame: &Frame) -> Result<SeenFrame, FrameError>
    ensures shown { IfOk result (λ s. Shows frame.now s) }
    ensures refused { IfErr result (λ e. NotWritten
        (performative_text (performative_of frame.now.body)) e) }
{
    let performative = performative_text(alloc, frame.body())?;
    let payload = payload_of(frame.body())?;
    Ok(SeenFrame {
        channel: frame.channel(),
        performative,
        payload,
        effect: effect_of(frame.body()),
    })
}

/// What the body's performative is written as.
fn performative_text(alloc: Global, body: &FrameBody) -> Result<Vec<u8>, FrameError>
    ensures text { IfOk result (λ b. performative_text (performative_of body.now) ≡ Some b.items) }
    ensures refused { IfErr result (λ e. NotWritten (performative_text (performative_of body.now))
        e) }
{
    match body {
        FrameBody::Empty => Ok(Vec::new(alloc)),
        FrameBody::Open(open) => text(alloc, open),
        FrameBody::Begin(begin) => text(alloc, begin),
        FrameBody::Attach(attach) => text(alloc, attach),
        FrameBody::Flow(flow) => text(alloc, flow),
        FrameBody::Transfer { performative, .. } => text(alloc, performative),
        FrameBody::Disposition(disposition) => text(alloc, disposition),
        FrameBody::Detach(detach) => text(alloc, detach),
        FrameBody::End(end) => text(alloc, end),
        FrameBody::Close(close) => text(alloc, close),
    }
}

/// What the value is written as.
fn text<T: Serialize>(alloc: Global, value: &T) -> Result<Vec<u8>, FrameError>
    ensures text { IfOk result (λ b. canon (T.item value.now) ≡ Some b.items) }
    ensures refused { IfErr result (λ e. NotWritten (canon (T.item value.now)) e) }
{
    match to_vec(alloc, value) {
        Ok(bytes) => Ok(bytes),
        Err(Error::Memory) => Err(FrameError::Memory),
        Err(_) => Err(FrameError::TooLarge),
    }
}

/// The bytes that a transfer carries.
fn payload_of(body: &FrameBody) -> Result<Option<Bytes>, FrameError>
    ensures payload { IfOk result (λ p. p ≡ payload_of body.now) }
    ensures memory { IfErr result (λ e. e ≡ FrameError.Memory) }
{
    match body {
        FrameBody::Transfer { payload, .. } => match payload.clone() {
            Ok(payload) => Ok(Some(payload)),
            Err(_) => Err(FrameError::Memory),
        },
        _ => Ok(None),
    }
}

/// What the frame does to the deliveries of its channel that are under way.
fn effect_of(body: &FrameBody) -> Effect
    ensures { result ≡ effect_of body.now }
{
    match body {
        FrameBody::Begin(_) | FrameBody::End(_) => Effect::BreaksSession,
        FrameBody::Attach(attach) => Effect::BreaksLink(attach.handle),
        FrameBody::Detach(detach) => Effect::BreaksLink(detach.handle),
        FrameBody::Transfer { performative, .. } => Effect::Carries(part_of(performative)),
        _ => Effect::Nothing,
    }
}

/// What the transfer says of the part that it carries.
fn part_of(transfer: &Transfer) -> Part
    ensures { result ≡ part_of transfer.now }
{
    Part {
        handle: transfer.handle,
        delivery_id: transfer.delivery_id,
        more: transfer.more,
        aborted: transfer.aborted,
    }
}

/// The line for a frame behind which these deliveries are under way, and of which it may carry the last part.
pub(crate) fn frame_line(
    alloc: Global,
    deliveries: &mut Deliveries,
    bytes: &[u8],
) -> Result<String, Refusal> {
    let frame = seen_frame(alloc, bytes)?;
    let whole = deliveries.take(alloc, &frame)?;
    let mut line = performative_line(alloc, &frame)?;
    if frame.payload.is_some() {
        push_payload(alloc, &mut line, frame.payload().len(), whole)?;
    }
    Ok(line)
}

/// The channel of a frame, and its performative, or that there is none.
fn performative_line(alloc: Global, frame: &SeenFrame) -> Result<String, Refusal> {
    let channel = frame.channel;
    let mut line = format!(in alloc; "channel {channel} ")?;
    push_performative(alloc, &mut line, frame.performative.as_slice())?;
    Ok(line)
}

/// Appends how many bytes a transfer carries. Where a delivery is whole with them, it appends how many bytes that has,
/// if it has others, and the message that they are, if they are one.
fn push_payload(
    alloc: Global,
    line: &mut String,
    length: usize,
    whole: Option<Vec<u8>>,
) -> Result<(), Refusal> {
    write!(line, " payload {length}")?;
    let Some(whole) = whole else {
        return Ok(());
    };
    let all = whole.len();
    if all != length {
        write!(line, " of {all}")?;
    }
    push_message(alloc, line, whole.as_slice())
}

/// Appends a performative, or that there is none.
fn push_performative(alloc: Global, line: &mut String, bytes: &[u8]) -> Result<(), Refusal> {
    if bytes.is_empty() {
        line.push_str("empty")?;
        return Ok(());
    }
    let text = text_of(alloc, bytes)?;
    line.push_str(text.as_str())?;
    Ok(())
}

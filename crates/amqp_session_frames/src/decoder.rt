//! Frames are read.
ghost use Rattle.std.specs.Prelude.{◌≡◌, IfErr, IfNone, IfOk, IfSome};
ghost use Rattle.amqp_session_frames.specs.Body.{BodyRefused, Performed, PerformativeRefused};
ghost use Rattle.amqp_session_frames.specs.Text.{BodyText, FrameText, IsNoEmpty, NotRead, empty_on};
ghost use Rattle.amqp_session_performatives.specs.declared.performative.Performative.TheVariants as performing;

use crate::common_attach::{self, read_attach};
use crate::common_disposition::{self, read_disposition};
use crate::common_transfer::{self, read_transfer};
use crate::error::Error;
use crate::frame::{Frame, FrameBody};
use crate::header::read_header;
use amqp_session_performatives::{Performative, Transfer};
use bytes::Bytes;
use serde_amqp_de::from_reader;
use serde_amqp_read::SliceReader;
use std::alloc::Global;

/// Reads frames.
#[derive(Debug, Clone, Copy)]
pub struct FrameDecoder {}

impl FrameDecoder {
    /// A decoder.
    pub fn new() -> Self {
        FrameDecoder {}
    }

    /// The frame that these bytes are, with its size field (part 2, 2.3). The extended header is skipped. What stands
    /// behind a transfer is its payload, which is shared with the bytes and not copied; what stands behind another
    /// performative is left unread.
    ///
    /// `NotImplemented` where the type is not that of AMQP's frames. `DecodeError` where else the bytes are no frame.
    /// `Memory` where there is no memory.
    #[tactic(auto, using(crate::proofs::Bodies::bodies))]
    pub fn decode(&self, alloc: Global, bytes: Bytes) -> Result<Frame, Error>
        ensures frame { IfOk result (λ f. FrameText bytes f) }
        ensures refused { IfErr result (λ e. NotRead bytes e) }
    {
        let header = read_header(bytes.as_slice())?;
        let mut content = bytes;
        content.advance(header.start);
        Ok(Frame {
            channel: header.channel,
            body: read_body(alloc, content)?,
        })
    }

    /// The channel of the Empty frame that these bytes are, with its size field (part 2, 2.4.5). The extended header is
    /// skipped. It tells what `decode` would, and makes no frame of it.
    ///
    /// `None` where the bytes are no Empty frame: another one, or no frame at all.
    #[tactic(auto, using(crate::proofs::Empties::empties))]
    pub fn empty_frame(&self, bytes: &[u8]) -> Option<u16>
        ensures empty { IfSome result (λ channel. FrameText bytes.now (empty_on channel)) }
        ensures other { IfNone result (IsNoEmpty bytes.now) }
    {
        let Ok(header) = read_header(bytes) else {
            return None;
        };
        if header.start < bytes.len() {
            return None;
        }
        Some(header.channel)
    }
}

/// The body whose bytes these are.
#[tactic(auto, using(crate::proofs::Bodies::bodies))]
fn read_body(alloc: Global, content: Bytes) -> Result<FrameBody, Error>
    ensures body { IfOk result (λ b. BodyText content b) }
    ensures refused { IfErr result (λ e. BodyRefused content e) }
{
    if content.is_empty() {
        return Ok(FrameBody::Empty);
    }
    if has_code(content.as_slice(), common_transfer::CODE) {
        if let Some((transfer, read)) = read_transfer(alloc, content.as_slice()) {
            return Ok(carried(transfer, read, content));
        }
    }
    if has_code(content.as_slice(), common_disposition::CODE) {
        if let Some(disposition) = read_disposition(content.as_slice()) {
            return Ok(FrameBody::Disposition(disposition));
        }
    }
    if has_code(content.as_slice(), common_attach::CODE) {
        if let Some(attach) = read_attach(alloc, content.as_slice()) {
            return Ok(FrameBody::Attach(attach));
        }
    }
    let (performative, read) = read_performative(alloc, content.as_slice())?;
    let mut payload = content;
    payload.advance(read);
    Ok(FrameBody::of(performative, payload))
}

/// Whether a record with this descriptor may stand in front: others begin so, too.
#[inline(always)]
fn has_code(content: &[u8], code: u8) -> bool {
    if content.len() < 3 {
        return false;
    }
    content[2] == code
}

/// The body of this transfer, which stands in front in so many bytes, and of what stands behind it.
#[tactic(auto, using(crate::proofs::Bodies::bodies))]
fn carried(transfer: Transfer, read: usize, content: Bytes) -> FrameBody
    requires { Performed content (performing.Transfer transfer) read }
    ensures { BodyText content result }
{
    let mut behind = content;
    behind.advance(read);
    FrameBody::Transfer {
        performative: transfer,
        payload: behind,
    }
}

/// The performative that stands in front, and how many bytes it has.
#[tactic(auto, using(crate::proofs::Bodies::bodies))]
fn read_performative(alloc: Global, content: &[u8]) -> Result<(Performative, usize), Error>
    ensures performed { IfOk result (λ p. Performed content.now p.0 p.1) }
    ensures refused { IfErr result (λ e. PerformativeRefused content.now e) }
{
    match from_reader::<Performative, SliceReader>(alloc, SliceReader::new(content)) {
        Ok((performative, rest)) => Ok((performative, content.len() - rest.left().len())),
        Err(serde_amqp_item::Error::Memory) => Err(Error::Memory),
        Err(_) => Err(Error::DecodeError),
    }
}

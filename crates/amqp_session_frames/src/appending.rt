//! Frames are appended to bytes, each with its size in front.
ghost use Rattle.std.specs.Int.{to_be_bytes, w16, w32};
ghost use Rattle.std.specs.Prelude.{◌∷◌, ◌+◌, ◌++◌, ◌≡◌, ◌≤◌, IfErr, IfOk, OnErr, OnOk, length};
ghost use Rattle.serde_amqp_item.specs.Canon.{canon};
ghost use Rattle.amqp_session_frames.specs.Appending.{HasWholeSize, IsAppended, IsBody, IsLaidIn, IsLaidOut};
ghost use Rattle.amqp_session_frames.specs.Appending.{NotAppended, StandInFront};
ghost use Rattle.amqp_session_frames.specs.OfSession.{frame_of};
ghost use Rattle.amqp_session_frames.specs.Sizes.{Appends, HasText, NotWhole, Overflows};
ghost use Rattle.amqp_session_frames.specs.declared.error.Error.TheVariants.{Memory, TooLarge};
ghost use Rattle.amqp_session_frames.specs.declared.frame.FrameBody.TheVariants.{Empty};

use crate::encoder::{DATA_OFFSET, FrameEncoder, fits, size_of};
use crate::error::Error;
use crate::frame::{Frame, FrameBody};
use crate::header::{AMQP_TYPE, HEADER_SIZE};
use amqp_session_performatives::{SessionFrame, SessionFrameBody};
use serde_amqp_ser::{Serialize, Serializer};
use std::alloc::Global;

impl FrameEncoder {
    /// Appends a frame to `out`, with its size in front (part 2, 2.3), where it has at most `room` bytes in all, and
    /// answers the room that is left then. None where it has more: `out` is as before.
    ///
    /// The frame goes whole: a transfer that doesn't fit the limit is not divided, as
    /// [`encode`](FrameEncoder::encode) divides it. Room for all of it is taken at once, and its payload is copied.
    ///
    /// `TooLarge` where the frame has no text, as where one of its texts is longer than 2^32 - 1 bytes, or where it is
    /// over the limit, however much room there is. `Memory` where there is no memory. After either `out` is as before.
    pub fn append(
        &self,
        alloc: Global,
        frame: &Frame,
        room: usize,
        out: &mut Vec<u8>,
    ) -> Result<Option<usize>, Error>
        ensures ok { IfOk result (λ left.
            IsAppended self.now frame.now room left out.old.items out.new.items) }
        ensures refused { IfErr result (λ e. NotAppended self.now frame.now e) }
        ensures same { OnErr result (out.new.items ≡ out.old.items) }
    {
        let channel = frame.channel;
        match &frame.body {
            FrameBody::Empty => self.append_empty(channel, room, out),
            FrameBody::Open(open) => self.append_whole(alloc, channel, open, &[], room, out),
            FrameBody::Begin(begin) => self.append_whole(alloc, channel, begin, &[], room, out),
            FrameBody::Attach(attach) => self.append_whole(alloc, channel, attach, &[], room, out),
            FrameBody::Flow(flow) => self.append_whole(alloc, channel, flow, &[], room, out),
            FrameBody::Transfer {
                performative,
                payload,
            } => self.append_transfer(alloc, channel, performative, payload.as_slice(), room, out),
            FrameBody::Disposition(disposition) => {
                self.append_disposition(alloc, channel, disposition, room, out)
            }
            FrameBody::Detach(detach) => self.append_whole(alloc, channel, detach, &[], room, out),
            FrameBody::End(end) => self.append_whole(alloc, channel, end, &[], room, out),
            FrameBody::Close(close) => self.append_whole(alloc, channel, close, &[], room, out),
        }
    }

    /// Appends what a session hands out to `out`, as [`append`](FrameEncoder::append) does the frame that says the
    /// same. It is written where it lies.
    pub fn append_sent(
        &self,
        alloc: Global,
        frame: &SessionFrame,
        room: usize,
        out: &mut Vec<u8>,
    ) -> Result<Option<usize>, Error>
        ensures ok { IfOk result (λ left.
            IsAppended self.now (frame_of frame.now) room left out.old.items out.new.items) }
        ensures refused { IfErr result (λ e. NotAppended self.now (frame_of frame.now) e) }
        ensures same { OnErr result (out.new.items ≡ out.old.items) }
    {
        let channel = frame.channel;
        match &frame.body {
            SessionFrameBody::Begin(begin) => {
                self.append_whole(alloc, channel, begin, &[], room, out)
            }
            SessionFrameBody::Attach(attach) => {
                self.append_whole(alloc, channel, attach, &[], room, out)
            }
            SessionFrameBody::Flow(flow) => self.append_whole(alloc, channel, flow, &[], room, out),
            SessionFrameBody::Transfer {
                performative,
                payload,
            } => self.append_transfer(alloc, channel, performative, payload.as_slice(), room, out),
            SessionFrameBody::Disposition(disposition) => {
                self.append_disposition(alloc, channel, disposition, room, out)
            }
            SessionFrameBody::Detach(detach) => {
                self.append_whole(alloc, channel, detach, &[], room, out)
            }
            SessionFrameBody::End(end) => self.append_whole(alloc, channel, end, &[], room, out),
        }
    }

    /// Appends a frame without a performative, where it has room.
    #[tactic(auto, using(crate::proofs::Appended::empty_appended))]
    fn append_empty(
        &self,
        channel: u16,
        room: usize,
        out: &mut Vec<u8>,
    ) -> Result<Option<usize>, Error>
        ensures ok { IfOk result (λ left. IsAppended self.now
            (record { channel = channel; body = Empty }) room left out.old.items out.new.items) }
        ensures memory { IfErr result (λ e. e ≡ Memory) }
        ensures same { OnErr result (out.new.items ≡ out.old.items) }
    {
        // the limit is four at least, which are the bytes of this frame behind its size field
        let _ = self.body_room();
        let Some(left) = room.checked_sub(HEADER_SIZE) else {
            return Ok(None);
        };
        out.extend_from_slice(&front(HEADER_SIZE as u32, channel))?;
        Ok(Some(left))
    }

    /// Appends a frame with this performative and this payload, where it has room.
    #[tactic(auto, using(crate::proofs::Appended::laid_in, crate::proofs::Appended::laid_nowhere))]
    pub(crate) fn append_whole<P: Serialize>(
        &self,
        alloc: Global,
        channel: u16,
        performative: &P,
        payload: &[u8],
        room: usize,
        out: &mut Vec<u8>,
    ) -> Result<Option<usize>, Error>
        ensures ok { IfOk result (λ left. IsLaidIn self.now channel
            (canon (P.item performative.now)) payload.now room left out.old.items out.new.items) }
        ensures refused { IfErr result (λ e. NotWhole self.now
            (canon (P.item performative.now)) payload.now e) }
        ensures same { OnErr result (out.new.items ≡ out.old.items) }
    {
        let size = self.whole_size(performative, payload.len())?;
        let Some(left) = room.checked_sub(size) else {
            return Ok(None);
        };
        append_sized(alloc, channel, performative, payload, size, out)?;
        Ok(Some(left))
    }

    /// How many bytes a frame with this performative and so many bytes of payload has, its size field included.
    fn whole_size<P: Serialize>(&self, performative: &P, payload: usize) -> Result<usize, Error>
        ensures size { IfOk result (λ n. HasWholeSize
            (canon (P.item performative.now)) payload n) }
        ensures within { IfOk result (λ n. n ≤ self.now + 4) }
        ensures refused { IfErr result (λ e. (e ≡ TooLarge)
            × Overflows self.now (canon (P.item performative.now)) payload) }
    {
        let size = size_of(performative)?;
        if fits(self.body_room(), size, payload) {
            return Ok(HEADER_SIZE + size + payload);
        }
        Err(Error::TooLarge)
    }
}

/// Appends a frame with this performative and this payload, which has so many bytes: room for them is taken at once.
/// Nothing changes where there is no memory.
#[tactic(auto, using(crate::proofs::Appended::laid_behind, crate::proofs::Appended::cut_back))]
fn append_sized<P: Serialize>(
    alloc: Global,
    channel: u16,
    performative: &P,
    payload: &[u8],
    size: usize,
    out: &mut Vec<u8>,
) -> Result<(), Error>
    requires { HasWholeSize (canon (P.item performative.now)) (length payload.now) size }
    ensures ok { OnOk result (IsLaidOut channel (canon (P.item performative.now)) payload.now
        out.old.items out.new.items) }
    ensures err { IfErr result (λ e. (e ≡ Memory) × (out.new.items ≡ out.old.items)) }
{
    let start = out.len();
    out.reserve(size)?;
    out.extend_from_slice(&front(size as u32, channel))?;
    let written = append_body(alloc, performative, payload, out);
    if written.is_err() {
        out.truncate(start);
    }
    written
}

/// The size field and the header of a frame of so many bytes on the channel (part 2, 2.3.1).
pub(crate) fn front(size: u32, channel: u16) -> [u8; HEADER_SIZE]
    ensures { result ≡ to_be_bytes w32 size ++ (2 ∷ 0 ∷ to_be_bytes w16 channel) }
{
    let [a, b, c, d] = size.to_be_bytes();
    let [high, low] = channel.to_be_bytes();
    [a, b, c, d, DATA_OFFSET, AMQP_TYPE, high, low]
}

/// Appends a performative, which has a text, and the payload behind it. Where there is no memory, a part of them may
/// stand there.
#[tactic(auto, using(crate::proofs::Appended::bodies))]
fn append_body<P: Serialize>(
    alloc: Global,
    performative: &P,
    payload: &[u8],
    out: &mut Vec<u8>,
) -> Result<(), Error>
    requires { HasText (canon (P.item performative.now)) }
    ensures ok { OnOk result (IsBody (canon (P.item performative.now)) payload.now
        out.old.items out.new.items) }
    ensures err { IfErr result (λ e. (e ≡ Memory) × StandInFront out.old.items out.new.items) }
{
    append_performative(alloc, performative, out)?;
    out.extend_from_slice(payload)?;
    Ok(())
}

/// Appends a performative, which has a text. Nothing changes where there is no memory.
#[tactic(auto, using(crate::proofs::Sized::sizing))]
fn append_performative<P: Serialize>(
    alloc: Global,
    performative: &P,
    out: &mut Vec<u8>,
) -> Result<(), Error>
    requires { HasText (canon (P.item performative.now)) }
    ensures ok { OnOk result (Appends (canon (P.item performative.now))
        out.old.items out.new.items) }
    ensures err { IfErr result (λ e. (e ≡ Memory) × (out.new.items ≡ out.old.items)) }
{
    let mut serializer = Serializer::new(std::mem::replace(out, Vec::new(alloc)));
    let written = performative.serialize(&mut serializer);
    *out = serializer.into_inner();
    match written {
        Ok(()) => Ok(()),
        Err(serde_amqp_item::Error::Memory) => Err(Error::Memory),
        Err(_) => Err(Error::TooLarge),
    }
}

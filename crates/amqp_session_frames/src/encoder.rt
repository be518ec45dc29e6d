//! Frames are written.
ghost use Rattle.std.specs.Int.{to_be_bytes, w16};
ghost use Rattle.std.specs.Prelude.{[], ◌∷◌, ◌+◌, ◌++◌, ◌<◌, ◌≡◌, ◌≤◌, ℕ, All, IfErr, IfOk, List, OnOk, length, true};
ghost use Rattle.std.specs.Prelude.{false};
ghost use Rattle.serde_amqp_item.specs.Canon.{canon};
ghost use Rattle.amqp_session_performatives.specs.Continuation.{continuation};
ghost use Rattle.amqp_session_frames.specs.Cutting.{Cuts};
ghost use Rattle.amqp_session_frames.specs.Parts.{Continues, IsWritten, NotWritten, room, saying};
ghost use Rattle.amqp_session_frames.specs.Sizes.{Appends, Fills, Fits, HasSize, HasText, IsOnePiece, IsWhole};
ghost use Rattle.amqp_session_frames.specs.Sizes.{NotSized, NotWhole, Overflows, PartsRefused, transfer_text};
ghost use Rattle.amqp_session_frames.specs.Text.{IsOver, IsWithin, frame_text, open_on};
ghost use Rattle.amqp_session_frames.specs.declared.error.Error.TheVariants.{Memory, TooLarge};
ghost use Rattle.amqp_session_frames.specs.declared.frame.FrameBody.TheVariants.{Empty, Transfer as TransferBody};

use crate::error::Error;
use crate::frame::{Frame, FrameBody};
use crate::header::{AMQP_TYPE, HEADER_SIZE, SIZE_FIELD};
use crate::part::Part;
use crate::piece::Piece;
use crate::pieces::Pieces;
use amqp_session_performatives::{Open, Transfer};
use bytes::Bytes;
use serde_amqp_ser::{Serialize, Serializer, serialized_size};
use std::alloc::Global;
use std::marker::Model;

/// Writes frames as pieces of at most so many bytes without their size field. A clause sees this limit.
#[derive(Debug, Drop)]
pub struct FrameEncoder {
    limit: usize,
}

impl Model for FrameEncoder {
    ghost use Rattle.std.specs.Prelude.{ℕ, ◌≤◌};

    ghost Value = { ℕ };

    ghost view = { λ e. e.limit };

    ghost invariant = { λ e. 4 ≤ e.limit };
}

/// The bytes of a header behind its size field, without an extension (part 2, 2.3.1).
const HEAD_SIZE: usize = HEADER_SIZE - SIZE_FIELD;

/// The data offset of a frame without an extended header, in words of four bytes.
pub(crate) const DATA_OFFSET: u8 = 2;

/// The most bytes that a frame can have without its size field.
const MOST: usize = u32::MAX as usize - SIZE_FIELD;

impl FrameEncoder {
    /// An encoder for pieces of at most `limit` bytes, without the four of the size field.
    pub fn new(limit: usize) -> Self
        requires { 4 ≤ limit }
        ensures { result ≡ limit }
    {
        FrameEncoder { limit }
    }

    /// The pieces of a frame, none longer than the limit: with their sizes in front they are its text (part 2, 2.3).
    ///
    /// A transfer that doesn't fit goes in several frames, each but the last as long as it may be: the first says all that
    /// it says and that more comes, those behind it the handle and whether more comes, and together they carry its payload
    /// (part 2, 2.7.5). The payload is shared with the pieces, and not copied. The frame is lent: what can't be written yet
    /// is kept as it is.
    ///
    /// `TooLarge` where the frame has no text, as where one of its texts is longer than 2^32 - 1 bytes, or where it does
    /// not fit: a transfer where its performative, with `more`, leaves no room for a byte of payload. `Memory` where there
    /// is no memory.
    #[inline(always)]
    pub fn encode(&self, alloc: Global, frame: &Frame) -> Result<Pieces, Error>
        ensures text { IfOk result (λ v. IsWritten self.now frame.now v) }
        ensures limit { IfOk result (λ v. All (λ p. length p ≤ self.now) v) }
        ensures refused { IfErr result (λ e. NotWritten self.now frame.now e) }
    {
        let channel = frame.channel;
        match &frame.body {
            FrameBody::Empty => self.encode_empty(alloc, channel),
            FrameBody::Open(open) => self.encode_undivided(alloc, channel, open),
            FrameBody::Begin(begin) => self.encode_undivided(alloc, channel, begin),
            FrameBody::Attach(attach) => self.encode_undivided(alloc, channel, attach),
            FrameBody::Flow(flow) => self.encode_undivided(alloc, channel, flow),
            FrameBody::Transfer {
                performative,
                payload,
            } => self.encode_transfer(alloc, channel, performative, payload),
            FrameBody::Disposition(disposition) => {
                self.encode_undivided(alloc, channel, disposition)
            }
            FrameBody::Detach(detach) => self.encode_undivided(alloc, channel, detach),
            FrameBody::End(end) => self.encode_undivided(alloc, channel, end),
            FrameBody::Close(close) => self.encode_undivided(alloc, channel, close),
        }
    }

    /// Whether a frame with this Open has a text, and one within the limit. An Open is sent before the peer's is known,
    /// when a frame may have 512 bytes (part 2, 2.4.1). It is measured, and not written.
    #[tactic(auto, using(crate::proofs::Measuring::measuring))]
    pub fn holds_open(&self, opening: &Open) -> bool
        ensures yes { result ≡ true → (channel : ℕ) →
            IsWithin (self.now + 4) (frame_text (open_on channel opening.now)) }
        ensures no { result ≡ false → (channel : ℕ) →
            IsOver (self.now + 4) (frame_text (open_on channel opening.now)) }
    {
        match size_of(opening) {
            Ok(size) => fits(self.body_room(), size, 0),
            Err(_) => false,
        }
    }

    /// The piece of a frame without a performative.
    fn encode_empty(&self, alloc: Global, channel: u16) -> Result<Pieces, Error>
        ensures text { IfOk result (λ v. IsWritten self.now
            (record { channel = channel; body = Empty }) v) }
        ensures limit { IfOk result (λ v. All (λ p. length p ≤ self.now) v) }
        ensures memory { IfErr result (λ e. e ≡ Memory) }
    {
        // the limit is four at least, which are the bytes of this frame
        let _ = &self.limit;
        let head = empty_head(alloc, channel)?;
        Ok(one_piece(alloc, head, Bytes::new()))
    }

    /// The piece of a frame with this performative, which is never divided.
    fn encode_undivided<P: Serialize>(
        &self,
        alloc: Global,
        channel: u16,
        performative: &P,
    ) -> Result<Pieces, Error>
        ensures text { IfOk result (λ v. IsWhole self.now channel
            (canon (P.item performative.now)) [] v) }
        ensures refused { IfErr result (λ e. NotWhole self.now
            (canon (P.item performative.now)) [] e) }
    {
        let size = size_of(performative)?;
        if fits(self.body_room(), size, 0) {
            return write_whole(alloc, channel, performative, size, Bytes::new());
        }
        Err(Error::TooLarge)
    }

    /// The pieces of a frame with this transfer, and this payload behind it.
    fn encode_transfer(
        &self,
        alloc: Global,
        channel: u16,
        transfer: &Transfer,
        payload: &Bytes,
    ) -> Result<Pieces, Error>
        ensures text { IfOk result (λ v. IsWritten self.now
            (record { channel = channel; body = TransferBody transfer.now payload.now }) v) }
        ensures limit { IfOk result (λ v. All (λ p. length p ≤ self.now) v) }
        ensures refused { IfErr result (λ e. NotWritten self.now
            (record { channel = channel; body = TransferBody transfer.now payload.now }) e) }
    {
        let size = size_of(transfer)?;
        if fits(self.body_room(), size, payload.len()) {
            return write_whole(alloc, channel, transfer, size, payload.clone()?);
        }
        self.encode_parts(alloc, channel, transfer, payload.clone()?)
    }

    /// The pieces of a transfer that doesn't fit.
    fn encode_parts(
        &self,
        alloc: Global,
        channel: u16,
        transfer: &Transfer,
        payload: Bytes,
    ) -> Result<Pieces, Error>
        requires { Overflows self.now (transfer_text transfer.now) (length payload) }
        ensures text { IfOk result (λ v. IsWritten self.now
            (record { channel = channel; body = TransferBody transfer.now payload }) v) }
        ensures limit { IfOk result (λ v. All (λ p. length p ≤ self.now) v) }
        ensures refused { IfErr result (λ e. PartsRefused self.now transfer.now e) }
    {
        let mut payload = payload;
        let part = Part {
            transfer,
            more: true,
        };
        let room = self.payload_room(&part)?;
        let head = write_part(alloc, channel, &part, self.body_room() - room)?;
        let first = payload.split_to(room)?;
        let mut others = Vec::new(alloc);
        self.push_others(alloc, channel, transfer, payload, &mut others)?;
        Ok(Pieces::new(Piece::new(head, first), others))
    }

    /// The pieces behind the first one, which carry the rest of the payload.
    ///
    /// It owns what they say and does no more than lend it: what owns a value of so large a type takes long to check where
    /// it may return at several places.
    fn push_others(
        &self,
        alloc: Global,
        channel: u16,
        transfer: &Transfer,
        payload: Bytes,
        pieces: &mut Vec<Piece>,
    ) -> Result<(), Error>
        requires room { Fits self.now (transfer_text (saying (continuation transfer.now) true)) 1 }
        requires payload { 0 < length payload }
        ensures ok { OnOk result (Continues self.now channel (continuation transfer.now)
            transfer.now.more payload pieces.old.items pieces.new.items) }
        ensures memory { IfErr result (λ e. e ≡ Memory) }
    {
        let behind = continued(transfer);
        self.push_continuations(alloc, channel, &behind, payload, pieces)
    }

    /// The pieces of a continuation, each but the last as long as it may be: those say that more comes, and the last one
    /// whether more comes behind it.
    fn push_continuations(
        &self,
        alloc: Global,
        channel: u16,
        behind: &Transfer,
        payload: Bytes,
        pieces: &mut Vec<Piece>,
    ) -> Result<(), Error>
        requires continues { continuation behind.now ≡ behind.now }
        requires room { Fits self.now (transfer_text (saying behind.now true)) 1 }
        requires payload { 0 < length payload }
        ensures ok { OnOk result (Continues self.now channel behind.now behind.now.more payload
            pieces.old.items pieces.new.items) }
        ensures memory { IfErr result (λ e. e ≡ Memory) }
    {
        let mut payload = payload;
        let full = Part {
            transfer: behind,
            more: true,
        };
        let room = self.payload_room(&full)?;
        let size = self.body_room() - room;
        let head = write_shared(alloc, channel, &full, size)?;
        push_middles(pieces, &head, &mut payload, room)?;
        let last = Part {
            transfer: behind,
            more: behind.more,
        };
        let last = write_part(alloc, channel, &last, size)?;
        pieces.push(Piece::new(last, payload))?;
        Ok(())
    }

    /// The most bytes that a piece may have behind its header.
    pub(crate) fn body_room(&self) -> usize
        ensures { result + 4 ≡ room self.now }
    {
        self.limit.min(MOST) - HEAD_SIZE
    }

    /// How many bytes of payload fill the room behind this part's transfer, one at least.
    #[tactic(auto, using(crate::proofs::Dividing::filling))]
    fn payload_room(&self, part: &Part<'_>) -> Result<usize, Error>
        ensures room { IfOk result (λ n. Fills self.now
            (transfer_text (saying part.now.transfer.now part.now.more)) n) }
        ensures refused { IfErr result (λ e. (e ≡ TooLarge) × Overflows self.now
            (transfer_text (saying part.now.transfer.now part.now.more)) 1) }
    {
        let room = self.body_room();
        let size = part_size(part)?;
        if fits(room, size, 1) {
            return Ok(room - size);
        }
        Err(Error::TooLarge)
    }
}

/// Whether a performative of so many bytes, with so many bytes of payload behind it, has this room.
pub(crate) fn fits(room: usize, size: usize, payload: usize) -> bool
    ensures yes { result ≡ true → size + payload ≤ room }
    ensures no { result ≡ false → room < size + payload }
{
    match room.checked_sub(size) {
        Some(left) => payload <= left,
        None => false,
    }
}

/// How many bytes the part's transfer is written as.
#[tactic(auto, unfolding(crate::specs::Sizes::transfer_text))]
fn part_size(part: &Part<'_>) -> Result<usize, Error>
    ensures size { IfOk result (λ n. HasSize
        (transfer_text (saying part.now.transfer.now part.now.more)) n) }
    ensures refused { IfErr result (λ e. (e ≡ TooLarge) × NotSized
        (transfer_text (saying part.now.transfer.now part.now.more))) }
{
    size_of(part)
}

/// The bytes of a frame with this part up to its payload, without its size field. Room for so many bytes of its transfer,
/// which has a text, is taken at once.
#[tactic(auto, unfolding(crate::specs::Sizes::transfer_text))]
fn write_part(alloc: Global, channel: u16, part: &Part<'_>, size: usize) -> Result<Vec<u8>, Error>
    requires { HasText (transfer_text (saying part.now.transfer.now part.now.more)) }
    ensures ok { IfOk result (λ h. Appends
        (transfer_text (saying part.now.transfer.now part.now.more))
        (2 ∷ 0 ∷ to_be_bytes w16 channel) h.items) }
    ensures memory { IfErr result (λ e. e ≡ Memory) }
{
    write_head(alloc, channel, part, size)
}

/// The bytes that several frames begin with, each with this part, up to their payloads and without their size fields.
/// Room is taken as for one.
fn write_shared(alloc: Global, channel: u16, part: &Part<'_>, size: usize) -> Result<Bytes, Error>
    requires { HasText (transfer_text (saying part.now.transfer.now part.now.more)) }
    ensures ok { IfOk result (λ h. Appends
        (transfer_text (saying part.now.transfer.now part.now.more))
        (2 ∷ 0 ∷ to_be_bytes w16 channel) h) }
    ensures memory { IfErr result (λ e. e ≡ Memory) }
{
    let head = write_part(alloc, channel, part, size)?;
    Ok(Bytes::from_vec(head)?)
}

/// What the transfers behind a delivery's first one say of it: the link, and whether more comes (part 2, 2.7.5).
fn continued(transfer: &Transfer) -> Transfer
    ensures { result ≡ continuation transfer.now }
{
    Transfer {
        handle: transfer.handle,
        delivery_id: None,
        delivery_tag: None,
        message_format: None,
        settled: None,
        more: transfer.more,
        rcv_settle_mode: None,
        state: None,
        resume: false,
        aborted: false,
        batchable: false,
    }
}

/// Pieces that begin with these bytes and carry so many bytes of the payload each, while more than that is left.
#[tactic(auto, using(crate::proofs::Middles::middles))]
fn push_middles(
    pieces: &mut Vec<Piece>,
    head: &Bytes,
    payload: &mut Bytes,
    room: usize,
) -> Result<(), Error>
    requires { 0 < room }
    ensures pieces { OnOk result (Cuts head.now room pieces.old.items pieces.new.items payload.old
        payload.new) }
    ensures left { OnOk result (length payload.new ≤ room) }
    ensures memory { IfErr result (λ e. e ≡ Memory) }
{
    while payload.len() > room {
        let front = payload.split_to(room)?;
        pieces.push(Piece::sharing(head.clone()?, front))?;
    }
    Ok(())
}

/// A piece of these bytes and this payload, alone.
#[inline(always)]
fn one_piece(alloc: Global, head: Vec<u8>, payload: Bytes) -> Pieces
    ensures { result ≡ (head.items ++ payload) ∷ [] }
{
    Pieces::new(Piece::new(head, payload), Vec::new(alloc))
}

/// The piece of a frame with this performative, of so many bytes, and with this payload behind it.
fn write_whole<P: Serialize>(
    alloc: Global,
    channel: u16,
    performative: &P,
    size: usize,
    payload: Bytes,
) -> Result<Pieces, Error>
    requires { HasText (canon (P.item performative.now)) }
    ensures ok { IfOk result (λ v. IsOnePiece (canon (P.item performative.now))
        (2 ∷ 0 ∷ to_be_bytes w16 channel) payload v) }
    ensures memory { IfErr result (λ e. e ≡ Memory) }
{
    let head = write_head(alloc, channel, performative, size)?;
    Ok(one_piece(alloc, head, payload))
}

/// The bytes of a frame without a body, without its size field.
fn empty_head(alloc: Global, channel: u16) -> Result<Vec<u8>, Error>
    ensures ok { IfOk result (λ h. h.items ≡ 2 ∷ 0 ∷ to_be_bytes w16 channel) }
    ensures memory { IfErr result (λ e. e ≡ Memory) }
{
    let mut head = Vec::with_capacity(alloc, HEAD_SIZE)?;
    push_header(&mut head, channel)?;
    Ok(head)
}

/// The bytes of a frame up to its payload, without its size field. Room for so many bytes of the performative, which has a
/// text, is taken at once.
#[tactic(auto, using(crate::proofs::Sized::sizing))]
fn write_head<T: Serialize>(
    alloc: Global,
    channel: u16,
    performative: &T,
    size: usize,
) -> Result<Vec<u8>, Error>
    requires { HasText (canon (T.item performative.now)) }
    ensures ok { IfOk result (λ h. Appends (canon (T.item performative.now))
        (2 ∷ 0 ∷ to_be_bytes w16 channel) h.items) }
    ensures memory { IfErr result (λ e. e ≡ Memory) }
{
    let mut head = Vec::with_capacity(alloc, HEAD_SIZE.saturating_add(size))?;
    push_header(&mut head, channel)?;
    let mut serializer = Serializer::new(head);
    match performative.serialize(&mut serializer) {
        Ok(()) => Ok(serializer.into_inner()),
        Err(serde_amqp_item::Error::Memory) => Err(Error::Memory),
        Err(_) => Err(Error::TooLarge),
    }
}

/// The header of a frame on the channel, without its size field (part 2, 2.3.1).
fn push_header(head: &mut Vec<u8>, channel: u16) -> Result<(), Error>
    ensures ok { OnOk result (head.new.items ≡ head.old.items
        ++ (2 ∷ 0 ∷ to_be_bytes w16 channel)) }
    ensures memory { IfErr result (λ e. e ≡ Memory) }
{
    head.extend_from_slice(&[DATA_OFFSET, AMQP_TYPE])?;
    head.extend_from_slice(&channel.to_be_bytes())?;
    Ok(())
}

/// How many bytes the performative is written as.
#[tactic(auto, using(crate::proofs::Sized::sizing))]
pub(crate) fn size_of<T: Serialize>(performative: &T) -> Result<usize, Error>
    ensures size { IfOk result (λ n. HasSize (canon (T.item performative.now)) n) }
    ensures refused { IfErr result (λ e. (e ≡ TooLarge)
        × NotSized (canon (T.item performative.now))) }
{
    match serialized_size(performative) {
        Ok(size) => Ok(size),
        Err(_) => Err(Error::TooLarge),
    }
}

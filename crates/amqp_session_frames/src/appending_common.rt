//! Frames whose performative is in its common form are appended, beside `append_whole`.
ghost use Rattle.std.specs.Prelude.{◌+◌, ◌++◌, ◌<◌, ◌≡◌, ◌≤◌, ◌^◌, IfErr, IfOk, OnErr, OnOk, Some, []};
ghost use Rattle.std.specs.Prelude.{length, slice_range, vec_capacity, vec_len};
ghost use Rattle.serde_amqp_item.specs.Canon.{canon};
ghost use Rattle.amqp_session_performatives.specs.Disposition.{disposition_item};
ghost use Rattle.amqp_session_performatives.specs.Transfer.{transfer_item};
ghost use Rattle.amqp_session_frames.specs.Appending.{IsLaidIn, IsLaidOut};
ghost use Rattle.amqp_session_frames.specs.Sizes.{NotWhole};
ghost use Rattle.amqp_session_frames.specs.declared.error.Error.TheVariants.{Memory};

use crate::appending::front;
use crate::common_disposition::write_disposition;
use crate::common_transfer::write_transfer;
use crate::encoder::{FrameEncoder, fits};
use crate::error::Error;
use crate::header::HEADER_SIZE;
use crate::items::{ROOM, put};
use amqp_session_performatives::{Disposition, Transfer};
use std::alloc::Global;

impl FrameEncoder {
    /// Appends a frame with this transfer and this payload, where it has room.
    #[tactic(auto, using(crate::proofs::CommonLaid::as_held), unfolding(crate::specs::Sizes::transfer_text))]
    pub(crate) fn append_transfer(
        &self,
        alloc: Global,
        channel: u16,
        transfer: &Transfer,
        payload: &[u8],
        room: usize,
        out: &mut Vec<u8>,
    ) -> Result<Option<usize>, Error>
        ensures ok { IfOk result (λ left. IsLaidIn self.now channel
            (canon (transfer_item transfer.now)) payload.now room left out.old.items
            out.new.items) }
        ensures refused { IfErr result (λ e. NotWhole self.now
            (canon (transfer_item transfer.now)) payload.now e) }
        ensures same { OnErr result (out.new.items ≡ out.old.items) }
    {
        let mut text = [0; ROOM];
        let Some(end) = write_transfer(transfer, &mut text) else {
            return self.append_whole(alloc, channel, transfer, payload, room, out);
        };
        self.append_text(channel, &mut text, end, payload, room, out)
    }

    /// Appends a frame with this disposition, where it has room.
    #[tactic(auto, using(crate::proofs::CommonLaid::as_held), unfolding(crate::specs::CommonDisposition::disposition_text))]
    pub(crate) fn append_disposition(
        &self,
        alloc: Global,
        channel: u16,
        disposition: &Disposition,
        room: usize,
        out: &mut Vec<u8>,
    ) -> Result<Option<usize>, Error>
        ensures ok { IfOk result (λ left. IsLaidIn self.now channel
            (canon (disposition_item disposition.now)) [] room left out.old.items
            out.new.items) }
        ensures refused { IfErr result (λ e. NotWhole self.now
            (canon (disposition_item disposition.now)) [] e) }
        ensures same { OnErr result (out.new.items ≡ out.old.items) }
    {
        let mut text = [0; ROOM];
        let Some(end) = write_disposition(disposition, &mut text) else {
            return self.append_whole(alloc, channel, disposition, &[], room, out);
        };
        self.append_text(channel, &mut text, end, &[], room, out)
    }

    /// Appends a frame with the performative whose text stands from 8 on and ends there, and with this payload, where
    /// it has room.
    #[tactic(auto, using(crate::proofs::CommonLaid::whole_has_size, crate::proofs::Appended::laid_in, crate::proofs::Appended::laid_nowhere))]
    fn append_text(
        &self,
        channel: u16,
        text: &mut [u8; ROOM],
        end: usize,
        payload: &[u8],
        room: usize,
        out: &mut Vec<u8>,
    ) -> Result<Option<usize>, Error>
        requires { (8 ≤ end) × (end ≤ 72) }
        ensures ok { IfOk result (λ left. IsLaidIn self.now channel
            (Some (slice_range text.old 8 end)) payload.now room left out.old.items
            out.new.items) }
        ensures refused { IfErr result (λ e. NotWhole self.now
            (Some (slice_range text.old 8 end)) payload.now e) }
        ensures same { OnErr result (out.new.items ≡ out.old.items) }
    {
        if !fits(self.body_room(), end - HEADER_SIZE, payload.len()) {
            return Err(Error::TooLarge);
        }
        let size = end + payload.len();
        let Some(left) = room.checked_sub(size) else {
            return Ok(None);
        };
        lay_out(channel, text, end, payload, out)?;
        Ok(Some(left))
    }
}

/// Appends a frame with the performative whose text stands from 8 on and ends there, and with this payload. Nothing
/// changes where there is no memory.
#[tactic(auto, using(crate::proofs::CommonLaid::laid_text))]
fn lay_out(
    channel: u16,
    text: &mut [u8; ROOM],
    end: usize,
    payload: &[u8],
    out: &mut Vec<u8>,
) -> Result<(), Error>
    requires place { (8 ≤ end) × (end ≤ 72) }
    requires size { end + length payload.now < 2 ^ 32 }
    ensures ok { OnOk result (IsLaidOut channel (Some (slice_range text.old 8 end)) payload.now
        out.old.items out.new.items) }
    ensures err { IfErr result (λ e. (e ≡ Memory) × (out.new.items ≡ out.old.items)) }
{
    let size = end + payload.len();
    put(text, 0, &front(size as u32, channel));
    out.reserve(size)?;
    add(out, &text[..end]);
    add(out, payload);
    Ok(())
}

/// Adds bytes, for which there is room.
#[inline(always)]
fn add(out: &mut Vec<u8>, bytes: &[u8])
    requires { vec_len out.old + length bytes.now ≤ vec_capacity out.old }
    ensures items { out.new.items ≡ out.old.items ++ bytes.now }
    ensures len { vec_len out.new ≡ vec_len out.old + length bytes.now }
    ensures capacity { vec_capacity out.old ≤ vec_capacity out.new }
{
    let _ = out.extend_from_slice(bytes);
}

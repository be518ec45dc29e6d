//! The header of a frame.
ghost use Rattle.std.specs.Prelude.{◌≡◌, ◌≤◌, length, true, false, IfOk, IfErr};
ghost use Rattle.amqp_session_frames.specs.Header.{HasHeader, HeaderRefused};
ghost use Rattle.amqp_session_frames.specs.Text.{IsOtherType};

use crate::error::Error;

/// The header of a frame (part 2, 2.3.1).
#[derive(Clone, Copy)]
pub(crate) struct Header {
    /// The frame's channel.
    pub(crate) channel: u16,
    /// Where its body starts, behind the extended header.
    pub(crate) start: usize,
}

/// The type of AMQP's frames (part 2, 2.3.2).
pub(crate) const AMQP_TYPE: u8 = 0;

/// The bytes of the size field, with which a frame begins (part 2, 2.3.1).
pub(crate) const SIZE_FIELD: usize = 4;

/// The bytes of a header with its size field, without an extension (part 2, 2.3.1).
pub(crate) const HEADER_SIZE: usize = 8;

/// Whether the bytes have another type than AMQP's frames.
fn has_other_type(bytes: &[u8]) -> bool
    ensures other { result ≡ true → IsOtherType bytes.now }
    ensures amqp { result ≡ false → IsOtherType bytes.now → ⊥ }
{
    if bytes.len() < 6 {
        return false;
    }
    bytes[5] != AMQP_TYPE
}

/// The header of the bytes, which are one whole frame.
#[tactic(auto, using(crate::proofs::Layouts::layouts))]
pub(crate) fn read_header(bytes: &[u8]) -> Result<Header, Error>
    ensures header { IfOk result (λ h. HasHeader bytes.now h.channel h.start) }
    ensures start { IfOk result (λ h. h.start ≤ length bytes.now) }
    ensures refused { IfErr result (λ e. HeaderRefused bytes.now e) }
{
    if has_other_type(bytes) {
        return Err(Error::NotImplemented);
    }
    if bytes.len() < HEADER_SIZE {
        return Err(Error::DecodeError);
    }
    let size = u32::from_be_bytes([bytes[0], bytes[1], bytes[2], bytes[3]]);
    let start = bytes[4] as usize * 4;
    let channel = u16::from_be_bytes([bytes[6], bytes[7]]);
    if size as usize != bytes.len() {
        return Err(Error::DecodeError);
    }
    if start < HEADER_SIZE {
        return Err(Error::DecodeError);
    }
    if bytes.len() < start {
        return Err(Error::DecodeError);
    }
    Ok(Header { channel, start })
}

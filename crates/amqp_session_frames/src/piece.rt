//! A piece of what is sent of a frame: its head and its payload.
ghost use Rattle.std.specs.Prelude.{◌≡◌, ◌++◌, length, OnOk, OnErr};
ghost use Rattle.amqp_session_frames.specs.Piece.{head_bytes};

use bytes::Bytes;
use std::alloc::AllocError;
use std::marker::Model;

/// What stands in front of a payload.
#[derive(Debug, Drop)]
pub(crate) enum Head {
    /// Bytes of this piece alone.
    Own(Vec<u8>),
    /// Bytes that other pieces begin with too.
    Shared(Bytes),
}

impl Head {
    fn as_slice(&self) -> &[u8]
        ensures { result.now ≡ head_bytes self.now }
    {
        match self {
            Head::Own(bytes) => bytes.as_slice(),
            Head::Shared(bytes) => bytes.as_slice(),
        }
    }
}

/// What is sent of one frame behind its size field: the header with the performative, and a payload that is shared.
/// A clause sees the bytes of both, joined.
#[derive(Debug, Drop)]
pub struct Piece {
    head: Head,
    payload: Bytes,
}

impl Model for Piece {
    ghost use Rattle.std.specs.Prelude.{List, ℕ, ◌++◌};
    ghost use Rattle.amqp_session_frames.specs.Piece.{head_bytes};

    ghost Value = { List ℕ };

    ghost view = { λ p. head_bytes p.head ++ p.payload };
}

impl Piece {
    /// A piece of these bytes and this payload.
    #[inline(always)]
    pub(crate) fn new(head: Vec<u8>, payload: Bytes) -> Self
        ensures { result ≡ head.items ++ payload }
    {
        Piece {
            head: Head::Own(head),
            payload,
        }
    }

    /// A piece of these bytes, which other pieces begin with too, and this payload.
    pub(crate) fn sharing(head: Bytes, payload: Bytes) -> Self
        ensures { result ≡ head ++ payload }
    {
        Piece {
            head: Head::Shared(head),
            payload,
        }
    }

    /// How many bytes it has.
    pub fn len(&self) -> usize
        ensures { result ≡ length self.now }
    {
        self.head.as_slice().len() + self.payload.len()
    }

    /// Appends the bytes to `out`. Where there is no memory for them, `out` is as before.
    pub fn write_to(&self, out: &mut Vec<u8>) -> Result<(), AllocError>
        ensures ok { OnOk result (out.new.items ≡ out.old.items ++ self.now) }
        ensures err { OnErr result (out.new.items ≡ out.old.items) }
    {
        out.reserve(self.len())?;
        out.extend_from_slice(self.head.as_slice())?;
        out.extend_from_slice(self.payload.as_slice())
    }
}

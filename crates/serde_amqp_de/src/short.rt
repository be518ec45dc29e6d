//! What the bytes of a value are kept in.
ghost use Rattle.std.specs.Prelude.{◌≡◌, ◌<◌, ◌++◌, [], ℕ, List, length, IfOk, OnErr};
ghost use Rattle.serde_amqp_read.specs.Reads.{Unless};

use serde_amqp_item::Error;
use serde_amqp_read::Read;
use smallvec::SmallVec;
use std::alloc::Global;

/// How many bytes lie in a value itself: as many as a delivery's tag has at most (part 2, 2.8.7).
const SHORT: usize = 32;

/// Bytes, of which up to 32 lie in the value itself.
pub type ShortBytes = SmallVec<u8, SHORT>;

/// What the bytes of a value are kept in, as they are read.
pub(crate) trait Kept: Drop {
    /// The bytes.
    ghost items: { Self → List ℕ };

    /// Takes so many bytes of a reader.
    ///
    /// Errors: `Io` where fewer are left; `Memory`.
    fn take<R: Read>(reader: &mut R, alloc: Global, count: usize) -> Result<Self, Error>
        ensures ok { IfOk result (λ v. R.rest reader.old ≡ items v ++ R.rest reader.new) }
        ensures len { IfOk result (λ v. length (items v) ≡ count) }
        ensures end { Unless R.faulty result (length (R.rest reader.old) < count) }
        ensures failed { OnErr result (R.rest reader.new ≡ []) };
}

impl Kept for Vec<u8> {
    ghost items = { λ v. v.items };

    fn take<R: Read>(reader: &mut R, alloc: Global, count: usize) -> Result<Vec<u8>, Error> {
        reader.read_bytes(alloc, count)
    }
}

impl Kept for ShortBytes {
    ghost items = { λ v. v.items };

    fn take<R: Read>(reader: &mut R, alloc: Global, count: usize) -> Result<ShortBytes, Error> {
        if count > SHORT {
            let bytes = reader.read_bytes(alloc, count)?;
            return Ok(SmallVec::from_vec(bytes));
        }
        let mut bytes = [0; SHORT];
        reader.read_exact(&mut bytes[..count])?;
        Ok(SmallVec::from_buf_and_len(alloc, bytes, count))
    }
}

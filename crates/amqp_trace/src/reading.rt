//! Values that are read as a type and written anew.
ghost use Rattle.std.specs.Prelude.{◌≡◌, IfOk};
ghost use Rattle.amqp_trace.specs.Reread.{IsReread};

use crate::refusal::Refusal;
use crate::text::text_of;
use serde_amqp_de::from_reader;
use serde_amqp_item::Error;
use serde_amqp_read::SliceReader;
use serde_amqp_round_trip::RoundTrip;
use serde_amqp_ser::to_vec;
use std::alloc::Global;

/// A value that a front of bytes was read as.
#[derive(Debug, Drop)]
pub struct Rewritten {
    /// What it is written as.
    pub text: Vec<u8>,
    /// How many bytes stand behind the front.
    pub left: usize,
}

/// Reads a value of the type from the front of the bytes, and says what it is written as.
pub fn reread<T: RoundTrip + Drop>(alloc: Global, bytes: &[u8]) -> Result<Rewritten, Error>
    ensures { IfOk result (λ r. IsReread T.take bytes.now r.text.items r.left) }
{
    let (value, rest) = from_reader::<T, SliceReader>(alloc, SliceReader::new(bytes))?;
    let left = rest.left().len();
    let text = to_vec(alloc, &value)?;
    Ok(Rewritten { text, left })
}

/// The text of what is written, and how many bytes are left behind what was read, if any are.
pub(crate) fn answer_of(alloc: Global, written: &Rewritten) -> Result<String, Refusal> {
    let mut answer = text_of(alloc, written.text.as_slice())?;
    let left = written.left;
    if left > 0 {
        write!(&mut answer, " left {left}")?;
    }
    Ok(answer)
}

//! The section at the front of a payload (part 3, 3.2).
ghost use Rattle.std.specs.Prelude.{◌≡◌, IfOk, IfErr};
ghost use Rattle.amqp_link_message.specs.Front.{FrontTaken};

use serde_amqp_de::{Deserialize, SliceReader, from_reader};
use serde_amqp_item::Error;
use std::alloc::Global;

/// Takes a section of this type from the front of the bytes, where one stands there, and gives the bytes behind it.
///
/// Errors: `Memory` alone. Where no such section stands there, all bytes are left.
pub(crate) fn take_front<'a, S: Deserialize + Drop>(
    alloc: Global,
    bytes: &'a [u8],
) -> Result<(Option<S>, &'a [u8]), Error>
    ensures ok { IfOk result (λ p. FrontTaken S.take S.item bytes.now p.0 p.1.now) }
    ensures memory { IfErr result (λ e. e ≡ Error.Memory) }
{
    match from_reader::<S, SliceReader<'a>>(alloc, SliceReader::new(bytes)) {
        Ok((section, reader)) => Ok((Some(section), reader.left())),
        Err(Error::Memory) => Err(Error::Memory),
        Err(_) => Ok((None, bytes)),
    }
}

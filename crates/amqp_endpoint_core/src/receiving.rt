//! What the peer sends is read and fed.
ghost use Rattle.std.specs.Prelude.{◌≡◌, ◌<◌, length, IfOk, MatchOption, OnErr};
ghost use Rattle.std.specs.Io.KnownBytes.{Keeps};
ghost use Rattle.amqp_endpoint_core.specs.Moves.{EndsReading, Receives};

use crate::Endpoint;
use amqp_endpoint_model::{Fed, SessionRelay};
use std::io;
use std::io::Read;

/// Reads once, and feeds the endpoint each byte that came. None at the end of what the peer sends: the endpoint is
/// broken off then. `input` is room to read into, which is used again.
///
/// An error is the reader's: nothing was read, and the endpoint is as before.
pub fn read_in<S: SessionRelay, R: Read>(
    endpoint: &mut Endpoint<S>,
    input: &mut [u8],
    reader: &mut R,
) -> io::Result<Option<Fed>>
    requires room { 0 < length input.old }
    ensures ok { IfOk result (λ came. MatchOption came
        (EndsReading S.does (R.remaining reader.old) (R.remaining reader.new) endpoint.old endpoint.new)
        (λ fed. Receives S.does (R.remaining reader.old) (R.remaining reader.new)
        endpoint.old (fed.events.items) fed.fault endpoint.new)) }
    ensures room { length input.new ≡ length input.old }
    ensures err { OnErr result (Keeps (R.remaining reader.old) (R.remaining reader.new)
        × (endpoint.new ≡ endpoint.old)) }
{
    let count = reader.read(input)?;
    if count == 0 {
        endpoint.break_off();
        return Ok(None);
    }
    Ok(Some(endpoint.feed(&input[..count])))
}

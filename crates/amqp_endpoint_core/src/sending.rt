//! What an endpoint has queued is written.
ghost use Rattle.std.specs.Prelude.{◌≡◌, ◌<◌, [], length, IfErr, IfOk, OnOk};
ghost use Rattle.amqp_endpoint_model.specs.declared.error.EndpointError.TheVariants.{Memory};
ghost use Rattle.amqp_endpoint_core.specs.Moves.{PullsNext, Sends, StopsWriting, Writes};

use crate::Endpoint;
use crate::error::CallerError;
use amqp_endpoint_model::{EndpointError, SessionRelay};
use std::io;
use std::io::{ErrorKind, Write};

/// How many bytes are pulled at a time, where no answer alone is longer.
const BATCH: usize = 65536;

/// Writes what `output` holds, and then all that the endpoint has queued, in order. It uses `output` for what was
/// pulled and isn't written yet: a program keeps it, empty at first, for each call.
///
/// `Stream` where the writer refuses, and `Endpoint` with `Memory`, and no other error, where there is no memory. No
/// byte is lost or written twice, also behind an error: what isn't written stands in `output` or stays queued, and a
/// later call goes on from there.
#[tactic(auto, using(crate::proofs::MoveLaws::sends_held))]
pub fn write_out<S: SessionRelay, W: Write>(
    endpoint: &mut Endpoint<S>,
    output: &mut Vec<u8>,
    writer: &mut W,
) -> Result<(), CallerError>
    ensures sends { Sends (W.contents writer.old) (W.contents writer.new)
        endpoint.old (output.old.items) endpoint.new (output.new.items) }
    ensures all { OnOk result ((output.new.items ≡ []) × (endpoint.new.queue ≡ [])) }
    ensures err { IfErr result (λ e. StopsWriting e) }
{
    write_held(output, writer)?;
    while pull_next(endpoint, output)? {
        write_held(output, writer)?;
    }
    writer.flush()?;
    Ok(())
}

/// Pulls what is queued first behind what `output` holds: answers of `BATCH` bytes at most, or one that is longer. It
/// answers whether something was queued. Nothing changes where there is no memory.
fn pull_next<S: SessionRelay>(
    endpoint: &mut Endpoint<S>,
    output: &mut Vec<u8>,
) -> Result<bool, EndpointError>
    ensures ok { IfOk result (λ some.
        PullsNext some endpoint.old (output.old.items) endpoint.new (output.new.items)) }
    ensures err { IfErr result (λ e. (e ≡ Memory) × (endpoint.new ≡ endpoint.old)
        × (output.new.items ≡ output.old.items)) }
{
    if endpoint.pull_into(output, BATCH)? > 0 {
        return Ok(true);
    }
    let Some(bytes) = endpoint.peek()? else {
        return Ok(false);
    };
    output.extend_from_slice(&bytes)?;
    endpoint.take_first();
    Ok(true)
}

/// Writes all that `output` holds. What isn't written stays there.
#[tactic(auto, using(crate::proofs::MoveLaws::writes_none, crate::proofs::MoveLaws::writes_more))]
fn write_held<W: Write>(output: &mut Vec<u8>, writer: &mut W) -> io::Result<()>
    ensures writes { Writes (W.contents writer.old) (W.contents writer.new)
        (output.old.items) (output.new.items) }
    ensures all { OnOk result (output.new.items ≡ []) }
{
    while !output.is_empty() {
        write_once(output, writer)?;
    }
    Ok(())
}

/// Writes once of what `output` holds, which is something. `WriteZero` where the writer takes nothing.
fn write_once<W: Write>(output: &mut Vec<u8>, writer: &mut W) -> io::Result<()>
    requires { 0 < length output.old.items }
    ensures writes { Writes (W.contents writer.old) (W.contents writer.new)
        (output.old.items) (output.new.items) }
    ensures some { OnOk result (length output.new.items < length output.old.items) }
{
    let count = writer.write(output.as_slice())?;
    if count == 0 {
        return Err(ErrorKind::WriteZero.into());
    }
    let _ = output.drain(..count);
    Ok(())
}

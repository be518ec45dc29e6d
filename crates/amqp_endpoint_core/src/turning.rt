//! The loop of a caller: it writes, reads, and has a program answer what that tells.
ghost use Rattle.std.specs.Prelude.{◌≡◌, ◌<◌, List, ℕ, [], false, length, IfOk, OnOk};
ghost use Rattle.amqp_endpoint_core.specs.Turns.{ReactsTo, Serves, Turn, caller};

use crate::Endpoint;
use crate::error::CallerError;
use crate::receiving::read_in;
use crate::sending::write_out;
use amqp_endpoint_model::{EndpointError, Event, Fed, SessionRelay};
use std::alloc::Global;
use std::io::{ErrorKind, Read, Write};

/// A program's part: what it does as its endpoint tells of something.
pub trait Program<S: SessionRelay> {
    ghost use Rattle.std.specs.Prelude.{Result, ⊤};
    ghost use Rattle.amqp_endpoint_model.specs.State.{State};
    ghost use Rattle.amqp_endpoint_model.specs.declared.error.EndpointError.{EndpointError};
    ghost use Rattle.amqp_endpoint_model.specs.declared.event.Event.{Event};

    /// What it may do at an event: the program and its endpoint before, the event, what it answers, and both behind.
    /// A program that says nothing of this leaves it open.
    ghost reacts: { Self → State S → Event → Result (Unit {0}) EndpointError
        → Self → State S → Type 0 } = { λ _ _ _ _ _ _. ⊤ };

    /// Answers an event, by calls of the endpoint. An error ends the loop, and the events behind it go.
    fn react(&mut self, endpoint: &mut Endpoint<S>, event: Event) -> Result<(), EndpointError>
        ensures { reacts self.old endpoint.old event result self.new endpoint.new };
}

/// Turns until the connection is over, and all that says so is written: both Close went, a fault ended it, or the peer
/// sends no more.
///
/// The errors are those of `turn`; `Stream` with `TimedOut` also after 2^64 - 1 turns that all went on. What was pulled
/// and isn't written is lost with an error: a program that goes on behind one calls `turn`, with an `output` of its
/// own.
pub fn serve<S: SessionRelay, P: Program<S>, R: Read, W: Write>(
    alloc: Global,
    endpoint: &mut Endpoint<S>,
    program: &mut P,
    reader: &mut R,
    writer: &mut W,
) -> Result<(), CallerError>
    ensures turns { (held : List ℕ) × Serves S.does P.reacts
        (caller program.old endpoint.old [] (R.remaining reader.old) (W.contents writer.old)) result
        (caller program.new endpoint.new held (R.remaining reader.new) (W.contents writer.new)) }
    ensures all { OnOk result (endpoint.new.queue ≡ []) }
{
    let mut output = Vec::new(alloc);
    let mut input = [0u8; 4096];
    for _turn in 0..u64::MAX {
        if !turn(endpoint, program, &mut output, &mut input, reader, writer)? {
            return Ok(());
        }
    }
    Err(CallerError::Stream(ErrorKind::TimedOut.into()))
}

/// Writes what `output` holds and what is queued; where not both Close went before, reads once, and has the program
/// answer each event that this tells, in order. It answers whether the connection goes on. It doesn't exactly where
/// both Close went, the peer sends no more, or a fault came: nothing is left to be written then, also not what the
/// fault and the program's answers queued.
///
/// `Stream` where the reader or the writer refuses, and `Endpoint` where the program does, or where there is no memory
/// to pull what is queued. Where the reader refuses nothing was read, and nothing is left to be written. Where the
/// program refuses, the events behind that one are gone, and nothing is held; what is queued stays so. Where the
/// writing stops, also behind a fault, what isn't written stands in `output` or stays queued.
pub fn turn<S: SessionRelay, P: Program<S>, R: Read, W: Write>(
    endpoint: &mut Endpoint<S>,
    program: &mut P,
    output: &mut Vec<u8>,
    input: &mut [u8],
    reader: &mut R,
    writer: &mut W,
) -> Result<bool, CallerError>
    requires room { 0 < length input.old }
    ensures turn { Turn S.does P.reacts
        (caller program.old endpoint.old output.old.items (R.remaining reader.old) (W.contents writer.old)) result
        (caller program.new endpoint.new output.new.items (R.remaining reader.new) (W.contents writer.new)) }
    ensures all { IfOk result (λ goes_on. goes_on ≡ false
        → (output.new.items ≡ []) × (endpoint.new.queue ≡ [])) }
    ensures room { length input.new ≡ length input.old }
{
    write_out(endpoint, output, writer)?;
    if endpoint.is_closed() {
        return Ok(false);
    }
    let Some(fed) = read_in(endpoint, input, reader)? else {
        return Ok(false);
    };
    let Fed { events, fault } = fed;
    react_to(program, endpoint, events)?;
    if fault.is_none() {
        return Ok(true);
    }
    write_out(endpoint, output, writer)?;
    Ok(false)
}

/// The program answers these events, each once and in order, up to the first that it refuses to.
fn react_to<S: SessionRelay, P: Program<S>>(
    program: &mut P,
    endpoint: &mut Endpoint<S>,
    events: Vec<Event>,
) -> Result<(), EndpointError>
    ensures { ReactsTo P.reacts program.old endpoint.old events.items result program.new endpoint.new }
{
    for event in events {
        program.react(endpoint, event)?;
    }
    Ok(())
}

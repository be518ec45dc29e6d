//! Scripts: the calls of one endpoint, or of two, as lines of text, and their answers printed.
ghost use Rattle.std.specs.Prelude.{◌≡◌, ◌≢◌, ◌≤◌, ◌++◌, IfOk, codes, decimal, string_bytes};
ghost use Rattle.std.specs.IoError.{error_kind};
ghost use Rattle.std.specs.declared.io.ErrorKind.TheVariants.{OutOfMemory};
ghost use Rattle.amqp_endpoint.specs.declared.scenario.ScenarioError.TheVariants.{Memory, Read as ReadRefused};
ghost use Rattle.amqp_endpoint.specs.Performed.{comes_to, one_comes_to, two_comes_to};
ghost use Rattle.amqp_endpoint.specs.Running.{Runs};
ghost use Rattle.amqp_endpoint_scripts.specs.Parsed.{one_of, two_of};
ghost use Rattle.amqp_endpoint_scripts.specs.Printed.{line_end};
ghost use Rattle.amqp_endpoint_model.specs.Numbers.{number};
ghost use Rattle.amqp_endpoint_model.specs.Step.{refusal_of_settings};
ghost use Rattle.amqp_endpoint_model.specs.declared.error.EndpointError.TheVariants.{Memory as NoMemory};

use crate::LinkedSessions;
pub use crate::streams::{ReadText, WriteText};
use amqp_endpoint_core::{play, world};
use amqp_endpoint_model::{EndpointError, Settings};
pub use amqp_endpoint_scripts::follows_grammar;
use amqp_endpoint_scripts::{
    Given, OneScript, Parsed, TwoScript, parse, print_replies, print_world,
};
use std::alloc::{AllocError, Global};
use std::io;
use std::io::ErrorKind;
use thiserror::Error;

/// Why a script can't be run to its end.
#[derive(Debug, Clone, Copy, PartialEq, Eq, Drop, Error)]
pub enum ScenarioError {
    /// The reader refused before its end, and not for want of memory. Nothing is written.
    #[error("the script could not be read")]
    Read,
    /// The writer refused: some of what is printed may be written.
    #[error("the answers could not be written")]
    Write,
    /// There was no memory. Nothing is written.
    #[error("out of memory")]
    Memory,
}

impl From<AllocError> for ScenarioError {
    ghost from_gives = { λ _ e. e ≡ Memory };

    fn from(_e: AllocError) -> ScenarioError {
        ScenarioError::Memory
    }
}

/// Reads a script to its end, runs it and writes what it prints. The answer is the status of a program that does this:
/// 0 where each step was called, also where one was refused, and 1 where nothing was run.
///
/// A line has words that are parted by one space each. Empty lines and lines that begin with `#` are left out, and
/// counted. The first line is `one`, for one endpoint, `a`, whose peer is the script; or `two`, for the endpoints `a`
/// and `b`, which are joined by two streams of bytes. Behind it may stand a line `settings`, an end, a container, a
/// max-frame-size, a channel-max, an incoming window and a first transfer number: one of each end, in either order.
///
/// Each other line is a step. That of an end is its letter, and `connect`, `close`, `heartbeat`, `begin`, `accept` and
/// a channel of the peer's, or `end` and a session's number; of one endpoint also `pull`, `break`, or `feed` and hex
/// digits, `-` for no bytes. Of two endpoints bytes and breaks are their streams': `move`, an end, and a number or
/// `all` pulls what that end has queued into its stream, and feeds the next bytes of the stream to the other end, so
/// many or what there is; `break` breaks both ends off, and what was on its way is lost.
///
/// The steps of links are `sender`, a session, a name, the count of its deliveries, `unsettled`, `settled` or `mixed`,
/// and `first` or `second`; `receiver`, a session, a name, and `first` or `second`; `grant`, a link and a number of
/// messages; `detach`, `closelink` and `drain`, each with a link; and `waiting` and a session. Those of messages are
/// `send`, a link, `settled` or `unsettled`, and the message's bytes in hex digits; and `dispose`, a link, a message,
/// its outcome, which is `accepted`, `rejected`, `released` or `modified`, and `settled`, `unsettled`, or `mode`, which
/// leaves that to the settle modes of its transfers and its link.
///
/// A step prints its line's number, its end and `ok`, with the bytes that it pulled as `bytes` or `none`, or with the
/// number of the `session` or `link` that it began, the credit that was `left`, the links that wait in `turn`, or the
/// `tag` of the message that it sent; or `refused` and the number of its error. Then come its events and its fault, on
/// lines of their own. A `move` prints what the feed answered, at the end that was fed; a `break` of both ends prints
/// no end.
///
/// The events are `opened`, a max-frame-size and a channel-max; `session-asked` and `begun`, each with a session and
/// the peer's channel; `link-asked`, a session, the asking end's role and the link's name; `attached`, a link, and
/// `complete`, `incomplete` or `resume`; `message`, a link, the message's number, `settled` or `unsettled`, its tag and
/// its bytes; `outcome`, a link, the message's tag, and its outcome, or `failed` where it has none; `detached`, a link,
/// and `detached` or `closed`; `ended` and a session; `refused`, a session, a link or `-`, and the number of an error;
/// and `closed`. A fault is `fault` and the number of its error.
///
/// The first line that can't be read is printed alone, as `unreadable`, and so are the first settings that are refused,
/// as `refused` and the number of the error: on their own line, or the first one where they have none. Nothing is run
/// then. A script of no lines prints nothing.
///
/// Any reader and any writer of std will do. Errors: `Read` exactly where the reader refuses before its end and not for
/// want of memory; `Memory` where it refuses for that, or where there is no memory for the script or its answers; and
/// `Write` exactly where the writer refuses. With `Read` and `Memory` nothing is written, with `Write` the first of
/// what is printed, maybe all of it.
pub fn run<R: ReadText, W: WriteText>(
    alloc: Global,
    reader: &mut R,
    writer: &mut W,
) -> Result<u8, ScenarioError>
    ensures runs { Runs R.gives R.refuses W.takes W.stops reader.old writer.old result reader.new writer.new }
    ensures status { IfOk result (λ status. status ≤ 1) }
{
    let text = match reader.read_text(alloc) {
        Ok(text) => text,
        Err(error) => return Err(read_error(&error)),
    };
    let outcome = outcome_of(alloc, text.as_slice())?;
    match writer.write_text(outcome.output.as_bytes()) {
        Ok(()) => Ok(outcome.status),
        Err(_) => Err(ScenarioError::Write),
    }
}

/// What a script prints, and its status.
#[derive(Drop)]
struct Outcome {
    output: String,
    status: u8,
}

/// Why a script isn't read, by its reader's error.
fn read_error(error: &io::Error) -> ScenarioError
    ensures memory { error_kind error.now ≡ OutOfMemory → result ≡ Memory }
    ensures read { error_kind error.now ≢ OutOfMemory → result ≡ ReadRefused }
{
    if error.kind() == ErrorKind::OutOfMemory {
        return ScenarioError::Memory;
    }
    ScenarioError::Read
}

fn outcome_of(alloc: Global, text: &[u8]) -> Result<Outcome, AllocError>
    ensures output { IfOk result (λ o. comes_to text.now (string_bytes o.output) o.status) }
    ensures status { IfOk result (λ o. o.status ≤ 1) }
{
    match parse(alloc, text)? {
        Parsed::Nothing => Ok(Outcome {
            output: String::new(alloc),
            status: 1,
        }),
        Parsed::Unreadable(line) => Ok(Outcome {
            output: format!(in alloc; "{line} unreadable\n")?,
            status: 1,
        }),
        Parsed::One(script) => perform_one(alloc, script),
        Parsed::Two(script) => perform_two(alloc, script),
    }
}

fn perform_one(alloc: Global, script: OneScript) -> Result<Outcome, AllocError>
    ensures output { IfOk result (λ o. one_comes_to (one_of script) (string_bytes o.output) o.status) }
    ensures status { IfOk result (λ o. o.status ≤ 1) }
{
    let OneScript {
        given,
        lines,
        calls,
    } = script;
    let Given { line, settings } = given;
    match play::<LinkedSessions>(alloc, settings, calls.as_slice()) {
        Ok(replies) => Ok(Outcome {
            output: print_replies(alloc, lines.as_slice(), replies.as_slice())?,
            status: 0,
        }),
        Err(error) => refused_on(alloc, line, &error),
    }
}

fn perform_two(alloc: Global, script: TwoScript) -> Result<Outcome, AllocError>
    ensures output { IfOk result (λ o. two_comes_to (two_of script) (string_bytes o.output) o.status) }
    ensures status { IfOk result (λ o. o.status ≤ 1) }
{
    let TwoScript {
        given_a,
        given_b,
        lines,
        steps,
    } = script;
    if let Some(error) = refusal_of_settings(alloc, &given_a.settings)? {
        return refused_on(alloc, given_a.line, &error);
    }
    match world::run::<LinkedSessions>(
        alloc,
        given_a.settings,
        given_b.settings,
        steps.as_slice(),
    ) {
        Ok(replies) => Ok(Outcome {
            output: print_world(
                alloc,
                lines.as_slice(),
                steps.as_slice(),
                replies.as_slice(),
            )?,
            status: 0,
        }),
        Err(error) => refused_on(alloc, given_b.line, &error),
    }
}

/// Why an endpoint refuses these settings, if it does.
fn refusal_of_settings(
    alloc: Global,
    settings: &Settings,
) -> Result<Option<EndpointError>, AllocError>
    ensures { IfOk result (λ refusal. refusal ≡ refusal_of_settings settings.now) }
{
    match play::<LinkedSessions>(alloc, copy_settings(settings)?, &[]) {
        Ok(_) => Ok(None),
        Err(error) => Ok(Some(unless_memory(error)?)),
    }
}

/// The error, where it isn't want of memory.
fn unless_memory(error: EndpointError) -> Result<EndpointError, AllocError>
    ensures { IfOk result (λ e. (e ≡ error) × (error ≢ NoMemory)) }
{
    if matches!(&error, EndpointError::Memory) {
        return Err(AllocError);
    }
    Ok(error)
}

fn copy_settings(settings: &Settings) -> Result<Settings, AllocError>
    ensures { IfOk result (λ copy. copy ≡ settings.now) }
{
    Ok(Settings {
        container_id: settings.container_id.clone()?,
        max_frame_size: settings.max_frame_size,
        channel_max: settings.channel_max,
        incoming_window: settings.incoming_window,
        idle_time_out: settings.idle_time_out,
        first_transfer_number: settings.first_transfer_number,
    })
}

/// What is printed of settings that are refused by this line. Want of memory isn't printed.
fn refused_on(alloc: Global, line: usize, error: &EndpointError) -> Result<Outcome, AllocError>
    ensures output { IfOk result (λ o. string_bytes o.output
        ≡ decimal line ++ (codes " refused " ++ (decimal (number error.now) ++ line_end))) }
    ensures status { IfOk result (λ o. o.status ≡ 1) }
    ensures known { IfOk result (λ o. error.now ≢ NoMemory) }
{
    if matches!(error, EndpointError::Memory) {
        return Err(AllocError);
    }
    let number = error.number();
    Ok(Outcome {
        output: format!(in alloc; "{line} refused {number}\n")?,
        status: 1,
    })
}

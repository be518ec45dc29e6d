//! A script as it is read: its settings and its steps.
ghost use Rattle.std.specs.Prelude.{◌≡◌, map, IfOk};
ghost use Rattle.amqp_endpoint_scripts.specs.Script.{behind_given, behind_one, behind_two, default_settings, form_then};
ghost use Rattle.amqp_endpoint_scripts.specs.Script.{given_none, is_skipped, letter, lines_from, one_step, one_steps};
ghost use Rattle.amqp_endpoint_scripts.specs.Script.{parts_at, reading, statement, two_call, two_step, two_steps};
ghost use Rattle.amqp_endpoint_scripts.specs.Parsed.{given_of, line_of, parsed};
ghost use Rattle.amqp_endpoint_core.specs.WorldStep.{is_the_worlds};
ghost use Rattle.amqp_endpoint_core.specs.declared.step.End.TheVariants.{A, B};

use crate::statement::{Statement, read_line};
use amqp_endpoint_core::{End, Step};
use amqp_endpoint_model::{Call, Settings};
use serde_amqp_types::Text;
use std::alloc::{AllocError, Global};

/// What an end is made with.
#[derive(Debug, Drop)]
pub struct Given {
    /// The line that the settings are refused by: their own, or the script's first one where they have none.
    pub line: usize,
    /// The settings.
    pub settings: Settings,
}

/// A script of one end that was read.
#[derive(Debug, Drop)]
pub struct OneScript {
    /// What the end is made with.
    pub given: Given,
    /// The line of each step.
    pub lines: Vec<usize>,
    /// The steps.
    pub calls: Vec<Call>,
}

/// A script of two ends that was read.
#[derive(Debug, Drop)]
pub struct TwoScript {
    /// What the first end is made with.
    pub given_a: Given,
    /// What the other end is made with.
    pub given_b: Given,
    /// The line of each step.
    pub lines: Vec<usize>,
    /// The steps.
    pub steps: Vec<Step>,
}

/// What a script's bytes come to.
#[derive(Debug, Drop)]
pub enum Parsed {
    /// There is no line to be read.
    Nothing,
    /// The number of the first line that can't be read.
    Unreadable(usize),
    /// Each line of a script of one end was read.
    One(OneScript),
    /// Each line of a script of two ends was read.
    Two(TwoScript),
}

/// A line that is to be read, with its number.
#[derive(Debug, Clone, Copy)]
pub struct NumberedLine<'a> {
    number: usize,
    text: &'a [u8],
}

/// Reads a script. It is refused where there is no memory for it.
pub fn parse(alloc: Global, text: &[u8]) -> Result<Parsed, AllocError>
    ensures { IfOk result (λ p. parsed p ≡ reading text.now) }
{
    let texts = all_lines(alloc, text)?;
    let lines = lines_to_read(alloc, texts.as_slice())?;
    let Some((first, others)) = lines.as_slice().split_first() else {
        return Ok(Parsed::Nothing);
    };
    read_form(alloc, first, others)
}

/// The first line says of how many ends the script is.
fn read_form(
    alloc: Global,
    first: &NumberedLine<'_>,
    lines: &[NumberedLine<'_>],
) -> Result<Parsed, AllocError>
    ensures { IfOk result (λ p. parsed p
        ≡ form_then first.now.number (statement first.now.text.now) (map line_of lines.now)) }
{
    match read_line(alloc, first.text)? {
        Some(Statement::One) => read_behind_one(alloc, first.number, lines),
        Some(Statement::Two) => read_behind_two(alloc, first.number, lines),
        _ => Ok(Parsed::Unreadable(first.number)),
    }
}

fn all_lines(alloc: Global, text: &[u8]) -> Result<Vec<&[u8]>, AllocError>
    ensures { IfOk result (λ lines. map (λ l. l.now) lines.items ≡ parts_at 10 text.now) }
{
    text.split(|byte| *byte == b'\n').collect(alloc)
}

/// Empty lines and comments are left out, and counted.
fn lines_to_read<'a>(alloc: Global, texts: &[&'a [u8]]) -> Result<Vec<NumberedLine<'a>>, AllocError>
    ensures { IfOk result (λ lines. map line_of lines.items ≡ lines_from 1 (map (λ l. l.now) texts.now)) }
{
    let mut lines = Vec::new(alloc);
    for (index, text) in texts.iter().enumerate() {
        if !is_skipped(text) {
            lines.push(NumberedLine {
                number: index + 1,
                text,
            })?;
        }
    }
    Ok(lines)
}

fn is_skipped(text: &[u8]) -> bool
    ensures { result ≡ is_skipped text.now }
{
    match text.first() {
        Some(byte) => *byte == b'#',
        None => true,
    }
}

/// Behind `one`, on the line `first`: at most one settings line, and the steps.
fn read_behind_one(
    alloc: Global,
    first: usize,
    lines: &[NumberedLine<'_>],
) -> Result<Parsed, AllocError>
    ensures { IfOk result (λ p. parsed p ≡ behind_one first (map line_of lines.now)) }
{
    let Some((line, others)) = lines.split_first() else {
        return read_calls(alloc, given_none(alloc, first, End::A)?, lines);
    };
    match read_line(alloc, line.text)? {
        Some(Statement::Settings(End::A, settings)) => {
            read_calls(alloc, given_on(line.number, settings), others)
        }
        _ => read_calls(alloc, given_none(alloc, first, End::A)?, lines),
    }
}

/// Behind `two`, on the line `first`: at most one settings line of each end, and the steps.
fn read_behind_two(
    alloc: Global,
    first: usize,
    lines: &[NumberedLine<'_>],
) -> Result<Parsed, AllocError>
    ensures { IfOk result (λ p. parsed p ≡ behind_two first (map line_of lines.now)) }
{
    let Some((line, others)) = lines.split_first() else {
        return read_ungiven(alloc, first, lines);
    };
    match read_line(alloc, line.text)? {
        Some(Statement::Settings(End::A, settings)) => {
            read_behind_a(alloc, first, given_on(line.number, settings), others)
        }
        Some(Statement::Settings(End::B, settings)) => {
            read_behind_b(alloc, first, given_on(line.number, settings), others)
        }
        _ => read_ungiven(alloc, first, lines),
    }
}

/// Behind the settings line of the first end: at most one of the other end, and the steps.
fn read_behind_a(
    alloc: Global,
    first: usize,
    given_a: Given,
    lines: &[NumberedLine<'_>],
) -> Result<Parsed, AllocError>
    ensures { IfOk result (λ p. parsed p ≡ behind_given first A (given_of given_a) (map line_of lines.now)) }
{
    let Some((line, others)) = lines.split_first() else {
        return read_steps(alloc, given_a, given_none(alloc, first, End::B)?, lines);
    };
    match read_line(alloc, line.text)? {
        Some(Statement::Settings(End::B, settings)) => {
            read_steps(alloc, given_a, given_on(line.number, settings), others)
        }
        _ => read_steps(alloc, given_a, given_none(alloc, first, End::B)?, lines),
    }
}

/// Behind the settings line of the other end: at most one of the first end, and the steps.
fn read_behind_b(
    alloc: Global,
    first: usize,
    given_b: Given,
    lines: &[NumberedLine<'_>],
) -> Result<Parsed, AllocError>
    ensures { IfOk result (λ p. parsed p ≡ behind_given first B (given_of given_b) (map line_of lines.now)) }
{
    let Some((line, others)) = lines.split_first() else {
        return read_steps(alloc, given_none(alloc, first, End::A)?, given_b, lines);
    };
    match read_line(alloc, line.text)? {
        Some(Statement::Settings(End::A, settings)) => {
            read_steps(alloc, given_on(line.number, settings), given_b, others)
        }
        _ => read_steps(alloc, given_none(alloc, first, End::A)?, given_b, lines),
    }
}

/// Each line is a step of two ends without settings lines.
fn read_ungiven(
    alloc: Global,
    first: usize,
    lines: &[NumberedLine<'_>],
) -> Result<Parsed, AllocError>
    ensures { IfOk result (λ p. parsed p
        ≡ two_steps (given_none first A) (given_none first B) (map line_of lines.now)) }
{
    let given_a = given_none(alloc, first, End::A)?;
    let given_b = given_none(alloc, first, End::B)?;
    read_steps(alloc, given_a, given_b, lines)
}

fn given_on(line: usize, settings: Settings) -> Given
    ensures { (result.line ≡ line) × (result.settings ≡ settings) }
{
    Given { line, settings }
}

/// What an end without a settings line is made with, where the script's first line is this one.
fn given_none(alloc: Global, first: usize, end: End) -> Result<Given, AllocError>
    ensures { IfOk result (λ g. given_of g ≡ given_none first end) }
{
    Ok(Given {
        line: first,
        settings: default_settings(alloc, end)?,
    })
}

/// The settings of an end that has no settings line.
fn default_settings(alloc: Global, end: End) -> Result<Settings, AllocError>
    ensures { IfOk result (λ s. s ≡ default_settings end) }
{
    Ok(Settings {
        container_id: Text::from_str(alloc, letter(end))?,
        max_frame_size: 262_144,
        channel_max: 255,
        incoming_window: 2048,
        idle_time_out: None,
        first_transfer_number: 0,
    })
}

/// The word that names an end.
pub fn letter(end: End) -> &'static str
    ensures { result.now ≡ letter end }
{
    match end {
        End::A => "a",
        End::B => "b",
    }
}

/// Each line is a step of one end.
fn read_calls(alloc: Global, given: Given, lines: &[NumberedLine<'_>]) -> Result<Parsed, AllocError>
    ensures { IfOk result (λ p. parsed p ≡ one_steps (given_of given) (map line_of lines.now)) }
{
    let mut numbers = Vec::new(alloc);
    let mut calls = Vec::new(alloc);
    for line in lines {
        numbers.push(line.number)?;
        let Some(call) = one_step(read_line(alloc, line.text)?) else {
            return Ok(Parsed::Unreadable(line.number));
        };
        calls.push(call)?;
    }
    Ok(Parsed::One(OneScript {
        given,
        lines: numbers,
        calls,
    }))
}

/// Each line is a step of two ends.
fn read_steps(
    alloc: Global,
    given_a: Given,
    given_b: Given,
    lines: &[NumberedLine<'_>],
) -> Result<Parsed, AllocError>
    ensures { IfOk result (λ p. parsed p
        ≡ two_steps (given_of given_a) (given_of given_b) (map line_of lines.now)) }
{
    let mut numbers = Vec::new(alloc);
    let mut steps = Vec::new(alloc);
    for line in lines {
        numbers.push(line.number)?;
        let Some(step) = two_step(read_line(alloc, line.text)?) else {
            return Ok(Parsed::Unreadable(line.number));
        };
        steps.push(step)?;
    }
    Ok(Parsed::Two(TwoScript {
        given_a,
        given_b,
        lines: numbers,
        steps,
    }))
}

/// A step of one end is a call of it.
fn one_step(said: Option<Statement>) -> Option<Call>
    ensures { result ≡ one_step said }
{
    match said {
        Some(Statement::Call(End::A, call)) => Some(call),
        _ => None,
    }
}

/// A step of two ends.
fn two_step(said: Option<Statement>) -> Option<Step>
    ensures { result ≡ two_step said }
{
    match said {
        Some(Statement::Call(end, call)) => two_call(end, call),
        Some(Statement::Move(end, count)) => Some(Step::Move(end, count)),
        Some(Statement::Break) => Some(Step::Break),
        _ => None,
    }
}

/// A call of one of two ends, whose bytes and breaks are the world's.
fn two_call(end: End, call: Call) -> Option<Step>
    ensures { result ≡ two_call (is_the_worlds call) end call }
{
    if is_the_worlds(&call) {
        return None;
    }
    Some(Step::Call(end, call))
}

/// Whether a call feeds, pulls or breaks off.
fn is_the_worlds(call: &Call) -> bool
    ensures { result ≡ is_the_worlds call.now }
{
    match call {
        Call::Feed(_) | Call::Pull | Call::BreakOff => true,
        _ => false,
    }
}

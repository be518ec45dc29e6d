//! The loop of programs that read tables: each line is answered, and a row `given => wanted` is compared with its answer.
#![tactic(auto)]

ghost use Rattle.std.specs.Prelude.{◌≡◌, ◌≢◌, ◌+◌, ◌-◌, ◌<◌, ◌≤◌, ◌^◌, ℕ, List, IfOk, IfErr, OnOk, string_bytes, map};
ghost use Rattle.std.specs.Io.KnownBytes.{Appends, Consumes, IsAtEnd};
ghost use Rattle.amqp_rows.specs.declared.RowsError.TheVariants.{Memory, Write as WriteRefused};
ghost use Rattle.amqp_rows.specs.Rows.{Answers, Tally, tally_of, nothing_told, LineDone, TextDone, LinesDone, lines_of};
ghost use Rattle.amqp_rows.specs.Rows.{all_text, status_of};

mod line;
mod report;

pub use line::{Line, parse};
use report::Report;
use std::alloc::{AllocError, Global};
use std::io;
use std::io::{ErrorKind, Read, Write};
use thiserror::Error;

/// Why a table can't be read to its end.
#[derive(Debug, Clone, Copy, PartialEq, Eq, Drop, Error)]
pub enum RowsError {
    /// The reader refused before its end.
    #[error("the rows could not be read")]
    Read,
    /// The writer refused: some of what is printed may be written.
    #[error("the answers could not be written")]
    Write,
    /// There was no memory. Nothing is written.
    #[error("out of memory")]
    Memory,
}

impl From<AllocError> for RowsError {
    ghost from_gives = { λ _ e. e ≡ Memory };

    fn from(_e: AllocError) -> RowsError {
        RowsError::Memory
    }
}

/// Reads lines from a reader to its end, answers each, and writes the answers. The answer is the status of a program that
/// does this: 0 where no row differs, else 1.
///
/// A line `given => wanted` is a row: `given` is answered, and where the answer isn't `wanted`, the row is printed with its
/// line's number as `line 12: given => answer, not wanted`. Any other line is answered, and the answer printed. Empty lines
/// and lines that begin with `#` are left out, and counted. A line that is no UTF-8 is answered `unreadable`. At the end,
/// where there were rows, `2 rows hold` is printed, and where some differ, `1 rows differ`.
///
/// `Read` where the reader refuses, `Memory` where there is no memory for the lines or their answers: nothing was written.
/// `Write` where the writer refuses: some of what is printed may be written.
pub fn run<R: Read, W: Write, F: Fn(&str) -> Result<String, AllocError>>(
    alloc: Global,
    reader: &mut R,
    writer: &mut W,
    answer: F,
) -> Result<u8, RowsError>
    requires { F.IsAlwaysCallable answer }
    ensures printed { IfOk result (λ status. (text : List ℕ) × (told : Tally) × Consumes (R.remaining reader.old) (R.remaining reader.new) text × IsAtEnd (R.remaining reader.new)
        × LinesDone (Answers F.Fn answer) 1 (lines_of text) nothing_told told × Appends (W.contents writer.old) (W.contents writer.new) (all_text told) × (status ≡ status_of told)) }
    ensures nothing_written { IfErr result (λ e. e ≢ WriteRefused → writer.new ≡ writer.old) }
{
    let text = read_all(alloc, reader)?;
    let report = answer_all(alloc, text.as_slice(), &answer)?;
    let status = report.status();
    let output = report.into_text()?;
    write_out(writer, output.as_str())?;
    Ok(status)
}

fn read_all<R: Read>(alloc: Global, reader: &mut R) -> Result<Vec<u8>, RowsError>
    ensures text { IfOk result
        (λ text.
        Consumes (R.remaining reader.old) (R.remaining reader.new) text.items
        × IsAtEnd (R.remaining reader.new)) }
    ensures error { IfErr result (λ e. e ≢ WriteRefused) }
{
    let mut text = Vec::new(alloc);
    match reader.read_to_end(&mut text) {
        Ok(_) => Ok(text),
        Err(error) => Err(read_error(&error)),
    }
}

fn read_error(error: &io::Error) -> RowsError
    ensures { result ≢ WriteRefused }
{
    match error.kind() {
        ErrorKind::OutOfMemory => RowsError::Memory,
        _ => RowsError::Read,
    }
}

fn write_out<W: Write>(writer: &mut W, output: &str) -> Result<(), RowsError>
    ensures ok { OnOk result (Appends (W.contents writer.old) (W.contents writer.new) output.now) }
    ensures err { IfErr result (λ e. e ≡ WriteRefused) }
{
    if writer.write_all(output.as_bytes()).is_err() {
        return Err(RowsError::Write);
    }
    if writer.flush().is_err() {
        return Err(RowsError::Write);
    }
    Ok(())
}

fn answer_all<F: Fn(&str) -> Result<String, AllocError>>(
    alloc: Global,
    text: &[u8],
    answer: &F,
) -> Result<Report, AllocError>
    requires { F.IsAlwaysCallable answer.now }
    ensures { IfOk result
        (λ report.
        LinesDone (Answers F.Fn answer.now) 1 (lines_of text.now) nothing_told
        (tally_of report)) }
{
    let lines = lines_of(alloc, text)?;
    answer_lines(alloc, lines.as_slice(), answer)
}

fn lines_of(alloc: Global, text: &[u8]) -> Result<Vec<&[u8]>, AllocError>
    ensures { IfOk result (λ lines. map (λ l. l.now) lines.items ≡ lines_of text.now) }
{
    text.split(|byte| *byte == b'\n').collect(alloc)
}

fn answer_lines<F: Fn(&str) -> Result<String, AllocError>>(
    alloc: Global,
    lines: &[&[u8]],
    answer: &F,
) -> Result<Report, AllocError>
    requires { F.IsAlwaysCallable answer.now }
    ensures { IfOk result
        (λ report.
        LinesDone (Answers F.Fn answer.now) 1 (map (λ l. l.now) lines.now) nothing_told
        (tally_of report)) }
{
    let mut report = Report::new(alloc);
    for (index, line) in lines.iter().enumerate() {
        answer_text(&mut report, index + 1, line, answer)?;
    }
    Ok(report)
}

fn answer_text<F: Fn(&str) -> Result<String, AllocError>>(
    report: &mut Report,
    number: usize,
    text: &[u8],
    answer: &F,
) -> Result<(), AllocError>
    requires callable { F.IsAlwaysCallable answer.now }
    requires room { report.now.held + report.now.differing < 2 ^ 64 - 1 }
    ensures done { OnOk result
        (TextDone (Answers F.Fn answer.now) number text.now (tally_of report.old)
        (tally_of report.new)) }
    ensures counted { OnOk result
        (report.new.held + report.new.differing ≤ report.old.held + report.old.differing + 1) }
{
    match str::from_utf8(text) {
        Ok(text) => answer_line(report, number, &parse(text), answer),
        Err(_) => report.print("unreadable"),
    }
}

fn answer_line<F: Fn(&str) -> Result<String, AllocError>>(
    report: &mut Report,
    number: usize,
    line: &Line<'_>,
    answer: &F,
) -> Result<(), AllocError>
    requires callable { F.IsAlwaysCallable answer.now }
    requires room { report.now.held + report.now.differing < 2 ^ 64 - 1 }
    ensures done { OnOk result
        (LineDone (Answers F.Fn answer.now) number line.now (tally_of report.old)
        (tally_of report.new)) }
    ensures counted { OnOk result
        (report.new.held + report.new.differing ≤ report.old.held + report.old.differing + 1) }
{
    match line {
        Line::Empty => Ok(()),
        Line::Plain(given) => {
            let text = answer_of(answer, given)?;
            report.print(text.as_str())
        }
        Line::Row { given, wanted } => {
            let text = answer_of(answer, given)?;
            report.judge(number, given, wanted, text.as_str())
        }
    }
}

fn answer_of<F: Fn(&str) -> Result<String, AllocError>>(
    answer: &F,
    given: &str,
) -> Result<String, AllocError>
    requires { F.IsAlwaysCallable answer.now }
    ensures { IfOk result (λ text. Answers F.Fn answer.now given.now (string_bytes text)) }
{
    answer(given)
}

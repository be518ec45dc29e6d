//! Answers the lines of standard input on standard output: what AMQP bytes say. docs/TRACE.md has the words.
#![tactic(auto)]

mod calls;
mod codec;
mod connection;
mod deliveries;
mod division;
mod faults;
mod frames;
mod hexadecimal;
mod lines;
mod messages;
mod pieces;
mod reading;
mod refusal;
mod stream;
mod text;
mod types;

use amqp_rows::{RowsError, run};
use lines::answer;
use pieces::with_pieces_joined;
use std::io;
use std::io::Read;
use std::process::ExitCode;

fn main(rt: HostRuntime) -> ExitCode {
    match answer_all(&rt) {
        Ok(status) => ExitCode::from(status),
        Err(_) => ExitCode::FAILURE,
    }
}

/// Answers all lines. The status is that of their rows.
fn answer_all(rt: &HostRuntime) -> Result<u8, RowsError> {
    let alloc = rt.alloc();
    let mut text = Vec::new(alloc);
    if rt.reader().read_to_end(&mut text).is_err() {
        return Err(RowsError::Read);
    }
    let joined = with_pieces_joined(alloc, text.as_slice())?;
    let answered = |given: &str| answer(alloc, given);
    run(alloc, &mut joined.as_slice(), &mut io::writer(rt), answered)
}

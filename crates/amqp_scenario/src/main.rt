//! Runs a script on standard input, and prints what it comes to on standard output. With the argument `rows` it reads
//! rows instead, each a script and what it prints, and tells which differ.
#![tactic(auto)]

mod rows;

use amqp_endpoint::scenario;
use rows::answer;
use std::process::ExitCode;
use std::rt::Env;
use std::{env, io};

fn main(rt: HostRuntime) -> ExitCode {
    let Ok(of_rows) = is_of_rows(&rt) else {
        return ExitCode::FAILURE;
    };
    let alloc = rt.alloc();
    let mut reader = rt.reader();
    let mut writer = io::writer(&rt);
    let status = if of_rows {
        amqp_rows::run(alloc, &mut reader, &mut writer, |script| {
            answer(alloc, script)
        })
        .ok()
    } else {
        scenario::run(alloc, &mut reader, &mut writer).ok()
    };
    match status {
        Some(status) => ExitCode::from(status),
        None => ExitCode::FAILURE,
    }
}

/// Whether the first argument is `rows`.
fn is_of_rows(rt: &(impl Env + Alloc)) -> io::Result<bool> {
    let first = env::args(rt)?.nth(1);
    Ok(first.is_some_and(|argument| argument.as_str() == "rows"))
}

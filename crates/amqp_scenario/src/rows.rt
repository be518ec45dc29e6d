//! Rows of a table of scripts: `script => what it prints`.
use amqp_endpoint::scenario::{ScenarioError, run};
use std::alloc::{AllocError, Global};

/// What parts the lines of a script in a row, and the lines that it prints.
const PART: &str = " ; ";

/// What a script prints, and behind it `status` and its status. Lines are parted by ` ; `, here and in the script.
pub fn answer(alloc: Global, script: &str) -> Result<String, AllocError> {
    let script = script.replace(alloc, PART, "\n")?;
    let mut output = Vec::new(alloc);
    match run(alloc, &mut script.as_bytes(), &mut output) {
        Ok(status) => outcome_text(alloc, output, status),
        Err(ScenarioError::Memory) => Err(AllocError),
        Err(error) => format!(in alloc; "{error}"),
    }
}

fn outcome_text(alloc: Global, output: Vec<u8>, status: u8) -> Result<String, AllocError> {
    let Ok(output) = str::from_utf8(output.as_slice()) else {
        return String::from_str(alloc, "no text");
    };
    let printed = output.replace(alloc, "\n", PART)?;
    format!(in alloc; "{printed}status {status}")
}

//! What the commands tell of a text.

use cfarm_output::Paced;
use cfarm_run::{Closing, check_text, interpret};
use lang_base::Shown;
use lang_helpers::RunError;
use std::alloc::{AllocError, Global};
use worked_row_files::done;

/// What a command wrote, and its last line.
#[derive(Drop)]
pub struct Told {
    pub output: Vec<u8>,
    pub closing: String,
}

/// The same, where memory allowed the line.
pub fn told_with(output: Vec<u8>, closing: Result<String, AllocError>) -> Result<Told, AllocError> {
    let closing = done!(closing);
    Ok(Told { output, closing })
}

/// The line of a run.
pub fn closing_of(alloc: Global, ran: Result<Shown, RunError>) -> Result<String, AllocError> {
    match ran {
        Ok(shown) => Closing(shown).to_string(alloc),
        Err(fault) => format!(in alloc; "{fault}"),
    }
}

/// The line that the bytes are.
fn line_of(alloc: Global, line: &[u8]) -> Result<String, AllocError> {
    let line = done!(String::from_utf8_lossy(alloc, line));
    line.trim_end().to_string(alloc)
}

/// What `check` tells: its line stands for the closing one.
fn checked(alloc: Global, text: &[u8]) -> Result<Told, AllocError> {
    let mut line = Vec::new(alloc);
    let closing = match check_text(alloc, text, &mut line) {
        Ok(()) => line_of(alloc, line.as_slice()),
        Err(fault) => format!(in alloc; "{fault}"),
    };
    told_with(Vec::new(alloc), closing)
}

/// What `interpret` tells.
fn interpreted(alloc: Global, text: &[u8], depth: u32) -> Result<Told, AllocError> {
    let mut output = Paced::over(Vec::new(alloc), false);
    let closing = match interpret(alloc, text, u64::from(depth), &mut output) {
        Ok(shown) => Closing(shown).to_string(alloc),
        Err(fault) => fault.to_string(alloc),
    };
    told_with(output.taker, closing)
}

/// What is told of a text with this bound, or where it is only checked.
pub fn told_of(alloc: Global, text: &[u8], depth: Option<u32>) -> Result<Told, AllocError> {
    match depth {
        None => checked(alloc, text),
        Some(depth) => interpreted(alloc, text, depth),
    }
}

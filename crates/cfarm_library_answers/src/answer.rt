//! Answers, by what a command wrote and tells.

ghost use Rattle.std.specs.Prelude.{◌≡◌, IfSome, [], length};
ghost use Rattle.cfarm_library_answers.specs.Answered.{Gives, IsJoined, IsToldOr, Refuses, ended_line};
ghost use Rattle.cfarm_library_answers.specs.Outcomes.{Versioned};

use std::alloc::Global;
use std::fmt;
use std::io::Write;

/// What a command answers.
#[derive(Drop)]
pub struct Answer {
    /// With which the command ends.
    pub status: u8,
    /// What it writes, and behind that what it tells.
    pub bytes: Vec<u8>,
    /// How many of the bytes it writes.
    pub written: usize,
}

/// The status where a writer fails; here one fails where memory is refused.
const UNWRITTEN: u8 = 4;

/// What the program is called.
const VERSION: &[u8] = b"cfarm 1.0.0\nlogic dac8208d650f15bf\n";

/// The answer where memory is refused.
pub fn no_memory(alloc: Global) -> Answer
    ensures { Refuses result }
{
    match Vec::from_slice(alloc, b"memory\n") {
        Ok(bytes) => Answer {
            status: 7,
            bytes,
            written: 0,
        },
        Err(_) => Answer {
            status: 7,
            bytes: Vec::new(alloc),
            written: 0,
        },
    }
}

/// The answer of a command that has nothing to tell.
pub(crate) fn done(output: Vec<u8>) -> Answer
    ensures { IsJoined 0 output.items [] result }
{
    Answer {
        status: 0,
        written: output.as_slice().len(),
        bytes: output,
    }
}

/// The line behind what was written.
fn joined<D: fmt::Display + Drop>(alloc: Global, output: Vec<u8>, line: D, status: u8) -> Answer
    ensures { IfSome (D.output line) (λ text. IsToldOr status output.items (ended_line text) result) }
{
    let mut bytes = output;
    let written = bytes.as_slice().len();
    match bytes.writeln(line) {
        Ok(()) => Answer {
            status,
            bytes,
            written,
        },
        Err(_) => no_memory(alloc),
    }
}

/// The answer of a command that tells a line with this status.
pub(crate) fn told<D: fmt::Display + Drop>(
    alloc: Global,
    output: Vec<u8>,
    line: D,
    status: u8,
) -> Answer
    ensures { IfSome (D.output line) (λ text. IsToldOr status output.items (ended_line text) result) }
{
    if status == UNWRITTEN {
        return no_memory(alloc);
    }
    joined(alloc, output, line, status)
}

/// The program's name and version, as `--version` prints them.
pub fn version(alloc: Global) -> Answer
    ensures { Gives Versioned result }
{
    match Vec::from_slice(alloc, VERSION) {
        Ok(bytes) => done(bytes),
        Err(_) => no_memory(alloc),
    }
}

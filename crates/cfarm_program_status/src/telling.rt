//! Lines on standard error.

ghost use Rattle.std.specs.Prelude.{◌≤◌, true, false};
ghost use Rattle.cfarm_program_status.specs.Telling.{IsLineAmong, IsLineTold, IsShown, IsToldAs, no_memory};

use cfarm_output::{ErrorLines, Unwritten};
use std::fmt;

/// The status where a writer fails.
pub const UNWRITTEN: u8 = 4;

/// Tells the line and flushes it, and gives the status; another where the line cannot be written.
pub fn tell<E: ErrorLines, D: fmt::Display + Drop>(err: &mut E, line: D, status: u8) -> u8
    ensures told { IsLineTold (D.output line) status result (E.contents err.old) (E.contents err.new) }
    ensures table { status ≤ 7 → result ≤ 7 }
{
    match err.line(line) {
        Ok(()) => status,
        Err(Unwritten) => UNWRITTEN,
    }
}

/// Shows the text behind a line that was told, and gives the status; another where it cannot be written.
fn tell_behind<E: ErrorLines>(err: &mut E, status: u8, behind: &str) -> u8
    ensures told { IsShown behind.now status result (E.contents err.old) (E.contents err.new) }
    ensures table { status ≤ 7 → result ≤ 7 }
{
    match err.text(behind) {
        Ok(()) => status,
        Err(Unwritten) => UNWRITTEN,
    }
}

/// Tells the line, with this text behind its end, and gives the status; another where something cannot be written.
fn tell_line<E: ErrorLines, D: fmt::Display + Drop>(
    err: &mut E,
    line: D,
    status: u8,
    behind: &str,
) -> u8
    ensures told { IsLineAmong false behind.now (D.output line) status result (E.contents err.old) (E.contents err.new) }
    ensures table { status ≤ 7 → result ≤ 7 }
{
    match err.line(line) {
        Ok(()) => tell_behind(err, status, behind),
        Err(Unwritten) => UNWRITTEN,
    }
}

/// Tells the line behind an end of line, with this text behind its own end, and gives the status; another where something cannot
/// be written.
fn tell_below<E: ErrorLines, D: fmt::Display + Drop>(
    err: &mut E,
    line: D,
    status: u8,
    behind: &str,
) -> u8
    ensures told { IsLineAmong true behind.now (D.output line) status result (E.contents err.old) (E.contents err.new) }
    ensures table { status ≤ 7 → result ≤ 7 }
{
    match err.text("\n") {
        Ok(()) => tell_line(err, line, status, behind),
        Err(Unwritten) => UNWRITTEN,
    }
}

/// Tells the line, with an end of line in front of it where one is to stand there, and this text behind its end, and gives the
/// status; another where something cannot be written. Where none is to stand in front, nothing is written before the line.
pub fn tell_among<E: ErrorLines, D: fmt::Display + Drop>(
    err: &mut E,
    is_amid: bool,
    line: D,
    status: u8,
    behind: &str,
) -> u8
    ensures told { IsLineAmong is_amid behind.now (D.output line) status result (E.contents err.old) (E.contents err.new) }
    ensures table { status ≤ 7 → result ≤ 7 }
{
    match is_amid {
        true => tell_below(err, line, status, behind),
        false => tell_line(err, line, status, behind),
    }
}

/// Tells that there is no memory, and gives the status.
pub fn tell_no_memory<E: ErrorLines>(err: &mut E) -> u8
    ensures told { IsToldAs no_memory result (E.contents err.old) (E.contents err.new) }
    ensures table { result ≤ 7 }
{
    tell(err, "memory", 7)
}

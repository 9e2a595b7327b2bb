//! Commands over the bytes of one file, with what each tells.

ghost use Rattle.std.specs.Prelude.{◌≡◌, ◌⊎◌, ◌≤◌, [], IsOkAnd, false, true, string_bytes};
ghost use Rattle.cfarm_program_status.specs.Reading.{Says};
ghost use Rattle.cfarm_program_status.specs.Trace.{shown};
ghost use Rattle.cfarm_program_status.specs.Telling.{IsExplained};
ghost use Rattle.cfarm_program_runs.specs.Outcomes.{Executed, Settled, placed_fault, text_fault};
ghost use Rattle.cfarm_program_runs.specs.Saying.{CausesOf, Checks, Executes, Interprets, IsBehindLinked, IsBehindStopped, IsBehindWrong};
ghost use Rattle.cfarm_program_runs.specs.Saying.{IsFaultTold, IsObjectTold, IsPlacedTold, LinkedCausesOf, StoppedAtDepth, StoppedAtLimit};
ghost use Rattle.cfarm_program_runs.specs.Explained.{is_asked};
ghost use Rattle.cfarm_explain.specs.Bounds.{depth_text, limit_text};

use crate::objects::{Refusal, tell_refusal};
use cfarm_command_line_tasks::{Explaining, Format};
use cfarm_explain::{explain, stopped_at_depth, stopped_at_limit};
use cfarm_explain_linked::explain_linked;
use cfarm_hints::{declared_of, hint_of, hint_where, is_amid, of_text};
use cfarm_output::{ErrorLines, Paced};
use cfarm_program_status::{tell, tell_among};
use cfarm_run::{
    Closing, CommandError, PlacedError, TextError, check_text, exec, interpret, read_whole,
    status_of, status_where,
};
use cfarm_settle::settle;
use lang_base::{NoMemory, Shown};
use std::alloc::Global;
use std::io::Write;
use std::str;
use std::sync::Wait;
use std::thread::Threads;

/// Tells a fault of a command over the text of the file of this path.
#[tactic(auto, using(crate::proofs::Tables::error_in_table))]
fn tell_fault<E: ErrorLines>(
    alloc: Global,
    is_seen: bool,
    path: &str,
    text: &[u8],
    fault: CommandError,
    err: &mut E,
) -> u8
    ensures told { IsExplained is_seen (text_fault fault) result (E.contents err.old) (E.contents err.new) }
    ensures table { result ≤ 7 }
{
    let behind = of_text(alloc, is_seen, path, text, fault);
    tell_among(err, false, fault, fault.status(), behind.as_str())
}

/// Tells it as compilers tell editors.
#[tactic(auto, using(crate::proofs::Tables::error_in_table))]
fn tell_placed<E: ErrorLines>(
    alloc: Global,
    path: &str,
    text: &[u8],
    fault: CommandError,
    err: &mut E,
) -> u8
    ensures told { IsPlacedTold path.now text.now fault result (E.contents err.old) (E.contents err.new) }
    ensures table { result ≤ 7 }
{
    let said = hint_of(alloc, text, fault);
    let line = PlacedError {
        path,
        text,
        fault,
        hint: said.as_str(),
    };
    tell_among(err, false, line, fault.status(), "")
}

/// The fault of a text and the offset that it is about, where there is one.
fn placed(fault: CommandError) -> Option<(TextError, usize)>
    ensures { result ≡ placed_fault fault }
{
    match fault {
        CommandError::Text(refused) => match refused.offset() {
            Some(at) => Some((refused, at)),
            None => None,
        },
        CommandError::Run(_) => None,
    }
}

/// Tells it as an object of JSON, or that there is no memory to make one; what has no place as it is ever told.
#[tactic(auto, using(crate::proofs::Tables::error_in_table))]
fn tell_object<E: ErrorLines>(
    alloc: Global,
    path: &str,
    text: &[u8],
    fault: CommandError,
    err: &mut E,
) -> u8
    ensures told { IsObjectTold path.now text.now fault result (E.contents err.old) (E.contents err.new) }
    ensures table { result ≤ 7 }
{
    match placed(fault) {
        Some((refused, at)) => {
            let said = hint_where(alloc, text, refused.number(), at);
            let refusal = Refusal {
                path,
                text,
                fault: refused,
                at,
                hint: said.as_str(),
                declared: declared_of(text, refused, at),
            };
            tell_refusal(alloc, refusal, fault.status(), err)
        }
        None => tell_among(err, false, fault, fault.status(), ""),
    }
}

/// Tells it in the form that is asked for.
#[tactic(auto, using(crate::proofs::Tables::error_in_table))]
fn tell_checked<E: ErrorLines>(
    alloc: Global,
    is_seen: bool,
    format: Format,
    path: &str,
    text: &[u8],
    fault: CommandError,
    err: &mut E,
) -> u8
    ensures told { IsFaultTold is_seen format path.now text.now fault result (E.contents err.old) (E.contents err.new) }
    ensures table { result ≤ 7 }
{
    match format {
        Format::Plain => tell_fault(alloc, is_seen, path, text, fault, err),
        Format::Gcc => tell_placed(alloc, path, text, fault, err),
        Format::Json => tell_object(alloc, path, text, fault, err),
    }
}

/// `check`: prints the counts of an accepted text, or tells its first fault in the form that is asked for.
#[tactic(auto, using(crate::proofs::Tables::error_in_table))]
pub fn check<W: Write, E: ErrorLines>(
    alloc: Global,
    is_seen: bool,
    format: Format,
    path: &str,
    text: &[u8],
    out: &mut Paced<W>,
    err: &mut E,
) -> u8
    ensures does { Checks W.contents E.contents is_seen format path.now text.now (shown result out err) }
    ensures table { result ≤ 7 }
{
    match check_text(alloc, text, out) {
        Ok(()) => 0,
        Err(fault) => tell_checked(alloc, is_seen, format, path, text, fault, err),
    }
}

/// Whether the end of a run is explained.
fn is_asked(is_seen: bool, explaining: Explaining) -> bool
    ensures { result ≡ is_asked is_seen explaining }
{
    match explaining {
        Explaining::Seen => is_seen,
        Explaining::Always => true,
    }
}

/// Why the run of a text went wrong, where and in which calls; nothing where there is no memory for that.
fn cause_of(alloc: Global, path: &str, text: &[u8], depth: u64) -> String
    ensures { IsBehindWrong true path.now text.now depth (string_bytes result) }
{
    let Ok(Some(lines)) = explain(alloc, path.as_bytes(), text, depth) else {
        return String::new(alloc);
    };
    let Ok(told) = str::from_utf8(lines.as_slice()) else {
        return String::new(alloc);
    };
    match told.to_string(alloc) {
        Ok(cause) => cause,
        Err(_) => String::new(alloc),
    }
}

/// The text of these bytes; nothing where there is no memory for it.
fn as_text(alloc: Global, told: Result<Vec<u8>, NoMemory>) -> String
    ensures { (string_bytes result ≡ []) ⊎ IsOkAnd told (λ text. string_bytes result ≡ text.items) }
{
    let Ok(bytes) = told else {
        return String::new(alloc);
    };
    let Ok(text) = str::from_utf8(bytes.as_slice()) else {
        return String::new(alloc);
    };
    match text.to_string(alloc) {
        Ok(text) => text,
        Err(_) => String::new(alloc),
    }
}

/// At which bound a run of a text was stopped.
fn depth_told(alloc: Global, depth: u64) -> String
    ensures { IsBehindStopped true (depth_text depth) (string_bytes result) }
{
    as_text(alloc, stopped_at_depth(alloc, depth))
}

/// At which bound a run of a linked program was stopped.
fn limit_told(alloc: Global, limit: u64) -> String
    ensures { IsBehindStopped true (limit_text limit) (string_bytes result) }
{
    as_text(alloc, stopped_at_limit(alloc, limit))
}

/// What stands behind the line of a run of a text: where it went wrong its cause, where it was stopped the bound.
fn behind_run(
    alloc: Global,
    is_explained: bool,
    path: &str,
    text: &[u8],
    depth: u64,
    shown: Shown,
) -> String
    ensures unseen { is_explained ≡ false → string_bytes result ≡ [] }
    ensures wrong { shown ≡ Shown.Wrong → IsBehindWrong is_explained path.now text.now depth (string_bytes result) }
    ensures stopped { shown ≡ Shown.Running → IsBehindStopped is_explained (depth_text depth) (string_bytes result) }
{
    match shown {
        Shown::Wrong if is_explained => cause_of(alloc, path, text, depth),
        Shown::Running if is_explained => depth_told(alloc, depth),
        _ => String::new(alloc),
    }
}

/// Why the run of a linked program went wrong, where and in which calls; nothing where there is no memory for that.
fn linked_cause(alloc: Global, path: &str, bytes: &[u8], limit: u64) -> String
    ensures { IsBehindLinked true path.now bytes.now limit (string_bytes result) }
{
    let Ok(program) = read_whole(alloc, bytes) else {
        return String::new(alloc);
    };
    let Ok(Some(lines)) = explain_linked(alloc, path.as_bytes(), &program, limit) else {
        return String::new(alloc);
    };
    let Ok(told) = str::from_utf8(lines.as_slice()) else {
        return String::new(alloc);
    };
    match told.to_string(alloc) {
        Ok(cause) => cause,
        Err(_) => String::new(alloc),
    }
}

/// What stands behind the line of a run of a linked program: where it went wrong its cause, where it was stopped the bound.
fn behind_exec(
    alloc: Global,
    is_explained: bool,
    path: &str,
    bytes: &[u8],
    limit: u64,
    shown: Shown,
) -> String
    ensures unseen { is_explained ≡ false → string_bytes result ≡ [] }
    ensures wrong { shown ≡ Shown.Wrong → IsBehindLinked is_explained path.now bytes.now limit (string_bytes result) }
    ensures stopped { shown ≡ Shown.Running → IsBehindStopped is_explained (limit_text limit) (string_bytes result) }
{
    match shown {
        Shown::Wrong if is_explained => linked_cause(alloc, path, bytes, limit),
        Shown::Running if is_explained => limit_told(alloc, limit),
        _ => String::new(alloc),
    }
}

/// `interpret`: writes what the program of a text prints, and tells how it closed; where it went wrong and that is explained, why.
#[tactic(auto, using(crate::proofs::Tables::error_in_table, crate::proofs::Tables::shown_in_table))]
pub fn run_text<W: Write, E: ErrorLines>(
    alloc: Global,
    is_seen: bool,
    explaining: Explaining,
    path: &str,
    text: &[u8],
    depth: u64,
    out: &mut Paced<W>,
    err: &mut E,
) -> u8
    ensures does { Interprets W.contents E.contents is_seen explaining text.now depth (shown result out err) }
    ensures cause { CausesOf is_seen explaining path.now text.now depth result (E.contents err.old) (E.contents err.new) }
    ensures stopped { StoppedAtDepth is_seen explaining depth result (E.contents err.old) (E.contents err.new) }
    ensures table { result ≤ 7 }
{
    let is_explained = is_asked(is_seen, explaining);
    match interpret(alloc, text, depth, out) {
        Ok(shown) => {
            let front = is_amid(is_seen, out);
            let behind = behind_run(alloc, is_explained, path, text, depth, shown);
            tell_among(
                err,
                front,
                Closing(shown),
                status_of(shown),
                behind.as_str(),
            )
        }
        Err(fault) => tell_fault(alloc, is_explained, path, text, fault, err),
    }
}

/// `exec`: writes what a linked program prints, and tells how it closed; where that is explained, why it went wrong or at which bound it was
/// stopped.
#[tactic(auto, using(crate::proofs::Tables::exec_in_table, crate::proofs::Tables::where_in_table))]
pub fn run_bytes<W: Write, E: ErrorLines>(
    alloc: Global,
    is_seen: bool,
    explaining: Explaining,
    path: &str,
    bytes: &[u8],
    limit: u64,
    expected: Option<i32>,
    out: &mut Paced<W>,
    err: &mut E,
) -> u8
    ensures does { Executes W.contents E.contents is_seen explaining (Executed bytes.now limit expected) (shown result out err) }
    ensures cause { LinkedCausesOf is_seen explaining path.now bytes.now limit result (E.contents err.old) (E.contents err.new) }
    ensures stopped { StoppedAtLimit is_seen explaining limit result (E.contents err.old) (E.contents err.new) }
    ensures table { result ≤ 7 }
{
    let is_explained = is_asked(is_seen, explaining);
    match exec(alloc, bytes, limit, out) {
        Ok(shown) => {
            let front = is_amid(is_seen, out);
            let behind = behind_exec(alloc, is_explained, path, bytes, limit, shown);
            tell_among(
                err,
                front,
                Closing(shown),
                status_where(shown, expected),
                behind.as_str(),
            )
        }
        Err(fault) => tell_among(err, false, fault, fault.status(), ""),
    }
}

/// `settle`: prints what three nodes agree on, on threads of `rt`.
#[tactic(auto, using(crate::proofs::Tables::settle_in_table))]
pub fn lay_out<R: Threads + Wait, W: Write, E: ErrorLines>(
    rt: &R,
    alloc: Global,
    bytes: &[u8],
    out: &mut Paced<W>,
    err: &mut E,
) -> u8
    ensures does { Says W.contents E.contents (Settled bytes.now) (shown result out err) }
    ensures table { result ≤ 7 }
{
    match settle(rt, alloc, bytes, out) {
        Ok(_seats) => 0,
        Err(fault) => tell(err, fault, fault.status()),
    }
}

//! The whole program.

ghost use Rattle.std.specs.Prelude.{◌≢◌, ◌≤◌, IfSome, OnSome};
ghost use Rattle.std.specs.String.{string_bytes};
ghost use Rattle.clap.specs.Words.{kind_of};
ghost use Rattle.clap.specs.declared.error.kind.ErrorKind.TheVariants.{DisplayHelp, DisplayVersion, OutOfMemory};
ghost use Rattle.cfarm_program_status.specs.Trace.{shown, trace};
ghost use Rattle.cfarm_program_status.specs.Telling.{IsShown, IsToldAs};
ghost use Rattle.cfarm_program.specs.Answered.{IsAnswerShown, IsHelp, IsHelpPrinted, IsMistakeTold};
ghost use Rattle.cfarm_program.specs.Runs.{Runs, no_text};

use crate::running::run_task;
use crate::wording::Wording;
use cfarm_build::{Farm, Host};
use cfarm_command_line::asked_for;
use cfarm_command_line_tasks::offered;
use cfarm_files::Files;
use cfarm_options::Meter;
use cfarm_output::{ErrorLines, Paced, Unwritten, print_whole};
use cfarm_program_status::{UNWRITTEN, tell, tell_no_memory};
use clap::error::ErrorKind;
use rooms_hall::Naming;
use std::alloc::Global;
use std::io::Write;
use std::sync::Wait;
use std::thread::Threads;

/// The status for the command line.
const MISTAKEN: u8 = 2;

/// Tells this text, of what is wrong with the words.
fn tell_mistake<E: ErrorLines>(text: &str, err: &mut E) -> u8
    ensures told { IsShown text.now 2 result (E.contents err.old) (E.contents err.new) }
    ensures table { result ≤ 7 }
{
    match err.text(text) {
        Ok(()) => MISTAKEN,
        Err(Unwritten) => UNWRITTEN,
    }
}

/// Prints this text, of the help that the words ask for.
fn print_help<W: Write, E: ErrorLines>(text: &str, out: &mut Paced<W>, err: &mut E) -> u8
    ensures printed { IsHelpPrinted W.contents E.contents (shown result out err) text.now }
    ensures table { result ≤ 7 }
{
    match print_whole(out, text.as_bytes()) {
        Ok(()) => 0,
        Err(_) => tell(err, "write 701", UNWRITTEN),
    }
}

/// Prints the text of an answer of this kind, or tells it.
fn show<W: Write, E: ErrorLines>(kind: ErrorKind, text: &str, out: &mut Paced<W>, err: &mut E) -> u8
    ensures help { IsHelp kind → IsHelpPrinted W.contents E.contents (shown result out err) text.now }
    ensures mistake { kind ≢ DisplayHelp → kind ≢ DisplayVersion → IsMistakeTold W.contents E.contents (shown result out err) text.now }
    ensures table { result ≤ 7 }
{
    match kind {
        ErrorKind::DisplayHelp | ErrorKind::DisplayVersion => print_help(text, out, err),
        _ => tell_mistake(text, err),
    }
}

/// The text of an answer; none where memory was refused.
fn text_shown<T: Wording>(alloc: Global, wording: &T, fault: &clap::Error) -> Option<String>
    ensures text { IfSome result (λ text. T.may_show wording.now fault.now (string_bytes text)) }
    ensures kind { OnSome result (kind_of fault.now ≢ OutOfMemory) }
{
    match fault.kind() {
        ErrorKind::OutOfMemory => None,
        _ => match wording.text_of(alloc, fault) {
            Ok(text) => Some(text),
            Err(_) => None,
        },
    }
}

/// Tells why the words ask for nothing that can be done, or prints the help that they ask for.
fn tell_refused<T: Wording, W: Write, E: ErrorLines>(
    alloc: Global,
    wording: &T,
    fault: &clap::Error,
    out: &mut Paced<W>,
    err: &mut E,
) -> u8
    ensures told { IsAnswerShown W.contents E.contents (shown result out err) (T.may_show wording.now) fault.now }
    ensures table { result ≤ 7 }
{
    match text_shown(alloc, wording, fault) {
        Some(text) => show(fault.kind(), text.as_str(), out, err),
        None => tell_no_memory(err),
    }
}

/// Does what the words of a command line ask for, the first of which is the program's name: says where the quorums of a build need not
/// meet, and else reads the file, writes the output, tells a line on standard error where there is one, and gives the exit status. The host's
/// threads are for `settle`, `build`, `verify` and `fsck`, `wording` gives the texts of help and of mistakes, and `meter` shows how far a build
/// is. A folder's lock is taken once, and held while files of the folder are read or put. A build opens the disks of each node once, and closes
/// them. `is_seen` says that a user sees standard error, where a line is then explained; whether one sees the output, the output knows.
pub fn run<H, R, F, T, M, W, E>(
    host: &Host<'_, H, R>,
    is_seen: bool,
    words: &[String],
    files: &mut F,
    wording: &T,
    meter: &mut M,
    out: &mut Paced<W>,
    err: &mut E,
) -> u8
where
    H: Naming + Send,
    R: Threads + Wait + Sync,
    F: Files,
    T: Wording,
    M: Meter,
    W: Write,
    E: ErrorLines,
    requires leave { F.may_lock files.now }
    ensures does { Runs ⟦<F as Farm<H>>⟧ W.Write E.ErrorLines T.Wording is_seen wording.now words.now (trace result files out err) }
    ensures table { result ≤ 7 }
{
    let choices = offered();
    match asked_for(host.alloc, words, choices) {
        Ok(Some(asked)) => run_task(
            host, is_seen, asked.task, asked.path, files, meter, out, err,
        ),
        Ok(None) => MISTAKEN,
        Err(fault) => tell_refused(host.alloc, wording, &fault, out, err),
    }
}

/// Tells that the words of the command line are not text, and gives the status.
pub fn tell_no_text<E: ErrorLines>(err: &mut E) -> u8
    ensures told { IsToldAs no_text result (E.contents err.old) (E.contents err.new) }
    ensures table { result ≤ 7 }
{
    tell(
        err,
        "error: the words of the command line are not UTF-8",
        MISTAKEN,
    )
}

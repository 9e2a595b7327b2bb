//! A task on the file of a path.

ghost use Rattle.std.specs.Prelude.{◌≤◌, IfSome, IsNone};
ghost use Rattle.cfarm_program_status.specs.Trace.{trace};
ghost use Rattle.cfarm_program.specs.Met.{AreMet, IsUnmet};
ghost use Rattle.cfarm_program.specs.Performed.{Reads, RunsTask};

use crate::mistake::{Mistake, unwritten};
use crate::performing::perform;
use cfarm_build::{Farm, Host};
use cfarm_command_line_tasks::Task;
use cfarm_files::Files;
use cfarm_options::Meter;
use cfarm_output::{ErrorLines, Paced};
use cfarm_program_status::{tell, tell_unread};
use rooms_hall::Naming;
use std::io::Write;
use std::sync::Wait;
use std::thread::Threads;

/// The status for what is wrong with a task.
const UNMET: u8 = 2;

/// What is wrong with a task before its file is read: its quorums need not meet, its prefix is no C name, or it lacks one.
fn unmet<'a>(task: Task<'a>) -> Option<Mistake<'a>>
    ensures some { IfSome result (IsUnmet task.entry) }
    ensures none { IsNone result → AreMet task.entry }
{
    match task {
        Task::Build(options) => match options.quorums() {
            Some(_quorums) => None,
            None => Some(Mistake::Quorums(options.sizes())),
        },
        Task::Fsck(options) => match options.sizes.quorums() {
            Some(_quorums) => None,
            None => Some(Mistake::Quorums(options.sizes)),
        },
        Task::Native(options) => unwritten(options.written, options.prefix),
        _ => None,
    }
}

/// Reads the file of this path and does the task on its bytes: writes the output, tells a line on standard error where there
/// is one, and gives the exit status.
fn read_and_perform<
    H: Naming + Send,
    R: Threads + Wait + Sync,
    F: Files,
    M: Meter,
    W: Write,
    E: ErrorLines,
>(
    host: &Host<'_, H, R>,
    is_seen: bool,
    task: Task<'_>,
    path: &str,
    files: &mut F,
    meter: &mut M,
    out: &mut Paced<W>,
    err: &mut E,
) -> u8
    requires leave { F.may_lock files.now }
    requires met { AreMet task }
    ensures does { Reads ⟦<F as Farm<H>>⟧ W.Write E.ErrorLines is_seen task.entry path.now (trace result files out err) }
    ensures table { result ≤ 7 }
{
    match files.read(path) {
        Ok(bytes) => perform(host, is_seen, task, path, &bytes, files, meter, out, err),
        Err(fault) => tell_unread(err, path, fault),
    }
}

/// Does the task on the file of this path: writes the output, tells a line on standard error where there is one, and gives the exit
/// status. Where something is wrong with the task itself, that is told, and no file is read.
pub(crate) fn run_task<
    H: Naming + Send,
    R: Threads + Wait + Sync,
    F: Files,
    M: Meter,
    W: Write,
    E: ErrorLines,
>(
    host: &Host<'_, H, R>,
    is_seen: bool,
    task: Task<'_>,
    path: &str,
    files: &mut F,
    meter: &mut M,
    out: &mut Paced<W>,
    err: &mut E,
) -> u8
    requires leave { F.may_lock files.now }
    ensures does { RunsTask ⟦<F as Farm<H>>⟧ W.Write E.ErrorLines is_seen task.entry path.now (trace result files out err) }
    ensures table { result ≤ 7 }
{
    match unmet(task) {
        Some(mistake) => tell(err, mistake, UNMET),
        None => read_and_perform(host, is_seen, task, path, files, meter, out, err),
    }
}

//! The commands, with what each tells.

ghost use Rattle.std.specs.Prelude.{◌≤◌};
ghost use Rattle.paxos_core_world.specs.Quorum.{AreQuorums};
ghost use Rattle.cfarm_options.specs.Quorums.{asked_quorums, quorums_of};
ghost use Rattle.cfarm_program_status.specs.Trace.{trace};
ghost use Rattle.cfarm_program.specs.Met.{AreMet};
ghost use Rattle.cfarm_program.specs.Performed.{Built, BuiltApart, Does, Looks};

use cfarm_build::{Farm, Host, build_text, of_build};
use cfarm_command_line_tasks::{FsckOptions, Task};
use cfarm_files::Files;
use cfarm_fsck_files::look_through;
use cfarm_options::{BuildOptions, Meter};
use cfarm_output::{ErrorLines, Paced};
use cfarm_own_files::barred;
use cfarm_program_looks::{emit_form, judge_offer, list_records, show_text, verify_files};
use cfarm_program_native::write_native;
use cfarm_program_runs::{check, lay_out, play, run_bytes, run_text};
use cfarm_program_status::{tell_among, tell_barred, tell_no_memory};
use rooms_hall::Naming;
use std::io::Write;
use std::sync::Wait;
use std::thread::Threads;

/// Builds the text of the file of this path, with paths that may all be used.
#[tactic(auto, using(crate::proofs::Tables::building_in_table))]
fn build_apart<
    H: Naming + Send,
    R: Threads + Wait + Sync,
    F: Files,
    M: Meter,
    W: Write,
    E: ErrorLines,
>(
    host: &Host<'_, H, R>,
    is_seen: bool,
    options: BuildOptions<'_>,
    path: &str,
    text: &[u8],
    files: &mut F,
    meter: &mut M,
    out: &mut Paced<W>,
    err: &mut E,
) -> u8
    requires leave { F.may_lock files.now }
    requires met { AreQuorums (quorums_of options) }
    ensures does { BuiltApart ⟦<F as Farm<H>>⟧ W.Write E.ErrorLines is_seen options.entry text.now (trace result files out err) }
    ensures table { result ≤ 7 }
{
    let Some(quorums) = options.quorums() else {
        unreachable!();
    };
    match build_text(host, text, options, quorums, files, meter, out) {
        Ok(()) => {
            meter.ended();
            0
        }
        Err(fault) => {
            let status = fault.status();
            let behind = of_build(host.alloc, is_seen, options, path, text, &*files, &fault);
            let told = tell_among(err, false, fault, status, behind.as_str());
            meter.ended();
            told
        }
    }
}

/// The same, or tells the first of its paths that it may not use: one that leads to a file of the build's, or at which the bundle or the program
/// would take the place of what is kept.
fn build<H: Naming + Send, R: Threads + Wait + Sync, F: Files, M: Meter, W: Write, E: ErrorLines>(
    host: &Host<'_, H, R>,
    is_seen: bool,
    asked: BuildOptions<'_>,
    path: &str,
    text: &[u8],
    files: &mut F,
    meter: &mut M,
    out: &mut Paced<W>,
    err: &mut E,
) -> u8
    requires leave { F.may_lock files.now }
    requires met { AreQuorums (quorums_of asked) }
    ensures does { Built ⟦<F as Farm<H>>⟧ W.Write E.ErrorLines is_seen asked.entry path.now text.now (trace result files out err) }
    ensures table { result ≤ 7 }
{
    match barred(host.alloc, &*files, path, asked) {
        Ok(None) => build_apart(host, is_seen, asked, path, text, files, meter, out, err),
        Ok(Some(at)) => tell_barred(err, is_seen, at.as_str()),
        Err(_) => tell_no_memory(err),
    }
}

fn look<H: Naming, R: Threads + Wait + Sync, F: Files, W: Write, E: ErrorLines>(
    host: &Host<'_, H, R>,
    options: FsckOptions<'_>,
    text: &[u8],
    files: &mut F,
    out: &mut Paced<W>,
    err: &mut E,
) -> u8
    requires leave { F.may_lock files.now }
    requires met { AreQuorums (asked_quorums options.sizes) }
    ensures does { Looks F.Files W.Write E.ErrorLines options.entry text.now (trace result files out err) }
    ensures table { result ≤ 7 }
{
    let Some(quorums) = options.sizes.quorums() else {
        unreachable!();
    };
    look_through(
        host.threads,
        host.alloc,
        host.hall,
        text,
        quorums,
        options.folder,
        files,
        out,
        err,
    )
}

/// Does the task on the bytes of its file: writes the output, tells a line on standard error where there is one, and
/// gives the exit status. Where a user sees standard error the line is explained.
pub(crate) fn perform<
    H: Naming + Send,
    R: Threads + Wait + Sync,
    F: Files,
    M: Meter,
    W: Write,
    E: ErrorLines,
>(
    host: &Host<'_, H, R>,
    is_seen: bool,
    task: Task<'_>,
    path: &str,
    bytes: &[u8],
    files: &mut F,
    meter: &mut M,
    out: &mut Paced<W>,
    err: &mut E,
) -> u8
    requires leave { F.may_lock files.now }
    requires met { AreMet task }
    ensures does { Does ⟦<F as Farm<H>>⟧ W.Write E.ErrorLines is_seen task.entry path.now bytes.now (trace result files out err) }
    ensures table { result ≤ 7 }
{
    let alloc = host.alloc;
    match task {
        Task::Check(format) => check(alloc, is_seen, format, path, bytes, out, err),
        Task::Interpret(depth, explaining) => {
            run_text(alloc, is_seen, explaining, path, bytes, depth, out, err)
        }
        Task::Build(options) => build(host, is_seen, options, path, bytes, files, meter, out, err),
        Task::Exec(limit, expected, explaining) => run_bytes(
            alloc, is_seen, explaining, path, bytes, limit, expected, out, err,
        ),
        Task::Settle => lay_out(host.threads, alloc, bytes, out, err),
        Task::Simulate(showing) => play(alloc, showing, bytes, out, err),
        Task::Show => show_text(alloc, bytes, out, err),
        Task::List => list_records(alloc, bytes, out, err),
        Task::Verify(paths) => verify_files(
            host.threads,
            alloc,
            &*files,
            bytes,
            paths.program,
            paths.bundle,
            paths.native,
            out,
            err,
        ),
        Task::Emit(emitted, seed) => emit_form(alloc, bytes, emitted, seed, out, err),
        Task::Judge(offer) => judge_offer(
            alloc,
            &*files,
            bytes,
            offer.function,
            offer.path,
            out,
            err,
        ),
        Task::Native(options) => write_native(alloc, options, path, bytes, files, out, err),
        Task::Fsck(options) => look(host, options, bytes, files, out, err),
    }
}

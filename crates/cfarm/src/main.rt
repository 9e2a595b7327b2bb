//! `cfarm`: a farm of C compiler nodes in one process. `main` hands the words of the command line, the files, the hall of the rooms
//! and the standard streams to [`cfarm_program::run`]. Streams that are closed are made sure of before.
#![tactic(auto)]

ghost use Rattle.std.specs.Prelude.{◌≡◌, ◌≤◌};

mod screen;
mod streams;

use crate::screen::Screen;
use crate::streams::Streams;
use cfarm_files::HostFiles;
use cfarm_output::{ErrorLines, ErrorWriter, Paced};
use cfarm_program::{Host, OwnWords, run, tell_no_text};
use cfarm_program_status::tell_no_memory;
use rooms_hall::{Naming, Opened};
use std::io::{BufWriter, ErrorKind, IsTerminal};
use std::marker::Brand;
use std::process::ExitCode;
use std::sync::Wait;
use std::thread::Threads;
use std::{env, io};

/// The words of the command line.
fn words_of(rt: &HostRuntime) -> io::Result<Vec<String>> {
    Ok(env::args(rt)?.collect(rt.alloc())?)
}

/// Runs the program in the hall, under its name. The output is kept until it is flushed, or much of it is there; on a terminal it is flushed
/// at each line feed.
fn run_in<H: Naming + Send, R: Threads + Wait + Sync, E: ErrorLines>(
    rt: &HostRuntime,
    threads: &R,
    opened: Opened,
    words: &[String],
    err: &mut E,
) -> u8
    requires hall { opened ≡ H.hall }
    ensures table { result ≤ 7 }
{
    let alloc = rt.alloc();
    let hall = opened.named::<H>();
    let is_seen = rt.stderr().is_terminal();
    let mut files = HostFiles::over(rt, is_seen);
    let mut screen = Screen::over(rt);
    let host = Host {
        threads,
        alloc,
        hall: &hall,
    };
    match BufWriter::new(alloc, io::writer(rt)) {
        Ok(out) => run(
            &host,
            is_seen,
            words,
            &mut files,
            &OwnWords,
            &mut screen,
            &mut Paced::over(out, rt.stdout().is_terminal()),
            err,
        ),
        Err(_) => tell_no_memory(err),
    }
}

/// Runs the program on the real files and streams, and on threads where it takes them.
fn run_here<R: Threads + Wait + Sync>(rt: &HostRuntime, threads: &R) -> u8
    ensures table { result ≤ 7 }
{
    let standard_error = rt.stderr();
    let mut err = ErrorWriter::over(io::writer(&standard_error));
    let words = match words_of(rt) {
        Ok(words) => words,
        Err(fault) if fault.kind() == ErrorKind::InvalidData => return tell_no_text(&mut err),
        Err(_) => return tell_no_memory(&mut err),
    };
    match Opened::new(rt.alloc()) {
        Ok(opened) => run_in::<Brand, R, _>(rt, threads, opened, &words, &mut err),
        Err(_) => tell_no_memory(&mut err),
    }
}

fn main(rt: HostRuntime) -> ExitCode {
    let _streams = Streams::made_sure(&rt);
    ExitCode::from(run_here(&rt, &rt))
}

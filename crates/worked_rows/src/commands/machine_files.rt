//! Runs over the files of the machine.

use crate::commands::bundled::verified;
use crate::commands::runs::{Here, Ran, executed, run_over, told, words_of};
use cfarm_files::HostFiles;
use rooms_hall::Naming;
use std::fs;
use std::io::ErrorKind;
use std::sync::Wait;
use std::thread::Threads;
use worked_fakes::Held;
use worked_row_files::{fine, some};

/// A run over the files of the machine.
fn ran_here<H: Naming + Send, R: Threads + Wait + Sync>(
    rt: &HostRuntime,
    here: &Here<'_, H, R>,
    words: &[String],
) -> Ran {
    let alloc = here.alloc;
    run_over(
        here,
        words,
        &mut HostFiles::over(rt, here.is_seen),
        Held::ample(alloc),
        Held::ample(alloc),
    )
}

/// The status of a run over the files of the machine, what it wrote and its standard error.
pub fn answer_here<H: Naming + Send, R: Threads + Wait + Sync>(
    rt: &HostRuntime,
    here: &Here<'_, H, R>,
    line: &str,
) -> Option<String> {
    let words = some!(words_of(here.alloc, line));
    told(here.alloc, &ran_here(rt, here, &words), &[])
}

/// The bytes of a file of the machine in hex, if one is there.
pub fn bytes_here(rt: &HostRuntime, path: &str) -> Option<String> {
    let alloc = rt.alloc();
    match fs::read(rt, path) {
        Ok(bytes) => hex::encode(alloc, bytes.as_slice()).ok(),
        Err(fault) if fault.kind() == ErrorKind::NotFound => "none".to_string(alloc).ok(),
        Err(_) => None,
    }
}

/// Whether a second run answers the same and leaves the same bytes in the file of this path.
fn is_again<H: Naming + Send, R: Threads + Wait + Sync>(
    rt: &HostRuntime,
    here: &Here<'_, H, R>,
    words: &[String],
    path: &str,
    first: &Ran,
    linked: &[u8],
) -> Option<bool> {
    let second = ran_here(rt, here, words);
    let again = fine!(fs::read(rt, path));
    Some(
        second.status == first.status
            && second.out.as_slice() == first.out.as_slice()
            && second.err.as_slice() == first.err.as_slice()
            && again.as_slice() == linked,
    )
}

/// The status of a run, what it wrote and its standard error, and what the program does that it linked.
fn told_and_done<H: Naming + Send, R: Threads + Wait + Sync>(
    here: &Here<'_, H, R>,
    ran: &Ran,
    linked: &[u8],
) -> Option<String> {
    let alloc = here.alloc;
    let told = some!(told(alloc, ran, linked));
    let does = some!(executed(here, linked));
    format!(in alloc; "{told} {does}").ok()
}

/// The same of two runs that link a program in the file of this path.
fn twice<H: Naming + Send, R: Threads + Wait + Sync>(
    rt: &HostRuntime,
    here: &Here<'_, H, R>,
    words: &[String],
    path: &str,
) -> Option<String> {
    let first = ran_here(rt, here, words);
    let linked = fine!(fs::read(rt, path));
    let is_same = some!(is_again(rt, here, words, path, &first, &linked));
    let told = some!(told_and_done(here, &first, &linked));
    let again = if is_same { "same" } else { "other" };
    format!(in here.alloc; "{told} {again}").ok()
}

/// The same of a build in this folder, and what the program does that is linked there; and whether a second build there answers the
/// same and links the same.
pub fn answer_twice<H: Naming + Send, R: Threads + Wait + Sync>(
    rt: &HostRuntime,
    here: &Here<'_, H, R>,
    rest: &str,
) -> Option<String> {
    let alloc = here.alloc;
    let (folder, line) = some!(rest.split_once(' '));
    let words = some!(words_of(alloc, line));
    let path = fine!(format!(in alloc; "{folder}/linked.cfp"));
    twice(rt, here, &words, path.as_str())
}

/// The status of a build, what it wrote and its standard error, and what `verify` says of the program and the bundle in the files of these
/// paths.
fn proved<H: Naming + Send, R: Threads + Wait + Sync>(
    rt: &HostRuntime,
    here: &Here<'_, H, R>,
    words: &[String],
    program: &str,
    bundle: &str,
) -> Option<String> {
    let alloc = here.alloc;
    let text = some!(words.get(2));
    let ran = ran_here(rt, here, words);
    let bytes = fine!(fs::read(rt, program));
    let told = some!(told(alloc, &ran, &bytes));
    let mut files = HostFiles::over(rt, false);
    let says = some!(verified(here, &mut files, text, program, bundle, &bytes));
    format!(in alloc; "{told} {says}").ok()
}

/// The same of a build in this folder that writes `linked.cfb` there, and what `verify` says of that and of `linked.cfp`.
pub fn answer_proved<H: Naming + Send, R: Threads + Wait + Sync>(
    rt: &HostRuntime,
    here: &Here<'_, H, R>,
    rest: &str,
) -> Option<String> {
    let alloc = here.alloc;
    let (folder, line) = some!(rest.split_once(' '));
    let words = some!(words_of(alloc, line));
    let program = fine!(format!(in alloc; "{folder}/linked.cfp"));
    let bundle = fine!(format!(in alloc; "{folder}/linked.cfb"));
    proved(rt, here, &words, program.as_str(), bundle.as_str())
}

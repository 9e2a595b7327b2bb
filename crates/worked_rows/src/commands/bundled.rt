//! Builds that write a bundle, and what `verify` says of it.

use crate::commands::runs::{Here, Ran, run_over, told, words_of};
use cfarm_files::Files;
use rooms_hall::Naming;
use sha2::{Digest, Sha256};
use std::alloc::Global;
use std::sync::Wait;
use std::thread::Threads;
use worked_fakes::{Given, Held, Put, shown};
use worked_row_files::{fine, some};

/// The status of a run, what it wrote, with `H` for the SHA-256 of these bytes, and its standard error.
fn told_of(alloc: Global, ran: &Ran, program: &[u8]) -> Option<String> {
    let digest = Sha256::digest(program);
    let digits = fine!(hex::encode(alloc, digest.as_slice()));
    let text = fine!(String::from_utf8_lossy(alloc, &ran.out));
    let named = match text.split_once(digits.as_str()) {
        Some((front, behind)) => fine!(format!(in alloc; "{front}H{behind}")),
        None => text,
    };
    let written = some!(shown(alloc, named.as_bytes()));
    let told = some!(shown(alloc, &ran.err));
    format!(in alloc; "{} {written} {told}", ran.status).ok()
}

/// What `verify` says of the text, the program and the bundle of these paths; the program has these bytes.
pub fn verified<H: Naming + Send, R: Threads + Wait + Sync, F: Files>(
    here: &Here<'_, H, R>,
    files: &mut F,
    text: &str,
    program: &str,
    bundle: &str,
    bytes: &[u8],
) -> Option<String>
    requires { F.may_lock files.now }
{
    let alloc = here.alloc;
    let line = fine!(format!(in alloc; "verify {text} --program {program} --bundle {bundle}"));
    let words = some!(words_of(alloc, line.as_str()));
    let ran = run_over(here, &words, files, Held::ample(alloc), Held::ample(alloc));
    told_of(alloc, &ran, bytes)
}

/// What is told of a build that put a bundle alone.
fn told_alone(alloc: Global, built: &Ran, bundle: &Put) -> Option<String> {
    let told = some!(told(alloc, built, &[]));
    format!(in alloc; "{told} {}", bundle.path).ok()
}

/// The paths of two files, and the bytes of the second.
fn copied(alloc: Global, first: &Put, second: &Put) -> Option<(String, String, Vec<u8>)> {
    let first = fine!(first.path.as_str().to_string(alloc));
    let path = fine!(second.path.as_str().to_string(alloc));
    let bytes = fine!(second.bytes.as_slice().to_vec(alloc));
    Some((first, path, bytes))
}

/// What is told of a build that put a bundle and then a program, and what `verify` says of them.
fn told_both<H: Naming + Send, R: Threads + Wait + Sync>(
    here: &Here<'_, H, R>,
    files: &mut Given<'_>,
    built: &Ran,
) -> Option<String> {
    let alloc = here.alloc;
    let [bundle, program] = files.put.as_slice() else {
        return None;
    };
    let (bundle, program, bytes) = some!(copied(alloc, bundle, program));
    let told = some!(told(alloc, built, &bytes));
    let says = some!(verified(here, files, "f", &program, &bundle, &bytes));
    format!(in alloc; "{told} {bundle} {program} {says}").ok()
}

/// The status of a build, what it wrote and its standard error; the paths of the files that it put; and, where these are a bundle and then a
/// program, what `verify` says of them.
pub fn bundled<H: Naming + Send, R: Threads + Wait + Sync>(
    here: &Here<'_, H, R>,
    words: &[String],
    text: &[u8],
) -> Option<String> {
    let alloc = here.alloc;
    let mut files = Given::of(alloc, text);
    let built = run_over(
        here,
        words,
        &mut files,
        Held::ample(alloc),
        Held::ample(alloc),
    );
    if !files.are_disks_closed() {
        return None;
    }
    if files.put.len() > 1 {
        return told_both(here, &mut files, &built);
    }
    match files.put.first() {
        Some(bundle) => told_alone(alloc, &built, bundle),
        None => told(alloc, &built, &[]),
    }
}

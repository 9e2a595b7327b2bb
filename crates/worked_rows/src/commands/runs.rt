//! Runs of the program over files and writers in memory.

use cfarm_files::Files;
use cfarm_output::{ErrorWriter, Paced};
use cfarm_program::{Host, OwnWords, run};
use rooms_hall::{Hall, Naming};
use std::alloc::Global;
use std::sync::Wait;
use std::thread::Threads;
use worked_fakes::{Given, Held, Put, Quiet, masked, shown};
use worked_row_files::{fine, some};

/// The threads and the hall of all runs.
#[derive(Drop)]
pub struct Here<'a, H: Naming, R> {
    pub threads: &'a R,
    pub hall: &'a Hall<H>,
    pub alloc: Global,
    /// Whether the output and standard error are terminals.
    pub is_seen: bool,
}

/// What a run came to.
#[derive(Drop)]
pub struct Ran {
    pub status: u8,
    pub out: Vec<u8>,
    pub err: Vec<u8>,
}

/// The words of a command line, the program's name first.
pub fn words_of(alloc: Global, line: &str) -> Option<Vec<String>> {
    let mut words = Vec::new(alloc);
    fine!(words.push(fine!("cfarm".to_string(alloc))));
    for word in line.split(' ') {
        if word.is_empty() {
            continue;
        }
        let word = if word == "''" { "" } else { word };
        fine!(words.push(fine!(word.to_string(alloc))));
    }
    Some(words)
}

/// Runs the program over these files, with these writers. Lines of files that were not used stand in front of standard error, and those
/// of the folder behind it.
pub fn run_over<H: Naming + Send, R: Threads + Wait + Sync, F: Files>(
    here: &Here<'_, H, R>,
    words: &[String],
    files: &mut F,
    out: Held,
    err: Held,
) -> Ran
    requires { F.may_lock files.now }
{
    let mut quiet = Quiet {
        told: 0,
        cleared: 0,
        alloc: here.alloc,
        ignored: Vec::new(here.alloc),
        noted: Vec::new(here.alloc),
        has_ended: false,
    };
    let mut out = Paced::over(out, here.is_seen);
    let mut lines = ErrorWriter::over(err);
    let host = Host {
        threads: here.threads,
        alloc: here.alloc,
        hall: here.hall,
    };
    let status = run(
        &host,
        here.is_seen,
        words,
        files,
        &OwnWords,
        &mut quiet,
        &mut out,
        &mut lines,
    );
    let Quiet {
        ignored,
        noted,
        has_ended,
        ..
    } = quiet;
    let mut err = ignored;
    let _ = err.extend_from_slice(&lines.into_writer().bytes);
    if has_ended {
        let _ = err.extend_from_slice(&noted);
    }
    Ran {
        status,
        out: out.taker.bytes,
        err,
    }
}

/// The status of a run, what it wrote and its standard error. What was built is these bytes.
pub fn told(alloc: Global, ran: &Ran, built: &[u8]) -> Option<String> {
    let text = fine!(String::from_utf8_lossy(alloc, &ran.out));
    let written = some!(shown(alloc, some!(masked(alloc, &text, built)).as_bytes()));
    let told = some!(shown(alloc, &ran.err));
    format!(in alloc; "{} {written} {told}", ran.status).ok()
}

/// A run on a file of these bytes, with writers that never fail.
pub fn run_amply<H: Naming + Send, R: Threads + Wait + Sync>(
    here: &Here<'_, H, R>,
    words: &[String],
    text: &[u8],
) -> Ran {
    let alloc = here.alloc;
    let (out, err) = (Held::ample(alloc), Held::ample(alloc));
    run_over(here, words, &mut Given::of(alloc, text), out, err)
}

/// Bytes in hex, `-` for none.
fn hex_of(alloc: Global, bytes: &[u8]) -> Option<String> {
    if bytes.is_empty() {
        return "-".to_string(alloc).ok();
    }
    hex::encode(alloc, bytes).ok()
}

/// The status of a run, what it wrote in hex, and its standard error.
pub fn coded<H: Naming + Send, R: Threads + Wait + Sync>(
    here: &Here<'_, H, R>,
    words: &[String],
    text: &[u8],
) -> Option<String> {
    let ran = run_amply(here, words, text);
    let written = some!(hex_of(here.alloc, &ran.out));
    let told = some!(shown(here.alloc, &ran.err));
    format!(in here.alloc; "{} {written} {told}", ran.status).ok()
}

/// The status of a run and its standard error.
pub fn ended<H: Naming + Send, R: Threads + Wait + Sync>(
    here: &Here<'_, H, R>,
    words: &[String],
    text: &[u8],
) -> Option<String> {
    let ran = run_amply(here, words, text);
    let told = some!(shown(here.alloc, &ran.err));
    format!(in here.alloc; "{} {told}", ran.status).ok()
}

/// The output of a run; of one that is broken off and writes one byte again and again, that byte once.
fn folded(ran: &Ran) -> &[u8] {
    let bytes = ran.out.as_slice();
    let Some(first) = bytes.first() else {
        return bytes;
    };
    if ran.status == 6 && bytes.iter().all(|byte| byte == first) {
        &bytes[..1]
    } else {
        bytes
    }
}

/// What the program does that is in these bytes.
pub fn executed<H: Naming + Send, R: Threads + Wait + Sync>(
    here: &Here<'_, H, R>,
    bytes: &[u8],
) -> Option<String> {
    let alloc = here.alloc;
    let words = some!(words_of(alloc, "exec f --limit 1000"));
    let mut files = Given::of(alloc, bytes);
    let ran = run_over(
        here,
        &words,
        &mut files,
        Held::ample(alloc),
        Held::ample(alloc),
    );
    let written = some!(shown(alloc, folded(&ran)));
    let told = some!(shown(alloc, &ran.err));
    format!(in alloc; "{} {written} {told}", ran.status).ok()
}

/// The status of a run, what it wrote and its standard error, the file that it put, and what the program in that does.
fn told_of_put<H: Naming + Send, R: Threads + Wait + Sync>(
    here: &Here<'_, H, R>,
    ran: &Ran,
    put: &Put,
) -> Option<String> {
    let alloc = here.alloc;
    let told = some!(told(alloc, ran, &put.bytes));
    let does = some!(executed(here, &put.bytes));
    format!(in alloc; "{told} {} {does}", put.path).ok()
}

/// The status of a run, what it wrote and its standard error, and the file that it put.
pub fn linked<H: Naming + Send, R: Threads + Wait + Sync>(
    here: &Here<'_, H, R>,
    words: &[String],
    text: &[u8],
) -> Option<String> {
    let alloc = here.alloc;
    let mut files = Given::of(alloc, text);
    let ran = run_over(
        here,
        words,
        &mut files,
        Held::ample(alloc),
        Held::ample(alloc),
    );
    let put = some!(files.put.first());
    let told = some!(told(alloc, &ran, &put.bytes));
    format!(in alloc; "{told} {}", put.path).ok()
}

/// The same, and what the program in the file does that was put, if any was.
pub fn answer<H: Naming + Send, R: Threads + Wait + Sync>(
    here: &Here<'_, H, R>,
    words: &[String],
    text: &[u8],
    out: Held,
    err: Held,
) -> Option<String> {
    let alloc = here.alloc;
    let mut files = Given::of(alloc, text);
    let ran = run_over(here, words, &mut files, out, err);
    if !files.are_disks_closed() {
        return None;
    }
    let Some(put) = files.put.first() else {
        return told(alloc, &ran, &[]);
    };
    if files.put.len() > 1 {
        return None;
    }
    told_of_put(here, &ran, put)
}

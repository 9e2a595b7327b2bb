//! Writers that fail at each byte.

use crate::commands::runs::{Here, Ran, run_over};
use rooms_hall::Naming;
use std::sync::Wait;
use std::thread::Threads;
use worked_fakes::{Given, Held};

/// Whether a run answers 4 where the output can hold only so many bytes: these are written, and 701 is told.
fn fails_at_output<H: Naming + Send, R: Threads + Wait + Sync>(
    here: &Here<'_, H, R>,
    words: &[String],
    text: &[u8],
    ample: &Ran,
    space: usize,
) -> bool {
    let alloc = here.alloc;
    let (out, err) = (Held::failing_at(alloc, space), Held::ample(alloc));
    let ran = run_over(here, words, &mut Given::of(alloc, text), out, err);
    ran.status == 4
        && ran.out.len() == space
        && ample.out.starts_with(&ran.out)
        && ran.err.as_slice() == b"write 701\n".as_slice()
}

/// Whether a run answers 4 where standard error can hold only so many bytes: these are told, and the output is whole.
fn fails_at_error<H: Naming + Send, R: Threads + Wait + Sync>(
    here: &Here<'_, H, R>,
    words: &[String],
    text: &[u8],
    ample: &Ran,
    space: usize,
) -> bool {
    let alloc = here.alloc;
    let (out, err) = (Held::ample(alloc), Held::failing_at(alloc, space));
    let ran = run_over(here, words, &mut Given::of(alloc, text), out, err);
    ran.status == 4
        && ran.out.as_slice() == ample.out.as_slice()
        && ran.err.len() == space
        && ample.err.starts_with(&ran.err)
}

/// At how many bytes of the output and of standard error a writer may fail, where the answer is then 4.
pub fn failing<H: Naming + Send, R: Threads + Wait + Sync>(
    here: &Here<'_, H, R>,
    words: &[String],
    text: &[u8],
) -> Option<String> {
    let alloc = here.alloc;
    let (out, err) = (Held::ample(alloc), Held::ample(alloc));
    let ample = run_over(here, words, &mut Given::of(alloc, text), out, err);
    for space in 0..ample.out.len() {
        if !fails_at_output(here, words, text, &ample, space) {
            return format!(in alloc; "output at {space}").ok();
        }
    }
    for space in 0..ample.err.len() {
        if !fails_at_error(here, words, text, &ample, space) {
            return format!(in alloc; "error at {space}").ok();
        }
    }
    format!(in alloc; "{} {}", ample.out.len(), ample.err.len()).ok()
}

//! Runs of programs of RTL.

use lang::read_program;
use lang_base::Shown;
use lang_helpers::RunError;
use rtl_language::Rtl;
use std::alloc::Global;
use std::io::Write;
use worked_row_files::{bytes_of, fine, numbered, owned, some};

/// How the run of a program of RTL stands at the limit.
fn shown<W: Write>(
    alloc: Global,
    limit: u64,
    bytes: &[u8],
    out: &mut W,
) -> Option<Result<Shown, RunError>> {
    let (program, _length) = fine!(read_program::<Rtl>(alloc, bytes));
    Some(rtl::run(alloc, &program, limit, out))
}

/// The limit and the program of a question.
fn parts_of(alloc: Global, words: &str) -> Option<(u64, Vec<u8>)> {
    let (limit, text) = some!(words.split_once(' '));
    Some((fine!(limit.parse()), some!(bytes_of(alloc, text))))
}

/// A text and bytes behind it, `-` for none.
fn with_bytes(alloc: Global, told: &str, bytes: &[u8]) -> Option<String> {
    if bytes.is_empty() {
        return format!(in alloc; "{told}:-").ok();
    }
    let printed = fine!(hex::encode(alloc, bytes));
    format!(in alloc; "{told}:{printed}").ok()
}

/// How the run of a program stands at the limit, and what it has printed by then; the program is written again.
pub fn run_told(alloc: Global, words: &str) -> Option<String> {
    let (limit, bytes) = some!(parts_of(alloc, words));
    let mut out = Vec::new(alloc);
    let told = match fine!(some!(shown(alloc, limit, &bytes, &mut out))) {
        Shown::Running => some!(owned(alloc, "Running")),
        Shown::Ended(result) => some!(numbered(alloc, "Ended", u64::from(result))),
        Shown::Wrong => some!(owned(alloc, "Wrong")),
    };
    with_bytes(alloc, told.as_str(), &out)
}

/// Why the run into a writer with space for three bytes is broken off, and what is in the space.
pub fn full(alloc: Global, words: &str) -> Option<String> {
    let (limit, bytes) = some!(parts_of(alloc, words));
    let mut space = [0; 3];
    let mut out = space.as_mut_slice();
    let fault = some!(some!(shown(alloc, limit, &bytes, &mut out)).err());
    let told = some!(numbered(alloc, "", u64::from(fault.number())));
    with_bytes(alloc, told.as_str(), &space)
}

//! The texts of the rows.

use std::alloc::Global;
use worked_row_files::{bytes_of, fine, some};

/// So many copies of a text.
fn push_copies(text: &mut String, count: u64, copy: &str) -> Option<()> {
    for _copy in 0..count {
        fine!(text.push_str(copy));
    }
    Some(())
}

/// A part that says how many copies of which text stand for it.
fn push_repeated(out: &mut String, part: &str) -> Option<()> {
    let (count, copy) = some!(part.split_once(' '));
    push_copies(out, fine!(count.parse()), copy)
}

/// The text with its repeated parts written out.
fn written_out(alloc: Global, text: &str) -> Option<Vec<u8>> {
    let mut out = String::new(alloc);
    let mut is_repeated = false;
    for part in text.split('`') {
        if is_repeated {
            some!(push_repeated(&mut out, part));
        } else {
            fine!(out.push_str(part));
        }
        is_repeated = !is_repeated;
    }
    Some(out.into_bytes())
}

/// The bytes of a text, which is in hex behind `%`.
pub fn text_of(alloc: Global, text: &str) -> Option<Vec<u8>> {
    match text.strip_prefix("%") {
        Some(digits) => bytes_of(alloc, digits),
        None => written_out(alloc, text),
    }
}

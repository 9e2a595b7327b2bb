//! How what was written is shown.

use std::alloc::Global;
use worked_row_files::{fine, some};

/// The letters of a text, with `\n` for each end of a line.
fn push_letters(out: &mut String, text: &str) -> Option<()> {
    for letter in text.chars() {
        if letter == '\n' {
            fine!(out.push_str("\\n"));
        } else {
            fine!(out.push(letter));
        }
    }
    Some(())
}

/// The text on one line in quotes, up to an empty line.
pub fn shown(alloc: Global, bytes: &[u8]) -> Option<String> {
    let text = fine!(String::from_utf8_lossy(alloc, bytes));
    let (front, rest) = text.split_once("\n\n").unwrap_or((text.as_str(), ""));
    let mut out = fine!("\"".to_string(alloc));
    some!(push_letters(&mut out, front));
    fine!(out.push_str(if rest.is_empty() { "\"" } else { "..\"" }));
    Some(out)
}

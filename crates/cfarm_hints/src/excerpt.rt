//! A line of a text, with a mark below.

use c_hints_words::bytes_between;
use std::alloc::{AllocError, Global};

/// How many bytes of a line are shown.
const MOST: usize = 100;

/// How many of them stand in front of the mark at least, in a line that is longer.
const HALF: usize = 50;

/// The byte as it is shown: a tab as it is, one that is no printable character as a dot.
fn shown(byte: u8) -> char {
    if byte == b'\t' || byte.is_ascii_graphic() || byte == b' ' {
        char::from(byte)
    } else {
        '.'
    }
}

/// What stands below the byte in front of the mark.
fn below(byte: u8) -> char {
    if byte == b'\t' { '\t' } else { ' ' }
}

/// How many bytes stand between an offset of a text and the last line feed in front of it.
fn bytes_in_front(text: &[u8], at: usize) -> usize {
    let front = bytes_between(text, 0, at);
    match front.iter().rposition(|byte| *byte == b'\n') {
        Some(end) => front.len().saturating_sub(end).saturating_sub(1),
        None => front.len(),
    }
}

/// The line of a text that begins at this offset.
fn row_from(text: &[u8], start: usize) -> &[u8] {
    let rest = bytes_between(text, start, text.len());
    match rest.iter().position(|byte| *byte == b'\n') {
        Some(length) => bytes_between(rest, 0, length),
        None => rest,
    }
}

/// The first byte of a line that is shown, where the mark stands below this one.
fn first_shown(length: usize, marked: usize) -> usize {
    if length <= MOST {
        0
    } else {
        marked.saturating_sub(HALF).min(length.saturating_sub(MOST))
    }
}

/// Writes the bytes of a line as they are shown.
fn write_row(out: &mut String, row: &[u8]) -> Result<(), AllocError> {
    for byte in row {
        out.push(shown(*byte))?;
    }
    out.push('\n')
}

/// Writes a mark behind so many columns of a line's number and what stands below these bytes.
fn write_mark(out: &mut String, margin: usize, front: &[u8]) -> Result<(), AllocError> {
    for _ in 0..margin {
        out.push(' ')?;
    }
    out.push_str(" | ")?;
    for byte in front {
        out.push(below(*byte))?;
    }
    out.push_str("^\n")
}

/// Writes the line that has this offset behind its number, and a mark below the byte, each with an end of line.
pub(crate) fn write_excerpt(
    out: &mut String,
    alloc: Global,
    text: &[u8],
    at: usize,
    line: usize,
) -> Result<(), AllocError> {
    let marked = bytes_in_front(text, at);
    let row = row_from(text, at.saturating_sub(marked));
    let start = first_shown(row.len(), marked);
    let number = format!(in alloc; "{line} | ")?;
    out.push_str(number.as_str())?;
    write_row(out, bytes_between(row, start, start.saturating_add(MOST)))?;
    write_mark(
        out,
        number.len().saturating_sub(3),
        bytes_between(row, start, marked),
    )
}

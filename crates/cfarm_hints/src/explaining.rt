//! A refused text, explained.

use crate::excerpt::write_excerpt;
use c_hints::hint_at;
use c_places::place_of;
use cfarm_shown_paths::ShownPath;
use std::alloc::{AllocError, Global};

/// What is said of the fault: a hint, or else the sentence.
fn said(
    alloc: Global,
    text: &[u8],
    number: u16,
    at: usize,
    sentence: &str,
) -> Result<String, AllocError> {
    let hint = hint_at(alloc, text, number, at)?;
    if hint.is_empty() {
        return format!(in alloc; "{sentence}");
    }
    Ok(hint)
}

/// What a user is shown behind the fixed line of a refused text: `PATH:LINE:COLUMN: ` and a hint or this sentence, the line of the
/// text, and a mark below the place. The time is linear in the text.
pub fn explanation(
    alloc: Global,
    path: &str,
    text: &[u8],
    number: u16,
    at: usize,
    sentence: &str,
) -> Result<String, AllocError> {
    let place = place_of(text, at);
    let said = said(alloc, text, number, at, sentence)?;
    let (path, line, column) = (ShownPath(path), place.line, place.column);
    let mut out = format!(in alloc; "{path}:{line}:{column}: {said}\n")?;
    write_excerpt(&mut out, alloc, text, at, line)?;
    Ok(out)
}

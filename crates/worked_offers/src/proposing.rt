//! What optimisers propose for inputs.

use crate::kinds::{Kind, baseline_of, proposed};
use std::alloc::Global;
use worked_row_files::{bytes_of, numbered, owned, some};

/// The written offer of the baseline of an input, or the number of its refusal.
pub fn baseline_told(alloc: Global, kind: Kind, input: &[u8]) -> Option<String> {
    match some!(baseline_of(alloc, kind, input)) {
        Ok(bytes) => hex::encode(alloc, &bytes).ok(),
        Err(number) => numbered(alloc, "", u64::from(number)),
    }
}

/// The input and the outputs of a question.
fn parts_of(alloc: Global, words: &str) -> Option<(Vec<u8>, Vec<u8>, Vec<u8>)> {
    let (input, outputs) = some!(words.split_once(' '));
    let (output, other) = some!(outputs.split_once(' '));
    Some((
        some!(bytes_of(alloc, input)),
        some!(bytes_of(alloc, output)),
        some!(bytes_of(alloc, other)),
    ))
}

/// Whether each of 64 seeds leads to one of the two outputs, and both occur.
pub fn both(alloc: Global, kind: Kind, words: &str) -> Option<String> {
    let (input, output, other) = some!(parts_of(alloc, words));
    let mut is_output = false;
    let mut is_other = false;
    for seed in 0..64 {
        let made = some!(proposed(alloc, kind, &input, seed));
        if made == output {
            is_output = true;
        } else if made == other {
            is_other = true;
        } else {
            return hex::encode(alloc, &made).ok();
        }
    }
    owned(alloc, if is_output && is_other { "both" } else { "one" })
}

/// Whether the seeds from 1 to 16 do not all lead to one output.
pub fn varied(alloc: Global, kind: Kind, input: &[u8]) -> Option<String> {
    let first = some!(proposed(alloc, kind, input, 1));
    let mut is_other = false;
    for seed in 2..17 {
        is_other |= some!(proposed(alloc, kind, input, seed)) != first;
    }
    owned(alloc, if is_other { "yes" } else { "no" })
}

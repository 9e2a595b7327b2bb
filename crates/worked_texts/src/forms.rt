//! What is said of bytes that may be functions or programs.

use crate::languages::{Kind, are_same, form, program};
use std::alloc::Global;
use worked_row_files::{bytes_of, numbered, owned, some};

/// What is said of the function that the bytes begin with.
pub fn form_told(alloc: Global, kind: Kind, bytes: &[u8]) -> Option<String> {
    match some!(form(alloc, kind, bytes)) {
        Ok(length) => numbered(alloc, "ok", length as u64),
        Err(number) => numbered(alloc, "no", u64::from(number)),
    }
}

/// Whether each strict front ends within the form.
fn are_short(alloc: Global, kind: Kind, bytes: &[u8]) -> bool {
    for length in 0..bytes.len() {
        if !matches!(form(alloc, kind, &bytes[..length]), Some(Err(101))) {
            return false;
        }
    }
    true
}

/// Whether each function that is read with one byte behind the first changed to this one is written so.
fn are_written_again(alloc: Global, kind: Kind, bytes: &mut [u8], byte: u8) -> bool {
    for place in 1..bytes.len() {
        let right = bytes[place];
        bytes[place] = byte;
        let is_well = form(alloc, kind, bytes).is_some();
        bytes[place] = right;
        if !is_well {
            return false;
        }
    }
    true
}

/// What is said of all that is near a function.
pub fn near(alloc: Global, kind: Kind, mut bytes: Vec<u8>) -> Option<String> {
    if !are_short(alloc, kind, &bytes) {
        return None;
    }
    for byte in 0..=u8::MAX {
        if !are_written_again(alloc, kind, &mut bytes, byte) {
            return owned(alloc, "short");
        }
    }
    owned(alloc, "short, again")
}

/// Whether two functions are equal.
pub fn same(alloc: Global, kind: Kind, words: &str) -> Option<String> {
    let (first, second) = some!(words.split_once(' '));
    let (first, second) = (
        some!(bytes_of(alloc, first)),
        some!(bytes_of(alloc, second)),
    );
    let are_same = some!(are_same(alloc, kind, &first, &second));
    owned(alloc, if are_same { "yes" } else { "no" })
}

/// What is said of a program that is all of the bytes.
pub fn program_told(alloc: Global, kind: Kind, bytes: &[u8]) -> Option<String> {
    match some!(program(alloc, kind, bytes)) {
        0 => owned(alloc, "ok"),
        number => numbered(alloc, "no", u64::from(number)),
    }
}

//! What is near a written offer.

use crate::kinds::{Kind, is_written_again, refusal};
use std::alloc::Global;
use worked_row_files::{fine, owned};

/// Whether each strict front ends within the form.
fn are_short(alloc: Global, kind: Kind, bytes: &[u8]) -> bool {
    for length in 0..bytes.len() {
        if refusal(alloc, kind, &bytes[..length]) != 101 {
            return false;
        }
    }
    true
}

/// The number of the refusal of the bytes with this first one, which are left as they were.
fn refusal_with(alloc: Global, kind: Kind, bytes: &mut [u8], first: u8) -> u16 {
    if bytes.is_empty() {
        return 0;
    }
    let right = bytes[0];
    bytes[0] = first;
    let number = refusal(alloc, kind, bytes);
    bytes[0] = right;
    number
}

/// Whether what is accepted with one byte changed is written so.
fn are_written_again(alloc: Global, kind: Kind, bytes: &mut [u8], byte: u8) -> bool {
    for place in 0..bytes.len() {
        let right = bytes[place];
        bytes[place] = byte;
        let is_other = is_written_again(alloc, kind, bytes) == Some(false);
        bytes[place] = right;
        if is_other {
            return false;
        }
    }
    true
}

/// What is said of all that is near a written offer: each strict front ends within the form, a byte behind it is left over, and another
/// first byte is no pass's.
pub fn near(alloc: Global, kind: Kind, mut bytes: Vec<u8>) -> Option<String> {
    if !are_short(alloc, kind, &bytes) || refusal_with(alloc, kind, &mut bytes, 0) != 102 {
        return None;
    }
    fine!(bytes.push(0));
    if refusal(alloc, kind, &bytes) != 103 {
        return None;
    }
    let _ = bytes.pop();
    for byte in [0, 1, 2, 3, 7, 10, 11, 255] {
        if !are_written_again(alloc, kind, &mut bytes, byte) {
            return owned(alloc, "refused");
        }
    }
    owned(alloc, "refused, again")
}

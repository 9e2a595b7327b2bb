//! A report, whose numbers are not always the same.

use sha2::{Digest, Sha256};
use std::alloc::Global;
use worked_row_files::{fine, some};

/// The digits of numbers below this one as `v`.
fn numbers_masked(out: &mut String, text: &str, most: char) -> Option<()> {
    for letter in text.chars() {
        let is_number = letter.is_ascii_digit() && letter < most;
        fine!(out.push(if is_number { 'v' } else { letter }));
    }
    Some(())
}

/// The last digit of a report, which is how many nodes there are.
fn nodes_of(text: &str) -> char {
    let report = text.trim_end();
    let inner = report.strip_suffix('}').unwrap_or(report);
    inner.chars().next_back().unwrap_or('0')
}

/// A part of a report between two quotes: of rooms, numbers as `v`; another as it is, and `H` for these digits.
fn part_masked(
    out: &mut String,
    part: &str,
    is_of_rooms: bool,
    most: char,
    digits: &str,
) -> Option<()> {
    if is_of_rooms {
        return numbers_masked(out, part, most);
    }
    out.push_str(if part == digits { "H" } else { part }).ok()
}

/// The text with `v` for each learned number that is below the number of nodes, and `H` for the SHA-256 of these bytes.
pub fn masked(alloc: Global, text: &str, bytes: &[u8]) -> Option<String> {
    let digest = Sha256::digest(bytes);
    let digits = fine!(hex::encode(alloc, digest.as_slice()));
    let most = nodes_of(text);
    let mut out = String::new(alloc);
    let mut is_of_rooms = false;
    for part in text.split('"') {
        if !out.is_empty() {
            fine!(out.push('"'));
        }
        some!(part_masked(&mut out, part, is_of_rooms, most, digits.as_str()));
        is_of_rooms = part == "rooms";
    }
    Some(out)
}

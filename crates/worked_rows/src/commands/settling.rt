//! What `settle` prints on worked inputs, and on all that is near them.

use crate::commands::runs::{Here, Ran, run_amply, words_of};
use rand_core::utils::NextWord;
use rand_pcg::Pcg32;
use rooms_hall::Naming;
use std::alloc::Global;
use std::sync::Wait;
use std::thread::Threads;
use worked_row_files::{fine, numbered, owned, some};

/// What `settle` leaves for a user.
fn settled<H: Naming + Send, R: Threads + Wait + Sync>(
    here: &Here<'_, H, R>,
    bytes: &[u8],
) -> Option<Ran> {
    let words = some!(words_of(here.alloc, "settle f"));
    Some(run_amply(here, &words, bytes))
}

/// Whether what is printed is this text in hex and the closing line.
fn is_printed(output: &[u8], text: &str) -> bool {
    match output.strip_suffix(b"\nagreed 3\n") {
        Some(printed) => printed == text.as_bytes(),
        None => false,
    }
}

/// Whether what is printed is one of the texts.
pub fn settled_on<H: Naming + Send, R: Threads + Wait + Sync>(
    here: &Here<'_, H, R>,
    texts: &str,
    input: &[u8],
) -> Option<String> {
    let ran = some!(settled(here, input));
    let is_one = texts.split(' ').any(|text| is_printed(&ran.out, text));
    owned(here.alloc, if is_one { "agreed" } else { "no" })
}

/// Whether a run prints what is settled, or is refused for the form and prints nothing.
fn is_well(ran: &Ran) -> bool {
    match ran.status {
        0 => ran.err.is_empty() && ran.out.as_slice().ends_with(b"\nagreed 3\n"),
        1 => ran.err.as_slice().starts_with(b"refused 10") && ran.out.is_empty(),
        _ => false,
    }
}

/// Whether a run on these bytes ends so.
fn ends_well<H: Naming + Send, R: Threads + Wait + Sync>(
    here: &Here<'_, H, R>,
    bytes: &[u8],
) -> bool {
    match settled(here, bytes) {
        Some(ran) => is_well(&ran),
        None => false,
    }
}

/// Whether each front ends well.
fn fronts_end_well<H: Naming + Send, R: Threads + Wait + Sync>(
    here: &Here<'_, H, R>,
    bytes: &[u8],
) -> bool {
    for length in 0..bytes.len() {
        if !ends_well(here, &bytes[..length]) {
            return false;
        }
    }
    true
}

/// Whether each change of the byte at the place ends well. The byte is left as it was.
fn changes_end_well<H: Naming + Send, R: Threads + Wait + Sync>(
    here: &Here<'_, H, R>,
    bytes: &mut [u8],
    place: usize,
) -> bool {
    let Some(right) = bytes.get(place).copied() else {
        return false;
    };
    let mut all = true;
    for byte in 0..=u8::MAX {
        bytes[place] = byte;
        all &= ends_well(here, bytes);
    }
    bytes[place] = right;
    all
}

/// Whether each front of an input ends well, and each change of one of its bytes.
pub fn near<H: Naming + Send, R: Threads + Wait + Sync>(
    here: &Here<'_, H, R>,
    mut bytes: Vec<u8>,
) -> Option<String> {
    if !fronts_end_well(here, &bytes) {
        return owned(here.alloc, "a front does not");
    }
    for place in 0..bytes.len() {
        if !changes_end_well(here, &mut bytes, place) {
            return numbered(here.alloc, "a change does not at ", place as u64);
        }
    }
    owned(here.alloc, "well")
}

/// Up to 63 random bytes; every other time they begin as an LTL function does.
fn noise_of(alloc: Global, draws: &mut Pcg32, turn: u16) -> Option<Vec<u8>> {
    let mut bytes: Vec<u8> = Vec::new(alloc);
    if turn % 2 == 0 {
        fine!(bytes.extend_from_slice(&[3, 0, 0, 0, 0, 0]));
    }
    for _ in 0..draws.next_word() % 64 {
        fine!(bytes.push((draws.next_word() % 256) as u8));
    }
    Some(bytes)
}

/// Whether so many random inputs end well.
pub fn noise<H: Naming + Send, R: Threads + Wait + Sync>(
    here: &Here<'_, H, R>,
    count: &str,
) -> Option<String> {
    let mut words = Pcg32::new(1, 0);
    for turn in 0..fine!(count.parse()) {
        let bytes = some!(noise_of(here.alloc, &mut words, turn));
        if !ends_well(here, &bytes) {
            return hex::encode(here.alloc, &bytes).ok();
        }
    }
    owned(here.alloc, "well")
}

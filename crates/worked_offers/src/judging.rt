//! What is said of written offers.

use crate::kinds::{Kind, baseline_of, fault_of, input_of, is_written_again, proposed, refusal};
use lang_base::Fault;
use std::alloc::Global;
use worked_row_files::{numbered, owned, some};

/// What a fault is called.
pub fn fault_told(alloc: Global, fault: Option<Fault>) -> Option<String> {
    match fault {
        None => owned(alloc, "yes"),
        Some(Fault::Shape) => owned(alloc, "shape"),
        Some(Fault::Node(node)) => numbered(alloc, "node", u64::from(node)),
    }
}

/// Whether reading a written offer tells the same: what is accepted is written again, and what is not is 301.
fn is_read_so(alloc: Global, kind: Kind, bytes: &[u8], fault: Option<Fault>) -> bool {
    match fault {
        None => is_written_again(alloc, kind, bytes) == Some(true),
        Some(_fault) => refusal(alloc, kind, bytes) == 301,
    }
}

/// What is said of a written offer, if the three calls that judge it agree and what is accepted is written again.
pub fn judged(alloc: Global, kind: Kind, bytes: &[u8]) -> Option<String> {
    match some!(fault_of(alloc, kind, bytes)) {
        Ok(fault) if is_read_so(alloc, kind, bytes, fault) => fault_told(alloc, fault),
        Err(number) if refusal(alloc, kind, bytes) == number => {
            numbered(alloc, "form", u64::from(number))
        }
        _ => None,
    }
}

/// The same, if what is proposed for the input is accepted.
pub fn judged_and_proposed(alloc: Global, kind: Kind, bytes: &[u8], seed: u64) -> Option<String> {
    if let Some(input) = input_of(alloc, kind, bytes) {
        let _output = some!(proposed(alloc, kind, &input, seed));
    }
    judged(alloc, kind, bytes)
}

/// What is said of the baseline of an input, or the number of its refusal.
pub fn judged_baseline(alloc: Global, kind: Kind, input: &[u8]) -> Option<String> {
    match some!(baseline_of(alloc, kind, input)) {
        Ok(bytes) => judged(alloc, kind, &bytes),
        Err(number) => numbered(alloc, "", u64::from(number)),
    }
}

//! Where a run of a checked C program goes wrong, found by running it again with the place of each part at hand.
#![tactic(auto)]

mod finding;
mod starting;

pub use finding::find_fault;

//! Where a run of a program of Linear goes wrong, found by running it again, an instruction at a time.
#![tactic(auto)]

mod aims;
mod causing;
mod finding;
mod starting;
mod stepping;

pub use finding::find_fault;

//! Where a run of a checked C program goes wrong: the first part that has no value, why, with the words of that state, and the calls
//! that are under way. A run has such a fault exactly where its meaning is wrong.
#![tactic(auto)]

mod cause;
mod fault;
mod gap;
mod law;

pub use cause::Cause;
pub use fault::{Fault, Site};
pub use gap::Gap;
pub use law::{causes_hold, wrong_has_a_fault};

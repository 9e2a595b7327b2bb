//! Where a run of a program of Linear goes wrong: the instruction at which the defined step has no answer, why, with the values of that
//! state, and the calls that are under way. A run has such a fault exactly where it is wrong.
#![tactic(auto)]

mod cause;
mod fault;
mod law;

pub use cause::Cause;
pub use fault::{Fault, Site};
pub use law::{causes_hold, wrong_has_a_fault};

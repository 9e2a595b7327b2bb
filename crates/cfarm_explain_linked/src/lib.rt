//! Why the run of a linked program went wrong: the instruction that has no answer, as `show` writes it, why, with the values of that state,
//! and the calls that were under way.
#![tactic(auto)]

mod causes;
mod explaining;
mod lines;

pub use explaining::explain_linked;

//! The theorem of one room and of the farm: from settled kept parts, whatever is learned in any run
//! is one value, whoever links a function links the same code, and what a run leaves is settled
//! again. And the test of settled kept parts, exact.
#![tactic(auto)]

pub mod promises;
pub mod settled;

//! Why a run went wrong: the place of the part of the text that has no value, why, with the values of that state, and the calls that were
//! under way. Also at which bound a run was stopped.
#![tactic(auto)]

mod bounds;
mod causes;
mod explaining;
mod lines;

pub use bounds::{stopped_at_depth, stopped_at_limit};
pub use explaining::explain;

//! Records that a node puts down at once, of at most one step a room, and what its seats keep while it takes the steps one by
//! one. Definitions and laws over lists alone, with no disk: on them stand the calls that put many down, and a restart.
#![tactic(auto)]

mod laws;

pub use laws::{fronts_leave, taken_in_order};

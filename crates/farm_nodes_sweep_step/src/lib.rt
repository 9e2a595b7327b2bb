//! What a node does in one room while it sweeps all its rooms: it looks at the words of every node, tells the step that it takes next and
//! the record of that, and takes the step once its record stands. No call here knows a journal.
#![tactic(auto)]

mod choosing;
mod laws;
mod staging;

pub use choosing::next_act;
pub use laws::{looks_leave_pending, staged_may_be_put, taken_is_step};
pub use staging::{Staged, look_all, stage, take};

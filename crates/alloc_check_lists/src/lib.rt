//! What is asked of lists of equations in the third pass: whether they are in order, what is among them,
//! and whether they may stand at the entry.
#![tactic(auto)]

mod among;
mod entry;
mod order;

pub use among::are_among;
pub use entry::hold_at_entry;
pub use order::is_in_order;

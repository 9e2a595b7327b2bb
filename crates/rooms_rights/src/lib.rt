//! A token's rights in one room of a table of rooms. Each call is the step of a room as if it were alone, and finds or leaves the
//! word at the place that the room's word has in the table. A table opens with one room or with four.
#![tactic(auto)]

mod opening;
mod rights;
mod seen;

pub use opening::{FourRights, open_four, open_one};
pub use rights::{Board, Rights};
pub use seen::SeenWords;

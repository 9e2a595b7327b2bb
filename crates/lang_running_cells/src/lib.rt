//! The cells of a program's globals, as a run holds them: what they begin with, and how one is read and written.
#![tactic(auto)]

mod beginning;
mod cells;

pub use beginning::all_cells;
pub use cells::Cells;

//! The block of each instruction, what is known before it, and what a function begins with: exactly what `native_lowering_definition` says,
//! for every program in range.
#![tactic(auto)]

mod acting;
mod around;
mod calling;
mod labels;
mod leaving;
mod testing;
mod writing;

pub use around::Around;
pub use leaving::add_opening;
pub use writing::{add_block, known_at};

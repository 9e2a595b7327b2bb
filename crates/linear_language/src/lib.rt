//! Linear, the last language of the pipeline: a list of instructions with labels. Each function has
//! one spelling, and a program's run is counted in instructions, labels among them.
#![tactic(auto)]

mod copying;
mod equal;
mod function;
mod instruction;
mod labels;
mod language;
mod reading;
mod writing;

pub use function::Function;
pub use instruction::Instruction;
pub use language::Linear;

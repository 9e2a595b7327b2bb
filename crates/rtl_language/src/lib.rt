//! RTL, the second language of the pipeline: a graph of nodes over pseudo-registers. Each function has
//! one spelling, and a program's run is counted in nodes.
#![tactic(auto)]

mod copying;
mod equal;
mod function;
mod instruction;
mod language;
mod reading;
mod writing;

pub use copying::copy_instruction;
pub use function::Function;
pub use instruction::Instruction;
pub use lang_helpers::{ReadOne, WriteOne, push_each, read_so_many};
pub use language::Rtl;
pub use rtl_acts::{Act, Arguments, Register, Test};

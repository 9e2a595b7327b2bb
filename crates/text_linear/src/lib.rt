//! The texts of programs of Linear, one instruction a line. Programs with one text are one program.
#![tactic(auto)]

mod function;
mod instruction;
mod laws;
mod program;

pub use function::push_named;
pub use instruction::push_instruction;
pub use laws::one_program_shown;
pub use program::push_linear;

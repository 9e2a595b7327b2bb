//! The texts of programs of LTL, one node a line: its number, its first moves, what it does, its last moves and where it
//! goes on. Programs with one text are one program.
#![tactic(auto)]

mod block;
mod body;
mod function;
mod laws;
mod moves;
mod program;

pub use function::push_named;
pub use laws::one_program_shown;
pub use program::push_ltl;

//! The texts of programs of RTL, one node a line: its number, what it does, and where it goes on. Programs with one text
//! are one program.
#![tactic(auto)]

mod acts;
mod function;
mod laws;
mod node;
mod program;

pub use acts::{push_load, push_operate, word_of_register};
pub use function::push_named;
pub use laws::one_program_shown;
pub use program::push_rtl;

//! The texts of programs of Cminor, one statement a line. Programs with one text are one program.
#![tactic(auto)]

mod expression;
mod function;
mod laws;
mod program;
mod statement;

pub use function::push_named;
pub use laws::one_program_shown;
pub use program::push_cminor;

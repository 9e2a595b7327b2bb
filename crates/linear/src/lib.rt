//! The run of a program of Linear: exactly what the program shows at a bound, in instructions, labels among
//! them, written byte by byte. Callers wait on the heap, so a deep recursion takes memory and no stack. Its
//! speed is not promised.
#![tactic(auto)]

mod pieces;
mod running;
mod starting;
mod state;

pub use linear_language::{Function, Instruction, Linear};
pub use running::run;

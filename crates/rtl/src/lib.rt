//! The run of a program of RTL: exactly what the program shows at a bound, in nodes, written byte by
//! byte. Callers wait on the heap, so a deep recursion takes memory and no stack. Its speed is not
//! promised.
#![tactic(auto)]

mod calls;
mod leaving;
mod nodes;
mod running;

pub use rtl_acts::{Act, Arguments, Register, Test};
pub use rtl_language::{Function, Instruction, Rtl, copy_instruction};
pub use running::run;

//! The parts of RTL's functions: pseudo-registers, plain instructions and tests, their written forms,
//! and what each of them does to the words of a function, to the globals and to the output.
#![tactic(auto)]

mod act;
mod arguments;
mod reading;
mod register;
mod test;
mod writing;

pub use act::Act;
pub use arguments::Arguments;
pub use reading::{read_act, read_arguments, read_frame, read_register, read_target, read_test};
pub use register::Register;
pub use test::Test;
pub use writing::{push_act, push_arguments, push_frame, push_registers, push_target, push_test};

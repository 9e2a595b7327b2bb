//! What native code works on: the registers, the stack, and what is made of words; and which ends a run can have. A run as a whole, and
//! what each instruction does to it, is in the crate above.
#![tactic(auto)]

mod cell;
mod registers;
mod shown;
mod stack;
mod tables;

pub use cell::{Cell, Spot};
pub use registers::Registers;
pub use shown::Shown;
pub use stack::Stack;
pub use tables::{divide, divide_unsigned, flags_after, holds, operate, shift, sign, turn};

//! Asm, the language of native code: instructions of x86-64 on words of 32 bits, each with one text (Intel 64 and IA-32 Software
//! Developer's Manual, volume 2; System V Application Binary Interface, AMD64 supplement, section 3.2). Here is what a program is, and
//! which programs are in range.
#![tactic(auto)]

mod condition;
mod function;
mod instruction;
mod operators;
mod register;

pub use condition::Condition;
pub use function::Function;
pub use instruction::Instruction;
pub use operators::{Operator, Shifting, Turning};
pub use register::{REGISTER_COUNT, Register};

//! Linear to native code, with what that keeps: what a linked program means, ends with and prints, its native program does, or it finds
//! the stack full behind a beginning of that output; and it is never stuck, whatever the program.
#![tactic(auto)]

mod laws;
mod lowering;

pub use laws::{lowering_is_safe, lowering_keeps, room_keeps};
pub use lowering::lower_keeping;

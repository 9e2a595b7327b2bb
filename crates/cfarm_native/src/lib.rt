//! The command `native`: the assembly text of a linked program, or the header of its functions, from the bytes of its file.
#![tactic(auto)]

mod reading;
mod writing;

pub use writing::{Form, native, native_of};

//! Facts at the nodes of a function of RTL, of which a certificate says those at marked nodes alone: what is filled in at
//! the others, what a pass accepts, and that it keeps the meaning of whole programs, over the rules of any such pass.
#![tactic(auto)]

mod lists;

pub use lists::list_at;
pub use rtl_passes_marks::{Act, Arguments, Instruction, Register, Test};

//! Linear to native code: a linked program becomes exactly the program of Asm that `native_lowering_definition` gives, whatever program in
//! range it is, a missing label, function, global or main too. The time is linear in its size.
#![tactic(auto)]

mod code;
mod program;

pub use program::lower;

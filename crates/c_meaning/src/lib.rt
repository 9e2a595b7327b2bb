//! What a checked C program does, at a bound, computed exactly (C99 5.1.2.2.3, 6.5, 6.8 and 7.19.7), on a stack of its
//! own: no run grows the native stack.
#![tactic(auto)]

mod acting;
mod arriving;
mod calling;
mod leaving;
mod looping;
mod meaning;
mod running;
mod starting;

pub use meaning::run;
pub use running::run_program;

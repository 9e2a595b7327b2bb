//! The checked program of C: names are numbers, operators are chosen by type, and each global begins with its words
//! (the checker gives it; the interpreter and the lowering take it). What it does is a function of its tree and of a
//! bound: from one bound to the next the output only grows, and an end or a fault stays.
#![tactic(auto)]

mod action;
mod function;
mod law;
mod term;

pub use action::{Action, Called, Target, Value};
pub use function::{Ending, Function, GlobalVariable};
pub use law::c_runs_on;
pub use term::Term;

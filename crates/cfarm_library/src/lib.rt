//! The library for programs in other languages, as functions of C: each answers what the command of its name answers, with its status,
//! into memory that the caller gives back by `cfarm_free`. There is no thread, no file and no state, so calls may be made at once from
//! many threads. `include/cfarm.h` says in the words of C what a caller owes and gets.
#![tactic(auto)]

mod answering;
mod looking;
mod running;

pub use answering::CfarmAnswer;
pub use looking::{cfarm_emit, cfarm_show, cfarm_verify, cfarm_version};
pub use running::{cfarm_check, cfarm_exec, cfarm_interpret, cfarm_simulate};

//! The calls and returns of a run of Linear. The words of each function lie behind those of its caller, and callers wait on the
//! heap: a deep recursion takes memory and no stack, and a call takes none that it had before.
#![tactic(auto)]

mod entering;
mod leaving;
mod standing;
mod turn;
mod waiting;
mod words;

pub use leaving::leave;
pub use linear_run_loop::{Whole, decode_all, go_on};
pub use standing::Standing;
pub use turn::Turn;
pub use waiting::{Callers, Waiting};

//! Runs of programs whose functions are decoded before: one loop for any language. It holds the fuel, the callers that
//! wait, the globals and the words of all functions that run, and prints; a language gives the steps between calls and
//! returns, what a call begins, and how a caller goes on. Callers wait on the heap, and the words of each function lie
//! behind those of its caller: a deep recursion takes memory and no stack, and a call takes none that it had before.
#![tactic(auto)]

mod callers;
mod calls;
mod fresh;
mod functions;
mod leaving;
mod pieces;
mod preparing;
mod running;
mod starting;
mod state;
mod stepping;
mod stop;
mod turn;

pub use fresh::push_undefined;
pub use functions::function_at;
pub use lang_running_cells::Cells;
pub use leaving::{Callee, Leaving};
pub use running::run;
pub use stepping::Machine;
pub use stop::Stop;

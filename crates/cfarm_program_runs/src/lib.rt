//! The commands `check`, `interpret`, `exec`, `settle` and `sim` over the bytes of their file: each is done, its output is written, and a line
//! is told on standard error where there is one, explained where a user sees it.
#![tactic(auto)]

mod doing;
mod objects;
mod simulating;

pub use doing::{check, lay_out, run_bytes, run_text};
pub use simulating::play;

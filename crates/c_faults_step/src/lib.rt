//! A run of a checked C program between two steps: what is left to do, on a stack of its own, what a step leads to, and where the
//! rest goes wrong.
#![tactic(auto)]

mod item;
mod pile;
mod step;
mod tracer;

pub use item::{Cycle, Item, Running, Waiting};
pub use pile::Pile;
pub use step::Step;
pub use tracer::Tracer;

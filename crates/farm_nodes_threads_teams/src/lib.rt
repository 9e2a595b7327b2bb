//! Nodes take turns on threads: they are dealt to teams, each team works on a thread of its own, and all nodes come back in their
//! order, each as so many turns left it, whatever else is refused.
#![tactic(auto)]

mod dealing;
mod running;
mod threads;

pub use dealing::put;
pub use running::{RunError, run_threads};

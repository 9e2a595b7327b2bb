//! Many validations at once: some threads share the jobs, and the answers are those that one thread
//! would give, in the order of the jobs.
#![tactic(auto)]

mod checking;
mod collecting;
mod gate;
mod verdict;
mod working;

pub use checking::check_all;
pub use gate::{Gate, OpenGate};
pub use verdict::Job;

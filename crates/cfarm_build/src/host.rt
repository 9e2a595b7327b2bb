//! Where a command runs.

use rooms_hall::{Hall, Naming};
use std::alloc::Global;

/// Where a command runs: what it hands on, as it is, to all that it calls.
#[derive(Drop)]
pub struct Host<'a, H: Naming, R> {
    /// Starts threads.
    pub threads: &'a R,
    /// Gives memory.
    pub alloc: Global,
    /// Gives the rooms of a build their numbers.
    pub hall: &'a Hall<H>,
}

//! A pair of disks in memory, [`MemoryPair`], which fails and crashes as it is told. Each call on either disk is noted on
//! both, so that what a crash at any past moment might have left of both is known.
#![tactic(auto)]

mod memory;
mod noting;

pub use memory::MemoryPair;

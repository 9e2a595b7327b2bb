//! The vocabulary of one room's agreement: votes, messages and kept parts as code, and in specs/ the
//! worlds, steps and runs of Lamport's single-decree Paxos, and the farm of rooms that stands on it.
//! Promises only what its types keep: a `Kept` holds no vote above its promise.
#![tactic(auto)]

pub mod ballot;
pub mod kept;
pub mod msg;
pub mod quorum;
pub mod vote;

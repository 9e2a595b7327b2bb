//! A node of a room as pure functions: what each call leaves, answers and takes of the protocol (Lamport, Paxos Made
//! Simple). Promises the law of these definitions: in every world that can come about a call takes steps that are
//! allowed there, and its node belongs to the world after them.
#![tactic(auto)]

pub mod law;
pub mod step;

pub use paxos_core_theorem::{promises, settled};

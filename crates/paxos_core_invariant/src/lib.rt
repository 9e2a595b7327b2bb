//! The invariant of a room (Lamport, Paxos Made Simple, section 2): it holds where a room opens from settled kept
//! parts, and each step that is allowed keeps it. Agreement stands on it.
#![tactic(auto)]

pub mod law;

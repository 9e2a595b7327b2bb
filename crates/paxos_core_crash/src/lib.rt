//! What a crash of all nodes of a room leaves: each node's journal then holds what the node keeps, with or without the
//! step that it has recorded and not taken yet. That is what a run of the room leaves, so the room opens again from it,
//! and a farm of such rooms links what it had linked.
#![tactic(auto)]

mod law;

pub use law::{crash_of_all, crash_of_farm};

//! A node whose offer stands in a cell of its own, which no world of the protocol shows: what its steps are then,
//! and that the run has the offer in time.
#![tactic(auto)]

mod theorem;

pub use paxos_core_node_steps::{promises, settled, step};
pub use theorem::late_offers;

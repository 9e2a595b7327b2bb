//! One node of a room that agrees on a value by Lamport's Paxos, and the theorem of agreement over every run.
//! Each call of [`Node`] answers and leaves what the definitions of `specs/` say, and takes the steps of the
//! protocol that they name. No call takes memory, waits, or knows what a value stands for.
#![tactic(auto)]

mod ballot;
mod error;
mod node;
mod tally;
mod theorem;

pub use error::CoreError;
pub use node::Node;
pub use paxos_core_late_offers::settled::settled;
pub use paxos_core_late_offers::step::{Act, Step};
pub use paxos_core_late_offers::{late_offers, step};
pub use paxos_core_world::ballot::owns;
pub use paxos_core_world::kept::Kept;
pub use paxos_core_world::msg::Msg;
pub use paxos_core_world::quorum::Quorums;
pub use paxos_core_world::vote;
pub use paxos_core_world::vote::Vote;
pub use theorem::agreement;

//! The nodes of a farm take their turns on threads. They come back in their order, each of the same program and in the same rooms,
//! with a journal that stands for what it keeps and has all that it had acknowledged before.
#![tactic(auto)]

mod coming_back;
mod leading;
mod taking;
mod wrapping;

pub use coming_back::run_threads;
pub use farm_nodes_turn_node::{NumberedSeat, Oracles};

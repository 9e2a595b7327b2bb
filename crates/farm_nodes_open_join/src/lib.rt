//! The pieces of a farm's nodes are joined into nodes: each gets its journal, its seats, a share of the program, its optimisers, and the
//! generator of the seed and its number.
#![tactic(auto)]

mod joining;
mod pieces;

pub use farm_nodes_turn_node::FarmNode;
pub use joining::join_nodes;

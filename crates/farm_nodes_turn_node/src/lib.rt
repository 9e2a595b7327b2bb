//! A node of a farm: its seats in the four rooms of each function, its journal, and its optimisers. It takes a turn in one room at a
//! time; a turn that fails stops it, and then it does nothing more. What its journal holds stands for what its seats keep.
#![tactic(auto)]

mod farm_node;
mod halted;
mod learning;
mod node;
mod turn;

pub use farm_node::FarmNode;
pub use farm_nodes_turn_function::{NumberedSeat, Oracles, Which, WordSeat};
pub use halted::Halted;
pub use turn::Turn;

//! One turn of a node in a room of any pass of any function: its seats in the four rooms of the function, and its journal. The input of
//! the first pass is the function, that of each other one the output that the node has learned in the pass before it.
#![tactic(auto)]

mod functions;
mod in_pass;
mod in_room;

pub use farm_nodes_turn_passes::{NumberedSeat, Oracles, Which, WordSeat};
pub use farm_nodes_turn_room::{Fault, Halt, Progress};
pub use functions::function_in;
pub use in_pass::play_in;
pub use in_room::turn_in;
pub use rtl_language::Function;

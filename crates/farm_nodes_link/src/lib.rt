//! What a node of a farm links: of each function the four offers that it has learned, whoever made them, and no others. Two nodes
//! that have met link one program where all functions were counted.
#![tactic(auto)]

mod errors;
mod laws;
mod learned;
mod linking;
mod translated;

pub use errors::LinkedError;
pub use farm_nodes_meet_seats::{NumberedSeat, learned_offer};
pub use farm_nodes_turn_node::{FarmNode, Halted, Turn};
pub use laws::one_program;
pub use learned::{chain_of, has_learned_function, is_undecided};
pub use linker::LinkError;
pub use linking::linked;
pub use translated::linked_translated;

//! One seat of a node that comes back: what the node was about to do with it is done, and then the seat forgets all but
//! what its node keeps, and the offers that it has seen. Whether a text is that of its node's offer.
#![tactic(auto)]

mod fault;
mod taking;
mod telling;

pub use farm_nodes_turn_offer::{Fault, Halt, Seat};
pub use fault::RestartFault;
pub use taking::{forget, is_pending, take};
pub use telling::is_own_text;

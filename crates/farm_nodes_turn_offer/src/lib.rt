//! Making a node's offer in a room: its record stands in the journal before the offer stands in the cell. Each call says
//! what a crash at any moment of it leaves, and where the node halts, why and over what.
#![tactic(auto)]

mod halt;
mod making;

pub use farm_nodes_turn_step::{Pending, record_of};
pub use halt::{Fault, Halt};
pub use making::make_offer;
pub use rooms::{Seat, WordSeat};

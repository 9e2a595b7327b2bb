//! What the records of a journal are to a node's seats: they leave what the seats keep, with the record of what the node was
//! about to do or without, and the texts of the offers that stand in the node's own cells, or they are others. What a crash leaves of a node's own journal is never others.
#![tactic(auto)]

mod finding;
mod fours;
mod laws;
mod parts;
mod seat;
mod telling;

pub use farm_nodes_turn_passes::{NumberedSeat, Which};
pub use finding::{Found, find};
pub use laws::own_journal;

//! The seats of a farm's nodes, from what stands in their journals: that is read and checked again, and the rooms open from what was kept.
//! Where it fails the first fault is told.
#![tactic(auto)]

mod fault;
mod seating;

pub use farm_nodes_open_rooms::RoomFault;
pub use farm_nodes_open_stored::{EquationLists, Order};
pub use fault::OpenFault;
pub use seating::{rooms_of, seats_of};

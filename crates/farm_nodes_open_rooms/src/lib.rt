//! Opening the rooms of all functions of a program: from what the nodes of a farm have kept of each room and the offers that they made
//! there come their seats, node by node and function by function. The first room in order that cannot be opened is told.
#![tactic(auto)]

mod function;
mod opening;

pub use farm_nodes_open_numbers::RoomFault;
pub use farm_nodes_turn_passes::NumberedSeat;
pub use function::Offered;
pub use opening::open_functions;

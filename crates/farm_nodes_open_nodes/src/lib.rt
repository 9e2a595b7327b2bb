//! A farm's nodes come from their pairs of disks: the journals are opened, what stands in them is read and checked again, the rooms open from what
//! was kept, and the nodes are joined of these pieces. Where it fails the first fault is told, and all pairs come back.
#![tactic(auto)]

mod back;
mod opening;

pub use constprop_check::{ConstProp, FactLists};
pub use farm_nodes_open_seats::{EquationLists, OpenFault, Order, RoomFault};
pub use opening::open_nodes;

//! The nodes of a farm take their turns on threads, round after round, until each has learned in all its rooms; then neighbours meet.
#![tactic(auto)]

mod failing;
mod learning;
mod meeting;
mod met;
mod resting;
mod running;

pub use cfarm_build_meeting::Built;
pub use farm_nodes_turn_node::FarmNode;
pub use met::met_all;
pub use resting::disks_back;
pub use running::run_rounds;

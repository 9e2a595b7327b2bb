//! A node of a farm is restarted over a pair of disks: it comes back and goes on, or it is stopped, and says why. Over what a
//! crash of its own pair leaves it is never refused for other records.
#![tactic(auto)]

mod laws;
mod opening;
mod restarting;
mod stopping;

pub use farm_nodes_restart_seat::RestartFault;
pub use laws::own_disk;
pub use restarting::restart;

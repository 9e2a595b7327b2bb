//! A node comes back over its journal: what it was about to do, and whose record stands last there, is done, and then
//! all of its seats forget. Journals of other records are refused.
#![tactic(auto)]

mod fours;
mod returning;

pub use farm_nodes_restart_records::NumberedSeat;
pub use returning::come_back;

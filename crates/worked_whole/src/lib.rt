//! Whole farms on pairs of disks in memory: they open, their nodes learn in all rooms, and what they link is told by its code.
#![tactic(auto)]

mod codes;
mod disks;
mod running;
mod to_the_end;

pub use codes::{all_linked, codes_of, stays};
pub use disks::{BYTES, CALLS, bytes_of_all, crashed, crashed_of, disk_of, disks_of, empty_disk};
pub use farm_nodes::{Farm, FarmError, OpenFault, Optimising, RoomFault, optimisers_of};
pub use running::{Node, TURNS, opened_on, ran_on};
pub use to_the_end::{whole, whole_disks};

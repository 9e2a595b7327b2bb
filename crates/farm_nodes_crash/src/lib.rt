//! What a crash of all nodes of a farm leaves on their pairs of disks: it opens again, where the nodes rest in their rooms.
#![tactic(auto)]

mod law;

pub use law::{left_by_all, rest_of_met};

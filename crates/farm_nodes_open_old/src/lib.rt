//! The pair of disks of a node: what stands on its old disk, which is synced before it is read.
#![tactic(auto)]

mod old;

pub use old::{OldDisk, old_disk};

//! A disk as a journal sees it: what a read gives, what a crash at any moment may leave, and how often the device
//! failed. [`Disk`] is the contract of an honest disk, [`MemoryDisk`] one that fails and crashes as it is told, and
//! [`FileDisk`] one over a real file, of which what a crash leaves is a premise with a name.
#![tactic(auto)]

mod disk;
mod error;
mod file;
mod memory;

pub use disk::Disk;
pub use error::{DiskError, failed};
pub use file::FileDisk;
pub use memory::MemoryDisk;

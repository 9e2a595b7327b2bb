//! A pair of disks over two files of the operating system, of which the old one need not be there.
#![tactic(auto)]

mod file;
mod opening;
mod surviving;
mod unopened;

pub use file::FilePair;
pub use surviving::pair_survives;
pub use unopened::Unopened;

//! The files that the program reads and writes, as a trait: one file read whole, the lock of a folder, what stands at a path, a pair of disks over the two files of a
//! node's journals, which is given back, and a file put in the place of another. `HostFiles` are those of the machine; a test has its own.
#![tactic(auto)]

mod fault;
mod files;
mod host;
mod locking;
mod looking;
mod placing;
mod reason;

pub use fault::{DiskFault, FileFault};
pub use files::Files;
pub use host::HostFiles;
pub use locking::lock_path;
pub use reason::Reason;

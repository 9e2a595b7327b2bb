//! What the command `build` does before its farm runs and behind it: the lock of the folder, the disks of the nodes, which are opened and closed, the files that are put, the report,
//! and why it is not done. Each refusal has its exit status, its line for standard error, and what a user is shown behind that.
#![tactic(auto)]

mod closing;
mod error;
mod hinting;
mod locking;
mod opening;
mod paths;
mod placing;
mod reporting;

pub use cfarm_build_faults::{BuildError, Farm, Optimisers, Optimising, optimisers_of};
pub use closing::close_disks;
pub use error::BuildingError;
pub use hinting::of_build;
pub use locking::locked;
pub use opening::{old_among, open_disks};
pub use paths::JournalPaths;
pub use reporting::put_built;

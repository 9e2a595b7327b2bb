//! Why `build` makes nothing: each refusal has its exit status, and its line for standard error. The calls of the farm that are refused so
//! are passed on to the crates above.
#![tactic(auto)]

mod behind;
mod error;
mod names;
mod telling;

pub use behind::ToldFault;
pub use error::BuildError;
pub use farm_nodes::{
    Farm, OpenFault, Optimisers, Optimising, SourceFault, meet_nodes, optimisers_of, run_threads,
};

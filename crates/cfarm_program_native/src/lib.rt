//! The command `native`, with what it puts, prints and tells.
#![tactic(auto)]

mod choosing;
mod writing;

pub use choosing::{lacks_prefix, wrong_prefix};
pub use writing::write_native;

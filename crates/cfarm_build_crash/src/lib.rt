//! What a crash leaves of the disks that `build` gives back: it opens again, and links the same program.
#![tactic(auto)]

mod law;

pub use law::{links_again, opens_again};

//! Seats of a room that have heard of one another, each directly or through others, rest in one run of it.
#![tactic(auto)]

mod law;

pub use law::{neighbours_hear, seats_that_heard};

//! At which line and column of a text a byte stands.
#![tactic(auto)]

mod place;

pub use place::{Place, place_of};

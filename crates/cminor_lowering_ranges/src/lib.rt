//! The Cminor program that a checked program is lowered to is in range.
#![tactic(auto)]

mod fitting;

pub use fitting::lowered_fits;

//! An optimiser that proposes for the first pass, which nobody trusts: it follows constants along the
//! edges that can be taken, through loops and past branches that they decide, and makes each change
//! that they allow or leaves it, as the words say; or, for speed, makes them all. It promises nothing of what it proposes.
#![tactic(auto)]

mod follows;
mod propose;

pub use propose::{ConstOracle, ConstSpeed};

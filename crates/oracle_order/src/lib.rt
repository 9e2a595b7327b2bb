//! An optimiser that proposes for the pass from LTL to Linear, which nobody trusts: it lists the nodes
//! that are reached in an order that the words draw, or, for speed, so that what is run most falls through. It promises nothing of what it proposes.
#![tactic(auto)]

mod chains;
mod propose;

pub use propose::{OrderOracle, OrderSpeed};

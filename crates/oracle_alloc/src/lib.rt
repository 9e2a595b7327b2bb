//! An optimiser that proposes for the third pass, which nobody trusts: it finds which registers are
//! live at each node, gives each a machine's register or a slot that none shares which is live with it,
//! as the words say, and writes the blocks and equations that follow. It promises nothing of what it
//! proposes.
#![tactic(auto)]

mod certificate;
mod choosing;
mod interference;
mod liveness;
mod order;
mod parts;
mod propose;
mod register_set;
mod worth;

pub use alloc_check::{Alloc, Equation, EquationLists};
pub use liveness::live_before;
pub use oracle_graphs::Joined;
pub use parts::{copied_by, defined_by, edges_of};
pub use propose::AllocOracle;
pub use register_set::RegisterSet;

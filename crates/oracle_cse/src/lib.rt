//! An optimiser that proposes for the second pass, which nobody trusts: it numbers the right sides
//! that stand at several nodes, follows the equations which give them along all edges, and makes each
//! node a move that they allow or leaves it, as the words say, or, for speed, where no register is kept for that alone. It promises nothing of what it proposes.
#![tactic(auto)]

mod follows;
mod numbering;
mod propose;
mod worthwhile;

pub use cse_check::{Cse, EquationLists};
pub use oracle_alloc::AllocOracle;
pub use propose::{CseOracle, CseSpeed};

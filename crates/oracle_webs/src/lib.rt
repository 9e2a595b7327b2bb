//! Webs of a function of RTL: where registers are live, the parts of a register's life that no edge connects, each with a
//! number of its own, and the instructions with webs in the place of registers. It promises nothing of them but that
//! instructions in range are made such.
#![tactic(auto)]

mod limits;
mod names;
mod places;
mod webs;

pub use names::all_renamed;
pub use oracle_alloc::{
    Alloc, AllocOracle, Equation, EquationLists, copied_by, defined_by, edges_of, live_before,
};
pub use places::{Places, Span};
pub use webs::{Webs, webs_of};

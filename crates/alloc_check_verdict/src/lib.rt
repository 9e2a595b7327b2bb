//! The check of the third pass, from RTL to LTL: anybody may propose an output and rows of equations
//! at marked nodes, between registers of the input and locations of the output, and the check says
//! whether they keep the rules of register allocation, with the equations of the other nodes told from
//! the rows.
#![tactic(auto)]

mod carried;
mod found;
mod rows;
mod verdict;
mod walk;

pub use rows::{EquationLists, Equations, Sizes};
pub use verdict::{check, why};

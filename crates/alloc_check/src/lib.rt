//! The third pass, from RTL to LTL: anybody may propose an output and equations at marked nodes, and the check says whether
//! they keep the rules of register allocation. What is accepted keeps the meaning of whole programs. The baseline is made
//! with no choice: each pseudo-register lies in a slot of its own, and instructions reach it by moves through r0 and r1.
#![tactic(auto)]

mod base;
mod blocks;
mod function;
mod lists;
mod nodes;
mod pass;

pub use alloc_check_rules::Equation;
pub use alloc_check_verdict::{EquationLists, check, why};
pub use base::baseline;
pub use pass::Alloc;

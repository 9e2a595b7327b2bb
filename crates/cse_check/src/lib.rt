//! The second pass, from RTL to RTL: anybody may propose an output and equations for marked nodes, and
//! the check says whether they keep the rules by which what is known already is not computed again.
//! What is accepted keeps the meaning of whole programs.
#![tactic(auto)]

mod base;
mod behind;
mod change;
mod lists;
mod moves;
mod pass;
mod rules;
mod verdict;

pub use base::baseline;
pub use cse_check_rules::{Equation, RightSide, kills, made, rank, share};
pub use lists::{EquationLists, equations_of};
pub use pass::Cse;
pub use verdict::{check, why};

//! The first pass, from RTL to RTL: anybody may propose an output and facts for marked nodes, and the
//! check says whether they keep the rules of constant propagation. What is accepted keeps the
//! meaning of whole programs.
#![tactic(auto)]

mod base;
mod behind;
mod form;
mod keeping;
mod lists;
mod pass;
mod rules;
mod verdict;

pub use base::baseline;
pub use behind::Written;
pub use constprop_check_rules::{Fact, fold, value, written};
pub use lists::{FactLists, facts_of};
pub use pass::ConstProp;
pub use verdict::{check, why};

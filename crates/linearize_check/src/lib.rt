//! The pass from LTL to Linear: anybody may propose an order of a function's blocks, and the check
//! says whether the code is laid out by it. What is accepted keeps the meaning of whole programs.
#![tactic(auto)]

mod base;
mod faults;
mod form;
mod order;
mod pass;
mod proposals;
mod verdict;
mod walk;

pub use base::baseline;
pub use linear_language::Function;
pub use linearize_check_layout::{lay_out, reachable, rising};
pub use order::Order;
pub use pass::Linearize;
pub use proposals::arrange;
pub use verdict::{check, why};

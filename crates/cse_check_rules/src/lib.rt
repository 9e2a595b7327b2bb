//! Equations between registers and what operators, loads and moves give, carried along a graph of
//! RTL: which of them an instruction makes and which it kills, the rules by which an output and
//! equations are accepted, and that what is accepted keeps the meaning of whole programs. Their form,
//! read and written with one spelling each, and their order by it.
#![tactic(auto)]

mod equation;
mod law;
mod order;
mod reading;
mod same;
mod sharing;
mod survival;
mod writing;

pub use constprop_check_rules::written;
pub use equation::{Equation, RightSide};
pub use law::eliminated_keeps;
pub use order::rank;
pub use reading::read_equation;
pub use same::is_same;
pub use sharing::share;
pub use survival::{is_load, is_load_from, is_overwritten, kills, made};
pub use writing::push_equation;

//! The reader of expressions (C99 6.5), by precedence climbing: an operand, and behind it operators as
//! long as they bind strongly enough. It is bounded by fuel: what is higher is refused.
#![tactic(auto)]

mod boxing;
mod measured;
mod operators;
mod reading;

pub use reading::expression;

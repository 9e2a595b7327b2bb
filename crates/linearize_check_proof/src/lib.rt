//! Code that is laid out by an order of a function's blocks: which orders are allowed, what the code
//! is, and that whole programs laid out so keep the meaning.
#![tactic(auto)]

mod law;

pub use law::laid_out_keeps;
pub use linear_language::{Function, Instruction};

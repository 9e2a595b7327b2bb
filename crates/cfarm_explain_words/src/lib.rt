//! Why an operator has no value for its words, and words as they are told.
#![tactic(auto)]

mod numbers;
mod operators;

pub use numbers::push_index;
pub use operators::{push_one, push_two};

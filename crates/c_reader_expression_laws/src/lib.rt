//! How expressions are read, as functions on lists of tokens, and what ties them to the grammar (C99 6.5):
//! what is read is spelled and low, what is spelled and low is read, and a fault is one at every height.
#![tactic(auto)]

mod grammar;
mod next;

pub use grammar::{fault_is_due, one_tree, read_is_spelled, spelled_is_read};
pub use next::Next;

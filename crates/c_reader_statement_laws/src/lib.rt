//! How statements are read, as functions on lists of tokens, and what ties them to the grammar (C99 6.8):
//! what is read is spelled and low, what is spelled and low is read, and more fuel reads the same.
#![tactic(auto)]

mod first;

pub use first::First;

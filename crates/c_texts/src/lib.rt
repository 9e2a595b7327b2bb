//! C texts: the checked program that a text stands for, or its first fault: of its tokens, else of its tree, else of what the tree
//! declares, with its number, its name and its place.
#![tactic(auto)]

mod accepting;
mod error;

pub use accepting::accept;
pub use error::TextError;

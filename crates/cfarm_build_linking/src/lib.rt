//! What nodes make that took their turns and have met: the bytes of the program that the first of them links, and the report of what it
//! has learned, where each of them links all functions.
#![tactic(auto)]

mod linking;

pub use linking::built_by;

//! Readers and writers of Cminor's trees. What calls itself does so at most as often as a tree is high.
#![tactic(auto)]

mod expressions;
mod parts;
mod plain;
mod statements;
mod writing;

pub use parts::read_frame;
pub use statements::{read_body, sequence};
pub use writing::push_statement;

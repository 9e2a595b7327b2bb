//! The journal of one node, as opening reads it, from the bytes of its two files. Nothing is written: an old journal that counts is read as
//! migration would leave it.
#![tactic(auto)]

mod files;
mod journal;

pub use files::NodeFiles;
pub use journal::journal_of;

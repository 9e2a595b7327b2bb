//! Reading the bytes of a node's journal: the header that is asked for, and behind it each record whose gate is open, up
//! to the first closed gate. Reading is exact, and what is refused is told by its first fault.
#![tactic(auto)]

mod reading;

pub use reading::{Listed, begins_with, behind_open, is_digest, read, read_first, read_records};

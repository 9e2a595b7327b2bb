//! What is written for records behind the closed gate of a journal, and what a crash leaves of the journal's bytes while that is
//! written and the gate is opened: bytes alone, with no disk.
#![tactic(auto)]

mod laws;
mod putting;

pub use laws::{either_between, text_grows};
pub use putting::{MOST_BYTES, blocks_behind};

//! The fixed text of native code: how a program is entered, from C's start or under a prefix, how a byte is printed, and how a run ends.
//! What it does is trusted; that it is written is proved.
#![tactic(auto)]

mod doors;
mod fixed;

pub use doors::{push_door, push_labelled, push_main_door};
pub use fixed::{push_data, push_ends, push_enter, push_flush, push_note, push_put};

//! Where the words of the two lowest languages lie: registers, slots, the moves between them, and
//! what a frame and a call name.
#![tactic(auto)]

mod location;
mod reading;
mod register;
mod writing;

pub use lang_helpers::{Half, ReadOne, push_each, read_global, read_so_many};
pub use location::{Location, Move};
pub use reading::{read_call, read_frame, read_move, read_moves, read_register, read_value};
pub use register::{REGISTER_COUNT, Register};
pub use writing::{push_call, push_frame, push_move, push_moves, push_value};

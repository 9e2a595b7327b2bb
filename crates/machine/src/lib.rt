//! What the two lowest languages, LTL and Linear, share: plain instructions and tests, what each of them does to the words
//! of a frame, and calls: which words a caller has when it goes on, and which a called function begins with. Where the
//! words lie is in the crate below.
#![tactic(auto)]

mod act;
mod arguments;
mod callees;
mod callers;
mod reading;
mod test;
mod writing;

pub use act::Act;
pub use arguments::Arguments;
pub use callees::callees_begin;
pub use callers::callers_go_on;
pub use ints::Op;
pub use lang_base::{Global, NoMemory};
pub use locations::{
    Half, Location, Move, ReadOne, Register, push_call, push_each, push_frame, push_moves,
    push_value, read_call, read_frame, read_global, read_moves, read_so_many, read_value,
};
pub use reading::{read_act, read_test};
pub use test::Test;
pub use writing::{push_act, push_test};

//! The steps of a run of a checked C program that is followed to where it goes wrong, with the place of each part at hand, on a stack of
//! its own: no run grows the native stack.
#![tactic(auto)]

mod acting;
mod arguments;
mod arriving;
mod calling;
mod choice;
mod leaving;
mod looping;

pub use arguments::push_blank;
pub use arriving::arrive;
pub use calling::{function_at, places_in};
pub use leaving::falls;

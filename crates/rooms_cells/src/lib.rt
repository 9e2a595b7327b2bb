//! The write-once cells of a room, one a node, and what one seat has seen of them. A cell shows one value for good: what
//! two seats of one shelf have seen in one cell is equal. That an empty cell takes a value, and that what is put is ever
//! seen, nobody promises.
#![tactic(auto)]

mod shelf;
mod sight;

pub use shelf::{Shelf, Sights};
pub use sight::{Put, Sight};

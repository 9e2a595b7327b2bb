//! The records that a node puts down of its steps in one room, and their order: what one more goes on from, and what it leaves to be
//! done. Definitions and lemmas alone, on which the calls of a node stand.
#![tactic(auto)]

pub use rooms_seat::WordSeat;

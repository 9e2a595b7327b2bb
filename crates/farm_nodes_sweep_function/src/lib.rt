//! What a node does in one room of a function while it sweeps all its rooms: what it is about to do there, the input of a pass being what
//! is known by then, and the doing of it. No call here knows a journal.
#![tactic(auto)]

mod planned;
mod staging;
mod taking;

pub use planned::{Planned, Step};
pub use staging::stage_in;
pub use taking::take_in;

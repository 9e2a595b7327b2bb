//! What a node does in the room of one pass while it sweeps all its rooms: it looks at the words of every node and at the offer that was
//! learned, and tells its offer or the step that it takes next, with the record of that. No call here knows a journal, nor takes a step.
#![tactic(auto)]

mod acting;
mod choice;
mod looking;
mod offering;
mod staging;

pub use choice::Choice;
pub use staging::stage;
